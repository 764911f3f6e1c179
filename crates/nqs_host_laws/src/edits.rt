//! Edits that fit a host in order, and are within their limits, may stand in a record.

ghost use Rattle.std.specs.Prelude.{IsTrue};
ghost use Rattle.nqs_state.specs.State.{content};
ghost use Rattle.nqs_types.specs.declared.edit.Edit.TheVariants.{Rows};
ghost use Rattle.nqs_rules.specs.Conf.{is_conf_within};
ghost use Rattle.nqs_rules.specs.Limits.{is_limits_within};
ghost use Rattle.nqs_rules.specs.Rows.{is_rows_within};
ghost use Rattle.nqs_rules.specs.Sane.{is_sane_edit};
ghost use Rattle.nqs_rules.specs.Fits.{edit_fits};
ghost use Rattle.nqs_rules.specs.InOrder.{IsInOrder};
ghost use Rattle.nqs_records.specs.EditValues.{IsConfEdit, IsLimitsEdit, IsAccessEdit, IsDevicesEdit, IsRowsEdit, IsEdit};

use crate::values::{dest_stands, maybe_dest_stands};
use nqs_base::name_stands;
use nqs_records::maybe_number_stands;
use nqs_state::HostState;
use nqs_types::{AccessEdit, ConfEdit, DevicesEdit, Edit, LimitsEdit, RowsEdit};

fn conf_edit_stands(edit: &ConfEdit)
    requires { IsTrue (is_conf_within edit.now) }
    ensures { IsConfEdit edit.now }
{
    match edit {
        ConfEdit::CreateBatchQueue { queue, .. } => name_stands(queue),
        ConfEdit::CreateDeviceQueue { queue, .. } => name_stands(queue),
        ConfEdit::CreatePipeQueue {
            queue,
            destination,
            ..
        } => {
            name_stands(queue);
            maybe_dest_stands(destination);
        }
        ConfEdit::DeleteQueue { queue } => name_stands(queue),
        ConfEdit::EnableQueue { queue } => name_stands(queue),
        ConfEdit::DisableQueue { queue } => name_stands(queue),
        ConfEdit::StartQueue { queue } => name_stands(queue),
        ConfEdit::StopQueue { queue } => name_stands(queue),
        ConfEdit::PurgeQueue { queue } => name_stands(queue),
        ConfEdit::SetPriority { queue, .. } => name_stands(queue),
        ConfEdit::SetRunLimit { queue, .. } => name_stands(queue),
        ConfEdit::AddDestination { destination, queue } => {
            dest_stands(destination);
            name_stands(queue);
        }
        ConfEdit::RemoveDestination { destination, queue } => {
            dest_stands(destination);
            name_stands(queue);
        }
        ConfEdit::FirstDestination { destination, queue } => {
            dest_stands(destination);
            name_stands(queue);
        }
        ConfEdit::SetDefaultQueue { queue } => name_stands(queue),
        ConfEdit::SetNoDefaultQueue => {}
        ConfEdit::SetPatience { .. } => {}
        ConfEdit::SetRetryWait { .. } => {}
    }
}

fn limits_edit_stands(edit: &LimitsEdit)
    requires { IsTrue (is_limits_within edit.now) }
    ensures { IsLimitsEdit edit.now }
{
    match edit {
        LimitsEdit::SetUserLimit { queue, .. } => name_stands(queue),
        LimitsEdit::SetCpuLimit { limit, queue } => {
            maybe_number_stands(limit);
            name_stands(queue);
        }
        LimitsEdit::SetMemoryLimit { limit, queue } => {
            maybe_number_stands(limit);
            name_stands(queue);
        }
        LimitsEdit::CreateComplex { complex } => name_stands(complex),
        LimitsEdit::DeleteComplex { complex } => name_stands(complex),
        LimitsEdit::AddQueue { queue, complex } => {
            name_stands(queue);
            name_stands(complex);
        }
        LimitsEdit::RemoveQueue { queue, complex } => {
            name_stands(queue);
            name_stands(complex);
        }
        LimitsEdit::SetComplexLimit { complex, .. } => name_stands(complex),
        LimitsEdit::SetGlobalLimit { .. } => {}
    }
}

fn access_edit_stands(edit: &AccessEdit)
    ensures { IsAccessEdit edit.now }
{
    match edit {
        AccessEdit::SetUnrestrictedAccess { queue } => name_stands(queue),
        AccessEdit::SetNoAccess { queue } => name_stands(queue),
        AccessEdit::AddUser { user, queue } => {
            name_stands(user);
            name_stands(queue);
        }
        AccessEdit::RemoveUser { user, queue } => {
            name_stands(user);
            name_stands(queue);
        }
        AccessEdit::AddManager { user } => name_stands(user),
        AccessEdit::RemoveManager { user } => name_stands(user),
        AccessEdit::AddOperator { user } => name_stands(user),
        AccessEdit::RemoveOperator { user } => name_stands(user),
    }
}

fn devices_edit_stands(edit: &DevicesEdit)
    ensures { IsDevicesEdit edit.now }
{
    match edit {
        DevicesEdit::CreateDevice { device, forms } => {
            name_stands(device);
            name_stands(forms);
        }
        DevicesEdit::DeleteDevice { device } => name_stands(device),
        DevicesEdit::EnableDevice { device } => name_stands(device),
        DevicesEdit::DisableDevice { device } => name_stands(device),
        DevicesEdit::SetForms { forms, device } => {
            name_stands(forms);
            name_stands(device);
        }
        DevicesEdit::AddDevice { device, queue } => {
            name_stands(device);
            name_stands(queue);
        }
        DevicesEdit::RemoveDevice { device, queue } => {
            name_stands(device);
            name_stands(queue);
        }
    }
}

// The request of an edit that fits is one of the host's, so its number is one that a host may give.
fn rows_edit_stands(state: &HostState, edit: &RowsEdit)
    requires order { IsInOrder (content state.now) }
    requires fits { IsTrue (edit_fits (Rows edit.now) (content state.now)) }
    requires within { IsTrue (is_rows_within edit.now) }
    ensures { IsRowsEdit edit.now }
{
    match edit {
        RowsEdit::AbortQueue { queue } => name_stands(queue),
        RowsEdit::HoldRequest { request } => name_stands(&request.host),
        RowsEdit::ReleaseRequest { request } => name_stands(&request.host),
        RowsEdit::MoveRequest { request, queue } => {
            name_stands(&request.host);
            name_stands(queue);
        }
        RowsEdit::ModifyRequest { request, .. } => name_stands(&request.host),
    }
}

pub(crate) fn edit_stands(state: &HostState, edit: &Edit)
    requires order { IsInOrder (content state.now) }
    requires fits { IsTrue (edit_fits edit.now (content state.now)) }
    requires sane { IsTrue (is_sane_edit edit.now) }
    ensures { IsEdit edit.now }
{
    match edit {
        Edit::Conf(edit) => conf_edit_stands(edit),
        Edit::Limits(edit) => limits_edit_stands(edit),
        Edit::Access(edit) => access_edit_stands(edit),
        Edit::Devices(edit) => devices_edit_stands(edit),
        Edit::Rows(edit) => rows_edit_stands(state, edit),
    }
}
