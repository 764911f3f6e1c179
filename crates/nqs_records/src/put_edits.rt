//! Edits, put at the end of a list, one line a code. After `Memory` a part of it may stand there.

ghost use Rattle.nqs_records.specs.Adds.{Adds};
ghost use Rattle.nqs_records.specs.EditSpelling.{edit_field, conf_field, limits_field, access_field, devices_field, rows_field};

use crate::put_shapes::{
    put_code, put_created, put_pipe_created, put_with_dest, put_with_limit, put_with_name,
    put_with_names, put_with_number, put_with_number_and_name, put_with_request,
    put_with_request_and_name, put_with_request_and_number,
};
use nqs_base::Memory;
use nqs_types::{AccessEdit, ConfEdit, DevicesEdit, Edit, LimitsEdit, RowsEdit};

#[tactic(auto, unfolding(crate::specs::EditSpelling::conf_field))]
fn put_conf(edit: ConfEdit, out: &mut Vec<u8>) -> Result<(), Memory>
    ensures { Adds out.old.items (conf_field edit) result out.new.items }
{
    match edit {
        ConfEdit::CreateBatchQueue {
            queue,
            priority,
            run_limit,
            pipe_only,
        } => put_created(1, queue, priority, run_limit, pipe_only, out),
        ConfEdit::CreateDeviceQueue {
            queue,
            priority,
            run_limit,
            pipe_only,
        } => put_created(2, queue, priority, run_limit, pipe_only, out),
        ConfEdit::CreatePipeQueue {
            queue,
            priority,
            run_limit,
            pipe_only,
            destination,
        } => put_pipe_created(queue, priority, run_limit, pipe_only, destination, out),
        ConfEdit::DeleteQueue { queue } => put_with_name(4, queue, out),
        ConfEdit::EnableQueue { queue } => put_with_name(5, queue, out),
        ConfEdit::DisableQueue { queue } => put_with_name(6, queue, out),
        ConfEdit::StartQueue { queue } => put_with_name(7, queue, out),
        ConfEdit::StopQueue { queue } => put_with_name(8, queue, out),
        ConfEdit::PurgeQueue { queue } => put_with_name(9, queue, out),
        ConfEdit::SetPriority { priority, queue } => put_with_number_and_name(
            11, priority, queue, out,
        ),
        ConfEdit::SetRunLimit { limit, queue } => put_with_number_and_name(12, limit, queue, out),
        ConfEdit::AddDestination { destination, queue } => put_with_dest(
            16,
            destination,
            queue,
            out,
        ),
        ConfEdit::RemoveDestination { destination, queue } => put_with_dest(
            17,
            destination,
            queue,
            out,
        ),
        ConfEdit::SetDefaultQueue { queue } => put_with_name(39, queue, out),
        ConfEdit::SetNoDefaultQueue => put_code(40, out),
        ConfEdit::SetPatience { seconds } => put_with_number(41, seconds, out),
        ConfEdit::SetRetryWait { seconds } => put_with_number(42, seconds, out),
        ConfEdit::FirstDestination { destination, queue } => put_with_dest(
            54,
            destination,
            queue,
            out,
        ),
    }
}

#[tactic(auto, unfolding(crate::specs::EditSpelling::limits_field))]
fn put_limits(edit: LimitsEdit, out: &mut Vec<u8>) -> Result<(), Memory>
    ensures { Adds out.old.items (limits_field edit) result out.new.items }
{
    match edit {
        LimitsEdit::SetUserLimit { limit, queue } => put_with_limit(13, limit, queue, out),
        LimitsEdit::SetCpuLimit { limit, queue } => put_with_limit(14, limit, queue, out),
        LimitsEdit::SetMemoryLimit { limit, queue } => put_with_limit(15, limit, queue, out),
        LimitsEdit::CreateComplex { complex } => put_with_name(18, complex, out),
        LimitsEdit::DeleteComplex { complex } => put_with_name(19, complex, out),
        LimitsEdit::AddQueue { queue, complex } => put_with_names(20, queue, complex, out),
        LimitsEdit::RemoveQueue { queue, complex } => put_with_names(21, queue, complex, out),
        LimitsEdit::SetComplexLimit { limit, complex } => put_with_number_and_name(
            22, limit, complex, out,
        ),
        LimitsEdit::SetGlobalLimit { limit } => put_with_number(23, limit, out),
    }
}

#[tactic(auto, unfolding(crate::specs::EditSpelling::access_field))]
fn put_access(edit: AccessEdit, out: &mut Vec<u8>) -> Result<(), Memory>
    ensures { Adds out.old.items (access_field edit) result out.new.items }
{
    match edit {
        AccessEdit::SetUnrestrictedAccess { queue } => put_with_name(31, queue, out),
        AccessEdit::SetNoAccess { queue } => put_with_name(32, queue, out),
        AccessEdit::AddUser { user, queue } => put_with_names(33, user, queue, out),
        AccessEdit::RemoveUser { user, queue } => put_with_names(34, user, queue, out),
        AccessEdit::AddManager { user } => put_with_name(35, user, out),
        AccessEdit::RemoveManager { user } => put_with_name(36, user, out),
        AccessEdit::AddOperator { user } => put_with_name(37, user, out),
        AccessEdit::RemoveOperator { user } => put_with_name(38, user, out),
    }
}

#[tactic(auto, unfolding(crate::specs::EditSpelling::devices_field))]
fn put_devices(edit: DevicesEdit, out: &mut Vec<u8>) -> Result<(), Memory>
    ensures { Adds out.old.items (devices_field edit) result out.new.items }
{
    match edit {
        DevicesEdit::CreateDevice { device, forms } => put_with_names(24, device, forms, out),
        DevicesEdit::DeleteDevice { device } => put_with_name(25, device, out),
        DevicesEdit::EnableDevice { device } => put_with_name(26, device, out),
        DevicesEdit::DisableDevice { device } => put_with_name(27, device, out),
        DevicesEdit::SetForms { forms, device } => put_with_names(28, forms, device, out),
        DevicesEdit::AddDevice { device, queue } => put_with_names(29, device, queue, out),
        DevicesEdit::RemoveDevice { device, queue } => put_with_names(30, device, queue, out),
    }
}

#[tactic(auto, unfolding(crate::specs::EditSpelling::rows_field))]
fn put_rows(edit: RowsEdit, out: &mut Vec<u8>) -> Result<(), Memory>
    ensures { Adds out.old.items (rows_field edit) result out.new.items }
{
    match edit {
        RowsEdit::AbortQueue { queue } => put_with_name(10, queue, out),
        RowsEdit::HoldRequest { request } => put_with_request(43, request, out),
        RowsEdit::ReleaseRequest { request } => put_with_request(44, request, out),
        RowsEdit::MoveRequest { request, queue } => put_with_request_and_name(
            45, request, queue, out,
        ),
        RowsEdit::ModifyRequest { request, priority } => put_with_request_and_number(
            46, request, priority, out,
        ),
    }
}

#[tactic(auto, unfolding(crate::specs::EditSpelling::edit_field))]
pub(crate) fn put_edit(edit: Edit, out: &mut Vec<u8>) -> Result<(), Memory>
    ensures { Adds out.old.items (edit_field edit) result out.new.items }
{
    match edit {
        Edit::Conf(edit) => put_conf(edit, out),
        Edit::Limits(edit) => put_limits(edit, out),
        Edit::Access(edit) => put_access(edit, out),
        Edit::Devices(edit) => put_devices(edit, out),
        Edit::Rows(edit) => put_rows(edit, out),
    }
}
