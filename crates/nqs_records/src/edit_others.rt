//! Edits of access, devices and requests, by their codes. Each function has an arm for each row of
//! its part of the table (`specs/EditTable.antt`), and asks the next one else.

ghost use Rattle.std.specs.Prelude.{◌≡◌};
ghost use Rattle.nqs_records.specs.Reading.{bad_at};
ghost use Rattle.nqs_records.specs.Tables.{by_code};
ghost use Rattle.nqs_records.specs.EditFields.{value_at};
ghost use Rattle.nqs_records.specs.EditTable.{access_edits, devices_edits, rows_edits};

use crate::edit_shapes::{
    read_named_and_name, read_named_and_priority, read_names, read_one_name, read_one_named,
};
use crate::fault::RecordFault;
use nqs_types::{AccessEdit, DevicesEdit, Edit, RowsEdit};

#[tactic(auto, unfolding(crate::specs::EditTable::access_edits))]
pub(crate) fn read_access_edit(
    code: u8,
    bytes: &[u8],
    place: u64,
    at: u64,
) -> Result<(Edit, u64), RecordFault>
    ensures { result ≡ by_code value_at access_edits code (bad_at at) bytes.now place }
{
    match code {
        31 => {
            let (queue, place) = read_one_name(bytes, place)?;
            Ok((
                Edit::Access(AccessEdit::SetUnrestrictedAccess { queue }),
                place,
            ))
        }
        32 => {
            let (queue, place) = read_one_name(bytes, place)?;
            Ok((Edit::Access(AccessEdit::SetNoAccess { queue }), place))
        }
        33 => {
            let ((user, queue), place) = read_names(bytes, place)?;
            Ok((Edit::Access(AccessEdit::AddUser { user, queue }), place))
        }
        34 => {
            let ((user, queue), place) = read_names(bytes, place)?;
            Ok((Edit::Access(AccessEdit::RemoveUser { user, queue }), place))
        }
        35 => {
            let (user, place) = read_one_name(bytes, place)?;
            Ok((Edit::Access(AccessEdit::AddManager { user }), place))
        }
        36 => {
            let (user, place) = read_one_name(bytes, place)?;
            Ok((Edit::Access(AccessEdit::RemoveManager { user }), place))
        }
        37 => {
            let (user, place) = read_one_name(bytes, place)?;
            Ok((Edit::Access(AccessEdit::AddOperator { user }), place))
        }
        38 => {
            let (user, place) = read_one_name(bytes, place)?;
            Ok((Edit::Access(AccessEdit::RemoveOperator { user }), place))
        }
        _ => read_devices_edit(code, bytes, place, at),
    }
}

#[tactic(auto, unfolding(crate::specs::EditTable::devices_edits))]
fn read_devices_edit(
    code: u8,
    bytes: &[u8],
    place: u64,
    at: u64,
) -> Result<(Edit, u64), RecordFault>
    ensures { result ≡ by_code value_at devices_edits code (bad_at at) bytes.now place }
{
    match code {
        24 => {
            let ((device, forms), place) = read_names(bytes, place)?;
            Ok((
                Edit::Devices(DevicesEdit::CreateDevice { device, forms }),
                place,
            ))
        }
        25 => {
            let (device, place) = read_one_name(bytes, place)?;
            Ok((Edit::Devices(DevicesEdit::DeleteDevice { device }), place))
        }
        26 => {
            let (device, place) = read_one_name(bytes, place)?;
            Ok((Edit::Devices(DevicesEdit::EnableDevice { device }), place))
        }
        27 => {
            let (device, place) = read_one_name(bytes, place)?;
            Ok((Edit::Devices(DevicesEdit::DisableDevice { device }), place))
        }
        28 => {
            let ((forms, device), place) = read_names(bytes, place)?;
            Ok((
                Edit::Devices(DevicesEdit::SetForms { forms, device }),
                place,
            ))
        }
        29 => {
            let ((device, queue), place) = read_names(bytes, place)?;
            Ok((
                Edit::Devices(DevicesEdit::AddDevice { device, queue }),
                place,
            ))
        }
        30 => {
            let ((device, queue), place) = read_names(bytes, place)?;
            Ok((
                Edit::Devices(DevicesEdit::RemoveDevice { device, queue }),
                place,
            ))
        }
        _ => read_rows_edit(code, bytes, place, at),
    }
}

#[tactic(auto, unfolding(crate::specs::EditTable::rows_edits))]
fn read_rows_edit(code: u8, bytes: &[u8], place: u64, at: u64) -> Result<(Edit, u64), RecordFault>
    ensures { result ≡ by_code value_at rows_edits code (bad_at at) bytes.now place }
{
    match code {
        10 => {
            let (queue, place) = read_one_name(bytes, place)?;
            Ok((Edit::Rows(RowsEdit::AbortQueue { queue }), place))
        }
        43 => {
            let (request, place) = read_one_named(bytes, place)?;
            Ok((Edit::Rows(RowsEdit::HoldRequest { request }), place))
        }
        44 => {
            let (request, place) = read_one_named(bytes, place)?;
            Ok((Edit::Rows(RowsEdit::ReleaseRequest { request }), place))
        }
        45 => {
            let ((request, queue), place) = read_named_and_name(bytes, place)?;
            Ok((Edit::Rows(RowsEdit::MoveRequest { request, queue }), place))
        }
        46 => {
            let ((request, priority), place) = read_named_and_priority(bytes, place)?;
            Ok((
                Edit::Rows(RowsEdit::ModifyRequest { request, priority }),
                place,
            ))
        }
        _ => Err(RecordFault::BadField(at)),
    }
}
