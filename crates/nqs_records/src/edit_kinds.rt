//! Edits of queues, of the host's parameters and of limits, by their codes. Each function has an
//! arm for each row of its part of the table (`specs/EditTable.antt`), and asks the next one else.

ghost use Rattle.std.specs.Prelude.{◌≡◌};
ghost use Rattle.nqs_records.specs.Reading.{bad_at};
ghost use Rattle.nqs_records.specs.Tables.{by_code};
ghost use Rattle.nqs_records.specs.EditFields.{value_at};
ghost use Rattle.nqs_records.specs.EditTable.{edits, setting_edits, limits_edits};

use crate::edit_others::read_access_edit;
use crate::edit_shapes::{
    read_created, read_dest_and_name, read_limit, read_names, read_nothing, read_number_and_name,
    read_one_name, read_one_number, read_one_wait, read_pipe_created, read_user_limit,
};
use crate::fault::RecordFault;
use nqs_types::{ConfEdit, Edit, LimitsEdit};

// The edit of a code, whose arguments stand at the place. A code of no edit is at fault, at `at`.
#[tactic(auto, unfolding(crate::specs::EditTable::edits))]
pub(crate) fn read_edit_of(
    code: u8,
    bytes: &[u8],
    place: u64,
    at: u64,
) -> Result<(Edit, u64), RecordFault>
    ensures { result ≡ by_code value_at edits code (bad_at at) bytes.now place }
{
    match code {
        1 => {
            let ((queue, (priority, (run_limit, pipe_only))), place) = read_created(bytes, place)?;
            Ok((
                Edit::Conf(ConfEdit::CreateBatchQueue {
                    queue,
                    priority,
                    run_limit,
                    pipe_only,
                }),
                place,
            ))
        }
        2 => {
            let ((queue, (priority, (run_limit, pipe_only))), place) = read_created(bytes, place)?;
            Ok((
                Edit::Conf(ConfEdit::CreateDeviceQueue {
                    queue,
                    priority,
                    run_limit,
                    pipe_only,
                }),
                place,
            ))
        }
        3 => {
            let ((queue, (priority, (run_limit, (pipe_only, destination)))), place) =
                read_pipe_created(bytes, place)?;
            Ok((
                Edit::Conf(ConfEdit::CreatePipeQueue {
                    queue,
                    priority,
                    run_limit,
                    pipe_only,
                    destination,
                }),
                place,
            ))
        }
        4 => {
            let (queue, place) = read_one_name(bytes, place)?;
            Ok((Edit::Conf(ConfEdit::DeleteQueue { queue }), place))
        }
        5 => {
            let (queue, place) = read_one_name(bytes, place)?;
            Ok((Edit::Conf(ConfEdit::EnableQueue { queue }), place))
        }
        6 => {
            let (queue, place) = read_one_name(bytes, place)?;
            Ok((Edit::Conf(ConfEdit::DisableQueue { queue }), place))
        }
        7 => {
            let (queue, place) = read_one_name(bytes, place)?;
            Ok((Edit::Conf(ConfEdit::StartQueue { queue }), place))
        }
        8 => {
            let (queue, place) = read_one_name(bytes, place)?;
            Ok((Edit::Conf(ConfEdit::StopQueue { queue }), place))
        }
        9 => {
            let (queue, place) = read_one_name(bytes, place)?;
            Ok((Edit::Conf(ConfEdit::PurgeQueue { queue }), place))
        }
        _ => read_setting_edit(code, bytes, place, at),
    }
}

#[tactic(auto, unfolding(crate::specs::EditTable::setting_edits))]
fn read_setting_edit(
    code: u8,
    bytes: &[u8],
    place: u64,
    at: u64,
) -> Result<(Edit, u64), RecordFault>
    ensures { result ≡ by_code value_at setting_edits code (bad_at at) bytes.now place }
{
    match code {
        11 => {
            let ((priority, queue), place) = read_number_and_name(bytes, place, 63)?;
            Ok((Edit::Conf(ConfEdit::SetPriority { priority, queue }), place))
        }
        12 => {
            let ((limit, queue), place) = read_number_and_name(bytes, place, 10_000)?;
            Ok((Edit::Conf(ConfEdit::SetRunLimit { limit, queue }), place))
        }
        16 => {
            let ((destination, queue), place) = read_dest_and_name(bytes, place)?;
            Ok((
                Edit::Conf(ConfEdit::AddDestination { destination, queue }),
                place,
            ))
        }
        17 => {
            let ((destination, queue), place) = read_dest_and_name(bytes, place)?;
            Ok((
                Edit::Conf(ConfEdit::RemoveDestination { destination, queue }),
                place,
            ))
        }
        39 => {
            let (queue, place) = read_one_name(bytes, place)?;
            Ok((Edit::Conf(ConfEdit::SetDefaultQueue { queue }), place))
        }
        40 => {
            let (_, place) = read_nothing(bytes, place)?;
            Ok((Edit::Conf(ConfEdit::SetNoDefaultQueue), place))
        }
        41 => {
            let (seconds, place) = read_one_wait(bytes, place)?;
            Ok((Edit::Conf(ConfEdit::SetPatience { seconds }), place))
        }
        42 => {
            let (seconds, place) = read_one_wait(bytes, place)?;
            Ok((Edit::Conf(ConfEdit::SetRetryWait { seconds }), place))
        }
        54 => {
            let ((destination, queue), place) = read_dest_and_name(bytes, place)?;
            Ok((
                Edit::Conf(ConfEdit::FirstDestination { destination, queue }),
                place,
            ))
        }
        _ => read_limits_edit(code, bytes, place, at),
    }
}

#[tactic(auto, unfolding(crate::specs::EditTable::limits_edits))]
fn read_limits_edit(code: u8, bytes: &[u8], place: u64, at: u64) -> Result<(Edit, u64), RecordFault>
    ensures { result ≡ by_code value_at limits_edits code (bad_at at) bytes.now place }
{
    match code {
        13 => {
            let ((limit, queue), place) = read_user_limit(bytes, place)?;
            Ok((
                Edit::Limits(LimitsEdit::SetUserLimit { limit, queue }),
                place,
            ))
        }
        14 => {
            let ((limit, queue), place) = read_limit(bytes, place)?;
            Ok((
                Edit::Limits(LimitsEdit::SetCpuLimit { limit, queue }),
                place,
            ))
        }
        15 => {
            let ((limit, queue), place) = read_limit(bytes, place)?;
            Ok((
                Edit::Limits(LimitsEdit::SetMemoryLimit { limit, queue }),
                place,
            ))
        }
        18 => {
            let (complex, place) = read_one_name(bytes, place)?;
            Ok((Edit::Limits(LimitsEdit::CreateComplex { complex }), place))
        }
        19 => {
            let (complex, place) = read_one_name(bytes, place)?;
            Ok((Edit::Limits(LimitsEdit::DeleteComplex { complex }), place))
        }
        20 => {
            let ((queue, complex), place) = read_names(bytes, place)?;
            Ok((Edit::Limits(LimitsEdit::AddQueue { queue, complex }), place))
        }
        21 => {
            let ((queue, complex), place) = read_names(bytes, place)?;
            Ok((
                Edit::Limits(LimitsEdit::RemoveQueue { queue, complex }),
                place,
            ))
        }
        22 => {
            let ((limit, complex), place) = read_number_and_name(bytes, place, 10_000)?;
            Ok((
                Edit::Limits(LimitsEdit::SetComplexLimit { limit, complex }),
                place,
            ))
        }
        23 => {
            let (limit, place) = read_one_number(bytes, place, 10_000)?;
            Ok((Edit::Limits(LimitsEdit::SetGlobalLimit { limit }), place))
        }
        _ => read_access_edit(code, bytes, place, at),
    }
}
