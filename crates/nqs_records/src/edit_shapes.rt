//! Arguments of edits, by the shapes that stand behind their codes.

ghost use Rattle.std.specs.Prelude.{◌≡◌, ◌∷◌, []};
ghost use Rattle.nqs_records.specs.Tables.{values_at};
ghost use Rattle.nqs_records.specs.EditFields.{value_at, eight_bytes, at_most, a_wait, a_name, maybe, a_dest, a_named};
ghost use Rattle.nqs_records.specs.EditTable.{created, pipe_created};

use crate::edit_parts::{
    read_at_most, read_dest, read_flag, read_named, read_opt_at_most, read_opt_dest, read_wait,
};
use crate::fault::RecordFault;
use crate::field::read_name;
use crate::part::read_opt_u64;
use nqs_base::Name;
use nqs_types::{Named, NamedDest};

// No argument: the bytes are for the contract alone.
#[tactic(auto, unfolding(crate::specs::Tables::values_at))]
pub(crate) fn read_nothing(_bytes: &[u8], place: u64) -> Result<((), u64), RecordFault>
    ensures { result ≡ values_at value_at [] _bytes.now place }
{
    Ok(((), place))
}

#[tactic(auto, unfolding(crate::specs::Tables::values_at))]
pub(crate) fn read_one_name(bytes: &[u8], place: u64) -> Result<(Name, u64), RecordFault>
    ensures { result ≡ values_at value_at (a_name ∷ []) bytes.now place }
{
    read_name(bytes, place)
}

#[tactic(auto, unfolding(crate::specs::Tables::values_at))]
pub(crate) fn read_one_number(
    bytes: &[u8],
    place: u64,
    limit: u64,
) -> Result<(u64, u64), RecordFault>
    ensures { result ≡ values_at value_at (at_most limit ∷ []) bytes.now place }
{
    read_at_most(bytes, place, limit)
}

#[tactic(auto, unfolding(crate::specs::Tables::values_at))]
pub(crate) fn read_one_wait(bytes: &[u8], place: u64) -> Result<(u64, u64), RecordFault>
    ensures { result ≡ values_at value_at (a_wait ∷ []) bytes.now place }
{
    read_wait(bytes, place)
}

#[tactic(auto, unfolding(crate::specs::Tables::values_at))]
pub(crate) fn read_one_named(bytes: &[u8], place: u64) -> Result<(Named, u64), RecordFault>
    ensures { result ≡ values_at value_at (a_named ∷ []) bytes.now place }
{
    read_named(bytes, place)
}

#[tactic(auto, unfolding(crate::specs::Tables::values_at))]
pub(crate) fn read_names(bytes: &[u8], place: u64) -> Result<((Name, Name), u64), RecordFault>
    ensures { result ≡ values_at value_at (a_name ∷ a_name ∷ []) bytes.now place }
{
    let (first, next) = read_name(bytes, place)?;
    let (second, end) = read_name(bytes, next)?;
    Ok(((first, second), end))
}

#[tactic(auto, unfolding(crate::specs::Tables::values_at))]
pub(crate) fn read_number_and_name(
    bytes: &[u8],
    place: u64,
    limit: u64,
) -> Result<((u64, Name), u64), RecordFault>
    ensures { result ≡ values_at value_at (at_most limit ∷ a_name ∷ []) bytes.now place }
{
    let (number, next) = read_at_most(bytes, place, limit)?;
    let (name, end) = read_name(bytes, next)?;
    Ok(((number, name), end))
}

#[tactic(auto, unfolding(crate::specs::Tables::values_at))]
pub(crate) fn read_user_limit(
    bytes: &[u8],
    place: u64,
) -> Result<((Option<u64>, Name), u64), RecordFault>
    ensures { result ≡ values_at value_at (maybe (at_most 10000) ∷ a_name ∷ []) bytes.now place }
{
    let (limit, next) = read_opt_at_most(bytes, place, 10_000)?;
    let (queue, end) = read_name(bytes, next)?;
    Ok(((limit, queue), end))
}

#[tactic(auto, unfolding(crate::specs::Tables::values_at))]
pub(crate) fn read_limit(
    bytes: &[u8],
    place: u64,
) -> Result<((Option<u64>, Name), u64), RecordFault>
    ensures { result ≡ values_at value_at (maybe eight_bytes ∷ a_name ∷ []) bytes.now place }
{
    let (limit, next) = read_opt_u64(bytes, place)?;
    let (queue, end) = read_name(bytes, next)?;
    Ok(((limit, queue), end))
}

#[tactic(auto, unfolding(crate::specs::Tables::values_at))]
pub(crate) fn read_dest_and_name(
    bytes: &[u8],
    place: u64,
) -> Result<((NamedDest, Name), u64), RecordFault>
    ensures { result ≡ values_at value_at (a_dest ∷ a_name ∷ []) bytes.now place }
{
    let (destination, next) = read_dest(bytes, place)?;
    let (queue, end) = read_name(bytes, next)?;
    Ok(((destination, queue), end))
}

#[tactic(auto, unfolding(crate::specs::Tables::values_at))]
pub(crate) fn read_named_and_name(
    bytes: &[u8],
    place: u64,
) -> Result<((Named, Name), u64), RecordFault>
    ensures { result ≡ values_at value_at (a_named ∷ a_name ∷ []) bytes.now place }
{
    let (request, next) = read_named(bytes, place)?;
    let (queue, end) = read_name(bytes, next)?;
    Ok(((request, queue), end))
}

#[tactic(auto, unfolding(crate::specs::Tables::values_at))]
pub(crate) fn read_named_and_priority(
    bytes: &[u8],
    place: u64,
) -> Result<((Named, u64), u64), RecordFault>
    ensures { result ≡ values_at value_at (a_named ∷ at_most 63 ∷ []) bytes.now place }
{
    let (request, next) = read_named(bytes, place)?;
    let (priority, end) = read_at_most(bytes, next, 63)?;
    Ok(((request, priority), end))
}

#[tactic(auto, unfolding(crate::specs::Tables::values_at))]
pub(crate) fn read_created(
    bytes: &[u8],
    place: u64,
) -> Result<((Name, (Option<u64>, (Option<u64>, bool))), u64), RecordFault>
    ensures { result ≡ values_at value_at (created) bytes.now place }
{
    let (queue, place) = read_name(bytes, place)?;
    let (priority, place) = read_opt_at_most(bytes, place, 63)?;
    let (run_limit, place) = read_opt_at_most(bytes, place, 10_000)?;
    let (pipe_only, place) = read_flag(bytes, place)?;
    Ok(((queue, (priority, (run_limit, pipe_only))), place))
}

#[tactic(auto, unfolding(crate::specs::Tables::values_at))]
pub(crate) fn read_pipe_created(
    bytes: &[u8],
    place: u64,
) -> Result<
    (
        (
            Name,
            (Option<u64>, (Option<u64>, (bool, Option<NamedDest>))),
        ),
        u64,
    ),
    RecordFault,
>
    ensures { result ≡ values_at value_at (pipe_created) bytes.now place }
{
    let (queue, place) = read_name(bytes, place)?;
    let (priority, place) = read_opt_at_most(bytes, place, 63)?;
    let (run_limit, place) = read_opt_at_most(bytes, place, 10_000)?;
    let (pipe_only, place) = read_flag(bytes, place)?;
    let (destination, place) = read_opt_dest(bytes, place)?;
    Ok((
        (queue, (priority, (run_limit, (pipe_only, destination)))),
        place,
    ))
}
