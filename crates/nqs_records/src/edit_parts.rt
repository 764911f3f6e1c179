//! Single arguments of edits.

ghost use Rattle.std.specs.Prelude.{◌≡◌};
ghost use Rattle.nqs_records.specs.Fields.{opt_at};
ghost use Rattle.nqs_records.specs.Parts.{at_most_at, wait_at, flag_at, dest_at, named_at};

use crate::fault::RecordFault;
use crate::field::{read_bool, read_name, read_u64};
use crate::part::read_seq;
use nqs_types::{Named, NamedDest};

#[tactic(auto, unfolding(crate::specs::Parts::at_most_at))]
pub(crate) fn read_at_most(bytes: &[u8], place: u64, limit: u64) -> Result<(u64, u64), RecordFault>
    ensures { result ≡ at_most_at limit bytes.now place }
{
    let (value, next) = read_u64(bytes, place)?;
    if value <= limit {
        Ok((value, next))
    } else {
        Err(RecordFault::BadField(place))
    }
}

#[tactic(auto, unfolding(crate::specs::Fields::opt_at))]
pub(crate) fn read_opt_at_most(
    bytes: &[u8],
    place: u64,
    limit: u64,
) -> Result<(Option<u64>, u64), RecordFault>
    ensures { result ≡ opt_at (at_most_at limit) bytes.now place }
{
    let (is_there, next) = read_bool(bytes, place)?;
    if !is_there {
        return Ok((None, next));
    }
    let (value, end) = read_at_most(bytes, next, limit)?;
    Ok((Some(value), end))
}

#[tactic(auto, unfolding(crate::specs::Parts::wait_at))]
pub(crate) fn read_wait(bytes: &[u8], place: u64) -> Result<(u64, u64), RecordFault>
    ensures { result ≡ wait_at bytes.now place }
{
    let (seconds, next) = read_u64(bytes, place)?;
    if 1 <= seconds && seconds <= 86_400 {
        Ok((seconds, next))
    } else {
        Err(RecordFault::BadField(place))
    }
}

// A flag: whether the number 1 is there. Any other number is at fault.
#[tactic(auto, unfolding(crate::specs::Parts::flag_at, crate::specs::Fields::opt_at))]
pub(crate) fn read_flag(bytes: &[u8], place: u64) -> Result<(bool, u64), RecordFault>
    ensures { result ≡ flag_at bytes.now place }
{
    let (is_set, next) = read_bool(bytes, place)?;
    if !is_set {
        return Ok((false, next));
    }
    let (number, end) = read_u64(bytes, next)?;
    if number == 1 {
        Ok((true, end))
    } else {
        Err(RecordFault::BadField(next))
    }
}

#[tactic(auto, unfolding(crate::specs::Parts::dest_at))]
pub(crate) fn read_dest(bytes: &[u8], place: u64) -> Result<(NamedDest, u64), RecordFault>
    ensures { result ≡ dest_at bytes.now place }
{
    let (queue, next) = read_name(bytes, place)?;
    let (host, end) = read_name(bytes, next)?;
    Ok((NamedDest { queue, host }, end))
}

#[tactic(auto, unfolding(crate::specs::Fields::opt_at))]
pub(crate) fn read_opt_dest(
    bytes: &[u8],
    place: u64,
) -> Result<(Option<NamedDest>, u64), RecordFault>
    ensures { result ≡ opt_at dest_at bytes.now place }
{
    let (is_there, next) = read_bool(bytes, place)?;
    if !is_there {
        return Ok((None, next));
    }
    let (destination, end) = read_dest(bytes, next)?;
    Ok((Some(destination), end))
}

#[tactic(auto, unfolding(crate::specs::Parts::named_at))]
pub(crate) fn read_named(bytes: &[u8], place: u64) -> Result<(Named, u64), RecordFault>
    ensures { result ≡ named_at bytes.now place }
{
    let (seq, next) = read_seq(bytes, place)?;
    let (host, end) = read_name(bytes, next)?;
    Ok((Named { seq, host }, end))
}
