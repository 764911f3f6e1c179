//! Values that are read, one behind the other or alone, and the lists of records: a count of one
//! byte, and as many values.

ghost use Rattle.std.specs.Prelude.{◌≡◌, ◌≤◌, length};
ghost use Rattle.nqs_records.specs.Reading.{Reading, Answers, alone, repeated, counted, within};
ghost use Rattle.nqs_records.specs.Fields.{u8_at, name_at};
ghost use Rattle.nqs_records.specs.Values.{is_at_most, is_site_count};
ghost use Rattle.nqs_records.specs.Parts.{part_at, hand_at};

use crate::fault::RecordFault;
use crate::field::{read_name, read_u8};
use crate::job::read_u8_at_most;
use crate::part::{read_hand, read_part};
use nqs_base::{Items, ListOf, Name, NameList};
use nqs_types::{HostId, OutPart, PeerNumber};
use std::alloc::Global;

/// The form that values have in records.
pub struct InRecord;

/// A value that is read at a place of bytes, with the place behind it. It may have several forms.
pub trait Read<F>: Drop {
    ghost at: { Reading Self };

    /// The value at the place.
    fn read(alloc: Global, bytes: &[u8], place: u64) -> Result<(Self, u64), RecordFault>
        ensures { Answers (at bytes.now place) result };
}

impl Read<InRecord> for Name {
    ghost at = { name_at };

    fn read(_alloc: Global, bytes: &[u8], place: u64) -> Result<(Name, u64), RecordFault> {
        read_name(bytes, place)
    }
}

impl Read<InRecord> for OutPart {
    ghost at = { part_at };

    fn read(alloc: Global, bytes: &[u8], place: u64) -> Result<(OutPart, u64), RecordFault> {
        read_part(alloc, bytes, place)
    }
}

impl Read<InRecord> for PeerNumber {
    ghost at = { hand_at };

    fn read(_alloc: Global, bytes: &[u8], place: u64) -> Result<(PeerNumber, u64), RecordFault> {
        read_hand(bytes, place)
    }
}

/// A value, and nothing behind it.
pub fn read_alone<F, T: Read<F>>(alloc: Global, bytes: &[u8], place: u64) -> Result<T, RecordFault>
    ensures { Answers (alone T.at bytes.now place) result }
{
    let (value, end) = T::read(alloc, bytes, place)?;
    if end < bytes.len() as u64 {
        return Err(RecordFault::Trailing(end));
    }
    Ok(value)
}

// For how many of so many values memory is asked at once: each takes a byte or more of those that are
// there.
fn room_for(count: u64, bytes: &[u8], place: u64) -> usize
    ensures { result ≤ length bytes.now }
{
    let behind = bytes.len().saturating_sub(place as usize);
    if count < behind as u64 {
        count as usize
    } else {
        behind
    }
}

/// So many values, one behind the other. Memory is asked for at once, for no more values than there
/// are bytes.
pub fn repeat<F, T: Read<F>>(
    alloc: Global,
    bytes: &[u8],
    place: u64,
    count: u64,
) -> Result<(Items<T>, u64), RecordFault>
    ensures { Answers (repeated count T.at bytes.now place) result }
{
    let mut items = Vec::new(alloc);
    items.reserve(room_for(count, bytes, place))?;
    let mut here = place;
    let mut left = count;
    while left > 0 {
        let (item, next) = T::read(alloc, bytes, here)?;
        items.push(item)?;
        here = next;
        left -= 1;
    }
    Ok((Items::from_vec(items), here))
}

/// The same of small values.
pub fn repeat_small<F, T: Read<F> + Copy>(
    alloc: Global,
    bytes: &[u8],
    place: u64,
    count: u64,
) -> Result<(ListOf<T>, u64), RecordFault>
    ensures { Answers (repeated count T.at bytes.now place) result }
{
    let (items, end) = repeat::<F, T>(alloc, bytes, place, count)?;
    Ok((ListOf::from_vec(items.into_vec()), end))
}

fn read_site_count(bytes: &[u8], place: u64, me: HostId) -> Result<(u8, u64), RecordFault>
    ensures { result ≡ within (is_site_count me) u8_at bytes.now place }
{
    let (count, next) = read_u8(bytes, place)?;
    if 1 <= count && count <= 16 && me.0 < count {
        Ok((count, next))
    } else {
        Err(RecordFault::BadField(place))
    }
}

// The names of a site that has this host.
pub(crate) fn read_site_names(
    alloc: Global,
    bytes: &[u8],
    place: u64,
    me: HostId,
) -> Result<(NameList, u64), RecordFault>
    ensures { Answers (counted (within (is_site_count me) u8_at) name_at bytes.now place) result }
{
    let (count, next) = read_site_count(bytes, place, me)?;
    repeat_small::<InRecord, Name>(alloc, bytes, next, u64::from(count))
}

// At most two outputs.
pub(crate) fn read_parts(
    alloc: Global,
    bytes: &[u8],
    place: u64,
) -> Result<(Items<OutPart>, u64), RecordFault>
    ensures { Answers (counted (within (is_at_most 2) u8_at) part_at bytes.now place) result }
{
    let (count, next) = read_u8_at_most(bytes, place, 2)?;
    repeat::<InRecord, OutPart>(alloc, bytes, next, u64::from(count))
}

pub(crate) fn read_hands(
    alloc: Global,
    bytes: &[u8],
    place: u64,
) -> Result<(ListOf<PeerNumber>, u64), RecordFault>
    ensures { Answers (counted u8_at hand_at bytes.now place) result }
{
    let (count, next) = read_u8(bytes, place)?;
    repeat_small::<InRecord, PeerNumber>(alloc, bytes, next, u64::from(count))
}
