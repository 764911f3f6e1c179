//! Lists of values that are read at a place of bytes.

ghost use Rattle.nqs_records.specs.Reading.{Answers};
ghost use Rattle.nqs_snapshot.specs.Readings.{many_at};

use nqs_base::{Items, ListOf};
use nqs_records::{Read, RecordFault, read_u64, repeat, repeat_small};
use std::alloc::Global;

/// The form that values have in a snapshot.
pub(crate) struct InSnapshot;

/// The form that peers, and a whole state for their sake, have in a snapshot of version 1.
pub(crate) struct InOldSnapshot;

/// As many values as the count at the place says.
pub(crate) fn read_many<T: Read<InSnapshot>>(
    alloc: Global,
    bytes: &[u8],
    place: u64,
) -> Result<(Items<T>, u64), RecordFault>
    ensures { Answers (many_at T.at bytes.now place) result }
{
    let (count, next) = read_u64(bytes, place)?;
    repeat::<InSnapshot, T>(alloc, bytes, next, count)
}

/// The same of small values.
pub(crate) fn read_list<T: Read<InSnapshot> + Copy>(
    alloc: Global,
    bytes: &[u8],
    place: u64,
) -> Result<(ListOf<T>, u64), RecordFault>
    ensures { Answers (many_at T.at bytes.now place) result }
{
    let (count, next) = read_u64(bytes, place)?;
    repeat_small::<InSnapshot, T>(alloc, bytes, next, count)
}
