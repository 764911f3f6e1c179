//! Why bytes are no record.

ghost use Rattle.std.specs.Prelude.{◌≡◌};
ghost use Rattle.nqs_records.specs.declared.fault.RecordFault.TheVariants as fault;
ghost use Rattle.nqs_base.specs.Want.{want};

use nqs_base::Memory;
use std::alloc::{AllocError, AllocFailed};

/// The first thing that is wrong with bytes that are no record. Places are counted from 0.
#[derive(Debug, Drop)]
pub enum RecordFault {
    /// The bytes end before the record does. The place is that of their end.
    Short(u64),
    /// There is no such kind of record. The place is that of the kind.
    Kind(u64),
    /// The place of the first byte of what may not stand there.
    BadField(u64),
    /// The record is whole. The place is that of the first byte behind it.
    Trailing(u64),
    /// Want of memory.
    Memory(Memory),
}

impl From<AllocError> for RecordFault {
    ghost from_gives = { λ _ f. f ≡ fault.Memory want };

    fn from(refused: AllocError) -> RecordFault {
        RecordFault::Memory(refused.into())
    }
}

impl<T: Drop> From<AllocFailed<T>> for RecordFault {
    ghost from_gives = { λ _ f. f ≡ fault.Memory want };

    fn from(refused: AllocFailed<T>) -> RecordFault {
        RecordFault::Memory(refused.into())
    }
}
