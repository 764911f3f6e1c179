//! Why a call of a journal failed.
ghost use Rattle.std.specs.Prelude.{◌≡◌};
ghost use Rattle.nqs_journal.specs.declared.fault.JournalFault.TheVariants.{Memory};
ghost use Rattle.nqs_base.specs.Want.{want};

use nqs_base::Memory;
use std::alloc::{AllocError, AllocFailed};
use thiserror::Error;

/// Why a call of the journal failed.
#[derive(Debug, PartialEq, Eq, Error, Drop)]
pub enum JournalFault {
    /// A call of the disk failed.
    #[error("the disk failed")]
    Disk,
    /// The bytes are no journal. The place, from 0, is that of the first byte at fault.
    #[error("no journal: byte {0}")]
    NotJournal(u64),
    /// The payload has more than 65,536 bytes.
    #[error("the payload is too long")]
    TooLong,
    /// An earlier append was answered `Disk`.
    #[error("the journal is stopped")]
    Stopped,
    #[error("out of memory")]
    Memory(Memory),
}

impl From<AllocError> for JournalFault {
    ghost from_gives = { λ _ e. e ≡ Memory want };

    fn from(refused: AllocError) -> Self {
        JournalFault::Memory(refused.into())
    }
}

impl<T: Drop> From<AllocFailed<T>> for JournalFault {
    ghost from_gives = { λ _ e. e ≡ Memory want };

    fn from(refused: AllocFailed<T>) -> Self {
        JournalFault::Memory(refused.into())
    }
}
