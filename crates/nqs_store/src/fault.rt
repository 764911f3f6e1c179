//! Why a call of the store failed.

ghost use Rattle.std.specs.Prelude.{◌≡◌};
ghost use Rattle.nqs_base.specs.Want.{want};

use nqs_base::Memory;
use nqs_types::Which;
use std::alloc::AllocError;
use thiserror::Error;

/// Why disks are no host's.
#[derive(Debug, Error, Drop)]
pub enum LoadFault {
    /// A call of this disk failed.
    #[error("a disk failed")]
    Disk(Which),
    /// The disk has no host's bytes from this place on, counted from 0. On the active journal's
    /// disk it is the place of a byte that is none of a journal, of a snapshot that is none of a
    /// host, or of the gate of a record that is no change or doesn't fit; on the spool that of an
    /// extent that runs past the end or meets an earlier one.
    #[error("not a host's disk: byte {1}")]
    NotNqs(Which, u64),
    #[error("out of memory")]
    Memory(Memory),
}

/// Why a call of an open store failed.
#[derive(Debug, Error, Drop)]
pub enum StoreFault {
    /// A call of this disk failed. After a commit that is answered so the store is to be closed.
    #[error("a disk failed")]
    Disk(Which),
    /// It leaves all as it was.
    #[error("out of memory")]
    Memory(Memory),
    /// An earlier commit was answered `Disk`. It leaves all as it was.
    #[error("the store is stopped")]
    Stopped,
}

impl From<Memory> for LoadFault {
    ghost use Rattle.nqs_store.specs.declared.fault.LoadFault.TheVariants as fault;

    ghost from_gives = { λ _ e. e ≡ fault.Memory want };

    fn from(memory: Memory) -> LoadFault {
        LoadFault::Memory(memory)
    }
}

impl From<Memory> for StoreFault {
    ghost use Rattle.nqs_store.specs.declared.fault.StoreFault.TheVariants as fault;

    ghost from_gives = { λ _ e. e ≡ fault.Memory want };

    fn from(memory: Memory) -> StoreFault {
        StoreFault::Memory(memory)
    }
}

impl From<AllocError> for StoreFault {
    ghost use Rattle.nqs_store.specs.declared.fault.StoreFault.TheVariants as fault;

    ghost from_gives = { λ _ e. e ≡ fault.Memory want };

    fn from(refused: AllocError) -> StoreFault {
        StoreFault::Memory(refused.into())
    }
}
