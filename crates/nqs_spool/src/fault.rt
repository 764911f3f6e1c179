//! Why a call of the spool failed, and why a disk can't have extents.
ghost use Rattle.std.specs.Prelude.{◌≡◌};
ghost use Rattle.nqs_base.specs.Want.{want};

use nqs_base::Memory;
use nqs_outside::Failed;
use std::alloc::AllocError;
use thiserror::Error;

/// Why a call of the spool failed.
#[derive(Debug, PartialEq, Eq, Error, Drop)]
pub enum SpoolFault {
    /// The bytes are more than 1,048,576. Nothing was done.
    #[error("the bytes are too long for the spool")]
    TooLong,
    /// A call of the disk failed. Its live extents are as they were; the spool is to be closed.
    #[error("the disk failed")]
    Disk,
    /// Nothing was done.
    #[error("out of memory")]
    Memory(Memory),
}

impl From<Memory> for SpoolFault {
    ghost use Rattle.nqs_spool.specs.declared.fault.SpoolFault.TheVariants as fault;

    ghost from_gives = { λ _ e. e ≡ fault.Memory want };

    fn from(memory: Memory) -> Self {
        SpoolFault::Memory(memory)
    }
}

impl From<AllocError> for SpoolFault {
    ghost use Rattle.nqs_spool.specs.declared.fault.SpoolFault.TheVariants as fault;

    ghost from_gives = { λ _ e. e ≡ fault.Memory want };

    fn from(refused: AllocError) -> Self {
        SpoolFault::Memory(refused.into())
    }
}

impl From<Failed> for SpoolFault {
    ghost use Rattle.nqs_spool.specs.declared.fault.SpoolFault.TheVariants as fault;

    ghost from_gives = { λ _ e. e ≡ fault.Disk };

    fn from(_: Failed) -> Self {
        SpoolFault::Disk
    }
}

/// Why a disk can't have extents.
#[derive(Debug, PartialEq, Eq, Error, Drop)]
pub enum ExtentFault {
    /// The first that runs past the disk's end or meets an earlier one begins at this place.
    #[error("no extent of the disk: byte {0}")]
    Bad(u64),
    #[error("out of memory")]
    Memory(Memory),
}

impl From<Memory> for ExtentFault {
    ghost use Rattle.nqs_spool.specs.declared.fault.ExtentFault.TheVariants as fault;

    ghost from_gives = { λ _ e. e ≡ fault.Memory want };

    fn from(memory: Memory) -> Self {
        ExtentFault::Memory(memory)
    }
}
