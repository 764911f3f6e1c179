//! Why the work ended early.

use nqs_base::Memory;
use std::alloc::AllocFailed;

/// The storage refused a call. The disks are in memory and have no fuse, so memory was missing or a
/// disk was full.
#[derive(Drop)]
pub(crate) struct Stopped;

impl From<Memory> for Stopped {
    fn from(_: Memory) -> Stopped {
        Stopped
    }
}

impl<T: Drop> From<AllocFailed<T>> for Stopped {
    fn from(_: AllocFailed<T>) -> Stopped {
        Stopped
    }
}
