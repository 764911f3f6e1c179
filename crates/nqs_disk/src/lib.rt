//! A disk in memory. It keeps the list of its calls, so what a stop may leave of any moment is a
//! function of what it stores. See `docs/formats.md`, "Disks".
#![tactic(auto)]

mod calls;
mod fuse;
mod kept;
mod lack;
mod mem_disk;
mod torn;

pub use calls::DiskCall;
pub use fuse::Fuse;
pub use lack::{Full, Lack};
pub use mem_disk::MemDisk;
