//! The disks of a host.

use nqs_outside::Disk;

/// The four disks of a host: `first` and `second` have a journal each, of which `root` names the
/// active one, and `spool` has the bytes of scripts and outputs.
#[derive(Drop)]
pub struct Disks<D: Disk> {
    pub root: D,
    pub first: D,
    pub second: D,
    pub spool: D,
}
