//! The parts that a machine lends together.

use nqs_outside::Disk;
use nqs_store::Disks;

/// The parts of a daemon but for its disks.
#[derive(Drop)]
pub struct Around<W, L, P, O, C> {
    pub wire: W,
    pub launcher: L,
    pub printer: P,
    pub outlet: O,
    pub clock: C,
}

/// The parts of a daemon.
#[derive(Drop)]
pub struct DaemonParts<D: Disk, W, L, P, O, C> {
    pub disks: Disks<D>,
    pub around: Around<W, L, P, O, C>,
}

/// The parts of a shepherd, and the port of its wire.
#[derive(Drop)]
pub struct ShepherdParts<R, W> {
    pub runner: R,
    pub wire: W,
    pub port: u16,
}
