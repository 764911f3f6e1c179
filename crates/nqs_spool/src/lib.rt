//! Scripts and outputs of requests, as byte ranges of one disk. A range is given out at the least
//! place that is free, and again once it was freed.
//!
//! `spool` has the calls on the disk, `live` the set of live extents, and `tree` the balanced tree
//! that keeps it.
#![tactic(auto)]

mod fault;
mod live;
mod slot;
mod spool;
mod tree;
mod write;

pub use fault::{ExtentFault, SpoolFault};
pub use live::LiveExtents;
pub use spool::Spool;
