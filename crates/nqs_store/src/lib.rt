//! The durable state of a host: a journal of its changes, and a spool of its scripts and outputs.
//!
//! A change is one record of the active journal, which the first byte of the disk `root` names:
//! that on `second`, where it is odd, or that on `first`. Its scripts and outputs stand in extents
//! of the disk `spool`, which the record names. The host that a journal tells (`specs/Told.antt`)
//! begins with the record that formats it, or with a snapshot; each other record is a change that
//! fits what those before it tell. Its extents (`specs/Live.antt`) end within the spool, and no two
//! meet.
//!
//! A change is kept by `commit.rt`: its bytes go to the spool (`put.rt`), then its record to the
//! journal (`record.rt`), and then the extents that it takes away are free (`free.rt`). Where the
//! active journal has 4,096 records or more, a checkpoint comes first (`checkpoint.rt`): the other
//! journal begins anew with a snapshot of the host, and then the root's byte names that one.
#![tactic(auto)]

mod checkpoint;
mod commit;
mod disks;
mod fault;
mod formatting;
mod free;
mod laws;
mod live;
mod opened;
mod put;
mod reading;
mod record;
mod store;
mod tell;

pub use disks::Disks;
pub use fault::{LoadFault, StoreFault};
pub use formatting::format;
pub use laws::{one_journal_is_active, what_is_told_is_on_the_disks};
pub use store::{Store, read_only};
