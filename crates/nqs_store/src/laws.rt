//! Laws of open stores, for callers: functions that do nothing, and are called for their contracts.

ghost use Rattle.std.specs.Prelude.{IsTrue};
ghost use Rattle.nqs_store.specs.Told.{Host};
ghost use Rattle.nqs_store.specs.Active.{OneIsActive};
ghost use Rattle.nqs_store.specs.Commits.{LeavesHost};
ghost use Rattle.nqs_store.specs.Stores.{history_of, active_of, Tells, plain_of};

use crate::store::Store;
use nqs_outside::Disk;

/// Whatever images the disks of a store may leave now, they tell the host that the store tells,
/// with all bytes, and its active journal is the store's.
pub fn what_is_told_is_on_the_disks<D: Disk>(store: &Store<D>)
    ensures { IsTrue D.tells → (host : Host) → Tells store.now host
        → LeavesHost (history_of store.now) (plain_of store.now host) (active_of store.now) }
{}

/// Bytes name one active journal, and it has one number of records.
pub fn one_journal_is_active()
    ensures { OneIsActive }
{}
