//! What is planned is read, kept and made, all over the disks of a host.

ghost use Rattle.std.specs.Prelude.{◌≡◌, Option, false, IsTrue, IfSome, OnOk, length};
ghost use Rattle.nqs_state.specs.State.{content};
ghost use Rattle.nqs_store.specs.Sound.{IsSoundHost};
ghost use Rattle.nqs_store.specs.Reads.{of_spool};
ghost use Rattle.nqs_store.specs.Stores.{is_stopped, active_of, history_of, Tells, AsksAtMost};
ghost use Rattle.nqs_node.specs.Carried.{Kept, IsSpelled};
ghost use Rattle.nqs_node.specs.Fills.{Fills};
ghost use Rattle.nqs_node.specs.Idle.{is_idle};
ghost use Rattle.nqs_node.specs.Makes.{Performs};
ghost use Rattle.nqs_node.specs.Planned.{IsKeptWith, MayBeKept};
ghost use Rattle.nqs_node.specs.Reading.{AreLiveReads};

use crate::keep::keep;
use crate::reads::read_all;
use nqs_base::Bytes;
use nqs_host_laws::laws::fitting_changes_may_stand;
use nqs_outside::Disk;
use nqs_state::HostState;
use nqs_store::{Store, StoreFault};
use nqs_types::{Change, Output, PlanRead};
use std::alloc::Global;

/// Reads the bytes of the outputs, keeps the change and makes it. What fails before the first
/// counted call leaves all as it was but the outputs.
pub(crate) fn perform<D: Disk>(
    alloc: Global,
    store: &mut Store<D>,
    state: &mut HostState,
    idle: &mut Option<u64>,
    change: Option<Change>,
    puts: &[Bytes],
    reads: &[PlanRead],
    outputs: &mut Vec<Output>,
) -> Result<(), StoreFault>
    requires sound { IsSoundHost (content state.old) }
    requires running { is_stopped store.old ≡ false }
    requires may { IfSome change (MayBeKept (content state.old) puts.now) }
    requires live { AreLiveReads (content state.old) reads.now }
    requires rests { IsTrue (is_idle idle.old (content state.old)) }
    ensures rests { IsTrue (is_idle idle.new (content state.new)) }
    ensures fills { Fills store.old reads.now outputs.old.items outputs.new.items result }
    ensures performs { Performs store.old store.new (content state.old) (content state.new) change puts.now result }
    ensures spelled { IsTrue D.tells → Tells store.old (content state.old) → (kept : Kept) → IsKeptWith change puts.now kept
        → OnOk result (IsSpelled (active_of store.old) (history_of store.old) (history_of store.new) kept) }
    // The spool is asked once for each read, and no other disk.
    ensures asks { AsksAtMost store.old store.new (of_spool (length reads.now)) }
{
    // The bytes that go out are read before the change is kept: a read that fails must leave the
    // change unmade, and once it is kept the extents that it frees may be written anew.
    match read_all(alloc, store, reads, outputs) {
        Err(fault) => Err(fault),
        Ok(()) => match change {
            None => Ok(()),
            Some(change) => {
                // It may let something start.
                *idle = None;
                fitting_changes_may_stand(state, &change);
                keep(alloc, store, state, change, puts)
            }
        },
    }
}
