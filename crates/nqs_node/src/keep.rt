//! A change of a host is kept on its disks, and then made.

ghost use Rattle.std.specs.Prelude.{IsTrue, IsErrOf, OnOk};
ghost use Rattle.nqs_state.specs.State.{content};
ghost use Rattle.nqs_base.specs.Want.{want};
ghost use Rattle.nqs_rules.specs.Filled.{filled};
ghost use Rattle.nqs_rules.specs.Sane.{is_sane_change};
ghost use Rattle.nqs_store.specs.Calls.{MayCommit};
ghost use Rattle.nqs_store.specs.Sound.{IsSoundHost};
ghost use Rattle.nqs_store.specs.Spells.{Spells};
ghost use Rattle.nqs_store.specs.Stores.{is_stopped, active_of, history_of, Tells, AsksNone};
ghost use Rattle.nqs_node.specs.Makes.{Makes};

use nqs_base::Bytes;
use nqs_host::apply;
use nqs_outside::Disk;
use nqs_rules::order_laws::{consistent_is_kept, order_is_kept};
use nqs_state::HostState;
use nqs_store::{Store, StoreFault};
use nqs_types::Change;
use std::alloc::Global;

/// Keeps a change of the host, and makes it. `Memory` comes before the first call of a disk; an
/// `Err` makes no change.
pub(crate) fn keep<D: Disk>(
    alloc: Global,
    store: &mut Store<D>,
    state: &mut HostState,
    change: Change,
    puts: &[Bytes],
) -> Result<(), StoreFault>
    requires sound { IsSoundHost (content state.old) }
    requires sane { IsTrue (is_sane_change change) }
    requires may { MayCommit (content state.old) change puts.now }
    ensures stopped { IsErrOf result StoreFault.Stopped → IsTrue (is_stopped store.old) }
    ensures makes { Makes store.old store.new (content state.old) (content state.new) change puts.now StoreFault.Disk (StoreFault.Memory want) result }
    ensures spelled { IsTrue D.tells → Tells store.old (content state.old)
        → OnOk result (Spells (active_of store.old) (filled change puts.now) (history_of store.old) (history_of store.new)) }
    // No disk is read.
    ensures unread { AsksNone store.old store.new }
{
    match state.make_room(&change) {
        Err(memory) => Err(StoreFault::Memory(memory)),
        Ok(()) => {
            let mut change = change;
            match store.commit(alloc, state, &mut change, puts) {
                Err(fault) => Err(fault),
                Ok(()) => {
                    order_is_kept();
                    consistent_is_kept();
                    // The record is synced before the state changes, which any answer shows.
                    apply(state, change);
                    Ok(())
                }
            }
        }
    }
}
