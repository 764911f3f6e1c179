//! A node is booted from the disks of its host, or from what was loaded of them.
//!
//! The boot is one change like any other: what is said of it is made first, then it is kept, and
//! then made.

ghost use Rattle.std.specs.Prelude.{◌≡◌, ◌++◌, [], ℕ, List, IsTrue, IsErrOf, OnOk, OnErr, IfOk, IfErr, MatchResult, false, Some};
ghost use Rattle.std.specs.List.{filter_map};
ghost use Rattle.std.specs.Option.{option_to_list};
ghost use Rattle.nqs_state.specs.State.{Plain, content};
ghost use Rattle.nqs_base.specs.Want.{want};
ghost use Rattle.nqs_base.specs.declared.extent.Extent.{Extent};
ghost use Rattle.nqs_types.specs.declared.world.Which.{Which};
ghost use Rattle.nqs_types.specs.declared.change.Change.TheVariants.{Boot};
ghost use Rattle.nqs_outside.specs.History.{IsQuiet, content as bytes_now};
ghost use Rattle.nqs_rules.specs.World.{boot_output};
ghost use Rattle.nqs_rules.specs.Plain.{map_row, map_state};
ghost use Rattle.nqs_rules.specs.Journals.{is_second};
ghost use Rattle.nqs_store.specs.Reads.{AsksAtMost, AsksNone, of_reading};
ghost use Rattle.nqs_store.specs.Spells.{Spells};
ghost use Rattle.nqs_store.specs.Stores.{is_stopped as is_store_stopped, disk_of as store_disk, active_of, history_of, Tells};
ghost use Rattle.nqs_store.specs.Stores.{AsksNone as StoreAsksNone};
ghost use Rattle.nqs_store.specs.Disks.{disk_at, histories_of, contents};
ghost use Rattle.nqs_store.specs.Images.{IsTold};
ghost use Rattle.nqs_store.specs.Sound.{IsSoundHost};
ghost use Rattle.nqs_store.specs.declared.disks.Disks.{Disks};
ghost use Rattle.nqs_node.specs.Boots.{IsLoaded, Booted, Unbooted};
ghost use Rattle.nqs_node.specs.Makes.{Makes};
ghost use Rattle.nqs_node.specs.Nodes.{disk_of};

use crate::keep::keep;
use crate::node::Node;
use nqs_base::Memory;
use nqs_changes::boot::may_start_again;
use nqs_outside::Disk;
use nqs_state::HostState;
use nqs_store::{Disks, LoadFault, Store, StoreFault, one_journal_is_active};
use nqs_types::{Change, Output, Row, RowState};
use std::alloc::Global;

// What a boot says of a row, which is another where the request ran.
fn said_of(row: &Row) -> Option<Output>
    ensures { (f : Extent → List ℕ) → result ≡ boot_output (map_row f row.now) }
{
    if row.state != RowState::Running {
        return None;
    }
    if may_start_again(row) {
        Some(Output::Again(row.id))
    } else {
        Some(Output::Lost(row.id))
    }
}

// Says it behind what is there.
fn say(row: &Row, outputs: &mut Vec<Output>) -> Result<(), Memory>
    ensures { (f : Extent → List ℕ) → OnOk result (outputs.new.items ≡ outputs.old.items ++ option_to_list (boot_output (map_row f row.now))) }
{
    match said_of(row) {
        None => Ok(()),
        Some(output) => {
            outputs.push(output)?;
            Ok(())
        }
    }
}

// What a boot says of all rows.
fn outputs_of(alloc: Global, state: &HostState) -> Result<Vec<Output>, Memory>
    ensures { (f : Extent → List ℕ) → IfOk result (λ outputs. outputs.items ≡ filter_map boot_output (map_state f (content state.now)).rows) }
{
    let mut outputs = Vec::new(alloc);
    for place in 0..state.rows.len() {
        say(state.rows.at(place), &mut outputs)?;
    }
    Ok(outputs)
}

// Keeps and makes the boot of a host, and says it.
fn begin<D: Disk>(
    alloc: Global,
    store: &mut Store<D>,
    state: &mut HostState,
    out: &mut Vec<Output>,
) -> Result<(), LoadFault>
    requires sound { IsSoundHost (content state.old) }
    requires running { is_store_stopped store.old ≡ false }
    ensures unsaid { OnErr result (out.new.items ≡ out.old.items) }
    ensures only { (which : Which) (place : ℕ) → IsErrOf result (LoadFault.NotNqs which place) → ⊥ }
    ensures outputs { (f : Extent → List ℕ) → OnOk result (out.new.items ≡ out.old.items ++ filter_map boot_output (map_state f (content state.old)).rows) }
    ensures makes { Makes store.old store.new (content state.old) (content state.new) Boot [] LoadFault.Disk (LoadFault.Memory want) result }
    ensures spelled { IsTrue D.tells → Tells store.old (content state.old)
        → OnOk result (Spells (active_of store.old) Boot (history_of store.old) (history_of store.new)) }
    ensures unread { StoreAsksNone store.old store.new }
{
    match outputs_of(alloc, state) {
        Err(memory) => Err(LoadFault::Memory(memory)),
        Ok(mut outputs) => match out.reserve(outputs.len()) {
            Err(refused) => Err(LoadFault::Memory(refused.into())),
            Ok(()) => match keep(alloc, store, state, Change::Boot, &[]) {
                Err(StoreFault::Memory(memory)) => Err(LoadFault::Memory(memory)),
                Err(StoreFault::Disk(which)) => Err(LoadFault::Disk(which)),
                // The store isn't stopped.
                Err(StoreFault::Stopped) => unreachable!(),
                Ok(()) => {
                    out.append(&mut outputs).unwrap();
                    Ok(())
                }
            },
        },
    }
}

impl<D: Disk> Node<D> {
    /// Boots a host that was loaded from its disks: what ran there starts again or is lost, which
    /// is one record of its journal. It adds to `out` what is said of each such request, in the
    /// order of rows. A refusal hands the disks back; `Memory` comes before the first write.
    pub fn boot_loaded(
        alloc: Global,
        mut store: Store<D>,
        mut state: HostState,
        out: &mut Vec<Output>,
    ) -> Result<Node<D>, (LoadFault, Disks<D>)>
        requires sound { IsSoundHost (content state) }
        requires running { is_store_stopped store ≡ false }
        ensures unsaid { OnErr result (out.new.items ≡ out.old.items) }
        ensures outputs { IsTrue D.tells → (disks : Disks D) → IsLoaded disks store state → (s : Plain) → IsTold (contents (histories_of D.history disks)) s
            → OnOk result (out.new.items ≡ out.old.items ++ filter_map boot_output s.rows) }
        ensures booted { (disks : Disks D) → IsLoaded disks store state → IfOk result (Booted disks) }
        ensures unbooted { (disks : Disks D) → IsLoaded disks store state
            → IfErr result (λ e. Unbooted D.Disk disks e.0 e.1) }
        // No disk is read.
        ensures unread { MatchResult result (λ node. AsksNone D.Disk (λ at. store_disk at store) (λ at. disk_of at node))
            (λ e. AsksNone D.Disk (λ at. store_disk at store) (λ at. disk_at at e.1)) }
    {
        one_journal_is_active();
        match begin(alloc, &mut store, &mut state, out) {
            Err(fault) => Err((fault, store.close())),
            Ok(()) => Ok(Node {
                store,
                state,
                stopped: false,
                idle: None,
            }),
        }
    }

    /// Loads a host from its disks, on which nothing is pending, and boots it.
    pub fn boot(
        alloc: Global,
        disks: Disks<D>,
        out: &mut Vec<Output>,
    ) -> Result<Node<D>, (LoadFault, Disks<D>)>
        requires quiet { IsTrue D.tells → (which : Which) → IsQuiet (histories_of D.history disks which) }
        ensures unsaid { OnErr result (out.new.items ≡ out.old.items) }
        ensures outputs { IsTrue D.tells → (s : Plain) → IsTold (contents (histories_of D.history disks)) s
            → OnOk result (out.new.items ≡ out.old.items ++ filter_map boot_output s.rows) }
        ensures booted { IfOk result (Booted disks) }
        ensures unbooted { IfErr result (λ e. Unbooted D.Disk disks e.0 e.1) }
        // The root and the spool are asked once, the journal that is named twice, no other.
        ensures asks { MatchResult result
            (λ node. AsksAtMost D.Disk (λ at. disk_at at disks) (λ at. disk_of at node) (of_reading (is_second (bytes_now (D.history disks.root)))))
            (λ e. AsksAtMost D.Disk (λ at. disk_at at disks) (λ at. disk_at at e.1) (of_reading (is_second (bytes_now (D.history disks.root))))) }
    {
        match Store::load(alloc, disks) {
            Err((fault, disks)) => Err((fault, disks)),
            Ok((store, state)) => Self::boot_loaded(alloc, store, state, out),
        }
    }
}
