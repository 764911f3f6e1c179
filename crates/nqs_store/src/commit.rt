//! Keeping a change of a host.

ghost use Rattle.std.specs.Prelude.{◌≡◌, ◌↔◌, false, IsTrue, IsErrOf, IfErr, OnOk, vec_capacity};
ghost use Rattle.nqs_base.specs.Want.{want};
ghost use Rattle.nqs_state.specs.State.{content};
ghost use Rattle.nqs_rules.specs.Filled.{filled};
ghost use Rattle.nqs_rules.specs.Journals.{is_due};
ghost use Rattle.nqs_snapshot.specs.Spelling.{state_field};
ghost use Rattle.nqs_store.specs.Active.{ready, recorded};
ghost use Rattle.nqs_store.specs.Calls.{MayCommit, MayKeep, IsLeft, MayStop, KeepsChange, Records, Commits, Checkpoints};
ghost use Rattle.nqs_store.specs.Faults.{IsDisk};
ghost use Rattle.nqs_store.specs.Plan.{change_calls};
ghost use Rattle.nqs_store.specs.Sound.{IsSoundHost};
ghost use Rattle.nqs_store.specs.Spells.{SpellsBy, Spells};

use crate::checkpoint::{checkpoint_text, journal_disk};
use crate::fault::StoreFault;
use crate::free::free_gone;
use crate::put::{prepared, put_bytes};
use crate::record::append_to;
use crate::store::Store;
use nqs_base::{Bytes, Extent};
use nqs_outside::Disk;
use nqs_state::HostState;
use nqs_types::{Change, Which};
use std::alloc::Global;

/// With so many records of the active journal a checkpoint is due.
const DUE: u64 = 4096;

impl<D: Disk> Store<D> {
    ghost use Rattle.nqs_store.specs.Stores.{is_stopped, active_of, history_of, Tells, AsksNone};

    // Keeps a change in the active journal. Memory for all of it was taken before.
    fn keep_change(
        &mut self,
        alloc: Global,
        state: &HostState,
        change: &mut Change,
        puts: &[Bytes],
        extents: &mut Vec<Extent>,
        text: &mut Vec<u8>,
    ) -> Result<(), StoreFault>
        requires { MayKeep self.old (content state.now) extents.old.items (vec_capacity extents.old) text.old.items change.old puts.now }
        ensures only { IfErr result IsDisk }
        ensures stops { MayStop self.old self.new StoreFault.Disk result }
        ensures keeps { KeepsChange self.old self.new change.old change.new puts.now (content state.now) (recorded (active_of self.old)) result }
        ensures calls { Records self.old self.new change.old puts.now (content state.now) StoreFault.Disk result }
        ensures spelled { IsTrue D.tells → Tells self.old (content state.now)
            → OnOk result (SpellsBy (change_calls (active_of self.old)) (filled change.old puts.now) (history_of self.old) (history_of self.new)) }
        // No disk is read.
        ensures unread { AsksNone self.old self.new }
    {
        self.stopped = true;
        // The bytes come before the record: whatever record is read names extents that hold them.
        match put_bytes(alloc, &mut self.spool, change, puts, extents, text) {
            Err(_) => Err(StoreFault::Disk(Which::Spool)),
            Ok(()) => match append_to(self.on_second, &mut self.first, &mut self.second, text) {
                Err(_) => Err(StoreFault::Disk(journal_disk(self.on_second))),
                Ok(()) => {
                    self.stopped = false;
                    // Only now: without the record a boot still reads the extents that go.
                    free_gone(&mut self.spool, state, change);
                    Ok(())
                }
            },
        }
    }

    // Keeps a change: behind a checkpoint, where one is due. Memory for the change was taken
    // before.
    fn keep(
        &mut self,
        alloc: Global,
        state: &HostState,
        change: &mut Change,
        puts: &[Bytes],
        extents: &mut Vec<Extent>,
        text: &mut Vec<u8>,
    ) -> Result<(), StoreFault>
        requires sound { IsSoundHost (content state.now) }
        requires may { MayKeep self.old (content state.now) extents.old.items (vec_capacity extents.old) text.old.items change.old puts.now }
        ensures only { IsErrOf result StoreFault.Stopped → ⊥ }
        ensures memory { IsErrOf result (StoreFault.Memory want) → (self.new ≡ self.old) × (change.new ≡ change.old) }
        ensures stops { MayStop self.old self.new StoreFault.Disk result }
        ensures keeps { KeepsChange self.old self.new change.old change.new puts.now (content state.now) (recorded (ready (active_of self.old))) result }
        ensures calls { Commits self.old self.new change.old puts.now (content state.now) StoreFault.Disk result }
        ensures spelled { IsTrue D.tells → Tells self.old (content state.now)
            → OnOk result (Spells (active_of self.old) (filled change.old puts.now) (history_of self.old) (history_of self.new)) }
        // No disk is read.
        ensures unread { AsksNone self.old self.new }
    {
        if !self.due() {
            return self.keep_change(alloc, state, change, puts, extents, text);
        }
        let front = match checkpoint_text(alloc, state) {
            Ok(front) => front,
            Err(memory) => return Err(StoreFault::Memory(memory)),
        };
        match self.turn_over(&front) {
            Err(fault) => Err(fault),
            Ok(()) => self.keep_change(alloc, state, change, puts, extents, text),
        }
    }

    /// Keeps a change of the host, whose told state is given: makes a checkpoint, where one is due,
    /// puts the bytes in order into the spool, sets the change's extents, and appends the record,
    /// which spells the change with them, to the active journal. It is all on the disks before the
    /// answer. Then the extents that the change takes away are free. `Memory` comes before the
    /// first call of a disk and leaves all as it was; after `Disk` the store is stopped. `Stopped`
    /// changes nothing.
    pub fn commit(
        &mut self,
        alloc: Global,
        state: &HostState,
        change: &mut Change,
        puts: &[Bytes],
    ) -> Result<(), StoreFault>
        requires sound { IsSoundHost (content state.now) }
        requires may { MayCommit (content state.now) change.old puts.now }
        ensures stopped { IsErrOf result StoreFault.Stopped ↔ IsTrue (is_stopped self.old) }
        ensures refused { IsErrOf result StoreFault.Stopped → (self.new ≡ self.old) × (change.new ≡ change.old) }
        ensures memory { IsErrOf result (StoreFault.Memory want) → IsLeft self.old self.new × (change.new ≡ change.old) }
        ensures stops { MayStop self.old self.new StoreFault.Disk result }
        ensures keeps { KeepsChange self.old self.new change.old change.new puts.now (content state.now) (recorded (ready (active_of self.old))) result }
        ensures calls { Commits self.old self.new change.old puts.now (content state.now) StoreFault.Disk result }
        ensures spelled { IsTrue D.tells → Tells self.old (content state.now)
            → OnOk result (Spells (active_of self.old) (filled change.old puts.now) (history_of self.old) (history_of self.new)) }
        // No disk is read.
        ensures unread { AsksNone self.old self.new }
    {
        if self.stopped {
            return Err(StoreFault::Stopped);
        }
        let (mut text, mut extents) = prepared(alloc, &mut self.spool, change, puts)?;
        self.keep(alloc, state, change, puts, &mut extents, &mut text)
    }

    /// Whether the next change makes a checkpoint first: where the active journal's text is old, or
    /// it has 4,096 records or more.
    pub fn due(&self) -> bool
        ensures { result ≡ is_due (active_of self.now).is_old (active_of self.now).records }
    {
        let journal = self.journal();
        journal.is_old() || journal.count() >= DUE
    }

    /// Makes a checkpoint of the host, whose told state is given: the other journal begins with it,
    /// and is the active one. `Memory` comes before the first call of a disk and leaves all as it
    /// was; after `Disk` the store is stopped. `Stopped` changes nothing.
    pub fn checkpoint(&mut self, alloc: Global, state: &HostState) -> Result<(), StoreFault>
        requires sound { IsSoundHost (content state.now) }
        ensures stopped { IsErrOf result StoreFault.Stopped ↔ IsTrue (is_stopped self.old) }
        ensures refused { IsErrOf result StoreFault.Stopped → self.new ≡ self.old }
        ensures memory { IsErrOf result (StoreFault.Memory want) → IsLeft self.old self.new }
        ensures stops { MayStop self.old self.new StoreFault.Disk result }
        ensures turns { Checkpoints self.old self.new StoreFault.Disk result (state_field (content state.now)) (content state.now) }
        // No disk is read.
        ensures unread { AsksNone self.old self.new }
    {
        if self.stopped {
            return Err(StoreFault::Stopped);
        }
        let text = checkpoint_text(alloc, state)?;
        self.turn_over(&text)
    }
}
