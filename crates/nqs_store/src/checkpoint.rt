//! A checkpoint: the other journal begins anew with the host, and then the root's first byte names
//! it.

ghost use Rattle.std.specs.Prelude.{◌≡◌, not, IfErr};
ghost use Rattle.nqs_state.specs.State.{content};
ghost use Rattle.nqs_journal.specs.Either.{IsSnapshotText};
ghost use Rattle.nqs_rules.specs.Journals.{journal_on, byte_of};
ghost use Rattle.nqs_snapshot.specs.Spelling.{state_field};
ghost use Rattle.nqs_store.specs.Sound.{IsSoundHost};
ghost use Rattle.nqs_store.specs.Calls.{Begins, MayStop, TurnsOver};
ghost use Rattle.nqs_store.specs.Faults.{IsDisk};
ghost use Rattle.nqs_store.specs.Stores.{pick, AsksNone};
ghost use Rattle.nqs_store.specs.Steps.{WritesCheckpoint, Names};

use crate::fault::StoreFault;
use crate::store::Store;
use nqs_base::Memory;
use nqs_journal::{Journal, snapshot_text};
use nqs_outside::{Disk, Failed};
use nqs_snapshot::write_state;
use nqs_state::HostState;
use nqs_types::Which;
use std::alloc::Global;

/// The text of a journal that begins with this host, and has no record. What it says is read back.
pub(crate) fn checkpoint_text(alloc: Global, state: &HostState) -> Result<Vec<u8>, Memory>
    requires sound { IsSoundHost (content state.now) }
    ensures { WritesCheckpoint (state_field (content state.now)) (content state.now) result }
{
    let mut snapshot = Vec::new(alloc);
    write_state(alloc, state, &mut snapshot)?;
    snapshot_text(alloc, &snapshot)
}

/// The disk of the journal on `second`, or of the other.
pub(crate) fn journal_disk(second: bool) -> Which
    ensures { result ≡ journal_on second }
{
    if second { Which::Second } else { Which::First }
}

fn begin_anew<D: Disk>(journal: &mut Journal<D>, text: &[u8]) -> Result<(), Failed>
    requires begins { IsSnapshotText text.now }
    ensures { Begins journal.old journal.new text.now result }
{
    journal.begin_anew(text)
}

// The other journal begins with this text, where the active one is that on `second` or isn't.
fn begin_other<D: Disk>(
    on_second: bool,
    first: &mut Journal<D>,
    second: &mut Journal<D>,
    text: &[u8],
) -> Result<(), Failed>
    requires begins { IsSnapshotText text.now }
    ensures begins { Begins (pick (not on_second) first.old second.old) (pick (not on_second) first.new second.new) text.now result }
    ensures rest { pick on_second first.new second.new ≡ pick on_second first.old second.old }
{
    if on_second {
        begin_anew(first, text)
    } else {
        begin_anew(second, text)
    }
}

// The byte that names a journal.
fn byte_of(second: bool) -> u8
    ensures { result ≡ byte_of second }
{
    if second { 1 } else { 0 }
}

// The root's first byte names the journal.
fn name_journal<D: Disk>(root: &mut D, second: bool) -> Result<(), Failed>
    ensures { Names D.Disk second root.old root.new result }
{
    let byte = byte_of(second);
    root.write_at(0, &[byte])?;
    root.sync()?;
    Ok(())
}

impl<D: Disk> Store<D> {
    /// Turns over to the other journal, which begins with this text: first its own two calls, then
    /// the root's. It takes no memory.
    pub(crate) fn turn_over(&mut self, text: &[u8]) -> Result<(), StoreFault>
        requires begins { IsSnapshotText text.now }
        ensures only { IfErr result IsDisk }
        ensures stops { MayStop self.old self.new StoreFault.Disk result }
        ensures turns { TurnsOver self.old self.new StoreFault.Disk result text.now }
        // No disk is read.
        ensures unread { AsksNone self.old self.new }
    {
        self.stopped = true;
        let second = !self.on_second;
        // The snapshot is synced before the root turns, which names the other journal from then on.
        match begin_other(self.on_second, &mut self.first, &mut self.second, text) {
            Err(_) => Err(StoreFault::Disk(journal_disk(second))),
            Ok(()) => match name_journal(&mut self.root, second) {
                Err(_) => Err(StoreFault::Disk(Which::Root)),
                Ok(()) => {
                    self.on_second = second;
                    self.stopped = false;
                    Ok(())
                }
            },
        }
    }
}
