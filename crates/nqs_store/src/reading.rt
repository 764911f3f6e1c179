//! A host read from its disks: the root's first byte, which names the active journal, that journal
//! in any form, and the live extents in the spool.

ghost use Rattle.std.specs.Prelude.{◌≡◌, ◌≤◌, ◌^◌, ◌++◌, List, IsTrue, length};
ghost use Rattle.nqs_state.specs.State.{content};
ghost use Rattle.nqs_base.specs.Want.{want};
ghost use Rattle.nqs_base.specs.declared.extent.Extent.{Extent};
ghost use Rattle.nqs_outside.specs.History.{IsQuiet, content as bytes_now};
ghost use Rattle.nqs_spool.specs.Live.{end_of};
ghost use Rattle.nqs_spool.specs.Spooled.{disk_of, Tells as SpoolTells};
ghost use Rattle.nqs_journal.specs.Faults.{IsReadingFault};
ghost use Rattle.nqs_journal.specs.Text.{records};
ghost use Rattle.nqs_journal.specs.Either.{front_of};
ghost use Rattle.nqs_store.specs.Told.{told_by};
ghost use Rattle.nqs_store.specs.Faults.{JournalIsAt, IsHostFault};
ghost use Rattle.nqs_store.specs.Telling.{TellsHost};
ghost use Rattle.nqs_store.specs.Opens.{LaysAtRest, OpensWith};
ghost use Rattle.nqs_store.specs.Readings.{BuildsExtents, ReadsRoot, ReadsHost, FindsHost, RereadsHost};

use crate::fault::LoadFault;
use crate::live::live_extents;
use crate::tell::{TellFault, tell};
use nqs_base::{Bytes, Extent};
use nqs_journal::{Journal, JournalFault, read_either};
use nqs_outside::{Disk, Failed};
use nqs_spool::{ExtentFault, LiveExtents, Spool};
use nqs_state::HostState;
use nqs_types::Which;
use std::alloc::Global;

/// Whether the root names the journal on `second`: its first byte is odd.
pub(crate) fn names_second<D: Disk>(root: &mut D) -> Result<bool, Failed>
    ensures { ReadsRoot D.Disk root.old root.new result }
{
    let mut byte = [0u8; 1];
    match root.read_at(0, &mut byte) {
        Ok(_) => Ok(byte[0] % 2 == 1),
        Err(_) => Err(Failed),
    }
}

// What a fault of reading a journal is to a host's disks.
fn journal_fault(on: Which, fault: JournalFault) -> LoadFault
    requires { IsReadingFault fault }
    ensures { JournalIsAt on fault result }
{
    match fault {
        JournalFault::Disk => LoadFault::Disk(on),
        JournalFault::NotJournal(place) => LoadFault::NotNqs(on, place),
        JournalFault::Memory(memory) => LoadFault::Memory(memory),
        // Only an append has these.
        JournalFault::TooLong => unreachable!(),
        JournalFault::Stopped => unreachable!(),
    }
}

// Why a journal wasn't laid at rest.
fn unrested(fault: JournalFault) -> LoadFault
    requires { fault ≡ JournalFault.Memory want }
    ensures { result ≡ LoadFault.Memory want }
{
    match fault {
        JournalFault::Memory(memory) => LoadFault::Memory(memory),
        // It makes no call.
        JournalFault::Disk => unreachable!(),
        JournalFault::NotJournal(_) => unreachable!(),
        JournalFault::TooLong => unreachable!(),
        JournalFault::Stopped => unreachable!(),
    }
}

// The host that a snapshot, if there is one, and records tell.
fn told_host(
    alloc: Global,
    on: Which,
    version: u8,
    snapshot: &[u8],
    payloads: &[Bytes],
) -> Result<HostState, LoadFault>
    requires { length (front_of version snapshot.now ++ records payloads.now) ≤ 2 ^ 40 }
    ensures { TellsHost (told_by version snapshot.now payloads.now) (IsHostFault on version snapshot.now payloads.now) result }
{
    match tell(alloc, version, snapshot, payloads) {
        Ok(state) => Ok(state),
        Err(TellFault::Untold(place)) => Err(LoadFault::NotNqs(on, place)),
        Err(TellFault::Memory(memory)) => Err(LoadFault::Memory(memory)),
    }
}

// The set of a host's live extents, which a spool of so many bytes may have.
fn sound_extents(alloc: Global, state: &HostState, size: u64) -> Result<LiveExtents, LoadFault>
    ensures { BuildsExtents size (content state.now) result }
{
    let extents = live_extents(alloc, state)?;
    match LiveExtents::load_sound(alloc, &extents, size) {
        Ok(extents) => Ok(extents),
        Err(ExtentFault::Bad(place)) => Err(LoadFault::NotNqs(Which::Spool, place)),
        Err(ExtentFault::Memory(memory)) => Err(LoadFault::Memory(memory)),
    }
}

// The host that a journal tells, with the set of its live extents in the spool.
fn host_in<D: Disk>(
    alloc: Global,
    on: Which,
    version: u8,
    snapshot: &[u8],
    payloads: &[Bytes],
    spool: &mut D,
) -> Result<(HostState, LiveExtents), LoadFault>
    requires { length (front_of version snapshot.now ++ records payloads.now) ≤ 2 ^ 40 }
    ensures { ReadsHost D.Disk on version snapshot.now payloads.now spool.old spool.new result }
{
    let state = told_host(alloc, on, version, snapshot, payloads)?;
    let Ok(size) = spool.len() else {
        return Err(LoadFault::Disk(Which::Spool));
    };
    let extents = sound_extents(alloc, &state, size)?;
    Ok((state, extents))
}

// The same over an open spool.
fn host_with<D: Disk>(
    alloc: Global,
    on: Which,
    version: u8,
    snapshot: &[u8],
    payloads: &[Bytes],
    spool: &mut Spool<D>,
) -> Result<(HostState, LiveExtents), LoadFault>
    requires { length (front_of version snapshot.now ++ records payloads.now) ≤ 2 ^ 40 }
    ensures read { ReadsHost D.Disk on version snapshot.now payloads.now (disk_of spool.old) (disk_of spool.new) result }
    ensures tells { (live : List Extent) → SpoolTells spool.old live → SpoolTells spool.new live }
{
    let state = told_host(alloc, on, version, snapshot, payloads)?;
    let Ok(size) = spool.length() else {
        return Err(LoadFault::Disk(Which::Spool));
    };
    let extents = sound_extents(alloc, &state, size)?;
    Ok((state, extents))
}

/// The host that the journal on this disk and the spool tell.
pub(crate) fn read_host<D: Disk>(
    alloc: Global,
    on: Which,
    active: &mut D,
    spool: &mut D,
) -> Result<HostState, LoadFault>
    ensures { FindsHost D.Disk on active.old active.new spool.old spool.new result }
{
    let mut snapshot = Vec::new(alloc);
    let mut found = Vec::new(alloc);
    match read_either(alloc, active, &mut snapshot, &mut found) {
        Err(fault) => Err(journal_fault(on, fault)),
        Ok(version) => {
            let (state, _extents) = host_in(alloc, on, version, &snapshot, &found, spool)?;
            Ok(state)
        }
    }
}

/// The same over an open journal and an open spool. It writes nothing, and both stay as they are.
pub(crate) fn reread_host<D: Disk>(
    alloc: Global,
    on: Which,
    journal: &mut Journal<D>,
    spool: &mut Spool<D>,
) -> Result<HostState, LoadFault>
    ensures { RereadsHost on journal.old journal.new spool.old spool.new result }
{
    let mut snapshot = Vec::new(alloc);
    let mut found = Vec::new(alloc);
    match journal.reread_either(alloc, &mut snapshot, &mut found) {
        Err(fault) => Err(journal_fault(on, fault)),
        Ok(version) => {
            let (state, _extents) = host_with(alloc, on, version, &snapshot, &found, spool)?;
            Ok(state)
        }
    }
}

// The spool with the set of its live extents, and the other journal at rest.
fn open_rest<D: Disk>(
    alloc: Global,
    resting: D,
    spool: D,
    extents: LiveExtents,
) -> Result<(Journal<D>, Spool<D>), (LoadFault, D, D)>
    requires { IsTrue D.tells → (end_of extents ≤ length (bytes_now (D.history spool))) × IsQuiet (D.history spool) }
    ensures { LaysAtRest resting spool extents result }
{
    match Journal::rest(alloc, resting) {
        Err((fault, resting)) => Err((unrested(fault), resting, spool)),
        Ok(other) => Ok((other, Spool::open(spool, extents))),
    }
}

/// Opens the journal on this disk and the spool, lays the other journal at rest, and tells the
/// host. On a refusal the disks are handed back in their order.
pub(crate) fn open_with<D: Disk>(
    alloc: Global,
    on: Which,
    active: D,
    resting: D,
    mut spool: D,
) -> Result<(Journal<D>, Journal<D>, Spool<D>, HostState), (LoadFault, D, D, D)>
    requires { IsTrue D.tells → IsQuiet (D.history active) × IsQuiet (D.history spool) }
    ensures { OpensWith on active resting spool result }
{
    let mut snapshot = Vec::new(alloc);
    let mut found = Vec::new(alloc);
    match Journal::load_either(alloc, active, &mut snapshot, &mut found) {
        Err((fault, active)) => Err((journal_fault(on, fault), active, resting, spool)),
        Ok((journal, version)) => match host_in(alloc, on, version, &snapshot, &found, &mut spool) {
            Err(fault) => Err((fault, journal.close(), resting, spool)),
            Ok((state, extents)) => match open_rest(alloc, resting, spool, extents) {
                Err((fault, resting, spool)) => Err((fault, journal.close(), resting, spool)),
                Ok((other, spool)) => Ok((journal, other, spool, state)),
            },
        },
    }
}
