//! The host that a journal tells: its records are changes, of which each fits what those before it
//! tell. The first one formats the host, or a snapshot stands in its place.
//!
//! Only a start makes a request run, and a boot leaves none running. So those that run in a
//! snapshot and those that started since, or since the last boot, are kept beside the host, and a
//! boot looks at these alone: a journal is told in the time of its records, however many of them
//! are boots.

ghost use Rattle.std.specs.Prelude.{◌≡◌, ◌≢◌, ◌≤◌, ◌^◌, ◌+◌, ◌++◌, [], length, IfOk, OnOk, None, IsTrue};
ghost use Rattle.nqs_state.specs.State.{content};
ghost use Rattle.nqs_changes.specs.Running.{runs_in, runs_only};
ghost use Rattle.nqs_journal.specs.Text.{header, records};
ghost use Rattle.nqs_journal.specs.Either.{front_of};
ghost use Rattle.nqs_base.specs.declared.extent.Extent.{Extent};
ghost use Rattle.nqs_types.specs.declared.request.Row.{Row as RowOf};
ghost use Rattle.nqs_rules.specs.InOrder.{IsInOrder, IsConsistent};
ghost use Rattle.nqs_records.specs.Reading.{Answers};
ghost use Rattle.nqs_snapshot.specs.Sound.{HasShortParts};
ghost use Rattle.nqs_snapshot.specs.Laws.{told_by as read_as};
ghost use Rattle.nqs_store.specs.Told.{record_taken, told, host_by, told_by};
ghost use Rattle.nqs_store.specs.TellFaults.{IsRefused, IsTellFault};
ghost use Rattle.nqs_store.specs.Telling.{ReadsChange, ReadsSnapshot, TellsHost, IsSoFar, MayMake, MakesChange, TakesRecord, TakesEach};
ghost use Rattle.nqs_base.specs.Want.{want};

use nqs_base::{Bytes, Memory};
use nqs_changes::boot::boot_running;
use nqs_host::{apply, fits, formatted};
use nqs_records::{RecordFault, read_change};
use nqs_snapshot::{read_old_state, read_state};
use nqs_state::HostState;
use nqs_types::{Change, RequestId, Row, RowState};
use std::alloc::Global;

/// Bytes of a journal's header.
const HEADER: u64 = 16;
/// Bytes of a snapshot's header and length.
const SNAPSHOT: u64 = 24;
/// Bytes of a record beside its payload.
const FRAME: u64 = 5;

/// Why records tell no host.
#[derive(Drop)]
pub enum TellFault {
    /// There is none, or the gate of the first that isn't taken stands at this place.
    Untold(u64),
    Memory(Memory),
}

impl From<Memory> for TellFault {
    ghost use Rattle.nqs_store.specs.declared.tell.TellFault.TheVariants as fault;

    ghost from_gives = { λ _ e. e ≡ fault.Memory want };

    fn from(memory: Memory) -> TellFault {
        TellFault::Memory(memory)
    }
}

// The change of the record whose gate stands at the place.
fn change_of(alloc: Global, place: u64, payload: &[u8]) -> Result<Change, TellFault>
    ensures { ReadsChange place payload.now result }
{
    match read_change(alloc, payload) {
        Ok(change) => Ok(change),
        Err(RecordFault::Memory(memory)) => Err(TellFault::Memory(memory)),
        Err(_) => Err(TellFault::Untold(place)),
    }
}

// The host that is formatted by the first record.
fn first_host(alloc: Global, payload: &[u8]) -> Result<HostState, TellFault>
    ensures told { TellsHost (record_taken payload.now None) (IsRefused 16 (record_taken payload.now None ≡ None)) result }
    ensures none { IfOk result (λ state. IsTrue (runs_only [] (content state))) }
{
    match change_of(alloc, HEADER, payload)? {
        Change::Site { me, site } => Ok(formatted(alloc, me, site)?),
        _ => Err(TellFault::Untold(HEADER)),
    }
}

// Makes a change that fits, and keeps which requests may run after it. For want of memory it isn't
// made.
fn make_change(
    state: &mut HostState,
    running: &mut Vec<RequestId>,
    change: Change,
) -> Result<(), Memory>
    requires { MayMake state.old running.old.items change }
    ensures { MakesChange change (content state.old) running.old.items (content state.new) running.new.items result }
{
    match change {
        Change::Boot => {
            boot_running(state, running.as_slice());
            running.clear();
            Ok(())
        }
        Change::Started { id, .. } => {
            running.push(id)?;
            apply(state, change);
            Ok(())
        }
        _ => {
            apply(state, change);
            Ok(())
        }
    }
}

// A later record's change is made, where it fits.
fn take_record(
    alloc: Global,
    state: &mut HostState,
    running: &mut Vec<RequestId>,
    place: u64,
    payload: &[u8],
) -> Result<(), TellFault>
    requires { IsSoFar (content state.old) running.old.items }
    ensures { TakesRecord place payload.now (content state.old) (content state.new) running.new.items result }
{
    let change = change_of(alloc, place, payload)?;
    if !fits(state, &change) {
        return Err(TellFault::Untold(place));
    }
    state.make_room(&change)?;
    make_change(state, running, change)?;
    Ok(())
}

// A request that runs is kept as one that may.
fn keep_if_running(running: &mut Vec<RequestId>, row: &Row) -> Result<(), Memory>
    ensures only { OnOk result (IsTrue (runs_in running.new.items row.now)) }
    ensures others { OnOk result ((r : RowOf Extent) → IsTrue (runs_in running.old.items r) → IsTrue (runs_in running.new.items r)) }
{
    if row.state == RowState::Running {
        running.push(row.id)?;
    }
    Ok(())
}

// The requests that may run in a host: those that do.
fn running_of(alloc: Global, state: &HostState) -> Result<Vec<RequestId>, Memory>
    ensures { IfOk result (λ running. IsTrue (runs_only running.items (content state.now))) }
{
    let mut running: Vec<RequestId> = Vec::new(alloc);
    for place in 0..state.rows.len() {
        keep_if_running(&mut running, state.rows.at(place))?;
    }
    Ok(running)
}

// What the bytes of a snapshot of this version are read as.
fn read_version(alloc: Global, version: u8, snapshot: &[u8]) -> Result<HostState, RecordFault>
    ensures answer { Answers (host_by version snapshot.now) (read_as result) }
    ensures order { IfOk result (λ state. IsInOrder (content state)) }
    ensures consistent { IfOk result (λ state. IsConsistent (content state)) }
    ensures short { IfOk result (λ state. HasShortParts (content state)) }
{
    if version == 1 {
        return read_old_state(alloc, snapshot);
    }
    read_state(alloc, snapshot)
}

// The host that a snapshot of this version is read as.
fn snapshot_host(alloc: Global, version: u8, snapshot: &[u8]) -> Result<HostState, TellFault>
    ensures { ReadsSnapshot version snapshot.now result }
{
    match read_version(alloc, version, snapshot) {
        Ok(state) => Ok(state),
        Err(RecordFault::Memory(memory)) => Err(TellFault::Memory(memory)),
        Err(_) => Err(TellFault::Untold(SNAPSHOT)),
    }
}

// Makes the changes of the records, of which the first has its gate at the place.
fn take_records(
    alloc: Global,
    state: &mut HostState,
    running: &mut Vec<RequestId>,
    place: u64,
    payloads: &[Bytes],
) -> Result<(), TellFault>
    requires so_far { IsSoFar (content state.old) running.old.items }
    requires short { place + length (records payloads.now) ≤ 2 ^ 40 }
    ensures { TakesEach place payloads.now (content state.old) (content state.new) running.new.items result }
{
    let mut at = place;
    for payload in payloads {
        take_record(alloc, state, running, at, payload.as_slice())?;
        at += FRAME + payload.len() as u64;
    }
    Ok(())
}

// The host that records tell behind the header.
fn tell_first(alloc: Global, payloads: &[Bytes]) -> Result<HostState, TellFault>
    requires { length (header ++ records payloads.now) ≤ 2 ^ 40 }
    ensures { TellsHost (told payloads.now) (IsTellFault 0 [] payloads.now) result }
{
    let Some((first, later)) = payloads.split_first() else {
        return Err(TellFault::Untold(HEADER));
    };
    let mut state = first_host(alloc, first.as_slice())?;
    let mut running: Vec<RequestId> = Vec::new(alloc);
    let place = HEADER + FRAME + first.len() as u64;
    take_records(alloc, &mut state, &mut running, place, later)?;
    Ok(state)
}

// How many bytes stand before the records: the header, or a snapshot's front.
fn front_length(version: u8, snapshot: &[u8]) -> u64
    requires { length (front_of version snapshot.now) ≤ 2 ^ 40 }
    ensures { result ≡ length (front_of version snapshot.now) }
{
    if version == 0 {
        return HEADER;
    }
    if version > 2 {
        return HEADER;
    }
    SNAPSHOT + snapshot.len() as u64
}

// The host that records tell behind a snapshot.
fn tell_behind(
    alloc: Global,
    version: u8,
    snapshot: &[u8],
    payloads: &[Bytes],
) -> Result<HostState, TellFault>
    requires version { version ≢ 0 }
    requires short { length (front_of version snapshot.now ++ records payloads.now) ≤ 2 ^ 40 }
    ensures { TellsHost (told_by version snapshot.now payloads.now) (IsTellFault version snapshot.now payloads.now) result }
{
    let mut state = snapshot_host(alloc, version, snapshot)?;
    let mut running = running_of(alloc, &state)?;
    let place = front_length(version, snapshot);
    take_records(alloc, &mut state, &mut running, place, payloads)?;
    Ok(state)
}

/// The host that a journal of any form tells, by the version of its snapshot, 0 where it has none,
/// the snapshot's bytes, and its records.
pub(crate) fn tell(
    alloc: Global,
    version: u8,
    snapshot: &[u8],
    payloads: &[Bytes],
) -> Result<HostState, TellFault>
    requires { length (front_of version snapshot.now ++ records payloads.now) ≤ 2 ^ 40 }
    ensures { TellsHost (told_by version snapshot.now payloads.now) (IsTellFault version snapshot.now payloads.now) result }
{
    if version == 0 {
        return tell_first(alloc, payloads);
    }
    tell_behind(alloc, version, snapshot, payloads)
}
