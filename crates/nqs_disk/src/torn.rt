//! What a stop leaves of the bytes of a disk, by its tear.
ghost use Rattle.std.specs.Prelude.{◌≡◌, ◌+◌, ◌^◌, ◌≤◌, ◌<◌, ◌||◌, ℕ, List, Bool, true, IsTrue, length, take, drop, nat_le, vec_len, IfOk, slice_index};
ghost use Rattle.std.specs.Prelude.{if◌then◌else◌, ◌%◌, ◌==◌};
ghost use Rattle.nqs_outside.specs.History.{State, after, fresh, made, is_sound, covers};
ghost use Rattle.nqs_disk.specs.Calls.{call_of, calls_of, is_synced, has_no_sync, touches};
ghost use Rattle.nqs_base.specs.Tears.{torn_byte};
ghost use Rattle.nqs_disk.specs.Torn.{torn, mixed_from, bits};

use crate::DiskCall;
use crate::calls::overwrite;
use nqs_base::{Memory, Tear};
use std::alloc::Global;

// The bytes after calls.
fn replay(alloc: Global, start: &[u8], calls: &[DiskCall]) -> Result<Vec<u8>, Memory>
    requires { IsTrue (is_sound start.now (calls_of calls.now)) }
    ensures { IfOk result (λ bytes. bytes.items ≡ made start.now (calls_of calls.now)) }
{
    let mut bytes = start.to_vec(alloc)?;
    for call in calls {
        if let DiskCall::Write {
            place,
            bytes: more,
            done: _,
        } = call
        {
            overwrite(&mut bytes, *place as usize, more.as_slice())?;
        }
    }
    Ok(bytes)
}

fn is_done_sync(call: &DiskCall) -> bool
    ensures { result ≡ is_synced (call_of call.now) }
{
    match call {
        DiskCall::Write { .. } => false,
        DiskCall::Sync { done } => *done,
    }
}

// How many calls there are up to the last sync that was done.
fn last_sync(calls: &[DiskCall]) -> usize
    ensures within { result ≤ length calls.now }
    ensures synced { (bytes : List ℕ) → after (fresh bytes) (calls_of (take result calls.now)) ≡ fresh (made bytes (calls_of (take result calls.now))) }
    ensures behind { IsTrue (has_no_sync (calls_of (drop result calls.now))) }
{
    let mut last = 0;
    for (i, call) in calls.iter().enumerate() {
        if is_done_sync(call) {
            last = i + 1;
        }
    }
    last
}

// Whether a write has the place.
fn is_touched(calls: &[DiskCall], place: usize) -> bool
    ensures { result ≡ touches (calls_of calls.now) place }
{
    for call in calls {
        if let DiskCall::Write {
            place: from,
            bytes,
            done: _,
        } = call
        {
            let from = *from as usize;
            if from <= place && place - from < bytes.as_slice().len() {
                return true;
            }
        }
    }
    false
}

fn picked(n: u64, i: usize, old: u8, new: u8) -> u8
    ensures { result ≡ torn_byte (bits n i) old new }
{
    match (n >> (2 * (i % 32))) % 4 {
        0 => old,
        1 => new,
        2 => 7,
        _ => 255,
    }
}

fn is_free(synced: &[u8], pending: &[DiskCall], place: usize) -> bool
    ensures { result ≡ (touches (calls_of pending.now) place || nat_le (length synced.now) place) }
{
    is_touched(pending, place) || synced.len() <= place
}

fn old_byte(synced: &[u8], place: usize) -> u8
    ensures { result ≡ slice_index synced.now place }
{
    synced.get(place).copied().unwrap_or(0)
}

fn chosen(is_free: bool, n: u64, i: usize, old: u8, new: u8) -> u8
    ensures { result ≡ (if is_free then torn_byte (bits n i) old new else old) }
{
    if is_free { picked(n, i, old, new) } else { old }
}

fn counted(is_free: bool, i: usize) -> usize
    requires { i < 2 ^ 63 }
    ensures value { result ≡ (if is_free then i + 1 else i) }
    ensures most { result ≤ i + 1 }
{
    if is_free { i + 1 } else { i }
}

// The bytes that a stop leaves of those since the last sync.
fn mix(
    alloc: Global,
    synced: &[u8],
    content: &[u8],
    pending: &[DiskCall],
    n: u64,
) -> Result<Vec<u8>, Memory>
    ensures { IfOk result (λ bytes. bytes.items
        ≡ mixed_from (λ place. touches (calls_of pending.now) place || nat_le (length synced.now) place) n synced.now 0 0 content.now) }
{
    let mut bytes = Vec::new(alloc);
    let mut i = 0;
    for (place, new) in content.iter().enumerate() {
        let free = is_free(synced, pending, place);
        let old = old_byte(synced, place);
        bytes.push(chosen(free, n, i, old, *new))?;
        i = counted(free, i);
    }
    Ok(bytes)
}

fn mixed_length(n: u64, content: usize, synced: usize) -> usize
    ensures { result ≡ (if n % 2 == 1 then content else synced) }
{
    if n % 2 == 1 { content } else { synced }
}

// What a stop leaves of the bytes that calls made.
pub(crate) fn torn_bytes(
    alloc: Global,
    start: &[u8],
    content: Vec<u8>,
    calls: &[DiskCall],
    tear: Tear,
) -> Result<Vec<u8>, Memory>
    requires sound { IsTrue (is_sound start.now (calls_of calls.now)) }
    requires content { content.items ≡ made start.now (calls_of calls.now) }
    ensures { IfOk result (λ bytes. bytes.items ≡ torn tear (after (fresh start.now) (calls_of calls.now))) }
{
    let last = last_sync(calls);
    if last == calls.len() {
        // Nothing is pending: each tear leaves the bytes as they are.
        return Ok(content);
    }
    match tear {
        Tear::New => Ok(content),
        Tear::Old => replay(alloc, start, &calls[..last]),
        Tear::Mixed(n) => {
            let synced = replay(alloc, start, &calls[..last])?;
            let mut bytes = mix(alloc, &synced, &content, &calls[last..], n)?;
            bytes.truncate(mixed_length(n, content.len(), synced.len()));
            Ok(bytes)
        }
    }
}
