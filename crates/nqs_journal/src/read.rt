//! What the bytes of a journal stand for.
ghost use Rattle.std.specs.Prelude.{◌≡◌, ◌⊎◌, ◌+◌, ◌<◌, ◌≤◌, ◌++◌, ℕ, List, length, take, drop, slice_get, ◌≢◌, IfSome, IfNone, IfOk, IfErr, OnErr};
ghost use Rattle.std.specs.Prelude.{MatchOption};
ghost use Rattle.nqs_journal.specs.Text.{header_by, frame, records, IsNoFrame, LeavesHeader, StandsAfter};
ghost use Rattle.nqs_journal.specs.Faults.{IsReadFault, IsRecordsFault};

use crate::JournalFault;
use crate::journal::LONGEST;
use nqs_base::Bytes;
use std::alloc::Global;

pub(crate) const HEADER: [u8; 16] = *b"NQS-JOURNAL-v2\n\n";

pub(crate) const OLD_HEADER: [u8; 16] = *b"NQS-JOURNAL-v1\n\n";

// The first place at which the bytes leave others.
pub(crate) fn first_difference(bytes: &[u8], others: &[u8]) -> Option<usize>
    ensures none { IfNone result (bytes.now ≡ others.now ++ drop (length others.now) bytes.now) }
    ensures within { IfSome result (λ place. place < length others.now) }
    ensures same { IfSome result (λ place. take place bytes.now ≡ take place others.now) }
    ensures differs { IfSome result (λ place. slice_get bytes.now place ≢ slice_get others.now place) }
{
    for (place, other) in others.iter().enumerate() {
        if place >= bytes.len() {
            return Some(place);
        }
        if bytes[place] != *other {
            return Some(place);
        }
    }
    None
}

// Whether the bytes begin with the old header, where they begin with one of them, or the first
// place at which they go on as neither.
fn is_header_old(bytes: &[u8]) -> Result<bool, usize>
    ensures stands { IfOk result (λ is_old. bytes.now ≡ header_by is_old ++ drop 16 bytes.now) }
    ensures fault { IfErr result (LeavesHeader bytes.now) }
{
    let Some(new) = first_difference(bytes, &HEADER) else {
        return Ok(false);
    };
    let Some(old) = first_difference(bytes, &OLD_HEADER) else {
        return Ok(true);
    };
    Err(new.max(old))
}

// A payload behind an open gate, and what follows it.
fn first_frame(bytes: &[u8]) -> Option<(&[u8], &[u8])>
    ensures some { IfSome result (λ found. bytes.now ≡ frame found.0.now ++ found.1.now) }
    ensures short { IfSome result (λ found. length found.0.now ≤ 65536) }
    ensures none { IfNone result (IsNoFrame bytes.now) }
{
    if bytes.len() < 4 {
        return None;
    }
    let (front, rest) = bytes.split_at(4);
    let length = u32::from_be_bytes([front[0], front[1], front[2], front[3]]) as usize;
    if length > LONGEST {
        return None;
    }
    if length > rest.len() {
        return None;
    }
    Some(rest.split_at(length))
}

/// What was read: the payloads, and the place of the closed gate behind them.
#[derive(Drop)]
pub(crate) struct Reading {
    pub payloads: Vec<Bytes>,
    pub gate: u64,
}

// The payloads whose records stand behind a front of so many bytes, and the place of the next gate.
pub(crate) fn read_records(
    alloc: Global,
    bytes: &[u8],
    front: usize,
) -> Result<Reading, JournalFault>
    requires { front ≤ length bytes.now }
    ensures stands { IfOk result (λ found. StandsAfter (take front bytes.now) bytes.now found.payloads.items) }
    ensures gate { IfOk result (λ found. found.gate ≡ length (take front bytes.now ++ records found.payloads.items)) }
    ensures within { IfOk result (λ found. found.gate < length bytes.now) }
    ensures fault { IfErr result (IsRecordsFault (take front bytes.now) bytes.now) }
{
    let mut payloads = Vec::new(alloc);
    let mut rest = &bytes[front..];
    let mut gate = front as u64;
    'records: loop {
        let Some((byte, after)) = rest.split_first() else {
            return Err(JournalFault::NotJournal(gate));
        };
        if *byte != 1 {
            return Ok(Reading { payloads, gate });
        }
        let Some((payload, more)) = first_frame(after) else {
            return Err(JournalFault::NotJournal(gate));
        };
        payloads.push(Bytes::from_vec(payload.to_vec(alloc)?))?;
        gate += 5 + payload.len() as u64;
        rest = more;
    }
}

// The payloads that the bytes stand for with the place of the next gate, and whether the header is
// old.
pub(crate) fn read_text(alloc: Global, bytes: &[u8]) -> Result<(Reading, bool), JournalFault>
    ensures stands { IfOk result (λ found. StandsAfter (header_by found.1) bytes.now found.0.payloads.items) }
    ensures gate { IfOk result (λ found. found.0.gate ≡ length (header_by found.1 ++ records found.0.payloads.items)) }
    ensures within { IfOk result (λ found. found.0.gate < length bytes.now) }
    ensures fault { IfErr result (IsReadFault bytes.now) }
{
    let is_old = match is_header_old(bytes) {
        Ok(is_old) => is_old,
        Err(place) => return Err(JournalFault::NotJournal(place as u64)),
    };
    let reading = read_records(alloc, bytes, 16)?;
    Ok((reading, is_old))
}
