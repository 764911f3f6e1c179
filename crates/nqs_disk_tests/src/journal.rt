//! What a load finds after a stop within each call of a format or an append, with each tear, and in
//! bytes by hand.
ghost use Rattle.nqs_outside.specs.History.{IsQuiet};
ghost use Rattle.nqs_disk.specs.MemDisk.{history_of};

use nqs_base::{Bytes, Tear};
use nqs_disk::MemDisk;
use nqs_journal::{Journal, JournalFault, format, read_payloads};
use nqs_outside::{Disk, Failed, Fused};
use std::alloc::Global;
use std::test::Fail;

const FIRST: &[u8] = b"first";

const SECOND: &[u8] = b"second";

/// A tear, and the payloads that are found after a stop in each call of an append of the second
/// one.
static LEFT: [(Tear, [usize; 4]); 4] = [
    (Tear::Old, [1, 1, 1, 1]),
    (Tear::New, [1, 1, 2, 2]),
    // Each pending byte is the new one.
    (Tear::Mixed(0x5555_5555_5555_5555), [1, 1, 2, 2]),
    // The gate is 7, which is none of a record that counts.
    (Tear::Mixed(2), [1, 1, 1, 1]),
];

fn load(alloc: Global, disk: MemDisk) -> Result<(Journal<MemDisk>, Vec<Bytes>), Fail>
    requires { IsQuiet (history_of disk) }
{
    let mut found = Vec::new(alloc);
    match Journal::load(alloc, disk, &mut found) {
        Ok(journal) => Ok((journal, found)),
        Err(_) => Err("load")?,
    }
}

// A journal of the first payload.
fn with_first(alloc: Global) -> Result<Journal<MemDisk>, Fail> {
    let mut disk = MemDisk::new(alloc);
    let Ok(()) = format(&mut disk) else {
        return Err("format")?;
    };
    let (mut journal, _) = load(alloc, disk)?;
    journal.append(FIRST)?;
    Ok(journal)
}

// What is found after a stop in that call of an append of the second payload.
fn left_after(alloc: Global, call: u64, tear: Tear) -> Result<Vec<Bytes>, Fail> {
    let mut journal = with_first(alloc)?;
    journal.fuse(call);
    if journal.append(SECOND) != Err(JournalFault::Disk) {
        return Err("answer")?;
    }
    let disk = journal.close().crash(tear)?;
    let (_, found) = load(alloc, disk)?;
    Ok(found)
}

pub(crate) fn has(found: &[Bytes], payloads: &[&[u8]]) -> bool {
    found.len() == payloads.len()
        && found
            .iter()
            .zip(payloads.iter())
            .all(|(a, b): (&Bytes, &&[u8])| a.as_slice() == *b)
}

// Whether the counted ones of the two payloads are found.
fn leaves(alloc: Global, call: u64, tear: Tear, count: usize) -> Result<bool, Fail> {
    let found = left_after(alloc, call, tear)?;
    Ok(match [FIRST, SECOND].get(..count) {
        Some(payloads) => has(&found, payloads),
        None => false,
    })
}

#[test]
fn stops(rt: HostRuntime) -> Result<(), Fail> {
    let alloc = rt.alloc();
    for (tear, counts) in &LEFT {
        for call in 0..4 {
            let leaves = leaves(alloc, call as u64 + 1, *tear, counts[call])?;
            assert!(rt; leaves);
        }
    }
    Ok(())
}

// The answers of two appends where the third call of the first one fails.
fn stopped(journal: &mut Journal<MemDisk>) -> [Result<(), JournalFault>; 2] {
    journal.fuse(3);
    [journal.append(SECOND), journal.append(SECOND)]
}

// Whether these are the payloads once one more is appended.
fn holds_with(
    alloc: Global,
    journal: &mut Journal<MemDisk>,
    more: &[u8],
    payloads: &[&[u8]],
) -> Result<bool, Fail> {
    journal.append(more)?;
    let mut found = Vec::new(alloc);
    journal.reread(alloc, &mut found)?;
    Ok(has(&found, payloads))
}

// Whether the first payload is found after a stop, and whether a third one then counts.
fn goes_on(alloc: Global, disk: MemDisk) -> Result<[bool; 2], Fail>
    requires { IsQuiet (history_of disk) }
{
    let (mut journal, found) = load(alloc, disk)?;
    let first = has(&found, &[FIRST]);
    let third = holds_with(alloc, &mut journal, b"third", &[FIRST, b"third"])?;
    Ok([first, third])
}

// The answers of the appends before the stop, and what counts after it.
fn after_a_stop(alloc: Global) -> Result<([Result<(), JournalFault>; 2], [bool; 2]), Fail> {
    let mut journal = with_first(alloc)?;
    let answers = stopped(&mut journal);
    let disk = journal.close().crash(Tear::Old)?;
    Ok((answers, goes_on(alloc, disk)?))
}

#[test]
fn appends_after_a_stop(rt: HostRuntime) -> Result<(), Fail> {
    let (answers, found) = after_a_stop(rt.alloc())?;
    let wanted = [Err(JournalFault::Disk), Err(JournalFault::Stopped)];
    assert_eq!(rt; (answers, found), (wanted, [true, true]));
    Ok(())
}

/// A tear, and what a load finds after a stop in each of the two calls of a format: a journal
/// without payloads, or bytes that are none from a place on.
const FORMATTED: [(Tear, [Option<u64>; 2]); 6] = [
    // Nothing was synced, so the disk is empty.
    (Tear::Old, [Some(0), Some(0)]),
    (Tear::New, [None, None]),
    // Each byte is the new one, and the length is the new one.
    (Tear::Mixed(0x5555_5555_5555_5555), [None, None]),
    // The length is the old one.
    (Tear::Mixed(0x5555_5555_5555_5554), [Some(0), Some(0)]),
    // The header's last byte is 7.
    (Tear::Mixed(0x1_9555_5555), [Some(15), Some(15)]),
    // The gate is 7, which is none of a record that counts.
    (Tear::Mixed(0x2_5555_5555), [None, None]),
];

// What a load finds after a stop in that call of a format.
fn formatted_after(alloc: Global, call: u64, tear: Tear) -> Result<Option<u64>, Fail> {
    let mut disk = MemDisk::new(alloc);
    disk.fuse(call);
    if format(&mut disk) != Err(JournalFault::Disk) {
        return Err("answer")?;
    }
    let mut found = Vec::new(alloc);
    match Journal::load(alloc, disk.crash(tear)?, &mut found) {
        Ok(_) if found.is_empty() => Ok(None),
        Err((JournalFault::NotJournal(place), _)) => Ok(Some(place)),
        _ => Err("load")?,
    }
}

#[test]
fn stops_within_a_format(rt: HostRuntime) -> Result<(), Fail> {
    for (tear, left) in &FORMATTED {
        for call in 0..2 {
            let found = formatted_after(rt.alloc(), call as u64 + 1, *tear)?;
            assert_eq!(rt; found, left[call]);
        }
    }
    Ok(())
}

/// The journal of host alpha in the site of alpha alone, byte by byte: header, gate, length, the
/// record of the site, gate.
static ALPHA: [u8; 31] = *b"NQS-JOURNAL-v2\n\n\x01\0\0\0\x09\x01\0\x01\x05alpha\0";

pub(crate) fn disk_of(alloc: Global, bytes: &[u8]) -> Result<MemDisk, Fail> {
    let mut disk = MemDisk::new(alloc);
    disk.write_at(0, bytes)?;
    Ok(disk)
}

// Whether these are the payloads that a disk has.
fn reads(alloc: Global, disk: &mut MemDisk, payloads: &[&[u8]]) -> Result<bool, Fail> {
    let mut found = Vec::new(alloc);
    read_payloads(alloc, disk, &mut found)?;
    Ok(has(&found, payloads))
}

// Whether a reading is refused, and finds nothing, once a call of the disk has failed.
fn refuses_when_failed(alloc: Global, disk: &mut MemDisk) -> bool {
    disk.fuse(1);
    let synced = disk.sync();
    let mut found = Vec::new(alloc);
    let refused = read_payloads(alloc, disk, &mut found) == Err(JournalFault::Disk);
    synced == Err(Failed) && refused && found.is_empty()
}

// Whether bytes have these payloads, and whether a further reading is refused once a call of the
// disk has failed.
fn payloads_are(alloc: Global, bytes: &[u8], payloads: &[&[u8]]) -> Result<[bool; 2], Fail> {
    let mut disk = disk_of(alloc, bytes)?;
    let found = reads(alloc, &mut disk, payloads)?;
    Ok([found, refuses_when_failed(alloc, &mut disk)])
}

#[test]
fn reads_by_the_gate(rt: HostRuntime) -> Result<(), Fail> {
    let alloc = rt.alloc();
    let mut open = ALPHA;
    open[16] = 7;
    // The header of the version before.
    let mut old = ALPHA;
    old[13] = b'1';
    let closed = payloads_are(alloc, &ALPHA, &[&ALPHA[21..30]])?;
    let [none, _] = payloads_are(alloc, &open, &[])?;
    let read = payloads_are(alloc, &old, &[&ALPHA[21..30]])?;
    assert_eq!(rt; (closed, none, read), ([true, true], true, [true, true]));
    Ok(())
}

// The answer to a payload that is too long, and whether one that is shorter by a byte counts.
fn takes(
    alloc: Global,
    longer: &[u8],
    longest: &[u8],
) -> Result<(Result<(), JournalFault>, bool), Fail> {
    let mut journal = with_first(alloc)?;
    let answer = journal.append(longer);
    let holds = holds_with(alloc, &mut journal, longest, &[FIRST, longest])?;
    Ok((answer, holds))
}

#[test]
fn takes_no_longer_payload(rt: HostRuntime) -> Result<(), Fail> {
    let alloc = rt.alloc();
    let bytes = vec![in alloc; 0u8; 65_537]?;
    let taken = takes(alloc, &bytes, &bytes[1..])?;
    assert_eq!(rt; taken, (Err(JournalFault::TooLong), true));
    Ok(())
}
