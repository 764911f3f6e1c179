//! Disks of the version before, each byte by hand: a journal of version 1, with and without a
//! snapshot, is read and gone on with, and the first change carries the host over to version 2.

ghost use Rattle.std.specs.Prelude.{◌≡◌};
ghost use Rattle.nqs_types.specs.declared.world.Which.{Which as OneOf};
ghost use Rattle.nqs_outside.specs.History.{IsQuiet};
ghost use Rattle.nqs_disk.specs.MemDisk.{history_of};
ghost use Rattle.nqs_store.specs.Disks.{disk_at};

use crate::failures::{set, torn};
use nqs_base::Tear;
use nqs_disk::MemDisk;
use nqs_node::Node;
use nqs_outside::Disk;
use nqs_state::HostState;
use nqs_store::{Disks, LoadFault, read_only};
use nqs_types::{HostId, PeerNumber, Which};
use std::alloc::{AllocError, Global};
use std::rt::HostRuntime;
use std::test::Fail;

/// The header of version 1, and the length of the snapshot: 350.
const OLD_FRONT: &[u8] = b"NQS-SNAPSHOT-v1\n\0\0\0\0\0\0\x01\x5e";

/// The same of version 2, whose snapshot has 374 bytes.
const FRONT: &[u8] = b"NQS-SNAPSHOT-v2\n\0\0\0\0\0\0\x01\x76";

/// Host alpha of a site of alpha and beta, with the queue `batch`: all that stands before what it
/// knows of each host. It has promised beta the handover 5, of beta's request 9.
const BEFORE_PEERS: &[u8] = b"\0\
\0\0\0\0\0\0\0\x02\x05alpha\x04beta\
\0\0\0\0\0\0\0\x01\x05batch\0\x01\0\0\x1f\0\x01\0\0\0\0\0\0\0\0\0\0\0\0\0\0\0\0\0\0\0\0\
\0\0\0\0\0\0\0\0\0\0\0\0\0\0\0\0\0\0\0\0\0\0\0\0\0\0\0\0\0\0\0\0\
\0\0\0\0\0\0\0\x01\x01\0\0\0\0\0\0\0\x05\
\0\0\0\x09\x01\x01j\x01m\0\0\0\0\0\0\0\0\0\0\0\0\0\x01o\x01e\0\
\x05batch\0\0\0\0\0\0\0\0\0\x01\0\0\0\0\0\0\0\
\0\0\0\0\0\0\0\0\0\0\0\0\0\0\0\0\0\0\0\x02";

/// The peers by version 1: of alpha the next handover 1 and no closed number; of beta the next 3,
/// and 4 closed with all below it.
const OLD_PEERS: &[u8] = b"\0\0\0\0\0\0\0\x02\
\0\0\0\0\0\0\0\x01\0\0\0\0\0\0\0\0\0\0\0\0\0\0\0\0\0\0\0\0\0\0\0\x01\0\0\0\0\0\0\0\0\
\0\0\0\0\0\0\0\x03\0\0\0\0\0\0\0\x04\0\0\0\0\0\0\0\0\0\0\0\0\0\0\0\x01\0\0\0\0\0\0\0\0";

/// The same by version 2: of alpha the floor 0 and no closed number above it; of beta the floor 3,
/// and 4 closed above it.
const PEERS: &[u8] = b"\0\0\0\0\0\0\0\x02\
\0\0\0\0\0\0\0\x01\0\0\0\0\0\0\0\0\0\0\0\0\0\0\0\0\0\0\0\0\0\0\0\0\0\0\0\0\0\0\0\x01\0\0\0\0\0\0\0\0\
\0\0\0\0\0\0\0\x03\0\0\0\0\0\0\0\x03\0\0\0\0\0\0\0\x01\0\0\0\0\0\0\0\x04\
\0\0\0\0\0\0\0\0\0\0\0\0\0\0\0\x01\0\0\0\0\0\0\0\0";

/// What stands behind the peers: no stage or file, the manager root, no operator, the default queue
/// batch, 64 requests at once, 60 and 300 seconds, no request number and one arrival given, and the
/// next file 1.
const BEHIND_PEERS: &[u8] = b"\0\0\0\0\0\0\0\0\0\0\0\0\0\0\0\0\
\0\0\0\0\0\0\0\x01\x04root\0\0\0\0\0\0\0\0\
\x01\x05batch\0\x40\0\0\0\0\0\0\0\x3c\0\0\0\0\0\0\x01\x2c\
\0\0\0\0\0\0\0\0\0\0\0\x01\0\0\0\0\0\0\0\x01";

/// Records behind it. Beta's handover 6 is promised by the kind of the version before, which ends
/// 5; then 9 by today's kind, with the low 6, which leaves 6 as it is; and 9 is accepted.
const RECORDS: &[u8] = b"\x01\0\0\0\x3c\x0f\x01\0\0\0\0\0\0\0\x06\x05batch\
\0\0\0\x0a\x01\x01j\x01m\0\0\0\0\0\0\0\0\0\0\0\0\0\x01o\x01e\0\0\0\0\0\0\
\0\0\0\0\0\0\0\x02\0\0\0\x02\
\x01\0\0\0\x44\x18\x01\0\0\0\0\0\0\0\x09\0\0\0\0\0\0\0\x06\x05batch\
\0\0\0\x0b\x01\x01j\x01m\0\0\0\0\0\0\0\0\0\0\0\0\0\x01o\x01e\0\0\0\0\0\0\
\0\0\0\0\0\0\0\x04\0\0\0\x02\
\x01\0\0\0\x0a\x10\x01\0\0\0\0\0\0\0\x09";

/// The record of a boot.
const BOOT: &[u8] = b"\x01\0\0\0\x01\x08";

/// The scripts of the handovers 5, 6 and 9.
const SCRIPTS: &[u8] = b"a\nb\nc\n";

const BETA: HostId = HostId(1);

// What is known of a peer: its floor, how many numbers above it are closed, and the first of them.
type Closed = (u64, usize, Option<u64>);

// What is known of alpha and of beta, whether 5 and 6 of beta are promised, how many promises there
// are, and how many requests.
type Told = (Option<Closed>, Option<Closed>, [bool; 2], usize, usize);

// A journal of these parts, with as many boots, and a closed gate.
fn text(alloc: Global, parts: &[&[u8]], boots: usize) -> Result<Vec<u8>, AllocError> {
    let mut bytes = Vec::new(alloc);
    for part in parts {
        bytes.extend_from_slice(part)?;
    }
    for _ in 0..boots {
        bytes.extend_from_slice(BOOT)?;
    }
    bytes.push(0)?;
    Ok(bytes)
}

fn disk_with(alloc: Global, bytes: &[u8]) -> Option<MemDisk> {
    let mut disk = MemDisk::new(alloc);
    match disk.write_at(0, bytes) {
        Ok(()) => Some(disk),
        Err(_) => None,
    }
}

// The disks of a host whose first journal has these bytes, which the empty root names.
fn disks_with(alloc: Global, journal: &[u8]) -> Option<Disks<MemDisk>> {
    let first = disk_with(alloc, journal)?;
    let spool = disk_with(alloc, SCRIPTS)?;
    Some(Disks {
        root: MemDisk::new(alloc),
        first,
        second: MemDisk::new(alloc),
        spool,
    })
}

fn closed(state: &HostState, peer: usize) -> Option<Closed> {
    let known = state.peers.as_slice().get(peer)?;
    let closed = known.closed.as_slice();
    Some((known.floor, closed.len(), closed.first().copied()))
}

fn promises(state: &HostState, number: u64) -> bool {
    state.promises.has(&PeerNumber { peer: BETA, number })
}

fn told(state: &HostState) -> Told {
    let known = [promises(state, 5), promises(state, 6)];
    let rows = state.rows.len();
    (
        closed(state, 0),
        closed(state, 1),
        known,
        state.promises.len(),
        rows,
    )
}

// What the disks tell, or the place on the first journal at which they are no host's.
fn read(alloc: Global, disks: &mut Disks<MemDisk>) -> Result<Told, Option<u64>> {
    match read_only(alloc, disks) {
        Ok(state) => Ok(told(&state)),
        Err(LoadFault::NotNqs(Which::First, place)) => Err(Some(place)),
        Err(_) => Err(None),
    }
}

fn read_text(alloc: Global, parts: &[&[u8]]) -> Result<Result<Told, Option<u64>>, Fail> {
    let bytes = text(alloc, parts, 0)?;
    let Some(mut disks) = disks_with(alloc, &bytes) else {
        return Err("disks")?;
    };
    Ok(read(alloc, &mut disks))
}

/// What the snapshot tells alone.
const FIRST: Told = (
    Some((0, 0, None)),
    Some((3, 1, Some(4))),
    [true, false],
    1,
    0,
);

#[test]
fn an_old_snapshot_is_read(rt: HostRuntime) -> Result<(), Fail> {
    let alloc = rt.alloc();
    let alone = read_text(alloc, &[OLD_FRONT, BEFORE_PEERS, OLD_PEERS, BEHIND_PEERS])?;
    let parts = [OLD_FRONT, BEFORE_PEERS, OLD_PEERS, BEHIND_PEERS, RECORDS];
    let gone_on = read_text(alloc, &parts)?;
    let later: Told = (
        Some((0, 0, None)),
        Some((5, 1, Some(9))),
        [false, true],
        1,
        1,
    );
    assert_eq!(rt; (alone, gone_on), (Ok(FIRST), Ok(later)));
    Ok(())
}

#[test]
fn a_version_has_its_own_peers(rt: HostRuntime) -> Result<(), Fail> {
    let alloc = rt.alloc();
    // The lengths are those of the bytes behind them.
    let old = b"NQS-SNAPSHOT-v1\n\0\0\0\0\0\0\x01\x76".as_slice();
    let new = b"NQS-SNAPSHOT-v2\n\0\0\0\0\0\0\x01\x5e".as_slice();
    let new_peers = read_text(alloc, &[old, BEFORE_PEERS, PEERS, BEHIND_PEERS])?;
    let old_peers = read_text(alloc, &[new, BEFORE_PEERS, OLD_PEERS, BEHIND_PEERS])?;
    let today = read_text(alloc, &[FRONT, BEFORE_PEERS, PEERS, BEHIND_PEERS])?;
    assert_eq!(rt;
        (new_peers, old_peers, today),
        (Err(Some(24)), Err(Some(24)), Ok(FIRST))
    );
    Ok(())
}

// The disks after a boot.
fn booted(alloc: Global, disks: Disks<MemDisk>) -> Option<Disks<MemDisk>>
    requires { (which : OneOf) → IsQuiet (history_of (disk_at which disks)) }
{
    let mut out = Vec::new(alloc);
    match Node::boot(alloc, disks, &mut out) {
        Ok(node) => Some(node.close()),
        Err(_) => None,
    }
}

// The same of disks with writes pending.
fn booted_anew(alloc: Global, disks: Disks<MemDisk>) -> Option<Disks<MemDisk>> {
    match torn(disks, Tear::New) {
        Ok(disks) => booted(alloc, disks),
        Err(_) => None,
    }
}

fn holds(alloc: Global, disk: &mut MemDisk, wanted: &[u8]) -> Result<bool, Fail> {
    let mut bytes = vec![in alloc; 0u8; 1024]?;
    let count = disk.read_at(0, &mut bytes)?;
    Ok(count == wanted.len() && &bytes[..count] == wanted)
}

#[test]
fn a_boot_carries_over(rt: HostRuntime) -> Result<(), Fail> {
    let alloc = rt.alloc();
    let parts = [OLD_FRONT, BEFORE_PEERS, OLD_PEERS, BEHIND_PEERS];
    let bytes = text(alloc, &parts, 0)?;
    let Some(disks) = disks_with(alloc, &bytes) else {
        return Err("disks")?;
    };
    let Some(mut disks) = booted_anew(alloc, disks) else {
        return Err("boot")?;
    };
    let carried = text(alloc, &[FRONT, BEFORE_PEERS, PEERS, BEHIND_PEERS], 1)?;
    let named = holds(alloc, &mut disks.root, b"\x01")?;
    let written = holds(alloc, &mut disks.second, &carried)?;
    let again = read(alloc, &mut disks);
    assert_eq!(rt; (named, written, again), (true, true, Ok(FIRST)));
    Ok(())
}

/// A host as it was formatted before version 2: alpha, alone at its site.
const FORMATTED: &[u8] = b"NQS-JOURNAL-v1\n\n\x01\0\0\0\x09\x01\x00\x01\x05alpha";

/// What it tells.
const ALONE: Told = (Some((0, 0, None)), None, [false; 2], 0, 0);

// Whether the disk begins so.
fn begins(alloc: Global, disk: &mut MemDisk, wanted: &[u8]) -> Result<bool, Fail> {
    let mut bytes = vec![in alloc; 0u8; 1024]?;
    let count = disk.read_at(0, &mut bytes)?;
    Ok(count >= wanted.len() && &bytes[..wanted.len().min(count)] == wanted)
}

#[test]
fn a_boot_carries_a_formatted_host_over(rt: HostRuntime) -> Result<(), Fail> {
    let alloc = rt.alloc();
    let bytes = text(alloc, &[FORMATTED], 0)?;
    let Some(mut disks) = disks_with(alloc, &bytes) else {
        return Err("disks")?;
    };
    let before = read(alloc, &mut disks);
    let Some(mut disks) = booted_anew(alloc, disks) else {
        return Err("boot")?;
    };
    let named = holds(alloc, &mut disks.root, b"\x01")?;
    let carried = begins(alloc, &mut disks.second, b"NQS-SNAPSHOT-v2\n")?;
    let left = begins(alloc, &mut disks.first, b"NQS-JOURNAL-v1\n")?;
    let after = read(alloc, &mut disks);
    assert_eq!(rt; [named, carried, left], [true; 3]);
    assert_eq!(rt; (before, after), (Ok(ALONE), Ok(ALONE)));
    Ok(())
}

// What disks tell after a boot of which this call of this disk and each later one failed, and a
// stop; and after another boot.
fn stopped(
    alloc: Global,
    which: Which,
    call: u64,
    tear: Tear,
) -> Result<[Result<Told, Option<u64>>; 2], Fail> {
    let bytes = text(alloc, &[FORMATTED], 0)?;
    let Some(disks) = disks_with(alloc, &bytes) else {
        return Err("disks")?;
    };
    let mut disks = torn(disks, Tear::New)?;
    set(&mut disks, which, false, call);
    let mut out = Vec::new(alloc);
    let disks = match Node::boot(alloc, disks, &mut out) {
        Ok(_) => return Err("booted")?,
        Err((_, disks)) => disks,
    };
    let mut disks = torn(disks, tear)?;
    let then = read(alloc, &mut disks);
    let Some(mut disks) = booted_anew(alloc, disks) else {
        return Err("boot")?;
    };
    Ok([then, read(alloc, &mut disks)])
}

// The calls of the first change of a host that is carried over: two of the other journal, two of
// the root, and four of its record.
static CALLS: [(Which, u64); 8] = [
    (Which::Second, 1),
    (Which::Second, 2),
    (Which::Root, 1),
    (Which::Root, 2),
    (Which::Second, 3),
    (Which::Second, 4),
    (Which::Second, 5),
    (Which::Second, 6),
];

#[test]
fn a_stop_of_that_boot_changes_nothing(rt: HostRuntime) -> Result<(), Fail> {
    let tears = [Tear::Old, Tear::New, Tear::Mixed(2), Tear::Mixed(0x5555)];
    for (which, call) in &CALLS {
        for tear in &tears {
            let told = stopped(rt.alloc(), *which, *call, *tear)?;
            assert_eq!(rt; told, [Ok(ALONE), Ok(ALONE)]);
        }
    }
    Ok(())
}
