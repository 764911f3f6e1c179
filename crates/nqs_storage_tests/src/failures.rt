//! What a host's disks tell where a call of one of them failed, alone or with each later one, with
//! each tear: the rule is in `docs/storage.md`, "One event at a host".

ghost use Rattle.std.specs.Prelude.{◌≡◌, ◌≤◌, ℕ, IfOk, IfSome, IsTrue, length};
ghost use Rattle.nqs_state.specs.State.{content};
ghost use Rattle.nqs_types.specs.declared.world.Which.{Which as OneOf};
ghost use Rattle.nqs_outside.specs.History.{IsQuiet};
ghost use Rattle.nqs_disk.specs.MemDisk.{history_of};
ghost use Rattle.nqs_rules.specs.Sane.{is_sane_command, is_sane_event};
ghost use Rattle.nqs_store.specs.Disks.{disk_at};
ghost use Rattle.nqs_store.specs.Sound.{IsSoundHost};
ghost use Rattle.nqs_node.specs.Nodes.{content_of};

use crate::node::{formatted, start_queue, submission, submit};
use nqs_base::{Bytes, Tear};
use nqs_disk::{Lack, MemDisk};
use nqs_journal::{Journal, JournalFault, format};
use nqs_node::Node;
use nqs_outside::{Disk, Fused};
use nqs_state::HostState;
use nqs_store::{Disks, LoadFault, Store, StoreFault, read_only};
use nqs_types::{
    Command, Event, HostId, Job, Limits, Output, RequestId, RowState, Submission, Which, batch,
    root,
};
use std::alloc::Global;
use std::rt::HostRuntime;

/// A tear, and whether a change is told after a failure of each of the four calls of its record.
static KEPT: [(Tear, [bool; 4]); 4] = [
    (Tear::Old, [false; 4]),
    (Tear::New, [false, false, true, true]),
    // Each pending byte is the new one.
    (
        Tear::Mixed(0x5555_5555_5555_5555),
        [false, false, true, true],
    ),
    // The gate is 7, which is none of a record that counts.
    (Tear::Mixed(2), [false; 4]),
];

/// The one request of these tests.
const REQUEST: RequestId = RequestId {
    seq: 1,
    host: HostId(0),
};

// How many requests disks tell, and whether the one runs.
type Told = Option<(usize, bool)>;

// What a node answers: whether the failed disk is named, nothing goes out, it is stopped, and the
// next event is answered `Stopped`; and what its disks tell after a stop.
type Cut = ([bool; 4], Told);

// A call of a disk is to fail, alone or with each later one.
fn set_one(disk: &mut MemDisk, alone: bool, call: u64)
    ensures { history_of disk.new ≡ history_of disk.old }
{
    if alone {
        disk.fail_once(call);
    } else {
        disk.fuse(call);
    }
}

pub(crate) fn set(disks: &mut Disks<MemDisk>, which: Which, alone: bool, call: u64)
    ensures { (disk : OneOf) → history_of (disk_at disk disks.new) ≡ history_of (disk_at disk disks.old) }
{
    match which {
        Which::Root => set_one(&mut disks.root, alone, call),
        Which::First => set_one(&mut disks.first, alone, call),
        Which::Second => set_one(&mut disks.second, alone, call),
        Which::Spool => set_one(&mut disks.spool, alone, call),
    }
}

pub(crate) fn torn(disks: Disks<MemDisk>, tear: Tear) -> Result<Disks<MemDisk>, Lack>
    ensures { IfOk result (λ disks. (which : OneOf) → IsQuiet (history_of (disk_at which disks))) }
{
    let Disks {
        root,
        first,
        second,
        spool,
    } = disks;
    Ok(Disks {
        root: root.crash(tear)?,
        first: first.crash(tear)?,
        second: second.crash(tear)?,
        spool: spool.crash(tear)?,
    })
}

fn told(alloc: Global, disks: Disks<MemDisk>, tear: Tear) -> Told {
    let Ok(mut disks) = torn(disks, tear) else {
        return None;
    };
    match read_only(alloc, &mut disks) {
        Ok(state) => {
            let runs = match state.rows.get(&REQUEST) {
                Some(row) => row.state == RowState::Running,
                None => false,
            };
            Some((state.rows.len(), runs))
        }
        Err(_) => None,
    }
}

// An event is taken while a disk fails, and then a tick.
fn cut(alloc: Global, node: Node<MemDisk>, event: &mut Event, which: Which, tear: Tear) -> Cut
    requires sound { IsSoundHost (content_of node) }
    requires sane { IsTrue (is_sane_event (length (content_of node).site) event.old) }
{
    let mut node = node;
    let mut out = Vec::new(alloc);
    let failed = match node.take(alloc, event, &mut out) {
        Err(StoreFault::Disk(at)) => at == which,
        _ => false,
    };
    let stopped = node.is_stopped();
    let mut tick = Event::Tick { now: 100 };
    let again = match node.take(alloc, &mut tick, &mut out) {
        Err(StoreFault::Stopped) => true,
        _ => false,
    };
    let silent = out.is_empty();
    (
        [failed, silent, stopped, again],
        told(alloc, node.close(), tear),
    )
}

fn empty_submission(alloc: Global) -> Command
    ensures { IsTrue (is_sane_command result) }
{
    let job = Job {
        name: batch(),
        owner: root(),
        priority: 31,
        earliest: 0,
        rerun: true,
        limits: Limits {
            cpu: None,
            memory: None,
        },
        forms: None,
        out: Bytes::new(alloc),
        err: Bytes::new(alloc),
        join: false,
    };
    Command::Submit(Submission {
        queue: None,
        folder: None,
        job,
        script: Bytes::new(alloc),
    })
}

fn asked(command: Command) -> Event
    requires { IsTrue (is_sane_command command) }
    ensures { (hosts : ℕ) → IsTrue (is_sane_event hosts result) }
{
    Event::Ask {
        now: 100,
        port: 7,
        token: 1,
        user: root(),
        command,
    }
}

fn ended(alloc: Global) -> Event
    ensures { (hosts : ℕ) → IsTrue (is_sane_event hosts result) }
{
    Event::Ended {
        now: 100,
        port: 7,
        id: REQUEST,
        start: 2,
        status: 0,
        out: Bytes::new(alloc),
        err: Bytes::new(alloc),
    }
}

// A submission, with a script or an empty one.
fn submission_of(
    alloc: Global,
    node: Node<MemDisk>,
    is_empty: bool,
    which: Which,
    tear: Tear,
) -> Option<Cut>
    requires { IsSoundHost (content_of node) }
{
    if is_empty {
        let mut event = asked(empty_submission(alloc));
        return Some(cut(alloc, node, &mut event, which, tear));
    }
    match submission(alloc) {
        Ok(command) => Some(cut(alloc, node, &mut asked(command), which, tear)),
        Err(_) => {
            let _ = node.close();
            None
        }
    }
}

// A host that is booted takes a submission. Calls are counted from before the boot.
fn submission_cut(
    alloc: Global,
    is_empty: bool,
    which: Which,
    alone: bool,
    call: u64,
    tear: Tear,
) -> Option<Cut> {
    let Ok(mut disks) = formatted(alloc) else {
        return None;
    };
    set(&mut disks, which, alone, call);
    let mut out = Vec::new(alloc);
    match Node::boot(alloc, disks, &mut out) {
        Ok(node) => submission_of(alloc, node, is_empty, which, tear),
        Err(_) => None,
    }
}

// As it is told where that call fails alone, and where each later one does too.
fn submissions(
    alloc: Global,
    is_empty: bool,
    which: Which,
    call: u64,
    tear: Tear,
) -> [Option<Cut>; 2] {
    [
        submission_cut(alloc, is_empty, which, true, call, tear),
        submission_cut(alloc, is_empty, which, false, call, tear),
    ]
}

// A host of one request, which runs.
fn started(
    alloc: Global,
    node: Node<MemDisk>,
    out: &mut Vec<Output>,
) -> Result<Disks<MemDisk>, Lack>
    requires { IsSoundHost (content_of node) }
    ensures { IfOk result (λ disks. (which : OneOf) → IsQuiet (history_of (disk_at which disks))) }
{
    let mut node = node;
    let _ = submit(alloc, &mut node, out);
    let _ = start_queue(alloc, &mut node, out);
    let _ = node.start_next(alloc, 100, out);
    torn(node.close(), Tear::Old)
}

fn running(alloc: Global) -> Option<Disks<MemDisk>>
    ensures { IfSome result (λ disks. (which : OneOf) → IsQuiet (history_of (disk_at which disks))) }
{
    let Ok(disks) = formatted(alloc) else {
        return None;
    };
    let mut out = Vec::new(alloc);
    match Node::boot(alloc, disks, &mut out) {
        Ok(node) => match started(alloc, node, &mut out) {
            Ok(disks) => Some(disks),
            Err(_) => None,
        },
        Err(_) => None,
    }
}

// The boot finds it running, and it starts again.
fn end_of(alloc: Global, node: Node<MemDisk>, tear: Tear) -> Cut
    requires { IsSoundHost (content_of node) }
{
    let mut node = node;
    let mut out = Vec::new(alloc);
    let _ = node.start_next(alloc, 100, &mut out);
    cut(alloc, node, &mut ended(alloc), Which::First, tear)
}

// The boot makes four calls, and so does the start.
fn end_cut(alloc: Global, alone: bool, call: u64, tear: Tear) -> Option<Cut>
    requires { call ≤ 4 }
{
    let Some(mut disks) = running(alloc) else {
        return None;
    };
    set(&mut disks, Which::First, alone, 8 + call);
    let mut out = Vec::new(alloc);
    match Node::boot(alloc, disks, &mut out) {
        Ok(node) => Some(end_of(alloc, node, tear)),
        Err(_) => None,
    }
}

fn boot_cut(alloc: Global, alone: bool, call: u64, tear: Tear) -> Told {
    let Some(mut disks) = running(alloc) else {
        return None;
    };
    set(&mut disks, Which::First, alone, call);
    let mut out = Vec::new(alloc);
    match Node::boot(alloc, disks, &mut out) {
        Err((LoadFault::Disk(Which::First), disks)) => told(alloc, disks, tear),
        _ => None,
    }
}

fn checkpoint_of(
    alloc: Global,
    store: Store<MemDisk>,
    state: &HostState,
    which: Which,
    tear: Tear,
) -> Told
    requires { IsSoundHost (content state.now) }
{
    let mut store = store;
    let failed = match store.checkpoint(alloc, state) {
        Err(StoreFault::Disk(at)) => at == which,
        _ => false,
    };
    if failed && store.is_stopped() {
        told(alloc, store.close(), tear)
    } else {
        None
    }
}

fn checkpoint_cut(alloc: Global, which: Which, alone: bool, call: u64, tear: Tear) -> Told {
    let Some(mut disks) = running(alloc) else {
        return None;
    };
    set(&mut disks, which, alone, call);
    match Store::load(alloc, disks) {
        Ok((store, state)) => checkpoint_of(alloc, store, &state, which, tear),
        Err(_) => None,
    }
}

fn ends(alloc: Global, call: u64, tear: Tear) -> [Option<Cut>; 2]
    requires { call ≤ 4 }
{
    [
        end_cut(alloc, true, call, tear),
        end_cut(alloc, false, call, tear),
    ]
}

fn boots(alloc: Global, call: u64, tear: Tear) -> [Told; 2] {
    [
        boot_cut(alloc, true, call, tear),
        boot_cut(alloc, false, call, tear),
    ]
}

fn checkpoints(alloc: Global, which: Which, call: u64, tear: Tear) -> [Told; 2] {
    [
        checkpoint_cut(alloc, which, true, call, tear),
        checkpoint_cut(alloc, which, false, call, tear),
    ]
}

// The failed disk is named, nothing goes out, the node is stopped, and so many requests are told.
fn stops(requests: usize, runs: bool) -> [Option<Cut>; 2] {
    [Some(([true; 4], Some((requests, runs)))); 2]
}

// A boot's record takes four calls of `first`, and so does that of a submission without script.
#[test]
fn a_submission_without_script_is_cut(rt: HostRuntime) {
    let alloc = rt.alloc();
    let old = submissions(alloc, true, Which::First, 6, Tear::Old);
    assert_eq!(rt; old, stops(0, false));
    let new = submissions(alloc, true, Which::First, 8, Tear::New);
    assert_eq!(rt; new, stops(1, false));
}

#[test]
fn a_submission_is_cut(rt: HostRuntime) {
    for (tear, kept) in &KEPT {
        for call in 0..4 {
            let seen = submissions(rt.alloc(), false, Which::First, call as u64 + 5, *tear);
            let requests = if kept[call] { 1 } else { 0 };
            assert_eq!(rt; seen, stops(requests, false));
        }
    }
}

// The script is written and synced before its record.
#[test]
fn a_script_is_cut(rt: HostRuntime) {
    for (tear, _) in &KEPT {
        for call in 1..3 {
            let seen = submissions(rt.alloc(), false, Which::Spool, call, *tear);
            assert_eq!(rt; seen, stops(0, false));
        }
    }
}

#[test]
fn an_end_is_cut(rt: HostRuntime) {
    for (tear, kept) in &KEPT {
        for call in 0..4 {
            let seen = ends(rt.alloc(), call as u64 + 1, *tear);
            let requests = if kept[call] { 0 } else { 1 };
            assert_eq!(rt; seen, stops(requests, !kept[call]));
        }
    }
}

// A boot queues again what ran.
#[test]
fn a_boot_is_cut(rt: HostRuntime) {
    for (tear, kept) in &KEPT {
        for call in 0..4 {
            let seen = boots(rt.alloc(), call as u64 + 1, *tear);
            assert_eq!(rt; seen, [Some((1, !kept[call])); 2]);
        }
    }
}

// Whatever a checkpoint leaves tells the state before the change.
#[test]
fn a_checkpoint_is_cut(rt: HostRuntime) {
    for (tear, _) in &KEPT {
        for call in 1..3 {
            let second = checkpoints(rt.alloc(), Which::Second, call, *tear);
            assert_eq!(rt; second, [Some((1, true)); 2]);
            let root = checkpoints(rt.alloc(), Which::Root, call, *tear);
            assert_eq!(rt; root, [Some((1, true)); 2]);
        }
    }
}

// How many payloads a load finds after a stop.
fn loaded(alloc: Global, disk: MemDisk, tear: Tear) -> Option<usize> {
    let Ok(disk) = disk.crash(tear) else {
        return None;
    };
    let mut found = Vec::new(alloc);
    match Journal::load(alloc, disk, &mut found) {
        Ok(_) => Some(found.len()),
        Err(_) => None,
    }
}

// Whether an append is answered `Disk`, the next one `Stopped`, and a reading Ok; and what is found
// after a stop.
fn append_of(alloc: Global, journal: Journal<MemDisk>, tear: Tear) -> ([bool; 3], Option<usize>) {
    let mut journal = journal;
    let failed = journal.append(b"one") == Err(JournalFault::Disk);
    let stopped = journal.append(b"two") == Err(JournalFault::Stopped);
    let mut found = Vec::new(alloc);
    let reads = journal.reread(alloc, &mut found).is_ok();
    (
        [failed, stopped, reads],
        loaded(alloc, journal.close(), tear),
    )
}

// A call of an append to an empty journal fails alone.
fn append_cut(alloc: Global, call: u64, tear: Tear) -> Option<([bool; 3], Option<usize>)> {
    let mut disk = MemDisk::new(alloc);
    let Ok(()) = format(&mut disk) else {
        return None;
    };
    disk.fail_once(call);
    let mut found = Vec::new(alloc);
    match Journal::load(alloc, disk, &mut found) {
        Ok(journal) => Some(append_of(alloc, journal, tear)),
        Err(_) => None,
    }
}

// Reads go on behind a call that failed alone.
#[test]
fn an_append_is_cut(rt: HostRuntime) {
    for (tear, kept) in &KEPT {
        for call in 0..4 {
            let seen = append_cut(rt.alloc(), call as u64 + 1, *tear);
            let payloads = if kept[call] { 1 } else { 0 };
            assert_eq!(rt; seen, Some(([true; 3], Some(payloads))));
        }
    }
}

// Which of five syncs are done, and whether a length is told behind them.
fn syncs(disk: &mut MemDisk) -> [bool; 6] {
    [
        disk.sync().is_ok(),
        disk.sync().is_ok(),
        disk.sync().is_ok(),
        disk.sync().is_ok(),
        disk.sync().is_ok(),
        disk.len().is_ok(),
    ]
}

#[test]
fn later_calls_go_on(rt: HostRuntime) {
    let mut disk = MemDisk::new(rt.alloc());
    disk.fail_once(0);
    let first = syncs(&mut disk);
    disk.fail_once(2);
    let second = syncs(&mut disk);
    disk.fail_once(2);
    disk.fail_once(4);
    let replaced = syncs(&mut disk);
    disk.fail_once(2);
    disk.fuse(6);
    let fused = syncs(&mut disk);
    assert_eq!(rt;
        [first, second, replaced, fused],
        [
            [false, true, true, true, true, true],
            [true, false, true, true, true, true],
            [true, true, true, false, true, true],
            [true; 6],
        ]
    );
}

#[test]
fn a_fuse_stays(rt: HostRuntime) {
    let mut disk = MemDisk::new(rt.alloc());
    disk.fuse(4);
    disk.fail_once(2);
    assert_eq!(rt; syncs(&mut disk), [true, false, true, false, false, false]);
}
