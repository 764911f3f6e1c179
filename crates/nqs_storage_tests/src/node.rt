//! A host in memory: formatted, booted, and asked for a job that it starts.

ghost use Rattle.std.specs.Prelude.{◌≡◌, [], IfOk, IsTrue};
ghost use Rattle.nqs_types.specs.declared.world.Which.{Which};
ghost use Rattle.nqs_outside.specs.History.{IsQuiet};
ghost use Rattle.nqs_disk.specs.MemDisk.{history_of as history_of_disk};
ghost use Rattle.nqs_rules.specs.Sane.{is_sane_command};
ghost use Rattle.nqs_store.specs.Disks.{disk_at};
ghost use Rattle.nqs_store.specs.Sound.{IsSoundHost};
ghost use Rattle.nqs_node.specs.Nodes.{content_of};

use nqs_base::{Bytes, Memory};
use nqs_disk::MemDisk;
use nqs_node::Node;
use nqs_store::{Disks, StoreFault, format};
use nqs_types::{
    Command, ConfEdit, Edit, Event, HostId, Job, Limits, Output, Submission, batch, root,
};
use std::alloc::Global;
use std::rt::HostRuntime;

const SCRIPT: &[u8] = b"echo done\n";

// Whether the submission and the start of its queue are taken, whether each of the three looks
// started something, how many requests there are then, and whether the node is stopped.
type Seen = ([bool; 2], [Option<bool>; 3], usize, bool);

pub(crate) fn empty_disks(alloc: Global) -> Disks<MemDisk>
    ensures { (which : Which) → history_of_disk (disk_at which result) ≡ record { start = []; calls = [] } }
{
    Disks {
        root: MemDisk::new(alloc),
        first: MemDisk::new(alloc),
        second: MemDisk::new(alloc),
        spool: MemDisk::new(alloc),
    }
}

// The disks of the one host of a site.
pub(crate) fn formatted(alloc: Global) -> Result<Disks<MemDisk>, StoreFault>
    ensures { IfOk result (λ disks. (which : Which) → IsQuiet (history_of_disk (disk_at which disks))) }
{
    let mut disks = empty_disks(alloc);
    match format(alloc, &mut disks, HostId(0), &[batch()]) {
        Ok(()) => Ok(disks),
        Err(fault) => Err(fault),
    }
}

pub(crate) fn submission(alloc: Global) -> Result<Command, Memory>
    ensures { IfOk result (λ command. IsTrue (is_sane_command command)) }
{
    let mut script = Vec::new(alloc);
    script.extend_from_slice(SCRIPT)?;
    let job = Job {
        name: batch(),
        owner: root(),
        priority: 31,
        earliest: 0,
        rerun: true,
        limits: Limits {
            cpu: None,
            memory: None,
        },
        forms: None,
        out: Bytes::new(alloc),
        err: Bytes::new(alloc),
        join: false,
    };
    Ok(Command::Submit(Submission {
        queue: None,
        folder: None,
        job,
        script: Bytes::from_vec(script),
    }))
}

fn ask(alloc: Global, node: &mut Node<MemDisk>, command: Command, out: &mut Vec<Output>) -> bool
    requires sound { IsSoundHost (content_of node.old) }
    requires sane { IsTrue (is_sane_command command) }
    ensures { IsSoundHost (content_of node.new) }
{
    let mut event = Event::Ask {
        now: 100,
        port: 7,
        token: 1,
        user: root(),
        command,
    };
    node.take(alloc, &mut event, out).is_ok()
}

pub(crate) fn submit(alloc: Global, node: &mut Node<MemDisk>, out: &mut Vec<Output>) -> bool
    requires { IsSoundHost (content_of node.old) }
    ensures { IsSoundHost (content_of node.new) }
{
    match submission(alloc) {
        Ok(command) => ask(alloc, node, command, out),
        Err(_) => false,
    }
}

pub(crate) fn start_queue(alloc: Global, node: &mut Node<MemDisk>, out: &mut Vec<Output>) -> bool
    requires { IsSoundHost (content_of node.old) }
    ensures { IsSoundHost (content_of node.new) }
{
    let start = ConfEdit::StartQueue { queue: batch() };
    ask(alloc, node, Command::Edit(Edit::Conf(start)), out)
}

// A job is submitted while its queue isn't started, and is started with the queue.
fn play(alloc: Global, node: &mut Node<MemDisk>, out: &mut Vec<Output>) -> Seen
    requires { IsSoundHost (content_of node.old) }
{
    let submitted = submit(alloc, node, out);
    let before = node.start_next(alloc, 100, out).ok();
    let again = node.start_next(alloc, 100, out).ok();
    let edited = start_queue(alloc, node, out);
    let after = node.start_next(alloc, 100, out).ok();
    let rows = node.state().rows.len();
    (
        [submitted, edited],
        [before, again, after],
        rows,
        node.is_stopped(),
    )
}

// The disks are let go, not the node.
fn played(alloc: Global, node: Node<MemDisk>, out: &mut Vec<Output>) -> Seen
    requires { IsSoundHost (content_of node) }
{
    let mut node = node;
    let seen = play(alloc, &mut node, out);
    let _ = node.close();
    seen
}

fn booted(alloc: Global, disks: Disks<MemDisk>, out: &mut Vec<Output>) -> Option<Seen>
    requires { (which : Which) → IsQuiet (history_of_disk (disk_at which disks)) }
{
    match Node::boot(alloc, disks, out) {
        Ok(node) => Some(played(alloc, node, out)),
        Err(_) => None,
    }
}

fn formatted_and_booted(alloc: Global, out: &mut Vec<Output>) -> Option<Seen> {
    match formatted(alloc) {
        Ok(disks) => booted(alloc, disks, out),
        Err(_) => None,
    }
}

fn is_launch(output: &Output) -> bool {
    match output {
        Output::Launch { script, .. } => script.as_slice() == SCRIPT,
        _ => false,
    }
}

// What is seen, how many outputs there are, and whether the last one launches the job.
fn seen(alloc: Global) -> (Option<Seen>, usize, bool) {
    let mut out = Vec::new(alloc);
    let seen = formatted_and_booted(alloc, &mut out);
    (seen, out.len(), out.last().is_some_and(is_launch))
}

#[test]
fn a_submitted_job_is_started(rt: HostRuntime) {
    let looks = [Some(false), Some(false), Some(true)];
    let wanted = Some(([true; 2], looks, 1, false));
    assert_eq!(rt; seen(rt.alloc()), (wanted, 3, true));
}
