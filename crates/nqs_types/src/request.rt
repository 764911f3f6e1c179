//! Requests: what a job is, and where a request stands in its host.
ghost use Rattle.std.specs.Prelude.{◌≡◌};

use crate::ids::{Dest, HostId, RequestId};
use nqs_base::{Bytes, Extent, ListOf, Name};
use std::alloc::AllocError;

/// What a request or a queue limits: seconds of processor time, and bytes of memory.
#[derive(Clone, Copy, Debug, PartialEq, Eq)]
pub struct Limits {
    pub cpu: Option<u64>,
    pub memory: Option<u64>,
}

/// A destination that refused a request, and the number of the refusal.
#[derive(Clone, Copy, Debug, PartialEq, Eq)]
pub struct Refused {
    pub dest: Dest,
    pub cause: u8,
}

/// The destinations that refused a request, in order of refusal.
pub type RefusedList = ListOf<Refused>;

/// Who holds a request back: nobody, a command, or the system since no destination takes it.
#[derive(Clone, Copy, Debug, PartialEq, Eq)]
pub enum Hold {
    No,
    User,
    System,
}

/// What a request is doing in its queue.
#[derive(Clone, Copy, Debug, PartialEq, Eq)]
pub enum RowState {
    Queued,
    /// On its way to another host, which hasn't taken it yet.
    Routing,
    Running,
}

/// What is asked for by a submission, beside the script.
pub struct Job {
    pub name: Name,
    pub owner: Name,
    /// The forms that its device must have.
    pub forms: Option<Name>,
    /// From 0 to 63; the greater starts first.
    pub priority: u8,
    /// Whether it may be started again after a stop of its host.
    pub rerun: bool,
    /// Whether the error output goes into the output.
    pub join: bool,
    /// The earliest start, in seconds since 1970.
    pub earliest: u64,
    pub limits: Limits,
    /// The path of its output.
    pub out: Bytes,
    /// The path of its error output.
    pub err: Bytes,
}

// Written out, so that a job is let go by a call, and not field by field in each function that owns
// one.
impl Drop for Job {
    fn drop(self) {
        let Job {
            name: _,
            owner: _,
            priority: _,
            earliest: _,
            rerun: _,
            limits: _,
            forms: _,
            out: _,
            err: _,
            join: _,
        } = self;
    }
}

impl Clone for Job {
    ghost is_clone = { λ a b. b ≡ a };

    fn clone(&self) -> Result<Self, AllocError> {
        let out = self.out.clone()?;
        let err = self.err.clone()?;
        Ok(Job {
            name: self.name,
            owner: self.owner,
            priority: self.priority,
            earliest: self.earliest,
            rerun: self.rerun,
            limits: self.limits,
            forms: self.forms,
            out,
            err,
            join: self.join,
        })
    }
}

/// A request in its host. `E` stands for the script: its extent of the spool, or the bytes.
pub struct Row<E: Copy + Drop = Extent> {
    pub id: RequestId,
    pub job: Job,
    pub queue: Name,
    pub state: RowState,
    pub hold: Hold,
    /// Rises with each arrival in a queue of the host.
    pub arrival: u64,
    /// Whether its job was told to end.
    pub doomed: bool,
    /// How often it was started.
    pub starts: u16,
    /// How often it was running when its host stopped.
    pub lost: u16,
    /// How often a pipe queue has moved it.
    pub hops: u8,
    /// The device that it runs on.
    pub device: Option<Name>,
    pub refused: RefusedList,
    pub script: E,
}

impl<E: Copy + Drop> Row<E> {
    ghost use Rattle.nqs_types.specs.RowStates.{is_ready};

    /// Whether it is queued and not held.
    pub fn is_ready(&self) -> bool
        ensures { result ≡ is_ready self.now }
    {
        self.state == RowState::Queued && self.hold == Hold::No
    }
}

// Written out, so that a request is let go by a call, and not field by field in each function that
// owns one.
impl<E: Copy + Drop> Drop for Row<E> {
    fn drop(self) {
        let Row {
            id: _,
            job: _,
            queue: _,
            state: _,
            hold: _,
            arrival: _,
            doomed: _,
            starts: _,
            lost: _,
            hops: _,
            device: _,
            refused: _,
            script: _,
        } = self;
    }
}

/// What of a request goes to another host, beside its script.
#[derive(Drop)]
pub struct Carried {
    pub id: RequestId,
    pub job: Job,
    pub starts: u16,
    pub lost: u16,
    pub hops: u8,
}

impl Clone for Carried {
    ghost is_clone = { λ a b. b ≡ a };

    fn clone(&self) -> Result<Self, AllocError> {
        let job = self.job.clone()?;
        Ok(Carried {
            id: self.id,
            job,
            starts: self.starts,
            lost: self.lost,
            hops: self.hops,
        })
    }
}

/// A request that another host has offered and that this one has said it will take.
#[derive(Drop)]
pub struct Promise<E: Copy + Drop = Extent> {
    pub peer: HostId,
    pub number: u64,
    pub row: Row<E>,
}

/// Whose the request of a handover is.
#[derive(Clone, Copy, Debug, PartialEq, Eq)]
pub enum Phase {
    /// Offered: the request is still this host's.
    Offered,
    /// Committed: the request is the other host's.
    Committed,
}

/// A handover of a request to another host.
#[derive(Clone, Copy, Debug, PartialEq, Eq)]
pub struct Hand {
    pub peer: HostId,
    pub number: u64,
    pub id: RequestId,
    /// The destination queue.
    pub queue: Name,
    /// When it was opened, in seconds since 1970.
    pub since: u64,
    pub phase: Phase,
}

/// Numbers of handovers, ascending.
pub type NumberList = ListOf<u64>;

/// What a host knows of its dealings with another one.
#[derive(Debug, PartialEq, Eq, Drop)]
pub struct Peer {
    /// The number of the next handover to it, at first 1.
    pub next: u64,
    /// Each handover from it with a number up to this one is closed, at first 0.
    pub floor: u64,
    /// The closed handovers from it with a greater number, ascending.
    pub closed: NumberList,
    /// Until when no handover to it is opened, in seconds since 1970.
    pub wait: u64,
    /// The number of the next stage to it.
    pub stage_next: u64,
    /// The number of the last stage that was taken from it.
    pub stage_got: u64,
}

/// An output on its way to the host where its request was submitted.
#[derive(Drop)]
pub struct Stage<E: Copy + Drop = Extent> {
    pub peer: HostId,
    pub number: u64,
    pub path: Bytes,
    pub bytes: E,
}

/// An output that is to be written into a file of this host.
#[derive(Drop)]
pub struct FileOut<E: Copy + Drop = Extent> {
    pub number: u64,
    pub path: Bytes,
    pub bytes: E,
}
