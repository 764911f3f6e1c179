//! What comes to a host, and what it does then.

ghost use Rattle.std.specs.Prelude.{◌≡◌};

use crate::change::Change;
use crate::edit::Edit;
use crate::fault::{GrammarFault, WordsFault};
use crate::ids::{Named, RequestId};
use crate::message::Message;
use crate::refusal::Refusal;
use crate::request::{Job, Limits};
use nqs_base::{Bytes, Extent, Items, ListOf, Name, NameList};

/// A request to be made. Without a queue it goes to the host's default queue.
#[derive(Drop)]
pub struct Submission {
    pub queue: Option<Name>,
    /// The folder of the default paths of outputs; paths that are stated have it already.
    pub folder: Option<Name>,
    /// An empty path of an output stands for the default one.
    pub job: Job,
    pub script: Bytes,
}

/// What a host is asked for.
#[derive(Drop)]
pub enum Command {
    Submit(Submission),
    Edit(Edit),
    /// The requests of these queues, or of all where there are none, and of this user where one is
    /// given.
    Stat {
        user: Option<Name>,
        queues: NameList,
    },
    Delete {
        id: Named,
        kill: bool,
    },
    /// A list of qmgr, by the code of its line, from 48 to 52.
    Show(u8),
    /// Why a request doesn't run.
    Why(Named),
    Shutdown,
    Tick,
    UnreadLine(GrammarFault),
    UnreadWords(WordsFault),
}

/// What comes to a host. `now` is the moment, in seconds since 1970; a port of 0 is none.
#[derive(Drop)]
pub enum Event {
    Ask {
        now: u64,
        port: u16,
        token: u64,
        user: Name,
        command: Command,
    },
    Arrived {
        now: u64,
        message: Message,
    },
    Ended {
        now: u64,
        port: u16,
        id: RequestId,
        start: u16,
        status: u8,
        out: Bytes,
        err: Bytes,
    },
    Unlaunched {
        now: u64,
        id: RequestId,
        start: u16,
    },
    Written {
        now: u64,
        file: u64,
    },
    Unwritten {
        now: u64,
        file: u64,
    },
    Tick {
        now: u64,
    },
}

/// The answer to a command.
#[derive(Drop)]
pub enum Reply {
    Submitted { id: RequestId, queue: Name },
    Deleted(RequestId),
    /// A running request was told to end.
    Signalled(RequestId),
    Done,
    Refused(Refusal),
    Lines(Items<Bytes>),
    UnreadLine(GrammarFault),
    UnreadWords(WordsFault),
}

/// What a launcher or a printer is told of a job. The limits are the request's, and where it states
/// none the queue's.
#[derive(Clone, Copy, Debug, PartialEq, Eq)]
pub struct LaunchOrder {
    pub id: RequestId,
    pub start: u16,
    pub name: Name,
    pub owner: Name,
    pub queue: Name,
    pub limits: Limits,
}

/// What a host does beside changing its state.
#[derive(Drop)]
pub enum Output {
    Reply {
        port: u16,
        token: u64,
        reply: Reply,
    },
    Send(Message),
    Launch {
        order: LaunchOrder,
        script: Bytes,
    },
    Print {
        device: Name,
        order: LaunchOrder,
        script: Bytes,
    },
    Kill {
        id: RequestId,
        start: u16,
    },
    File {
        file: u64,
        path: Bytes,
        bytes: Bytes,
    },
    Ended {
        id: RequestId,
        start: u16,
        status: u8,
    },
    Unlaunched {
        id: RequestId,
        start: u16,
    },
    Again(RequestId),
    Lost(RequestId),
    Ack {
        port: u16,
        id: RequestId,
        start: u16,
    },
}

/// An output of a plan, by its place among them, whose bytes are those of this extent.
#[derive(Clone, Copy, Debug, PartialEq, Eq)]
pub struct PlanRead {
    pub output: usize,
    pub extent: Extent,
}

/// What one step is to do: at most one change, whose extents aren't chosen yet, the lists of bytes
/// to be stored for them in order, what goes out, the outputs whose bytes are still to be read from
/// the spool, and whether the host halts.
pub struct Plan {
    pub change: Option<Change>,
    pub puts: Items<Bytes>,
    pub outputs: Items<Output>,
    pub reads: ListOf<PlanRead>,
    /// Whether the host stops when all that may start has started.
    pub halts: bool,
}

// Written out, so that a plan is let go by a call, and not change by change in each function that
// owns one.
impl Drop for Plan {
    fn drop(self) {
        let Plan {
            change: _,
            puts: _,
            outputs: _,
            reads: _,
            halts: _,
        } = self;
    }
}

impl Plan {
    /// Takes the plan apart: the change, the bytes to be stored, what goes out, and what is to be
    /// read. Whether the host halts is asked before.
    pub fn into_parts(
        self,
    ) -> (
        Option<Change>,
        Items<Bytes>,
        Items<Output>,
        ListOf<PlanRead>,
    )
        ensures { result ≡ (self.change, self.puts, self.outputs, self.reads) }
    {
        let Plan {
            change,
            puts,
            outputs,
            reads,
            halts: _,
        } = self;
        (change, puts, outputs, reads)
    }
}
