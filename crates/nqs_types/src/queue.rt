//! Queues, complexes and devices of a host.

use crate::ids::Dest;
use crate::request::Limits;
use nqs_base::{ListOf, Name, NameList};

/// The destinations of a pipe queue, in the order in which they are tried.
pub type DestList = ListOf<Dest>;

/// What a queue feeds: jobs, devices, or other queues.
#[derive(Clone, Copy, Debug, PartialEq, Eq)]
pub enum Kind {
    Batch,
    Device,
    Pipe,
}

/// Who may use a queue: everybody, or the users of a list.
#[derive(Drop)]
pub enum Access {
    All,
    Users(NameList),
}

/// A queue of a host: which requests it accepts, and how many of them it starts.
pub struct QueueDef {
    pub name: Name,
    pub kind: Kind,
    /// Whether it accepts requests.
    pub enabled: bool,
    /// Whether it starts them.
    pub started: bool,
    /// Whether it takes requests from pipe queues only.
    pub pipe_only: bool,
    /// Among the queues of its host, from 0 to 63.
    pub priority: u8,
    /// How many of its requests may run or be on their way at once.
    pub run_limit: u16,
    /// How many of one owner.
    pub user_limit: Option<u16>,
    /// What a request may ask for at most.
    pub limits: Limits,
    pub access: Access,
    /// Of a pipe queue.
    pub dests: DestList,
    /// Of a device queue, in the order in which they are tried.
    pub devices: NameList,
}

// Written out, so that a queue is let go by a call, and not field by field in each function that
// owns one.
impl Drop for QueueDef {
    fn drop(self) {
        let QueueDef {
            name: _,
            kind: _,
            enabled: _,
            started: _,
            pipe_only: _,
            priority: _,
            run_limit: _,
            user_limit: _,
            limits: _,
            access: _,
            dests: _,
            devices: _,
        } = self;
    }
}

/// A set of batch queues with a run limit over all of them.
#[derive(Drop)]
pub struct ComplexDef {
    pub name: Name,
    pub limit: u16,
    pub queues: NameList,
}

/// A device of a host. It takes requests while it is enabled.
#[derive(Clone, Copy, Debug, PartialEq, Eq)]
pub struct DeviceDef {
    pub name: Name,
    /// The forms that it has now.
    pub forms: Name,
    pub enabled: bool,
}
