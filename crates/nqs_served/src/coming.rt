//! What an event of a schedule is to the daemon of its one host.
//!
//! What is asked for and the ends of jobs come as datagrams, and a tick as a receive that brings
//! nothing. Other events come back of what went out: `finish`, which is the end of a print, `fail`,
//! `written` and `unwritten`.

use nqs_base::{Bytes, Items, Name};
use nqs_types::{RequestId, WorldEvent};

/// The words of an ask.
#[derive(Clone, Copy)]
pub(crate) enum Words<'a> {
    /// A line of qmgr, which is its one word.
    Line(&'a Bytes),
    List(&'a Items<Bytes>),
}

/// What a user asks the host for, by the number of a tool.
#[derive(Clone, Copy)]
pub(crate) struct Ask<'a> {
    pub user: &'a Name,
    pub tool: u8,
    pub words: Words<'a>,
    pub script: &'a [u8],
}

/// What a shepherd tells the host of the end of a job.
#[derive(Clone, Copy)]
pub(crate) struct Ended<'a> {
    pub id: RequestId,
    pub start: u16,
    pub status: u8,
    pub out: &'a [u8],
    pub err: &'a [u8],
}

/// What an event is to the daemon.
#[derive(Clone, Copy)]
pub(crate) enum Coming<'a> {
    Ask(Ask<'a>),
    Ended(Ended<'a>),
    /// A receive brings nothing.
    Quiet,
    /// It comes back of what went out.
    Back,
    /// It is this moment.
    Moment(u64),
    /// It is none.
    Nothing,
}

fn asked<'a>(user: &'a Name, tool: u8, words: Words<'a>, script: &'a [u8]) -> Coming<'a> {
    Coming::Ask(Ask {
        user,
        tool,
        words,
        script,
    })
}

// What an event is that comes of no user.
fn other_of(event: &WorldEvent) -> Coming<'_> {
    match event {
        WorldEvent::End {
            host: _,
            id,
            start,
            status,
            out,
            err,
        } => Coming::Ended(Ended {
            id: *id,
            start: *start,
            status: *status,
            out: out.as_slice(),
            err: err.as_slice(),
        }),
        WorldEvent::Tick { .. } => Coming::Quiet,
        WorldEvent::Finish { .. } => Coming::Back,
        WorldEvent::Fail { .. } => Coming::Back,
        WorldEvent::Written { .. } => Coming::Back,
        WorldEvent::Unwritten { .. } => Coming::Back,
        WorldEvent::Clock { moment } => Coming::Moment(*moment),
        _ => Coming::Nothing,
    }
}

/// What an event is.
pub(crate) fn coming_of(event: &WorldEvent) -> Coming<'_> {
    match event {
        WorldEvent::Qsub {
            host: _,
            user,
            script,
            words,
        } => asked(user, 1, Words::List(words), script.as_slice()),
        WorldEvent::Qstat {
            host: _,
            user,
            words,
        } => asked(user, 2, Words::List(words), b""),
        WorldEvent::Qdel {
            host: _,
            user,
            words,
        } => asked(user, 3, Words::List(words), b""),
        WorldEvent::Qmgr {
            host: _,
            user,
            text,
        } => asked(user, 4, Words::Line(text), b""),
        event => other_of(event),
    }
}
