//! The event that a message is, and its moment.

ghost use Rattle.std.specs.Prelude.{◌≡◌, [], get_or, IfOk};
ghost use Rattle.nqs_serve.specs.Events.{command_of, are_of_site, event_of, at_moment};

use nqs_base::{Bytes, Memory, Name};
use nqs_language_acts::{qdel_command, qmgr_command, qstat_command, qsub_command_of};
use nqs_types::{Body, Command, Event, Message, RequestId, Tool};
use std::alloc::Global;

// The line of qmgr, which is its one word.
fn line_in(words: &[Bytes]) -> &[u8]
    ensures { result.now ≡ get_or words.now 0 [] }
{
    match words.split_first() {
        Some((line, _)) => line.as_slice(),
        None => b"",
    }
}

// What is asked for by a tool's words. A submission keeps the script.
fn command_of(
    alloc: Global,
    user: &Name,
    tool: Tool,
    words: &[Bytes],
    script: Bytes,
) -> Result<Command, Memory>
    ensures { IfOk result (λ command. command ≡ command_of user.now tool words.now script) }
{
    match tool {
        Tool::Qsub => qsub_command_of(alloc, user, words, script),
        Tool::Qstat => qstat_command(alloc, words),
        Tool::Qdel => Ok(qdel_command(words)),
        Tool::Qmgr => Ok(qmgr_command(line_in(words))),
        Tool::Tick => Ok(Command::Tick),
    }
}

/// The hosts of its requests are of the site.
pub(crate) fn are_of_site(hosts: usize, body: &Body) -> bool
    ensures { result ≡ are_of_site hosts body.now }
{
    match body {
        Body::Offer { carried, .. } => usize::from(carried.id.host.0) < hosts,
        Body::Ended { id, .. } => usize::from(id.host.0) < hosts,
        Body::EndedAck { id, .. } => usize::from(id.host.0) < hosts,
        _ => true,
    }
}

// What a user asks for, with the moment 0.
fn asked(port: u16, token: u64, user: Name, command: Command) -> Event
    ensures { result ≡ Event.Ask 0 port token user command }
{
    Event::Ask {
        now: 0,
        port,
        token,
        user,
        command,
    }
}

// What a shepherd tells of the end of a job, with the moment 0.
fn ended(port: u16, job: (RequestId, u16), status: u8, out: Bytes, err: Bytes) -> Event
    ensures { result ≡ Event.Ended 0 port job.0 job.1 status out err }
{
    let (id, start) = job;
    Event::Ended {
        now: 0,
        port,
        id,
        start,
        status,
        out,
        err,
    }
}

/// The event of a message, with the moment 0, if it is one.
pub(crate) fn event_of(alloc: Global, message: Message) -> Result<Option<Event>, Memory>
    ensures { IfOk result (λ event. event ≡ event_of message) }
{
    let Message { from, to, body } = message;
    match body {
        Body::Ask {
            port,
            token,
            user,
            tool,
            words,
            script,
        } => {
            let words = words.as_slice();
            let command = command_of(alloc, &user, tool, words, script)?;
            Ok(Some(asked(port, token, user, command)))
        }
        Body::Ended {
            port,
            id,
            start,
            status,
            out,
            err,
        } => Ok(Some(ended(port, (id, start), status, out, err))),
        Body::Answer { .. } => Ok(None),
        Body::EndedAck { .. } => Ok(None),
        Body::Piece { .. } => Ok(None),
        body => Ok(Some(Event::Arrived {
            now: 0,
            message: Message { from, to, body },
        })),
    }
}

/// Sets the moment of an event.
pub(crate) fn set_moment(event: &mut Event, moment: u64)
    ensures { event.new ≡ at_moment moment event.old }
{
    match event {
        Event::Ask { now, .. } => *now = moment,
        Event::Arrived { now, .. } => *now = moment,
        Event::Ended { now, .. } => *now = moment,
        Event::Unlaunched { now, .. } => *now = moment,
        Event::Written { now, .. } => *now = moment,
        Event::Unwritten { now, .. } => *now = moment,
        Event::Tick { now } => *now = moment,
    }
}
