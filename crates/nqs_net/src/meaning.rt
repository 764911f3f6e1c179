//! What comes to one host by an event of a schedule.

ghost use Rattle.std.specs.Prelude.{◌≡◌, IfOk};
ghost use Rattle.nqs_rules.specs.World.{Asks, Ends, World as Network};
ghost use Rattle.nqs_language_acts.specs.Acts.{act_of};
ghost use Rattle.nqs_net.specs.Deeds.{arrival, deed_of, plain_deed};

use crate::deed::Deed;
use crate::packets::{newest_between, packet_at};
use nqs_base::{Bytes, Memory, Name, copy_bytes};
use nqs_language_acts::{qdel_command, qmgr_command, qstat_command, qsub_command, submit_command};
use nqs_types::{Command, Event, HostId, Message, RequestId, WorldEvent};
use std::alloc::Global;

// A host is asked by a user.
fn ask(now: u64, host: HostId, user: &Name, command: Command) -> Option<(HostId, Deed)>
    ensures { (w : Network) → w.now ≡ now → result ≡ deed_of (Asks host user.now command) w }
{
    let event = Event::Ask {
        now,
        port: 0,
        token: 0,
        user: *user,
        command,
    };
    Some((host, Deed::Take(event)))
}

// What comes to one host by an event whose words need no reading.
fn plain_deed(event: &WorldEvent, now: u64) -> Option<(HostId, Deed)>
    ensures { result ≡ plain_deed (act_of event.now) now }
{
    match event {
        WorldEvent::Finish { host } => Some((*host, Deed::Finish)),
        WorldEvent::Fail { host, id, start } => {
            let (id, start) = (*id, *start);
            Some((*host, Deed::Take(Event::Unlaunched { now, id, start })))
        }
        WorldEvent::Written { host, file } => {
            Some((*host, Deed::Take(Event::Written { now, file: *file })))
        }
        WorldEvent::Unwritten { host, file } => {
            Some((*host, Deed::Take(Event::Unwritten { now, file: *file })))
        }
        WorldEvent::Tick { host } => Some((*host, Deed::Take(Event::Tick { now }))),
        WorldEvent::Crash { host } => Some((*host, Deed::Crash)),
        WorldEvent::Boot { host } => Some((*host, Deed::Boot)),
        _ => None,
    }
}

// A job of a host ends.
fn end(
    alloc: Global,
    now: u64,
    host: HostId,
    id: RequestId,
    start: u16,
    status: u8,
    out: &Bytes,
    err: &Bytes,
) -> Result<Option<(HostId, Deed)>, Memory>
    ensures { (w : Network) → w.now ≡ now → IfOk result (λ deed. deed ≡ deed_of (Ends host id start status out.now err.now) w) }
{
    let event = Event::Ended {
        now,
        port: 0,
        id,
        start,
        status,
        out: copy_bytes(out)?,
        err: copy_bytes(err)?,
    };
    Ok(Some((host, Deed::Take(event))))
}

// A packet, if there is one, comes to its host.
fn arrival(now: u64, message: Option<Message>) -> Option<(HostId, Deed)>
    ensures { result ≡ arrival message now }
{
    match message {
        Some(message) => Some((message.to, Deed::Take(Event::Arrived { now, message }))),
        None => None,
    }
}

/// What comes to one host by an event, if anything does, where these packets were sent so far.
pub(crate) fn deed(
    alloc: Global,
    event: &WorldEvent,
    now: u64,
    packets: &[Message],
) -> Result<Option<(HostId, Deed)>, Memory>
    ensures { (w : Network) → w.now ≡ now → packets.now ≡ w.packets → IfOk result (λ deed. deed ≡ deed_of (act_of event.now) w) }
{
    match event {
        WorldEvent::Submit { user, name } => {
            Ok(ask(now, HostId(0), user, submit_command(alloc, user, name)))
        }
        WorldEvent::Qsub {
            host,
            user,
            script,
            words,
        } => {
            let (words, script) = (words.as_slice(), script.as_slice());
            Ok(ask(now, *host, user, qsub_command(alloc, user, words, script)?))
        }
        WorldEvent::Qmgr { host, user, text } => {
            Ok(ask(now, *host, user, qmgr_command(text.as_slice())))
        }
        WorldEvent::Qstat { host, user, words } => {
            Ok(ask(now, *host, user, qstat_command(alloc, words.as_slice())?))
        }
        WorldEvent::Qdel { host, user, words } => {
            Ok(ask(now, *host, user, qdel_command(words.as_slice())))
        }
        WorldEvent::End {
            host,
            id,
            start,
            status,
            out,
            err,
        } => { end(alloc, now, *host, *id, *start, *status, out, err) }
        WorldEvent::Deliver { packet } => Ok(arrival(now, packet_at(packets, *packet)?)),
        WorldEvent::Newest { one, other } => {
            Ok(arrival(now, newest_between(packets, *one, *other)?))
        }
        _ => Ok(plain_deed(event, now)),
    }
}
