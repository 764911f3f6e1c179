//! The shepherd of a job: it runs the job and tells its host the end, until the host says that it
//! knows.

ghost use Rattle.std.specs.Prelude.{◌≡◌, ◌≤◌, ◌∷◌, [], take, length, true, IfOk};
ghost use Rattle.nqs_outside.specs.Asked.{end_of, outbound, packet};
ghost use Rattle.nqs_outside.specs.declared.wire.Address.TheVariants.{Host};
ghost use Rattle.nqs_rules.specs.Sane.{is_of_site, is_sane_id};
ghost use Rattle.nqs_records.specs.Values.{IsHost, IsId};
ghost use Rattle.nqs_packets.specs.Spelling.{spelling};
ghost use Rattle.nqs_packets.specs.Values.{IsShort, IsBody};
ghost use Rattle.nqs_clients.specs.Datagrams.{at_home, Receives, StopsFor};
ghost use Rattle.nqs_clients.specs.Shepherd.{ended, is_ack, acknowledges, stopped, EndsWith, Waits, Shepherds};

use crate::datagram::{Unread, WaitStop, receive_message, spelled};
use nqs_base::{Bytes, Memory, Name};
use nqs_outside::{Address, Failed, RunEnd, Runner, Wire};
use nqs_types::{Body, HostId, Message, RequestId};
use std::alloc::Global;

// The greatest length of an output that is told.
const LONGEST_OUTPUT: usize = 16_384;

// The status of a job that was not run.
const NOT_RUN: u8 = 127;

/// How a shepherd ends.
#[derive(Debug, PartialEq, Eq, Drop)]
pub enum ShepherdEnd {
    /// The last receive, one of at most ten, brought the acknowledgement.
    Told,
    /// Ten receives brought none.
    NoAnswer,
    /// A receive failed.
    WireFault,
    /// There was no memory to read what came last.
    Unread(Unread),
    /// There was no memory for the datagram, and nothing was sent or received.
    Memory(Memory),
}

fn cut(bytes: Bytes) -> Bytes
    ensures cut { result ≡ take 16384 bytes }
    ensures short { IsShort 16384 result }
{
    let mut bytes = bytes.into_vec();
    bytes.truncate(LONGEST_OUTPUT);
    Bytes::from_vec(bytes)
}

// What is told of a job that ended so.
fn ended(
    alloc: Global,
    port: u16,
    id: RequestId,
    start: u16,
    answer: Result<RunEnd, Failed>,
) -> Body
    requires { IsId id }
    ensures ended { result ≡ ended port id start (end_of answer) }
    ensures may { IsBody result }
{
    match answer {
        Ok(RunEnd { status, out, err }) => Body::Ended {
            port,
            id,
            start,
            status,
            out: cut(out),
            err: cut(err),
        },
        Err(_) => Body::Ended {
            port,
            id,
            start,
            status: NOT_RUN,
            out: Bytes::new(alloc),
            err: Bytes::new(alloc),
        },
    }
}

// The datagram that tells it.
fn spelled_end(
    alloc: Global,
    host: HostId,
    port: u16,
    id: RequestId,
    start: u16,
    answer: Result<RunEnd, Failed>,
) -> Result<Vec<u8>, Memory>
    requires host { IsHost host }
    requires id { IsId id }
    ensures { IfOk result (λ bytes. bytes.items ≡ spelling (at_home host (ended port id start (end_of answer)))) }
{
    let message = Message {
        from: host,
        to: host,
        body: ended(alloc, port, id, start, answer),
    };
    spelled(alloc, &message)
}

fn is_ack(host: HostId, id: RequestId, start: u16, message: &Option<Message>) -> bool
    ensures { result ≡ is_ack host id start message.now }
{
    let Some(message) = message else {
        return false;
    };
    if message.from != host || message.to != host {
        return false;
    }
    match &message.body {
        Body::EndedAck {
            id: other,
            start: at,
        } => *other == id && *at == start,
        _ => false,
    }
}

fn end_of(stop: WaitStop) -> ShepherdEnd
    ensures { result ≡ stopped stop }
{
    match stop {
        WaitStop::Fault => ShepherdEnd::WireFault,
        WaitStop::Unread(unread) => ShepherdEnd::Unread(unread),
        WaitStop::Memory(memory) => ShepherdEnd::Memory(memory),
    }
}

// Sends the datagram and makes a receive. A send that fails is a loss.
fn turn<W: Wire>(
    alloc: Global,
    host: HostId,
    id: RequestId,
    start: u16,
    told: &[u8],
    wire: &mut W,
) -> Result<bool, WaitStop>
    ensures traffic { Receives (outbound (packet (Host host) told.now) ∷ []) (acknowledges host id start) (W.traffic wire.old) (W.traffic wire.new) result }
    ensures cause { StopsFor (W.receive_faults wire.old) (W.receive_faults wire.new) result }
{
    let _ = wire.send(Address::Host(host), told);
    match receive_message(alloc, wire) {
        Ok(message) => Ok(is_ack(host, id, start, &message)),
        Err(stop) => Err(stop),
    }
}

fn tell<W: Wire>(
    alloc: Global,
    host: HostId,
    id: RequestId,
    start: u16,
    told: &[u8],
    wire: &mut W,
) -> ShepherdEnd
    ensures waits { Waits (acknowledges host id start) (packet (Host host) told.now) (W.traffic wire.old) (W.traffic wire.new) result }
    ensures cause { EndsWith (W.receive_faults wire.old) (W.receive_faults wire.new) result }
{
    for _turn in 0..10u32 {
        match turn(alloc, host, id, start, told, wire) {
            Ok(acknowledged) => {
                if acknowledged {
                    return ShepherdEnd::Told;
                }
            }
            Err(stop) => return end_of(stop),
        }
    }
    ShepherdEnd::NoAnswer
}

/// Runs the job once, and sends its end to its host before each of at most ten receives, until the
/// host acknowledges it. The answers of the host come to this port.
pub fn shepherd<R: Runner, W: Wire>(
    alloc: Global,
    site: &[Name],
    host: HostId,
    id: RequestId,
    start: u16,
    port: u16,
    runner: &mut R,
    wire: &mut W,
) -> ShepherdEnd
    requires few { length site.now ≤ 16 }
    requires host { is_of_site (length site.now) host ≡ true }
    requires id { is_sane_id id ≡ true }
    requires origin { is_of_site (length site.now) id.host ≡ true }
    ensures shepherds { Shepherds host port id start (R.runs runner.old) (R.runs runner.new) (W.traffic wire.old) (W.traffic wire.new) result }
    ensures cause { EndsWith (W.receive_faults wire.old) (W.receive_faults wire.new) result }
{
    let answer = runner.run(id, start);
    match spelled_end(alloc, host, port, id, start, answer) {
        Ok(told) => tell(alloc, host, id, start, &told, wire),
        Err(memory) => ShepherdEnd::Memory(memory),
    }
}
