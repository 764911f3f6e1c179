//! Messages that come and go as datagrams.

ghost use Rattle.std.specs.Prelude.{◌≡◌, [], length, IfOk};
ghost use Rattle.nqs_outside.specs.Asked.{arrival, IsWithin};
ghost use Rattle.nqs_packets.specs.Reading.{message_of};
ghost use Rattle.nqs_packets.specs.Spelling.{spelling};
ghost use Rattle.nqs_packets.specs.Values.{MaySend};
ghost use Rattle.nqs_clients.specs.Datagrams.{read_of, message_in, Receives, StopsFor};

use nqs_base::Memory;
use nqs_outside::{Received, Wire};
use nqs_packets::{PacketFault, read_message, write_message};
use nqs_types::Message;
use std::alloc::Global;

/// The greatest length of a datagram with its tag, and one byte more, so that a longer one is none.
const ROOM: usize = 49_185;

/// There was no memory to read a datagram. Only the reader makes one, so that what was read is
/// never given up for want of memory.
#[derive(Debug, PartialEq, Eq, Drop)]
pub struct Unread {
    memory: Memory,
}

/// Why a wait ended before its time.
#[derive(Drop)]
pub enum WaitStop {
    /// The wire failed.
    Fault,
    /// There was no memory to read what came last.
    Unread(Unread),
    /// There was no memory for what was to be sent, and nothing was sent or received.
    Memory(Memory),
}

// The bytes as a message. Bytes that are none are passed over.
fn read_datagram(alloc: Global, bytes: &[u8]) -> Result<Option<Message>, Unread>
    ensures { IfOk result (λ message. message ≡ read_of (message_of bytes.now)) }
{
    match read_message(alloc, bytes) {
        Ok(message) => Ok(Some(message)),
        Err(PacketFault::Memory(memory)) => Err(Unread { memory }),
        Err(_) => Ok(None),
    }
}

// The message that came into the buffer.
fn message_in(alloc: Global, received: Received, buf: &[u8]) -> Result<Option<Message>, Unread>
    requires { IsWithin received (length buf.now) }
    ensures { IfOk result (λ message. message ≡ message_in (arrival received buf.now)) }
{
    match received {
        Received::Datagram(count) => read_datagram(alloc, &buf[..count]),
        Received::Quiet => Ok(None),
    }
}

/// Makes one receive. What comes may be no message.
pub(crate) fn receive_message<W: Wire>(
    alloc: Global,
    wire: &mut W,
) -> Result<Option<Message>, WaitStop>
    ensures traffic { Receives [] message_in (W.traffic wire.old) (W.traffic wire.new) result }
    ensures cause { StopsFor (W.receive_faults wire.old) (W.receive_faults wire.new) result }
    ensures send_faults { W.send_faults wire.new ≡ W.send_faults wire.old }
{
    let mut buf = [0u8; ROOM];
    match wire.receive(&mut buf) {
        Ok(received) => match message_in(alloc, received, &buf) {
            Ok(message) => Ok(message),
            Err(unread) => Err(WaitStop::Unread(unread)),
        },
        Err(_) => Err(WaitStop::Fault),
    }
}

/// The bytes of a message.
pub(crate) fn spelled(alloc: Global, message: &Message) -> Result<Vec<u8>, Memory>
    requires { MaySend message.now }
    ensures { IfOk result (λ bytes. bytes.items ≡ spelling message.now) }
{
    let mut bytes = Vec::new(alloc);
    write_message(alloc, message, &mut bytes)?;
    Ok(bytes)
}
