//! Datagrams that come and go.

ghost use Rattle.std.specs.Prelude.{◌≡◌, ◌<◌, [], ◌∷◌, List, ℕ, IfOk, OnErr, OnOk, length};
ghost use Rattle.std.specs.declared.option.Option.{Option};
ghost use Rattle.nqs_outside.specs.Causes.{HasCause};
ghost use Rattle.nqs_outside.specs.Told.{Extends};

use crate::source::Failed;
use nqs_types::HostId;

/// Where a datagram goes.
#[derive(Clone, Copy, Debug, PartialEq, Eq)]
pub enum Address {
    /// A host of the site.
    Host(HostId),
    /// A client or a shepherd of this host, at this port.
    Client(u16),
}

/// What a receive brought.
#[derive(Clone, Copy, Debug, PartialEq, Eq)]
pub enum Received {
    /// So many bytes at the front of the buffer. A datagram that is longer than the buffer fills
    /// it.
    Datagram(usize),
    /// Nothing came within the wire's own wait.
    Quiet,
}

/// Datagrams that come and go. One that is sent may be lost, come late, or come more than once.
///
/// What a wire tells is one list of its calls as they were made, so that it shows what had come
/// before a datagram went out.
pub trait Wire {
    ghost use Rattle.nqs_outside.specs.Asked.{arrival, inbound, IsWithin, outbound, packet, Traffic};

    /// What was received and what was to be sent, whether or not the send failed, in the order of
    /// the calls, where it tells it. A real one doesn't.
    ghost traffic: { Self → Option (List Traffic) };

    /// How often a receive has failed.
    ghost receive_faults: { Self → ℕ };

    /// How often a send has failed.
    ghost send_faults: { Self → ℕ };

    /// A datagram at the front of the buffer, which has room for one more byte than the longest
    /// has, or that nothing came. Only a failed receive is counted.
    fn receive(&mut self, buf: &mut [u8]) -> Result<Received, Failed>
        requires room { 49152 < length buf.old }
        ensures within { IfOk result (λ r. IsWithin r (length buf.new)) }
        ensures same_length { length buf.new ≡ length buf.old }
        ensures came { IfOk result (λ r. Extends (traffic self.old) (traffic self.new) (inbound (arrival r buf.new) ∷ [])) }
        ensures lost { OnErr result (Extends (traffic self.old) (traffic self.new) []) }
        ensures cause { HasCause (receive_faults self.old) (receive_faults self.new) result }
        ensures uncounted { OnOk result (receive_faults self.new ≡ receive_faults self.old) }
        ensures send_faults { send_faults self.new ≡ send_faults self.old };

    /// Sends a datagram. It is told also where the send failed, which is a loss. Only a failed send
    /// is counted.
    fn send(&mut self, to: Address, bytes: &[u8]) -> Result<(), Failed>
        ensures sends { Extends (traffic self.old) (traffic self.new) (outbound (packet to bytes.now) ∷ []) }
        ensures cause { HasCause (send_faults self.old) (send_faults self.new) result }
        ensures uncounted { OnOk result (send_faults self.new ≡ send_faults self.old) }
        ensures receive_faults { receive_faults self.new ≡ receive_faults self.old };
}
