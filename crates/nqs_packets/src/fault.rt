//! Why bytes are no datagram.

ghost use Rattle.std.specs.Prelude.{◌≡◌};
ghost use Rattle.nqs_packets.specs.Reading.{as_packet_fault};

use nqs_base::Memory;
use nqs_records::RecordFault;

/// The first thing that is wrong with bytes that are no datagram. Places are counted from 0.
#[derive(Debug, PartialEq, Eq, Drop)]
pub enum PacketFault {
    /// The bytes end before the datagram does. The place is that of their end.
    Short(u64),
    /// The first byte is no version that is read.
    Version,
    /// There is no such kind of datagram.
    Kind,
    /// The place of the first byte of what may not stand there.
    BadField(u64),
    /// The datagram is whole. The place is that of the first byte behind it.
    Trailing(u64),
    /// Want of memory.
    Memory(Memory),
}

impl From<RecordFault> for PacketFault {
    ghost from_gives = { λ fault packet. packet ≡ as_packet_fault fault };

    fn from(fault: RecordFault) -> PacketFault {
        match fault {
            RecordFault::Short(end) => PacketFault::Short(end),
            RecordFault::Kind(_) => PacketFault::Kind,
            RecordFault::BadField(place) => PacketFault::BadField(place),
            RecordFault::Trailing(place) => PacketFault::Trailing(place),
            RecordFault::Memory(memory) => PacketFault::Memory(memory),
        }
    }
}
