//! The events of a recorded schedule, and what is seen of them.

use crate::event::Reply;
use crate::ids::{HostId, RequestId};
use crate::message::BodyKind;
use crate::table_row::TableRow;
use nqs_base::{Bytes, Items, Name, Tear};

/// A disk of a host.
#[derive(Clone, Copy, Debug, PartialEq, Eq)]
pub enum Which {
    Root,
    First,
    Second,
    Spool,
}

/// An event of a schedule, one variant a line.
#[derive(Drop)]
pub enum WorldEvent {
    Submit {
        user: Name,
        name: Name,
    },
    Qsub {
        host: HostId,
        user: Name,
        script: Bytes,
        words: Items<Bytes>,
    },
    Qmgr {
        host: HostId,
        user: Name,
        text: Bytes,
    },
    Qstat {
        host: HostId,
        user: Name,
        words: Items<Bytes>,
    },
    Qdel {
        host: HostId,
        user: Name,
        words: Items<Bytes>,
    },
    End {
        host: HostId,
        id: RequestId,
        start: u16,
        status: u8,
        out: Bytes,
        err: Bytes,
    },
    Finish {
        host: HostId,
    },
    Fail {
        host: HostId,
        id: RequestId,
        start: u16,
    },
    Written {
        host: HostId,
        file: u64,
    },
    Unwritten {
        host: HostId,
        file: u64,
    },
    /// The packet of this number, from 1 on, arrives.
    Deliver {
        packet: u64,
    },
    /// The packet with the greatest number between these two hosts, either way, arrives.
    Newest {
        one: HostId,
        other: HostId,
    },
    Tick {
        host: HostId,
    },
    /// The moment, in seconds since 1970.
    Clock {
        moment: u64,
    },
    /// The call of this number, from 1 on, to write to or to sync the disk stops the host.
    Fuse {
        host: HostId,
        disk: Which,
        calls: u64,
        tear: Tear,
    },
    Crash {
        host: HostId,
    },
    Boot {
        host: HostId,
    },
    Show,
}

/// What is seen of an event, one variant a line of the transcript.
#[derive(Drop)]
pub enum Seen {
    Reply(Reply),
    Launch {
        host: HostId,
        id: RequestId,
        start: u16,
    },
    Print {
        host: HostId,
        id: RequestId,
        start: u16,
        device: Name,
    },
    Kill {
        host: HostId,
        id: RequestId,
        start: u16,
    },
    Write {
        host: HostId,
        file: u64,
        path: Bytes,
        length: u64,
    },
    Packet {
        packet: u64,
        from: HostId,
        to: HostId,
        kind: BodyKind,
        number: u64,
    },
    Ended {
        host: HostId,
        id: RequestId,
        start: u16,
        status: u8,
    },
    Unlaunched {
        host: HostId,
        id: RequestId,
        start: u16,
    },
    Again {
        host: HostId,
        id: RequestId,
    },
    Lost {
        host: HostId,
        id: RequestId,
    },
    Boot {
        host: HostId,
    },
    Stop {
        host: HostId,
    },
    Down {
        host: HostId,
    },
    Up {
        host: HostId,
    },
    NoPacket(Option<u64>),
    Idle {
        host: HostId,
    },
    Table(Items<TableRow>),
}
