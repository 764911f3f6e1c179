//! The changes of a host's state, one variant a kind of journal record.

use crate::edit::Edit;
use crate::ids::{HostId, PeerNumber, RequestId};
use crate::request::{Carried, Job};
use nqs_base::{Bytes, Extent, Items, ListOf, Name, NameList};

/// One output of a job: the path that it goes to, and its bytes.
#[derive(Drop)]
pub struct OutPart<E: Copy + Drop = Extent> {
    pub path: Bytes,
    pub bytes: E,
}

/// A change of a host's state. `E` stands for stored bytes: their extent of the spool, or the
/// bytes.
#[derive(Drop)]
pub enum Change<E: Copy + Drop = Extent> {
    /// The host is formatted: which one it is, and the hosts of its site.
    Site {
        me: HostId,
        site: NameList,
    },
    Submitted {
        queue: Name,
        job: Job,
        script: E,
    },
    Deleted(RequestId),
    /// The job of a running request is told to end.
    Doomed(RequestId),
    Started {
        id: RequestId,
        device: Option<Name>,
    },
    Ended {
        id: RequestId,
        outputs: Items<OutPart<E>>,
    },
    Unlaunched(RequestId),
    Boot,
    Edited(Edit),
    HandOpened {
        peer: HostId,
        number: u64,
        id: RequestId,
        queue: Name,
        since: u64,
    },
    HandCommitted {
        peer: HostId,
        number: u64,
    },
    HandRefused {
        peer: HostId,
        number: u64,
        cause: u8,
    },
    HandsSilent {
        until: u64,
        hands: ListOf<PeerNumber>,
    },
    HandDone {
        peer: HostId,
        number: u64,
    },
    /// A promise as older versions noted it: its low is its number. It is read, and made by no
    /// step.
    OldPromised {
        peer: HostId,
        number: u64,
        queue: Name,
        carried: Carried,
        script: E,
    },
    /// An offered request is promised. The handovers from its peer with a number below `low`, which
    /// is from 1 to the number, are closed by it.
    Promised {
        peer: HostId,
        number: u64,
        low: u64,
        queue: Name,
        carried: Carried,
        script: E,
    },
    Accepted {
        peer: HostId,
        number: u64,
    },
    Dropped {
        peer: HostId,
        number: u64,
    },
    MovedLocal {
        id: RequestId,
        queue: Name,
    },
    RefusedLocal {
        id: RequestId,
        queue: Name,
        cause: u8,
    },
    /// A request has been moved 32 times and is held.
    HeldFar(RequestId),
    StageGot {
        peer: HostId,
        number: u64,
        path: Bytes,
        bytes: E,
    },
    StageGone {
        peer: HostId,
        number: u64,
    },
    FileGone {
        file: u64,
    },
}
