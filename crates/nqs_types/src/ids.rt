//! How hosts, requests, handovers and destinations are named.

use nqs_base::Name;

/// A host, by its place in the site's list, from 0.
#[derive(Clone, Copy, Debug, PartialEq, Eq, Hash)]
pub struct HostId(pub u8);

/// A request: its sequence number, from 1 on, and the host where it was submitted.
#[derive(Clone, Copy, Debug, PartialEq, Eq, Hash)]
pub struct RequestId {
    pub seq: u32,
    pub host: HostId,
}

/// A request as it is typed: `SEQ.HOST`.
#[derive(Clone, Copy, Debug, PartialEq, Eq)]
pub struct Named {
    pub seq: u32,
    pub host: Name,
}

/// A destination of a pipe queue: a queue of a host.
#[derive(Clone, Copy, Debug, PartialEq, Eq)]
pub struct Dest {
    pub queue: Name,
    pub host: HostId,
}

/// A destination as it is typed: `QUEUE@HOST`.
#[derive(Clone, Copy, Debug, PartialEq, Eq)]
pub struct NamedDest {
    pub queue: Name,
    pub host: Name,
}

/// A handover, a promise or a stage, by the other host and its number among those with that host.
#[derive(Clone, Copy, Debug, PartialEq, Eq, Hash)]
pub struct PeerNumber {
    pub peer: HostId,
    pub number: u64,
}
