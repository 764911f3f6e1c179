//! All that a host holds.

use crate::rows::Rows;
use nqs_base::{Items, Name, NameList, Spare};
use nqs_base_tables::Table;
use nqs_types::{
    ComplexDef, Dest, DeviceDef, FileOut, Hand, HostId, Peer, PeerNumber, Promise, QueueDef,
    Refused, Stage,
};

/// What a host knows of each host of its site, in the site's order.
pub type PeerList = Items<Peer>;

/// All that a host holds. Contracts see its `content`, and beside it the room that it has.
pub struct HostState {
    pub me: HostId,
    pub site: NameList,
    pub queues: Table<Name, QueueDef>,
    pub complexes: Table<Name, ComplexDef>,
    pub devices: Table<Name, DeviceDef>,
    pub rows: Rows,
    pub hands: Table<PeerNumber, Hand>,
    pub promises: Table<PeerNumber, Promise>,
    pub peers: PeerList,
    pub stages: Table<PeerNumber, Stage>,
    pub files: Table<u64, FileOut>,
    pub managers: NameList,
    pub operators: NameList,
    pub default_queue: Option<Name>,
    /// How many requests of batch queues may run at once.
    pub global_limit: u16,
    /// After how many seconds an offer without an answer is taken back.
    pub patience: u64,
    /// For how many seconds then no other one is made to that host.
    pub retry_wait: u64,
    /// The last sequence number given, at first 0.
    pub seq: u32,
    /// The last arrival number given, at first 0.
    pub arrivals: u64,
    /// The number of the next file, at first 1.
    pub file_next: u64,
    /// Memory for the growth of a list of names within a queue or a complex, or of managers or
    /// operators.
    pub spare_names: Spare<Name>,
    /// Memory for the growth of a queue's list of destinations.
    pub spare_dests: Spare<Dest>,
    /// Memory for the growth of a request's list of refusals.
    pub spare_refused: Spare<Refused>,
    /// Memory for the growth of a peer's list of closed numbers.
    pub spare_closed: Spare<u64>,
}

// Written out, so that a host's state is let go by a call: a derived drop is a part of each
// function that owns one, field by field.
impl Drop for HostState {
    fn drop(self) {
        let HostState {
            me: _,
            site: _,
            queues: _,
            complexes: _,
            devices: _,
            rows: _,
            hands: _,
            promises: _,
            peers: _,
            stages: _,
            files: _,
            managers: _,
            operators: _,
            default_queue: _,
            global_limit: _,
            patience: _,
            retry_wait: _,
            seq: _,
            arrivals: _,
            file_next: _,
            spare_names: _,
            spare_dests: _,
            spare_refused: _,
            spare_closed: _,
        } = self;
    }
}
