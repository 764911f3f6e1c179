//! Plain values for the tests of the crates of the types and of the rules: a job, a queue, a
//! request and a host with nothing special about them. A test sets the fields that it is about; a
//! host is filled through a reference, and let go by `drop`.
#![tactic(auto)]

use nqs_base::{Bytes, Extent, Items, Key, Keyed, ListOf, Memory, Name, Spare};
use nqs_base_tables::Table;
use nqs_state::{HostState, Rows};
use nqs_types::{
    Access, Hand, Hold, HostId, Job, Kind, Limits, Peer, Phase, QueueDef, RequestId, Row, RowState,
    batch,
};
use std::alloc::Global;

/// No limit of processor time and none of memory.
pub const NO_LIMITS: Limits = Limits {
    cpu: None,
    memory: None,
};

/// The extent of no bytes.
pub const NOTHING: Extent = Extent {
    place: 0,
    length: 0,
};

/// A job of this name and owner that may run at once, of priority 31.
pub fn job(alloc: Global, owner: Name) -> Job {
    Job {
        name: owner,
        owner,
        priority: 31,
        earliest: 0,
        rerun: true,
        limits: NO_LIMITS,
        forms: None,
        out: ListOf::new(alloc),
        err: ListOf::new(alloc),
        join: false,
    }
}

/// A batch queue that everybody may use, enabled and started, of priority 31, for one request at a
/// time.
pub fn queue(alloc: Global, name: Name) -> QueueDef {
    QueueDef {
        name,
        kind: Kind::Batch,
        enabled: true,
        started: true,
        pipe_only: false,
        priority: 31,
        run_limit: 1,
        user_limit: None,
        limits: NO_LIMITS,
        access: Access::All,
        dests: ListOf::new(alloc),
        devices: ListOf::new(alloc),
    }
}

/// A queued request of the first host, with an empty script.
pub fn row(alloc: Global, seq: u32, queue: Name, owner: Name) -> Row {
    Row {
        id: RequestId {
            seq,
            host: HostId(0),
        },
        job: job(alloc, owner),
        queue,
        state: RowState::Queued,
        hold: Hold::No,
        arrival: 1,
        doomed: false,
        starts: 0,
        lost: 0,
        hops: 0,
        device: None,
        refused: ListOf::new(alloc),
        script: NOTHING,
    }
}

/// A handover of a request of the first host to the second, since this moment.
pub fn hand(number: u64, seq: u32, since: u64, phase: Phase) -> Hand {
    Hand {
        peer: HostId(1),
        number,
        id: RequestId {
            seq,
            host: HostId(0),
        },
        queue: batch(),
        since,
        phase,
    }
}

/// What is known of a host to which the next handover and the next stage have these numbers, and of
/// which no number is closed.
pub fn peer(alloc: Global, next: u64, stage_next: u64) -> Peer {
    Peer {
        next,
        floor: 0,
        closed: ListOf::new(alloc),
        wait: 0,
        stage_next,
        stage_got: 0,
    }
}

/// The first host of a site, with the parameters that a host has at first and nothing else, not
/// even its site.
pub fn host(alloc: Global) -> HostState {
    HostState {
        me: HostId(0),
        site: ListOf::new(alloc),
        queues: Table::new(alloc),
        complexes: Table::new(alloc),
        devices: Table::new(alloc),
        rows: Rows::new(alloc),
        hands: Table::new(alloc),
        promises: Table::new(alloc),
        peers: Items::new(alloc),
        stages: Table::new(alloc),
        files: Table::new(alloc),
        managers: ListOf::new(alloc),
        operators: ListOf::new(alloc),
        default_queue: None,
        global_limit: 64,
        patience: 60,
        retry_wait: 300,
        seq: 0,
        arrivals: 0,
        file_next: 1,
        spare_names: Spare::new(alloc),
        spare_dests: Spare::new(alloc),
        spare_refused: Spare::new(alloc),
        spare_closed: Spare::new(alloc),
    }
}

/// One more value of a table, where its key is new.
pub fn add<K: Key, V: Keyed<K> + Drop>(table: &mut Table<K, V>, value: V) -> Result<(), Memory> {
    table.reserve(1)?;
    if !table.has(&value.key()) {
        table.push(value);
    }
    Ok(())
}

/// One more request, where its id is new.
pub fn add_row(rows: &mut Rows, row: Row) -> Result<(), Memory> {
    rows.reserve(1)?;
    if !rows.has(&row.id) {
        rows.push(row);
    }
    Ok(())
}

/// These bytes as a list.
pub fn text(alloc: Global, bytes: &[u8]) -> Result<Bytes, Memory> {
    Ok(ListOf::from_vec(Vec::from_slice(alloc, bytes)?))
}
