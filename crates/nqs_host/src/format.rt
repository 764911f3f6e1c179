//! A host as it is formatted. `nqs_rules/specs/Format.antt` has the rule.

ghost use Rattle.std.specs.Prelude.{◌≡◌, ◌∷◌, [], IfOk, map};
ghost use Rattle.nqs_state.specs.State.{content};
ghost use Rattle.nqs_rules.specs.Format.{no_limits, new_peer, first_queue, formatted};

use nqs_base::{Items, ListOf, Memory, Name, NameList, Spare};
use nqs_base_tables::Table;
use nqs_state::{HostState, PeerList, Rows};
use nqs_types::{Access, HostId, Kind, Limits, Peer, QueueDef, batch, root};
use std::alloc::Global;

/// Requests that may run at once.
const GLOBAL_LIMIT: u16 = 64;
/// Seconds.
const PATIENCE: u64 = 60;
/// Seconds.
const RETRY_WAIT: u64 = 300;

// The queue that a formatted host has.
fn first_queue(alloc: Global) -> QueueDef
    ensures { result ≡ first_queue }
{
    QueueDef {
        name: batch(),
        kind: Kind::Batch,
        enabled: true,
        started: false,
        pipe_only: false,
        priority: 31,
        run_limit: 1,
        user_limit: None,
        limits: Limits {
            cpu: None,
            memory: None,
        },
        access: Access::All,
        dests: ListOf::new(alloc),
        devices: ListOf::new(alloc),
    }
}

fn first_queues(alloc: Global) -> Result<Table<Name, QueueDef>, Memory>
    ensures { IfOk result (λ queues. queues.items ≡ first_queue ∷ []) }
{
    let mut queues = Table::new(alloc);
    queues.reserve(1)?;
    queues.push(first_queue(alloc));
    Ok(queues)
}

// What is known of a host from which nothing came and to which nothing went.
fn new_peer(alloc: Global) -> Peer
    ensures { result ≡ new_peer }
{
    Peer {
        next: 1,
        floor: 0,
        closed: ListOf::new(alloc),
        wait: 0,
        stage_next: 1,
        stage_got: 0,
    }
}

// What is known of each host at first.
fn new_peers(alloc: Global, site: &NameList) -> Result<PeerList, Memory>
    ensures { IfOk result (λ peers. peers ≡ map (λ _. new_peer) site.now) }
{
    let mut peers = Items::new(alloc);
    for _place in 0..site.len() {
        peers.push(new_peer(alloc))?;
    }
    Ok(peers)
}

/// A host of this site, as it is formatted. Its rows get their index as it boots.
pub fn formatted(alloc: Global, me: HostId, site: NameList) -> Result<HostState, Memory>
    ensures { IfOk result (λ state. content state ≡ formatted me site) }
{
    let queues = first_queues(alloc)?;
    let peers = new_peers(alloc, &site)?;
    let managers = ListOf::of(alloc, root())?;
    Ok(HostState {
        me,
        site,
        queues,
        complexes: Table::new(alloc),
        devices: Table::new(alloc),
        rows: Rows::unindexed(alloc),
        hands: Table::new(alloc),
        promises: Table::new(alloc),
        peers,
        stages: Table::new(alloc),
        files: Table::new(alloc),
        managers,
        operators: ListOf::new(alloc),
        default_queue: Some(batch()),
        global_limit: GLOBAL_LIMIT,
        patience: PATIENCE,
        retry_wait: RETRY_WAIT,
        seq: 0,
        arrivals: 0,
        file_next: 1,
        spare_names: Spare::new(alloc),
        spare_dests: Spare::new(alloc),
        spare_refused: Spare::new(alloc),
        spare_closed: Spare::new(alloc),
    })
}
