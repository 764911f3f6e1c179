//! A handover of two hosts in the table: where its request lies, and the order of the rows.

use nqs_base::Memory;
use nqs_builders::{add, add_row, hand, host, row};
use nqs_rules_table::table_of;
use nqs_state::HostState;
use nqs_types::{
    Hold, HostId, NetState, Phase, Promise, RequestId, Row, RowState, TableRow, batch,
};
use std::alloc::Global;
use std::rt::HostRuntime;

const ALPHA: HostId = HostId(0);

const BETA: HostId = HostId(1);

// A request that was started twice and lost once.
fn known(alloc: Global, host: HostId, seq: u32, state: RowState) -> Row {
    let mut row = row(alloc, seq, batch(), batch());
    row.id.host = host;
    row.state = state;
    row.starts = 2;
    row.lost = 1;
    row
}

fn held(mut row: Row) -> Row {
    row.hold = Hold::User;
    row
}

fn promise(alloc: Global, number: u64, seq: u32) -> Promise {
    Promise {
        peer: ALPHA,
        number,
        row: known(alloc, ALPHA, seq, RowState::Queued),
    }
}

// Two requests, and two handovers to beta of which the first is committed.
fn fill_alpha(alloc: Global, alpha: &mut HostState) -> Result<(), Memory> {
    add_row(&mut alpha.rows, known(alloc, ALPHA, 2, RowState::Running))?;
    add_row(
        &mut alpha.rows,
        held(known(alloc, ALPHA, 1, RowState::Queued)),
    )?;
    add(&mut alpha.hands, hand(1, 3, 0, Phase::Committed))?;
    add(&mut alpha.hands, hand(2, 4, 0, Phase::Offered))
}

// A request of its own, and a promise of each handover.
fn fill_beta(alloc: Global, beta: &mut HostState) -> Result<(), Memory> {
    beta.me = BETA;
    add_row(&mut beta.rows, known(alloc, BETA, 1, RowState::Queued))?;
    add(&mut beta.promises, promise(alloc, 2, 4))?;
    add(&mut beta.promises, promise(alloc, 1, 3))
}

fn table(alloc: Global, states: &mut [HostState; 2]) -> Result<Vec<TableRow>, Memory> {
    fill_alpha(alloc, &mut states[0])?;
    fill_beta(alloc, &mut states[1])?;
    table_of(alloc, states)
}

fn both(alloc: Global) -> Result<Vec<TableRow>, Memory> {
    let mut states = [host(alloc), host(alloc)];
    let table = table(alloc, &mut states);
    drop(states);
    table
}

fn listed(id: RequestId, host: HostId, state: NetState) -> TableRow {
    TableRow {
        id,
        host,
        queue: batch(),
        state,
        owner: batch(),
        starts: 2,
        lost: 1,
    }
}

// Alpha's two requests, the one that is arriving at beta, and beta's own.
fn wanted() -> [TableRow; 4] {
    let first = RequestId {
        seq: 1,
        host: ALPHA,
    };
    [
        listed(first, ALPHA, NetState::Held),
        listed(RequestId { seq: 2, ..first }, ALPHA, NetState::Running),
        listed(RequestId { seq: 3, ..first }, BETA, NetState::Arriving),
        listed(
            RequestId {
                host: BETA,
                ..first
            },
            BETA,
            NetState::Queued,
        ),
    ]
}

#[test]
fn a_handover_is_arriving_once_it_is_committed(rt: HostRuntime) -> Result<(), Memory> {
    let table = both(rt.alloc())?;
    assert_eq!(rt; table.as_slice(), wanted().as_slice());
    Ok(())
}
