//! Changes of requests that stay on this host.

ghost use Rattle.std.specs.Prelude.{◌≡◌, ◌+◌, ◌<◌, ◌≤◌, ◌^◌, length, IsTrue, find};
ghost use Rattle.nqs_state.specs.State.{content};
ghost use Rattle.nqs_state.specs.Keys.{is_row};
ghost use Rattle.nqs_state.specs.Least.{runs_now};
ghost use Rattle.nqs_rules.specs.Tests.{is_ready, last_seq, last_u64};
ghost use Rattle.nqs_rules.specs.Edits.{change_row, drop_row};
ghost use Rattle.nqs_rules.specs.Rows.{next_arrival};
ghost use Rattle.nqs_rules.specs.Fits.{row_passes, may_hop};
ghost use Rattle.nqs_rules.specs.InOrder.{IsInOrder};
ghost use Rattle.nqs_rules.specs.Applied.{new_row, submitted, deleted, doomed_row, started_row, requeued_row, moved_local, held_far};

use nqs_base::{Extent, ListOf, Name};
use nqs_routing::is_offered_for;
use nqs_state::HostState;
use nqs_types::{Carried, Hand, Hold, Job, PeerNumber, RequestId, Row, RowState};
use std::alloc::Global;

/// Whether the host has the request, and it runs.
pub fn row_runs(state: &HostState, id: &RequestId) -> bool
    ensures { result ≡ row_passes runs_now id.now (content state.now) }
{
    match state.rows.get(id) {
        Some(row) => row.state == RowState::Running,
        None => false,
    }
}

/// The row that a request makes where it comes in.
pub(crate) fn new_row(
    carried: Carried,
    queue: Name,
    arrival: u64,
    script: Extent,
    alloc: Global,
) -> Row
    ensures { result ≡ new_row carried queue arrival script }
{
    let Carried {
        id,
        job,
        starts,
        lost,
        hops,
    } = carried;
    Row {
        id,
        job,
        queue,
        state: RowState::Queued,
        hold: Hold::No,
        arrival,
        doomed: false,
        starts,
        lost,
        hops,
        device: None,
        refused: ListOf::new(alloc),
        script,
    }
}

/// A request comes in, under the next sequence number.
pub fn submitted(state: &mut HostState, queue: Name, job: Job, script: Extent)
    requires room { 0 < state.old.rows.spare }
    requires number { state.old.seq < last_seq }
    requires arrival { state.old.arrivals < last_u64 }
    requires order { IsInOrder (content state.old) }
    ensures { content state.new ≡ submitted queue job script (content state.old) }
{
    state.seq += 1;
    state.arrivals += 1;
    let first = Carried {
        id: RequestId {
            seq: state.seq,
            host: state.me,
        },
        job,
        starts: 0,
        lost: 0,
        hops: 0,
    };
    let alloc = state.rows.allocator();
    let row = new_row(first, queue, state.arrivals, script, alloc);
    state.rows.push(row);
}

/// A request goes.
pub fn dropped(state: &mut HostState, id: RequestId)
    ensures { content state.new ≡ drop_row id (content state.old) }
{
    state.rows.remove_key(&id);
}

/// A request goes, and an offer of it.
pub fn deleted(state: &mut HostState, id: RequestId)
    ensures { content state.new ≡ deleted id (content state.old) }
{
    state.rows.remove_key(&id);
    state.hands.revise(|_key: &PeerNumber, hand: &mut Hand| !is_offered_for(hand, id));
}

/// A running request's job is told to end.
pub fn doomed(state: &mut HostState, id: RequestId)
    ensures { content state.new ≡ change_row id doomed_row (content state.old) }
{
    state.rows.change(&id, |row: &mut Row| row.doomed = true);
}

/// A request starts, on the device if there is one.
pub fn started(state: &mut HostState, id: RequestId, device: Option<Name>)
    requires ready { IsTrue (row_passes is_ready id (content state.old)) }
    requires order { IsInOrder (content state.old) }
    ensures { content state.new ≡ change_row id (started_row device) (content state.old) }
{
    state.rows.change(&id, |row: &mut Row| {
        row.state = RowState::Running;
        row.starts = row.starts.saturating_add(1);
        row.device = device;
    });
}

/// A request waits in its queue again.
pub(crate) fn requeued(state: &mut HostState, id: RequestId)
    ensures { content state.new ≡ change_row id requeued_row (content state.old) }
{
    state
        .rows
        .change(&id, |row: &mut Row| row.state = RowState::Queued);
}

/// A request moves to a queue of this host, and arrives there anew.
pub fn moved(state: &mut HostState, id: RequestId, queue: Name)
    requires may { IsTrue (row_passes may_hop id (content state.old)) }
    requires arrival { state.old.arrivals < last_u64 }
    ensures { content state.new ≡ change_row id (moved_local queue (state.old.arrivals + 1)) (next_arrival (content state.old)) }
{
    state.arrivals += 1;
    let arrival = state.arrivals;
    let alloc = state.rows.allocator();
    state.rows.change(&id, |row: &mut Row| {
        row.queue = queue;
        row.arrival = arrival;
        row.hops = row.hops.saturating_add(1);
        row.refused = ListOf::new(alloc);
    });
}

/// The system holds a request that was moved too often.
pub fn held_far(state: &mut HostState, id: RequestId)
    ensures { content state.new ≡ change_row id held_far (content state.old) }
{
    state
        .rows
        .change(&id, |row: &mut Row| row.hold = Hold::System);
}
