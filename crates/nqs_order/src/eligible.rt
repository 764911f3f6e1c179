//! The first row of a queue that may start.

ghost use Rattle.std.specs.Prelude.{◌≡◌, ◌&&◌, length, filter, nat_le, is_some};
ghost use Rattle.std.specs.List.{list_any};
ghost use Rattle.std.specs.Option.{option_map};
ghost use Rattle.nqs_state.specs.State.{content};
ghost use Rattle.nqs_rules.specs.Order.{is_active_of, below, kind_allows, is_eligible, comes_before, first_eligible};
ghost use Rattle.nqs_order.specs.Waiting.{is_waiting};
ghost use Rattle.nqs_order.specs.Places.{first_place};

use crate::limits::is_active_in;
use nqs_base::Name;
use nqs_devices::free_device;
use nqs_routing::destination_in;
use nqs_state::HostState;
use nqs_types::{Hold, Kind, QueueDef, Row, RowState};

fn is_active_of(row: &Row, queue: &Name, owner: &Name) -> bool
    ensures { result ≡ is_active_of queue.now owner.now row.now }
{
    is_active_in(row, queue) && *owner == row.job.owner
}

/// Whether fewer requests of the owner run in the queue, or are on their way, than its user limit;
/// true where it has none.
pub fn user_allows(state: &HostState, queue: &QueueDef, owner: &Name) -> bool
    ensures { result ≡ below (length (filter (is_active_of queue.now.name owner.now) state.now.rows.items)) queue.now.user_limit }
{
    match queue.user_limit {
        Some(limit) => {
            state
                .rows
                .count(|row: &Row| is_active_of(row, &queue.name, owner))
                < limit as usize
        }
        None => true,
    }
}

/// Whether the queue can do something with the row at a moment, in seconds since 1970: a device is
/// free that has its forms, or a destination may be tried, or it was moved 32 times. A batch queue
/// always can.
pub fn kind_allows(state: &HostState, queue: &QueueDef, now: u64, row: &Row) -> bool
    ensures { result ≡ kind_allows queue.now.kind queue.now now (content state.now) row.now }
{
    match queue.kind {
        Kind::Batch => true,
        Kind::Device => free_device(state, queue, row.job.forms.as_ref()).is_some(),
        Kind::Pipe => row.hops == 32 || destination_in(state, queue, row, now).is_some(),
    }
}

// Whether the row is queued in the queue, isn't held and may start by its time. What tells most is
// looked at first.
pub(crate) fn is_waiting(queue: &QueueDef, now: u64, row: &Row) -> bool
    ensures { result ≡ is_waiting queue.now now row.now }
{
    row.state == RowState::Queued
        && row.hold == Hold::No
        && row.job.earliest <= now
        && queue.name == row.queue
}

/// Whether the row may start from the queue at a moment, in seconds since 1970, as far as the row
/// itself goes: whether the queue may start one more isn't asked, but for its user limit.
pub fn is_eligible(state: &HostState, queue: &QueueDef, now: u64, row: &Row) -> bool
    ensures { result ≡ is_eligible queue.now now (content state.now) row.now }
{
    is_waiting(queue, now, row)
        && user_allows(state, queue, &row.job.owner)
        && kind_allows(state, queue, now, row)
}

/// Whether one row starts before the other: it has the greater priority, or the same one and the
/// earlier arrival.
pub fn comes_before(one: &Row, other: &Row) -> bool
    ensures { result ≡ comes_before one.now other.now }
{
    other.job.priority < one.job.priority
        || (one.job.priority == other.job.priority && one.arrival < other.arrival)
}

// Whether a row of a queue is waiting. It looks no further than the first one.
pub(crate) fn any_waiting(state: &HostState, queue: &QueueDef, now: u64) -> bool
    ensures { result ≡ list_any (is_waiting queue.now now) state.now.rows.items }
{
    state.rows.any(|row: &Row| is_waiting(queue, now, row))
}

// Whether a row of a queue is eligible. It looks no further than the first one.
fn any_eligible(state: &HostState, queue: &QueueDef, now: u64) -> bool
    ensures { result ≡ list_any (is_eligible queue.now now (content state.now)) state.now.rows.items }
{
    state
        .rows
        .any(|row: &Row| is_eligible(state, queue, now, row))
}

// Whether a queue has a first eligible row.
pub(crate) fn has_eligible(state: &HostState, queue: &QueueDef, now: u64) -> bool
    ensures { result ≡ is_some (first_eligible queue.now now (content state.now)) }
{
    any_eligible(state, queue, now)
}

// A queue's first eligible row, with its place among the rows.
pub(crate) fn first_row<'a>(
    state: &'a HostState,
    queue: &QueueDef,
    now: u64,
) -> Option<(usize, &'a Row)>
    ensures { option_map (λ p. (p.0, p.1.now)) result ≡ first_eligible queue.now now (content state.now) }
{
    state.rows.best(
        |row: &Row| is_eligible(state, queue, now, row),
        |one: &Row, other: &Row| comes_before(one, other),
    )
}

/// The row that starts first of those that may start at a moment, in seconds since 1970: of
/// greatest priority, and among those the earliest arrival. The queue is given and the row answered
/// by its place in the host's list, from 0.
pub fn first_eligible(state: &HostState, queue: usize, now: u64) -> Option<usize>
    ensures { result ≡ first_place queue now (content state.now) }
{
    let def = state.queues.get_at(queue)?;
    let (place, _) = first_row(state, def, now)?;
    Some(place)
}
