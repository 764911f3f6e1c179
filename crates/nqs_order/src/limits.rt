//! Whether a queue may start one more request, as far as limits go.

ghost use Rattle.std.specs.Prelude.{◌≡◌, length, filter, nat_lt};
ghost use Rattle.std.specs.Option.{option_copied};
ghost use Rattle.nqs_state.specs.State.{content};
ghost use Rattle.nqs_rules.specs.Tests.{passes};
ghost use Rattle.nqs_rules.specs.Limits.{is_batch_queue};
ghost use Rattle.nqs_rules.specs.Order.{is_active_in, runs_in, runs_in_batch, complex_allows, batch_allows, is_within_limits};
ghost use Rattle.nqs_order.specs.Places.{is_place_within};

use nqs_base::{Name, has_name};
use nqs_state::HostState;
use nqs_types::{ComplexDef, Kind, QueueDef, Row, RowState};

// Whether the row is of the queue, and runs or is on its way.
pub(crate) fn is_active_in(row: &Row, queue: &Name) -> bool
    ensures { result ≡ is_active_in queue.now row.now }
{
    row.state != RowState::Queued && *queue == row.queue
}

pub(crate) fn runs_in(row: &Row, complex: &ComplexDef) -> bool
    ensures { result ≡ runs_in complex.now row.now }
{
    row.state == RowState::Running && has_name(complex.queues.as_slice(), &row.queue)
}

fn is_batch_queue(queue: Option<&QueueDef>) -> bool
    ensures { result ≡ passes is_batch_queue (option_copied queue.entry) }
{
    match queue {
        Some(queue) => queue.kind == Kind::Batch,
        None => false,
    }
}

pub(crate) fn runs_in_batch(state: &HostState, row: &Row) -> bool
    ensures { result ≡ runs_in_batch (content state.now) row.now }
{
    row.state == RowState::Running && is_batch_queue(state.queues.get(&row.queue))
}

/// Whether the queue isn't of the complex, or fewer requests run in the queues of the complex than
/// its limit.
pub fn complex_allows(state: &HostState, queue: &Name, complex: &ComplexDef) -> bool
    ensures { result ≡ complex_allows queue.now (content state.now) complex.now }
{
    !has_name(complex.queues.as_slice(), queue)
        || state.rows.count(|row: &Row| runs_in(row, complex)) < complex.limit as usize
}

/// Whether fewer requests run in the batch queues of the host than its global limit.
pub fn global_allows(state: &HostState) -> bool
    ensures { result ≡ nat_lt (length (filter (runs_in_batch (content state.now)) state.now.rows.items)) state.now.global_limit }
{
    state.rows.count(|row: &Row| runs_in_batch(state, row)) < state.global_limit as usize
}

fn batch_allows(state: &HostState, queue: &Name) -> bool
    ensures { result ≡ batch_allows queue.now (content state.now) }
{
    state.complexes.all(|complex: &ComplexDef| complex_allows(state, queue, complex))
        && global_allows(state)
}

/// Whether fewer requests run in the queue, or are on their way, than its run limit.
pub fn run_allows(state: &HostState, queue: &QueueDef) -> bool
    ensures { result ≡ nat_lt (length (filter (is_active_in queue.now.name) state.now.rows.items)) queue.now.run_limit }
{
    state.rows.count(|row: &Row| is_active_in(row, &queue.name)) < queue.run_limit as usize
}

pub(crate) fn is_within_limits(state: &HostState, queue: &QueueDef) -> bool
    ensures { result ≡ is_within_limits queue.now (content state.now) }
{
    run_allows(state, queue) && (queue.kind != Kind::Batch || batch_allows(state, &queue.name))
}

/// Whether the queue at this place of the host's list, from 0, may start one more request: its run
/// limit, and for a batch queue the limits of its complexes and the global one, aren't reached.
/// False where there is no such queue.
pub fn within_limits(state: &HostState, queue: usize) -> bool
    ensures { result ≡ is_place_within queue (content state.now) }
{
    match state.queues.get_at(queue) {
        Some(def) => is_within_limits(state, def),
        None => false,
    }
}
