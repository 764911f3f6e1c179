//! Which requests come before another.

ghost use Rattle.std.specs.Prelude.{◌≡◌};
ghost use Rattle.nqs_state.specs.State.{content};
ghost use Rattle.nqs_rules.specs.Reasons.{goes_first, waits_before};

use nqs_order::{comes_before, is_eligible};
use nqs_state::HostState;
use nqs_types::{Hold, QueueDef, Row, RowState};

// Whether another row comes before this one, and may start from the queue.
pub(crate) fn goes_first(
    state: &HostState,
    queue: &QueueDef,
    now: u64,
    row: &Row,
    other: &Row,
) -> bool
    ensures { result ≡ goes_first queue.now now (content state.now) row.now other.now }
{
    comes_before(other, row) && is_eligible(state, queue, now, other)
}

// Whether another row comes before this one, and waits in the same queue.
pub(crate) fn waits_before(now: u64, row: &Row, other: &Row) -> bool
    ensures { result ≡ waits_before now row.now other.now }
{
    comes_before(other, row)
        && row.queue == other.queue
        && other.state == RowState::Queued
        && other.hold == Hold::No
        && other.job.earliest <= now
}
