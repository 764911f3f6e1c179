//! What is started next.

ghost use Rattle.std.specs.Prelude.{◌≡◌, ◌≤◌, ◌+◌, length};
ghost use Rattle.std.specs.Option.{option_map};
ghost use Rattle.nqs_state.specs.State.{content};
ghost use Rattle.nqs_rules.specs.Order.{is_greater, is_candidate, next_queue, print_on, is_local, move_to, choice_for, pick};

use crate::eligible::{any_waiting, first_row, has_eligible};
use crate::limits::is_within_limits;
use nqs_devices::free_device;
use nqs_index::Steps;
use nqs_routing::destination_in;
use nqs_state::HostState;
use nqs_types::{Choice, Kind, QueueDef, Row};
use std::sync::ledger::Ledger;

// A queue where no row waits, or at its limits, is told by one look at the rows: the costly tests
// of rows come last.
fn is_candidate(state: &HostState, queue: &QueueDef, now: u64) -> bool
    ensures { result ≡ is_candidate now (content state.now) queue.now }
{
    if !queue.started {
        return false;
    }
    if !any_waiting(state, queue, now) {
        return false;
    }
    is_within_limits(state, queue) && has_eligible(state, queue, now)
}

pub(crate) fn is_greater(one: &QueueDef, other: &QueueDef) -> bool
    ensures { result ≡ is_greater one.now other.now }
{
    other.priority < one.priority
}

fn next_queue(state: &HostState, now: u64) -> Option<(usize, &QueueDef)>
    ensures { option_map (λ p. (p.0, p.1.now)) result ≡ next_queue now (content state.now) }
{
    state.queues.best(
        |queue: &QueueDef| is_candidate(state, queue, now),
        |one: &QueueDef, other: &QueueDef| is_greater(one, other),
    )
}

pub(crate) fn print_on(place: usize, device: Option<usize>) -> Option<Choice>
    ensures { result ≡ print_on place device }
{
    match device {
        Some(device) => Some(Choice::Print(place, device)),
        None => None,
    }
}

fn is_local(state: &HostState, queue: &QueueDef, dest: usize) -> bool
    ensures { result ≡ is_local dest queue.now (content state.now) }
{
    match queue.dests.as_slice().get(dest) {
        Some(dest) => state.me == dest.host,
        None => false,
    }
}

pub(crate) fn move_to(
    state: &HostState,
    queue: &QueueDef,
    place: usize,
    dest: Option<usize>,
) -> Option<Choice>
    ensures { result ≡ move_to place queue.now (content state.now) dest }
{
    match dest {
        Some(dest) => {
            if is_local(state, queue, dest) {
                Some(Choice::Local(place, dest))
            } else {
                Some(Choice::Hand(place, dest))
            }
        }
        None => None,
    }
}

// What is done with an eligible row.
fn choice_for(
    state: &HostState,
    queue: &QueueDef,
    now: u64,
    place: usize,
    row: &Row,
) -> Option<Choice>
    ensures { result ≡ choice_for queue.now.kind queue.now now (content state.now) place row.now }
{
    match queue.kind {
        Kind::Batch => Some(Choice::Launch(place)),
        Kind::Device => print_on(place, free_device(state, queue, row.job.forms.as_ref())),
        Kind::Pipe => {
            if row.hops == 32 {
                return Some(Choice::TooFar(place));
            }
            move_to(state, queue, place, destination_in(state, queue, row, now))
        }
    }
}

/// What is started next at a moment, in seconds since 1970, if anything: the first eligible row of
/// the queue of greatest priority, the first created among those, that is started, within its
/// limits and has an eligible row. It looks over all rows, and each of these looks for the first of
/// them counts as a comparison for each row.
pub fn pick<L: Ledger>(state: &HostState, now: u64, steps: &mut Steps<L>) -> Option<Choice>
    ensures choice { result ≡ pick now (content state.now) }
    ensures rises { steps.old ≤ steps.new }
    ensures cost { steps.new ≤ steps.old + length state.now.rows.items }
{
    let (_, queue) = next_queue(state, now)?;
    steps.add(state.rows.len());
    let (place, row) = first_row(state, queue, now)?;
    choice_for(state, queue, now, place, row)
}
