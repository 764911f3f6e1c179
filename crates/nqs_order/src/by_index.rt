//! What is started next, told by an index: no look goes over all rows.
//! The requests of a queue that wait stand in classes: what is asked of all of a class is asked
//! once. `specs/ByIndex.antt` has the rules over an index, which are those over the rows where it
//! stands for them.

ghost use Rattle.std.specs.Prelude.{◌≡◌, ◌≤◌, ◌+◌, ◌-◌, ◌*◌, length, None};
ghost use Rattle.std.specs.List.{list_any};
ghost use Rattle.std.specs.Option.{option_copied, option_map};
ghost use Rattle.nqs_state.specs.State.{content};
ghost use Rattle.nqs_rules.specs.InOrder.{IsInOrder};
ghost use Rattle.nqs_rules.specs.Order.{pick as pick_of_rules};
ghost use Rattle.nqs_index.specs.Indexed.{StandsForIndex, classes_in};
ghost use Rattle.nqs_order.specs.ByIndex.{is_filled, user_allows, running_once, fewer_run, running_in_batch, fewer_in_batch, complex_allows, batch_allows};
ghost use Rattle.nqs_order.specs.ByIndex.{is_within_limits, is_free_device, free_device, has_free_device, may_serve, kind_allows, is_eligible, startable};
ghost use Rattle.nqs_order.specs.ByIndex.{first_in, is_open, has_open, class_served, class_allows, first_of, leads, earlier, is_ahead, better_of};
ghost use Rattle.nqs_order.specs.ByIndex.{first_among, first_eligible, has_first, has_eligible, may_start, is_candidate, next_queue};
ghost use Rattle.nqs_order.specs.ByIndex.{choice_for, choice_of, pick, PicksBy};

use crate::choice::{is_greater, move_to, print_on};
use crate::eligible::is_waiting;
use nqs_base::{Name, has_name};
use nqs_devices::can_serve;
use nqs_index::{Class, ClassLine, Classes, Index, Key, Line, Steps, Tally};
use nqs_routing::{destination_in, is_reachable};
use nqs_state::HostState;
use nqs_types::{Choice, ComplexDef, Dest, Kind, QueueDef, RequestId, Row};
use std::sync::ledger::Ledger;

fn user_allows(index: &Index, queue: &QueueDef, owner: &Name) -> bool
    ensures { result ≡ user_allows index.now queue.now owner.now }
{
    match queue.user_limit {
        Some(limit) => index.count(&Tally::Owned(queue.name, *owner)) < limit as usize,
        None => true,
    }
}

// How many requests run in a queue, where it isn't one of the later ones.
fn running_once(index: &Index, queue: &Name, later: &[Name]) -> usize
    ensures { result ≡ running_once index.now queue.now later.now }
{
    if has_name(later, queue) {
        return 0;
    }
    index.count(&Tally::Running(*queue))
}

// Whether fewer requests run in the queues of these names than a limit.
fn fewer_run(index: &Index, queues: &[Name], limit: usize) -> bool
    ensures { result ≡ fewer_run index.now limit queues.now }
{
    let mut left = limit;
    let mut rest = queues;
    while let Some((queue, later)) = rest.split_first() {
        let running = running_once(index, queue, later);
        if running >= left {
            return false;
        }
        left -= running;
        rest = later;
    }
    left > 0
}

fn complex_allows(index: &Index, queue: &Name, complex: &ComplexDef) -> bool
    ensures { result ≡ complex_allows index.now queue.now complex.now }
{
    let queues = complex.queues.as_slice();
    !has_name(queues, queue) || fewer_run(index, queues, complex.limit as usize)
}

fn running_in_batch(index: &Index, queue: &QueueDef) -> usize
    ensures { result ≡ running_in_batch index.now queue.now }
{
    if queue.kind == Kind::Batch {
        return index.count(&Tally::Running(queue.name));
    }
    0
}

// Whether fewer requests run in the batch queues of the host than its global limit.
fn fewer_in_batch(index: &Index, state: &HostState) -> bool
    ensures { result ≡ fewer_in_batch index.now state.now.global_limit state.now.queues.items }
{
    let mut left = state.global_limit as usize;
    let mut place = 0;
    while place < state.queues.len() {
        let running = running_in_batch(index, state.queues.at(place));
        if running >= left {
            return false;
        }
        left -= running;
        place += 1;
    }
    left > 0
}

fn batch_allows(index: &Index, queue: &Name, batch: bool, state: &HostState) -> bool
    ensures { result ≡ batch_allows index.now queue.now batch (content state.now) }
{
    batch && state.complexes.all(|complex: &ComplexDef| complex_allows(index, queue, complex))
}

// A queue at its run limit is told by one count.
fn is_within_limits(index: &Index, queue: &QueueDef, batch: bool, state: &HostState) -> bool
    ensures { result ≡ is_within_limits index.now queue.now batch (content state.now) }
{
    index.count(&Tally::Active(queue.name)) < queue.run_limit as usize
        && (queue.kind != Kind::Batch || batch_allows(index, &queue.name, batch, state))
}

fn is_free_device(index: &Index, forms: Option<&Name>, state: &HostState, device: &Name) -> bool
    ensures { result ≡ is_free_device index.now (option_copied forms.entry) (content state.now) device.now }
{
    match state.devices.get(device) {
        Some(def) => can_serve(def, forms) && index.count(&Tally::Printing(*device)) == 0,
        None => false,
    }
}

fn free_device(
    index: &Index,
    queue: &QueueDef,
    forms: Option<&Name>,
    state: &HostState,
) -> Option<usize>
    ensures { result ≡ free_device index.now queue.now (option_copied forms.entry) (content state.now) }
{
    queue
        .devices
        .as_slice()
        .iter()
        .position(|device| is_free_device(index, forms, state, device))
}

// Whether a device of the queue is free, whatever its forms.
fn has_free_device(index: &Index, queue: &QueueDef, state: &HostState) -> bool
    ensures { result ≡ has_free_device index.now queue.now (content state.now) }
{
    queue
        .devices
        .as_slice()
        .iter()
        .any(|device| is_free_device(index, None, state, device))
}

// Whether the queue can do something with some row, as far as that is told without one.
fn may_serve(index: &Index, queue: &QueueDef, state: &HostState) -> bool
    ensures { result ≡ may_serve queue.now.kind index.now queue.now (content state.now) }
{
    match queue.kind {
        Kind::Batch => true,
        Kind::Device => has_free_device(index, queue, state),
        Kind::Pipe => true,
    }
}

fn kind_allows(index: &Index, queue: &QueueDef, now: u64, state: &HostState, row: &Row) -> bool
    ensures { result ≡ kind_allows queue.now.kind index.now queue.now now (content state.now) row.now }
{
    match queue.kind {
        Kind::Batch => true,
        Kind::Device => free_device(index, queue, row.job.forms.as_ref(), state).is_some(),
        Kind::Pipe => row.hops == 32 || destination_in(state, queue, row, now).is_some(),
    }
}

fn is_eligible(index: &Index, queue: &QueueDef, now: u64, state: &HostState, row: &Row) -> bool
    ensures { result ≡ is_eligible index.now queue.now now (content state.now) row.now }
{
    is_waiting(queue, now, row)
        && user_allows(index, queue, &row.job.owner)
        && kind_allows(index, queue, now, state, row)
}

// The row of a request, with its place, if it may start.
fn startable<'a>(
    index: &Index,
    queue: &QueueDef,
    now: u64,
    state: &'a HostState,
    id: &RequestId,
) -> Option<(usize, &'a Row)>
    ensures { option_map (λ p. (p.0, p.1.now)) result ≡ startable index.now queue.now now (content state.now) id.now }
{
    let place = state.rows.place(id)?;
    let row = state.rows.at(place);
    if is_eligible(index, queue, now, state, row) {
        return Some((place, row));
    }
    None
}

// The first row of a line that may start, with its place.
fn first_in<'a>(
    index: &Index,
    queue: &QueueDef,
    now: u64,
    state: &'a HostState,
    line: &Line,
) -> Option<(usize, &'a Row)>
    ensures { option_map (λ p. (p.0, p.1.now)) result ≡ first_in index.now queue.now now (content state.now) line.now }
{
    let mut place = 0;
    while place < line.len() {
        let found = startable(index, queue, now, state, &line.at(place).id);
        if found.is_some() {
            return found;
        }
        place += 1;
    }
    None
}

// Whether a request that no destination has refused may be moved to this one.
fn is_open(state: &HostState, now: u64, dest: &Dest) -> bool
    ensures { result ≡ is_open now (content state.now) dest.now }
{
    state.me == dest.host || is_reachable(state, now, dest.host)
}

fn has_open_dest(queue: &QueueDef, now: u64, state: &HostState) -> bool
    ensures { result ≡ list_any (is_open now (content state.now)) queue.now.dests }
{
    queue
        .dests
        .as_slice()
        .iter()
        .any(|dest| is_open(state, now, dest))
}

// Whether a destination of the queue is open, where it is a pipe queue.
fn has_open(queue: &QueueDef, now: u64, state: &HostState) -> bool
    ensures { result ≡ has_open queue.now.kind queue.now now (content state.now) }
{
    match queue.kind {
        Kind::Batch => false,
        Kind::Device => false,
        Kind::Pipe => has_open_dest(queue, now, state),
    }
}

// Whether the queue can do something with requests of the class.
fn class_served(
    index: &Index,
    queue: &QueueDef,
    state: &HostState,
    any_open: bool,
    class: &Class,
) -> bool
    ensures { result ≡ class_served queue.now.kind index.now queue.now (content state.now) any_open class.now }
{
    match queue.kind {
        Kind::Batch => true,
        Kind::Device => free_device(index, queue, class.forms.as_ref(), state).is_some(),
        Kind::Pipe => class.far || any_open,
    }
}

// What costs least is asked first.
fn class_allows(
    index: &Index,
    queue: &QueueDef,
    now: u64,
    state: &HostState,
    any_open: bool,
    class: &Class,
) -> bool
    ensures { result ≡ class_allows index.now queue.now now (content state.now) any_open class.now }
{
    class.earliest <= now
        && user_allows(index, queue, &class.owner)
        && class_served(index, queue, state, any_open, class)
}

// The first row of a class that may start, with its place.
fn first_of<'a>(
    index: &Index,
    queue: &QueueDef,
    now: u64,
    state: &'a HostState,
    any_open: bool,
    line: &ClassLine,
) -> Option<(usize, &'a Row)>
    ensures { option_map (λ p. (p.0, p.1.now)) result ≡ first_of index.now queue.now now (content state.now) any_open line.now }
{
    if class_allows(index, queue, now, state, any_open, &line.class) {
        return first_in(index, queue, now, state, &line.line);
    }
    None
}

// Whether a row of this key comes before the best so far.
fn leads<L: Ledger>(best: Option<(usize, &Row)>, key: &Key, steps: &mut Steps<L>) -> bool
    ensures leads { result ≡ leads (option_map (λ p. (p.0, p.1.now)) best.entry) key.now }
    ensures rises { steps.old ≤ steps.new }
    ensures cost { steps.new ≤ steps.old + 1 }
{
    match best {
        Some((_, row)) => key.compare(&Key::of(row), steps).is_lt(),
        None => true,
    }
}

// The one that comes first of the best row so far and another.
fn earlier<'a, L: Ledger>(
    best: Option<(usize, &'a Row)>,
    other: Option<(usize, &'a Row)>,
    steps: &mut Steps<L>,
) -> Option<(usize, &'a Row)>
    ensures best { option_map (λ p. (p.0, p.1.now)) result
        ≡ earlier (option_map (λ p. (p.0, p.1.now)) best.entry) (option_map (λ p. (p.0, p.1.now)) other.entry) }
    ensures rises { steps.old ≤ steps.new }
    ensures cost { steps.new ≤ steps.old + 1 }
{
    match other {
        Some((place, row)) => {
            if leads(best, &Key::of(row), steps) {
                return Some((place, row));
            }
            best
        }
        None => best,
    }
}

// Whether the first entry of a line comes before the best row so far.
fn is_ahead<L: Ledger>(best: Option<(usize, &Row)>, line: &Line, steps: &mut Steps<L>) -> bool
    ensures ahead { result ≡ is_ahead (option_map (λ p. (p.0, p.1.now)) best.entry) line.now }
    ensures rises { steps.old ≤ steps.new }
    ensures cost { steps.new ≤ steps.old + 1 }
{
    if line.len() == 0 {
        return false;
    }
    leads(best, &line.at(0).key, steps)
}

// The best row, with one more class.
fn better_of<'a, L: Ledger>(
    index: &Index,
    queue: &QueueDef,
    now: u64,
    state: &'a HostState,
    any_open: bool,
    best: Option<(usize, &'a Row)>,
    line: &ClassLine,
    steps: &mut Steps<L>,
) -> Option<(usize, &'a Row)>
    ensures best { option_map (λ p. (p.0, p.1.now)) result
        ≡ better_of index.now queue.now now (content state.now) any_open (option_map (λ p. (p.0, p.1.now)) best.entry) line.now }
    ensures rises { steps.old ≤ steps.new }
    ensures cost { steps.new ≤ steps.old + 2 }
{
    if is_ahead(best, &line.line, steps) {
        let first = first_of(index, queue, now, state, any_open, line);
        return earlier(best, first, steps);
    }
    best
}

// The best row of some classes.
fn first_among<'a, L: Ledger>(
    index: &Index,
    queue: &QueueDef,
    now: u64,
    state: &'a HostState,
    any_open: bool,
    classes: &Classes,
    steps: &mut Steps<L>,
) -> Option<(usize, &'a Row)>
    ensures best { option_map (λ p. (p.0, p.1.now)) result ≡ first_among index.now queue.now now (content state.now) any_open None classes.now.items }
    ensures rises { steps.old ≤ steps.new }
    ensures cost { steps.new ≤ steps.old + 2 * length classes.now.items }
{
    let mut best: Option<(usize, &'a Row)> = None;
    let mut place = 0;
    while place < classes.len() {
        best = better_of(
            index,
            queue,
            now,
            state,
            any_open,
            best,
            classes.at(place),
            steps,
        );
        place += 1;
    }
    best
}

// The row that starts first of those of a queue that may start, with its place.
fn first_eligible<'a, L: Ledger>(
    index: &Index,
    queue: &QueueDef,
    now: u64,
    state: &'a HostState,
    steps: &mut Steps<L>,
) -> Option<(usize, &'a Row)>
    ensures row { option_map (λ p. (p.0, p.1.now)) result ≡ first_eligible index.now queue.now now (content state.now) }
    ensures rises { steps.old ≤ steps.new }
    ensures cost { steps.new ≤ steps.old + 2 * length (classes_in queue.now.name index.now) }
{
    let any_open = has_open(queue, now, state);
    first_among(
        index,
        queue,
        now,
        state,
        any_open,
        index.classes(&queue.name),
        steps,
    )
}

fn is_filled(classes: &Classes) -> bool
    ensures { result ≡ is_filled classes.now.items }
{
    0 < classes.len()
}

// Whether a class has a row that may start.
fn has_first(
    index: &Index,
    queue: &QueueDef,
    now: u64,
    state: &HostState,
    any_open: bool,
    line: &ClassLine,
) -> bool
    ensures { result ≡ has_first index.now queue.now now (content state.now) any_open line.now }
{
    first_of(index, queue, now, state, any_open, line).is_some()
}

// Whether one of the classes has a row that may start. It looks no further than the first one.
fn any_first(
    index: &Index,
    queue: &QueueDef,
    now: u64,
    state: &HostState,
    any_open: bool,
    classes: &Classes,
) -> bool
    ensures { result ≡ list_any (has_first index.now queue.now now (content state.now) any_open) classes.now.items }
{
    classes.any(|line: &ClassLine| has_first(index, queue, now, state, any_open, line))
}

fn has_eligible(
    index: &Index,
    queue: &QueueDef,
    now: u64,
    state: &HostState,
    classes: &Classes,
) -> bool
    ensures { result ≡ has_eligible index.now queue.now now (content state.now) classes.now.items }
{
    let any_open = has_open(queue, now, state);
    any_first(index, queue, now, state, any_open, classes)
}

// A queue where no row waits, at its limits, or whose devices are all busy is told before its
// classes are gone over.
fn may_start(
    index: &Index,
    batch: bool,
    now: u64,
    state: &HostState,
    queue: &QueueDef,
    classes: &Classes,
) -> bool
    ensures { result ≡ may_start index.now batch now (content state.now) queue.now classes.now.items }
{
    is_filled(classes)
        && is_within_limits(index, queue, batch, state)
        && may_serve(index, queue, state)
        && has_eligible(index, queue, now, state, classes)
}

// A queue that isn't started is told at once.
fn is_candidate(index: &Index, batch: bool, now: u64, state: &HostState, queue: &QueueDef) -> bool
    ensures { result ≡ is_candidate index.now batch now (content state.now) queue.now }
{
    queue.started && may_start(index, batch, now, state, queue, index.classes(&queue.name))
}

// What runs in batch queues is counted once, and not for each queue.
fn next_queue<'a>(index: &Index, now: u64, state: &'a HostState) -> Option<(usize, &'a QueueDef)>
    ensures { option_map (λ p. (p.0, p.1.now)) result ≡ next_queue index.now now (content state.now) }
{
    let batch = fewer_in_batch(index, state);
    state.queues.best(
        |queue: &QueueDef| is_candidate(index, batch, now, state, queue),
        |one: &QueueDef, other: &QueueDef| is_greater(one, other),
    )
}

// What is done with an eligible row.
fn choice_for(
    index: &Index,
    queue: &QueueDef,
    now: u64,
    state: &HostState,
    place: usize,
    row: &Row,
) -> Option<Choice>
    ensures { result ≡ choice_for queue.now.kind index.now queue.now now (content state.now) place row.now }
{
    match queue.kind {
        Kind::Batch => Some(Choice::Launch(place)),
        Kind::Device => print_on(
            place,
            free_device(index, queue, row.job.forms.as_ref(), state),
        ),
        Kind::Pipe => {
            if row.hops == 32 {
                return Some(Choice::TooFar(place));
            }
            move_to(state, queue, place, destination_in(state, queue, row, now))
        }
    }
}

// What is started of a queue.
fn pick_of<L: Ledger>(
    index: &Index,
    queue: &QueueDef,
    now: u64,
    state: &HostState,
    steps: &mut Steps<L>,
) -> Option<Choice>
    ensures choice { result ≡ choice_of index.now queue.now now (content state.now) (first_eligible index.now queue.now now (content state.now)) }
    ensures rises { steps.old ≤ steps.new }
    ensures cost { steps.new ≤ steps.old + 2 * length (classes_in queue.now.name index.now) }
{
    let (place, row) = first_eligible(index, queue, now, state, steps)?;
    choice_for(index, queue, now, state, place, row)
}

// What is started next, over the index.
fn picked<L: Ledger>(
    index: &Index,
    state: &HostState,
    now: u64,
    steps: &mut Steps<L>,
) -> Option<Choice>
    ensures choice { result ≡ pick index.now now (content state.now) }
    ensures rises { steps.old ≤ steps.new }
    ensures cost { PicksBy index.now now (content state.now) (steps.new - steps.old) }
{
    match next_queue(index, now, state) {
        Some((_, queue)) => pick_of(index, queue, now, state, steps),
        None => None,
    }
}

/// What is started next at a moment, in seconds since 1970, as `pick` has it, told by an index that
/// stands for the state's rows. It takes no memory, and two comparisons at most for each class of
/// the queue that starts.
pub fn pick_by<L: Ledger>(
    index: &Index,
    state: &HostState,
    now: u64,
    steps: &mut Steps<L>,
) -> Option<Choice>
    requires stands { StandsForIndex index.now state.now.rows.items }
    requires order { IsInOrder (content state.now) }
    ensures choice { result ≡ pick_of_rules now (content state.now) }
    ensures rises { steps.old ≤ steps.new }
    ensures cost { PicksBy index.now now (content state.now) (steps.new - steps.old) }
{
    picked(index, state, now, steps)
}
