//! All reasons of a request, and how many wait before it.

ghost use Rattle.std.specs.Prelude.{◌≡◌, [], ◌∷◌, ◌++◌, map, None, Some, if◌then◌else◌, IfOk, OnOk};
ghost use Rattle.nqs_state.specs.State.{content};
ghost use Rattle.nqs_types.specs.declared.queue.Kind.TheVariants.{Batch};
ghost use Rattle.nqs_rules.specs.Find.{find_queue};
ghost use Rattle.nqs_rules.specs.Reasons.{failing, or_last, state_reason, hold_reason, own_conditions, queue_conditions, complex_condition};
ghost use Rattle.nqs_rules.specs.Reasons.{kind_conditions, next_in, keeping, reasons_of, count_before};

use crate::before::{goes_first, waits_before};
use nqs_base::{Items, Memory, Name};
use nqs_order::{complex_allows, global_allows, kind_allows, run_allows, user_allows};
use nqs_state::HostState;
use nqs_types::{ComplexDef, Hold, Kind, QueueDef, Reason, Row, RowState};
use std::alloc::Global;

fn state_reason(state: RowState) -> Reason
    ensures { result ≡ state_reason state }
{
    match state {
        RowState::Running => Reason::Runs,
        _ => Reason::OnItsWay,
    }
}

fn hold_reason(hold: Hold) -> Reason
    ensures { result ≡ hold_reason hold }
{
    match hold {
        Hold::System => Reason::HeldBySystem,
        _ => Reason::HeldByUser,
    }
}

// That nothing stands in the way but the order.
fn next_in(state: &HostState, queue: &QueueDef, row: &Row, now: u64) -> Reason
    ensures { result ≡ next_in queue.now now (content state.now) row.now }
{
    let count = state
        .rows
        .count(|other: &Row| goes_first(state, queue, now, row, other));
    Reason::Next(count as u64)
}

// A reason, unless the condition holds whose reason it is.
fn unless(holds: bool, reason: Reason) -> Option<Reason>
    ensures { result ≡ if holds then None else Some reason }
{
    if holds { None } else { Some(reason) }
}

// Adds a reason, unless the condition holds whose reason it is.
fn add_unless(holds: bool, reason: Reason, reasons: &mut Items<Reason>) -> Result<(), Memory>
    ensures { OnOk result (reasons.new ≡ reasons.old ++ failing ((holds, reason) ∷ [])) }
{
    // What a reason is made of, which the check of loans is to know by name here.
    let _forms: Option<Name> = None;
    match unless(holds, reason) {
        Some(told) => Ok(reasons.push(told)?),
        None => Ok(()),
    }
}

// Adds who holds the row, and that it is too early.
fn add_own(row: &Row, now: u64, reasons: &mut Items<Reason>) -> Result<(), Memory>
    ensures { OnOk result (reasons.new ≡ reasons.old ++ failing (own_conditions now row.now)) }
{
    add_unless(row.hold == Hold::No, hold_reason(row.hold), reasons)?;
    let earliest = row.job.earliest;
    add_unless(earliest <= now, Reason::NotBefore(earliest), reasons)
}

// Adds that the queue is stopped, and its limits that are reached.
fn add_limits(
    state: &HostState,
    queue: &QueueDef,
    row: &Row,
    reasons: &mut Items<Reason>,
) -> Result<(), Memory>
    ensures { OnOk result (reasons.new ≡ reasons.old ++ failing (queue_conditions queue.now (content state.now) row.now)) }
{
    add_unless(queue.started, Reason::QueueStopped, reasons)?;
    let user = user_allows(state, queue, &row.job.owner);
    let limit = queue.user_limit.unwrap_or(0);
    add_unless(user, Reason::UserLimit(limit), reasons)?;
    let run = run_allows(state, queue);
    add_unless(run, Reason::RunLimit(queue.run_limit), reasons)
}

// Adds the limit of a complex, if it is reached and the queue is of it.
fn add_complex(
    state: &HostState,
    queue: &QueueDef,
    complex: &ComplexDef,
    reasons: &mut Items<Reason>,
) -> Result<(), Memory>
    ensures { OnOk result (reasons.new ≡ reasons.old ++ failing (complex_condition queue.now (content state.now) complex.now ∷ [])) }
{
    let allows = complex_allows(state, &queue.name, complex);
    let reason = Reason::ComplexLimit(complex.name, complex.limit);
    add_unless(allows, reason, reasons)
}

// Adds the limits of complexes that are reached, in order of creation.
fn add_complexes(
    state: &HostState,
    queue: &QueueDef,
    reasons: &mut Items<Reason>,
) -> Result<(), Memory>
    ensures { OnOk result (reasons.new
        ≡ reasons.old ++ failing (map (complex_condition queue.now (content state.now)) state.now.complexes.items)) }
{
    for place in 0..state.complexes.len() {
        let complex = state.complexes.at(place);
        add_complex(state, queue, complex, reasons)?;
    }
    Ok(())
}

// Adds the limits of complexes and of the host.
fn add_batch(
    state: &HostState,
    queue: &QueueDef,
    row: &Row,
    now: u64,
    reasons: &mut Items<Reason>,
) -> Result<(), Memory>
    ensures { OnOk result (reasons.new ≡ reasons.old ++ failing (kind_conditions Batch queue.now now (content state.now) row.now)) }
{
    add_complexes(state, queue, reasons)?;
    let global = global_allows(state);
    add_unless(global, Reason::GlobalLimit(state.global_limit), reasons)
}

// Adds a reason, unless the queue can do something with the row.
fn add_of_kind(
    state: &HostState,
    queue: &QueueDef,
    row: &Row,
    now: u64,
    reasons: &mut Items<Reason>,
) -> Result<(), Memory>
    ensures { OnOk result (reasons.new ≡ reasons.old ++ failing (kind_conditions queue.now.kind queue.now now (content state.now) row.now)) }
{
    match queue.kind {
        Kind::Batch => add_batch(state, queue, row, now, reasons),
        Kind::Device => {
            let free = kind_allows(state, queue, now, row);
            add_unless(free, Reason::NoDevice(row.job.forms), reasons)
        }
        Kind::Pipe => {
            let free = kind_allows(state, queue, now, row);
            add_unless(free, Reason::NoDestination, reasons)
        }
    }
}

// Adds what of the queue keeps the row; and where nothing does, how many go first.
fn add_of_queue(
    state: &HostState,
    queue: &QueueDef,
    row: &Row,
    now: u64,
    reasons: &mut Items<Reason>,
) -> Result<(), Memory>
    ensures { let s = content state.now in
        let conditions = queue_conditions queue.now s row.now ++ kind_conditions queue.now.kind queue.now now s row.now in
        OnOk result (reasons.new ≡ or_last (reasons.old ++ failing conditions) (next_in queue.now now s row.now)) }
{
    add_limits(state, queue, row, reasons)?;
    add_of_kind(state, queue, row, now, reasons)?;
    if reasons.len() != 0 {
        return Ok(());
    }
    add_unless(false, next_in(state, queue, row, now), reasons)
}

// All that keeps a row that waits.
fn keeping(alloc: Global, state: &HostState, row: &Row, now: u64) -> Result<Items<Reason>, Memory>
    ensures { let s = content state.now in IfOk result (λ told. told ≡ keeping (find_queue row.now.queue s) now s row.now) }
{
    let mut reasons = Items::new(alloc);
    add_own(row, now, &mut reasons)?;
    match state.queues.get(&row.queue) {
        Some(queue) => add_of_queue(state, queue, row, now, &mut reasons)?,
        None => add_unless(false, Reason::NoQueue, &mut reasons)?,
    }
    Ok(reasons)
}

/// Why a request of the host doesn't start at a moment, in seconds since 1970: each condition of
/// the scheduler's rule that fails, in the order of `Reason`. There is one at least, and just one
/// for a request that runs, is on its way or is next. It fails for want of memory alone.
pub fn reasons(
    alloc: Global,
    state: &HostState,
    row: &Row,
    now: u64,
) -> Result<Items<Reason>, Memory>
    ensures { IfOk result (λ told. told ≡ reasons_of now (content state.now) row.now) }
{
    if row.state == RowState::Queued {
        return keeping(alloc, state, row, now);
    }
    let mut reasons = Items::new(alloc);
    add_unless(false, state_reason(row.state), &mut reasons)?;
    Ok(reasons)
}

/// How many requests wait in the queue of a request before it, in the order in which they start:
/// those that are queued and not held, and whose earliest start has come at this moment, in seconds
/// since 1970. Whether anything else hinders them isn't looked at. It takes no memory.
pub fn count_before(state: &HostState, row: &Row, now: u64) -> u64
    ensures { result ≡ count_before now (content state.now) row.now }
{
    let count = state
        .rows
        .count(|other: &Row| waits_before(now, row, other));
    count as u64
}
