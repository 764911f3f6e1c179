//! What a host starts.
ghost use Rattle.std.specs.Prelude.{◌≡◌, ◌+◌, ◌<◌, ◌^◌, ◌++◌, IfOk};
ghost use Rattle.std.specs.Option.{option_map, option_copied};
ghost use Rattle.nqs_state.specs.State.{content};
ghost use Rattle.nqs_rules.specs.Causes.{first_refusal};
ghost use Rattle.nqs_rules.specs.InOrder.{IsInOrder};
ghost use Rattle.nqs_rules.specs.Handover.{open_hand};
ghost use Rattle.nqs_rules.specs.Order.{pick};
ghost use Rattle.nqs_rules.specs.Picked.{row_place};
ghost use Rattle.nqs_rules.specs.Rows.{move_entry_causes};
ghost use Rattle.nqs_rules.specs.Start.{limits_of, order_of, launching, printing, local_causes, moving, device_at, dest_at, start};
ghost use Rattle.nqs_rules.specs.Stepped.{plan_of};
ghost use Rattle.nqs_step.specs.Started.{used_causes, started_row};

use nqs_base::{ListOf, Memory, Name};
use nqs_handover::{dest_at, offer_row};
use nqs_order::{Steps, pick_next};
use nqs_plans::{add_kept, change_alone, refusal_number};
use nqs_rows::{check_arrivals, check_job};
use nqs_state::HostState;
use nqs_types::{
    Change, Choice, Dest, Entry, LaunchOrder, Limits, Output, Plan, QueueDef, Refusal, Row,
};
use std::alloc::Global;
use std::marker::Brand;
use std::sync::ledger::{Blank, Ledger};

// The request's limits, and where it states none the queue's.
fn limits_of(limits: Limits, queue: Option<&QueueDef>) -> Limits
    ensures { result ≡ limits_of limits (option_copied queue.entry) }
{
    match queue {
        None => limits,
        Some(queue) => Limits {
            cpu: limits.cpu.or(queue.limits.cpu),
            memory: limits.memory.or(queue.limits.memory),
        },
    }
}

fn order_of(state: &HostState, row: &Row) -> LaunchOrder
    requires { row.now.starts + 1 < 2 ^ 16 }
    ensures { result ≡ order_of row.now (content state.now) }
{
    LaunchOrder {
        id: row.id,
        start: row.starts + 1,
        name: row.job.name,
        owner: row.job.owner,
        queue: row.queue,
        limits: limits_of(row.job.limits, state.queues.get(&row.queue)),
    }
}

// The row's job is launched.
fn launch(alloc: Global, state: &HostState, row: &Row) -> Result<Plan, Memory>
    requires { row.now.starts + 1 < 2 ^ 16 }
    ensures { IfOk result (λ plan. plan ≡ plan_of (launching row.now (content state.now))) }
{
    let started = Change::Started {
        id: row.id,
        device: None,
    };
    let output = Output::Launch {
        order: order_of(state, row),
        script: ListOf::new(alloc),
    };
    add_kept(change_alone(alloc, started), output, row.script)
}

// The row's script is printed on a device.
fn print(alloc: Global, state: &HostState, row: &Row, device: Name) -> Result<Plan, Memory>
    requires { row.now.starts + 1 < 2 ^ 16 }
    ensures { IfOk result (λ plan. plan ≡ plan_of (printing device row.now (content state.now))) }
{
    let started = Change::Started {
        id: row.id,
        device: Some(device),
    };
    let output = Output::Print {
        device,
        order: order_of(state, row),
        script: ListOf::new(alloc),
    };
    add_kept(change_alone(alloc, started), output, row.script)
}

// The row's script is printed on the device at a place of its queue's list.
fn print_at(
    alloc: Global,
    state: &HostState,
    row: &Row,
    place: usize,
) -> Result<Option<Plan>, Memory>
    requires { row.now.starts + 1 < 2 ^ 16 }
    ensures { IfOk result (λ plan. plan ≡ option_map plan_of (option_map (λ d. printing d row.now (content state.now))
        (device_at place row.now (content state.now)))) }
{
    match device_at(state, row, place) {
        Some(device) => Ok(Some(print(alloc, state, row, *device)?)),
        None => Ok(None),
    }
}

// The device at a place of the list of the row's queue.
fn device_at<'a>(state: &'a HostState, row: &Row, place: usize) -> Option<&'a Name>
    ensures { option_copied result ≡ device_at place row.now (content state.now) }
{
    match state.queues.get(&row.queue) {
        Some(queue) => queue.devices.as_slice().get(place),
        None => None,
    }
}

// The way of the row into a queue of this host.
fn check_found(state: &HostState, queue: &QueueDef, row: &Row) -> Result<(), Refusal>
    ensures { result ≡ first_refusal (move_entry_causes row.now queue.now ++ used_causes (content state.now)) }
{
    check_job(queue, &row.job, Entry::FromPipe)?;
    check_arrivals(state)
}

// Whether a queue of this host takes the row, or why not.
fn check_local(state: &HostState, queue: &Name, row: &Row) -> Result<(), Refusal>
    ensures { result ≡ first_refusal (local_causes queue.now (content state.now) row.now) }
{
    match state.queues.get(queue) {
        Some(def) => check_found(state, def, row),
        None => Err(Refusal::NoQueue(*queue)),
    }
}

// The row is moved to a queue of this host, or the refusal is noted.
fn move_row(alloc: Global, state: &HostState, row: &Row, dest: &Dest) -> Plan
    ensures { result ≡ plan_of (moving dest.now (content state.now) row.now) }
{
    let id = row.id;
    let queue = dest.queue;
    match check_local(state, &queue, row) {
        Ok(()) => change_alone(alloc, Change::MovedLocal { id, queue }),
        Err(refusal) => {
            let cause = refusal_number(&refusal);
            change_alone(alloc, Change::RefusedLocal { id, queue, cause })
        }
    }
}

// The row is moved to the destination at a place of its queue's list, on this host.
fn move_to(alloc: Global, state: &HostState, row: &Row, place: usize) -> Option<Plan>
    ensures { result ≡ option_map plan_of (option_map (λ d. moving d (content state.now) row.now) (dest_at place row.now (content state.now))) }
{
    match dest_at(state, row, place) {
        Some(dest) => Some(move_row(alloc, state, row, dest)),
        None => None,
    }
}

// The row is offered to the destination at a place of its queue's list, on another host.
fn offer_to(
    alloc: Global,
    state: &HostState,
    row: &Row,
    place: usize,
    now: u64,
) -> Result<Option<Plan>, Memory>
    requires { row.now.hops < 255 }
    ensures { IfOk result (λ plan. plan ≡ option_map plan_of (option_map (λ d. open_hand d now (content state.now) row.now)
        (dest_at place row.now (content state.now)))) }
{
    match dest_at(state, row, place) {
        Some(dest) => Ok(Some(offer_row(alloc, state, row, dest, now)?)),
        None => Ok(None),
    }
}

// What is done with the row of a choice.
fn start_row(
    alloc: Global,
    state: &HostState,
    choice: Choice,
    row: &Row,
    now: u64,
) -> Result<Option<Plan>, Memory>
    requires starts { row.now.starts + 1 < 2 ^ 16 }
    requires hops { row.now.hops < 255 }
    ensures { IfOk result (λ plan. plan ≡ option_map plan_of (started_row choice now (content state.now) row.now)) }
{
    match choice {
        Choice::Launch(_) => Ok(Some(launch(alloc, state, row)?)),
        Choice::Print(_, device) => print_at(alloc, state, row, device),
        Choice::TooFar(_) => Ok(Some(change_alone(alloc, Change::HeldFar(row.id)))),
        Choice::Local(_, dest) => Ok(move_to(alloc, state, row, dest)),
        Choice::Hand(_, dest) => offer_to(alloc, state, row, dest, now),
    }
}

// The place of the row of a choice.
fn row_place(choice: Choice) -> usize
    ensures { result ≡ row_place choice }
{
    match choice {
        Choice::Launch(row) => row,
        Choice::Print(row, _) => row,
        Choice::TooFar(row) => row,
        Choice::Local(row, _) => row,
        Choice::Hand(row, _) => row,
    }
}

fn counted_choice<L: Ledger>(state: &HostState, now: u64, blank: Blank) -> Option<Choice>
    requires order { IsInOrder (content state.now) }
    requires name { blank.name ≡ L.name }
    requires parts { blank.parts ≡ L.parts }
    requires some { 0 < L.parts }
    ensures { result ≡ pick now (content state.now) }
{
    let mut steps = Steps::<L>::new(blank);
    let (choice, _) = pick_next(state, now, &mut steps);
    choice
}

// What is started next, of which nobody counts the comparisons.
fn next_choice(state: &HostState, now: u64) -> Option<Choice>
    requires { IsInOrder (content state.now) }
    ensures { result ≡ pick now (content state.now) }
{
    counted_choice::<Brand>(state, now, Blank::new(1))
}

/// What the host starts at a moment, in seconds since 1970, if anything: the plan of what is
/// picked.
pub fn start(alloc: Global, state: &HostState, now: u64) -> Result<Option<Plan>, Memory>
    requires { IsInOrder (content state.now) }
    ensures { IfOk result (λ plan. plan ≡ option_map plan_of (start now (content state.now))) }
{
    let Some(choice) = next_choice(state, now) else {
        return Ok(None);
    };
    match state.rows.get_at(row_place(choice)) {
        Some(row) => start_row(alloc, state, choice, row, now),
        None => Ok(None),
    }
}
