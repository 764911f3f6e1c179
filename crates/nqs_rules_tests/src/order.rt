//! Which request starts next: by priority and arrival, and beside one that is held and one that is
//! on its way.

use crate::counted::pick;
use nqs_base::{Memory, Name};
use nqs_base_tables::Table;
use nqs_builders::{add, add_row, host, queue, row};
use nqs_order::{first_eligible, within_limits};
use nqs_state::{HostState, Rows};
use nqs_types::{Choice, Hold, QueueDef, Row, RowState};
use std::alloc::Global;
use std::rt::HostRuntime;

fn low() -> Name {
    match Name::read(b"low") {
        Ok(name) => name,
        Err(_) => unreachable!(),
    }
}

fn jobs() -> Name {
    match Name::read(b"jobs") {
        Ok(name) => name,
        Err(_) => unreachable!(),
    }
}

fn ranked_queue(alloc: Global, name: Name, priority: u8) -> QueueDef {
    let mut def = queue(alloc, name);
    def.priority = priority;
    def
}

// A request whose number is its arrival, for the second 100.
fn ranked(alloc: Global, queue: Name, priority: u8, arrival: u32) -> Row {
    let mut row = row(alloc, arrival, queue, low());
    row.job.priority = priority;
    row.job.earliest = 100;
    row.arrival = u64::from(arrival);
    row
}

fn held(mut row: Row) -> Row {
    row.hold = Hold::User;
    row
}

fn routing(mut row: Row) -> Row {
    row.state = RowState::Routing;
    row
}

// The queue `low`, and the queue `jobs` of greater priority.
fn fill_queues(alloc: Global, queues: &mut Table<Name, QueueDef>) -> Result<(), Memory> {
    add(queues, ranked_queue(alloc, low(), 10))?;
    add(queues, ranked_queue(alloc, jobs(), 20))
}

fn four_ranked(alloc: Global, rows: &mut Rows) -> Result<(), Memory> {
    add_row(rows, ranked(alloc, low(), 63, 1))?;
    add_row(rows, ranked(alloc, jobs(), 5, 2))?;
    add_row(rows, ranked(alloc, jobs(), 7, 4))?;
    add_row(rows, ranked(alloc, jobs(), 7, 3))
}

// The first is held, and the second is on its way.
fn two_stuck(alloc: Global, rows: &mut Rows) -> Result<(), Memory> {
    add_row(rows, held(ranked(alloc, low(), 63, 1)))?;
    add_row(rows, routing(ranked(alloc, jobs(), 63, 2)))?;
    add_row(rows, ranked(alloc, jobs(), 63, 3))?;
    add_row(rows, ranked(alloc, low(), 1, 4))
}

// The choices of a second before any request may start and of that second, and the first of each of
// two queues.
type Answers = ([Option<Choice>; 2], [Option<usize>; 2]);

fn of_four(alloc: Global, state: &mut HostState) -> Result<Answers, Memory> {
    fill_queues(alloc, &mut state.queues)?;
    four_ranked(alloc, &mut state.rows)?;
    Ok((
        [pick(state, 99), pick(state, 100)],
        [first_eligible(state, 0, 100), first_eligible(state, 2, 100)],
    ))
}

#[test]
fn by_priority_and_arrival(rt: HostRuntime) {
    let alloc = rt.alloc();
    let mut state = host(alloc);
    let answers = of_four(alloc, &mut state);
    drop(state);
    let wanted = ([None, Some(Choice::Launch(3))], [Some(0), None]);
    assert_eq!(rt; answers, Ok(wanted));
}

// Whether each queue is within its limits, and the choice.
fn of_stuck(alloc: Global, state: &mut HostState) -> Result<([bool; 2], Option<Choice>), Memory> {
    fill_queues(alloc, &mut state.queues)?;
    two_stuck(alloc, &mut state.rows)?;
    let within = [within_limits(state, 0), within_limits(state, 1)];
    Ok((within, pick(state, 100)))
}

#[test]
fn beside_a_held_and_a_routing_row(rt: HostRuntime) {
    let alloc = rt.alloc();
    let mut state = host(alloc);
    let answers = of_stuck(alloc, &mut state);
    drop(state);
    assert_eq!(rt; answers, Ok(([true, false], Some(Choice::Launch(3)))));
}
