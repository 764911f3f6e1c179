//! The lines of a queue in an index: requests of a class in the order in which they start, whatever
//! the order in which they came in, without one that is held, and without one that left; a line for
//! each class; and that the requests of a host keep such an index, whatever is done to them.

use crate::counted::{enter, leave};
use nqs_base::{Memory, Name};
use nqs_builders::{add_row, row};
use nqs_index::{Index, Line, Seat};
use nqs_state::{Indexed, Rows};
use nqs_types::{Hold, HostId, RequestId, Row};
use std::alloc::Global;
use std::rt::HostRuntime;

fn jobs() -> Name {
    match Name::read(b"jobs") {
        Ok(name) => name,
        Err(_) => unreachable!(),
    }
}

// The seat of a request whose number is its arrival.
fn seat(alloc: Global, priority: u8, arrival: u32, hold: Hold) -> Seat {
    let mut row = row(alloc, arrival, jobs(), jobs());
    row.job.priority = priority;
    row.arrival = u64::from(arrival);
    row.hold = hold;
    Seat::of(&row)
}

// The number of the request at a place of a line, or 0 where there is none.
fn number_at(line: &Line, place: usize) -> u32 {
    if place < line.len() {
        line.at(place).id.seq
    } else {
        0
    }
}

fn four_of(line: &Line) -> [u32; 4] {
    [
        number_at(line, 0),
        number_at(line, 1),
        number_at(line, 2),
        number_at(line, 3),
    ]
}

// The first four numbers of the line of `jobs`, whose requests are all of one class.
fn numbers(index: &Index) -> [u32; 4] {
    let classes = index.classes(&jobs());
    if classes.len() == 1 {
        return four_of(&classes.at(0).line);
    }
    [0; 4]
}

// Priorities 5, 63 and 63 with arrivals 1, 3 and 2, and one that is held.
fn four_enter(alloc: Global, index: &mut Index) -> Result<(), Memory> {
    enter(index, &seat(alloc, 5, 1, Hold::No))?;
    enter(index, &seat(alloc, 63, 3, Hold::No))?;
    enter(index, &seat(alloc, 63, 2, Hold::No))?;
    enter(index, &seat(alloc, 63, 4, Hold::User))
}

#[test]
fn greater_priorities_first_and_then_earlier_arrivals(rt: HostRuntime) {
    let alloc = rt.alloc();
    let mut index = Index::empty(alloc);
    let entered = four_enter(alloc, &mut index).is_ok();
    let whole = numbers(&index);
    leave(&mut index, &seat(alloc, 63, 3, Hold::No));
    let left = numbers(&index);
    drop(index);
    assert_eq!(rt; (entered, whole, left), (true, [2, 3, 1, 0], [2, 1, 0, 0]));
}

fn earlier(alloc: Global, arrival: u32, earliest: u64) -> Seat {
    let mut row = row(alloc, arrival, jobs(), jobs());
    row.job.earliest = earliest;
    row.arrival = u64::from(arrival);
    Seat::of(&row)
}

// Two of one class around one of another.
fn three_enter(alloc: Global, index: &mut Index) -> Result<(), Memory> {
    enter(index, &earlier(alloc, 1, 7))?;
    enter(index, &earlier(alloc, 2, 8))?;
    enter(index, &earlier(alloc, 3, 7))
}

// How many requests wait in each of the first two classes of `jobs`.
fn lengths(index: &Index) -> [usize; 2] {
    let classes = index.classes(&jobs());
    let mut lengths = [0; 2];
    for place in 0..2 {
        if place < classes.len() {
            lengths[place] = classes.at(place).line.len();
        }
    }
    lengths
}

#[test]
fn a_class_lasts_as_long_as_a_request_of_it_waits(rt: HostRuntime) {
    let alloc = rt.alloc();
    let mut index = Index::empty(alloc);
    let entered = three_enter(alloc, &mut index).is_ok();
    let whole = lengths(&index);
    leave(&mut index, &earlier(alloc, 1, 7));
    let fewer = lengths(&index);
    leave(&mut index, &earlier(alloc, 3, 7));
    let left = lengths(&index);
    drop(index);
    assert_eq!(rt;
        (entered, whole, fewer, left),
        (true, [2, 1], [1, 1], [1, 0])
    );
}

// The line of `jobs` in the index that rows keep; where it isn't there, nines.
fn kept(rows: &Rows) -> [u32; 4] {
    match rows.index() {
        Indexed::There(index) => numbers(index),
        _ => [9; 4],
    }
}

fn two_come(alloc: Global, rows: &mut Rows) -> Result<(), Memory> {
    add_row(rows, row(alloc, 1, jobs(), jobs()))?;
    add_row(rows, row(alloc, 2, jobs(), jobs()))
}

fn request(seq: u32) -> RequestId {
    RequestId {
        seq,
        host: HostId(0),
    }
}

// The lines when the first is held, when nothing is held any more, and when the second has gone.
fn lines_then(rows: &mut Rows) -> [[u32; 4]; 3] {
    rows.change(&request(1), |row: &mut Row| row.hold = Hold::User);
    let held = kept(rows);
    rows.revise(|_id: &RequestId, row: &mut Row| {
        row.hold = Hold::No;
        true
    });
    let released = kept(rows);
    rows.remove_key(&request(2));
    [held, released, kept(rows)]
}

#[test]
fn rows_keep_an_index(rt: HostRuntime) {
    let alloc = rt.alloc();
    let mut rows = Rows::new(alloc);
    let come = two_come(alloc, &mut rows).is_ok();
    let both = kept(&rows);
    let then = lines_then(&mut rows);
    drop(rows);
    assert_eq!(rt; (come, both), (true, [1, 2, 0, 0]));
    assert_eq!(rt; then, [[2, 0, 0, 0], [1, 2, 0, 0], [1, 0, 0, 0]]);
}
