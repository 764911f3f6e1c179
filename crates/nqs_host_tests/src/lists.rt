//! The lines as people see them, of a host with one of each thing.

use nqs_base::{Bytes, Items, ListOf, Memory, Name};
use nqs_builders::{add, add_row, host, queue, row};
use nqs_lists::{show_lines, stat_lines};
use nqs_state::HostState;
use nqs_types::{ComplexDef, DeviceDef, Hold, QueueDef, Row, batch};
use std::alloc::Global;
use std::rt::HostRuntime;

fn ann() -> Name {
    match Name::read(b"ann") {
        Ok(name) => name,
        Err(_) => unreachable!(),
    }
}

fn held_row(alloc: Global) -> Row {
    let mut row = row(alloc, 12, batch(), ann());
    row.job.name = batch();
    row.job.priority = 40;
    row.hold = Hold::User;
    row
}

fn stopped_queue(alloc: Global) -> QueueDef {
    let mut def = queue(alloc, batch());
    def.started = false;
    def.run_limit = 2;
    def
}

fn complex(alloc: Global) -> Result<ComplexDef, Memory> {
    let queues = ListOf::of(alloc, batch())?;
    Ok(ComplexDef {
        name: ann(),
        limit: 3,
        queues,
    })
}

fn device() -> DeviceDef {
    DeviceDef {
        name: ann(),
        forms: batch(),
        enabled: true,
    }
}

fn fill_names(alloc: Global, state: &mut HostState) -> Result<(), Memory> {
    state.site = ListOf::of(alloc, ann())?;
    state.managers = ListOf::of(alloc, ann())?;
    Ok(())
}

fn fill_queues(alloc: Global, state: &mut HostState) -> Result<(), Memory> {
    add(&mut state.queues, stopped_queue(alloc))?;
    add(&mut state.complexes, complex(alloc)?)
}

fn fill_rows(alloc: Global, state: &mut HostState) -> Result<(), Memory> {
    add(&mut state.devices, device())?;
    add_row(&mut state.rows, held_row(alloc))
}

// One of each thing.
fn fill(alloc: Global, state: &mut HostState) -> Result<(), Memory> {
    fill_names(alloc, state)?;
    fill_queues(alloc, state)?;
    fill_rows(alloc, state)
}

fn line(lines: &Items<Bytes>, place: usize) -> &[u8] {
    match lines.as_slice().get(place) {
        Some(line) => line.as_slice(),
        None => &[],
    }
}

// Whether the lines are those of the one request and of the count.
fn listed(lines: &Items<Bytes>) -> (bool, bool, usize) {
    (
        line(lines, 0) == b"12.ann batch ann batch HELD 40".as_slice(),
        line(lines, 1) == b"1 requests.".as_slice(),
        lines.len(),
    )
}

fn list(alloc: Global, state: &HostState) -> Option<(bool, bool, usize)> {
    let lines = stat_lines(alloc, state, &Some(ann()), &[batch()]);
    lines.as_ref().ok().map(listed)
}

// Whether a list of qmgr has this line.
fn shows(alloc: Global, state: &HostState, code: u8, place: usize, text: &[u8]) -> bool {
    match show_lines(alloc, state, code) {
        Ok(lines) => line(&lines, place) == text,
        Err(_) => false,
    }
}

// The number of a list of qmgr, the place of a line, and the line.
static LINES: [(u8, usize, &[u8]); 8] = [
    (48, 0, b"batch batch enabled stopped 31 2"),
    (49, 0, b"ann batch enabled free"),
    (50, 0, b"ann 3 batch"),
    (51, 0, b"ann manager"),
    (52, 0, b"global_limit 64"),
    (52, 1, b"patience 60"),
    (52, 2, b"retry_wait 300"),
    (52, 3, b"default_queue none"),
];

// The first list, and its line, that is shown otherwise.
fn wrong_line(alloc: Global, state: &HostState) -> Option<(u8, usize)> {
    for (code, place, text) in &LINES {
        if !shows(alloc, state, *code, *place, text) {
            return Some((*code, *place));
        }
    }
    None
}

// What is seen of the requests, and of the lists of qmgr.
type Seen = (Option<(bool, bool, usize)>, Option<(u8, usize)>);

fn see(alloc: Global, state: &mut HostState) -> Result<Seen, Memory> {
    fill(alloc, state)?;
    Ok((list(alloc, state), wrong_line(alloc, state)))
}

fn seen(alloc: Global) -> Result<Seen, Memory> {
    let mut state = host(alloc);
    let seen = see(alloc, &mut state);
    drop(state);
    seen
}

#[test]
fn requests_are_counted_and_each_list_is_shown(rt: HostRuntime) {
    let seen = seen(rt.alloc());
    assert_eq!(rt; seen, Ok((Some((true, true, 2)), None)));
}
