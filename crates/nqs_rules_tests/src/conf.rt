//! The refusals of edits of queues in their order, by hand.

use nqs_base::{ListOf, Memory, Name};
use nqs_builders::{add, add_row, host, queue, row};
use nqs_conf::check_conf;
use nqs_state::HostState;
use nqs_types::{ConfEdit, Dest, HostId, Kind, NamedDest, QueueDef, Refusal};
use std::alloc::Global;
use std::test::Fail;

fn lead(alloc: Global, road: &mut QueueDef, to: Name) -> Result<(), Memory> {
    road.kind = Kind::Pipe;
    road.dests = ListOf::of(
        alloc,
        Dest {
            queue: to,
            host: HostId(0),
        },
    )?;
    Ok(())
}

// A pipe queue that leads to a queue of the first host.
fn pipe(alloc: Global, name: Name, to: Name) -> Result<QueueDef, Memory> {
    let mut road = queue(alloc, name);
    lead(alloc, &mut road, to)?;
    Ok(road)
}

// On the first of these two hosts a queue with a request, and a pipe queue that leads to it.
fn fill(
    alloc: Global,
    state: &mut HostState,
    site: [Name; 2],
    queues: [Name; 2],
) -> Result<(), Memory> {
    let [used, road] = queues;
    state.site = ListOf::from_vec(site.to_vec(alloc)?);
    add(&mut state.queues, queue(alloc, used))?;
    add(&mut state.queues, pipe(alloc, road, used)?)?;
    add_row(&mut state.rows, row(alloc, 1, used, used))
}

fn create(queue: Name, host: Name) -> ConfEdit {
    ConfEdit::CreatePipeQueue {
        queue,
        priority: None,
        run_limit: None,
        pipe_only: false,
        destination: Some(NamedDest { queue, host }),
    }
}

fn add_to(to: Name, host: Name, queue: Name) -> ConfEdit {
    let destination = NamedDest { queue: to, host };
    ConfEdit::AddDestination { destination, queue }
}

fn remove(to: Name, host: Name, queue: Name) -> ConfEdit {
    let destination = NamedDest { queue: to, host };
    ConfEdit::RemoveDestination { destination, queue }
}

fn first(to: Name, host: Name, queue: Name) -> ConfEdit {
    let destination = NamedDest { queue: to, host };
    ConfEdit::FirstDestination { destination, queue }
}

fn delete(queue: Name) -> ConfEdit {
    ConfEdit::DeleteQueue { queue }
}

// An edit and its answer.
type Case = (ConfEdit, Result<(), Refusal>);

// The answer of a host that is no larger than the call wants it.
fn answer(state: &HostState, edit: &ConfEdit) -> Option<Result<(), Refusal>> {
    if state.site.len() > 16 {
        return None;
    }
    if state.rows.len() > 5_000 {
        return None;
    }
    if state.promises.len() > 5_000 {
        return None;
    }
    Some(check_conf(state, edit))
}

// The first case that is answered otherwise.
fn wrong_edit(state: &HostState, cases: &[Case]) -> Option<usize> {
    for (place, (edit, wanted)) in cases.iter().enumerate() {
        if answer(state, edit) != Some(*wanted) {
            return Some(place);
        }
    }
    None
}

// The same, of the host with these two queues.
fn wrong_at(
    alloc: Global,
    state: &mut HostState,
    site: [Name; 2],
    queues: [Name; 2],
    cases: &[Case],
) -> Result<Option<usize>, Memory> {
    fill(alloc, state, site, queues)?;
    Ok(wrong_edit(state, cases))
}

#[test]
fn refused_edits(rt: HostRuntime) -> Result<(), Fail> {
    let (used, road, long) = (
        Name::read(b"used")?,
        Name::read(b"road")?,
        Name::read(b"long")?,
    );
    let (h1, h2, h9) = (Name::read(b"h1")?, Name::read(b"h2")?, Name::read(b"h9")?);
    let cases = [
        (create(long, h1), Ok(())),
        (create(used, h9), Err(Refusal::NoHost(h9))),
        (create(used, h1), Err(Refusal::QueueExists(used))),
        (delete(used), Err(Refusal::QueueInUse(used, 1))),
        (delete(road), Ok(())),
        (add_to(used, h9, long), Err(Refusal::NoQueue(long))),
        (add_to(used, h9, used), Err(Refusal::NoHost(h9))),
        (add_to(used, h2, used), Err(Refusal::WrongKind)),
        (add_to(used, h1, road), Err(Refusal::DestExists)),
        (add_to(used, h2, road), Ok(())),
        (remove(used, h9, used), Err(Refusal::WrongKind)),
        (remove(used, h2, road), Err(Refusal::NoDest)),
        (remove(used, h1, road), Ok(())),
        (first(used, h1, long), Err(Refusal::NoQueue(long))),
        (first(used, h1, used), Err(Refusal::WrongKind)),
        (first(used, h2, road), Err(Refusal::NoDest)),
        (first(used, h9, road), Err(Refusal::NoDest)),
        (first(used, h1, road), Ok(())),
    ];
    let alloc = rt.alloc();
    let mut state = host(alloc);
    let wrong = wrong_at(alloc, &mut state, [h1, h2], [used, road], &cases);
    drop(state);
    assert_eq!(rt; wrong, Ok(None));
    Ok(())
}
