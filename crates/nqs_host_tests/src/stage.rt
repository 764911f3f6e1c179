//! The end of a job with two outputs for one file, on a host that has a stage to another host and a
//! file that wasn't written.

use nqs_base::{Bytes, Extent, Items, ListOf, Memory, Name};
use nqs_builders::{add, host, peer, row, text};
use nqs_stage::on_end;
use nqs_state::HostState;
use nqs_types::{Body, Change, FileOut, HostId, Output, Plan, Row, RowState, Stage};
use std::alloc::Global;
use std::rt::HostRuntime;

const BETA: HostId = HostId(1);

const EXTENT: Extent = Extent {
    place: 7,
    length: 4,
};

fn name() -> Name {
    match Name::read(b"plot") {
        Ok(name) => name,
        Err(_) => unreachable!(),
    }
}

// A running request whose outputs are one.
fn running(alloc: Global, out: Bytes) -> Row {
    let mut row = row(alloc, 1, name(), name());
    row.job.out = out;
    row.job.join = true;
    row.state = RowState::Running;
    row.starts = 1;
    row.script = EXTENT;
    row
}

fn stage(path: Bytes) -> Stage {
    Stage {
        peer: BETA,
        number: 2,
        path,
        bytes: EXTENT,
    }
}

fn file(path: Bytes) -> FileOut {
    FileOut {
        number: 5,
        path,
        bytes: EXTENT,
    }
}

// A host that knows another one, with a stage to it, and a file that wasn't written.
fn fill(alloc: Global, state: &mut HostState) -> Result<(), Memory> {
    state.site = ListOf::from_vec([name(), name()].to_vec(alloc)?);
    state.peers.push(peer(alloc, 1, 3))?;
    state.peers.push(peer(alloc, 1, 3))?;
    add(&mut state.stages, stage(text(alloc, b"o.1")?))?;
    add(&mut state.files, file(text(alloc, b"o.2")?))?;
    state.seq = 8;
    state.arrivals = 8;
    state.file_next = 6;
    Ok(())
}

// What went out: its kind, the number of a file or a stage or the exit status, and its bytes.
type Sent = (&'static str, u64, Option<Name>);

// The change, the first bytes that are stored, and what goes out first and second.
type Answers = (&'static str, Option<Name>, Sent, Sent);

// Bytes that are a name, as those of this test are.
fn word(bytes: &Bytes) -> Option<Name> {
    Name::read(bytes.as_slice()).ok()
}

fn first(items: &Items<Bytes>) -> Option<Name> {
    match items.as_slice().first() {
        Some(bytes) => word(bytes),
        None => None,
    }
}

fn sent(body: &Body) -> Sent {
    match body {
        Body::Stage { number, bytes, .. } => ("stage", *number, word(bytes)),
        Body::Staged { number } => ("staged", *number, None),
        _ => ("another", 0, None),
    }
}

fn output(plan: &Plan, place: usize) -> Sent {
    match plan.outputs.as_slice().get(place) {
        Some(Output::File { file, bytes, .. }) => ("file", *file, word(bytes)),
        Some(Output::Send(message)) => sent(&message.body),
        Some(Output::Ended { status, .. }) => ("ended", u64::from(*status), None),
        _ => ("another", 0, None),
    }
}

fn change(plan: &Plan) -> &'static str {
    match &plan.change {
        Some(Change::Ended { .. }) => "ended",
        Some(Change::StageGot { .. }) => "got",
        Some(Change::StageGone { .. }) => "gone",
        Some(_) => "another",
        None => "nothing",
    }
}

fn answers(plan: &Plan) -> Answers {
    (
        change(plan),
        first(&plan.puts),
        output(plan, 0),
        output(plan, 1),
    )
}

// What the end of a job with exit status 4 answers.
fn ended(alloc: Global, state: &HostState, row: &Row, out: &Bytes, err: &Bytes) -> Option<Answers> {
    match on_end(alloc, state, row, 4, out, err) {
        Ok(plan) => Some(answers(&plan)),
        Err(_) => None,
    }
}

// The same, of a job that wrote these to one path.
fn ended_at(
    alloc: Global,
    state: &HostState,
    path: Bytes,
    out: &Bytes,
    err: &Bytes,
) -> Option<Answers> {
    let row = running(alloc, path);
    ended(alloc, state, &row, out, err)
}

fn ended_there(alloc: Global, state: &mut HostState) -> Result<Option<Answers>, Memory> {
    fill(alloc, state)?;
    let path = text(alloc, b"o.1")?;
    let out = text(alloc, b"done")?;
    let err = text(alloc, b"late")?;
    Ok(ended_at(alloc, state, path, &out, &err))
}

#[test]
fn outputs_are_one_file(rt: HostRuntime) {
    let alloc = rt.alloc();
    let mut state = host(alloc);
    let answers = ended_there(alloc, &mut state);
    drop(state);
    let both = Name::read(b"donelate").ok();
    let wanted = ("ended", both, ("ended", 4, None), ("file", 6, both));
    assert_eq!(rt; (both.is_some(), answers), (true, Ok(Some(wanted))));
}
