//! The refusals of submissions and deletions in their order, by hand.

use nqs_base::{ListOf, Memory, Name};
use nqs_base_tables::Table;
use nqs_builders::{add, add_row, host, job, queue, row};
use nqs_rows::{check_delete, check_submit};
use nqs_state::{HostState, Rows};
use nqs_types::{HostId, Named, QueueDef, Refusal, RequestId, Row, RowState, Submission};
use std::alloc::Global;
use std::test::Fail;

// A queue with a processor limit of 60 seconds.
fn limited(alloc: Global, name: Name, enabled: bool, pipe_only: bool) -> QueueDef {
    let mut def = queue(alloc, name);
    def.enabled = enabled;
    def.pipe_only = pipe_only;
    def.limits.cpu = Some(60);
    def
}

fn submission(alloc: Global, queue: Option<Name>, owner: Name, cpu: Option<u64>) -> Submission {
    let mut submission = Submission {
        queue,
        folder: None,
        job: job(alloc, owner),
        script: ListOf::new(alloc),
    };
    submission.job.limits.cpu = cpu;
    submission
}

// A queue, a processor limit, the sequence number that was given last, and the answer.
type SubmitCase = (Option<Name>, Option<u64>, u32, Result<(), Refusal>);

fn submit(
    alloc: Global,
    state: &mut HostState,
    owner: Name,
    case: SubmitCase,
) -> Result<(), Refusal> {
    let (queue, cpu, seq, _) = case;
    state.seq = seq;
    check_submit(state, &submission(alloc, queue, owner, cpu))
}

// The first case that is answered otherwise: its place, and the answer.
fn wrong_submission(
    alloc: Global,
    state: &mut HostState,
    owner: Name,
    cases: &[SubmitCase],
) -> Option<(usize, Result<(), Refusal>)> {
    for (place, case) in cases.iter().enumerate() {
        let answer = submit(alloc, state, owner, *case);
        if answer != case.3 {
            return Some((place, answer));
        }
    }
    None
}

fn three_queues(
    alloc: Global,
    queues: &mut Table<Name, QueueDef>,
    names: [Name; 3],
) -> Result<(), Memory> {
    let [jobs, shut, inner] = names;
    add(queues, limited(alloc, jobs, true, false))?;
    add(queues, limited(alloc, shut, false, true))?;
    add(queues, limited(alloc, inner, true, true))
}

// The same, of a host with three queues.
fn wrong_of_three(
    alloc: Global,
    state: &mut HostState,
    names: [Name; 3],
    owner: Name,
    cases: &[SubmitCase],
) -> Result<Option<(usize, Result<(), Refusal>)>, Memory> {
    three_queues(alloc, &mut state.queues, names)?;
    Ok(wrong_submission(alloc, state, owner, cases))
}

#[test]
fn refused_submissions(rt: HostRuntime) -> Result<(), Fail> {
    let alloc = rt.alloc();
    let (jobs, shut, inner) = (
        Name::read(b"jobs")?,
        Name::read(b"shut")?,
        Name::read(b"inner")?,
    );
    let (ann, nowhere) = (Name::read(b"ann")?, Name::read(b"nowhere")?);
    let cases = [
        (Some(jobs), Some(60), 4_294_967_293, Ok(())),
        (
            Some(jobs),
            Some(61),
            4_294_967_294,
            Err(Refusal::OverCpu(jobs)),
        ),
        (Some(jobs), None, 4_294_967_294, Err(Refusal::NumbersUsed)),
        (Some(shut), Some(61), 0, Err(Refusal::Disabled(shut))),
        (Some(inner), Some(61), 0, Err(Refusal::PipeOnly(inner))),
        (Some(nowhere), None, 0, Err(Refusal::NoQueue(nowhere))),
        (None, None, 0, Err(Refusal::NoDefault)),
    ];
    let mut state = host(alloc);
    let wrong = wrong_of_three(alloc, &mut state, [jobs, shut, inner], ann, &cases);
    drop(state);
    assert_eq!(rt; wrong, Ok(None));
    Ok(())
}

// As many requests as a host takes.
fn fill_up(alloc: Global, rows: &mut Rows, queue: Name, owner: Name) -> Result<(), Memory> {
    for seq in 1..=10_000u32 {
        add_row(rows, row(alloc, seq, queue, owner))?;
    }
    Ok(())
}

// The answers to a submission before and after the seventh request goes.
fn one_goes(state: &mut HostState, submission: &Submission) -> [Result<(), Refusal>; 2] {
    let before = check_submit(state, submission);
    let id = RequestId {
        seq: 7,
        host: HostId(0),
    };
    state.rows.remove_key(&id);
    [before, check_submit(state, submission)]
}

// How many requests a full host has, and its answers.
fn of_full(
    alloc: Global,
    state: &mut HostState,
    jobs: Name,
    ann: Name,
) -> Result<(usize, [Result<(), Refusal>; 2]), Memory> {
    add(&mut state.queues, limited(alloc, jobs, true, false))?;
    fill_up(alloc, &mut state.rows, jobs, ann)?;
    let count = state.rows.len();
    let submission = submission(alloc, Some(jobs), ann, None);
    Ok((count, one_goes(state, &submission)))
}

#[test]
fn a_full_host(rt: HostRuntime) -> Result<(), Fail> {
    let alloc = rt.alloc();
    let (jobs, ann) = (Name::read(b"jobs")?, Name::read(b"ann")?);
    let mut state = host(alloc);
    let answers = of_full(alloc, &mut state, jobs, ann);
    drop(state);
    let wanted = (10_000, [Err(Refusal::HostFull), Ok(())]);
    assert_eq!(rt; answers, Ok(wanted));
    Ok(())
}

fn running(mut row: Row) -> Row {
    row.state = RowState::Running;
    row
}

// Two requests of ann's on the first host, of which the second runs.
fn fill_two(
    alloc: Global,
    state: &mut HostState,
    site: [Name; 2],
    users: [Name; 2],
) -> Result<(), Memory> {
    let [ann, oscar] = users;
    state.site = ListOf::from_vec(site.to_vec(alloc)?);
    state.operators = ListOf::of(alloc, oscar)?;
    add_row(&mut state.rows, row(alloc, 1, ann, ann))?;
    add_row(&mut state.rows, running(row(alloc, 2, ann, ann)))
}

// A user, a request, whether it is to be killed, and the answer.
type DeleteCase = (Name, Named, bool, Result<(), Refusal>);

// The answer of a host whose site is no longer than the call wants it.
fn answer(state: &HostState, case: &DeleteCase) -> Option<Result<(), Refusal>> {
    if state.site.len() > 16 {
        return None;
    }
    let (user, id, kill, _) = case;
    Some(check_delete(state, user, id, *kill))
}

// The first case that is answered otherwise: its place, and the answer.
fn wrong_deletion(
    state: &HostState,
    cases: &[DeleteCase],
) -> Option<(usize, Option<Result<(), Refusal>>)> {
    for (place, case) in cases.iter().enumerate() {
        let answer = answer(state, case);
        if answer != Some(case.3) {
            return Some((place, answer));
        }
    }
    None
}

// The same, of the host with these two requests.
fn wrong_of_two(
    alloc: Global,
    state: &mut HostState,
    site: [Name; 2],
    users: [Name; 2],
    cases: &[DeleteCase],
) -> Result<Option<(usize, Option<Result<(), Refusal>>)>, Memory> {
    fill_two(alloc, state, site, users)?;
    Ok(wrong_deletion(state, cases))
}

#[test]
fn refused_deletions(rt: HostRuntime) -> Result<(), Fail> {
    let (near, far, mars) = (
        Name::read(b"near")?,
        Name::read(b"far")?,
        Name::read(b"mars")?,
    );
    let (ann, bob, oscar) = (
        Name::read(b"ann")?,
        Name::read(b"bob")?,
        Name::read(b"oscar")?,
    );
    let first = Named { seq: 1, host: near };
    let runs = Named { seq: 2, host: near };
    let other = Named { seq: 1, host: far };
    let strange = Named { seq: 1, host: mars };
    let cases = [
        (ann, first, false, Ok(())),
        (bob, first, false, Err(Refusal::NotOwner)),
        (oscar, first, false, Ok(())),
        (ann, runs, false, Err(Refusal::RequestRunning(runs))),
        (bob, runs, false, Err(Refusal::NotOwner)),
        (ann, runs, true, Ok(())),
        (ann, other, false, Err(Refusal::NoRequest(other))),
        (ann, strange, false, Err(Refusal::NoRequest(strange))),
    ];
    let alloc = rt.alloc();
    let mut state = host(alloc);
    let wrong = wrong_of_two(alloc, &mut state, [near, far], [ann, oscar], &cases);
    drop(state);
    assert_eq!(rt; wrong, Ok(None));
    Ok(())
}
