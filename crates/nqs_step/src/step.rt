//! What a host does at an event.
ghost use Rattle.std.specs.Prelude.{◌≡◌, Some, IfOk};
ghost use Rattle.nqs_state.specs.State.{content};
ghost use Rattle.nqs_rules.specs.Find.{find_row};
ghost use Rattle.nqs_rules.specs.InOrder.{IsInOrder};
ghost use Rattle.nqs_rules.specs.Step.{is_start, ended_by, then_ack, acknowledged, unlaunched_by, on_message, step};
ghost use Rattle.nqs_rules.specs.Stepped.{plan_of};
ghost use Rattle.nqs_plans.specs.More.{with_more};

use crate::command::{on_command, ticked};
use crate::reply::Asker;
use nqs_base::{Bytes, Memory};
use nqs_handover::{on_abort, on_commit, on_done, on_inquire, on_offer, on_ready, on_refused};
use nqs_plans::{add, change_alone, quiet};
use nqs_stage::{on_end, on_file, on_stage, on_staged};
use nqs_state::HostState;
use nqs_types::{Body, Change, Event, HostId, Output, Plan, RequestId, Row, RowState};
use std::alloc::Global;

// A datagram of another host. One of a client changes nothing here.
fn on_message(
    alloc: Global,
    state: &HostState,
    peer: HostId,
    body: &mut Body,
) -> Result<Plan, Memory>
    requires { IsInOrder (content state.now) }
    ensures { IfOk result (λ plan. plan ≡ plan_of (on_message peer body.old (content state.now))) }
{
    match body {
        Body::Offer {
            number,
            low,
            queue,
            carried,
            script,
        } => on_offer(alloc, state, peer, *number, *low, queue, carried, script),
        Body::Ready { number } => on_ready(alloc, state, peer, *number),
        Body::Refused { number, cause } => on_refused(alloc, state, peer, *number, *cause),
        Body::Commit { number } => on_commit(alloc, state, peer, *number),
        Body::Done { number } => on_done(alloc, state, peer, *number),
        Body::Inquire { number } => on_inquire(alloc, state, peer, *number),
        Body::Abort { number } => on_abort(alloc, state, peer, *number),
        Body::Stage {
            number,
            path,
            bytes,
        } => on_stage(alloc, state, peer, *number, path, bytes),
        Body::Staged { number } => on_staged(alloc, state, peer, *number),
        _ => Ok(quiet(alloc)),
    }
}

// Whether the row runs, by this start.
fn is_start(row: &Row, start: u16) -> bool
    ensures { result ≡ is_start start row.now }
{
    row.state == RowState::Running && row.starts == start
}

// The end of a row's job, where it runs by this start.
fn end_row(
    alloc: Global,
    state: &HostState,
    row: &Row,
    start: u16,
    status: u8,
    out: &Bytes,
    err: &Bytes,
) -> Result<Plan, Memory>
    ensures { IfOk result (λ plan. plan ≡ plan_of (ended_by (Some row.now) start status out.now err.now (content state.now))) }
{
    if !is_start(row, start) {
        return Ok(quiet(alloc));
    }
    on_end(alloc, state, row, status, out, err)
}

fn ended_by(
    alloc: Global,
    state: &HostState,
    id: RequestId,
    start: u16,
    status: u8,
    out: &Bytes,
    err: &Bytes,
) -> Result<Plan, Memory>
    ensures { IfOk result (λ plan. plan ≡ plan_of (ended_by (find_row id (content state.now)) start status out.now err.now (content state.now))) }
{
    match state.rows.get(&id) {
        Some(row) => end_row(alloc, state, row, start, status, out, err),
        None => Ok(quiet(alloc)),
    }
}

// The plan, and an acknowledgement to the port, if there is one.
fn acknowledge(plan: Plan, port: u16, id: RequestId, start: u16) -> Result<Plan, Memory>
    ensures { IfOk result (λ more. more ≡ with_more plan (acknowledged port id start)) }
{
    if port == 0 {
        return Ok(plan);
    }
    add(plan, Output::Ack { port, id, start })
}

// The launch of a row's job failed, where it runs by this start: the row goes.
fn drop_row(alloc: Global, row: &Row, id: RequestId, start: u16) -> Result<Plan, Memory>
    ensures { IfOk result (λ plan. plan ≡ plan_of (unlaunched_by (Some row.now) id start)) }
{
    if !is_start(row, start) {
        return Ok(quiet(alloc));
    }
    let plan = change_alone(alloc, Change::Unlaunched(id));
    add(plan, Output::Unlaunched { id, start })
}

fn unlaunched_by(
    alloc: Global,
    state: &HostState,
    id: RequestId,
    start: u16,
) -> Result<Plan, Memory>
    ensures { IfOk result (λ plan. plan ≡ plan_of (unlaunched_by (find_row id (content state.now)) id start)) }
{
    match state.rows.get(&id) {
        Some(row) => drop_row(alloc, row, id, start),
        None => Ok(quiet(alloc)),
    }
}

/// What the host does at an event: the plan of its rule. The script of a submission, or of an offer
/// that is promised, moves from the event into the plan, also where memory is wanting then, so that
/// the event can't be taken once more. An `Err` is want of memory.
pub fn step(alloc: Global, state: &HostState, event: &mut Event) -> Result<Plan, Memory>
    requires { IsInOrder (content state.now) }
    ensures { IfOk result (λ plan. plan ≡ plan_of (step event.old (content state.now))) }
{
    match event {
        Event::Ask {
            now,
            port,
            token,
            user,
            command,
        } => {
            let asker = Asker {
                port: *port,
                token: *token,
            };
            on_command(alloc, state, *now, asker, user, command)
        }
        Event::Arrived { message, .. } => on_message(alloc, state, message.from, &mut message.body),
        Event::Ended {
            port,
            id,
            start,
            status,
            out,
            err,
            ..
        } => {
            let plan = ended_by(alloc, state, *id, *start, *status, out, err)?;
            acknowledge(plan, *port, *id, *start)
        }
        Event::Unlaunched { id, start, .. } => unlaunched_by(alloc, state, *id, *start),
        Event::Written { file, .. } => on_file(alloc, state, *file, true),
        Event::Unwritten { file, .. } => on_file(alloc, state, *file, false),
        Event::Tick { now } => ticked(alloc, state, *now),
    }
}
