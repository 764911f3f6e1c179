//! A command comes.
ghost use Rattle.std.specs.Prelude.{◌≡◌, ◌≤◌, length, IfOk};
ghost use Rattle.nqs_state.specs.State.{content};
ghost use Rattle.nqs_rules.specs.Causes.{first_refusal};
ghost use Rattle.nqs_rules.specs.Find.{meant_row};
ghost use Rattle.nqs_rules.specs.InOrder.{IsInOrder};
ghost use Rattle.nqs_rules.specs.Step.{answer_to, stat_causes, on_stat, show_lines, why_reply, ticked, then_reply, halting, on_allowed, on_command};
ghost use Rattle.nqs_rules.specs.Stepped.{plan_of};
ghost use Rattle.nqs_rules.specs.Why.{why_lines};
ghost use Rattle.nqs_types.specs.declared.event.Reply.TheVariants.{Lines};
ghost use Rattle.nqs_step.specs.Asked.{asked};

use crate::delete::on_delete;
use crate::edit::on_edit;
use crate::reply::{Asker, answer, refuse, reply_to};
use crate::submit::on_submit;
use nqs_access::{known_queue, may_command, rank};
use nqs_base::{Memory, Name};
use nqs_handover::on_tick;
use nqs_lists::{show_lines, stat_lines};
use nqs_plans::add;
use nqs_reasons::why_lines;
use nqs_rows::meant_row;
use nqs_stage::add_due_stages;
use nqs_state::HostState;
use nqs_types::{Command, Named, Plan, Refusal, Reply, Row};
use std::alloc::Global;

// The first of the queues that isn't there, as a refusal.
fn check_stat(state: &HostState, queues: &[Name]) -> Result<(), Refusal>
    ensures { result ≡ first_refusal (stat_causes queues.now (content state.now)) }
{
    for queue in queues {
        known_queue(state, queue)?;
    }
    Ok(())
}

// qstat: the lines of the queues, and of the user where one is given.
fn on_stat(
    alloc: Global,
    state: &HostState,
    asker: Asker,
    user: &Option<Name>,
    queues: &[Name],
) -> Result<Plan, Memory>
    ensures { IfOk result (λ plan. plan ≡ plan_of (on_stat (asked asker) user.now queues.now (content state.now))) }
{
    if let Err(refusal) = check_stat(state, queues) {
        return refuse(alloc, asker, refusal);
    }
    let lines = stat_lines(alloc, state, user, queues)?;
    answer(alloc, asker, Reply::Lines(lines))
}

/// A tick: what handovers and outputs say again, and the offers that are taken back.
pub(crate) fn ticked(alloc: Global, state: &HostState, now: u64) -> Result<Plan, Memory>
    requires { IsInOrder (content state.now) }
    ensures { IfOk result (λ plan. plan ≡ plan_of (ticked now (content state.now))) }
{
    let plan = on_tick(alloc, state, now)?;
    add_due_stages(alloc, state, plan)
}

fn on_tick_command(alloc: Global, state: &HostState, asker: Asker, now: u64) -> Result<Plan, Memory>
    requires { IsInOrder (content state.now) }
    ensures { IfOk result (λ plan. plan ≡ plan_of (then_reply (asked asker) (ticked now (content state.now)))) }
{
    let plan = ticked(alloc, state, now)?;
    add(plan, reply_to(asker, Reply::Done))
}

// A list of qmgr.
fn on_show(alloc: Global, state: &HostState, asker: Asker, code: u8) -> Result<Plan, Memory>
    ensures { IfOk result (λ plan. plan ≡ plan_of (answer_to (asked asker) (Lines (show_lines code (content state.now))))) }
{
    let lines = show_lines(alloc, state, code)?;
    answer(alloc, asker, Reply::Lines(lines))
}

// What is told of a request at a moment.
fn explain(
    alloc: Global,
    state: &HostState,
    now: u64,
    asker: Asker,
    row: &Row,
) -> Result<Plan, Memory>
    ensures { IfOk result (λ plan. plan ≡ plan_of (answer_to (asked asker) (Lines (why_lines now (content state.now) row.now)))) }
{
    let lines = why_lines(alloc, state, row, now)?;
    answer(alloc, asker, Reply::Lines(lines))
}

// Why a request doesn't run, by the one that is meant.
fn on_why(
    alloc: Global,
    state: &HostState,
    now: u64,
    asker: Asker,
    id: &Named,
) -> Result<Plan, Memory>
    requires { length state.now.site ≤ 16 }
    ensures { let s = content state.now in
        IfOk result (λ plan. plan ≡ plan_of (answer_to (asked asker) (why_reply now id.now s (meant_row id.now s)))) }
{
    match meant_row(state, id) {
        None => refuse(alloc, asker, Refusal::NoRequest(*id)),
        Some(row) => explain(alloc, state, now, asker, row),
    }
}

// A shutdown that its user may give.
fn on_shutdown(alloc: Global, asker: Asker) -> Result<Plan, Memory>
    ensures { IfOk result (λ plan. plan ≡ plan_of (halting (asked asker))) }
{
    let mut plan = answer(alloc, asker, Reply::Done)?;
    plan.halts = true;
    Ok(plan)
}

// A command that its user may give.
fn on_allowed(
    alloc: Global,
    state: &HostState,
    now: u64,
    asker: Asker,
    user: &Name,
    command: &mut Command,
) -> Result<Plan, Memory>
    requires { IsInOrder (content state.now) }
    ensures { IfOk result (λ plan. plan ≡ plan_of (on_allowed now (asked asker) user.now command.old (content state.now))) }
{
    match command {
        Command::Submit(submission) => on_submit(alloc, state, asker, submission),
        Command::Edit(edit) => on_edit(alloc, state, asker, edit),
        Command::Stat { user, queues } => on_stat(alloc, state, asker, user, queues.as_slice()),
        Command::Delete { id, kill } => on_delete(alloc, state, asker, user, id, *kill),
        Command::Show(code) => on_show(alloc, state, asker, *code),
        Command::Why(id) => on_why(alloc, state, now, asker, id),
        Command::Shutdown => on_shutdown(alloc, asker),
        Command::Tick => on_tick_command(alloc, state, asker, now),
        Command::UnreadLine(fault) => answer(alloc, asker, Reply::UnreadLine(*fault)),
        Command::UnreadWords(fault) => answer(alloc, asker, Reply::UnreadWords(*fault)),
    }
}

/// A command of a user: refused for its rank, or else as the rule of the command has it.
pub(crate) fn on_command(
    alloc: Global,
    state: &HostState,
    now: u64,
    asker: Asker,
    user: &Name,
    command: &mut Command,
) -> Result<Plan, Memory>
    requires { IsInOrder (content state.now) }
    ensures { IfOk result (λ plan. plan ≡ plan_of (on_command now (asked asker) user.now command.old (content state.now))) }
{
    if let Err(refusal) = may_command(rank(state, user), command) {
        return refuse(alloc, asker, refusal);
    }
    on_allowed(alloc, state, now, asker, user, command)
}
