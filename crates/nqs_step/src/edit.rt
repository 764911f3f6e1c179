//! An edit of qmgr.
ghost use Rattle.std.specs.Prelude.{◌≡◌, ◌≤◌, length, IfOk};
ghost use Rattle.nqs_state.specs.State.{content};
ghost use Rattle.nqs_rules.specs.Causes.{first_refusal};
ghost use Rattle.nqs_rules.specs.Find.{held_count};
ghost use Rattle.nqs_rules.specs.Fits.{edit_causes};
ghost use Rattle.nqs_rules.specs.Step.{runs_in_queue, kills_of, on_edit};
ghost use Rattle.nqs_rules.specs.Stepped.{plan_of};
ghost use Rattle.nqs_types.specs.declared.edit.Edit.TheVariants.{Rows};
ghost use Rattle.nqs_plans.specs.More.{with_more};
ghost use Rattle.nqs_step.specs.Asked.{asked, kill_in};

use crate::reply::{Asker, refuse, reply_to};
use nqs_access::check_access;
use nqs_base::{Memory, Name};
use nqs_conf::check_conf;
use nqs_devices::check_devices;
use nqs_limits::check_limits;
use nqs_plans::{add, change_alone, fold_each};
use nqs_rows::check_rows;
use nqs_state::HostState;
use nqs_types::{Change, Edit, Output, Plan, Refusal, Reply, Row, RowState, RowsEdit};
use std::alloc::Global;

// Whether the edit may be made, or why not.
fn check_edit(state: &HostState, edit: &Edit) -> Result<(), Refusal>
    requires site { length state.now.site ≤ 16 }
    requires held { held_count (content state.now) ≤ 10000 }
    ensures { result ≡ first_refusal (edit_causes edit.now (content state.now)) }
{
    match edit {
        Edit::Conf(edit) => check_conf(state, edit),
        Edit::Limits(edit) => check_limits(state, edit),
        Edit::Access(edit) => check_access(state, edit),
        Edit::Devices(edit) => check_devices(state, edit),
        Edit::Rows(edit) => check_rows(state, edit),
    }
}

fn runs_in_queue(row: &Row, queue: &Name) -> bool
    ensures { result ≡ runs_in_queue queue.now row.now }
{
    row.state == RowState::Running && *queue == row.queue
}

// The plan, and a kill of the row's job where it runs in the queue.
fn kill_in(plan: Plan, row: &Row, queue: &Name) -> Result<Plan, Memory>
    ensures { IfOk result (λ more. more ≡ with_more plan (kill_in queue.now row.now)) }
{
    if !runs_in_queue(row, queue) {
        return Ok(plan);
    }
    let id = row.id;
    let start = row.starts;
    add(plan, Output::Kill { id, start })
}

// The plan, and a kill of each job that runs in a queue that is aborted.
fn add_row_kills(state: &HostState, plan: Plan, edit: &RowsEdit) -> Result<Plan, Memory>
    ensures { IfOk result (λ more. more ≡ with_more plan (kills_of (Rows edit.now) (content state.now))) }
{
    match edit {
        RowsEdit::AbortQueue { queue } => {
            fold_each(plan, state.rows.table(), |plan: Plan, row: &Row| {
                kill_in(plan, row, queue)
            })
        }
        _ => Ok(plan),
    }
}

fn add_kills(state: &HostState, plan: Plan, edit: &Edit) -> Result<Plan, Memory>
    ensures { IfOk result (λ more. more ≡ with_more plan (kills_of edit.now (content state.now))) }
{
    match edit {
        Edit::Rows(edit) => add_row_kills(state, plan, edit),
        _ => Ok(plan),
    }
}

/// qmgr: an edit that isn't refused is made, and each job of an aborted queue is told to end.
pub(crate) fn on_edit(
    alloc: Global,
    state: &HostState,
    asker: Asker,
    edit: &Edit,
) -> Result<Plan, Memory>
    requires site { length state.now.site ≤ 16 }
    requires held { held_count (content state.now) ≤ 10000 }
    ensures { IfOk result (λ plan. plan ≡ plan_of (on_edit (asked asker) edit.now (content state.now))) }
{
    if let Err(refusal) = check_edit(state, edit) {
        return refuse(alloc, asker, refusal);
    }
    let plan = change_alone(alloc, Change::Edited(*edit));
    let plan = add(plan, reply_to(asker, Reply::Done))?;
    add_kills(state, plan, edit)
}
