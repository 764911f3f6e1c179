//! A request is deleted.
ghost use Rattle.std.specs.Prelude.{◌≡◌, ◌≤◌, length, IfOk};
ghost use Rattle.std.specs.Option.{option_copied};
ghost use Rattle.nqs_state.specs.State.{content};
ghost use Rattle.nqs_rules.specs.Find.{meant_row};
ghost use Rattle.nqs_rules.specs.Step.{delete_row, on_delete};
ghost use Rattle.nqs_rules.specs.Stepped.{plan_of};
ghost use Rattle.nqs_step.specs.Asked.{asked};

use crate::reply::{Asker, refuse, reply_to};
use nqs_base::{Memory, Name};
use nqs_plans::{add, change_alone};
use nqs_rows::{check_delete, meant_row};
use nqs_state::HostState;
use nqs_types::{Change, Named, Output, Plan, Refusal, Reply, Row, RowState};
use std::alloc::Global;

// A running request is told to end, and another one goes.
fn delete_row(alloc: Global, asker: Asker, row: &Row) -> Result<Plan, Memory>
    ensures { IfOk result (λ plan. plan ≡ plan_of (delete_row (asked asker) row.now)) }
{
    let id = row.id;
    if row.state != RowState::Running {
        let plan = change_alone(alloc, Change::Deleted(id));
        return add(plan, reply_to(asker, Reply::Deleted(id)));
    }
    let plan = change_alone(alloc, Change::Doomed(id));
    let plan = add(plan, reply_to(asker, Reply::Signalled(id)))?;
    let start = row.starts;
    add(plan, Output::Kill { id, start })
}

/// qdel: a request is deleted, or its job is told to end.
pub(crate) fn on_delete(
    alloc: Global,
    state: &HostState,
    asker: Asker,
    user: &Name,
    id: &Named,
    kill: bool,
) -> Result<Plan, Memory>
    requires { length state.now.site ≤ 16 }
    ensures { IfOk result (λ plan. plan ≡ plan_of (on_delete (asked asker) user.now id.now kill (content state.now))) }
{
    match check_delete(state, user, id, kill) {
        Err(refusal) => refuse(alloc, asker, refusal),
        Ok(()) => match meant_row(state, id) {
            None => refuse(alloc, asker, Refusal::NoRequest(*id)),
            Some(row) => delete_row(alloc, asker, row),
        },
    }
}
