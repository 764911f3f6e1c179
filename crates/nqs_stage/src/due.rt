//! Stages and files that are due, again and again until they arrived.
ghost use Rattle.std.specs.Prelude.{◌≡◌, ◌≤◌, ◌&&◌, ◌∷◌, [], not, length, Some, IfOk};
ghost use Rattle.nqs_state.specs.State.{content};
ghost use Rattle.nqs_state.specs.Keys.{is_stage};
ghost use Rattle.nqs_base_tables.specs.Table.{without_first};
ghost use Rattle.nqs_rules.specs.Stage.{is_stage_to, is_earlier_stage, send_stage, due_of, file_again, stages_from, due_outputs};
ghost use Rattle.nqs_rules.specs.Stepped.{plan_of, says};
ghost use Rattle.nqs_plans.specs.More.{with_more};
ghost use Rattle.nqs_stage.specs.Files.{HasDistinctStages};

use nqs_base::{Keyed, ListOf, Memory, copy_bytes};
use nqs_plans::{add_kept, fold_each, message, quiet};
use nqs_state::HostState;
use nqs_types::{Body, FileOut, HostId, Output, PeerNumber, Plan, Stage};
use std::alloc::Global;

// The plan, and a stage again.
fn add_stage(alloc: Global, state: &HostState, plan: Plan, stage: &Stage) -> Result<Plan, Memory>
    ensures { IfOk result (λ more. more ≡ with_more plan (send_stage (content state.now) (Some (0, stage.now)))) }
{
    let again = Body::Stage {
        number: stage.number,
        path: copy_bytes(&stage.path)?,
        bytes: ListOf::new(alloc),
    };
    add_kept(plan, message(state, stage.peer, again), stage.bytes)
}

pub(crate) fn is_stage_to(stage: &Stage, peer: HostId) -> bool
    ensures { result ≡ is_stage_to peer stage.now }
{
    peer == stage.peer
}

fn is_earlier(one: &Stage, other: &Stage) -> bool
    ensures { result ≡ is_earlier_stage one.now other.now }
{
    one.number < other.number
}

// The plan, and the stage of least number to the host.
fn add_due_to(alloc: Global, state: &HostState, plan: Plan, peer: HostId) -> Result<Plan, Memory>
    ensures { IfOk result (λ more. more ≡ with_more plan (due_of (content state.now) peer state.now.stages.items)) }
{
    let due = state.stages.best(
        |stage: &Stage| is_stage_to(stage, peer),
        |one: &Stage, other: &Stage| is_earlier(one, other),
    );
    match due {
        Some((_, stage)) => add_stage(alloc, state, plan, stage),
        None => Ok(plan),
    }
}

fn is_other(stage: &Stage, peer: HostId, gone: &PeerNumber) -> bool
    ensures { result ≡ (is_stage_to peer stage.now && not (is_stage gone.now stage.now)) }
{
    is_stage_to(stage, peer) && *gone != stage.key()
}

// The plan, and the stage of least number to the host without this one.
pub(crate) fn add_next(
    alloc: Global,
    state: &HostState,
    plan: Plan,
    gone: &PeerNumber,
) -> Result<Plan, Memory>
    requires { HasDistinctStages (content state.now) }
    ensures { IfOk result (λ more.
        more ≡ with_more plan (due_of (content state.now) gone.now.peer (without_first (is_stage gone.now) state.now.stages.items))) }
{
    let due = state.stages.best(
        |stage: &Stage| is_other(stage, gone.peer, gone),
        |one: &Stage, other: &Stage| is_earlier(one, other),
    );
    match due {
        Some((_, stage)) => add_stage(alloc, state, plan, stage),
        None => Ok(plan),
    }
}

// The plan, and the file again, under its own number.
fn add_file_again(alloc: Global, plan: Plan, file: &FileOut) -> Result<Plan, Memory>
    ensures { IfOk result (λ more. more ≡ with_more plan (file_again file.now ∷ [])) }
{
    let again = Output::File {
        file: file.number,
        path: copy_bytes(&file.path)?,
        bytes: ListOf::new(alloc),
    };
    add_kept(plan, again, file.bytes)
}

// The plan, and the stage due to each host of the site, in the site's order.
fn add_stages(alloc: Global, state: &HostState, plan: Plan) -> Result<Plan, Memory>
    requires { length state.now.site ≤ 16 }
    ensures { IfOk result (λ more. more ≡ with_more plan (stages_from 0 (content state.now) state.now.site)) }
{
    let mut plan = plan;
    for (place, _) in state.site.as_slice().iter().enumerate() {
        plan = add_due_to(alloc, state, plan, HostId(place as u8))?;
    }
    Ok(plan)
}

/// The plan, and what a tick sends of outputs: the due stage to each host, and then each file
/// again.
pub fn add_due_stages(alloc: Global, state: &HostState, plan: Plan) -> Result<Plan, Memory>
    requires { length state.now.site ≤ 16 }
    ensures { IfOk result (λ more. more ≡ with_more plan (due_outputs (content state.now))) }
{
    let plan = add_stages(alloc, state, plan)?;
    fold_each(plan, &state.files, |plan: Plan, file: &FileOut| {
        add_file_again(alloc, plan, file)
    })
}

/// What a tick sends of outputs, and no change.
pub fn due_stages(alloc: Global, state: &HostState) -> Result<Plan, Memory>
    requires { length state.now.site ≤ 16 }
    ensures { IfOk result (λ plan. plan ≡ plan_of (says (due_outputs (content state.now)))) }
{
    add_due_stages(alloc, state, quiet(alloc))
}
