//! A job ends.
ghost use Rattle.std.specs.Prelude.{◌≡◌, ◌+◌, ◌≤◌, ◌∷◌, ◌++◌, [], length, map, IfOk, OnOk};
ghost use Rattle.nqs_state.specs.State.{content};
ghost use Rattle.nqs_rules.specs.Find.{find_peer};
ghost use Rattle.nqs_rules.specs.Tests.{last_u64};
ghost use Rattle.nqs_rules.specs.Stage.{goes_here, stage_counter, first_number, kept_parts, file_written, files_written, has_stage_to, stage_sent, stage_due};
ghost use Rattle.nqs_rules.specs.Stage.{parts_sent, on_end};
ghost use Rattle.nqs_rules.specs.Stepped.{map_part, no_extent, part_bytes, plan_of, ready, says};
ghost use Rattle.nqs_types.specs.declared.event.Output.TheVariants as event;
ghost use Rattle.nqs_base.specs.declared.extent.Extent.{Extent};
ghost use Rattle.nqs_types.specs.declared.message.Body.TheVariants as body;
ghost use Rattle.nqs_plans.specs.More.{with_more};
ghost use Rattle.nqs_stage.specs.Files.{ending};

use crate::due::is_stage_to;
use crate::part::{Part, keep_numbered, parts_of};
use nqs_base::{Bytes, Items, Memory, Rest, copy_bytes};
use nqs_plans::{add, message, no_extent, quiet};
use nqs_routing::find_peer;
use nqs_state::HostState;
use nqs_types::{Body, Change, HostId, OutPart, Output, Plan, RequestId, Row, Stage};
use std::alloc::Global;

// Whether outputs of the request are files of this host.
fn goes_here(state: &HostState, id: RequestId) -> bool
    ensures { result ≡ goes_here (content state.now) id }
{
    state.me == id.host
}

fn stage_counter(state: &HostState, peer: HostId) -> u64
    ensures { result ≡ stage_counter (find_peer peer (content state.now)) }
{
    match find_peer(state, peer) {
        Some(known) => known.stage_next,
        None => u64::MAX,
    }
}

// The number that the first output of the request gets.
fn first_number(state: &HostState, id: RequestId) -> u64
    ensures { result ≡ first_number (content state.now) id }
{
    if goes_here(state, id) {
        return state.file_next;
    }
    stage_counter(state, id.host)
}

// The outputs of the row's job, but for those that no number is left for.
fn kept_parts(
    alloc: Global,
    state: &HostState,
    row: &Row,
    out: &Bytes,
    err: &Bytes,
) -> Result<Vec<Part>, Memory>
    ensures parts { IfOk result (λ parts. parts.items ≡ kept_parts (content state.now) row.now out.now err.now) }
    ensures few { IfOk result (λ parts. first_number (content state.now) row.now.id + length parts.items ≤ last_u64) }
{
    let mut parts = parts_of(alloc, &row.job, out, err)?;
    keep_numbered(&mut parts, first_number(state, row.id));
    Ok(parts)
}

// A file of this host with this number.
fn file_of(file: u64, part: &Part) -> Result<Output, Memory>
    ensures { IfOk result (λ output. ready {E = Extent} output ≡ file_written file part.now) }
{
    let path = copy_bytes(&part.path)?;
    let bytes = copy_bytes(&part.bytes)?;
    Ok(Output::File { file, path, bytes })
}

// The plan, and a file of this host with this number.
fn add_file(plan: Plan, file: u64, part: &Part) -> Result<Plan, Memory>
    ensures { IfOk result (λ more. more ≡ with_more plan (file_written file part.now ∷ [])) }
{
    let output = file_of(file, part)?;
    add(plan, output)
}

// The plan, and the files of this host, numbered from this number on.
fn add_files(plan: Plan, first: u64, parts: &[Part]) -> Result<Plan, Memory>
    requires { first + length parts.now ≤ last_u64 }
    ensures { IfOk result (λ more. more ≡ with_more plan (files_written first parts.now)) }
{
    let mut plan = plan;
    let mut number = first;
    let mut rest = parts;
    while let Some((part, later)) = rest.split_first() {
        plan = add_file(plan, number, part)?;
        number += 1;
        rest = later;
    }
    Ok(plan)
}

// An output as a stage of this number.
fn stage_of(number: u64, part: &Part) -> Result<Body, Memory>
    ensures { IfOk result (λ stage. stage ≡ body.Stage number part.now.path part.now.bytes) }
{
    let path = copy_bytes(&part.path)?;
    let bytes = copy_bytes(&part.bytes)?;
    Ok(Body::Stage {
        number,
        path,
        bytes,
    })
}

// The plan, and the first output as a stage.
fn add_stage(
    state: &HostState,
    plan: Plan,
    peer: HostId,
    number: u64,
    parts: &[Part],
) -> Result<Plan, Memory>
    ensures { IfOk result (λ more. more ≡ with_more plan (stage_sent state.now.me peer number parts.now)) }
{
    let Some(part) = parts.first() else {
        return Ok(plan);
    };
    let stage = stage_of(number, part)?;
    add(plan, message(state, peer, stage))
}

fn has_stage_to(state: &HostState, peer: HostId) -> bool
    ensures { result ≡ has_stage_to peer (content state.now) }
{
    state.stages.any(|stage: &Stage| is_stage_to(stage, peer))
}

// The plan, and the first stage, where no other one to that host waits.
fn add_due(state: &HostState, plan: Plan, id: RequestId, parts: &[Part]) -> Result<Plan, Memory>
    ensures { IfOk result (λ more. more ≡ with_more plan (stage_due (content state.now) id parts.now)) }
{
    if has_stage_to(state, id.host) {
        return Ok(plan);
    }
    add_stage(state, plan, id.host, first_number(state, id), parts)
}

// The plan, and what goes out with the outputs of a request.
fn add_sent(state: &HostState, plan: Plan, id: RequestId, parts: &[Part]) -> Result<Plan, Memory>
    requires { first_number (content state.now) id + length parts.now ≤ last_u64 }
    ensures { IfOk result (λ more. more ≡ with_more plan (parts_sent (content state.now) id parts.now)) }
{
    if goes_here(state, id) {
        return add_files(plan, state.file_next, parts);
    }
    add_due(state, plan, id, parts)
}

// One output into the change, and its bytes into those to be stored.
fn split_part(
    outputs: &mut Items<OutPart>,
    puts: &mut Items<Bytes>,
    part: Part,
) -> Result<(), Memory>
    ensures outputs { OnOk result (outputs.new ≡ outputs.old ++ map_part (λ _. no_extent) part ∷ []) }
    ensures puts { OnOk result (puts.new ≡ puts.old ++ part_bytes part ∷ []) }
{
    outputs.push(OutPart {
        path: part.path,
        bytes: no_extent(),
    })?;
    puts.push(part.bytes)?;
    Ok(())
}

// The outputs of the change that a job ended with these parts, and the bytes to be stored.
fn split_parts(alloc: Global, parts: Vec<Part>) -> Result<(Items<OutPart>, Items<Bytes>), Memory>
    ensures outputs { IfOk result (λ split. split.0 ≡ map (map_part (λ _. no_extent)) parts.items) }
    ensures puts { IfOk result (λ split. split.1 ≡ map part_bytes parts.items) }
{
    let mut outputs = Items::new(alloc);
    let mut puts = Items::new(alloc);
    let mut rest = Rest::from_vec(parts);
    while let Some(part) = rest.take_first() {
        split_part(&mut outputs, &mut puts, part)?;
    }
    Ok((outputs, puts))
}

// The plan's outputs, and the change that the job ended with these parts.
fn ending(alloc: Global, plan: Plan, id: RequestId, parts: Vec<Part>) -> Result<Plan, Memory>
    ensures { IfOk result (λ ended. ended ≡ ending id parts.items plan) }
{
    let (outputs, puts) = split_parts(alloc, parts)?;
    let (_, _, said, reads) = plan.into_parts();
    Ok(Plan {
        change: Some(Change::Ended { id, outputs }),
        puts,
        outputs: said,
        reads,
        halts: false,
    })
}

// That the job ended goes out, and what goes out with its outputs.
fn ended_plan(
    alloc: Global,
    state: &HostState,
    row: &Row,
    status: u8,
    parts: &[Part],
) -> Result<Plan, Memory>
    requires { first_number (content state.now) row.now.id + length parts.now ≤ last_u64 }
    ensures { IfOk result (λ plan. plan ≡ plan_of (says (ready (event.Ended row.now.id row.now.starts status)
        ∷ parts_sent (content state.now) row.now.id parts.now))) }
{
    let ended = Output::Ended {
        id: row.id,
        start: row.starts,
        status,
    };
    let plan = add(quiet(alloc), ended)?;
    add_sent(state, plan, row.id, parts)
}

/// The job of a row ended with this exit status and these bytes of output and error output: its
/// outputs become files of this host where the request was submitted here, and else stages to the
/// host where it was, the first of which goes out where no other one to that host waits.
pub fn on_end(
    alloc: Global,
    state: &HostState,
    row: &Row,
    status: u8,
    out: &Bytes,
    err: &Bytes,
) -> Result<Plan, Memory>
    ensures { IfOk result (λ plan. plan ≡ plan_of (on_end status row.now out.now err.now (content state.now))) }
{
    let parts = kept_parts(alloc, state, row, out, err)?;
    let plan = ended_plan(alloc, state, row, status, parts.as_slice())?;
    ending(alloc, plan, row.id, parts)
}
