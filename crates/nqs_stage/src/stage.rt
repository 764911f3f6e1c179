//! Stages that come, and stages that arrived.
ghost use Rattle.std.specs.Prelude.{◌≡◌, ◌∷◌, [], IfOk};
ghost use Rattle.nqs_state.specs.State.{content};
ghost use Rattle.nqs_rules.specs.Find.{find_peer};
ghost use Rattle.nqs_rules.specs.Tests.{passes};
ghost use Rattle.nqs_rules.specs.Stage.{is_got, stage_taken, on_stage, send_staged, on_staged};
ghost use Rattle.nqs_rules.specs.Stepped.{plan_of, makes};
ghost use Rattle.nqs_types.specs.declared.change.Change.TheVariants.{StageGot};
ghost use Rattle.nqs_types.specs.declared.event.Output.TheVariants.{File};
ghost use Rattle.nqs_stage.specs.Files.{HasDistinctStages};

use crate::due::add_next;
use nqs_base::{Bytes, ListOf, Memory, copy_bytes};
use nqs_plans::{add, change_alone, change_storing, message, no_extent, quiet, says};
use nqs_routing::find_peer;
use nqs_state::HostState;
use nqs_types::{Body, Change, HostId, Output, PeerNumber, Plan};
use std::alloc::Global;

// Whether the stage of this number was taken from the peer before.
fn is_got(state: &HostState, peer: HostId, number: u64) -> bool
    ensures { result ≡ passes (is_got number) (find_peer peer (content state.now)) }
{
    match find_peer(state, peer) {
        Some(known) => number <= known.stage_got,
        None => false,
    }
}

// The stage is taken with these bytes, and STAGED goes out.
fn take_stage(
    alloc: Global,
    state: &HostState,
    peer: HostId,
    number: u64,
    path: &Bytes,
    bytes: Bytes,
) -> Result<Plan, Memory>
    ensures { IfOk result (λ plan. plan ≡ plan_of (makes (StageGot peer number path.now bytes) (send_staged (content state.now) peer number ∷ []))) }
{
    let got = Change::StageGot {
        peer,
        number,
        path: copy_bytes(path)?,
        bytes: no_extent(),
    };
    let plan = change_storing(alloc, got, bytes)?;
    add(plan, message(state, peer, Body::Staged { number }))
}

// A file of this host, under its next number.
fn file_of(state: &HostState, path: &Bytes, bytes: &Bytes) -> Result<Output, Memory>
    ensures { IfOk result (λ output. output ≡ File state.now.file_next path.now bytes.now) }
{
    let path = copy_bytes(path)?;
    let bytes = copy_bytes(bytes)?;
    Ok(Output::File {
        file: state.file_next,
        path,
        bytes,
    })
}

fn stage_taken(
    alloc: Global,
    state: &HostState,
    peer: HostId,
    number: u64,
    path: &Bytes,
    bytes: &Bytes,
) -> Result<Plan, Memory>
    ensures { IfOk result (λ plan. plan ≡ plan_of (stage_taken peer number path.now bytes.now (content state.now))) }
{
    if state.file_next == u64::MAX {
        return take_stage(alloc, state, peer, number, path, ListOf::new(alloc));
    }
    let plan = take_stage(alloc, state, peer, number, path, copy_bytes(bytes)?)?;
    let file = file_of(state, path, bytes)?;
    add(plan, file)
}

/// STAGE: a stage of a new number becomes a file, STAGED goes out, and the file is to be written.
/// One that was taken before is acknowledged again, and one that no file number is left for is
/// taken without its bytes.
pub fn on_stage(
    alloc: Global,
    state: &HostState,
    peer: HostId,
    number: u64,
    path: &Bytes,
    bytes: &Bytes,
) -> Result<Plan, Memory>
    ensures { IfOk result (λ plan. plan ≡ plan_of (on_stage peer number path.now bytes.now (content state.now))) }
{
    if is_got(state, peer, number) {
        return says(alloc, message(state, peer, Body::Staged { number }));
    }
    stage_taken(alloc, state, peer, number, path, bytes)
}

/// STAGED: the stage goes, and the one of least number that is left to that host goes out.
pub fn on_staged(
    alloc: Global,
    state: &HostState,
    peer: HostId,
    number: u64,
) -> Result<Plan, Memory>
    requires { HasDistinctStages (content state.now) }
    ensures { IfOk result (λ plan. plan ≡ plan_of (on_staged peer number (content state.now))) }
{
    let gone = PeerNumber { peer, number };
    if !state.stages.has(&gone) {
        return Ok(quiet(alloc));
    }
    let plan = change_alone(alloc, Change::StageGone { peer, number });
    add_next(alloc, state, plan, &gone)
}
