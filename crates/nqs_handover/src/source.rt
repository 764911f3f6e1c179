//! Datagrams to the source of a handover.
ghost use Rattle.std.specs.Prelude.{◌≡◌, IfOk, Ok};
ghost use Rattle.std.specs.Option.{option_map};
ghost use Rattle.nqs_state.specs.State.{content};
ghost use Rattle.nqs_rules.specs.Find.{find_hand, find_peer};
ghost use Rattle.nqs_rules.specs.Handover.{was_given, ready_phase, ready_without, on_ready, refused_phase, on_refused, done_phase, on_done};
ghost use Rattle.nqs_rules.specs.Stepped.{plan_of};

use nqs_base::Memory;
use nqs_plans::{add, change_alone, message, quiet, says};
use nqs_routing::find_peer;
use nqs_state::HostState;
use nqs_types::{Body, Change, HostId, PeerNumber, Phase, Plan};
use std::alloc::Global;

// The phase of the handover of this number to the peer.
fn find_phase(state: &HostState, peer: HostId, number: u64) -> Option<Phase>
    ensures { result ≡ option_map (λ h. h.phase) (find_hand peer number (content state.now)) }
{
    match state.hands.get(&PeerNumber { peer, number }) {
        Some(hand) => Some(hand.phase),
        None => None,
    }
}

// Whether the number was given to a handover to the peer.
fn was_given(state: &HostState, peer: HostId, number: u64) -> bool
    ensures { result ≡ was_given number (find_peer peer (content state.now)) }
{
    match find_peer(state, peer) {
        Some(known) => number < known.next,
        None => false,
    }
}

fn ready_with(
    alloc: Global,
    state: &HostState,
    phase: Phase,
    peer: HostId,
    number: u64,
) -> Result<Plan, Memory>
    ensures { IfOk result (λ plan. plan ≡ plan_of (ready_phase phase peer number (content state.now))) }
{
    let commit = message(state, peer, Body::Commit { number });
    match phase {
        Phase::Offered => add(
            change_alone(alloc, Change::HandCommitted { peer, number }),
            commit,
        ),
        Phase::Committed => says(alloc, commit),
    }
}

fn ready_without(
    alloc: Global,
    state: &HostState,
    peer: HostId,
    number: u64,
) -> Result<Plan, Memory>
    ensures { IfOk result (λ plan. plan ≡ plan_of (ready_without peer number (content state.now))) }
{
    if !was_given(state, peer, number) {
        return Ok(quiet(alloc));
    }
    says(alloc, message(state, peer, Body::Abort { number }))
}

/// READY: the handover is committed, and COMMIT goes out; again where it was committed already.
/// Where there is no such handover ABORT goes out, and nothing where its number wasn't given yet.
pub fn on_ready(alloc: Global, state: &HostState, peer: HostId, number: u64) -> Result<Plan, Memory>
    ensures { IfOk result (λ plan. plan ≡ plan_of (on_ready peer number (content state.now))) }
{
    match find_phase(state, peer, number) {
        Some(phase) => ready_with(alloc, state, phase, peer, number),
        None => ready_without(alloc, state, peer, number),
    }
}

/// INQUIRE is answered as READY is.
pub fn on_inquire(
    alloc: Global,
    state: &HostState,
    peer: HostId,
    number: u64,
) -> Result<Plan, Memory>
    ensures { IfOk result (λ plan. plan ≡ plan_of (on_ready peer number (content state.now))) }
{
    on_ready(alloc, state, peer, number)
}

/// REFUSED: an offered handover goes, and the refusal is noted. It takes no memory.
pub fn on_refused(
    alloc: Global,
    state: &HostState,
    peer: HostId,
    number: u64,
    cause: u8,
) -> Result<Plan, Memory>
    ensures { result ≡ Ok (plan_of (on_refused peer number cause (content state.now))) }
{
    let refused = Change::HandRefused {
        peer,
        number,
        cause,
    };
    match find_phase(state, peer, number) {
        Some(Phase::Offered) => Ok(change_alone(alloc, refused)),
        Some(Phase::Committed) => Ok(quiet(alloc)),
        None => Ok(quiet(alloc)),
    }
}

/// DONE: a committed handover goes. It takes no memory.
pub fn on_done(alloc: Global, state: &HostState, peer: HostId, number: u64) -> Result<Plan, Memory>
    ensures { result ≡ Ok (plan_of (on_done peer number (content state.now))) }
{
    let done = Change::HandDone { peer, number };
    match find_phase(state, peer, number) {
        Some(Phase::Offered) => Ok(quiet(alloc)),
        Some(Phase::Committed) => Ok(change_alone(alloc, done)),
        None => Ok(quiet(alloc)),
    }
}
