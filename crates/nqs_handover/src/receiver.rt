//! Datagrams to the receiver of a handover, but for offers.
ghost use Rattle.std.specs.Prelude.{◌≡◌, IfOk, Ok};
ghost use Rattle.nqs_state.specs.State.{content};
ghost use Rattle.nqs_rules.specs.Handover.{on_commit, on_abort};
ghost use Rattle.nqs_rules.specs.Stepped.{plan_of};

use crate::offer::closes;
use nqs_base::Memory;
use nqs_plans::{add, change_alone, message, quiet, says};
use nqs_routing::has_promise;
use nqs_state::HostState;
use nqs_types::{Body, Change, HostId, Plan};
use std::alloc::Global;

/// COMMIT: the promised request is this host's, and DONE goes out; again where the number is closed
/// already.
pub fn on_commit(
    alloc: Global,
    state: &HostState,
    peer: HostId,
    number: u64,
) -> Result<Plan, Memory>
    ensures { IfOk result (λ plan. plan ≡ plan_of (on_commit peer number (content state.now))) }
{
    let done = message(state, peer, Body::Done { number });
    if has_promise(state, peer, number) {
        return add(change_alone(alloc, Change::Accepted { peer, number }), done);
    }
    if closes(state, peer, number) {
        return says(alloc, done);
    }
    Ok(quiet(alloc))
}

/// ABORT: the promise goes. It takes no memory.
pub fn on_abort(alloc: Global, state: &HostState, peer: HostId, number: u64) -> Result<Plan, Memory>
    ensures { result ≡ Ok (plan_of (on_abort peer number (content state.now))) }
{
    if has_promise(state, peer, number) {
        return Ok(change_alone(alloc, Change::Dropped { peer, number }));
    }
    Ok(quiet(alloc))
}
