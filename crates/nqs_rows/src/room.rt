//! Whether a host has room and numbers for one more request.

ghost use Rattle.std.specs.Prelude.{◌≡◌, ◌∷◌, []};
ghost use Rattle.nqs_state.specs.State.{content};
ghost use Rattle.nqs_rules.specs.Causes.{cause, first_refusal};
ghost use Rattle.nqs_rules.specs.Fits.{offer_full};
ghost use Rattle.nqs_rules.specs.Rows.{arrivals_used, is_host_full};

use nqs_routing::is_outlived;
use nqs_state::HostState;
use nqs_types::{HostId, Promise, Refusal};

// Requests and promises that a host has at most.
const MOST_HELD: usize = 10_000;

/// Whether the host has no room for one more request: with its promises it has 10,000.
pub fn is_host_full(state: &HostState) -> bool
    ensures { result ≡ is_host_full (content state.now) }
{
    state.promises.len() >= MOST_HELD.saturating_sub(state.rows.len())
}

// Whether the host has no room for one more request beside those promises that the offer doesn't
// end.
fn is_full_of_others(state: &HostState, peer: HostId, low: u64) -> bool
    ensures { result ≡ offer_full peer low (content state.now) }
{
    let others = state
        .promises
        .count(|promise: &Promise| !is_outlived(promise, peer, low));
    others >= MOST_HELD.saturating_sub(state.rows.len())
}

/// Whether the host has no room for one more request that the peer offers. Promises to the peer
/// under a number below its low aren't counted, since the offer ends them. They are looked at only
/// where all promises together leave no room.
pub fn offer_full(state: &HostState, peer: HostId, low: u64) -> bool
    ensures { result ≡ offer_full peer low (content state.now) }
{
    is_host_full(state) && is_full_of_others(state, peer, low)
}

/// Whether the last arrival number was given.
pub fn arrivals_used(state: &HostState) -> bool
    ensures { result ≡ arrivals_used (content state.now) }
{
    state.arrivals == u64::MAX
}

/// Whether an arrival number is left: `NumbersUsed` where none is.
pub fn check_arrivals(state: &HostState) -> Result<(), Refusal>
    ensures { result ≡ first_refusal (cause (arrivals_used (content state.now)) Refusal.NumbersUsed ∷ []) }
{
    if arrivals_used(state) {
        return Err(Refusal::NumbersUsed);
    }
    Ok(())
}
