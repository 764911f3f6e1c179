//! Which destination is tried.

ghost use Rattle.std.specs.Prelude.{◌≡◌};
ghost use Rattle.nqs_state.specs.State.{content};
ghost use Rattle.nqs_rules.specs.Routing.{refuses, was_refused, is_reachable, may_try, destination};
ghost use Rattle.nqs_routing.specs.Destination.{destination_of};

use crate::hands::{find_peer, has_room_for_hand, is_within_window};
use nqs_state::HostState;
use nqs_types::{Dest, HostId, QueueDef, Refused, Row};

/// Whether the refusal is of this destination.
pub fn refuses(refused: &Refused, dest: &Dest) -> bool
    ensures { result ≡ refuses dest.now refused.now }
{
    *dest == refused.dest
}

// Whether the destination is one of those that refused.
pub(crate) fn was_refused(refused: &[Refused], dest: &Dest) -> bool
    ensures { result ≡ was_refused dest.now refused.now }
{
    refused.iter().any(|refused| refuses(refused, dest))
}

/// Whether a handover to the host may be opened at this moment, in seconds since 1970: fewer than
/// eight to it are open, there is a number for one, less than 64 above the host's low, and it isn't
/// waited for.
pub fn is_reachable(state: &HostState, now: u64, peer: HostId) -> bool
    ensures { result ≡ is_reachable now peer (content state.now) }
{
    match find_peer(state, peer) {
        Some(known) => {
            has_room_for_hand(state, peer)
                && known.next < u64::MAX
                && is_within_window(state, peer, known)
                && known.wait <= now
        }
        None => false,
    }
}

fn may_try(state: &HostState, row: &Row, now: u64, dest: &Dest) -> bool
    ensures { result ≡ may_try now (content state.now) row.now dest.now }
{
    !was_refused(row.refused.as_slice(), dest)
        && (state.me == dest.host || is_reachable(state, now, dest.host))
}

/// The first destination of the queue that may be tried for the row at a moment, in seconds since
/// 1970. It is given by its place in the queue's list, from 0.
pub fn destination_in(state: &HostState, queue: &QueueDef, row: &Row, now: u64) -> Option<usize>
    ensures { result ≡ destination queue.now now (content state.now) row.now }
{
    queue
        .dests
        .as_slice()
        .iter()
        .position(|dest| may_try(state, row, now, dest))
}

/// The first destination of the row's queue that may be tried for it, as `destination_in` has it.
/// There is none where the queue isn't there.
pub fn destination(state: &HostState, row: &Row, now: u64) -> Option<usize>
    ensures { result ≡ destination_of now (content state.now) row.now }
{
    match state.queues.get(&row.queue) {
        Some(queue) => destination_in(state, queue, row, now),
        None => None,
    }
}
