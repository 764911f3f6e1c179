//! What is known of a host, and the handovers and promises with it.

ghost use Rattle.std.specs.Prelude.{◌≡◌, ◌≤◌};
ghost use Rattle.std.specs.Option.{option_copied};
ghost use Rattle.nqs_state.specs.State.{content};
ghost use Rattle.nqs_rules.specs.Tests.{passes};
ghost use Rattle.nqs_rules.specs.Find.{find_peer, has_promise};
ghost use Rattle.nqs_rules.specs.Fits.{is_open_number};
ghost use Rattle.nqs_rules.specs.Routing.{has_number, is_closed, is_hand_to, low, has_room_for_hand, is_within_window};
ghost use Rattle.nqs_rules.specs.Applied.{is_offered_for, is_outlived};
ghost use Rattle.nqs_routing.specs.Low.{is_before};

use nqs_state::HostState;
use nqs_types::{Hand, HostId, Peer, PeerNumber, Phase, Promise, RequestId};

// Handovers to a host that are open at once at most.
const MOST_HANDS: usize = 8;

// How far above the low of a host its next number may be, and no further.
const WINDOW: u64 = 64;

/// What is known of a host. There is nothing where it isn't of the site.
pub fn find_peer(state: &HostState, peer: HostId) -> Option<&Peer>
    ensures { option_copied result ≡ find_peer peer (content state.now) }
{
    state.peers.as_slice().get(peer.0 as usize)
}

fn has_number(numbers: &[u64], number: u64) -> bool
    ensures { result ≡ has_number number numbers.now }
{
    numbers.iter().any(|other| number == *other)
}

/// Whether this number of a handover from the peer is closed.
pub fn is_closed(known: &Peer, number: u64) -> bool
    ensures { result ≡ is_closed number known.now }
{
    number <= known.floor || has_number(known.closed.as_slice(), number)
}

/// Whether the host is of the site and this number of a handover from it isn't closed.
pub fn is_open_number(state: &HostState, peer: HostId, number: u64) -> bool
    ensures { result ≡ passes (is_open_number number) (find_peer peer (content state.now)) }
{
    match find_peer(state, peer) {
        Some(known) => !is_closed(known, number),
        None => false,
    }
}

/// Whether the handover goes to this host.
pub fn is_hand_to(hand: &Hand, peer: HostId) -> bool
    ensures { result ≡ is_hand_to peer hand.now }
{
    peer == hand.peer
}

/// Whether the handover has a smaller number than the other.
pub fn is_before(hand: &Hand, other: &Hand) -> bool
    ensures { result ≡ is_before hand.now other.now }
{
    hand.number < other.number
}

/// The low of a host, by its next number: the least of that and of the numbers of the handovers to
/// it, from 1. It looks at the handovers alone.
pub fn low(state: &HostState, peer: HostId, next: u64) -> u64
    ensures low { result ≡ low peer next state.now.hands.items }
    ensures within { result ≤ next }
{
    let least = state.hands.best(
        |hand: &Hand| is_hand_to(hand, peer),
        |hand: &Hand, other: &Hand| is_before(hand, other),
    );
    match least {
        Some((_, hand)) => hand.number.min(next),
        None => next,
    }
}

/// Whether fewer than eight handovers to the host are open.
pub fn has_room_for_hand(state: &HostState, peer: HostId) -> bool
    ensures { result ≡ has_room_for_hand peer (content state.now) }
{
    state.hands.count(|hand: &Hand| is_hand_to(hand, peer)) < MOST_HANDS
}

/// Whether the next number of the host, of which this is known, is less than 64 above its low.
pub fn is_within_window(state: &HostState, peer: HostId, known: &Peer) -> bool
    ensures { result ≡ is_within_window peer (content state.now) known.now }
{
    known.next - low(state, peer, known.next) < WINDOW
}

/// Whether the handover offers this request, and its peer hasn't answered yet.
pub fn is_offered_for(hand: &Hand, id: RequestId) -> bool
    ensures { result ≡ is_offered_for id hand.now }
{
    hand.phase == Phase::Offered && id == hand.id
}

/// Whether the promise is to this host, under a number below its low.
pub fn is_outlived(promise: &Promise, peer: HostId, low: u64) -> bool
    ensures { result ≡ is_outlived peer low promise.now }
{
    peer == promise.peer && promise.number < low
}

/// Whether this number is promised to the peer.
pub fn has_promise(state: &HostState, peer: HostId, number: u64) -> bool
    ensures { result ≡ has_promise peer number (content state.now) }
{
    state.promises.has(&PeerNumber { peer, number })
}
