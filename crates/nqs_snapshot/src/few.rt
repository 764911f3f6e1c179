//! Whether few handovers go to each host.

ghost use Rattle.std.specs.Prelude.{◌≡◌, length};
ghost use Rattle.std.specs.List.{AllByRecursion};
ghost use Rattle.nqs_state.specs.State.{content};
ghost use Rattle.nqs_rules.specs.Tests.{same_host};
ghost use Rattle.nqs_rules.specs.Find.{host_at};
ghost use Rattle.nqs_rules.specs.InOrder.{hands_to};
ghost use Rattle.nqs_snapshot.specs.Values.{IsHand};
ghost use Rattle.nqs_snapshot.specs.Sound.{are_hands_few};

use nqs_state::HostState;
use nqs_types::Hand;

fn is_hand_to(hand: &Hand, peer: u8) -> bool
    ensures { result ≡ same_host (host_at peer) hand.now.peer }
{
    peer == hand.peer.0
}

fn hands_to(state: &HostState, peer: u8) -> usize
    ensures { result ≡ length (hands_to (host_at peer) (content state.now)) }
{
    state.hands.count(|hand: &Hand| is_hand_to(hand, peer))
}

/// Whether at most eight handovers go to each host. A site has 16 hosts at most.
pub(crate) fn are_hands_few(state: &HostState) -> bool
    requires { AllByRecursion IsHand state.now.hands.items }
    ensures { result ≡ are_hands_few (content state.now) }
{
    let mut peer = 0u8;
    while peer < 16 {
        if hands_to(state, peer) > 8 {
            return false;
        }
        peer += 1;
    }
    true
}
