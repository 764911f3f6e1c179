//! Changes of handovers, from the side of the host that hands over.

ghost use Rattle.std.specs.Prelude.{◌≡◌, ◌+◌, ◌<◌, ◌≤◌, ◌^◌, false, find, length, IsTrue};
ghost use Rattle.nqs_state.specs.State.{content};
ghost use Rattle.nqs_state.specs.Keys.{is_hand};
ghost use Rattle.nqs_state.specs.Room.{hand_refusals};
ghost use Rattle.nqs_rules.specs.Tests.{passes, last_u64};
ghost use Rattle.nqs_rules.specs.Find.{find_hand, find_peer};
ghost use Rattle.nqs_rules.specs.Fits.{is_next};
ghost use Rattle.nqs_rules.specs.InOrder.{IsInOrder};
ghost use Rattle.nqs_rules.specs.Applied.{committed, drop_hand, hand_opened, hand_committed, hand_refused, hand_silent, hands_silent};
ghost use Rattle.nqs_types.specs.declared.ids.PeerNumber.{PeerNumber};

use crate::peers::change_peer;
use crate::rows::requeued;
use nqs_routing::{note_refusal, note_silence};
use nqs_state::HostState;
use nqs_types::{Dest, Hand, Peer, PeerNumber, Phase, RequestId, Row, RowState};

fn find_hand(state: &HostState, key: &PeerNumber) -> Option<Hand>
    ensures { result ≡ find_hand key.now.peer key.now.number (content state.now) }
{
    state.hands.get(key).copied()
}

/// A handover is opened under the next number of its peer: its request is on its way.
pub fn opened(state: &mut HostState, hand: Hand)
    requires room { 0 < state.old.hands.spare }
    requires number { hand.number < last_u64 }
    requires order { IsInOrder (content state.old) }
    requires next { IsTrue (passes (is_next hand.number) (find_peer hand.peer (content state.old))) }
    requires phase { hand.phase ≡ Phase.Offered }
    ensures { content state.new ≡ hand_opened hand.peer hand.number hand.id hand.queue hand.since (content state.old) }
{
    state
        .rows
        .change(&hand.id, |row: &mut Row| row.state = RowState::Routing);
    change_peer(
        state,
        hand.peer,
        |peer: &mut Peer| peer.next = hand.number + 1,
    );
    state.hands.push(hand);
}

/// A handover is committed: its request is the other host's.
pub fn committed(state: &mut HostState, key: &PeerNumber)
    ensures { content state.new ≡ hand_committed key.now (find_hand key.now.peer key.now.number (content state.old)) (content state.old) }
{
    if let Some(hand) = find_hand(state, key) {
        state.rows.remove_key(&hand.id);
        state
            .hands
            .change(key, |hand: &mut Hand| hand.phase = Phase::Committed);
    }
}

/// A handover is refused: its request is queued again, and the refusal is noted.
pub fn refused(state: &mut HostState, key: &PeerNumber, cause: u8)
    requires room { hand_refusals (find (is_hand key.now) state.old.hands.items) state.old < state.old.spare_refused }
    ensures { content state.new ≡ hand_refused key.now cause (find_hand key.now.peer key.now.number (content state.old)) (content state.old) }
{
    if let Some(hand) = find_hand(state, key) {
        let dest = Dest {
            queue: hand.queue,
            host: hand.peer,
        };
        note_refusal(state, hand.id, dest, cause);
        requeued(state, hand.id);
        state.hands.remove_key(key);
    }
}

// No answer came: the request of the handover is queued again, and the other host is waited for.
fn silent(state: &mut HostState, key: &PeerNumber, until: u64)
    ensures { content state.new ≡ hand_silent until key.now (find_hand key.now.peer key.now.number (content state.old)) (content state.old) }
{
    if let Some(hand) = find_hand(state, key) {
        state.hands.remove_key(key);
        requeued(state, hand.id);
        note_silence(state, key.peer, until);
    }
}

/// No answers came to these handovers. Their hosts are waited for until that moment, in seconds
/// since 1970.
pub fn all_silent(state: &mut HostState, keys: &[PeerNumber], until: u64)
    ensures { content state.new ≡ hands_silent until keys.now (content state.old) }
{
    for key in keys {
        silent(state, key, until);
    }
}

/// A handover is over.
pub fn done(state: &mut HostState, key: &PeerNumber)
    ensures { content state.new ≡ drop_hand key.now (content state.old) }
{
    state.hands.remove_key(key);
}
