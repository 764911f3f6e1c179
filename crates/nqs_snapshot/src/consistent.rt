//! What besides holds of a host at every moment. `nqs_rules/specs/InOrder.antt` has it.

ghost use Rattle.std.specs.Prelude.{◌≡◌};
ghost use Rattle.nqs_state.specs.State.{content};
ghost use Rattle.nqs_rules.specs.InOrder.{is_doom_right, is_hold_right, has_hand, is_promise_free};
ghost use Rattle.nqs_snapshot.specs.Sound.{is_consistent};

use crate::order_requests::is_id_given;
use nqs_routing::is_offered_for;
use nqs_state::HostState;
use nqs_types::{Hand, Hold, Promise, Row, RowState};

fn is_doom_right(row: &Row) -> bool
    ensures { result ≡ is_doom_right row.now }
{
    row.state == RowState::Running || !row.doomed
}

fn is_hold_right(row: &Row) -> bool
    ensures { result ≡ is_hold_right row.now }
{
    row.state == RowState::Queued || row.hold == Hold::No
}

fn has_hand(row: &Row, state: &HostState) -> bool
    ensures { result ≡ has_hand (content state.now) row.now }
{
    !(row.state == RowState::Routing) || state.hands.any(|hand: &Hand| is_offered_for(hand, row.id))
}

fn is_promise_free(promise: &Promise) -> bool
    ensures { result ≡ is_promise_free promise.now }
{
    promise.row.hold == Hold::No && !promise.row.doomed
}

/// Whether only running rows are doomed, only queued ones held, each routing one is offered, what
/// is promised is neither held nor doomed, and what is handed over has a number.
#[tactic(auto, unfolding(crate::specs::Sound::is_consistent))]
pub(crate) fn is_consistent(state: &HostState) -> bool
    ensures { result ≡ is_consistent (content state.now) }
{
    state.rows.all(|row: &Row| is_doom_right(row))
        && state.rows.all(|row: &Row| is_hold_right(row))
        && state.rows.all(|row: &Row| has_hand(row, state))
        && state
            .promises
            .all(|promise: &Promise| is_promise_free(promise))
        && state.hands.all(|hand: &Hand| is_id_given(hand.id, state))
}
