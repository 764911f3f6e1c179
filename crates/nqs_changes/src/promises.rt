//! Changes of handovers, from the side of the host that takes over.

ghost use Rattle.std.specs.Prelude.{◌≡◌, ◌+◌, ◌<◌, ◌≤◌, ◌^◌, false, not, filter};
ghost use Rattle.std.specs.List.{list_any};
ghost use Rattle.nqs_state.specs.State.{content};
ghost use Rattle.nqs_state.specs.Room.{HasRoomToClose};
ghost use Rattle.nqs_rules.specs.Tests.{last_u64};
ghost use Rattle.nqs_rules.specs.Find.{find_promise, has_promise};
ghost use Rattle.nqs_rules.specs.Applied.{promised, add_promised, requeued_row, accepted, dropped};

use crate::peers::{close, raise_floor};
use crate::rows::new_row;
use nqs_base::{Extent, Name};
use nqs_routing::is_outlived;
use nqs_state::HostState;
use nqs_types::{Carried, PeerNumber, Promise, Row, RowState};

/// A request is promised. The numbers below `low` are closed, and promises to that host under
/// these go.
pub fn promised(
    state: &mut HostState,
    key: PeerNumber,
    low: u64,
    queue: Name,
    carried: Carried,
    script: Extent,
)
    requires room { 0 < state.old.promises.spare }
    requires new { has_promise key.peer key.number (content state.old) ≡ false }
    requires arrival { state.old.arrivals < last_u64 }
    ensures { content state.new ≡ promised key.peer key.number low queue carried script (content state.old) }
{
    let peer = key.peer;
    state.arrivals += 1;
    state.promises.revise(|_key, promise: &mut Promise| !is_outlived(promise, peer, low));
    let alloc = state.promises.allocator();
    let row = new_row(carried, queue, state.arrivals, script, alloc);
    state.promises.push(Promise {
        peer,
        number: key.number,
        row,
    });
    raise_floor(state, peer, low.saturating_sub(1));
}

// A promise's row becomes a row, unless its request is one already.
fn add_promised(state: &mut HostState, mut row: Row)
    requires room { 0 < state.old.rows.spare }
    ensures { content state.new ≡ add_promised row (content state.old) }
{
    if !state.rows.has(&row.id) {
        row.state = RowState::Queued;
        state.rows.push(row);
    }
}

/// A promised request is this host's, and its number is closed.
pub fn accepted(state: &mut HostState, key: &PeerNumber)
    requires room { 0 < state.old.rows.spare }
    requires closed { HasRoomToClose key.now.peer state.old }
    ensures { content state.new ≡ accepted key.now (find_promise key.now.peer key.now.number (content state.old)) (content state.old) }
{
    if let Some(place) = state.promises.place(key) {
        close(state, key.peer, key.number);
        let promise = state.promises.remove(place);
        add_promised(state, promise.row);
    }
}

/// A promise is over, and its number is closed: the request isn't this host's.
pub fn dropped(state: &mut HostState, key: &PeerNumber)
    requires { HasRoomToClose key.now.peer state.old }
    ensures { content state.new ≡ dropped key.now (content state.old) }
{
    close(state, key.peer, key.number);
    state.promises.remove_key(key);
}
