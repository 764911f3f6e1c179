//! What a refusal or a silence leaves.

ghost use Rattle.std.specs.Prelude.{◌≡◌, ◌<◌, find};
ghost use Rattle.nqs_state.specs.State.{content};
ghost use Rattle.nqs_state.specs.Keys.{is_row, is_queue};
ghost use Rattle.nqs_state.specs.Room.{refusals_of};
ghost use Rattle.nqs_rules.specs.Edits.{change_row, change_peer};
ghost use Rattle.nqs_rules.specs.Routing.{dests_of, dests_for, is_present, with_refusal, all_refused, held_where, refusal_noted};

use crate::dests::was_refused;
use nqs_base::Name;
use nqs_base_tables::Table;
use nqs_state::HostState;
use nqs_types::{Dest, Hold, HostId, Peer, QueueDef, Refused, RefusedList, RequestId, Row};

// The destinations of a queue.
fn dests_of<'a>(queues: &'a Table<Name, QueueDef>, queue: &Name) -> &'a [Dest]
    ensures { result.now ≡ dests_of (find (is_queue queue.now) queues.now.items) }
{
    match queues.get(queue) {
        Some(queue) => queue.dests.as_slice(),
        None => &[],
    }
}

fn is_present(dests: &[Dest], refused: &Refused) -> bool
    ensures { result ≡ is_present dests.now refused.now }
{
    dests.iter().any(|dest| refused.dest == *dest)
}

fn all_refused(dests: &[Dest], refused: &[Refused]) -> bool
    ensures { result ≡ all_refused dests.now refused.now }
{
    dests.iter().all(|dest| was_refused(refused, dest))
}

fn set_refused(row: &mut Row, refused: RefusedList, held: bool)
    ensures { row.new ≡ held_where held (record row.old { refused = refused }) }
{
    row.refused = refused;
    if held {
        row.hold = Hold::System;
    }
}

/// Notes that a destination refused the request, with the number of the refusal, 1 to 33, behind
/// those before. Then refusals by destinations that the queue has no longer go, this one too. The
/// system holds the request where each destination that is left has refused, also where none is
/// left. A request that isn't there changes nothing. It takes no memory: `HostState::make_room`
/// made it, for the change that this is part of.
pub fn note_refusal(state: &mut HostState, id: RequestId, dest: Dest, cause: u8)
    requires room { refusals_of (find (is_row id) state.old.rows.items) < state.old.spare_refused }
    ensures { content state.new ≡ change_row id (λ r. refusal_noted (dests_for r (content state.old)) dest cause r) (content state.old) }
{
    let Some(row) = state.rows.get(&id) else {
        return;
    };
    let mut refused = state
        .spare_refused
        .grown(row.refused.as_slice(), Refused { dest, cause });
    let dests = dests_of(&state.queues, &row.queue);
    refused.keep(|refused: &Refused| is_present(dests, refused));
    let held = all_refused(dests, refused.as_slice());
    state
        .rows
        .change(&id, |row: &mut Row| set_refused(row, refused, held));
}

/// No handover to the host is opened until that moment, in seconds since 1970. A host that isn't of
/// the site changes nothing.
pub fn note_silence(state: &mut HostState, peer: HostId, until: u64)
    ensures { content state.new ≡ change_peer peer (λ p. record p { wait = until }) (content state.old) }
{
    if (peer.0 as usize) < state.peers.len() {
        state
            .peers
            .change(peer.0 as usize, |known: &mut Peer| known.wait = until);
    }
}
