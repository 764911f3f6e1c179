//! Whether a change may be made of a host's state. `nqs_rules/specs/Fits.antt` has the rule.

ghost use Rattle.std.specs.Prelude.{◌≡◌, ◌≤◌, ◌&&◌, not, nat_lt, length, is_ok};
ghost use Rattle.nqs_state.specs.State.{content};
ghost use Rattle.nqs_rules.specs.Find.{has_queue};
ghost use Rattle.nqs_rules.specs.Fits.{is_offered_hand, is_committed_hand, is_next, is_new_stage, is_idle, may_hop, row_passes, hand_passes};
ghost use Rattle.nqs_rules.specs.Fits.{are_offered, device_fits, edit_fits, hand_fits, is_unknown, promise_fits, fits};
ghost use Rattle.nqs_rules.specs.Tests.{passes, is_ready, last_seq};
ghost use Rattle.nqs_rules.specs.Find.{find_peer, held_count};
ghost use Rattle.nqs_rules.specs.Routing.{is_within_window};
ghost use Rattle.nqs_rules.specs.Rows.{arrivals_used, is_host_full};

use nqs_access::check_access;
use nqs_base::Name;
use nqs_changes::rows::row_runs;
use nqs_conf::check_conf;
use nqs_devices::{check_devices, is_busy};
use nqs_limits::check_limits;
use nqs_routing::{find_peer, has_promise, has_room_for_hand, is_open_number, is_within_window};
use nqs_rows::{arrivals_used, check_rows, is_host_full, offer_full};
use nqs_state::HostState;
use nqs_types::{Carried, Change, Edit, HostId, PeerNumber, Phase, RequestId, Row, RowState};

/// Hops that a request may have before one more.
const MOST_HOPS: u8 = 32;

const LAST_SEQ: u32 = 4_294_967_294;

fn row_is_idle(state: &HostState, id: &RequestId) -> bool
    ensures { result ≡ row_passes is_idle id.now (content state.now) }
{
    match state.rows.get(id) {
        Some(row) => row.state != RowState::Running,
        None => false,
    }
}

fn row_is_ready(state: &HostState, id: &RequestId) -> bool
    ensures { result ≡ row_passes is_ready id.now (content state.now) }
{
    match state.rows.get(id) {
        Some(row) => row.is_ready(),
        None => false,
    }
}

fn row_may_hop(state: &HostState, id: &RequestId) -> bool
    ensures { result ≡ row_passes may_hop id.now (content state.now) }
{
    match state.rows.get(id) {
        Some(row) => row.is_ready() && row.hops < MOST_HOPS,
        None => false,
    }
}

fn is_offered(state: &HostState, peer: HostId, number: u64) -> bool
    ensures { result ≡ hand_passes is_offered_hand peer number (content state.now) }
{
    match state.hands.get(&PeerNumber { peer, number }) {
        Some(hand) => hand.phase == Phase::Offered,
        None => false,
    }
}

fn is_committed(state: &HostState, peer: HostId, number: u64) -> bool
    ensures { result ≡ hand_passes is_committed_hand peer number (content state.now) }
{
    match state.hands.get(&PeerNumber { peer, number }) {
        Some(hand) => hand.phase == Phase::Committed,
        None => false,
    }
}

fn are_offered(state: &HostState, keys: &[PeerNumber]) -> bool
    ensures { result ≡ are_offered keys.now (content state.now) }
{
    keys.iter()
        .all(|key: &PeerNumber| is_offered(state, key.peer, key.number))
}

fn is_next(state: &HostState, peer: HostId, number: u64) -> bool
    ensures { result ≡ passes (is_next number) (find_peer peer (content state.now)) }
{
    match find_peer(state, peer) {
        Some(known) => known.next == number && known.next < u64::MAX,
        None => false,
    }
}

fn is_new_stage(state: &HostState, peer: HostId, number: u64) -> bool
    ensures { result ≡ passes (is_new_stage number) (find_peer peer (content state.now)) }
{
    match find_peer(state, peer) {
        Some(known) => known.stage_got < number,
        None => false,
    }
}

fn submission_fits(state: &HostState, queue: &Name) -> bool
    ensures { result ≡ (has_queue queue.now (content state.now) && not (is_host_full (content state.now)) && nat_lt state.now.seq last_seq
        && not (arrivals_used (content state.now))) }
{
    state.queues.has(queue) && !is_host_full(state) && state.seq < LAST_SEQ && !arrivals_used(state)
}

fn device_fits(state: &HostState, device: &Option<Name>) -> bool
    ensures { result ≡ device_fits device.now (content state.now) }
{
    match device {
        Some(device) => state.devices.has(device) && !is_busy(state, device),
        None => true,
    }
}

fn next_is_within_window(state: &HostState, peer: HostId) -> bool
    ensures { result ≡ passes (is_within_window peer (content state.now)) (find_peer peer (content state.now)) }
{
    match find_peer(state, peer) {
        Some(known) => is_within_window(state, peer, known),
        None => false,
    }
}

fn opening_fits(state: &HostState, peer: HostId, number: u64, id: &RequestId) -> bool
    ensures { result ≡ hand_fits peer number id.now (content state.now) }
{
    row_may_hop(state, id)
        && is_next(state, peer, number)
        && has_room_for_hand(state, peer)
        && next_is_within_window(state, peer)
}

// Whether the request isn't known here: it is no row, and of this host only if its number was
// given.
fn is_unknown(state: &HostState, id: &RequestId) -> bool
    ensures { result ≡ is_unknown id.now (content state.now) }
{
    !state.rows.has(id) && (!(state.me == id.host) || id.seq <= state.seq)
}

fn promise_fits(
    state: &HostState,
    peer: HostId,
    number: u64,
    low: u64,
    queue: &Name,
    carried: &Carried,
) -> bool
    ensures { result ≡ promise_fits peer number low queue.now carried.now (content state.now) }
{
    let id = &carried.id;
    state.queues.has(queue)
        && is_open_number(state, peer, number)
        && !has_promise(state, peer, number)
        && (id.host.0 as usize) < state.site.len()
        && is_unknown(state, id)
        && !offer_full(state, peer, low)
        && !arrivals_used(state)
}

fn move_fits(state: &HostState, id: &RequestId, queue: &Name) -> bool
    ensures { result ≡ (row_passes may_hop id.now (content state.now) && has_queue queue.now (content state.now) && not (arrivals_used (content state.now))) }
{
    row_may_hop(state, id) && state.queues.has(queue) && !arrivals_used(state)
}

fn edit_fits(state: &HostState, edit: &Edit) -> bool
    requires site { length state.now.site ≤ 16 }
    requires held { held_count (content state.now) ≤ 10000 }
    ensures { result ≡ edit_fits edit.now (content state.now) }
{
    match edit {
        Edit::Conf(edit) => check_conf(state, edit).is_ok(),
        Edit::Limits(edit) => check_limits(state, edit).is_ok(),
        Edit::Access(edit) => check_access(state, edit).is_ok(),
        Edit::Devices(edit) => check_devices(state, edit).is_ok(),
        Edit::Rows(edit) => check_rows(state, edit).is_ok(),
    }
}

/// Whether the change may be made of the state. It takes no memory.
pub fn fits(state: &HostState, change: &Change) -> bool
    requires site { length state.now.site ≤ 16 }
    requires held { held_count (content state.now) ≤ 10000 }
    ensures { result ≡ fits change.now (content state.now) }
{
    match change {
        Change::Site { .. } => false,
        Change::Submitted { queue, .. } => submission_fits(state, queue),
        Change::Deleted(id) => row_is_idle(state, id),
        Change::Doomed(id) => row_runs(state, id),
        Change::Started { id, device } => row_is_ready(state, id) && device_fits(state, device),
        Change::Ended { id, .. } => row_runs(state, id),
        Change::Unlaunched(id) => row_runs(state, id),
        Change::Boot => true,
        Change::Edited(edit) => edit_fits(state, edit),
        Change::HandOpened {
            peer,
            number,
            id,
            ..
        } => opening_fits(state, *peer, *number, id),
        Change::HandCommitted { peer, number } => is_offered(state, *peer, *number),
        Change::HandRefused { peer, number, .. } => is_offered(state, *peer, *number),
        Change::HandsSilent { hands, .. } => are_offered(state, hands.as_slice()),
        Change::HandDone { peer, number } => is_committed(state, *peer, *number),
        Change::OldPromised {
            peer,
            number,
            queue,
            carried,
            ..
        } => promise_fits(state, *peer, *number, *number, queue, carried),
        Change::Promised {
            peer,
            number,
            low,
            queue,
            carried,
            ..
        } => promise_fits(state, *peer, *number, *low, queue, carried),
        Change::Accepted { peer, number } => has_promise(state, *peer, *number),
        Change::Dropped { peer, number } => has_promise(state, *peer, *number),
        Change::MovedLocal { id, queue } => move_fits(state, id, queue),
        Change::RefusedLocal { id, .. } => row_is_ready(state, id),
        Change::HeldFar(id) => row_is_ready(state, id),
        Change::StageGot { peer, number, .. } => is_new_stage(state, *peer, *number),
        Change::StageGone { peer, number } => state.stages.has(&PeerNumber {
            peer: *peer,
            number: *number,
        }),
        Change::FileGone { file } => state.files.has(file),
    }
}
