//! Whether requests, handovers, promises, stages and files are as the rules ask of a host in order.

ghost use Rattle.std.specs.Prelude.{◌≡◌};
ghost use Rattle.std.specs.List.{list_all};
ghost use Rattle.nqs_state.specs.State.{content};
ghost use Rattle.nqs_rules.specs.Find.{find_peer, find_row};
ghost use Rattle.nqs_rules.specs.Tests.{passes};
ghost use Rattle.nqs_rules.specs.InOrder.{is_given, is_hand_given, is_stage_given, is_routing_row, is_refused_right, is_id_right};
ghost use Rattle.nqs_rules.specs.InOrder.{is_device_there, is_count_right, is_hop_right, is_row_right, is_promise_right, is_hand_right, is_stage_right};
ghost use Rattle.nqs_rules.specs.InOrder.{is_file_right};
ghost use Rattle.nqs_rules.specs.Fits.{is_id_given};

use crate::order::{LAST_SEQ, Right, is_site_host};
use nqs_routing::{find_peer, is_open_number};
use nqs_state::HostState;
use nqs_types::{FileOut, Hand, HostId, Phase, Promise, Refused, RequestId, Row, RowState, Stage};

fn is_id_right(id: RequestId, state: &HostState) -> bool
    ensures { result ≡ is_id_right (content state.now) id }
{
    is_site_host(state, id.host) && (1 <= id.seq && id.seq <= LAST_SEQ)
}

/// Whether the request's number was given, if it is of this host.
pub(crate) fn is_id_given(id: RequestId, state: &HostState) -> bool
    ensures { result ≡ is_id_given (content state.now) id }
{
    !(state.me == id.host) || id.seq <= state.seq
}

fn is_device_there(row: &Row, state: &HostState) -> bool
    ensures { result ≡ is_device_there row.now.device (content state.now) }
{
    match &row.device {
        Some(device) => state.devices.has(device),
        None => true,
    }
}

fn are_refused_right(refused: &[Refused], state: &HostState) -> bool
    ensures { result ≡ list_all (is_refused_right (content state.now)) refused.now }
{
    refused
        .iter()
        .all(|refused: &Refused| is_site_host(state, refused.dest.host))
}

fn is_count_right(row: &Row) -> bool
    ensures { result ≡ is_count_right row.now }
{
    if row.state == RowState::Running {
        u32::from(row.starts) == u32::from(row.lost) + 1
    } else {
        row.starts == row.lost && row.device.is_none()
    }
}

fn is_hop_right(row: &Row) -> bool
    ensures { result ≡ is_hop_right row.now }
{
    if row.state == RowState::Routing {
        row.hops < 32
    } else {
        row.hops <= 32
    }
}

impl Right for Row {
    ghost right = { is_row_right };

    // What is put has a sane job.
    fn is_right(&self, state: &HostState) -> bool {
        is_id_right(self.id, state)
            && is_id_given(self.id, state)
            && state.queues.has(&self.queue)
            && is_device_there(self, state)
            && are_refused_right(self.refused.as_slice(), state)
            && self.arrival <= state.arrivals
            && self.lost < 65_535
            && is_count_right(self)
            && is_hop_right(self)
    }
}

impl Right for Promise {
    ghost right = { is_promise_right };

    fn is_right(&self, state: &HostState) -> bool {
        self.row.is_right(state)
            && self.row.state == RowState::Queued
            && 1 <= self.number
            && is_open_number(state, self.peer, self.number)
    }
}

fn is_given(number: u64, next: u64) -> bool
    ensures { result ≡ is_given number next }
{
    1 <= number && number < next
}

fn is_hand_given(hand: &Hand, state: &HostState) -> bool
    ensures { result ≡ passes (is_hand_given hand.now.number) (find_peer hand.now.peer (content state.now)) }
{
    match find_peer(state, hand.peer) {
        Some(known) => is_given(hand.number, known.next),
        None => false,
    }
}

fn is_row_routing(id: RequestId, state: &HostState) -> bool
    ensures { result ≡ passes is_routing_row (find_row id (content state.now)) }
{
    match state.rows.get(&id) {
        Some(row) => row.state == RowState::Routing,
        None => false,
    }
}

impl Right for Hand {
    ghost right = { is_hand_right };

    fn is_right(&self, state: &HostState) -> bool {
        is_id_right(self.id, state)
            && is_hand_given(self, state)
            && (!(self.phase == Phase::Offered) || is_row_routing(self.id, state))
    }
}

fn is_stage_given(peer: HostId, number: u64, state: &HostState) -> bool
    ensures { result ≡ passes (is_stage_given number) (find_peer peer (content state.now)) }
{
    match find_peer(state, peer) {
        Some(known) => is_given(number, known.stage_next),
        None => false,
    }
}

impl Right for Stage {
    ghost right = { is_stage_right };

    // What is put has a path that is one.
    fn is_right(&self, state: &HostState) -> bool {
        is_stage_given(self.peer, self.number, state)
    }
}

impl Right for FileOut {
    ghost right = { is_file_right };

    // What is put has a path that is one.
    fn is_right(&self, state: &HostState) -> bool {
        is_given(self.number, state.file_next)
    }
}
