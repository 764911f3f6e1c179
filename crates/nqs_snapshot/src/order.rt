//! What the rules ask of a host in order, value by value. `nqs_rules/specs/InOrder.antt` has it.

ghost use Rattle.std.specs.Prelude.{◌≡◌, nat_lt, Bool};
ghost use Rattle.std.specs.List.{AllByRecursion, list_all};
ghost use Rattle.nqs_base.specs.declared.extent.Extent.{Extent};
ghost use Rattle.nqs_state.specs.State.{State, content};
ghost use Rattle.nqs_rules.specs.Conf.{is_wait};
ghost use Rattle.nqs_rules.specs.Fits.{is_site_host};
ghost use Rattle.nqs_rules.specs.InOrder.{is_default_there, is_site_right, are_lists_short, are_parameters_right, ascends_from, is_peer_right};

use crate::lists::InSnapshot;
use nqs_base::{Key, Keyed};
use nqs_base_tables::Table;
use nqs_records::Put;
use nqs_state::HostState;
use nqs_types::{HostId, Peer};

/// The greatest number of a request.
pub(crate) const LAST_SEQ: u32 = 4_294_967_294;

/// A value of a table that the rules ask something of.
pub(crate) trait Right: Put<InSnapshot> {
    ghost right: { State Extent → Self → Bool };

    fn is_right(&self, state: &HostState) -> bool
        requires { Self.IsPut self.now }
        ensures { result ≡ right (content state.now) self.now };
}

/// Whether each value of a table is right.
pub(crate) fn all_right<K: Key, V: Keyed<K> + Drop + Right>(
    table: &Table<K, V>,
    state: &HostState,
) -> bool
    requires { AllByRecursion V.IsPut table.now.items }
    ensures { result ≡ list_all (V.right (content state.now)) table.now.items }
{
    let mut place = 0usize;
    while place < table.len() {
        if !table.at(place).is_right(state) {
            return false;
        }
        place += 1;
    }
    true
}

/// Whether the host is of the site.
pub(crate) fn is_site_host(state: &HostState, host: HostId) -> bool
    ensures { result ≡ is_site_host host (content state.now) }
{
    (host.0 as usize) < state.site.len()
}

/// Whether the site has 1 to 16 hosts, this one among them, and something is known of each.
pub(crate) fn is_site_right(state: &HostState) -> bool
    ensures { result ≡ is_site_right (content state.now) }
{
    1 <= state.site.len()
        && state.site.len() <= 16
        && is_site_host(state, state.me)
        && state.peers.len() == state.site.len()
}

/// Whether no list is longer than it may be.
pub(crate) fn are_lists_short(state: &HostState) -> bool
    ensures { result ≡ are_lists_short (content state.now) }
{
    state.queues.len() <= 256
        && state.complexes.len() <= 64
        && state.devices.len() <= 64
        && state.managers.len() <= 256
        && state.operators.len() <= 256
        && state.rows.len() as u128 + state.promises.len() as u128 <= 10_000
}

fn is_wait(seconds: u64) -> bool
    ensures { result ≡ is_wait seconds }
{
    1 <= seconds && seconds <= 86_400
}

fn is_default_there(state: &HostState) -> bool
    ensures { result ≡ is_default_there state.now.default_queue (content state.now) }
{
    match &state.default_queue {
        Some(queue) => state.queues.has(queue),
        None => true,
    }
}

/// Whether the host's parameters are within their limits.
pub(crate) fn are_parameters_right(state: &HostState) -> bool
    ensures { result ≡ are_parameters_right (content state.now) }
{
    state.global_limit <= 10_000
        && is_wait(state.patience)
        && is_wait(state.retry_wait)
        && state.seq <= LAST_SEQ
        && state.arrivals <= u64::MAX
        && 1 <= state.file_next
        && state.file_next <= u64::MAX
        && is_default_there(state)
}

fn is_below(number: u64, next: u64) -> bool
    ensures { result ≡ nat_lt number next }
{
    number < next
}

// Whether each number is greater than the one before it, the first one than the floor.
fn ascends_from(floor: u64, closed: &[u64]) -> bool
    ensures { result ≡ ascends_from floor closed.now }
{
    let mut last = floor;
    let mut rest = closed;
    while let Some((number, more)) = rest.split_first() {
        if !is_below(last, *number) {
            return false;
        }
        last = *number;
        rest = more;
    }
    true
}

fn is_peer_right(peer: &Peer) -> bool
    ensures { result ≡ is_peer_right peer.now }
{
    1 <= peer.next && 1 <= peer.stage_next && ascends_from(peer.floor, peer.closed.as_slice())
}

/// Whether the numbers that each peer gets next begin at 1, and its closed ones ascend above its
/// floor.
pub(crate) fn are_peers_right(state: &HostState) -> bool
    ensures { result ≡ list_all is_peer_right state.now.peers }
{
    state
        .peers
        .as_slice()
        .iter()
        .all(|peer| is_peer_right(peer))
}
