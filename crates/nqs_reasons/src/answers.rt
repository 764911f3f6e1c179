//! What a destination of a pipe queue last answered, or why it isn't asked.

ghost use Rattle.std.specs.Prelude.{◌≡◌, find, Some};
ghost use Rattle.std.specs.Option.{option_copied};
ghost use Rattle.nqs_state.specs.State.{content};
ghost use Rattle.nqs_rules.specs.Routing.{refuses};
ghost use Rattle.nqs_rules.specs.Reasons.{first_failing};
ghost use Rattle.nqs_rules.specs.Answers.{peer_conditions, host_conditions, answer_of};
ghost use Rattle.nqs_types.specs.declared.reason.DestAnswer.TheVariants.{MayBeTried};

use nqs_routing::{find_peer, has_room_for_hand, is_within_window, low, refuses};
use nqs_state::HostState;
use nqs_types::{Dest, DestAnswer, HostId, Peer, Refused, Row};

// The refusal of the destination, if it is one of these.
fn refusal_of<'a>(refused: &'a [Refused], dest: &Dest) -> Option<&'a Refused>
    ensures { option_copied result ≡ find (refuses dest.now) refused.now }
{
    refused.iter().find(|refused| refuses(refused, dest))
}

// What is said of a host of which this is known.
fn of_peer(state: &HostState, host: HostId, known: &Peer, now: u64) -> DestAnswer
    ensures { result ≡ first_failing (peer_conditions (Some known.now) host now (content state.now)) MayBeTried }
{
    if known.next == u64::MAX {
        return DestAnswer::NoNumberLeft;
    }
    if !has_room_for_hand(state, host) {
        return DestAnswer::HandingOver;
    }
    if !is_within_window(state, host, known) {
        return DestAnswer::NotSettled(low(state, host, known.next));
    }
    if now < known.wait {
        return DestAnswer::WaitedFor(known.wait);
    }
    DestAnswer::MayBeTried
}

// What is said of a host, by the host that asks.
fn of_host(state: &HostState, host: HostId, now: u64) -> DestAnswer
    ensures { result ≡ first_failing (host_conditions host now (content state.now)) MayBeTried }
{
    if state.me == host {
        return DestAnswer::MayBeTried;
    }
    match find_peer(state, host) {
        Some(known) => of_peer(state, host, known, now),
        None => DestAnswer::NoHost,
    }
}

/// What the destination last answered the request, or why it isn't asked at a moment, in seconds
/// since 1970. The destinations of a request are those of its queue. It takes no memory.
pub fn answer(state: &HostState, row: &Row, dest: &Dest, now: u64) -> DestAnswer
    ensures { result ≡ answer_of now (content state.now) row.now dest.now }
{
    match refusal_of(row.refused.as_slice(), dest) {
        Some(refusal) => DestAnswer::Refused(refusal.cause),
        None => of_host(state, dest.host, now),
    }
}
