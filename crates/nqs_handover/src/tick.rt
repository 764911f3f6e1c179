//! What a tick says again, and which offers it takes back.
ghost use Rattle.std.specs.Prelude.{◌≡◌, ◌∷◌, ◌++◌, [], false, IfOk, IsTrue};
ghost use Rattle.nqs_rules.specs.Find.{find_row};
ghost use Rattle.nqs_state.specs.State.{content};
ghost use Rattle.nqs_rules.specs.Routing.{low};
ghost use Rattle.nqs_rules.specs.Handover.{later, is_silent, silent_hands, staying_hands, repeat_offer, repeat_phase, repeat_hand, send_inquire, silence};
ghost use Rattle.nqs_rules.specs.Handover.{on_tick};
ghost use Rattle.nqs_rules.specs.Stepped.{plan_of};
ghost use Rattle.nqs_plans.specs.More.{with_more};
ghost use Rattle.nqs_handover.specs.Opened.{may_count_hops};
ghost use Rattle.nqs_handover.specs.Silent.{silent_key, stays_to};

use crate::open::add_offer;
use nqs_base::{Items, Keyed, ListOf, Memory};
use nqs_plans::{add, change_alone, fold_each, message, quiet};
use nqs_routing::{is_before, is_hand_to};
use nqs_state::HostState;
use nqs_types::{Body, Change, Dest, Hand, HostId, PeerNumber, Phase, Plan, Promise};
use std::alloc::Global;

// The moment so many seconds later, or the last one.
fn later(now: u64, seconds: u64) -> u64
    ensures { result ≡ later now seconds }
{
    now.saturating_add(seconds)
}

// Whether the offer had no answer for too long.
fn is_silent(state: &HostState, now: u64, hand: &Hand) -> bool
    ensures { result ≡ is_silent now (content state.now) hand.now }
{
    hand.phase == Phase::Offered && later(hand.since, state.patience) <= now
}

// The keys, and that of the handover behind them where its offer is silent.
fn add_silent(
    state: &HostState,
    now: u64,
    keys: Items<PeerNumber>,
    hand: &Hand,
) -> Result<Items<PeerNumber>, Memory>
    ensures { IfOk result (λ more. more ≡ keys ++ silent_key now (content state.now) hand.now) }
{
    let mut keys = keys;
    if is_silent(state, now, hand) {
        keys.push(hand.key())?;
    }
    Ok(keys)
}

fn silent_hands(alloc: Global, state: &HostState, now: u64) -> Result<ListOf<PeerNumber>, Memory>
    ensures { IfOk result (λ keys. keys ≡ silent_hands now (content state.now)) }
{
    let keys = fold_each(
        Items::new(alloc),
        &state.hands,
        |keys: Items<PeerNumber>, hand: &Hand| add_silent(state, now, keys, hand),
    )?;
    Ok(ListOf::from_vec(keys.into_vec()))
}

// The silent offers are taken back, if there are any.
fn silence(alloc: Global, state: &HostState, now: u64) -> Result<Plan, Memory>
    ensures { IfOk result (λ plan. plan ≡ plan_of (record {
      change = silence now state.now.retry_wait (silent_hands now (content state.now));
      outputs =
          [];
      halts = false;
    })) }
{
    let hands = silent_hands(alloc, state, now)?;
    if hands.len() == 0 {
        return Ok(quiet(alloc));
    }
    let until = later(now, state.retry_wait);
    Ok(change_alone(alloc, Change::HandsSilent { until, hands }))
}

// Whether the handover goes to the host, and stays at the tick.
fn stays_to(state: &HostState, now: u64, hand: &Hand, peer: HostId) -> bool
    ensures { result ≡ stays_to now (content state.now) peer hand.now }
{
    is_hand_to(hand, peer) && !is_silent(state, now, hand)
}

// The low of the host behind the tick's change: by a number that stays, of the handovers that do.
fn low_behind(state: &HostState, now: u64, peer: HostId, number: u64) -> u64
    ensures { result ≡ low peer number (staying_hands now (content state.now)) }
{
    let least = state.hands.best(
        |hand: &Hand| stays_to(state, now, hand, peer),
        |hand: &Hand, other: &Hand| is_before(hand, other),
    );
    match least {
        Some((_, hand)) => hand.number.min(number),
        None => number,
    }
}

// The plan, and the offer of the handover's row again.
fn repeat_offer(
    alloc: Global,
    state: &HostState,
    now: u64,
    plan: Plan,
    hand: &Hand,
) -> Result<Plan, Memory>
    requires { IsTrue (may_count_hops (content state.now)) }
    ensures { IfOk result (λ more. more ≡ with_more plan (repeat_offer now (content state.now) hand.now (find_row hand.now.id (content state.now)))) }
{
    match state.rows.get(&hand.id) {
        Some(row) => {
            let dest = Dest {
                queue: hand.queue,
                host: hand.peer,
            };
            let low = low_behind(state, now, hand.peer, hand.number);
            add_offer(alloc, state, plan, &dest, hand.number, low, row)
        }
        None => Ok(plan),
    }
}

fn repeat_phase(
    alloc: Global,
    state: &HostState,
    now: u64,
    plan: Plan,
    hand: &Hand,
) -> Result<Plan, Memory>
    requires { IsTrue (may_count_hops (content state.now)) }
    ensures { IfOk result (λ more. more ≡ with_more plan (repeat_phase hand.now.phase now (content state.now) hand.now)) }
{
    match hand.phase {
        Phase::Offered => repeat_offer(alloc, state, now, plan, hand),
        Phase::Committed => {
            let number = hand.number;
            add(plan, message(state, hand.peer, Body::Commit { number }))
        }
    }
}

// The plan, and what a tick says again of the handover.
fn repeat_hand(
    alloc: Global,
    state: &HostState,
    now: u64,
    plan: Plan,
    hand: &Hand,
) -> Result<Plan, Memory>
    requires { IsTrue (may_count_hops (content state.now)) }
    ensures { IfOk result (λ more. more ≡ with_more plan (repeat_hand now (content state.now) hand.now)) }
{
    if is_silent(state, now, hand) {
        return Ok(plan);
    }
    repeat_phase(alloc, state, now, plan, hand)
}

// The plan, and the question whether the promised request comes.
fn inquire(state: &HostState, plan: Plan, promise: &Promise) -> Result<Plan, Memory>
    ensures { IfOk result (λ more. more ≡ with_more plan (send_inquire (content state.now) promise.now ∷ [])) }
{
    let number = promise.number;
    add(plan, message(state, promise.peer, Body::Inquire { number }))
}

/// A tick at a moment, in seconds since 1970: silent offers are taken back, the other offers and
/// the commits go out again, and each promise is asked for.
pub fn on_tick(alloc: Global, state: &HostState, now: u64) -> Result<Plan, Memory>
    requires { IsTrue (may_count_hops (content state.now)) }
    ensures { IfOk result (λ plan. plan ≡ plan_of (on_tick now (content state.now))) }
{
    let plan = silence(alloc, state, now)?;
    let plan = fold_each(plan, &state.hands, |plan: Plan, hand: &Hand| {
        repeat_hand(alloc, state, now, plan, hand)
    })?;
    fold_each(plan, &state.promises, |plan: Plan, promise: &Promise| {
        inquire(state, plan, promise)
    })
}
