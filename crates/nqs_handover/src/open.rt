//! A handover is opened.
ghost use Rattle.std.specs.Prelude.{◌≡◌, ◌∷◌, [], ◌<◌, IfOk, IsTrue};
ghost use Rattle.std.specs.Option.{option_copied};
ghost use Rattle.nqs_state.specs.State.{content};
ghost use Rattle.nqs_rules.specs.Routing.{low};
ghost use Rattle.nqs_rules.specs.Handover.{carried_of, offer, open_hand};
ghost use Rattle.nqs_rules.specs.Start.{dest_at};
ghost use Rattle.nqs_rules.specs.Stepped.{plan_of};
ghost use Rattle.nqs_types.specs.declared.change.Change.TheVariants.{HandOpened};
ghost use Rattle.nqs_plans.specs.More.{change_alone, with_more};
ghost use Rattle.nqs_handover.specs.Opened.{may_count_hops, open_hand_at};

use nqs_base::{ListOf, Memory};
use nqs_plans::{add_kept, change_alone, copy_job, message, quiet};
use nqs_routing::{find_peer, low};
use nqs_state::HostState;
use nqs_types::{Body, Carried, Change, Dest, Plan, Row};
use std::alloc::Global;

fn carried_of(row: &Row) -> Result<Carried, Memory>
    requires { row.now.hops < 255 }
    ensures { IfOk result (λ carried. carried ≡ carried_of row.now) }
{
    Ok(Carried {
        id: row.id,
        job: copy_job(&row.job)?,
        starts: row.starts,
        lost: row.lost,
        hops: row.hops + 1,
    })
}

// The plan, and an offer of the row to the destination behind its outputs.
pub(crate) fn add_offer(
    alloc: Global,
    state: &HostState,
    plan: Plan,
    dest: &Dest,
    number: u64,
    low: u64,
    row: &Row,
) -> Result<Plan, Memory>
    requires { row.now.hops < 255 }
    ensures { IfOk result (λ more. more ≡ with_more plan (offer state.now.me dest.now.host number low dest.now.queue row.now ∷ [])) }
{
    let offer = Body::Offer {
        number,
        low,
        queue: dest.queue,
        carried: carried_of(row)?,
        script: ListOf::new(alloc),
    };
    add_kept(plan, message(state, dest.host, offer), row.script)
}

// The row is offered under the peer's next number, which is greater than those of the handovers
// to it: so the low that goes out is that with the new one.
fn offer_under(
    alloc: Global,
    state: &HostState,
    number: u64,
    row: &Row,
    dest: &Dest,
    now: u64,
) -> Result<Plan, Memory>
    requires { row.now.hops < 255 }
    ensures { IfOk result (λ plan. plan ≡ with_more (change_alone (HandOpened dest.now.host number row.now.id dest.now.queue now) [])
        (offer state.now.me dest.now.host number (low dest.now.host number state.now.hands.items) dest.now.queue row.now ∷ [])) }
{
    let opened = Change::HandOpened {
        peer: dest.host,
        number,
        id: row.id,
        queue: dest.queue,
        since: now,
    };
    let plan = change_alone(alloc, opened);
    let low = low(state, dest.host, number);
    add_offer(alloc, state, plan, dest, number, low, row)
}

/// Offers the row to a destination on another host, under the next number for that host. `now` is
/// the moment, in seconds since 1970. Nothing happens where the destination's host isn't of the
/// site.
pub fn offer_row(
    alloc: Global,
    state: &HostState,
    row: &Row,
    dest: &Dest,
    now: u64,
) -> Result<Plan, Memory>
    requires { row.now.hops < 255 }
    ensures { IfOk result (λ plan. plan ≡ plan_of (open_hand dest.now now (content state.now) row.now)) }
{
    match find_peer(state, dest.host) {
        Some(peer) => offer_under(alloc, state, peer.next, row, dest, now),
        None => Ok(quiet(alloc)),
    }
}

/// The destination at a place of the list of the row's queue, if there is one.
pub fn dest_at<'a>(state: &'a HostState, row: &Row, place: usize) -> Option<&'a Dest>
    ensures { option_copied result ≡ dest_at place row.now (content state.now) }
{
    match state.queues.get(&row.queue) {
        Some(queue) => queue.dests.as_slice().get(place),
        None => None,
    }
}

/// Offers a row, by its place among the host's rows, to the destination at a place of its queue's
/// list, as `offer_row` does. Nothing happens where there is no such row or destination.
pub fn open_hand(
    alloc: Global,
    state: &HostState,
    row: usize,
    dest: usize,
    now: u64,
) -> Result<Plan, Memory>
    requires { IsTrue (may_count_hops (content state.now)) }
    ensures { IfOk result (λ plan. plan ≡ plan_of (open_hand_at row dest now (content state.now))) }
{
    let Some(row) = state.rows.get_at(row) else {
        return Ok(quiet(alloc));
    };
    match dest_at(state, row, dest) {
        Some(dest) => offer_row(alloc, state, row, dest, now),
        None => Ok(quiet(alloc)),
    }
}
