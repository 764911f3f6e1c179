//! Each call of handovers that takes memory, once, on one host: alpha, which has a committed
//! handover to beta, an offered one, and a promise of beta's. What changes, and what is said.

ghost use Rattle.std.specs.Prelude.{IsTrue};
ghost use Rattle.nqs_state.specs.State.{content};
ghost use Rattle.nqs_handover.specs.Opened.{may_count_hops};

use crate::offers::{carried, fill_rows, promise};
use nqs_base::{ListOf, Memory};
use nqs_builders::{add, hand, host, peer, queue, text};
use nqs_handover::{on_commit, on_inquire, on_offer, on_ready, on_tick, open_hand};
use nqs_state::HostState;
use nqs_types::{Body, Change, Dest, HostId, Kind, Output, Phase, Plan, QueueDef, batch};
use std::alloc::Global;
use std::rt::HostRuntime;

const BETA: HostId = HostId(1);

fn pipe_queue(alloc: Global, dests: ListOf<Dest>) -> QueueDef {
    let mut queue = queue(alloc, batch());
    queue.kind = Kind::Pipe;
    queue.pipe_only = true;
    queue.dests = dests;
    queue
}

// A host that knows beta, with a queue that leads there.
fn fill_site(alloc: Global, state: &mut HostState) -> Result<(), Memory> {
    state.site = ListOf::from_vec([batch(), batch()].to_vec(alloc)?);
    state.peers.push(peer(alloc, 9, 1))?;
    state.peers.push(peer(alloc, 9, 1))?;
    let there = Dest {
        queue: batch(),
        host: BETA,
    };
    let dests = ListOf::of(alloc, there)?;
    add(&mut state.queues, pipe_queue(alloc, dests))?;
    state.seq = 8;
    state.arrivals = 8;
    Ok(())
}

fn fill_hands(alloc: Global, state: &mut HostState) -> Result<(), Memory> {
    add(&mut state.hands, hand(1, 3, 100, Phase::Committed))?;
    add(&mut state.hands, hand(2, 1, 100, Phase::Offered))?;
    add(&mut state.promises, promise(alloc, 3))
}

// A word for what changes or goes out, and the number of its handover.
type Word = (&'static str, u64);

fn body_text(body: &Body) -> Word {
    match body {
        Body::Offer { number, .. } => ("offer", *number),
        Body::Ready { number } => ("ready", *number),
        Body::Commit { number } => ("commit", *number),
        Body::Done { number } => ("done", *number),
        Body::Inquire { number } => ("inquire", *number),
        _ => ("another", 0),
    }
}

// What goes out at a place.
fn said(plan: &Plan, place: usize) -> Word {
    match plan.outputs.as_slice().get(place) {
        Some(Output::Send(message)) => body_text(&message.body),
        _ => ("nothing", 0),
    }
}

fn change(plan: &Plan) -> Word {
    match &plan.change {
        Some(Change::HandOpened { number, .. }) => ("opened", *number),
        Some(Change::HandCommitted { number, .. }) => ("committed", *number),
        Some(Change::Promised { number, .. }) => ("promised", *number),
        Some(Change::Accepted { number, .. }) => ("accepted", *number),
        Some(_) => ("another", 0),
        None => ("nothing", 0),
    }
}

// What changes, and what goes out first.
type Answer = (Word, Word);

// That of a plan, and nothing where there is none.
fn answer(plan: &Result<Plan, Memory>) -> Answer {
    match plan {
        Ok(plan) => (change(plan), said(plan, 0)),
        Err(_) => (("no memory", 0), ("no memory", 0)),
    }
}

// What is said again at a tick.
fn said_again(plan: &Result<Plan, Memory>) -> (Word, Word, Word) {
    match plan {
        Ok(plan) => (said(plan, 0), said(plan, 1), said(plan, 2)),
        Err(_) => (("no memory", 0), ("no memory", 0), ("no memory", 0)),
    }
}

fn offered(alloc: Global, state: &HostState) -> Result<Answer, Memory> {
    let mut script = text(alloc, b"w")?;
    let carried = carried(alloc);
    let plan = on_offer(alloc, state, BETA, 4, 3, &batch(), &carried, &mut script);
    Ok(answer(&plan))
}

// As the receiver: an offer, and the commit of a promise.
fn received(alloc: Global, state: &HostState) -> Result<(Answer, Answer), Memory> {
    let promised = offered(alloc, state)?;
    let accepted = answer(&on_commit(alloc, state, BETA, 3));
    Ok((promised, accepted))
}

// As the source: one that is opened, one that the receiver is ready for, and one that it asks for.
fn sent(alloc: Global, state: &HostState) -> (Answer, Answer, Answer)
    requires { IsTrue (may_count_hops (content state.now)) }
{
    let opened = answer(&open_hand(alloc, state, 0, 0, 120));
    let committed = answer(&on_ready(alloc, state, BETA, 2));
    let again = answer(&on_inquire(alloc, state, BETA, 1));
    (opened, committed, again)
}

fn ticked(alloc: Global, state: &HostState) -> (Word, Word, Word)
    requires { IsTrue (may_count_hops (content state.now)) }
{
    said_again(&on_tick(alloc, state, 120))
}

// What it answers as the receiver, as the source, and at a tick.
type Answers = (
    (Answer, Answer),
    (Answer, Answer, Answer),
    (Word, Word, Word),
);

fn answers(alloc: Global, state: &mut HostState) -> Result<Answers, Memory> {
    fill_site(alloc, state)?;
    fill_hands(alloc, state)?;
    fill_rows(alloc, state)?;
    let received = received(alloc, state)?;
    Ok((received, sent(alloc, state), ticked(alloc, state)))
}

#[test]
fn a_request_is_handed_over(rt: HostRuntime) {
    let alloc = rt.alloc();
    let mut state = host(alloc);
    let answers = answers(alloc, &mut state);
    drop(state);
    let received = (
        (("promised", 4), ("ready", 4)),
        (("accepted", 3), ("done", 3)),
    );
    let sent = (
        (("opened", 9), ("offer", 9)),
        (("committed", 2), ("commit", 2)),
        (("nothing", 0), ("commit", 1)),
    );
    let again = (("commit", 1), ("offer", 2), ("inquire", 3));
    assert_eq!(rt; answers, Ok((received, sent, again)));
}
