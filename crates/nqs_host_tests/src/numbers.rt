//! Numbers of handovers that are open at once, on one host: alpha. As the source it has eight to
//! beta; as the receiver, closed numbers of beta's apart from its floor, and a promise.

use crate::offers::{carried, fill_rows, promise};
use nqs_base::{Bytes, ListOf, Memory};
use nqs_builders::{add, hand, host, peer, queue};
use nqs_handover::{on_abort, on_commit, on_offer, on_tick};
use nqs_state::HostState;
use nqs_types::{Body, Change, HostId, Output, Peer, Phase, Plan, batch};
use std::alloc::Global;
use std::rt::HostRuntime;

const BETA: HostId = HostId(1);

// A word for what changes or goes out, the number of its handover, and its low or 0.
type Word = (&'static str, u64, u64);

const NOTHING: Word = ("nothing", 0, 0);

fn body_word(body: &Body) -> Word {
    match body {
        Body::Offer { number, low, .. } => ("offer", *number, *low),
        Body::Ready { number } => ("ready", *number, 0),
        Body::Commit { number } => ("commit", *number, 0),
        Body::Done { number } => ("done", *number, 0),
        _ => ("another", 0, 0),
    }
}

// What goes out at a place.
fn said(plan: &Plan, place: usize) -> Word {
    match plan.outputs.as_slice().get(place) {
        Some(Output::Send(message)) => body_word(&message.body),
        Some(_) => ("another", 0, 0),
        None => NOTHING,
    }
}

// A change; of offers that are taken back the moment until which their hosts are waited for, and
// how many they are.
fn changed(plan: &Plan) -> Word {
    match &plan.change {
        Some(Change::Promised { number, low, .. }) => ("promised", *number, *low),
        Some(Change::Accepted { number, .. }) => ("accepted", *number, 0),
        Some(Change::Dropped { number, .. }) => ("dropped", *number, 0),
        Some(Change::HandsSilent { until, hands }) => ("silent", *until, hands.len() as u64),
        Some(_) => ("another", 0, 0),
        None => NOTHING,
    }
}

// Eight handovers to beta, of which the fourth is committed: the first three have waited since 50,
// the others since 100.
fn fill_hands(state: &mut HostState) -> Result<(), Memory> {
    for number in 1..9 {
        let phase = if number == 4 {
            Phase::Committed
        } else {
            Phase::Offered
        };
        let since = if number < 4 { 50 } else { 100 };
        add(&mut state.hands, hand(number, 1, since, phase))?;
    }
    Ok(())
}

// What a tick changes, and the first six things that it says.
type Ticked = (Word, [Word; 6]);

fn ticked(plan: &Result<Plan, Memory>) -> Option<Ticked> {
    match plan {
        Ok(plan) => Some((
            changed(plan),
            [
                said(plan, 0),
                said(plan, 1),
                said(plan, 2),
                said(plan, 3),
                said(plan, 4),
                said(plan, 5),
            ],
        )),
        Err(_) => None,
    }
}

fn tick(alloc: Global, state: &mut HostState) -> Result<Option<Ticked>, Memory> {
    fill_hands(state)?;
    fill_rows(alloc, state)?;
    Ok(ticked(&on_tick(alloc, state, 120)))
}

#[test]
fn offers_that_stay_carry_the_raised_low(rt: HostRuntime) {
    let alloc = rt.alloc();
    let mut state = host(alloc);
    let answers = tick(alloc, &mut state);
    drop(state);
    let words = [
        ("commit", 4, 0),
        ("offer", 5, 4),
        ("offer", 6, 4),
        ("offer", 7, 4),
        ("offer", 8, 4),
        NOTHING,
    ];
    assert_eq!(rt; answers, Ok(Some((("silent", 420, 3), words))));
}

// Of beta the numbers up to 2 are closed, and 5.
fn beta(alloc: Global) -> Result<Peer, Memory> {
    let mut beta = peer(alloc, 1, 1);
    beta.floor = 2;
    beta.closed.push(5)?;
    Ok(beta)
}

fn fill_promises(alloc: Global, state: &mut HostState) -> Result<(), Memory> {
    state.site = ListOf::from_vec([batch(), batch()].to_vec(alloc)?);
    state.peers.push(peer(alloc, 1, 1))?;
    state.peers.push(beta(alloc)?)?;
    add(&mut state.queues, queue(alloc, batch()))?;
    add(&mut state.promises, promise(alloc, 4))
}

// What changes, and what goes out first.
fn answer(plan: &Result<Plan, Memory>) -> (Word, Word) {
    match plan {
        Ok(plan) => (changed(plan), said(plan, 0)),
        Err(_) => (("no memory", 0, 0), NOTHING),
    }
}

fn offered(alloc: Global, state: &HostState, number: u64, low: u64) -> (Word, Word) {
    let mut script: Bytes = ListOf::new(alloc);
    let carried = carried(alloc);
    let plan = on_offer(
        alloc,
        state,
        BETA,
        number,
        low,
        &batch(),
        &carried,
        &mut script,
    );
    answer(&plan)
}

// Offers of a number below the floor, at it, closed above it, promised, below the promised one and
// above all.
fn offers(alloc: Global, state: &HostState) -> [(Word, Word); 6] {
    [
        offered(alloc, state, 1, 1),
        offered(alloc, state, 2, 2),
        offered(alloc, state, 5, 3),
        offered(alloc, state, 4, 3),
        offered(alloc, state, 3, 3),
        offered(alloc, state, 6, 4),
    ]
}

// A commit of a closed number, of the promised one and of one that isn't known, and ABORT of the
// last two.
fn ends(alloc: Global, state: &HostState) -> [(Word, Word); 5] {
    [
        answer(&on_commit(alloc, state, BETA, 5)),
        answer(&on_commit(alloc, state, BETA, 4)),
        answer(&on_commit(alloc, state, BETA, 3)),
        answer(&on_abort(alloc, state, BETA, 4)),
        answer(&on_abort(alloc, state, BETA, 3)),
    ]
}

type Received = ([(Word, Word); 6], [(Word, Word); 5]);

fn receive(alloc: Global, state: &mut HostState) -> Result<Received, Memory> {
    fill_promises(alloc, state)?;
    Ok((offers(alloc, state), ends(alloc, state)))
}

#[test]
fn closed_numbers_stand_apart(rt: HostRuntime) {
    let alloc = rt.alloc();
    let mut state = host(alloc);
    let answers = receive(alloc, &mut state);
    drop(state);
    let offers = [
        (NOTHING, ("done", 1, 0)),
        (NOTHING, ("done", 2, 0)),
        (NOTHING, ("done", 5, 0)),
        (NOTHING, ("ready", 4, 0)),
        (("promised", 3, 3), ("ready", 3, 0)),
        (("promised", 6, 4), ("ready", 6, 0)),
    ];
    let ends = [
        (NOTHING, ("done", 5, 0)),
        (("accepted", 4, 0), ("done", 4, 0)),
        (NOTHING, NOTHING),
        (("dropped", 4, 0), NOTHING),
        (NOTHING, NOTHING),
    ];
    assert_eq!(rt; answers, Ok((offers, ends)));
}
