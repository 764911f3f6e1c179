//! Whether numbers of a host come once: each is looked for under itself.

ghost use Rattle.std.specs.Prelude.{◌≡◌, ◌++◌, ◌∷◌, [], map, filter, OnOk, IfOk};
ghost use Rattle.nqs_state.specs.State.{content};
ghost use Rattle.nqs_types.specs.Ids.{id_eq};
ghost use Rattle.nqs_rules.specs.Fits.{is_offered_hand};
ghost use Rattle.nqs_rules.specs.InOrder.{are_distinct, same_number, arrivals_of, offered_ids};
ghost use Rattle.nqs_snapshot.specs.Sound.{are_numbers_distinct};

use crate::tables::fill;
use nqs_base::{Items, Keyed};
use nqs_base_tables::Table;
use nqs_state::HostState;
use nqs_types::{Hand, PeerNumber, Phase, Promise, RequestId, Row};
use std::alloc::{AllocError, Global};

// A number under itself.
#[derive(Clone, Copy)]
pub(crate) struct Number(u64);

impl Keyed<u64> for Number {
    ghost key_of = { λ n. n.0 };

    fn key(&self) -> u64 {
        self.0
    }
}

// A request under itself.
#[derive(Clone, Copy)]
pub(crate) struct Request(RequestId);

impl Keyed<RequestId> for Request {
    ghost key_of = { λ r. r.0 };

    fn key(&self) -> RequestId {
        self.0
    }
}

fn numbers_differ(alloc: Global, numbers: Vec<Number>) -> Result<bool, AllocError>
    ensures { IfOk result (λ differ. differ ≡ are_distinct same_number (map (λ n. n.0) numbers.items)) }
{
    let mut table: Table<u64, Number> = Table::new(alloc);
    fill(&mut table, Items::from_vec(numbers))
}

fn requests_differ(alloc: Global, requests: Vec<Request>) -> Result<bool, AllocError>
    ensures { IfOk result (λ differ. differ ≡ are_distinct id_eq (map (λ r. r.0) requests.items)) }
{
    let mut table: Table<RequestId, Request> = Table::new(alloc);
    fill(&mut table, Items::from_vec(requests))
}

fn add_row_arrivals(
    rows: &Table<RequestId, Row>,
    numbers: &mut Vec<Number>,
) -> Result<(), AllocError>
    ensures { OnOk result (map (λ n. n.0) numbers.new.items ≡ map (λ n. n.0) numbers.old.items ++ map (λ r. r.arrival) rows.now.items) }
{
    let mut place = 0usize;
    while place < rows.len() {
        numbers.push(Number(rows.at(place).arrival))?;
        place += 1;
    }
    Ok(())
}

fn add_promise_arrivals(
    promises: &Table<PeerNumber, Promise>,
    numbers: &mut Vec<Number>,
) -> Result<(), AllocError>
    ensures { OnOk result (map (λ n. n.0) numbers.new.items ≡ map (λ n. n.0) numbers.old.items ++ map (λ p. p.row.arrival) promises.now.items) }
{
    let mut place = 0usize;
    while place < promises.len() {
        numbers.push(Number(promises.at(place).row.arrival))?;
        place += 1;
    }
    Ok(())
}

// The request of a hand that is offered.
fn add_if_offered(hand: &Hand, requests: &mut Vec<Request>) -> Result<(), AllocError>
    ensures { OnOk result (map (λ r. r.0) requests.new.items ≡ map (λ r. r.0) requests.old.items ++ map (λ h. h.id) (filter is_offered_hand (hand.now ∷ []))) }
{
    if hand.phase == Phase::Offered {
        requests.push(Request(hand.id))?;
    }
    Ok(())
}

fn add_offered(
    hands: &Table<PeerNumber, Hand>,
    requests: &mut Vec<Request>,
) -> Result<(), AllocError>
    ensures { OnOk result (map (λ r. r.0) requests.new.items ≡ map (λ r. r.0) requests.old.items ++ map (λ h. h.id) (filter is_offered_hand hands.now.items)) }
{
    let mut place = 0usize;
    while place < hands.len() {
        add_if_offered(hands.at(place), requests)?;
        place += 1;
    }
    Ok(())
}

// Whether no arrival comes twice among rows and promises.
fn arrivals_differ(alloc: Global, state: &HostState) -> Result<bool, AllocError>
    ensures { IfOk result (λ differ. differ ≡ are_distinct same_number (arrivals_of (content state.now))) }
{
    let mut numbers = Vec::new(alloc);
    add_row_arrivals(state.rows.table(), &mut numbers)?;
    add_promise_arrivals(&state.promises, &mut numbers)?;
    numbers_differ(alloc, numbers)
}

// Whether no request has two offers.
fn offers_differ(alloc: Global, state: &HostState) -> Result<bool, AllocError>
    ensures { IfOk result (λ differ. differ ≡ are_distinct id_eq (offered_ids (content state.now))) }
{
    let mut requests = Vec::new(alloc);
    add_offered(&state.hands, &mut requests)?;
    requests_differ(alloc, requests)
}

/// Whether no arrival comes twice, and no request has two offers.
#[tactic(auto, unfolding(crate::specs::Sound::are_numbers_distinct))]
pub(crate) fn are_numbers_distinct(alloc: Global, state: &HostState) -> Result<bool, AllocError>
    ensures { IfOk result (λ distinct. distinct ≡ are_numbers_distinct (content state.now)) }
{
    if !arrivals_differ(alloc, state)? {
        return Ok(false);
    }
    offers_differ(alloc, state)
}
