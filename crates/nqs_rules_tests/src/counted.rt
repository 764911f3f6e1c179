//! Calls that count their comparisons, of which nobody wants the count.

ghost use Rattle.std.specs.Prelude.{◌≡◌, ◌<◌};

use nqs_base::Memory;
use nqs_index::{Index, Seat, Steps};
use nqs_state::HostState;
use nqs_types::Choice;
use std::marker::Brand;
use std::sync::ledger::{Blank, Ledger};

fn counted_enter<L: Ledger>(index: &mut Index, seat: &Seat, blank: Blank) -> Result<(), Memory>
    requires name { blank.name ≡ L.name }
    requires parts { blank.parts ≡ L.parts }
    requires some { 0 < L.parts }
{
    let mut steps = Steps::<L>::new(blank);
    index.enter(seat, &mut steps)
}

pub(crate) fn enter(index: &mut Index, seat: &Seat) -> Result<(), Memory> {
    counted_enter::<Brand>(index, seat, Blank::new(1))
}

fn counted_leave<L: Ledger>(index: &mut Index, seat: &Seat, blank: Blank)
    requires name { blank.name ≡ L.name }
    requires parts { blank.parts ≡ L.parts }
    requires some { 0 < L.parts }
{
    let mut steps = Steps::<L>::new(blank);
    index.leave(seat, &mut steps);
}

pub(crate) fn leave(index: &mut Index, seat: &Seat) {
    counted_leave::<Brand>(index, seat, Blank::new(1));
}

fn counted_pick<L: Ledger>(state: &HostState, now: u64, blank: Blank) -> Option<Choice>
    requires name { blank.name ≡ L.name }
    requires parts { blank.parts ≡ L.parts }
    requires some { 0 < L.parts }
{
    let mut steps = Steps::<L>::new(blank);
    nqs_order::pick(state, now, &mut steps)
}

pub(crate) fn pick(state: &HostState, now: u64) -> Option<Choice> {
    counted_pick::<Brand>(state, now, Blank::new(1))
}
