//! The index that a host's requests keep, or the want of memory for it.

ghost use Rattle.std.specs.Prelude.{◌≡◌, ◌<◌, ◌^◌, List, length, map, true, IfOk, OnOk, OnErr};
ghost use Rattle.nqs_types.specs.declared.request.Row.{Row};
ghost use Rattle.nqs_base.specs.declared.extent.Extent.{Extent};
ghost use Rattle.nqs_index.specs.declared.seat.Seat.{Seat as SeatValue};
ghost use Rattle.nqs_index.specs.Seats.{seat_of};
ghost use Rattle.nqs_index.specs.Indexed.{IsMore, Stands, StandsForIndex};
ghost use Rattle.nqs_state.specs.Kept.{IfThere, is_kept, is_lacking, is_there};

use nqs_base::Memory;
use nqs_base_tables::Table;
use nqs_index::{Index, Seat, Steps};
use nqs_types::{RequestId, Row};
use std::marker::Brand;
use std::sync::ledger::{Blank, Ledger};

fn counted_build<L: Ledger>(table: &Table<RequestId, Row>, blank: Blank) -> Result<Index, Memory>
    requires name { blank.name ≡ L.name }
    requires parts { blank.parts ≡ L.parts }
    requires some { 0 < L.parts }
    ensures { IfOk result (λ i. StandsForIndex i table.now.items) }
{
    let mut steps = Steps::<L>::new(blank);
    Index::build(table.allocator(), table, &mut steps)
}

// The index of a table's rows. Who counts its comparisons is told them by `Index::build`.
fn build(table: &Table<RequestId, Row>) -> Result<Index, Memory>
    ensures { IfOk result (λ i. StandsForIndex i table.now.items) }
{
    counted_build::<Brand>(table, Blank::new(1))
}

fn counted_enter<L: Ledger>(index: &mut Index, seat: &Seat, blank: Blank) -> Result<(), Memory>
    requires name { blank.name ≡ L.name }
    requires parts { blank.parts ≡ L.parts }
    requires some { 0 < L.parts }
    ensures { (ts us : List SeatValue) → Stands index.old ts → IsMore seat.now ts us → length us < 2 ^ 64 → OnOk result (Stands index.new us) }
{
    let mut steps = Steps::<L>::new(blank);
    index.enter(seat, &mut steps)
}

fn enter(index: &mut Index, seat: &Seat) -> Result<(), Memory>
    ensures { (ts us : List SeatValue) → Stands index.old ts → IsMore seat.now ts us → length us < 2 ^ 64 → OnOk result (Stands index.new us) }
{
    counted_enter::<Brand>(index, seat, Blank::new(1))
}

fn counted_leave<L: Ledger>(index: &mut Index, seat: &Seat, blank: Blank)
    requires name { blank.name ≡ L.name }
    requires parts { blank.parts ≡ L.parts }
    requires some { 0 < L.parts }
    ensures { (ts us : List SeatValue) → Stands index.old us → IsMore seat.now ts us → Stands index.new ts }
{
    let mut steps = Steps::<L>::new(blank);
    index.leave(seat, &mut steps);
}

fn leave(index: &mut Index, seat: &Seat)
    ensures { (ts us : List SeatValue) → Stands index.old us → IsMore seat.now ts us → Stands index.new ts }
{
    counted_leave::<Brand>(index, seat, Blank::new(1));
}

/// The index of a host's requests. Who keeps one has it, unless memory was refused for it: then it
/// is made anew with the next room for a request, or when all requests are revised.
#[derive(Drop)]
pub enum Indexed {
    /// It stands for the requests.
    There(Index),
    /// Memory was refused for it.
    Lacking(Memory),
    /// None is kept, since a host is being told by its journal.
    NotYet,
}

impl Indexed {
    /// The index of a table's rows.
    pub(crate) fn of(table: &Table<RequestId, Row>) -> Indexed
        ensures stands { IfThere (λ i. StandsForIndex i table.now.items) result }
        ensures kept { is_kept result ≡ true }
    {
        match build(table) {
            Ok(index) => Indexed::There(index),
            Err(memory) => Indexed::Lacking(memory),
        }
    }

    /// Whether it is there.
    pub(crate) fn is_there(&self) -> bool
        ensures { result ≡ is_there self.now }
    {
        match self {
            Indexed::There(_) => true,
            _ => false,
        }
    }

    /// Whether memory was refused for it.
    pub(crate) fn is_lacking(&self) -> bool
        ensures { result ≡ is_lacking self.now }
    {
        match self {
            Indexed::Lacking(_) => true,
            _ => false,
        }
    }

    // Whether it is there, and has more names than it may have.
    fn is_crowded(&self) -> bool
        ensures { result ≡ true → is_kept self.now ≡ true }
    {
        match self {
            Indexed::There(index) => index.is_crowded(),
            _ => false,
        }
    }

    // A row comes into the index, if it is there.
    fn take_in(&mut self, seat: &Seat) -> Result<(), Memory>
        ensures stands { (ts us : List SeatValue) → IfThere (λ i. Stands i ts) self.old → IsMore seat.now ts us → length us < 2 ^ 64
            → OnOk result (IfThere (λ i. Stands i us) self.new) }
        ensures err { OnErr result (is_kept self.old ≡ true) }
        ensures kept { is_kept self.new ≡ is_kept self.old }
    {
        match self {
            Indexed::There(index) => enter(index, seat),
            _ => Ok(()),
        }
    }

    // One that is crowded is made anew.
    fn thin(&mut self, table: &Table<RequestId, Row>)
        ensures stands { IfThere (λ i. StandsForIndex i table.now.items) self.old → IfThere (λ i. StandsForIndex i table.now.items) self.new }
        ensures kept { is_kept self.new ≡ is_kept self.old }
    {
        if self.is_crowded() {
            *self = Indexed::of(table);
        }
    }

    /// A row that has come into the table comes in. An index that lacks memory for it goes, and one
    /// that is crowded is made anew.
    pub(crate) fn enter(&mut self, seat: &Seat, table: &Table<RequestId, Row>)
        ensures stands { (ts : List SeatValue) → IfThere (λ i. Stands i ts) self.old → IsMore seat.now ts (map seat_of table.now.items)
            → IfThere (λ i. StandsForIndex i table.now.items) self.new }
        ensures kept { is_kept self.new ≡ is_kept self.old }
    {
        let _few = table.len();
        match self.take_in(seat) {
            Ok(()) => self.thin(table),
            Err(memory) => *self = Indexed::Lacking(memory),
        }
    }

    /// A row that goes leaves the index, if it is there.
    pub(crate) fn leave(&mut self, seat: &Seat)
        ensures stands { (ts us : List SeatValue) → IfThere (λ i. Stands i us) self.old → IsMore seat.now ts us → IfThere (λ i. Stands i ts) self.new }
        ensures kept { is_kept self.new ≡ is_kept self.old }
    {
        match self {
            Indexed::There(index) => leave(index, seat),
            _ => {}
        }
    }

    /// The seat of a row of the table becomes another one. One that is the same leaves the index
    /// alone.
    pub(crate) fn reseat(&mut self, before: &Seat, after: &Seat, table: &Table<RequestId, Row>)
        ensures stands { (ts us : List SeatValue) → IfThere (λ i. Stands i us) self.old → IsMore before.now ts us
            → IsMore after.now ts (map seat_of table.now.items) → IfThere (λ i. StandsForIndex i table.now.items) self.new }
        ensures same { before.now ≡ after.now → self.new ≡ self.old }
        ensures kept { is_kept self.new ≡ is_kept self.old }
    {
        if before.is(after) {
            return;
        }
        self.leave(before);
        self.enter(after, table);
    }
}
