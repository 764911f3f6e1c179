//! A sorted index of a host's rows: for each queue those that wait without a hold, by classes, and
//! of each class in the order in which they start; how many rows are active or run, so that no
//! limit needs a look at all of them, and which requests run. `specs/Indexed.antt` says what it is
//! that stands for rows. It is kept row by row: one enters, one leaves.

ghost use Rattle.std.specs.Prelude.{◌≡◌, ◌<◌, ◌≤◌, ◌+◌, ◌-◌, ◌*◌, ◌^◌, ℕ, List, [], length, true, false, IsOk, OnOk, IfOk, IfSome, IfNone, Bool, ◌&&◌};
ghost use Rattle.nqs_types.specs.Ids.{id_eq};
ghost use Rattle.nqs_types.specs.RowStates.{is_running, is_active};
ghost use Rattle.nqs_index.specs.declared.seat.Seat.{Seat as SeatValue};
ghost use Rattle.nqs_index.specs.Indexed.{counted_in, classes_in, line_in, is_crowded, running_in, number, IsMore, MayHave, Stands, StandsForIndex};
ghost use Rattle.nqs_index.specs.Classes.{line_of};
ghost use Rattle.nqs_index.specs.Lines.{PutsBy, TakesBy};
ghost use Rattle.nqs_index.specs.QueueLines.{classes_under, entered_if, taken_if};
ghost use Rattle.nqs_index.specs.Runs.{ids_of, IsLeast};
ghost use Rattle.nqs_index.specs.Seats.{counts_for, entry_of, waits_in, is_of_device, ones_of_active, ones_of_running, StandInOrder};
ghost use Rattle.nqs_index.specs.Tallies.{count_of, one, CanAdd, Adds};

use crate::classes::Classes;
use crate::lines::{Lines, put, take};
use crate::nobody::Nobody;
use crate::runs::{Runs, end, least, start};
use crate::seat::{Seat, seats_of, sort};
use crate::steps::Steps;
use crate::tally::{Counters, Tally, count, lower, raise};
use nqs_base::{Memory, Name};
use nqs_base_tables::Table;
use nqs_types::{RequestId, Row, RowState};
use std::alloc::Global;
use std::sync::ledger::Ledger;

/// What is kept of a host's rows.
pub struct Index {
    counters: Counters,
    lines: Lines,
    nobody: Nobody,
    runs: Runs,
    // So many queues and so many counters it may have before it is made anew.
    most: usize,
}

impl Drop for Index {
    fn drop(self) {
        let Index {
            counters: _,
            lines: _,
            nobody: _,
            runs: _,
            most: _,
        } = self;
    }
}

// A row that runs or is on its way is counted for its queue and its owner.
fn count_active(counters: &mut Counters, seat: &Seat) -> Result<(), Memory>
    ensures { CanAdd (λ k. ones_of_active k seat.now) counters.old.items
        → OnOk result (Adds (λ k. ones_of_active k seat.now) counters.old.items counters.new.items) }
{
    raise(counters, &Tally::Active(seat.queue))?;
    raise(counters, &Tally::Owned(seat.queue, seat.class.owner))
}

// The device that a row runs on is counted, if it is on one.
fn count_device(counters: &mut Counters, device: Option<Name>) -> Result<(), Memory>
    ensures { CanAdd (λ k. one (is_of_device k device)) counters.old.items
        → OnOk result (Adds (λ k. one (is_of_device k device)) counters.old.items counters.new.items) }
{
    match device {
        Some(device) => raise(counters, &Tally::Printing(device)),
        None => Ok(()),
    }
}

// A row that runs is counted for its queue and its device.
fn count_running(counters: &mut Counters, seat: &Seat) -> Result<(), Memory>
    ensures { CanAdd (λ k. ones_of_running k seat.now) counters.old.items
        → OnOk result (Adds (λ k. ones_of_running k seat.now) counters.old.items counters.new.items) }
{
    raise(counters, &Tally::Running(seat.queue))?;
    count_device(counters, seat.device)
}

// A row that runs is counted as active, and as running.
fn count_both(counters: &mut Counters, seat: &Seat) -> Result<(), Memory>
    ensures { CanAdd (λ k. ones_of_active k seat.now + ones_of_running k seat.now) counters.old.items
        → OnOk result (Adds (λ k. ones_of_active k seat.now + ones_of_running k seat.now) counters.old.items counters.new.items) }
{
    count_active(counters, seat)?;
    count_running(counters, seat)
}

// A row is counted under each of its tallies.
fn count_in(counters: &mut Counters, seat: &Seat) -> Result<(), Memory>
    ensures adds { CanAdd (λ k. one (counts_for k seat.now)) counters.old.items
        → OnOk result (Adds (λ k. one (counts_for k seat.now)) counters.old.items counters.new.items) }
    ensures none { is_active seat.now.state ≡ false → IsOk result }
{
    match seat.state {
        RowState::Queued => Ok(()),
        RowState::Routing => count_active(counters, seat),
        RowState::Running => count_both(counters, seat),
    }
}

fn count_out_device(counters: &mut Counters, device: Option<Name>)
    ensures { (k : Tally) → count_of k counters.new.items ≡ count_of k counters.old.items - one (is_of_device k device) }
{
    match device {
        Some(device) => lower(counters, &Tally::Printing(device)),
        None => {}
    }
}

// A row is counted no more under any of its tallies.
fn count_out(counters: &mut Counters, seat: &Seat)
    ensures { (k : Tally) → count_of k counters.new.items ≡ count_of k counters.old.items - one (counts_for k seat.now) }
{
    if seat.state == RowState::Queued {
        return;
    }
    lower(counters, &Tally::Active(seat.queue));
    lower(counters, &Tally::Owned(seat.queue, seat.class.owner));
    if seat.state == RowState::Routing {
        return;
    }
    lower(counters, &Tally::Running(seat.queue));
    count_out_device(counters, seat.device);
}

// A row that waits without a hold comes into the line of its queue and class.
fn line_up<L: Ledger>(lines: &mut Lines, seat: &Seat, steps: &mut Steps<L>) -> Result<(), Memory>
    ensures ok { OnOk result ((q : List ℕ) → classes_under q lines.new.items
        ≡ entered_if (waits_in q seat.now) seat.now.class (entry_of seat.now) (classes_under q lines.old.items)) }
    ensures none { seat.now.ready ≡ false → IsOk result }
    ensures rises { steps.old ≤ steps.new }
    ensures cost { PutsBy seat.now.key (line_of seat.now.class (classes_under seat.now.queue lines.old.items)) (steps.new - steps.old) }
{
    if !seat.ready {
        return Ok(());
    }
    put(lines, &seat.queue, &seat.class, seat.key, seat.id, steps)
}

fn step_out<L: Ledger>(lines: &mut Lines, seat: &Seat, steps: &mut Steps<L>)
    ensures classes { (q : List ℕ) → classes_under q lines.new.items ≡ taken_if (waits_in q seat.now) seat.now.class (entry_of seat.now)
        (classes_under q lines.old.items) }
    ensures rises { steps.old ≤ steps.new }
    ensures cost { TakesBy seat.now.key (line_of seat.now.class (classes_under seat.now.queue lines.old.items)) (steps.new - steps.old) }
{
    if !seat.ready {
        return;
    }
    take(lines, &seat.queue, &seat.class, seat.key, seat.id, steps);
}

// A row that runs is among those that do.
fn start_run(runs: &mut Runs, seat: &Seat) -> Result<(), Memory>
    ensures runs { (is_running seat.now.state ≡ true → number (id_eq seat.now.id) (ids_of runs.old.items) + 1 < 2 ^ 64) → OnOk result ((test : RequestId → Bool)
        → number test (ids_of runs.new.items) ≡ number test (ids_of runs.old.items) + one (is_running seat.now.state && test seat.now.id)) }
    ensures none { is_running seat.now.state ≡ false → IsOk result }
{
    if seat.state == RowState::Running {
        return start(runs, &seat.id);
    }
    Ok(())
}

// A row that runs, and is among those that do, is so no more.
fn end_run(runs: &mut Runs, seat: &Seat)
    ensures { (is_running seat.now.state ≡ true → 0 < number (id_eq seat.now.id) (ids_of runs.old.items)) → (test : RequestId → Bool)
        → number test (ids_of runs.old.items) ≡ number test (ids_of runs.new.items) + one (is_running seat.now.state && test seat.now.id) }
{
    if seat.state == RowState::Running {
        end(runs, &seat.id);
    }
}

// So many queues and so many counters an index may have, however few rows there are.
const FEW: usize = 1_024;

// So many an index of so many rows may have.
fn most_of(rows: usize) -> usize
    ensures { 8 * rows + 1024 < 2 ^ 64 → result ≡ 8 * rows + 1024 }
{
    rows.saturating_mul(8).saturating_add(FEW)
}

impl Index {
    /// An index of no rows.
    pub fn empty(alloc: Global) -> Index
        ensures stands { Stands result [] }
        ensures most { MayHave 0 result }
    {
        Index::roomy(alloc, FEW)
    }

    // An index of no rows, which is crowded only by more queues or counters than these.
    fn roomy(alloc: Global, most: usize) -> Index
        ensures stands { Stands result [] }
        ensures most { result.most ≡ most }
    {
        Index {
            counters: Table::new(alloc),
            lines: Table::new(alloc),
            nobody: Nobody::new(alloc),
            runs: Table::new(alloc),
            most,
        }
    }

    /// A row comes in. A class goes with the last of its waiting requests; a queue and a counter
    /// stay, until the index is made anew (`is_crowded`). An `Err` is the want of memory and comes
    /// by nothing else; after it the index is of no use. The last entry of the row's class is asked
    /// first, so a row that starts behind all of its class takes one comparison.
    pub fn enter<L: Ledger>(&mut self, seat: &Seat, steps: &mut Steps<L>) -> Result<(), Memory>
        ensures stands { (ts us : List SeatValue) → Stands self.old ts → IsMore seat.now ts us → length us < 2 ^ 64
            → OnOk result (Stands self.new us) }
        ensures none { seat.now.ready ≡ false → is_active seat.now.state ≡ false → IsOk result }
        ensures most { self.new.most ≡ self.old.most }
        ensures rises { steps.old ≤ steps.new }
        ensures cost { PutsBy seat.now.key (line_in seat.now.queue seat.now.class self.old) (steps.new - steps.old) }
    {
        line_up(&mut self.lines, seat, steps)?;
        start_run(&mut self.runs, seat)?;
        count_in(&mut self.counters, seat)
    }

    /// A row that is in goes. Its entry is found by halving the line of its class.
    pub fn leave<L: Ledger>(&mut self, seat: &Seat, steps: &mut Steps<L>)
        ensures stands { (ts us : List SeatValue) → Stands self.old us → IsMore seat.now ts us → Stands self.new ts }
        ensures most { self.new.most ≡ self.old.most }
        ensures rises { steps.old ≤ steps.new }
        ensures cost { TakesBy seat.now.key (line_in seat.now.queue seat.now.class self.old) (steps.new - steps.old) }
    {
        step_out(&mut self.lines, seat, steps);
        end_run(&mut self.runs, seat);
        count_out(&mut self.counters, seat);
    }

    // The index of seats, of which none starts before an earlier one.
    fn of<L: Ledger>(alloc: Global, seats: &[Seat], steps: &mut Steps<L>) -> Result<Index, Memory>
        requires { StandInOrder seats.now }
        ensures stands { IfOk result (λ i. Stands i seats.now) }
        ensures most { IfOk result (λ i. MayHave (length seats.now) i) }
        ensures rises { steps.old ≤ steps.new }
        ensures cost { steps.new ≤ steps.old + length seats.now }
    {
        let most = most_of(seats.len());
        let mut index = Index::roomy(alloc, most);
        let mut place = 0;
        while place < seats.len() {
            index.enter(&seats[place], steps)?;
            place += 1;
        }
        Ok(index)
    }

    /// The index of rows. They are sorted, whose comparisons no contract bounds, and come in in the
    /// order in which they start. So each is the last of its line, and takes one comparison at
    /// most.
    pub fn build<L: Ledger>(
        alloc: Global,
        rows: &Table<RequestId, Row>,
        steps: &mut Steps<L>,
    ) -> Result<Index, Memory>
        ensures stands { IfOk result (λ i. StandsForIndex i rows.now.items) }
        ensures most { IfOk result (λ i. MayHave (length rows.now.items) i) }
        ensures rises { steps.old ≤ steps.new }
        ensures cost { steps.new ≤ steps.old + length rows.now.items }
    {
        let mut seats = seats_of(alloc, rows)?;
        sort(&mut seats);
        Index::of(alloc, &seats, steps)
    }

    /// Whether it has more queues or counters than the rows of its making can have had, by as many
    /// again and more: those of names long gone are among them. One that is made anew has them no
    /// more. So many came in since that its making costs each of them little.
    pub fn is_crowded(&self) -> bool
        ensures { result ≡ is_crowded self.now }
    {
        self.most < self.lines.len() || self.most < self.counters.len()
    }

    /// How many rows are counted under a tally.
    pub fn count(&self, tally: &Tally) -> usize
        ensures { result ≡ counted_in tally.now self.now }
    {
        count(&self.counters, tally)
    }

    /// The least running request, by the host of its submission and then by its number. It takes a
    /// look at those that run.
    pub fn least_running(&self) -> Option<RequestId>
        ensures some { IfSome result (λ id. IsLeast id (running_in self.now)) }
        ensures none { IfNone result (running_in self.now ≡ []) }
    {
        least(&self.runs)
    }

    /// The rows of a queue that wait without a hold: the lines of their classes, in no order of
    /// classes, each in the order in which its rows start. No line is empty, and no class has two.
    pub fn classes(&self, queue: &Name) -> &Classes
        ensures { result.now.items ≡ classes_in queue.now self.now }
    {
        match self.lines.get(queue) {
            Some(lines) => &lines.classes,
            None => self.nobody.classes(),
        }
    }
}
