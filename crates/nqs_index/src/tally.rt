//! Counts of rows, each under what it counts.

ghost use Rattle.std.specs.Prelude.{◌≡◌, ◌<◌, ◌+◌, ◌-◌, ◌^◌, if◌then◌else◌, true, false, OnOk};
ghost use Rattle.std.specs.List.{list_any};
ghost use Rattle.std.specs.Cmp.{partial_equiv_from_equiv};
ghost use Rattle.nqs_base_tables.specs.Table.{change_first};
ghost use Rattle.nqs_index.specs.Tallies.{tally_eq, tally_equiv, tally_fed, tally_fed_alike, is_counter, with_count, with_less, count_of, one, CanAdd, Adds};

use nqs_base::{Key, Keyed, Memory, Name};
use nqs_base_tables::Table;
use std::hash::{Hash, Hasher};

/// Which rows are counted.
#[derive(Clone, Copy)]
pub enum Tally {
    /// Those of a queue that run or are on their way.
    Active(Name),
    /// Those of a queue that run.
    Running(Name),
    /// Those of a queue and of an owner that run or are on their way: the queue, and the owner.
    Owned(Name, Name),
    /// Those that run on a device.
    Printing(Name),
}

/// How many rows are counted under a tally.
pub struct Counter {
    tally: Tally,
    count: usize,
}

impl Drop for Counter {
    fn drop(self) {
        let Counter { tally: _, count: _ } = self;
    }
}

// Written out: what is derived of an enum says less of two that compare alike.
impl PartialEq for Tally {
    ghost eq = { tally_eq };

    ghost laws = { partial_equiv_from_equiv tally_equiv };

    fn eq(&self, other: &Tally) -> bool {
        match (self, other) {
            (Tally::Active(queue), Tally::Active(other)) => queue == other,
            (Tally::Running(queue), Tally::Running(other)) => queue == other,
            (Tally::Owned(queue, owner), Tally::Owned(other, user)) => {
                queue == other && owner == user
            }
            (Tally::Printing(device), Tally::Printing(other)) => device == other,
            _ => false,
        }
    }
}

impl Eq for Tally {
    ghost laws = { tally_equiv };
}

impl Hash for Tally {
    ghost hash_input = { tally_fed };

    ghost respects_eq = { tally_fed_alike };

    fn hash<H: Hasher>(&self, state: &mut H) {
        match self {
            Tally::Active(queue) => {
                state.write_u8(0);
                queue.hash(state);
            }
            Tally::Running(queue) => {
                state.write_u8(1);
                queue.hash(state);
            }
            Tally::Owned(queue, owner) => {
                state.write_u8(2);
                queue.hash(state);
                owner.hash(state);
            }
            Tally::Printing(device) => {
                state.write_u8(3);
                device.hash(state);
            }
        }
    }
}

impl Key for Tally {
    ghost use Rattle.nqs_index.specs.Tallies.{tally_exact};

    ghost exact = { tally_exact };

    fn copy(&self) -> Self {
        *self
    }
}

impl Keyed<Tally> for Counter {
    ghost key_of = { λ c. c.tally };

    fn key(&self) -> Tally {
        self.tally
    }
}

/// Counts of rows.
pub type Counters = Table<Tally, Counter>;

/// The count under a tally.
pub(crate) fn count(counters: &Counters, tally: &Tally) -> usize
    ensures { result ≡ count_of tally.now counters.now.items }
{
    match counters.get(tally) {
        Some(counter) => counter.count,
        None => 0,
    }
}

// A counter that is there gets another count.
fn replace(counters: &mut Counters, tally: &Tally, count: usize)
    ensures { counters.new.items ≡ change_first (is_counter tally.now) (with_count count) counters.old.items }
{
    counters.change(tally, |counter: &mut Counter| counter.count = count);
}

// A tally that has no counter gets one.
fn add(counters: &mut Counters, tally: &Tally, count: usize) -> Result<(), Memory>
    requires { list_any (is_counter tally.now) counters.old.items ≡ false }
    ensures { OnOk result ((k : Tally) → count_of k counters.new.items ≡ (if tally_eq k tally.now then count else count_of k counters.old.items)) }
{
    counters.reserve(1)?;
    counters.push(Counter {
        tally: *tally,
        count,
    });
    Ok(())
}

// The count under a tally becomes this one.
fn set(counters: &mut Counters, tally: &Tally, count: usize) -> Result<(), Memory>
    ensures { OnOk result ((k : Tally) → count_of k counters.new.items ≡ (if tally_eq k tally.now then count else count_of k counters.old.items)) }
{
    if !counters.has(tally) {
        return add(counters, tally, count);
    }
    replace(counters, tally, count);
    Ok(())
}

// One more than the count under a tally, where that can be told.
fn next(counters: &Counters, tally: &Tally) -> usize
    ensures { count_of tally.now counters.now.items + 1 < 2 ^ 64 → result ≡ count_of tally.now counters.now.items + 1 }
{
    count(counters, tally).saturating_add(1)
}

/// Counts one more under a tally.
pub(crate) fn raise(counters: &mut Counters, tally: &Tally) -> Result<(), Memory>
    ensures { CanAdd (λ k. one (tally_eq k tally.now)) counters.old.items
        → OnOk result (Adds (λ k. one (tally_eq k tally.now)) counters.old.items counters.new.items) }
{
    let count = next(counters, tally);
    set(counters, tally, count)
}

fn lower_one(counter: &mut Counter)
    ensures { counter.new ≡ with_less counter.old }
{
    counter.count = counter.count.saturating_sub(1);
}

/// Counts one less under a tally.
pub(crate) fn lower(counters: &mut Counters, tally: &Tally)
    ensures { (k : Tally) → count_of k counters.new.items ≡ count_of k counters.old.items - one (tally_eq k tally.now) }
{
    counters.change(tally, |counter: &mut Counter| lower_one(counter));
}
