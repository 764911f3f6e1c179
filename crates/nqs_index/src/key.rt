//! The key by which a queue's waiting rows stand in order. Only `compare` tells their order, and
//! each comparison is counted.

ghost use Rattle.std.specs.Prelude.{◌≡◌, ◌+◌, true};
ghost use Rattle.nqs_index.specs.Keys.{key_of, key_cmp};

use crate::steps::Steps;
use nqs_types::Row;
use std::cmp::Ordering;
use std::sync::ledger::Ledger;

/// What orders a row among those of its queue.
#[derive(Clone, Copy)]
pub struct Key {
    priority: u8,
    arrival: u64,
}

impl Key {
    /// The key of a row.
    pub fn of(row: &Row) -> Key
        ensures { result ≡ key_of row.now }
    {
        Key {
            priority: row.job.priority,
            arrival: row.arrival,
        }
    }

    /// How two keys stand to each other: `Less` where the first one's row starts first, which has
    /// the greater priority, or the same one and the earlier arrival. It takes one step.
    pub fn compare<L: Ledger>(&self, other: &Key, steps: &mut Steps<L>) -> Ordering
        ensures order { result ≡ key_cmp self.now other.now }
        ensures cost { steps.new ≡ steps.old + 1 }
    {
        steps.tick();
        let by_priority = other.priority.cmp(&self.priority);
        by_priority.then(self.arrival.cmp(&other.arrival))
    }

    /// Whether it is this key.
    pub(crate) fn is(&self, other: &Key) -> bool
        ensures is { result ≡ true → self.now ≡ other.now }
        ensures same { self.now ≡ other.now → result ≡ true }
    {
        self.priority == other.priority && self.arrival == other.arrival
    }
}
