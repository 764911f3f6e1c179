//! The lines of a host's queues, those of a queue found by its name.

ghost use Rattle.std.specs.Prelude.{◌≡◌, ◌<◌, ◌≤◌, ◌-◌, ℕ, List, length, position, slice_get, true, false, Some, OnOk};
ghost use Rattle.std.specs.List.{list_any};
ghost use Rattle.nqs_base.specs.Same.{name_eq};
ghost use Rattle.nqs_index.specs.Lines.{entry_at, PutsBy, TakesBy};
ghost use Rattle.nqs_index.specs.Classes.{line_of, IsEntered, IsTaken};
ghost use Rattle.nqs_index.specs.QueueLines.{is_queue, classes_under, entered_if, taken_if, BecomesAt};

use crate::class::Class;
use crate::classes::{self, Classes};
use crate::key::Key;
use crate::steps::Steps;
use nqs_base::{Keyed, Memory, Name};
use nqs_base_tables::Table;
use nqs_types::RequestId;
use std::sync::ledger::Ledger;

/// The lines of a queue: one for each class of which a request waits.
pub struct QueueLines {
    pub name: Name,
    pub classes: Classes,
}

impl Drop for QueueLines {
    fn drop(self) {
        let QueueLines {
            name: _,
            classes: _,
        } = self;
    }
}

impl Keyed<Name> for QueueLines {
    ghost key_of = { λ q. q.name };

    fn key(&self) -> Name {
        self.name
    }
}

/// The lines of a host's queues.
pub type Lines = Table<Name, QueueLines>;

// Puts an entry into the line of a class of the queue at a place.
fn put_here<L: Ledger>(
    lines: &mut Lines,
    place: usize,
    class: &Class,
    key: Key,
    id: RequestId,
    steps: &mut Steps<L>,
) -> Result<(), Memory>
    requires { place < length lines.old.items }
    ensures ok { OnOk result (BecomesAt place (IsEntered class.now (entry_at key id)) lines.old.items lines.new.items) }
    ensures rises { steps.old ≤ steps.new }
    ensures cost { (q : _) → slice_get lines.old.items place ≡ Some q → PutsBy key (line_of class.now q.classes.items) (steps.new - steps.old) }
{
    let mut lent = QueueLines {
        name: lines.at(place).name,
        classes: Table::new(lines.allocator()),
    };
    lines.exchange(place, &mut lent);
    let put = classes::put(&mut lent.classes, class, key, id, steps);
    lines.exchange(place, &mut lent);
    put
}

// The place of the lines of a queue that has a place.
fn place_in(lines: &Lines, queue: &Name) -> usize
    requires { list_any (is_queue queue.now) lines.now.items ≡ true }
    ensures place { position (is_queue queue.now) lines.now.items ≡ Some result }
    ensures within { result < length lines.now.items }
{
    match lines.place(queue) {
        Some(place) => place,
        None => unreachable!(),
    }
}

// A queue that has no lines gets a place for them.
fn add(lines: &mut Lines, queue: &Name) -> Result<(), Memory>
    requires { list_any (is_queue queue.now) lines.old.items ≡ false }
    ensures classes { OnOk result ((q : List ℕ) → classes_under q lines.new.items ≡ classes_under q lines.old.items) }
    ensures there { OnOk result (list_any (is_queue queue.now) lines.new.items ≡ true) }
{
    lines.reserve(1)?;
    let classes = Table::new(lines.allocator());
    lines.push(QueueLines {
        name: *queue,
        classes,
    });
    Ok(())
}

// A queue has a place for its lines, which is made where there is none.
fn ensure(lines: &mut Lines, queue: &Name) -> Result<(), Memory>
    ensures classes { OnOk result ((q : List ℕ) → classes_under q lines.new.items ≡ classes_under q lines.old.items) }
    ensures there { OnOk result (list_any (is_queue queue.now) lines.new.items ≡ true) }
{
    if !lines.has(queue) {
        return add(lines, queue);
    }
    Ok(())
}

/// Puts an entry into the line of a class of a queue.
pub(crate) fn put<L: Ledger>(
    lines: &mut Lines,
    queue: &Name,
    class: &Class,
    key: Key,
    id: RequestId,
    steps: &mut Steps<L>,
) -> Result<(), Memory>
    ensures ok { OnOk result ((q : List ℕ) → classes_under q lines.new.items
        ≡ entered_if (name_eq q queue.now) class.now (entry_at key id) (classes_under q lines.old.items)) }
    ensures rises { steps.old ≤ steps.new }
    ensures cost { PutsBy key (line_of class.now (classes_under queue.now lines.old.items)) (steps.new - steps.old) }
{
    ensure(lines, queue)?;
    let place = place_in(lines, queue);
    put_here(lines, place, class, key, id, steps)
}

// Takes an entry out of the line of a class of the queue at a place, if it is there.
fn take_here<L: Ledger>(
    lines: &mut Lines,
    place: usize,
    class: &Class,
    key: Key,
    id: RequestId,
    steps: &mut Steps<L>,
)
    requires { place < length lines.old.items }
    ensures classes { BecomesAt place (IsTaken class.now (entry_at key id)) lines.old.items lines.new.items }
    ensures rises { steps.old ≤ steps.new }
    ensures cost { (q : _) → slice_get lines.old.items place ≡ Some q → TakesBy key (line_of class.now q.classes.items) (steps.new - steps.old) }
{
    let mut lent = QueueLines {
        name: lines.at(place).name,
        classes: Table::new(lines.allocator()),
    };
    lines.exchange(place, &mut lent);
    classes::take(&mut lent.classes, class, key, id, steps);
    lines.exchange(place, &mut lent);
}

/// Takes an entry out of the line of a class of a queue, if it is there.
pub(crate) fn take<L: Ledger>(
    lines: &mut Lines,
    queue: &Name,
    class: &Class,
    key: Key,
    id: RequestId,
    steps: &mut Steps<L>,
)
    ensures classes { (q : List ℕ) → classes_under q lines.new.items
        ≡ taken_if (name_eq q queue.now) class.now (entry_at key id) (classes_under q lines.old.items) }
    ensures rises { steps.old ≤ steps.new }
    ensures cost { TakesBy key (line_of class.now (classes_under queue.now lines.old.items)) (steps.new - steps.old) }
{
    match lines.place(queue) {
        Some(place) => take_here(lines, place, class, key, id, steps),
        None => {}
    }
}
