//! The lines of a queue, one for each class of its waiting requests.

ghost use Rattle.std.specs.Prelude.{◌≡◌, ◌≤◌, ◌<◌, ◌-◌, [], ◌∷◌, ◌++◌, length, position, slice_get, true, false, Some, OnOk, OnErr};
ghost use Rattle.std.specs.List.{list_any};
ghost use Rattle.nqs_base_tables.specs.Table.{change_first};
ghost use Rattle.nqs_index.specs.Lines.{entry_at, PutsBy, TakesBy};
ghost use Rattle.nqs_index.specs.Classes.{is_class, new_line, with_taken, with_class, entered_in, taken_from, is_left_empty, line_of, PutsAt, TakesAt};

use crate::class::Class;
use crate::key::Key;
use crate::line::Line;
use crate::steps::Steps;
use nqs_base::{Keyed, Memory};
use nqs_base_tables::Table;
use nqs_types::RequestId;
use std::sync::ledger::Ledger;

/// The waiting requests of a class, in the order in which they start.
pub struct ClassLine {
    pub class: Class,
    pub line: Line,
}

impl Drop for ClassLine {
    fn drop(self) {
        let ClassLine { class: _, line: _ } = self;
    }
}

impl Keyed<Class> for ClassLine {
    ghost key_of = { λ l. l.class };

    fn key(&self) -> Class {
        self.class
    }
}

/// The lines of a queue, each found by its class.
pub type Classes = Table<Class, ClassLine>;

// Puts an entry into the line at a place. An `Err` changes no line.
fn put_at<L: Ledger>(
    classes: &mut Classes,
    place: usize,
    key: Key,
    id: RequestId,
    steps: &mut Steps<L>,
) -> Result<(), Memory>
    requires { place < length classes.old.items }
    ensures ok { OnOk result (PutsAt place (entry_at key id) classes.old.items classes.new.items) }
    ensures err { OnErr result (classes.new.items ≡ classes.old.items) }
    ensures rises { steps.old ≤ steps.new }
    ensures cost { (l : _) → slice_get classes.old.items place ≡ Some l → PutsBy key l.line (steps.new - steps.old) }
{
    let mut line = ClassLine {
        class: classes.at(place).class,
        line: Line::new(classes.allocator()),
    };
    classes.exchange(place, &mut line);
    let put = line.line.put(key, id, steps);
    classes.exchange(place, &mut line);
    put
}

// The place of the line of a class that has one.
fn place_in(classes: &Classes, class: &Class) -> usize
    requires { list_any (is_class class.now) classes.now.items ≡ true }
    ensures place { position (is_class class.now) classes.now.items ≡ Some result }
    ensures within { result < length classes.now.items }
{
    match classes.place(class) {
        Some(place) => place,
        None => unreachable!(),
    }
}

// A class that has no line gets an empty one.
fn add(classes: &mut Classes, class: &Class) -> Result<(), Memory>
    requires { list_any (is_class class.now) classes.old.items ≡ false }
    ensures { OnOk result (classes.new.items ≡ classes.old.items ++ new_line class.now ∷ []) }
{
    classes.reserve(1)?;
    let line = Line::new(classes.allocator());
    classes.push(ClassLine {
        class: *class,
        line,
    });
    Ok(())
}

// A class has a line, which is made where there is none.
fn ensure(classes: &mut Classes, class: &Class) -> Result<(), Memory>
    ensures items { OnOk result (classes.new.items ≡ with_class class.now classes.old.items) }
    ensures there { OnOk result (list_any (is_class class.now) classes.new.items ≡ true) }
{
    if !classes.has(class) {
        return add(classes, class);
    }
    Ok(())
}

/// Puts an entry into the line of a class, which is made where there is none.
pub(crate) fn put<L: Ledger>(
    classes: &mut Classes,
    class: &Class,
    key: Key,
    id: RequestId,
    steps: &mut Steps<L>,
) -> Result<(), Memory>
    ensures ok { OnOk result (classes.new.items ≡ entered_in class.now (entry_at key id) classes.old.items) }
    ensures rises { steps.old ≤ steps.new }
    ensures cost { PutsBy key (line_of class.now classes.old.items) (steps.new - steps.old) }
{
    ensure(classes, class)?;
    let place = place_in(classes, class);
    put_at(classes, place, key, id, steps)
}

// Takes an entry out of the line at a place, if it is there.
fn take_at<L: Ledger>(
    classes: &mut Classes,
    place: usize,
    key: Key,
    id: RequestId,
    steps: &mut Steps<L>,
)
    requires { place < length classes.old.items }
    ensures taken { TakesAt place (entry_at key id) classes.old.items classes.new.items }
    ensures rises { steps.old ≤ steps.new }
    ensures cost { (l : _) → slice_get classes.old.items place ≡ Some l → TakesBy key l.line (steps.new - steps.old) }
{
    let mut line = ClassLine {
        class: classes.at(place).class,
        line: Line::new(classes.allocator()),
    };
    classes.exchange(place, &mut line);
    line.line.take(key, id, steps);
    classes.exchange(place, &mut line);
}

// Takes an entry out of the line of a class, if it is there. The line stays.
fn take_in<L: Ledger>(
    classes: &mut Classes,
    class: &Class,
    key: Key,
    id: RequestId,
    steps: &mut Steps<L>,
)
    ensures items { classes.new.items ≡ change_first (is_class class.now) (with_taken (entry_at key id)) classes.old.items }
    ensures rises { steps.old ≤ steps.new }
    ensures cost { TakesBy key (line_of class.now classes.old.items) (steps.new - steps.old) }
{
    match classes.place(class) {
        Some(place) => take_at(classes, place, key, id, steps),
        None => {}
    }
}

// Whether a class has a line without an entry.
fn is_left_empty(classes: &Classes, class: &Class) -> bool
    ensures { result ≡ is_left_empty class.now classes.now.items }
{
    match classes.get(class) {
        Some(line) => line.line.len() == 0,
        None => false,
    }
}

/// Takes an entry out of the line of a class, if it is there. A line that gets empty goes.
pub(crate) fn take<L: Ledger>(
    classes: &mut Classes,
    class: &Class,
    key: Key,
    id: RequestId,
    steps: &mut Steps<L>,
)
    ensures items { classes.new.items ≡ taken_from class.now (entry_at key id) classes.old.items }
    ensures rises { steps.old ≤ steps.new }
    ensures cost { TakesBy key (line_of class.now classes.old.items) (steps.new - steps.old) }
{
    take_in(classes, class, key, id, steps);
    if is_left_empty(classes, class) {
        classes.remove_key(class);
    }
}
