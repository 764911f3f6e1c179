//! The requests of a host: a table of them, which is changed by the calls here alone, and beside it
//! an index that stands for the rows. The index is only for speed: where memory is refused for it
//! there is none, but that want, and no call fails for that. While a host is told by its journal
//! none is kept: its boot makes it, behind all records.
ghost use Rattle.std.specs.Prelude.{◌≡◌, ℕ, ◌+◌, ◌≤◌, ◌<◌, [], ◌∷◌, ◌++◌, length, map, position, find, Some, None, OnOk, IfSome, Bool};
ghost use Rattle.std.specs.Prelude.{List, Option, Contains, filter, if◌then◌else◌, slice_get, true, false};
ghost use Rattle.std.specs.Option.{option_copied, option_map};
ghost use Rattle.std.specs.List.{filter_map, list_all, list_any};
ghost use Rattle.std.specs.Fn.{FnOnceReturnsAtMut, FnReturnsAt, FnReturnsAtPair};
ghost use Rattle.std.specs.Map.Calls.{CalledAtPair};
ghost use Rattle.nqs_base_tables.specs.Table.{change_first, without_first, best_from};
ghost use Rattle.nqs_types.specs.declared.ids.RequestId.{RequestId};
ghost use Rattle.nqs_types.specs.declared.request.Row.{Row};
ghost use Rattle.nqs_base.specs.declared.extent.Extent.{Extent};
ghost use Rattle.nqs_state.specs.Keys.{is_row};
ghost use Rattle.nqs_state.specs.Least.{runs_now, least_running};
ghost use Rattle.nqs_index.specs.Seats.{seat_of};
ghost use Rattle.nqs_index.specs.Indexed.{StandsForIndex};
ghost use Rattle.nqs_state.specs.Kept.{IfThere, is_kept, kept, table_of};

use crate::indexed::Indexed;
use nqs_base_tables::Table;
use nqs_index::{Index, Seat, is_less};
use nqs_types::{RequestId, Row, RowState};
use std::alloc::{AllocError, Global};
use std::marker::Model;

/// The requests of a host in order of their coming, each found by its id.
pub struct Rows {
    table: Table<RequestId, Row>,
    index: Indexed,
}

// Written out, so that the rows are let go by one call.
impl Drop for Rows {
    fn drop(self) {
        let Rows { table: _, index: _ } = self;
    }
}

impl Model for Rows {
    ghost use Rattle.nqs_index.specs.Indexed.{StandsForIndex};
    ghost use Rattle.nqs_state.specs.Kept.{Kept, IfThere, is_kept, kept};

    ghost Value = { Kept };

    ghost view = { λ r. kept (is_kept r.index) r.table };

    ghost invariant = { λ r. IfThere (λ i. StandsForIndex i r.table.items) r.index };
}

// The seat of the row with this id.
fn seat_at(table: &Table<RequestId, Row>, key: &RequestId) -> Option<Seat>
    ensures { result ≡ option_map seat_of (find (is_row key.now) table.now.items) }
{
    match table.get(key) {
        Some(row) => Some(Seat::of(row)),
        None => None,
    }
}

fn is_running(row: &Row) -> bool
    ensures { result ≡ runs_now row.now }
{
    row.state == RowState::Running
}

// The least running row, found by a look at all.
fn least_of(table: &Table<RequestId, Row>) -> Option<&Row>
    ensures { option_copied result ≡ least_running table.now.items }
{
    let least = table.best(
        |row: &Row| is_running(row),
        |one: &Row, other: &Row| is_less(&one.id, &other.id),
    );
    match least {
        Some((_, row)) => Some(row),
        None => None,
    }
}

// The row with this id, where it runs.
fn running_at<'a>(table: &'a Table<RequestId, Row>, id: &RequestId) -> Option<&'a Row>
    ensures { IfSome result (λ r. (find (is_row id.now) table.now.items ≡ Some r.now) × (runs_now r.now ≡ true)) }
{
    match table.get(id) {
        Some(row) => {
            if is_running(row) {
                return Some(row);
            }
            None
        }
        None => None,
    }
}

// The least running row, found by the index.
fn least_by_index<'a>(index: &Index, table: &'a Table<RequestId, Row>) -> Option<&'a Row>
    requires { StandsForIndex index.now table.now.items }
    ensures { option_copied result ≡ least_running table.now.items }
{
    match index.least_running() {
        Some(id) => match running_at(table, &id) {
            Some(row) => Some(row),
            None => least_of(table),
        },
        None => None,
    }
}

impl Rows {
    /// No rows.
    pub fn new(alloc: Global) -> Self
        ensures items { result.items ≡ [] }
        ensures indexed { result.is_indexed ≡ true }
    {
        Rows {
            table: Table::new(alloc),
            index: Indexed::There(Index::empty(alloc)),
        }
    }

    /// The rows of a table, which keep no index until they are revised.
    pub fn from_table(table: Table<RequestId, Row>) -> Self
        ensures { result ≡ kept false table }
    {
        Rows {
            table,
            index: Indexed::NotYet,
        }
    }

    /// No rows, which keep no index until they are revised.
    pub fn unindexed(alloc: Global) -> Self
        ensures items { result.items ≡ [] }
        ensures indexed { result.is_indexed ≡ false }
    {
        Rows::from_table(Table::new(alloc))
    }

    /// The rows as a table, for calls that any table may have.
    pub fn table(&self) -> &Table<RequestId, Row>
        ensures { result.now ≡ table_of self.now }
    {
        &self.table
    }

    /// The allocator of its memory.
    pub fn allocator(&self) -> Global {
        self.table.allocator()
    }

    /// How many rows there are.
    pub fn len(&self) -> usize
        ensures { result ≡ length self.now.items }
    {
        self.table.len()
    }

    /// The index of the rows. Where one is kept it is there, unless memory was refused for it.
    pub fn index(&self) -> &Indexed
        ensures stands { IfThere (λ i. StandsForIndex i self.now.items) result.now }
        ensures kept { is_kept result.now ≡ self.now.is_indexed }
    {
        &self.index
    }

    /// Makes room for more rows, and where memory was refused for the index, asks for that once
    /// more: all rows are sorted for it. An `Err` leaves the rows as they were.
    pub fn reserve(&mut self, additional: usize) -> Result<(), AllocError>
        ensures items { self.new.items ≡ self.old.items }
        ensures ok { OnOk result (additional ≤ self.new.spare) }
        ensures room { self.old.spare ≤ self.new.spare }
        ensures indexed { self.new.is_indexed ≡ self.old.is_indexed }
    {
        self.table.reserve(additional)?;
        if self.index.is_lacking() {
            self.index = Indexed::of(&self.table);
        }
        Ok(())
    }

    /// The place of the row with this id.
    pub fn place(&self, key: &RequestId) -> Option<usize>
        ensures place { result ≡ position (is_row key.now) self.now.items }
        ensures within { IfSome result (λ i. i < length self.now.items) }
    {
        self.table.place(key)
    }

    /// The row at a place.
    pub fn at(&self, place: usize) -> &Row
        requires { place < length self.now.items }
        ensures { slice_get self.now.items place ≡ Some result.now }
    {
        self.table.at(place)
    }

    /// The row at a place, if there is one.
    pub fn get_at(&self, place: usize) -> Option<&Row>
        ensures { option_copied result ≡ slice_get self.now.items place }
    {
        self.table.get_at(place)
    }

    /// The row with this id.
    pub fn get(&self, key: &RequestId) -> Option<&Row>
        ensures { option_copied result ≡ find (is_row key.now) self.now.items }
    {
        self.table.get(key)
    }

    /// Adds a row under a new id.
    pub fn push(&mut self, row: Row)
        requires room { 0 < self.old.spare }
        requires absent { list_any (is_row row.id) self.old.items ≡ false }
        ensures items { self.new.items ≡ self.old.items ++ row ∷ [] }
        ensures room { self.old.spare ≤ self.new.spare + 1 }
        ensures indexed { self.new.is_indexed ≡ self.old.is_indexed }
    {
        let seat = Seat::of(&row);
        self.table.push(row);
        self.index.enter(&seat, &self.table);
    }

    /// Changes the row with this id, if there is one, and not its id.
    pub fn change<F: FnOnce(&mut Row)>(&mut self, key: &RequestId, f: F)
        requires may { F.IsAlwaysCallable f }
        requires keeps { (v w : Row Extent) → FnOnceReturnsAtMut F.FnOnce f v tt w → w.id ≡ v.id }
        ensures changed { (g : Row Extent → Row Extent) → ((v w : Row Extent) → find (is_row key.now) self.old.items ≡ Some v
            → FnOnceReturnsAtMut F.FnOnce f v tt w → w ≡ g v) → self.new.items ≡ change_first (is_row key.now) g self.old.items }
        ensures room { self.old.spare ≤ self.new.spare }
        ensures indexed { self.new.is_indexed ≡ self.old.is_indexed }
    {
        if !self.index.is_there() {
            self.table.change(key, f);
            return;
        }
        let Some(before) = seat_at(&self.table, key) else {
            return;
        };
        self.table.change(key, f);
        let Some(after) = seat_at(&self.table, key) else {
            unreachable!();
        };
        self.index.reseat(&before, &after, &self.table);
    }

    /// Removes the row with this id, if there is one. The later ones move down.
    pub fn remove_key(&mut self, key: &RequestId)
        ensures items { self.new.items ≡ without_first (is_row key.now) self.old.items }
        ensures room { self.old.spare ≤ self.new.spare }
        ensures indexed { self.new.is_indexed ≡ self.old.is_indexed }
    {
        let Some(seat) = seat_at(&self.table, key) else {
            return;
        };
        self.table.remove_key(key);
        self.index.leave(&seat);
    }

    /// Goes over the rows in order: each is changed, and kept where the answer is true. No id
    /// changes. The index is made anew, also where none was kept until now.
    pub fn revise<F: FnMut(&RequestId, &mut Row) -> bool>(&mut self, f: F)
        requires may { (s : _) (x y : _) → F.pre s x y }
        requires keeps { (s t : F) (k : RequestId) (v w : Row Extent) (b : Bool) → CalledAtPair F.FnMut s k v b w t → w.id ≡ v.id }
        ensures revised { (h : Row Extent → Option (Row Extent)) → ((k : RequestId) (v w : Row Extent) (b : Bool) (t : F) → Contains self.old.items v
            → CalledAtPair F.FnMut f k v b w t → (h v ≡ (if b then Some w else None)) × (t ≡ f)) → self.new.items ≡ filter_map h self.old.items }
        ensures mapped { (g : Row Extent → Row Extent) → ((k : RequestId) (v w : Row Extent) (b : Bool) (t : F) → CalledAtPair F.FnMut f k v b w t
            → (b ≡ true) × (w ≡ g v) × (t ≡ f)) → self.new.items ≡ map g self.old.items }
        ensures filtered { (p : Row Extent → Bool) → ((k : RequestId) (v w : Row Extent) (b : Bool) (t : F) → CalledAtPair F.FnMut f k v b w t
            → (b ≡ p v) × (w ≡ v) × (t ≡ f)) → self.new.items ≡ filter p self.old.items }
        ensures room { self.old.spare ≤ self.new.spare }
        ensures indexed { self.new.is_indexed ≡ true }
    {
        self.table.revise(f);
        self.index = Indexed::of(&self.table);
    }

    /// Whether a row has this id.
    pub fn has(&self, key: &RequestId) -> bool
        ensures { result ≡ list_any (is_row key.now) self.now.items }
    {
        self.table.has(key)
    }

    /// How many rows pass the test.
    pub fn count<F: Fn(&Row) -> bool>(&self, f: F) -> usize
        requires { F.IsAlwaysCallable f }
        ensures counted { (p : Row Extent → Bool) → ((v : Row Extent) (b : Bool) → FnReturnsAt F.Fn f v b → b ≡ p v)
            → result ≡ length (filter p self.now.items) }
        ensures within { result ≤ length self.now.items }
    {
        self.table.count(f)
    }

    /// Whether each row passes the test.
    pub fn all<F: Fn(&Row) -> bool>(&self, f: F) -> bool
        requires { F.IsAlwaysCallable f }
        ensures { (p : Row Extent → Bool) → ((v : Row Extent) (b : Bool) → FnReturnsAt F.Fn f v b → b ≡ p v) → result ≡ list_all p self.now.items }
    {
        self.table.all(f)
    }

    /// Whether a row passes the test.
    pub fn any<F: Fn(&Row) -> bool>(&self, f: F) -> bool
        requires { F.IsAlwaysCallable f }
        ensures { (p : Row Extent → Bool) → ((v : Row Extent) (b : Bool) → FnReturnsAt F.Fn f v b → b ≡ p v) → result ≡ list_any p self.now.items }
    {
        self.table.any(f)
    }

    /// The best of the rows that pass, with its place: none that passes beats it, and of several
    /// such it is the first.
    pub fn best<P: Fn(&Row) -> bool, B: Fn(&Row, &Row) -> bool>(
        &self,
        passes: P,
        beats: B,
    ) -> Option<(usize, &Row)>
        requires passes { P.IsAlwaysCallable passes }
        requires beats { B.IsAlwaysCallable beats }
        ensures { (p : Row Extent → Bool) (b : Row Extent → Row Extent → Bool) → ((v : Row Extent) (r : Bool) → FnReturnsAt P.Fn passes v r → r ≡ p v)
            → ((u v : Row Extent) (r : Bool) → FnReturnsAtPair B.Fn beats u v r → r ≡ b u v)
            → option_map (λ x. (x.0, x.1.now)) result ≡ best_from p b 0 self.now.items }
    {
        self.table.best(passes, beats)
    }

    /// The first of the running rows whose request is the least, by the host of its submission and
    /// then by its number. Where there is an index, it takes a look at those that run alone.
    pub fn least_running(&self) -> Option<&Row>
        ensures { option_copied result ≡ least_running self.now.items }
    {
        match &self.index {
            Indexed::There(index) => least_by_index(index, &self.table),
            _ => least_of(&self.table),
        }
    }
}
