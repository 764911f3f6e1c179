//! A map in order of creation, each value under its own key. A removal keeps the order of the
//! others, and moves none of them.
ghost use Rattle.std.specs.Prelude.{◌≡◌, ℕ, ◌+◌, ◌-◌, ◌≤◌, ◌<◌, [], ◌∷◌, ◌++◌, length, map, position, find, Some, None, OnOk, OnErr, IsOk, IfSome, Bool};
ghost use Rattle.std.specs.Prelude.{Option, Contains, filter, if◌then◌else◌, slice_get, slice_set, remove, true, false};
ghost use Rattle.std.specs.Option.{option_copied, option_map};
ghost use Rattle.nqs_base_tables.specs.Table.{has_key, change_first, without_first, is_beaten, with_value, best_from};
ghost use Rattle.std.specs.List.{filter_map, list_all, list_any};
ghost use Rattle.std.specs.Fn.{FnOnceReturnsAtMut, FnReturnsAt, FnReturnsAtPair};
ghost use Rattle.std.specs.Map.Calls.{CalledAtPair};

use crate::held::{Held, Room, take_rooms};
use crate::slots::Slots;
use nqs_base::{Key, Keyed};
use std::alloc::{AllocError, Global};
use std::marker::Model;

/// Values in order of creation, each found by its key.
pub struct Table<K: Key, V: Keyed<K> + Drop> {
    slots: Slots<K, V>,
    rooms: Vec<Room<V>>,
}

// Written out, so that a table is let go by one call.
impl<K: Key, V: Keyed<K> + Drop> Drop for Table<K, V> {
    fn drop(self) {
        let Table { slots: _, rooms: _ } = self;
    }
}

impl<K: Key, V: Keyed<K> + Drop> Model for Table<K, V> {
    ghost use Rattle.std.specs.Prelude.{length, min};
    ghost use Rattle.std.specs.Map.{values_of};
    ghost use Rattle.nqs_base_tables.specs.Slots.{live};
    ghost use Rattle.nqs_base_tables.specs.Table.{Roomy, IsKeyed};

    ghost Value = { Roomy V };

    ghost view = { λ t. record { items = values_of (live t.slots.entries); spare = min t.slots.spare (length t.rooms.items) } };

    ghost invariant = { λ t. IsKeyed V.key_of (live t.slots.entries) };
}

impl<K: Key, V: Keyed<K> + Drop> Table<K, V> {
    /// A table without values.
    pub fn new(alloc: Global) -> Self
        ensures { result.items ≡ [] }
    {
        Table {
            slots: Slots::new(alloc),
            rooms: Vec::new(alloc),
        }
    }

    /// The allocator of its memory.
    pub fn allocator(&self) -> Global {
        self.slots.allocator()
    }

    /// How many values it has.
    pub fn len(&self) -> usize
        ensures { result ≡ length self.now.items }
    {
        self.slots.len()
    }

    /// Makes room for more values.
    pub fn reserve(&mut self, additional: usize) -> Result<(), AllocError>
        ensures items { self.new.items ≡ self.old.items }
        ensures ok { OnOk result (additional ≤ self.new.spare) }
        ensures room { self.old.spare ≤ self.new.spare }
    {
        self.slots.reserve(additional)?;
        take_rooms(self.allocator(), &mut self.rooms, additional)
    }

    /// The place of the value with this key.
    pub fn place(&self, key: &K) -> Option<usize>
        ensures place { result ≡ position (has_key K.eq V.key_of key.now) self.now.items }
        ensures within { IfSome result (λ i. i < length self.now.items) }
    {
        match self.slots.find(key) {
            Some(slot) => Some(self.slots.place(slot)),
            None => None,
        }
    }

    /// The value at a place.
    pub fn at(&self, place: usize) -> &V
        requires { place < length self.now.items }
        ensures { slice_get self.now.items place ≡ Some result.now }
    {
        self.slots.value(self.slots.slot(place))
    }

    /// The value with this key.
    pub fn get(&self, key: &K) -> Option<&V>
        ensures { option_copied result ≡ find (has_key K.eq V.key_of key.now) self.now.items }
    {
        match self.slots.find(key) {
            Some(slot) => Some(self.slots.value(slot)),
            None => None,
        }
    }

    /// Adds a value under a new key.
    pub fn push(&mut self, value: V)
        requires room { 0 < self.old.spare }
        requires absent { list_any (has_key K.eq V.key_of (V.key_of value)) self.old.items ≡ false }
        ensures items { self.new.items ≡ self.old.items ++ value ∷ [] }
        ensures room { self.old.spare ≤ self.new.spare + 1 }
    {
        let key = value.key();
        let room = self.rooms.pop().unwrap();
        self.slots.push(key, Held::fill(room, value));
    }

    /// Exchanges the value at a place for another of the same key.
    pub fn exchange(&mut self, place: usize, value: &mut V)
        requires within { place < length self.old.items }
        requires same { slice_get (map V.key_of self.old.items) place ≡ Some (V.key_of value.old) }
        ensures out { slice_get self.old.items place ≡ Some value.new }
        ensures items { self.new.items ≡ slice_set self.old.items place value.old }
        ensures room { self.old.spare ≤ self.new.spare }
    {
        self.slots.exchange(self.slots.slot(place), value);
    }

    /// Removes the value at a place. The later ones have a place less.
    pub fn remove(&mut self, place: usize) -> V
        requires { place < length self.old.items }
        ensures out { slice_get self.old.items place ≡ Some result }
        ensures items { self.new.items ≡ remove self.old.items place }
        ensures room { self.old.spare ≤ self.new.spare }
    {
        self.slots.take(self.slots.slot(place))
    }

    /// Changes the value with this key, if there is one, and not its key.
    pub fn change<F: FnOnce(&mut V)>(&mut self, key: &K, f: F)
        requires may { F.IsAlwaysCallable f }
        requires keeps { (v w : V) → FnOnceReturnsAtMut F.FnOnce f v tt w → V.key_of w ≡ V.key_of v }
        ensures changed { (g : V → V) → ((v w : V) → find (has_key K.eq V.key_of key.now) self.old.items ≡ Some v → FnOnceReturnsAtMut F.FnOnce f v tt w
            → w ≡ g v) → self.new.items ≡ change_first (has_key K.eq V.key_of key.now) g self.old.items }
        ensures made { IfSome (find (has_key K.eq V.key_of key.now) self.old.items) (λ v. (w : V) × FnOnceReturnsAtMut F.FnOnce f v tt w
            × (self.new.items ≡ change_first (has_key K.eq V.key_of key.now) (λ _. w) self.old.items)) }
        ensures room { self.old.spare ≤ self.new.spare }
    {
        match self.slots.find(key) {
            Some(slot) => self.slots.change(slot, f),
            None => {}
        }
    }

    /// Removes the value with this key, if there is one. The later ones have a place less.
    pub fn remove_key(&mut self, key: &K)
        ensures items { self.new.items ≡ without_first (has_key K.eq V.key_of key.now) self.old.items }
        ensures room { self.old.spare ≤ self.new.spare }
    {
        match self.slots.find(key) {
            Some(slot) => drop(self.slots.take(slot)),
            None => {}
        }
    }

    /// Goes over the values in order: each is changed, and kept where the answer is true. No key
    /// changes.
    pub fn revise<F: FnMut(&K, &mut V) -> bool>(&mut self, f: F)
        requires may { (s : _) (x y : _) → F.pre s x y }
        requires keeps { (s t : F) (k : K) (v w : V) (b : Bool) → CalledAtPair F.FnMut s k v b w t → V.key_of w ≡ V.key_of v }
        ensures revised { (h : V → Option V) → ((k : K) (v w : V) (b : Bool) (t : F) → Contains self.old.items v → CalledAtPair F.FnMut f k v b w t
            → (h v ≡ (if b then Some w else None)) × (t ≡ f)) → self.new.items ≡ filter_map h self.old.items }
        ensures mapped { (g : V → V) → ((k : K) (v w : V) (b : Bool) (t : F) → CalledAtPair F.FnMut f k v b w t → (b ≡ true) × (w ≡ g v) × (t ≡ f))
            → self.new.items ≡ map g self.old.items }
        ensures filtered { (p : V → Bool) → ((k : K) (v w : V) (b : Bool) (t : F) → CalledAtPair F.FnMut f k v b w t → (b ≡ p v) × (w ≡ v) × (t ≡ f))
            → self.new.items ≡ filter p self.old.items }
        ensures room { self.old.spare ≤ self.new.spare }
    {
        self.slots.revise(f);
    }

    /// Whether a value has this key.
    pub fn has(&self, key: &K) -> bool
        ensures { result ≡ list_any (has_key K.eq V.key_of key.now) self.now.items }
    {
        self.get(key).is_some()
    }

    /// How many values pass the test.
    pub fn count<F: Fn(&V) -> bool>(&self, f: F) -> usize
        requires { F.IsAlwaysCallable f }
        ensures counted { (p : V → Bool) → ((v : V) (b : Bool) → FnReturnsAt F.Fn f v b → b ≡ p v) → result ≡ length (filter p self.now.items) }
        ensures within { result ≤ length self.now.items }
    {
        let mut count = 0usize;
        let mut slot = self.slots.next(0);
        for _place in 0..self.len() {
            if f(self.slots.value(slot)) {
                count += 1;
            }
            slot = self.slots.after(slot);
        }
        count
    }

    /// Whether each value passes the test.
    pub fn all<F: Fn(&V) -> bool>(&self, f: F) -> bool
        requires { F.IsAlwaysCallable f }
        ensures { (p : V → Bool) → ((v : V) (b : Bool) → FnReturnsAt F.Fn f v b → b ≡ p v) → result ≡ list_all p self.now.items }
    {
        let mut slot = self.slots.next(0);
        for _place in 0..self.len() {
            if !f(self.slots.value(slot)) {
                return false;
            }
            slot = self.slots.after(slot);
        }
        true
    }

    /// Whether a value passes the test.
    pub fn any<F: Fn(&V) -> bool>(&self, f: F) -> bool
        requires { F.IsAlwaysCallable f }
        ensures { (p : V → Bool) → ((v : V) (b : Bool) → FnReturnsAt F.Fn f v b → b ≡ p v) → result ≡ list_any p self.now.items }
    {
        let mut slot = self.slots.next(0);
        for _place in 0..self.len() {
            if f(self.slots.value(slot)) {
                return true;
            }
            slot = self.slots.after(slot);
        }
        false
    }

    /// The value at a place, if there is one.
    pub fn get_at(&self, place: usize) -> Option<&V>
        ensures { option_copied result ≡ slice_get self.now.items place }
    {
        if place < self.len() {
            Some(self.at(place))
        } else {
            None
        }
    }

    /// The best of the values that pass, with its place: none that passes beats it, and of several
    /// such it is the first. A value that the best so far beats isn't tested.
    pub fn best<P: Fn(&V) -> bool, B: Fn(&V, &V) -> bool>(
        &self,
        passes: P,
        beats: B,
    ) -> Option<(usize, &V)>
        requires passes { P.IsAlwaysCallable passes }
        requires beats { B.IsAlwaysCallable beats }
        ensures { (p : V → Bool) (b : V → V → Bool) → ((v : V) (r : Bool) → FnReturnsAt P.Fn passes v r → r ≡ p v)
            → ((u v : V) (r : Bool) → FnReturnsAtPair B.Fn beats u v r → r ≡ b u v)
            → option_map (λ x. (x.0, x.1.now)) result ≡ best_from p b 0 self.now.items }
    {
        let mut best: Option<(usize, &V)> = None;
        let mut place = self.len();
        let mut slot = self.slots.end();
        while place > 0 {
            place -= 1;
            slot = self.slots.previous(slot);
            best = with_value(place, self.slots.value(slot), best, &passes, &beats);
        }
        best
    }
}

// Whether the best so far beats the value.
fn is_beaten<V, B: Fn(&V, &V) -> bool>(value: &V, best: Option<(usize, &V)>, beats: &B) -> bool
    requires { B.IsAlwaysCallable beats.now }
    ensures { (b : V → V → Bool) → ((u v : V) (r : Bool) → FnReturnsAtPair B.Fn beats.now u v r → r ≡ b u v)
        → result ≡ is_beaten b value.now (option_map (λ x. (x.0, x.1.now)) best.entry) }
{
    match best {
        None => false,
        Some((_, other)) => beats(other, value),
    }
}

// The better of a value, if it passes, and the best of the later ones.
fn with_value<'a, V, P: Fn(&V) -> bool, B: Fn(&V, &V) -> bool>(
    place: usize,
    value: &'a V,
    best: Option<(usize, &'a V)>,
    passes: &P,
    beats: &B,
) -> Option<(usize, &'a V)>
    requires passes { P.IsAlwaysCallable passes.now }
    requires beats { B.IsAlwaysCallable beats.now }
    ensures { (p : V → Bool) (b : V → V → Bool) → ((v : V) (r : Bool) → FnReturnsAt P.Fn passes.now v r → r ≡ p v)
        → ((u v : V) (r : Bool) → FnReturnsAtPair B.Fn beats.now u v r → r ≡ b u v)
        → option_map (λ x. (x.0, x.1.now)) result ≡ with_value p b (place, value.now) (option_map (λ x. (x.0, x.1.now)) best.entry) }
{
    if is_beaten(value, best, beats) {
        return best;
    }
    if passes(value) {
        return Some((place, value));
    }
    best
}
