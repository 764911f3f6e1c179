//! Values in slots in order of creation, each found by its key. A value that goes leaves a hole, so
//! that no other moves: the key stays, without a value, until the holes are closed, which happens
//! when there are more of them than values.
ghost use Rattle.std.specs.Prelude.{◌≡◌, ℕ, Bool, ◌+◌, ◌<◌, ◌≤◌, ◌^◌, [], ◌∷◌, ◌++◌, length, position, remove};
ghost use Rattle.std.specs.Prelude.{slice_get, Option, Some, None, OnOk, IfSome, is_some};
ghost use Rattle.std.specs.Option.{option_map};
ghost use Rattle.std.specs.Fn.{FnOnceReturnsAtMut};
ghost use Rattle.std.specs.Map.{keys_of, values_of, lookup};
ghost use Rattle.std.specs.Map.Calls.{CalledAtPair, RetainsPairs};
ghost use Rattle.indexmap.specs.IndexMap.{set_value_at};
ghost use Rattle.nqs_base_tables.specs.Slots.{live, filled, IsFilled, IsClosed, raised, Asks};

use crate::held::Held;
use indexmap::IndexMap;
use nqs_base::Key;
use std::alloc::{AllocError, Global};
use std::marker::Model;

// So many holes at least are left before they are closed.
const FEW: usize = 32;

// The values are counted by blocks of so many slots.
const BLOCK: usize = 128;

/// Values in slots, some of which are holes.
pub struct Slots<K: Key, V: Drop> {
    map: IndexMap<K, Option<Held<V>>>,
    len: usize,
    blocks: Vec<usize>,
}

// Written out, so that slots are let go by one call.
impl<K: Key, V: Drop> Drop for Slots<K, V> {
    fn drop(self) {
        let Slots {
            map: _,
            len: _,
            blocks: _,
        } = self;
    }
}

impl<K: Key, V: Drop> Model for Slots<K, V> {
    ghost use Rattle.std.specs.Prelude.{◌≡◌, length};
    ghost use Rattle.nqs_base_tables.specs.Slots.{Slotted, live, IsCounted};
    ghost use Rattle.indexmap.specs.IndexMap.{spare};

    ghost Value = { Slotted K V };

    ghost view = { λ t. record { entries = t.map.entries; spare = spare t.map } };

    ghost invariant = { λ t. (t.len ≡ length (live t.map.entries)) × IsCounted t.blocks.items t.map.entries };
}

impl<K: Key, V: Drop> Slots<K, V> {
    /// No slots.
    pub(crate) fn new(alloc: Global) -> Self
        ensures { result.entries ≡ [] }
    {
        Slots {
            map: IndexMap::new(alloc),
            len: 0,
            blocks: Vec::new(alloc),
        }
    }

    /// The allocator of their memory.
    pub(crate) fn allocator(&self) -> Global {
        *self.map.allocator()
    }

    /// How many values there are.
    pub(crate) fn len(&self) -> usize
        ensures { result ≡ length (live self.now.entries) }
    {
        self.len
    }

    /// Makes room for more values.
    pub(crate) fn reserve(&mut self, additional: usize) -> Result<(), AllocError>
        ensures entries { self.new.entries ≡ self.old.entries }
        ensures ok { OnOk result (additional ≤ self.new.spare) }
        ensures room { self.old.spare ≤ self.new.spare }
    {
        self.map.reserve(additional)?;
        let blocks = self.map.capacity() / BLOCK;
        self.blocks
            .reserve(blocks.saturating_sub(self.blocks.len()))
    }

    /// The slot of the value at a place.
    pub(crate) fn slot(&self, place: usize) -> usize
        requires { place < length (live self.now.entries) }
        ensures filled { IsFilled self.now.entries result }
        ensures place { filled self.now.entries result ≡ place }
    {
        if self.end() == self.len() {
            place
        } else {
            self.walk(place)
        }
    }

    /// The place of the value in a slot.
    pub(crate) fn place(&self, slot: usize) -> usize
        requires { IsFilled self.now.entries slot }
        ensures { result ≡ filled self.now.entries slot }
    {
        if self.end() == self.len() {
            slot
        } else {
            self.count(slot)
        }
    }

    /// The slot of the value with this key.
    pub(crate) fn find(&self, key: &K) -> Option<usize>
        ensures place { option_map (filled self.now.entries) result ≡ position (K.eq key.now) (keys_of (live self.now.entries)) }
        ensures filled { IfSome result (IsFilled self.now.entries) }
    {
        match self.map.get_index_of(key) {
            Some(slot) => self.unless_hole(slot),
            None => None,
        }
    }

    /// The first slot from here on that has a value, if there is one.
    pub(crate) fn next(&self, from: usize) -> usize
        ensures place { filled self.now.entries result ≡ filled self.now.entries from }
        ensures filled { filled self.now.entries from < length (live self.now.entries) → IsFilled self.now.entries result }
    {
        let mut slot = from;
        while slot < self.end() {
            if self.one(slot) == 1 {
                return slot;
            }
            slot += 1;
        }
        slot
    }

    /// The next slot after a filled one that has a value, if there is one.
    pub(crate) fn after(&self, slot: usize) -> usize
        requires { IsFilled self.now.entries slot }
        ensures place { filled self.now.entries result ≡ filled self.now.entries slot + 1 }
        ensures filled { filled self.now.entries slot + 1 < length (live self.now.entries) → IsFilled self.now.entries result }
    {
        let _end = self.end();
        self.next(slot + 1)
    }

    /// The last slot before this one that has a value.
    pub(crate) fn previous(&self, end: usize) -> usize
        requires some { 0 < filled self.now.entries end }
        requires within { end ≤ length self.now.entries }
        ensures place { filled self.now.entries result + 1 ≡ filled self.now.entries end }
        ensures filled { IsFilled self.now.entries result }
    {
        let mut slot = end;
        while slot > 0 {
            slot -= 1;
            if self.one(slot) == 1 {
                return slot;
            }
        }
        unreachable!()
    }

    /// How many slots there are, with the holes.
    pub(crate) fn end(&self) -> usize
        ensures end { result ≡ length self.now.entries }
        ensures small { result < 2 ^ 63 }
    {
        self.map.len()
    }

    /// The value in a slot.
    pub(crate) fn value(&self, slot: usize) -> &V
        requires { IsFilled self.now.entries slot }
        ensures { slice_get (values_of (live self.now.entries)) (filled self.now.entries slot) ≡ Some result.now }
    {
        match self.map[slot].as_ref() {
            Some(held) => held.get(),
            None => unreachable!(),
        }
    }

    /// Adds a value under a new key.
    pub(crate) fn push(&mut self, key: K, value: Held<V>)
        requires room { 0 < self.old.spare }
        requires absent { lookup (K.eq key) (live self.old.entries) ≡ None }
        ensures entries { live self.new.entries ≡ live self.old.entries ++ (key, value) ∷ [] }
        ensures room { self.old.spare ≤ self.new.spare + 1 }
    {
        self.forget(&key);
        let _end = self.end();
        let _none = self.map.insert(key, Some(value)).unwrap();
        self.len += 1;
        self.cover();
    }

    /// Exchanges the value in a slot for another.
    pub(crate) fn exchange(&mut self, slot: usize, value: &mut V)
        requires { IsFilled self.old.entries slot }
        ensures out { slice_get (values_of (live self.old.entries)) (filled self.old.entries slot) ≡ Some value.new }
        ensures entries { live self.new.entries ≡ set_value_at (live self.old.entries) (filled self.old.entries slot) value.old }
        ensures room { self.old.spare ≤ self.new.spare }
    {
        match self.map[slot].as_mut() {
            Some(held) => held.exchange(value),
            None => unreachable!(),
        }
    }

    /// Changes the value in a slot.
    pub(crate) fn change<F: FnOnce(&mut V)>(&mut self, slot: usize, f: F)
        requires may { F.IsAlwaysCallable f }
        requires filled { IsFilled self.old.entries slot }
        ensures entries { (v w : V) × (slice_get (values_of (live self.old.entries)) (filled self.old.entries slot) ≡ Some v)
            × FnOnceReturnsAtMut F.FnOnce f v tt w × (live self.new.entries ≡ set_value_at (live self.old.entries) (filled self.old.entries slot) w) }
        ensures room { self.old.spare ≤ self.new.spare }
    {
        match self.map[slot].as_mut() {
            Some(held) => held.change(f),
            None => unreachable!(),
        }
    }

    /// Takes the value out of a slot, which becomes a hole.
    pub(crate) fn take(&mut self, slot: usize) -> V
        requires { IsFilled self.old.entries slot }
        ensures out { slice_get (values_of (live self.old.entries)) (filled self.old.entries slot) ≡ Some result }
        ensures entries { live self.new.entries ≡ remove (live self.old.entries) (filled self.old.entries slot) }
        ensures room { self.old.spare ≤ self.new.spare }
    {
        let held = self.map[slot].take().unwrap();
        self.len -= 1;
        lower(&mut self.blocks, slot / BLOCK);
        self.settle();
        self.cover();
        held.into_inner()
    }

    /// Goes over the values in order: each is changed, and kept where the answer is true.
    pub(crate) fn revise<F: FnMut(&K, &mut V) -> bool>(&mut self, f: F)
        requires may { (s : _) (x y : _) → F.pre s x y }
        ensures retained { RetainsPairs (CalledAtPair F.FnMut) f (live self.old.entries) (live self.new.entries) }
        ensures room { self.old.spare ≤ self.new.spare }
    {
        let mut f = f;
        self.map.retain(
            move |key: &K, held: &mut Option<Held<V>>| -> bool
                requires { (s : F) (x y : _) → F.pre s x y }
                ensures { Asks (CalledAtPair F.FnMut) f.entry key.now held.old result held.new f.exit }
            { ask(key, held, &mut f) },
        );
        self.len = self.map.len();
        self.blocks.clear();
    }

    // One where a value stands in the slot.
    fn one(&self, slot: usize) -> usize
        requires { slot < length self.now.entries }
        ensures step { filled self.now.entries (slot + 1) ≡ filled self.now.entries slot + result }
        ensures small { result ≤ 1 }
    {
        match self.map[slot].as_ref() {
            Some(_) => 1,
            None => 0,
        }
    }

    // The slot, unless it is a hole.
    fn unless_hole(&self, slot: usize) -> Option<usize>
        requires { slot < length self.now.entries }
        ensures filled { IfSome result (λ s. (s ≡ slot) × IsFilled self.now.entries s) }
        ensures hole { result ≡ None → filled self.now.entries (slot + 1) ≡ filled self.now.entries slot }
    {
        if self.one(slot) == 1 {
            Some(slot)
        } else {
            None
        }
    }

    // The slot of the value at a place, by a walk over blocks, and then within one.
    fn walk(&self, place: usize) -> usize
        requires { place < length (live self.now.entries) }
        ensures filled { IsFilled self.now.entries result }
        ensures place { filled self.now.entries result ≡ place }
    {
        let (start, rest) = self.skip(place);
        let mut slot = start;
        let mut left = rest;
        while slot < self.end() {
            let one = self.one(slot);
            if left < one {
                return slot;
            }
            left -= one;
            slot += 1;
        }
        unreachable!()
    }

    // Where the block with the value at a place begins, and how many values are left before it.
    fn skip(&self, place: usize) -> (usize, usize)
        ensures { filled self.now.entries result.0 + result.1 ≡ place }
    {
        let _len = self.map.len();
        let mut left = place;
        let mut block = 0usize;
        while block < self.blocks.len() {
            let count = self.blocks[block];
            if left < count {
                return (block * BLOCK, left);
            }
            left -= count;
            block += 1;
        }
        (block * BLOCK, left)
    }

    // Where the last whole block before a slot ends, and how many values stand before.
    fn whole(&self, end: usize) -> (usize, usize)
        ensures count { filled self.now.entries result.0 ≡ result.1 }
        ensures within { result.0 ≤ end }
    {
        let blocks = self.blocks.len().min(end / BLOCK);
        let mut count = 0usize;
        for block in 0..blocks {
            count += self.blocks[block];
        }
        (blocks * BLOCK, count)
    }

    // How many values stand before a slot.
    fn count(&self, end: usize) -> usize
        requires { end ≤ length self.now.entries }
        ensures { result ≡ filled self.now.entries end }
    {
        let (start, before) = self.whole(end);
        let mut count = before;
        for slot in start..end {
            count += self.one(slot);
        }
        count
    }

    // How many values a block has.
    fn block(&self, start: usize) -> usize
        requires { start + 128 ≤ length self.now.entries }
        ensures { filled self.now.entries (start + 128) ≡ filled self.now.entries start + result }
    {
        let _end = self.end();
        let mut count = 0usize;
        for slot in start..start + BLOCK {
            count += self.one(slot);
        }
        count
    }

    // Counts one more block, if one is whole and there is room for its count.
    fn cover(&mut self)
        ensures entries { self.new.entries ≡ self.old.entries }
        ensures room { self.old.spare ≤ self.new.spare }
    {
        let blocks = self.blocks.len();
        if self.map.len() / BLOCK <= blocks {
            return;
        }
        if self.blocks.capacity() <= blocks {
            return;
        }
        let count = self.block(blocks * BLOCK);
        self.blocks.push(count).unwrap();
    }

    // Closes the holes when there are more of them than values, and more than a few.
    fn settle(&mut self)
        ensures entries { live self.new.entries ≡ live self.old.entries }
        ensures room { self.old.spare ≤ self.new.spare }
    {
        if self.end() - self.len() > self.len().max(FEW) {
            self.close();
        }
    }

    // Closes the holes if one of them has this key, which then is new.
    fn forget(&mut self, key: &K)
        requires { lookup (K.eq key.now) (live self.old.entries) ≡ None }
        ensures entries { live self.new.entries ≡ live self.old.entries }
        ensures absent { lookup (K.eq key.now) self.new.entries ≡ None }
        ensures room { self.old.spare ≤ self.new.spare }
    {
        if self.map.contains_key(key) {
            self.close();
        }
    }

    // Closes the holes.
    fn close(&mut self)
        ensures entries { live self.new.entries ≡ live self.old.entries }
        ensures closed { IsClosed self.new.entries }
        ensures room { self.old.spare ≤ self.new.spare }
    {
        self.map.retain(
            |_key: &K, held: &mut Option<Held<V>>| -> bool
                ensures answer { result ≡ is_some held.old }
                ensures same { held.new ≡ held.old }
            { held.is_some() },
        );
        self.blocks.clear();
    }
}

// One value less in a block, if it is counted.
fn lower(blocks: &mut Vec<usize>, block: usize)
    requires { (n : ℕ) → slice_get blocks.old.items block ≡ Some n → 0 < n }
    ensures { blocks.old.items ≡ raised blocks.new.items block }
{
    if block < blocks.len() {
        blocks[block] -= 1;
    }
}

// Asks a value. A hole goes.
fn ask<K, V, F: FnMut(&K, &mut V) -> bool>(key: &K, held: &mut Option<Held<V>>, f: &mut F) -> bool
    requires { (s : F) (x y : _) → F.pre s x y }
    ensures { Asks (CalledAtPair F.FnMut) f.old key.now held.old result held.new f.new }
{
    match held.as_mut() {
        Some(held) => held.ask(key, f),
        None => false,
    }
}
