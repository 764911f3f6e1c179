//! The live extents of a disk, as a set in order of place. An empty extent isn't kept.
ghost use Rattle.std.specs.Prelude.{◌≡◌, ◌⊎◌, ◌+◌, ◌<◌, ◌≤◌, ◌^◌, max, nat_le, ℕ, [], false, IsTrue, OnOk, OnErr, IfOk, IfErr, List, vec_len};
ghost use Rattle.std.specs.List.{AllByRecursion};
ghost use Rattle.nqs_base.specs.declared.extent.Extent.{Extent};
ghost use Rattle.nqs_spool.specs.Slots.{IsRow, IsRow-prop};
ghost use Rattle.nqs_spool.specs.Extents.{past, IsClearOf, AreApart, IsLeastPlace, Has, IsWith, IsWithin, AreSound, Covers};
ghost use Rattle.nqs_spool.specs.Faults.{IsFaultOf};

use crate::ExtentFault;
use crate::tree::{Room, Tree};
use nqs_base::{Extent, Memory};
use std::alloc::Global;

/// The live extents of a disk, but those that are empty.
#[derive(Drop)]
pub struct LiveExtents {
    alloc: Global,
    // Each slot begins its free bytes where the one before ends.
    tree: Tree,
    // Behind the last.
    end: u64,
    rooms: Vec<Room>,
    ghost row: { IsRow 0 tree end } by { IsRow-prop 0 tree end },
}

impl LiveExtents {
    ghost use Rattle.nqs_spool.specs.Live.{kept, slots, end_of, room_of, place_for};

    /// The set that is empty.
    pub(crate) fn new(alloc: Global) -> LiveExtents
        ensures none { kept result ≡ [] }
        ensures end { end_of result ≡ 0 }
    {
        LiveExtents {
            alloc,
            tree: Tree::new(),
            end: 0,
            rooms: Vec::new(alloc),
        }
    }

    /// The set of these, if each ends within so many bytes and meets no earlier one. Each costs
    /// logarithmic time.
    pub fn load_sound(alloc: Global, live: &[Extent], size: u64) -> Result<LiveExtents, ExtentFault>
        ensures sound { IfOk result (λ _. AreSound size live.now) }
        ensures covers { IfOk result (λ loaded. Covers (kept loaded) live.now) }
        ensures end { IfOk result (λ loaded. end_of loaded ≤ size) }
        ensures fault { IfErr result (IsFaultOf size live.now) }
    {
        let mut loaded = LiveExtents::new(alloc);
        let mut rest = live;
        'extents: while let Some((extent, more)) = rest.split_first() {
            if !loaded.add_sound(extent, size)? {
                return Err(ExtentFault::Bad(extent.place));
            }
            rest = more;
        }
        Ok(loaded)
    }

    /// The set of these. An `Err` is want of memory, here and below.
    pub(crate) fn load(alloc: Global, live: &[Extent]) -> Result<LiveExtents, Memory>
        requires apart { AreApart live.now }
        requires small { AllByRecursion (λ extent. past extent < 2 ^ 64) live.now }
        ensures covers { IfOk result (λ loaded. Covers (kept loaded) live.now) }
        ensures end { (bound : ℕ) → AllByRecursion (λ extent. past extent ≤ bound) live.now → IfOk result (λ loaded. end_of loaded ≤ bound) }
    {
        let mut loaded = LiveExtents::new(alloc);
        let mut rest = live;
        'extents: while let Some((extent, more)) = rest.split_first() {
            loaded.add(extent)?;
            rest = more;
        }
        Ok(loaded)
    }

    /// Memory for so many more.
    pub(crate) fn make_room(&mut self, count: u64) -> Result<(), Memory>
        ensures full { OnErr result (room_of self.old < count) }
        ensures room { OnOk result (count ≤ room_of self.new) }
        ensures more { room_of self.old ≤ room_of self.new }
        ensures same { slots self.new ≡ slots self.old }
        ensures end { end_of self.new ≡ end_of self.old }
    {
        'rooms: while (self.rooms.len() as u64) < count {
            self.rooms.push(Room::new(self.alloc)?)?;
        }
        Ok(())
    }

    /// Memory for one.
    pub(crate) fn take_room(&mut self) -> Result<Room, Memory>
        ensures memory { OnErr result (room_of self.old ≡ 0) }
        ensures room { room_of self.old ≤ room_of self.new + 1 }
        ensures same { slots self.new ≡ slots self.old }
        ensures end { end_of self.new ≡ end_of self.old }
    {
        match self.rooms.pop() {
            Some(room) => Ok(room),
            None => Ok(Room::new(self.alloc)?),
        }
    }

    /// The least place at which so many bytes meet none.
    pub(crate) fn least_place(&self, count: u32) -> u64
        requires { 0 < count }
        ensures least { IsLeastPlace (kept self.now) count result }
        ensures place { result ≡ place_for self.now count }
        ensures within { result ≤ end_of self.now }
    {
        self.tree.first_fit(u64::from(count), self.end)
    }

    /// How high the tree is that keeps them.
    pub(crate) fn height(&self) -> u8 {
        self.tree.height()
    }

    // Whether the extent meets none.
    fn is_clear(&self, extent: &Extent) -> bool
        requires { past extent.now < 2 ^ 64 }
        ensures clear { IsTrue result → IsClearOf (kept self.now) extent.now }
        ensures meets { result ≡ false → IsClearOf (kept self.now) extent.now → ⊥ }
    {
        let past = extent.place + u64::from(extent.length);
        if past == extent.place {
            return true;
        }
        self.tree.is_free(extent.place, past, self.end, past)
    }

    /// One extent more, if it ends within so many bytes and meets none. The answer is whether it
    /// does.
    pub(crate) fn add_sound(&mut self, extent: &Extent, size: u64) -> Result<bool, Memory>
        ensures sound { IfOk result (λ sound. IsTrue sound → (live more : List Extent) → IsWith live extent.now more
            → Covers (kept self.old) live → IsWithin size extent.now × IsClearOf live extent.now × Covers (kept self.new) more) }
        ensures bad { IfOk result (λ sound. sound ≡ false → (live : List Extent) → Covers (kept self.old) live
            → (size < past extent.now) ⊎ (IsClearOf live extent.now → ⊥)) }
        ensures end { IfOk result (λ sound. IsTrue sound → end_of self.new ≤ max (end_of self.old) (past extent.now)) }
    {
        if !is_within(extent, size) {
            return Ok(false);
        }
        if !self.is_clear(extent) {
            return Ok(false);
        }
        self.add(extent)?;
        Ok(true)
    }

    /// One extent more, in this memory. It takes no other.
    pub(crate) fn insert(&mut self, room: Room, extent: Extent)
        requires clear { IsClearOf (kept self.old) extent }
        requires some { 0 < extent.length }
        requires small { past extent < 2 ^ 64 }
        ensures more { IsWith (kept self.old) extent (kept self.new) }
        ensures end { end_of self.new ≤ max (end_of self.old) (past extent) }
        ensures room { room_of self.new ≡ room_of self.old }
    {
        let last = self
            .tree
            .insert(room, self.end, extent.place, extent.length);
        self.end = last.unwrap_or(self.end);
    }

    // One extent more, in memory of its own. An empty one is left out.
    fn add(&mut self, extent: &Extent) -> Result<(), Memory>
        requires clear { IsClearOf (kept self.old) extent.now }
        requires small { past extent.now < 2 ^ 64 }
        ensures covers { OnOk result ((live more : List Extent) → IsWith live extent.now more → IsClearOf live extent.now
            → Covers (kept self.old) live → Covers (kept self.new) more) }
        ensures end { OnOk result (end_of self.new ≤ max (end_of self.old) (past extent.now)) }
    {
        if extent.length == 0 {
            return Ok(());
        }
        let room = self.take_room()?;
        self.insert(room, *extent);
        Ok(())
    }

    /// Takes the extent out. It takes no memory.
    pub(crate) fn remove(&mut self, extent: &Extent)
        ensures less { Has (kept self.old) extent.now → IsWith (kept self.new) extent.now (kept self.old) }
        ensures end { end_of self.new ≤ end_of self.old }
        ensures room { room_of self.old ≤ room_of self.new }
    {
        let freed = self.tree.remove(extent.place);
        self.end = freed.from.unwrap_or(self.end);
        keep_room(&mut self.rooms, freed.room);
    }
}

// Whether the extent ends within so many bytes.
fn is_within(extent: &Extent, size: u64) -> bool
    ensures { result ≡ nat_le (past extent.now) size }
{
    extent.place <= size && u64::from(extent.length) <= size - extent.place
}

// What has no place among the spare rooms is given back.
fn keep_room(rooms: &mut Vec<Room>, room: Option<Room>)
    ensures { vec_len rooms.old ≤ vec_len rooms.new }
{
    if let Some(room) = room {
        if rooms.len() < rooms.capacity() {
            rooms.push(room).unwrap();
        }
    }
}
