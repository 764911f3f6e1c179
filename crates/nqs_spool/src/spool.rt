//! Byte ranges of one disk.
ghost use Rattle.std.specs.Prelude.{◌≡◌, ◌⊎◌, ◌↔◌, ◌-◌, ◌+◌, ◌<◌, ◌≤◌, ◌^◌, ◌++◌, [], ◌∷◌, max, nat_le, false, List, ℕ, IsTrue, IsErrOf, OnOk, OnErr, IfOk};
ghost use Rattle.std.specs.Prelude.{IfErr, MatchResult, length, vec_capacity};
ghost use Rattle.std.specs.List.{AllByRecursion};
ghost use Rattle.nqs_base.specs.declared.extent.Extent.{Extent};
ghost use Rattle.nqs_base.specs.Want.{want};
ghost use Rattle.nqs_types.specs.Scripts.{longest_script};
ghost use Rattle.nqs_outside.specs.Causes.{Rose};
ghost use Rattle.nqs_outside.specs.Reads.{FailedToRead, OnlyReads};
ghost use Rattle.nqs_outside.specs.History.{Call, content, IsQuiet, extended, moment, EachSince, StopsShort, IsExact, IsWhole};
ghost use Rattle.nqs_spool.specs.Puts.{put_calls};
ghost use Rattle.nqs_spool.specs.Extents.{extent_at, past, AreApart, IsLeastPlace, Has, IsWith, Holds, Covers};
ghost use Rattle.nqs_spool.specs.Live.{kept, end_of};

use crate::SpoolFault;
use crate::live::LiveExtents;
use crate::write::{append_read, write_through};
use nqs_base::{Extent, Memory};
use nqs_outside::{Disk, Failed, Fused};
use nqs_types::LONGEST_SCRIPT;
use std::alloc::Global;

// How many bytes a script has at most, and so what is put.
const LONGEST: usize = LONGEST_SCRIPT as usize;

/// Keeps scripts and outputs of requests, each in a range of the bytes of one disk. No byte is in
/// two live ranges, so a write changes no live range, whenever it stops.
#[derive(Drop)]
pub struct Spool<D: Disk> {
    disk: D,
    live: LiveExtents,
    ghost within: { IsTrue D.tells → end_of live ≤ length (content (D.history disk)) },
}

impl<D: Disk> Spool<D> {
    ghost use Rattle.nqs_spool.specs.Spooled.{disk_of, history_of, room_of, place_for, Tells};

    /// Opens a spool whose live extents are those of the set. It makes no call of the disk.
    pub fn open(disk: D, live: LiveExtents) -> Spool<D>
        requires within { IsTrue D.tells → end_of live ≤ length (content (D.history disk)) }
        requires quiet { IsTrue D.tells → IsQuiet (D.history disk) }
        ensures tells { (extents : List Extent) → Covers (kept live) extents
            → (IsTrue D.tells → AllByRecursion (λ extent. past extent ≤ length (content (D.history disk))) extents) → Tells result extents }
        ensures same { disk_of result ≡ disk }
    {
        Spool { disk, live }
    }

    /// Opens a spool whose live extents are these, in any order. It makes no call of the disk.
    /// The only fault is `Memory`, which hands the disk back.
    pub fn load(alloc: Global, disk: D, live: &[Extent]) -> Result<Spool<D>, (SpoolFault, D)>
        requires apart { AreApart live.now }
        requires small { AllByRecursion (λ extent. past extent < 2 ^ 64) live.now }
        requires within { IsTrue D.tells → AllByRecursion (λ extent. past extent ≤ length (content (D.history disk))) live.now }
        requires quiet { IsTrue D.tells → IsQuiet (D.history disk) }
        ensures tells { IfOk result (λ spool. Tells spool live.now) }
        ensures same { IfOk result (λ spool. disk_of spool ≡ disk) }
        ensures refused { IfErr result (λ e. (e.0 ≡ SpoolFault.Memory want) × (e.1 ≡ disk)) }
    {
        match LiveExtents::load(alloc, live) {
            Ok(live) => Ok(Spool::open(disk, live)),
            Err(memory) => Err((SpoolFault::Memory(memory), disk)),
        }
    }

    /// Memory for so many more extents. An `Err` leaves all as it was, and never comes where there
    /// was room.
    pub fn make_room(&mut self, count: u64) -> Result<(), Memory>
        ensures full { OnErr result (room_of self.old < count) }
        ensures room { OnOk result (count ≤ room_of self.new) }
        ensures more { room_of self.old ≤ room_of self.new }
        ensures same { disk_of self.new ≡ disk_of self.old }
        ensures tells { (live : List Extent) → Tells self.old live → Tells self.new live }
    {
        self.live.make_room(count)
    }

    /// The disk's length in bytes. The only fault is `Disk`, which leaves all as it was.
    pub fn length(&mut self) -> Result<u64, SpoolFault>
        ensures length { IsTrue D.tells → IfOk result (λ length_now. length_now ≡ length (content (history_of self.old))) }
        ensures small { IfOk result (λ length_now. length_now ≤ 2 ^ 40) }
        ensures fault { IfErr result (λ fault. fault ≡ SpoolFault.Disk) }
        ensures failed { OnErr result (FailedToRead D.Disk (disk_of self.old) (disk_of self.new)) }
        ensures reads { OnlyReads D.Disk (disk_of self.old) (disk_of self.new) }
        // It asks the disk once, and at Ok that call didn't fail.
        ensures once { IsTrue D.tells → D.reads (disk_of self.new) ≤ D.reads (disk_of self.old) + 1 }
        ensures faultless { OnOk result (D.faults (disk_of self.new) ≡ D.faults (disk_of self.old)) }
        ensures tells { (live : List Extent) → Tells self.old live → Tells self.new live }
        ensures room { room_of self.new ≡ room_of self.old }
    {
        Ok(self.disk.len()?)
    }

    /// Writes the bytes, at most 1,048,576, at the least place where they meet no live extent, and
    /// makes their extent live. They are on the disk before the answer. No bytes make no call of
    /// the disk and get place 0. After `Disk` the spool is to be closed; the live extents keep
    /// their bytes.
    pub fn put(&mut self, bytes: &[u8]) -> Result<Extent, SpoolFault>
        ensures too_long { IsErrOf result SpoolFault.TooLong ↔ (longest_script < length bytes.now) }
        ensures disk { IsErrOf result SpoolFault.Disk → Rose (D.faults (disk_of self.old)) (D.faults (disk_of self.new)) }
        ensures memory { IsErrOf result (SpoolFault.Memory want) → room_of self.old ≡ 0 }
        ensures room { room_of self.old ≤ room_of self.new + 1 }
        ensures later { D.faults (disk_of self.old) ≤ D.faults (disk_of self.new) }
        // At Ok no call failed, and the disk isn't read.
        ensures faultless { OnOk result (D.faults (disk_of self.new) ≡ D.faults (disk_of self.old)) }
        ensures unread { IsTrue D.tells → D.reads (disk_of self.new) ≡ D.reads (disk_of self.old) }
        ensures refused { (result ≡ Err SpoolFault.TooLong) ⊎ (result ≡ Err (SpoolFault.Memory want)) → disk_of self.new ≡ disk_of self.old }
        ensures unchanged { (result ≡ Err SpoolFault.TooLong) ⊎ (result ≡ Err (SpoolFault.Memory want))
            → (live : List Extent) → Tells self.old live → Tells self.new live }

        ensures empty { length bytes.now ≡ 0 → (result ≡ Ok (extent_at 0 0)) × (self.new ≡ self.old) }

        // Where they stand.
        ensures extent { IfOk result (λ extent. extent ≡ extent_at (place_for self.old bytes.now) (length bytes.now)) }
        ensures small { IfOk result (λ extent. past extent ≤ 2 ^ 40) }
        ensures least { (live : List Extent) → Tells self.old live → IsLeastPlace live (length bytes.now) (place_for self.old bytes.now) }

        // The calls that it makes: both, or the first of them, of which only the last may have
        // failed.
        ensures made { IsTrue D.tells → IfOk result (λ extent. history_of self.new
            ≡ extended (history_of self.old) (put_calls (place_for self.old bytes.now) bytes.now)) }
        ensures broken { IsTrue D.tells → IsErrOf result SpoolFault.Disk → (calls : List Call) × (history_of self.new ≡ extended (history_of self.old) calls)
            × StopsShort (put_calls (place_for self.old bytes.now) bytes.now) calls }

        // Which of them fails is the disk's to say, unless it is starved.
        ensures exact { IsTrue D.tells → length bytes.now ≤ longest_script → (IsErrOf result (SpoolFault.Memory want) → ⊥)
            → IsExact (D.fails (disk_of self.old)) (D.starved (disk_of self.old)) (D.starved (disk_of self.new)) (history_of self.old) (history_of self.new)
            (put_calls (place_for self.old bytes.now) bytes.now) }
        // At Ok neither call was to fail.
        ensures due { IsTrue D.tells → 0 < length bytes.now
            → OnOk result ((i : ℕ) → i < 2 → D.fails (disk_of self.old) (moment (history_of self.old) + i) ≡ false) }
        ensures fuse { IsTrue D.tells → (i : ℕ) → D.fails (disk_of self.new) i ≡ D.fails (disk_of self.old) i }

        // Each image of each moment of the call holds what the live extents hold.
        ensures kept { IsTrue D.tells → (live : List Extent) → Tells self.old live → (extent : Extent) (script : List ℕ) → Has live extent
            → Holds (content (history_of self.old)) extent script
            → EachSince (moment (history_of self.old)) (history_of self.new) (λ image. Holds image extent script) }

        // So does what a read gives after it.
        ensures still { IsTrue D.tells → (live : List Extent) → Tells self.old live → (extent : Extent) (script : List ℕ) → Has live extent
            → Holds (content (history_of self.old)) extent script → Holds (content (history_of self.new)) extent script }

        // At Ok the new one is live, and holds the bytes.
        ensures tells { IfOk result (λ extent. (live more : List Extent) → Tells self.old live → IsWith live extent more → Tells self.new more) }
        ensures stored { IsTrue D.tells → IfOk result (λ extent. Holds (content (history_of self.new)) extent bytes.now) }
    {
        if bytes.len() > LONGEST {
            return Err(SpoolFault::TooLong);
        }
        if bytes.is_empty() {
            return Ok(Extent {
                place: 0,
                length: 0,
            });
        }
        let room = self.live.take_room()?;
        let length = bytes.len() as u32;
        let place = self.live.least_place(length);
        let extent = Extent { place, length };
        match write_through(&mut self.disk, place, bytes) {
            Ok(()) => {
                self.live.insert(room, extent);
                Ok(extent)
            }
            Err(Failed) => Err(SpoolFault::Disk),
        }
    }

    /// Adds the bytes of a live extent to `out`, or those up to the disk's end. It takes no memory
    /// where there is room for them. A fault (`Disk` or `Memory`) adds nothing.
    pub fn get(&mut self, extent: &Extent, out: &mut Vec<u8>) -> Result<(), SpoolFault>
        ensures bytes { IsTrue D.tells → (script : List ℕ) → Holds (content (history_of self.old)) extent.now script
            → OnOk result (out.new.items ≡ out.old.items ++ script) }
        ensures unchanged { OnErr result (out.new.items ≡ out.old.items) }
        // Whatever the disk is, it gives no more bytes than the extent has.
        ensures few { length out.new.items ≤ length out.old.items + extent.now.length }
        ensures memory { IsErrOf result (SpoolFault.Memory want) → vec_capacity out.old < length out.old.items + extent.now.length }
        ensures failed { IsErrOf result SpoolFault.Disk → FailedToRead D.Disk (disk_of self.old) (disk_of self.new) }
        ensures fault { IfErr result (λ fault. (fault ≡ SpoolFault.Disk) ⊎ (fault ≡ SpoolFault.Memory want)) }
        ensures reads { OnlyReads D.Disk (disk_of self.old) (disk_of self.new) }
        // It asks the disk once, and at Ok that call didn't fail.
        ensures once { IsTrue D.tells → D.reads (disk_of self.new) ≤ D.reads (disk_of self.old) + 1 }
        ensures faultless { OnOk result (D.faults (disk_of self.new) ≡ D.faults (disk_of self.old)) }
        ensures tells { (live : List Extent) → Tells self.old live → Tells self.new live }
        ensures room { room_of self.new ≡ room_of self.old }
    {
        append_read(&mut self.disk, extent.place, extent.length, out)
    }

    /// Makes a live extent free: its bytes may be given out again. It takes no memory and makes no
    /// call of the disk.
    pub fn free(&mut self, extent: &Extent)
        ensures tells { (live fewer : List Extent) → Tells self.old live → IsWith fewer extent.now live → Tells self.new fewer }
        ensures same { disk_of self.new ≡ disk_of self.old }
        ensures room { room_of self.old ≤ room_of self.new }
    {
        if extent.length > 0 {
            self.live.remove(extent);
        }
    }

    /// How high the tree is that keeps the live extents. What a put or a free looks at grows with
    /// it.
    pub fn height(&self) -> u8 {
        self.live.height()
    }

    /// Hands the disk back.
    pub fn close(self) -> D
        ensures { result ≡ disk_of self }
    {
        let Spool { disk, live: _ } = self;
        disk
    }
}

impl<D: Fused> Spool<D> {
    ghost use Rattle.nqs_spool.specs.Spooled.{disk_of, history_of, room_of, Tells};

    /// Makes the disk's calls-th write or sync from here fail, and each later call, and no other.
    /// Where a call was made from which on each one is to fail, that stays so.
    pub fn fuse(&mut self, calls: u64)
        ensures same { D.history (disk_of self.new) ≡ D.history (disk_of self.old) }
        ensures set { IsTrue D.tells → ((i : ℕ) → i < moment (history_of self.old) → D.fails (disk_of self.old) i ≡ false)
            → (i : ℕ) → D.fails (disk_of self.new) i ≡ nat_le (moment (history_of self.old) + (max calls 1 - 1)) i }
        ensures later { IsTrue D.tells → IsWhole (D.ends (disk_of self.old)) (moment (history_of self.old))
            → (i : ℕ) → D.fails (disk_of self.new) i ≡ nat_le (moment (history_of self.old) + (max calls 1 - 1)) i }
        ensures stays { IsTrue D.tells → (i : ℕ) → i < moment (history_of self.old) → IsTrue (D.ends (disk_of self.old) i)
            → (j : ℕ) → D.ends (disk_of self.new) j ≡ D.ends (disk_of self.old) j }
        ensures onward { IsTrue D.tells → (i : ℕ) → IsTrue (D.fails (disk_of self.new) i) → (j : ℕ) → i ≤ j → IsTrue (D.fails (disk_of self.new) j) }
        ensures alike { IsTrue D.tells → (i : ℕ) → D.ends (disk_of self.new) i ≡ D.fails (disk_of self.new) i }
        ensures starved { D.starved (disk_of self.new) ≡ D.starved (disk_of self.old) }
        ensures faults { D.faults (disk_of self.new) ≡ D.faults (disk_of self.old) }
        ensures unread { D.reads (disk_of self.new) ≡ D.reads (disk_of self.old) }
        ensures tells { (live : List Extent) → Tells self.old live → Tells self.new live }
        ensures room { room_of self.new ≡ room_of self.old }
    {
        self.disk.fuse(calls);
    }
}
