//! Calls of an open store that keep nothing.

ghost use Rattle.std.specs.Prelude.{◌≡◌, ◌≢◌, ◌↔◌, ◌<◌, ◌≤◌, ◌+◌, ◌-◌, ◌++◌, ℕ, IsTrue, IsErrOf, OnOk, OnErr, IfErr, false, length};
ghost use Rattle.std.specs.Prelude.{max, nat_le, vec_capacity};
ghost use Rattle.nqs_base.specs.Want.{want};
ghost use Rattle.nqs_types.specs.declared.world.Which.{Which};
ghost use Rattle.nqs_types.specs.declared.world.Which.TheVariants.{Spool};
ghost use Rattle.nqs_outside.specs.History.{moment, IsWhole};
ghost use Rattle.nqs_spool.specs.Extents.{Has};
ghost use Rattle.nqs_store.specs.Told.{Host};
ghost use Rattle.nqs_store.specs.Live.{live};
ghost use Rattle.nqs_store.specs.Opens.{Rereads};
ghost use Rattle.nqs_store.specs.Faults.{IsScriptFault};
ghost use Rattle.nqs_store.specs.Reads.{of_spool};

use crate::fault::{LoadFault, StoreFault};
use crate::reading::{names_second, reread_host};
use crate::store::Store;
use nqs_base::Extent;
use nqs_outside::{Disk, Fused};
use nqs_spool::SpoolFault;
use nqs_state::HostState;
use nqs_types::Which;
use std::alloc::Global;

impl<D: Disk> Store<D> {
    ghost use Rattle.nqs_store.specs.Stores.{history_of, is_stopped, active_of, Tells, bytes_of, OnlyReads, FailedToRead, AsksAtMost};

    /// Whether an earlier commit or checkpoint was answered `Disk`.
    pub fn is_stopped(&self) -> bool
        ensures { result ≡ is_stopped self.now }
    {
        self.stopped
    }

    /// Adds the bytes of a live extent to `out`. It takes no memory where there is room for them.
    /// An `Err` adds nothing.
    pub fn script(&mut self, extent: &Extent, out: &mut Vec<u8>) -> Result<(), StoreFault>
        ensures stopped { IsErrOf result StoreFault.Stopped ↔ IsTrue (is_stopped self.old) }
        ensures only { IfErr result IsScriptFault }
        ensures bytes { IsTrue D.tells → OnOk result ((host : Host) → Tells self.old host → Has (live host) extent.now
            → out.new.items ≡ out.old.items ++ bytes_of self.old extent.now) }
        ensures unchanged { OnErr result (out.new.items ≡ out.old.items) }
        // Whatever the disk is, it gives no more bytes than the extent has.
        ensures few { length out.new.items ≤ length out.old.items + extent.now.length }
        ensures memory { IsErrOf result (StoreFault.Memory want) → vec_capacity out.old < length out.old.items + extent.now.length }
        ensures failed { IsErrOf result (StoreFault.Disk Spool) → FailedToRead self.old self.new Spool }
        ensures reads { OnlyReads self.old self.new }
        // The spool is asked once, and no other disk.
        ensures once { AsksAtMost self.old self.new (of_spool 1) }
        ensures stays { (is_stopped self.new ≡ is_stopped self.old) × (active_of self.new ≡ active_of self.old) }
        ensures tells { IsTrue D.tells → (host : Host) → Tells self.old host → Tells self.new host }
    {
        if self.stopped {
            return Err(StoreFault::Stopped);
        }
        match self.spool.get(extent, out) {
            Ok(()) => Ok(()),
            Err(SpoolFault::Memory(memory)) => Err(StoreFault::Memory(memory)),
            Err(_) => Err(StoreFault::Disk(Which::Spool)),
        }
    }

    /// Tells the host by what its disks hold now, whatever the store told before. It writes
    /// nothing, and the store stays as it is. `NotNqs` has the disk and the place of the first test
    /// that fails, as in `load`.
    #[tactic(none)]
    pub fn reread(&mut self, alloc: Global) -> Result<HostState, LoadFault>
        ensures { Rereads self.old self.new result }
    {
        let Ok(second) = names_second(&mut self.root) else {
            return Err(LoadFault::Disk(Which::Root));
        };
        if second {
            reread_host(alloc, Which::Second, &mut self.second, &mut self.spool)
        } else {
            reread_host(alloc, Which::First, &mut self.first, &mut self.spool)
        }
    }
}

impl<D: Fused> Store<D> {
    ghost use Rattle.nqs_store.specs.Stores.{disk_of, history_of, fails_of, ends_of, is_starved, is_stopped, active_of, Tells};

    /// Makes the calls-th write or sync from here of the disk fail, and each later call of it, and
    /// no other of that disk. It changes nothing else. Where a call of that disk was made from
    /// which on each one is to fail, that stays so.
    pub fn fuse(&mut self, which: Which, calls: u64)
        ensures same { (disk : Which) → history_of self.new disk ≡ history_of self.old disk }
        ensures set { IsTrue D.tells → ((i : ℕ) → i < moment (history_of self.old which) → fails_of self.old which i ≡ false)
            → (i : ℕ) → fails_of self.new which i ≡ nat_le (moment (history_of self.old which) + (max calls 1 - 1)) i }
        ensures later { IsTrue D.tells → IsWhole (ends_of self.old which) (moment (history_of self.old which))
            → (i : ℕ) → fails_of self.new which i ≡ nat_le (moment (history_of self.old which) + (max calls 1 - 1)) i }
        ensures stays { IsTrue D.tells → (i : ℕ) → i < moment (history_of self.old which) → IsTrue (ends_of self.old which i)
            → (j : ℕ) → ends_of self.new which j ≡ ends_of self.old which j }
        ensures onward { IsTrue D.tells → (i : ℕ) → IsTrue (fails_of self.new which i) → (j : ℕ) → i ≤ j → IsTrue (fails_of self.new which j) }
        ensures alike { IsTrue D.tells → (i : ℕ) → ends_of self.new which i ≡ fails_of self.new which i }
        ensures others { (disk : Which) → disk ≢ which → (i : ℕ) → fails_of self.new disk i ≡ fails_of self.old disk i }
        ensures starved { (disk : Which) → is_starved self.new disk ≡ is_starved self.old disk }
        ensures faults { (disk : Which) → D.faults (disk_of disk self.new) ≡ D.faults (disk_of disk self.old) }
        ensures unread { (disk : Which) → D.reads (disk_of disk self.new) ≡ D.reads (disk_of disk self.old) }
        ensures stopped { (is_stopped self.new ≡ is_stopped self.old) × (active_of self.new ≡ active_of self.old) }
        ensures tells { (host : Host) → Tells self.old host → Tells self.new host }
    {
        match which {
            Which::Root => self.root.fuse(calls),
            Which::First => self.first.fuse(calls),
            Which::Second => self.second.fuse(calls),
            Which::Spool => self.spool.fuse(calls),
        }
    }
}
