//! Fuses of the disks of a host.

ghost use Rattle.std.specs.Prelude.{◌≡◌, ◌≢◌, ◌<◌, ◌-◌, ◌+◌, ℕ, false, max, nat_le, map};
ghost use Rattle.nqs_base.specs.declared.tear.Tear.{Tear as Torn};
ghost use Rattle.nqs_types.specs.declared.world.Which.{Which as OneOf};
ghost use Rattle.nqs_outside.specs.History.{moment};
ghost use Rattle.nqs_disk.specs.MemDisk as mem;
ghost use Rattle.nqs_rules.specs.World.{World as Network, Host, fused_host, fuses};
ghost use Rattle.nqs_store.specs.Disks.{histories_of, failing_of};
ghost use Rattle.nqs_node.specs.Nodes.{history_of};
ghost use Rattle.nqs_net.specs.Followed.{disks_in};
ghost use Rattle.nqs_net.specs.Worlds.{IsUp, IsDown, IsSlot, IsWorld};

use crate::slot::{DownHost, Slot, UpHost};
use crate::world::World;
use nqs_base::Tear;
use nqs_disk::MemDisk;
use nqs_outside::Fused;
use nqs_store::Disks;
use nqs_types::{HostId, Which};

// Makes the calls-th call from here of a disk fail, and each later one of it.
fn fuse_disks(disks: &mut Disks<MemDisk>, which: Which, calls: u64)
    ensures same { (disk : OneOf) → histories_of mem.history_of disks.new disk ≡ histories_of mem.history_of disks.old disk }
    ensures set { ((i : ℕ) → i < moment (histories_of mem.history_of disks.old which) → failing_of mem.fails_of disks.old which i ≡ false)
        → (i : ℕ) → failing_of mem.fails_of disks.new which i ≡ nat_le (moment (histories_of mem.history_of disks.old which) + (max calls 1 - 1)) i }
    ensures others { (disk : OneOf) → disk ≢ which → (i : ℕ) → failing_of mem.fails_of disks.new disk i ≡ failing_of mem.fails_of disks.old disk i }
{
    match which {
        Which::Root => disks.root.fuse(calls),
        Which::First => disks.first.fuse(calls),
        Which::Second => disks.second.fuse(calls),
        Which::Spool => disks.spool.fuse(calls),
    }
}

fn fuse_up(up: &mut UpHost, which: Which, calls: u64)
    ensures disks { (disk : OneOf) → history_of up.new.node.value disk ≡ history_of up.old.node.value disk }
    ensures stands { (host : Host) (tear : Torn) → IsUp up.old.node.value host → IsUp up.new.node.value (fused_host which calls tear host) }
{
    up.node.fuse(which, calls);
}

fn fuse_down(down: &mut DownHost, which: Which, calls: u64)
    ensures disks { (disk : OneOf) → histories_of mem.history_of down.new.disks.value disk ≡ histories_of mem.history_of down.old.disks.value disk }
    ensures stands { (host : Host) (tear : Torn) → IsDown down.old.disks.value host → IsDown down.new.disks.value (fused_host which calls tear host) }
{
    fuse_disks(&mut *down.disks, which, calls);
}

fn fuse_slot(slot: &mut Slot, which: Which, calls: u64)
    ensures disks { disks_in slot.new ≡ disks_in slot.old }
    ensures stands { (host : Host) (tear : Torn) → IsSlot slot.old host → IsSlot slot.new (fused_host which calls tear host) }
{
    match slot {
        Slot::Up(up) => fuse_up(up, which, calls),
        Slot::Down(down) => fuse_down(down, which, calls),
    }
}

impl World {
    /// Makes the calls-th call from here of a disk of a host stop it, with this tear. Where there
    /// is no such host nothing happens.
    pub(crate) fn fuse(&mut self, host: HostId, disk: Which, calls: u64, tear: Tear)
        requires stands { (network : Network) × IsWorld self.old network }
        ensures disks { map disks_in self.new.slots.items ≡ map disks_in self.old.slots.items }
        ensures stands { (network : Network) → IsWorld self.old network → IsWorld self.new (fuses host disk calls tear network) }
    {
        let place = host.0 as usize;
        if place < self.slots.len() {
            fuse_slot(&mut self.slots[place], disk, calls);
            self.tears[place] = tear;
        }
    }
}
