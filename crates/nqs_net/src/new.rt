//! A new world: each host is formatted and booted.

ghost use Rattle.std.specs.Prelude.{◌≡◌, ◌≤◌, ◌<◌, ℕ, [], false, IsTrue, IfOk, length};
ghost use Rattle.std.specs.List.{AllByRecursion};
ghost use Rattle.nqs_base.specs.Name.{IsName};
ghost use Rattle.nqs_types.specs.declared.world.Which.{Which};
ghost use Rattle.nqs_disk.specs.MemDisk as mem;
ghost use Rattle.nqs_rules.specs.World.{new_host, new_world};
ghost use Rattle.nqs_node.specs.Nodes.{is_stopped};
ghost use Rattle.nqs_store.specs.Disks.{disk_at, histories_of, failing_of};
ghost use Rattle.nqs_net.specs.Worlds.{IsUp, IsWorld};

use crate::slot::{Slot, UpHost};
use crate::world::World;
use nqs_base::{ListOf, Name, Tear, names_stand};
use nqs_disk::{Lack, MemDisk};
use nqs_node::Node;
use nqs_store::{Disks, LoadFault, StoreFault, format};
use nqs_types::HostId;
use std::alloc::Global;

/// Four empty disks.
pub fn empty_disks(alloc: Global) -> Disks<MemDisk>
    ensures histories { (which : Which) → histories_of mem.history_of result which ≡ record { start = []; calls = [] } }
    ensures fuses { (which : Which) (i : ℕ) → failing_of mem.fails_of result which i ≡ false }
{
    Disks {
        root: MemDisk::new(alloc),
        first: MemDisk::new(alloc),
        second: MemDisk::new(alloc),
        spool: MemDisk::new(alloc),
    }
}

// What one of the disks lacked for a call.
fn lack_of(disks: Disks<MemDisk>) -> Lack
    requires { (which : Which) × IsTrue (mem.is_starved (disk_at which disks)) }
{
    let Disks {
        root,
        first,
        second,
        spool,
    } = disks;
    if let Some(lack) = root.lack() {
        return lack;
    }
    if let Some(lack) = first.lack() {
        return lack;
    }
    if let Some(lack) = second.lack() {
        return lack;
    }
    match spool.lack() {
        Some(lack) => lack,
        // One of them lacked something.
        None => unreachable!(),
    }
}

// Why a host wasn't formatted: a call of its disks fails only where one lacked something, as they
// have no fuse.
fn unformatted(fault: StoreFault, disks: Disks<MemDisk>) -> Lack
    requires starved { (which : Which) → fault ≡ StoreFault.Disk which → (other : Which) × IsTrue (mem.is_starved (disk_at other disks)) }
    requires running { fault ≡ StoreFault.Stopped → ⊥ }
{
    match fault {
        StoreFault::Memory(memory) => Lack::Memory(memory),
        StoreFault::Disk(_) => lack_of(disks),
        // No store is open.
        StoreFault::Stopped => unreachable!(),
    }
}

// The same of its boot.
fn unbooted(fault: LoadFault, disks: Disks<MemDisk>) -> Lack
    requires starved { (which : Which) → fault ≡ LoadFault.Disk which → (other : Which) × IsTrue (mem.is_starved (disk_at other disks)) }
    requires told { (which : Which) (place : ℕ) → fault ≡ LoadFault.NotNqs which place → ⊥ }
{
    match fault {
        LoadFault::Memory(memory) => Lack::Memory(memory),
        LoadFault::Disk(_) => lack_of(disks),
        // The disks tell the host that was formatted.
        LoadFault::NotNqs(_, _) => unreachable!(),
    }
}

// A host of a site, formatted and booted. Its disks have no fuse, so it isn't only where something
// is lacking.
fn new_node(alloc: Global, me: HostId, site: &[Name]) -> Result<Box<Node<MemDisk>>, Lack>
    requires within { me.0 < length site.now }
    requires few { length site.now ≤ 16 }
    requires names { AllByRecursion IsName site.now }
    ensures up { IfOk result (λ node. IsUp node.value (new_host site.now me.0)) }
    ensures running { IfOk result (λ node. is_stopped node.value ≡ false) }
{
    let mut disks = empty_disks(alloc);
    match format(alloc, &mut disks, me, site) {
        Err(fault) => Err(unformatted(fault, disks)),
        Ok(()) => {
            let mut out = Vec::new(alloc);
            match Node::boot(alloc, disks, &mut out) {
                Err((fault, disks)) => Err(unbooted(fault, disks)),
                Ok(node) => Ok(Box::new(alloc, node)?),
            }
        }
    }
}

impl World {
    /// Formats and boots each host, at moment 0. An `Err` is what was lacking: memory, or room on a
    /// disk.
    pub fn new(alloc: Global, site: &[Name]) -> Result<World, Lack>
        requires some { 1 ≤ length site.now }
        requires few { length site.now ≤ 16 }
        ensures { IfOk result (λ world. IsWorld world (new_world site.now)) }
    {
        names_stand(site);
        let mut slots = Vec::new(alloc);
        let mut tears = Vec::new(alloc);
        for me in 0..site.len() as u8 {
            let node = new_node(alloc, HostId(me), site)?;
            slots.push(Slot::Up(UpHost { node }))?;
            tears.push(Tear::Old)?;
        }
        Ok(World {
            site: ListOf::from_vec(site.to_vec(alloc)?),
            slots,
            tears,
            packets: Vec::new(alloc),
            now: 0,
        })
    }
}
