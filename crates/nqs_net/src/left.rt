//! What a world leaves: the disks of its hosts.

ghost use Rattle.std.specs.Prelude.{IfOk};
ghost use Rattle.nqs_rules.specs.World.{World as Network, Host};
ghost use Rattle.nqs_net.specs.Left.{IsLeft, AreLeft};
ghost use Rattle.nqs_net.specs.Worlds.{IsSlot, IsWorld};

use crate::slot::Slot;
use crate::world::World;
use nqs_base::Memory;
use nqs_disk::MemDisk;
use nqs_store::Disks;
use std::alloc::Global;

// The disks of a host.
fn left_by(slot: Slot) -> Disks<MemDisk>
    ensures { (host : Host) → IsSlot slot host → IsLeft result host }
{
    match slot {
        Slot::Up(up) => Box::into_inner(up.node).close(),
        Slot::Down(down) => Box::into_inner(down.disks),
    }
}

impl World {
    /// The disks of the hosts, in the order of the site. Whatever images they may leave tell the
    /// states of the hosts. Their calls are those that kept each change since the host was new or
    /// last stopped, and nothing else. At `Err` memory was wanting, and the disks are gone.
    pub fn close(self, alloc: Global) -> Result<Vec<Disks<MemDisk>>, Memory>
        ensures { (network : Network) → IsWorld self network → IfOk result (λ disks. AreLeft disks.items network.hosts) }
    {
        let mut left = Vec::new(alloc);
        for slot in self.slots {
            left.push(left_by(slot))?;
        }
        Ok(left)
    }
}
