//! What comes to one place of a world: its slot is taken out, changed, and put back.

ghost use Rattle.std.specs.Prelude.{◌≡◌, ◌++◌, OnOk, OnErr};
ghost use Rattle.nqs_rules.specs.World.{World as Network, seen_of};
ghost use Rattle.nqs_net.specs.Lists.{GrowsByFront};
ghost use Rattle.nqs_net.specs.Followed.{FollowEach};
ghost use Rattle.nqs_net.specs.Worlds.{IsWorld};
ghost use Rattle.nqs_net.specs.Deeds.{done, IsReady};

use crate::deed::{Deed, do_at};
use crate::turn::Turn;
use crate::world::World;
use nqs_disk::Lack;
use nqs_types::{HostId, Seen};
use std::alloc::Global;

impl World {
    /// Does this at a host. Where there is no such host nothing happens.
    pub(crate) fn act(
        &mut self,
        alloc: Global,
        host: HostId,
        deed: &mut Deed,
        seen: &mut Vec<Seen>,
    ) -> Result<(), Lack>
        requires ready { IsReady self.old deed.old }
        ensures world { (network : Network) → IsWorld self.old network → OnOk result (IsWorld self.new (done deed.old host network).world) }
        ensures follow { (network : Network) → IsWorld self.old network
            → OnOk result (FollowEach self.old.tears.items self.old.slots.items self.new.slots.items) }
        ensures seen { (network : Network) → IsWorld self.old network → OnOk result (seen.new.items ≡ seen.old.items ++ seen_of (done deed.old host network)) }
        ensures front { (network : Network) → IsWorld self.old network
            → OnErr result (GrowsByFront seen.old.items seen.new.items (seen_of (done deed.old host network))) }
    {
        let place = host.0 as usize;
        if self.slots.len() <= place {
            return Ok(());
        }
        let tear = self.tears[place];
        let slot = self.slots.remove(place);
        let mut turn = Turn {
            me: host,
            tear,
            now: self.now,
            packets: &mut self.packets,
            seen,
        };
        let slot = do_at(alloc, &mut turn, slot, deed)?;
        self.slots.insert(place, slot)?;
        Ok(())
    }
}
