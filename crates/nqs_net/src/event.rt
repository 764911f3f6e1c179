//! What happens in a world by an event of a schedule.

ghost use Rattle.std.specs.Prelude.{◌≡◌, ◌++◌, ◌∷◌, [], List, ℕ, IsTrue, OnOk, OnErr, None};
ghost use Rattle.nqs_types.specs.declared.world.Seen.TheVariants as sight;
ghost use Rattle.nqs_rules.specs.Net.{table};
ghost use Rattle.nqs_rules.specs.Run.{happens, states_of};
ghost use Rattle.nqs_rules.specs.World.{World as Network, seen_of};
ghost use Rattle.nqs_laws.specs.Words.{IsInOrderAll};
ghost use Rattle.nqs_language_acts.specs.Acts.{act_of, is_sane_line};
ghost use Rattle.nqs_net.specs.Lists.{GrowsByFront};
ghost use Rattle.nqs_net.specs.Followed.{FollowEach};
ghost use Rattle.nqs_net.specs.Worlds.{IsWorld};
ghost use Rattle.nqs_net.specs.Deeds.{deed_of};

use crate::meaning::deed;
use crate::world::World;
use nqs_base::Items;
use nqs_disk::Lack;
use nqs_types::{Seen, WorldEvent};
use std::alloc::Global;

// There is no packet, of a number that was asked for or between two hosts.
fn miss(packet: Option<u64>, seen: &mut Vec<Seen>) -> Result<(), Lack>
    ensures seen { OnOk result (seen.new.items ≡ seen.old.items ++ sight.NoPacket packet ∷ []) }
    ensures unseen { OnErr result (seen.new.items ≡ seen.old.items) }
{
    seen.push(Seen::NoPacket(packet))?;
    Ok(())
}

impl World {
    // The table is seen.
    fn show(&mut self, alloc: Global, seen: &mut Vec<Seen>) -> Result<(), Lack>
        requires sound { (site : List (List ℕ)) × (network : Network) × IsInOrderAll site network × IsWorld self.old network }
        ensures world { (network : Network) → IsWorld self.old network → OnOk result (IsWorld self.new network) }
        ensures follow { (network : Network) → IsWorld self.old network
            → OnOk result (FollowEach self.old.tears.items self.old.slots.items self.new.slots.items) }
        ensures seen { (network : Network) → IsWorld self.old network
            → OnOk result (seen.new.items ≡ seen.old.items ++ sight.Table (table (states_of network)) ∷ []) }
        ensures unseen { OnErr result (seen.new.items ≡ seen.old.items) }
    {
        let rows = self.table(alloc)?;
        seen.push(Seen::Table(Items::from_vec(rows)))?;
        Ok(())
    }

    // What an event does that comes to no host: the others don't come here. A packet isn't there.
    fn other(&mut self, alloc: Global, event: &WorldEvent, seen: &mut Vec<Seen>) -> Result<(), Lack>
        requires sound { (site : List (List ℕ)) × (network : Network) × IsInOrderAll site network × IsWorld self.old network }
        requires other { (network : Network) → IsWorld self.old network → deed_of (act_of event.now) network ≡ None }
        ensures world { (network : Network) → IsWorld self.old network → OnOk result (IsWorld self.new (happens (act_of event.now) network).world) }
        ensures follow { (network : Network) → IsWorld self.old network
            → OnOk result (FollowEach self.old.tears.items self.old.slots.items self.new.slots.items) }
        ensures seen { (network : Network) → IsWorld self.old network
            → OnOk result (seen.new.items ≡ seen.old.items ++ seen_of (happens (act_of event.now) network)) }
        ensures front { (network : Network) → IsWorld self.old network
            → OnErr result (GrowsByFront seen.old.items seen.new.items (seen_of (happens (act_of event.now) network))) }
    {
        match event {
            WorldEvent::Deliver { packet } => miss(Some(*packet), seen),
            WorldEvent::Newest { .. } => miss(None, seen),
            WorldEvent::Clock { moment } => {
                self.now = *moment;
                Ok(())
            }
            WorldEvent::Fuse {
                host,
                disk,
                calls,
                tear,
            } => {
                self.fuse(*host, *disk, *calls, *tear);
                Ok(())
            }
            WorldEvent::Show => self.show(alloc, seen),
            _ => Ok(()),
        }
    }

    /// Takes an event, and adds to `seen` what is seen of it. After an `Err` the world is used no
    /// more: it is what was lacking, memory or room on a disk. What was added until then is a front
    /// of what is seen of the event.
    ///
    /// A world that stands for a network has the past of each host that is up: at each moment since
    /// its disks were new or torn, those of this event among them, whatever images the disks may
    /// leave then tell the host's state before the change that is being kept or the one after it.
    ///
    /// No call of a disk is forgotten: those of each host's disks go on by the calls of this event.
    /// Those of a host that stopped are then what its tear leaves after the last of these calls.
    pub fn event(
        &mut self,
        alloc: Global,
        event: &WorldEvent,
        seen: &mut Vec<Seen>,
    ) -> Result<(), Lack>
        requires sane { IsTrue (is_sane_line event.now) }
        requires sound { (site : List (List ℕ)) × (network : Network) × IsInOrderAll site network × IsWorld self.old network }
        ensures world { (site : List (List ℕ)) (network : Network) → IsInOrderAll site network → IsWorld self.old network
            → OnOk result (IsWorld self.new (happens (act_of event.now) network).world) }
        ensures sound { (site : List (List ℕ)) (network : Network) → IsInOrderAll site network → IsWorld self.old network
            → OnOk result (IsInOrderAll site (happens (act_of event.now) network).world) }
        ensures follow { (site : List (List ℕ)) (network : Network) → IsInOrderAll site network → IsWorld self.old network
            → OnOk result (FollowEach self.old.tears.items self.old.slots.items self.new.slots.items) }
        ensures seen { (site : List (List ℕ)) (network : Network) → IsInOrderAll site network → IsWorld self.old network
            → OnOk result (seen.new.items ≡ seen.old.items ++ seen_of (happens (act_of event.now) network)) }
        ensures front { (site : List (List ℕ)) (network : Network) → IsInOrderAll site network → IsWorld self.old network
            → OnErr result (GrowsByFront seen.old.items seen.new.items (seen_of (happens (act_of event.now) network))) }
    {
        match deed(alloc, event, self.now, &self.packets)? {
            Some((host, mut deed)) => self.act(alloc, host, &mut deed, seen),
            None => self.other(alloc, event, seen),
        }
    }
}
