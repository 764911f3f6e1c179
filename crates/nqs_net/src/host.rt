//! What comes to a host, with the starts that follow: an event, a boot or a stop.

ghost use Rattle.std.specs.Prelude.{◌≡◌, ◌∷◌, [], IsTrue, false, length};
ghost use Rattle.std.specs.List.{filter_map};
ghost use Rattle.nqs_types.specs.declared.change.Change.TheVariants.{Boot};
ghost use Rattle.nqs_types.specs.declared.world.Seen.TheVariants as sight;
ghost use Rattle.nqs_types.specs.declared.world.Which.{Which};
ghost use Rattle.nqs_outside.specs.History.{History};
ghost use Rattle.nqs_disk.specs.MemDisk as mem;
ghost use Rattle.nqs_rules.specs.Notes.{ByBoot};
ghost use Rattle.nqs_rules.specs.Sane.{is_sane_event};
ghost use Rattle.nqs_rules.specs.World.{World as Network, Host, halts, takes_up, crashes_up, makes_change, boot_output, boots_down};
ghost use Rattle.nqs_node.specs.Nodes.{history_of, content_of, is_stopped};
ghost use Rattle.nqs_store.specs.Disks.{histories_of};
ghost use Rattle.nqs_store.specs.Sound.{IsSoundHost};
ghost use Rattle.nqs_net.specs.Followed.{IsTurnAt, IsDone};
ghost use Rattle.nqs_net.specs.Worlds.{IsUp, IsDown};
ghost use Rattle.nqs_net.specs.Turns.{IsTurnOf, IsSameTurn};

use crate::emit::emit;
use crate::slot::{DownHost, Slot, UpHost};
use crate::stop::stop;
use crate::turn::{Turn, start_all, take_step};
use nqs_disk::{Lack, MemDisk};
use nqs_node::Node;
use nqs_store::LoadFault;
use nqs_types::{Event, Seen};
use std::alloc::Global;

/// A host that is up stops.
#[tactic(none)]
pub(crate) fn crash_up(
    alloc: Global,
    turn: &mut Turn<'_>,
    node: Box<Node<MemDisk>>,
) -> Result<Slot, Lack>
    ensures same { IsSameTurn turn.old turn.new }
    ensures packets { turn.new.packets.now ≡ turn.old.packets.now }
    ensures turn { (w : Network) (host : Host) → IsTurnOf turn.old host w → IsUp node.value host
        → IsDone turn.old turn.new (history_of node.value) w (crashes_up turn.old.me host w) result }
{
    let disks = Box::into_inner(node).close();
    let slot = stop(alloc, turn, disks)?;
    Ok(slot)
}

// A host that is to halt stops, if it didn't before.
#[tactic(none)]
fn halt(alloc: Global, turn: &mut Turn<'_>, stops: bool, slot: Slot) -> Result<Slot, Lack>
    ensures same { IsSameTurn turn.old turn.new }
    ensures packets { turn.new.packets.now ≡ turn.old.packets.now }
    ensures turn { (w : Network) (old : Which → History) → IsTurnAt turn.old old slot w
        → IsDone turn.old turn.new old w (halts stops turn.old.me w) result }
{
    if !stops {
        return Ok(slot);
    }
    match slot {
        Slot::Down(down) => Ok(Slot::Down(down)),
        Slot::Up(up) => crash_up(alloc, turn, up.node),
    }
}

/// A host that is up takes an event, and starts what may start then. A step that halts stops it.
#[tactic(none)]
pub(crate) fn take_up(
    alloc: Global,
    turn: &mut Turn<'_>,
    node: Box<Node<MemDisk>>,
    event: &mut Event,
) -> Result<Slot, Lack>
    requires sound { IsSoundHost (content_of node.value) }
    requires running { is_stopped node.value ≡ false }
    requires sane { IsTrue (is_sane_event (length (content_of node.value).site) event.old) }
    ensures same { IsSameTurn turn.old turn.new }
    ensures turn { (w : Network) (host : Host) → IsTurnOf turn.old host w → IsUp node.value host → w.now ≡ turn.old.now
        → IsDone turn.old turn.new (history_of node.value) w (takes_up turn.old.me host event.old w) result }
{
    let (halts, taken) = take_step(alloc, turn, node, event)?;
    let begun = start_all(alloc, turn, taken)?;
    let left = halt(alloc, turn, halts, begun)?;
    Ok(left)
}

// The boot of a host that is down: its change goes out, or stops it.
#[tactic(none)]
fn boot_step(alloc: Global, turn: &mut Turn<'_>, down: DownHost) -> Result<Slot, Lack>
    requires { (host : Host) × IsDown down.disks.value host }
    ensures same { IsSameTurn turn.old turn.new }
    ensures turn { (w : Network) (host : Host) → IsTurnOf turn.old host w → IsDown down.disks.value host
        → IsDone turn.old turn.new (histories_of mem.history_of down.disks.value) w
        (makes_change turn.old.me host ByBoot Boot (sight.Boot turn.old.me ∷ []) (filter_map boot_output host.state.rows) w) result }
{
    let mut out = Vec::new(alloc);
    match Node::boot(alloc, Box::into_inner(down.disks), &mut out) {
        Ok(node) => {
            let node = Box::new(alloc, node)?;
            turn.seen.push(Seen::Boot { host: turn.me })?;
            emit(turn, out)?;
            Ok(Slot::Up(UpHost { node }))
        }
        Err((LoadFault::Disk(_), disks)) => {
            let slot = stop(alloc, turn, disks)?;
            Ok(slot)
        }
        Err((LoadFault::Memory(memory), _)) => Err(Lack::Memory(memory)),
        // The disks tell a host.
        Err((LoadFault::NotNqs(_, _), _)) => unreachable!(),
    }
}

/// A host that is down boots, and starts what may start then.
#[tactic(none)]
pub(crate) fn boot_down(alloc: Global, turn: &mut Turn<'_>, down: DownHost) -> Result<Slot, Lack>
    requires { (host : Host) × IsDown down.disks.value host }
    ensures same { IsSameTurn turn.old turn.new }
    ensures turn { (w : Network) (host : Host) → IsTurnOf turn.old host w → IsDown down.disks.value host → w.now ≡ turn.old.now
        → IsDone turn.old turn.new (histories_of mem.history_of down.disks.value) w (boots_down turn.old.me host w) result }
{
    let booted = boot_step(alloc, turn, down)?;
    let begun = start_all(alloc, turn, booted)?;
    Ok(begun)
}
