//! What comes to one host, whether it is up or down.

ghost use Rattle.std.specs.Prelude.{◌≡◌, ◌++◌, ◌∷◌, [], IfOk, OnOk, OnErr, false, length};
ghost use Rattle.nqs_state.specs.State.{content};
ghost use Rattle.nqs_types.specs.declared.event.Event.TheVariants as event;
ghost use Rattle.nqs_disk.specs.MemDisk as mem;
ghost use Rattle.nqs_rules.specs.World.{World as Network, Host, finishes_up};
ghost use Rattle.nqs_node.specs.Nodes.{history_of, content_of, is_stopped};
ghost use Rattle.nqs_store.specs.Disks.{histories_of};
ghost use Rattle.nqs_store.specs.Sound.{IsSoundHost};
ghost use Rattle.nqs_net.specs.Followed.{disks_in, IsDone};
ghost use Rattle.nqs_net.specs.Worlds.{IsUp, IsDown, IsSlot};
ghost use Rattle.nqs_net.specs.Turns.{IsTurnOf, IsSameTurn};
ghost use Rattle.nqs_net.specs.Deeds.{done_up, done_down, done_at, IsSaneFor, IsSaneAt, MayBoot};
ghost use Rattle.nqs_net.specs.Least.{least_of};

use crate::host::{boot_down, crash_up, take_up};
use crate::slot::{DownHost, Slot, UpHost};
use crate::turn::Turn;
use nqs_base::Bytes;
use nqs_disk::{Lack, MemDisk};
use nqs_node::Node;
use nqs_state::HostState;
use nqs_types::{Event, RequestId, Seen};
use std::alloc::Global;

/// What comes to one host.
#[derive(Drop)]
pub enum Deed {
    /// The host takes an event.
    Take(Event),
    /// Its least running request ends.
    Finish,
    Crash,
    Boot,
}

// The least running request, by the host of its submission and then by its number, and how often it
// was started.
fn least_running(state: &HostState) -> Option<(RequestId, u16)>
    ensures { result ≡ least_of (content state.now).rows }
{
    match state.rows.least_running() {
        Some(row) => Some((row.id, row.starts)),
        None => None,
    }
}

// A host stays as it is, and this is seen.
fn stay(slot: Slot, sight: Seen, turn: &mut Turn<'_>) -> Result<Slot, Lack>
    ensures same { IsSameTurn turn.old turn.new }
    ensures packets { turn.new.packets.now ≡ turn.old.packets.now }
    ensures stays { IfOk result (λ new. new ≡ slot) }
    ensures seen { OnOk result (turn.new.seen.now.items ≡ turn.old.seen.now.items ++ sight ∷ []) }
    ensures unseen { OnErr result (turn.new.seen.now.items ≡ turn.old.seen.now.items) }
{
    turn.seen.push(sight)?;
    Ok(slot)
}

fn ended(alloc: Global, now: u64, id: RequestId, start: u16) -> Event
    ensures { result ≡ event.Ended now 0 id start 0 [] [] }
{
    Event::Ended {
        now,
        port: 0,
        id,
        start,
        status: 0,
        out: Bytes::new(alloc),
        err: Bytes::new(alloc),
    }
}

// The least running request of a host that is up ends.
fn finish_up(alloc: Global, turn: &mut Turn<'_>, node: Box<Node<MemDisk>>) -> Result<Slot, Lack>
    requires sound { IsSoundHost (content_of node.value) }
    requires running { is_stopped node.value ≡ false }
    ensures same { IsSameTurn turn.old turn.new }
    ensures turn { (w : Network) (host : Host) → IsTurnOf turn.old host w → IsUp node.value host → w.now ≡ turn.old.now
        → IsDone turn.old turn.new (history_of node.value) w (finishes_up turn.old.me host w) result }
{
    match least_running(node.state()) {
        Some((id, start)) => {
            let mut event = ended(alloc, turn.now, id, start);
            take_up(alloc, turn, node, &mut event)
        }
        None => stay(
            Slot::Up(UpHost { node }),
            Seen::Idle { host: turn.me },
            turn,
        ),
    }
}

fn do_up(
    alloc: Global,
    turn: &mut Turn<'_>,
    node: Box<Node<MemDisk>>,
    deed: &mut Deed,
) -> Result<Slot, Lack>
    requires sound { IsSoundHost (content_of node.value) }
    requires running { is_stopped node.value ≡ false }
    requires sane { IsSaneFor (length (content_of node.value).site) deed.old }
    ensures same { IsSameTurn turn.old turn.new }
    ensures turn { (w : Network) (host : Host) → IsTurnOf turn.old host w → IsUp node.value host → w.now ≡ turn.old.now
        → IsDone turn.old turn.new (history_of node.value) w (done_up deed.old turn.old.me host w) result }
{
    match deed {
        Deed::Take(event) => take_up(alloc, turn, node, event),
        Deed::Finish => finish_up(alloc, turn, node),
        Deed::Crash => crash_up(alloc, turn, node),
        Deed::Boot => stay(Slot::Up(UpHost { node }), Seen::Up { host: turn.me }, turn),
    }
}

fn do_down(alloc: Global, turn: &mut Turn<'_>, down: DownHost, deed: &Deed) -> Result<Slot, Lack>
    requires { (host : Host) × IsDown down.disks.value host }
    ensures same { IsSameTurn turn.old turn.new }
    ensures turn { (w : Network) (host : Host) → IsTurnOf turn.old host w → IsDown down.disks.value host → w.now ≡ turn.old.now
        → IsDone turn.old turn.new (histories_of mem.history_of down.disks.value) w (done_down deed.now turn.old.me host w) result }
{
    match deed {
        Deed::Boot => boot_down(alloc, turn, down),
        _ => stay(Slot::Down(down), Seen::Down { host: turn.me }, turn),
    }
}

/// What comes to a host: one that is down only boots.
pub(crate) fn do_at(
    alloc: Global,
    turn: &mut Turn<'_>,
    slot: Slot,
    deed: &mut Deed,
) -> Result<Slot, Lack>
    requires sane { IsSaneAt deed.old slot }
    requires boots { MayBoot slot }
    ensures same { IsSameTurn turn.old turn.new }
    ensures turn { (w : Network) (host : Host) → IsTurnOf turn.old host w → IsSlot slot host → w.now ≡ turn.old.now
        → IsDone turn.old turn.new (disks_in slot) w (done_at deed.old turn.old.me host w) result }
{
    match slot {
        Slot::Up(up) => do_up(alloc, turn, up.node, deed),
        Slot::Down(down) => do_down(alloc, turn, down, deed),
    }
}
