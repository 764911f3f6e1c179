//! What a host does that is up: it takes an event, and starts what may start.

ghost use Rattle.std.specs.Prelude.{◌≡◌, ◌⊎◌, ◌<◌, [], IsTrue, IfOk, List, ℕ, Bool, true, false, None, length};
ghost use Rattle.nqs_types.specs.declared.world.Which.{Which};
ghost use Rattle.nqs_outside.specs.History.{History};
ghost use Rattle.nqs_rules.specs.Measure.{starts_left};
ghost use Rattle.nqs_rules.specs.Sane.{is_sane_event};
ghost use Rattle.nqs_rules.specs.Start.{start};
ghost use Rattle.nqs_rules.specs.Step.{step};
ghost use Rattle.nqs_rules.specs.Stepped.{Stepped};
ghost use Rattle.nqs_rules.specs.Notes.{Why, ByEvent};
ghost use Rattle.nqs_rules.specs.World.{World as Network, Host, steps, all_starts};
ghost use Rattle.nqs_node.specs.Carried.{started};
ghost use Rattle.nqs_node.specs.Nodes.{history_of, fails_of, content_of, is_stopped};
ghost use Rattle.nqs_store.specs.Sound.{IsSoundHost};
ghost use Rattle.nqs_net.specs.Followed.{IsTurnAt, IsDone, IsStepDone, IsStarted};
ghost use Rattle.nqs_net.specs.Worlds.{IsUp};
ghost use Rattle.nqs_net.specs.Turns.{IsTurnOf, IsSameTurn, IsTaken, IsDownSlot, starts_in};

use crate::emit::emit;
use crate::slot::{Slot, UpHost};
use crate::stop::stop;
use nqs_base::{Memory, Tear};
use nqs_disk::{Lack, MemDisk};
use nqs_node::Node;
use nqs_store::StoreFault;
use nqs_types::{Event, HostId, Message, Output, Seen};
use std::alloc::Global;

/// Whose turn it is, and what it adds to: a host, the tear that a stop would leave its disks with,
/// the moment, in seconds since 1970, and two lists of the world.
#[derive(Drop)]
pub(crate) struct Turn<'a> {
    pub me: HostId,
    pub tear: Tear,
    pub now: u64,
    /// The packets that were sent, in the order of their numbers.
    pub packets: &'a mut Vec<Message>,
    /// What is seen.
    pub seen: &'a mut Vec<Seen>,
}

// Takes an event: whether no failed call of a disk stopped the node, and whether the host halts
// then.
#[tactic(none)]
fn take_event(
    alloc: Global,
    node: &mut Node<MemDisk>,
    event: &mut Event,
    out: &mut Vec<Output>,
) -> Result<(bool, bool), Memory>
    requires sound { IsSoundHost (content_of node.old) }
    requires running { is_stopped node.old ≡ false }
    requires sane { IsTrue (is_sane_event (length (content_of node.old).site) event.old) }
    ensures sound { IsSoundHost (content_of node.new) }
    ensures running { IfOk result (λ r. r.0 ≡ true → is_stopped node.new ≡ false) }
    ensures taken { (host : Host) → IsUp node.old host → out.old.items ≡ []
        → IfOk result (λ r. IsTaken host (step event.old host.state) (fails_of node.old) (history_of node.old) node.new out.new.items r.0) }
    ensures halts { (host : Host) → IsUp node.old host → IfOk result (λ r. r.0 ≡ true → r.1 ≡ (step event.old host.state).halts) }
{
    match node.take(alloc, event, out) {
        Ok(halts) => Ok((true, halts)),
        Err(StoreFault::Disk(_)) => Ok((false, false)),
        Err(StoreFault::Memory(memory)) => Err(memory),
        // It isn't stopped.
        Err(StoreFault::Stopped) => unreachable!(),
    }
}

// Makes the next start, if one may start: whether the node wasn't stopped, and whether there was
// one.
#[tactic(none)]
fn start_event(
    alloc: Global,
    node: &mut Node<MemDisk>,
    now: u64,
    out: &mut Vec<Output>,
) -> Result<(bool, bool), Memory>
    requires sound { IsSoundHost (content_of node.old) }
    requires running { is_stopped node.old ≡ false }
    ensures sound { IsSoundHost (content_of node.new) }
    ensures running { IfOk result (λ r. r.0 ≡ true → is_stopped node.new ≡ false) }
    // Each start leaves fewer to start.
    ensures fewer { IfOk result (λ r. r.1 ≡ true → (r.0 ≡ true) × (starts_left (content_of node.new) < starts_left (content_of node.old))) }
    ensures taken { (host : Host) → IsUp node.old host → out.old.items ≡ []
        → IfOk result (λ r. IsTaken host (started now host.state) (fails_of node.old) (history_of node.old) node.new out.new.items r.0) }
    ensures last { (host : Host) → IsUp node.old host → IfOk result (λ r. r.0 ≡ true → r.1 ≡ false → start now host.state ≡ None) }
{
    match node.start_next(alloc, now, out) {
        Ok(more) => Ok((true, more)),
        Err(StoreFault::Disk(_)) => Ok((false, false)),
        Err(StoreFault::Memory(memory)) => Err(memory),
        // It isn't stopped.
        Err(StoreFault::Stopped) => unreachable!(),
    }
}

// What a step of a node shows: its outputs, or a stop.
#[tactic(none)]
fn carry(
    alloc: Global,
    turn: &mut Turn<'_>,
    node: Box<Node<MemDisk>>,
    took: bool,
    out: Vec<Output>,
) -> Result<Slot, Lack>
    requires sound { IsSoundHost (content_of node.value) }
    requires running { took ≡ true → is_stopped node.value ≡ false }
    ensures same { IsSameTurn turn.old turn.new }
    ensures turn { (w : Network) (host : Host) (why : Why) (x : Stepped (List ℕ)) (fails : Which → ℕ → Bool) (old : Which → History)
        → IsTurnOf turn.old host w → IsTaken host x fails old node.value out.items took
        → IsDone turn.old turn.new old w (steps turn.old.me host why x w) result }
    ensures down { took ≡ false → IfOk result IsDownSlot }
    ensures left { took ≡ true → IfOk result (λ slot. starts_in slot ≡ starts_left (content_of node.value)) }
{
    if took {
        emit(turn, out)?;
        return Ok(Slot::Up(UpHost { node }));
    }
    let disks = Box::into_inner(node).close();
    let slot = stop(alloc, turn, disks)?;
    Ok(slot)
}

/// A host takes an event: its step goes out, or stops the host. Answers whether the host is to
/// halt, where it is still up.
#[tactic(none)]
pub(crate) fn take_step(
    alloc: Global,
    turn: &mut Turn<'_>,
    node: Box<Node<MemDisk>>,
    event: &mut Event,
) -> Result<(bool, Slot), Lack>
    requires sound { IsSoundHost (content_of node.value) }
    requires running { is_stopped node.value ≡ false }
    requires sane { IsTrue (is_sane_event (length (content_of node.value).site) event.old) }
    ensures same { IsSameTurn turn.old turn.new }
    ensures turn { (w : Network) (host : Host) → IsTurnOf turn.old host w → IsUp node.value host
        → IsStepDone turn.old turn.new (history_of node.value) w (steps turn.old.me host (ByEvent event.old) (step event.old host.state) w) result }
    ensures halts { (host : Host) → IsUp node.value host → IfOk result (λ r. (r.0 ≡ (step event.old host.state).halts) ⊎ IsDownSlot r.1) }
{
    let mut node = node;
    let mut out = Vec::new(alloc);
    let (took, halts) = take_event(alloc, &mut *node, event, &mut out)?;
    let slot = carry(alloc, turn, node, took, out)?;
    Ok((halts, slot))
}

// Makes the next start of a host, if one may start: `false` where no other may follow.
#[tactic(none)]
fn start_step(
    alloc: Global,
    turn: &mut Turn<'_>,
    node: Box<Node<MemDisk>>,
) -> Result<(bool, Slot), Lack>
    requires sound { IsSoundHost (content_of node.value) }
    requires running { is_stopped node.value ≡ false }
    ensures same { IsSameTurn turn.old turn.new }
    ensures turn { (w : Network) (host : Host) → IsTurnOf turn.old host w → IsUp node.value host → w.now ≡ turn.old.now
        → IsStarted turn.old turn.new (history_of node.value) w result }
    ensures fewer { IfOk result (λ r. r.0 ≡ true → starts_in r.1 < starts_left (content_of node.value)) }
{
    let mut node = node;
    let mut out = Vec::new(alloc);
    let (took, more) = start_event(alloc, &mut *node, turn.now, &mut out)?;
    let slot = carry(alloc, turn, node, took, out)?;
    Ok((more, slot))
}

// The same of a slot. A host that is down starts nothing.
#[tactic(none)]
fn start_one(alloc: Global, turn: &mut Turn<'_>, slot: Slot) -> Result<(bool, Slot), Lack>
    ensures same { IsSameTurn turn.old turn.new }
    ensures turn { (w : Network) (old : Which → History) → IsTurnAt turn.old old slot w → w.now ≡ turn.old.now → IsStarted turn.old turn.new old w result }
    ensures fewer { IfOk result (λ r. r.0 ≡ true → starts_in r.1 < starts_in slot) }
{
    match slot {
        Slot::Down(down) => Ok((false, Slot::Down(down))),
        Slot::Up(up) => start_step(alloc, turn, up.node),
    }
}

/// A host starts what may start, one after the other. Each start leaves fewer to start, so it ends.
#[tactic(none)]
pub(crate) fn start_all(alloc: Global, turn: &mut Turn<'_>, first: Slot) -> Result<Slot, Lack>
    ensures same { IsSameTurn turn.old turn.new }
    ensures turn { (w : Network) (old : Which → History) → IsTurnAt turn.old old first w → w.now ≡ turn.old.now
        → IsDone turn.old turn.new old w (all_starts turn.old.me w) result }
{
    let mut slot = first;
    loop {
        let (more, next) = start_one(alloc, turn, slot)?;
        if !more {
            return Ok(next);
        }
        slot = next;
    }
}
