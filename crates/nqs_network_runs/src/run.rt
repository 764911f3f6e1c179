//! Runs the events of a site on a new world. The transcript is written piece by piece as the events
//! happen, through one buffer that is cleared, so memory doesn't grow with it and a call of the
//! system serves many events. A summary is counted as things are seen, and written at last.

ghost use Rattle.std.specs.Prelude.{◌≡◌, ◌⊎◌, ◌≤◌, ◌++◌, List, ℕ, Bool, take, true, false, IsTrue, IfOk, OnOk, OnErr};
ghost use Rattle.std.specs.Io.KnownBytes.{Appends};
ghost use Rattle.std.specs.List.{list_all};
ghost use Rattle.nqs_outside.specs.Causes.{Rose};
ghost use Rattle.nqs_outside.specs.Streams.{Sunk, sunk};
ghost use Rattle.nqs_rules.specs.Transcript.{transcript};
ghost use Rattle.nqs_rules.specs.World.{World as Network, seen_of};
ghost use Rattle.nqs_laws.specs.Sane.{IsSite};
ghost use Rattle.nqs_laws.specs.Words.{IsInOrderAll};
ghost use Rattle.nqs_language_acts.specs.Acts.{is_sane_line};
ghost use Rattle.nqs_types.specs.declared.world.WorldEvent.{WorldEvent};
ghost use Rattle.nqs_schedule.specs.Summary.{nothing_seen, summary_of, summary_text};
ghost use Rattle.nqs_net.specs.Worlds.{IsWorld};
ghost use Rattle.nqs_network_runs.specs.Running.{ran, text_of, table_length, Runs};
ghost use Rattle.nqs_network_runs.specs.Writing.{HasRun, TellsMore, HasWritten, Writes, stop_of};
ghost use Rattle.nqs_base.specs.Want.{want};

use crate::status::Status;
use nqs_base::{Memory, Name};
use nqs_disk::{Full, Lack, MemDisk};
use nqs_language_acts::laws::acts_are_sane;
use nqs_laws::runs::hosts_stay_in_order;
use nqs_net::World;
use nqs_outside::{Failed, Sink, write_whole};
use nqs_schedule::{Summary, print_seen, print_summary};
use nqs_store::Disks;
use nqs_types::{Seen, WorldEvent};
use std::alloc::Global;

/// Why a run was not brought to its end.
#[derive(Drop)]
pub enum RunStop {
    /// The sink failed, or took nothing of a piece.
    Sink,
    /// Memory ran out.
    Memory(Memory),
    /// A disk of a host would have more than 2^40 bytes.
    Full(Full),
}

impl From<Failed> for RunStop {
    ghost use Rattle.std.specs.Prelude.{◌≡◌};
    ghost use Rattle.nqs_network_runs.specs.declared.run.RunStop.TheVariants.{Sink};

    ghost from_gives = { λ _ e. e ≡ Sink };

    fn from(_: Failed) -> RunStop {
        RunStop::Sink
    }
}

impl From<Memory> for RunStop {
    ghost use Rattle.std.specs.Prelude.{◌≡◌};
    ghost use Rattle.nqs_network_runs.specs.declared.run.RunStop.TheVariants.{Memory};

    ghost from_gives = { λ _ e. e ≡ Memory want };

    fn from(memory: Memory) -> RunStop {
        RunStop::Memory(memory)
    }
}

impl From<Lack> for RunStop {
    ghost from_gives = { λ lack e. e ≡ stop_of lack };

    fn from(lack: Lack) -> RunStop {
        match lack {
            Lack::Memory(memory) => RunStop::Memory(memory),
            Lack::Full(full) => RunStop::Full(full),
        }
    }
}

// The transcript of what was seen is added to the text.
fn print_all(alloc: Global, site: &[Name], seen: &[Seen], text: &mut Vec<u8>) -> Result<(), Memory>
    ensures { OnOk result (text.new.items ≡ text.old.items ++ transcript site.now seen.now) }
{
    for one in seen {
        print_seen(alloc, one, site, text)?;
    }
    Ok(())
}

// Takes an event. What it adds to the transcript is added to the text.
fn tell(
    alloc: Global,
    site: &[Name],
    world: &mut World,
    event: &WorldEvent,
    seen: &mut Vec<Seen>,
    text: &mut Vec<u8>,
) -> Result<(), Lack>
    requires sane { IsTrue (is_sane_line event.now) }
    requires sound { (before : List WorldEvent) × HasRun site.now before world.old }
    ensures { (before : List WorldEvent) → HasRun site.now before world.old
        → OnOk result (TellsMore site.now before event.now world.new text.old.items text.new.items) }
{
    acts_are_sane();
    hosts_stay_in_order();
    seen.clear();
    world.event(alloc, event, seen)?;
    print_all(alloc, site, seen, text)?;
    Ok(())
}

/// With so many bytes of it the text is written.
const PIECE: usize = 32_768;

// Writes the text where there is a piece of it, which leaves none.
fn write_piece<K: Sink>(out: &mut K, text: &mut Vec<u8>) -> Result<(), Failed>
    ensures ok { OnOk result (HasWritten (K.taken out.old) (K.taken out.new) text.old.items text.new.items) }
    ensures err { OnErr result ((n : ℕ) × Appends (K.taken out.old) (K.taken out.new) (take n text.old.items)) }
    ensures fault { OnErr result (Rose (K.faults out.old) (K.faults out.new) ⊎ Rose (K.stalls out.old) (K.stalls out.new)) }
    ensures later { (K.faults out.old ≤ K.faults out.new) × (K.stalls out.old ≤ K.stalls out.new) }
{
    if text.len() < PIECE {
        return Ok(());
    }
    write_whole(out, text)?;
    text.clear();
    Ok(())
}

// Runs the events and writes their transcript.
fn transcribe<K: Sink>(
    alloc: Global,
    site: &[Name],
    events: &[WorldEvent],
    out: &mut K,
) -> Result<World, RunStop>
    requires site { IsSite site.now }
    requires sane { list_all is_sane_line events.now ≡ true }
    ensures { Writes (text_of false site.now events.now) (ran site.now events.now).world (sunk K.taken K.faults K.stalls out.old out.new) result }
{
    let mut world = World::new(alloc, site)?;
    let mut seen = Vec::new(alloc);
    let mut text = Vec::new(alloc);
    for event in events {
        tell(alloc, site, &mut world, event, &mut seen, &mut text)?;
        write_piece(out, &mut text)?;
    }
    write_whole(out, &text)?;
    Ok(world)
}

// Counts what was seen.
fn count_all(summary: &mut Summary, seen: &[Seen])
    ensures { summary.new ≡ summary_of summary.old seen.now }
{
    for i in 0..seen.len() {
        summary.count(&seen[i]);
    }
}

// Runs the events and counts what is seen of them.
fn count_events(
    alloc: Global,
    site: &[Name],
    events: &[WorldEvent],
) -> Result<(World, Summary), Lack>
    requires site { IsSite site.now }
    requires sane { list_all is_sane_line events.now ≡ true }
    ensures { IfOk result (λ end. IsWorld end.0 (ran site.now events.now).world × (end.1 ≡ summary_of nothing_seen (seen_of (ran site.now events.now)))) }
{
    acts_are_sane();
    hosts_stay_in_order();
    let mut world = World::new(alloc, site)?;
    let mut seen = Vec::new(alloc);
    let mut summary = Summary::new();
    for event in events {
        seen.clear();
        world.event(alloc, event, &mut seen)?;
        count_all(&mut summary, &seen);
    }
    Ok((world, summary))
}

// The text of the summary of a run of so many events, where this was counted.
fn text_of_summary(
    alloc: Global,
    world: &mut World,
    summary: &Summary,
    events: u64,
) -> Result<Vec<u8>, Memory>
    requires sound { (site : List (List ℕ)) × (network : Network) × IsInOrderAll site network × IsWorld world.old network }
    ensures world { (network : Network) → IsWorld world.old network → OnOk result (IsWorld world.new network) }
    ensures text { (network : Network) → IsWorld world.old network
        → IfOk result (λ text. text.items ≡ summary_text summary.now events (table_length network)) }
{
    let rows = world.table(alloc)?;
    let mut text = Vec::new(alloc);
    print_summary(alloc, summary, events, rows.len() as u64, &mut text)?;
    Ok(text)
}

// Runs the events and writes their summary.
fn summarize<K: Sink>(
    alloc: Global,
    site: &[Name],
    events: &[WorldEvent],
    out: &mut K,
) -> Result<World, RunStop>
    requires site { IsSite site.now }
    requires sane { list_all is_sane_line events.now ≡ true }
    ensures { Writes (text_of true site.now events.now) (ran site.now events.now).world (sunk K.taken K.faults K.stalls out.old out.new) result }
{
    acts_are_sane();
    hosts_stay_in_order();
    let (mut world, summary) = count_events(alloc, site, events)?;
    let text = text_of_summary(alloc, &mut world, &summary, events.len() as u64)?;
    write_whole(out, &text)?;
    Ok(world)
}

// How the program ends by a run that was brought to its end, or wasn't; the disks that it leaves
// are added.
fn finish(alloc: Global, ended: Result<World, RunStop>, left: &mut Vec<Disks<MemDisk>>) -> Status
    ensures { (summary : Bool) (site : List (List ℕ)) (events : List WorldEvent) (sink : Sunk)
        → Writes (text_of summary site events) (ran site events).world sink ended → Runs summary site events sink left.old.items left.new.items result }
{
    match ended {
        Ok(world) => match world.close(alloc) {
            Ok(mut disks) => match left.append(&mut disks) {
                Ok(()) => Status::Done,
                Err(refused) => Status::Memory(refused.into()),
            },
            Err(memory) => Status::Memory(memory),
        },
        Err(RunStop::Sink) => Status::WriteFault,
        Err(RunStop::Memory(memory)) => Status::Memory(memory),
        Err(RunStop::Full(full)) => Status::DiskFull(full),
    }
}

/// Runs the events of a site on a new world, writes their transcript, or their summary, and adds
/// the disks that the hosts are left with. At `Memory` a front of the text is written, which may be
/// the whole of it, and no disk is added.
pub(crate) fn run<K: Sink>(
    alloc: Global,
    summary: bool,
    site: &[Name],
    events: &[WorldEvent],
    out: &mut K,
    left: &mut Vec<Disks<MemDisk>>,
) -> Status
    requires site { IsSite site.now }
    requires sane { list_all is_sane_line events.now ≡ true }
    ensures { Runs summary site.now events.now (sunk K.taken K.faults K.stalls out.old out.new) left.old.items left.new.items result }
{
    if summary {
        finish(alloc, summarize(alloc, site, events, out), left)
    } else {
        finish(alloc, transcribe(alloc, site, events, out), left)
    }
}
