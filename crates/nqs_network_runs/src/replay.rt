//! The whole program, but for the real source and sink.

ghost use Rattle.std.specs.Prelude.{◌≡◌, ◌<◌, ◌≤◌, true, length, map, string_bytes};
ghost use Rattle.std.specs.List.{list_all};
ghost use Rattle.nqs_outside.specs.Streams.{sunk, fed};
ghost use Rattle.nqs_laws.specs.Sane.{IsSite};
ghost use Rattle.nqs_language_acts.specs.Acts.{is_sane_line};
ghost use Rattle.nqs_schedule.specs.Generated.{generated, generated_site};
ghost use Rattle.nqs_network_runs.specs.Running.{Runs};
ghost use Rattle.nqs_network_runs.specs.Replay.{Plays, EndsRead, Ends, IsComplete};
ghost use Rattle.nqs_network_runs.specs.Headline.{HoldAlways};

use crate::laws::runs_keep_the_laws;
use crate::report::report;
use crate::run::run;
use crate::status::Status;
use crate::words::{Generation, WordsStop, read_words};
use nqs_base::Name;
use nqs_disk::MemDisk;
use nqs_language_acts::laws::{generated_schedules_are_sane, schedules_are_sane, sites_are_right};
use nqs_outside::{ReadStop, Sink, Source, read_whole};
use nqs_schedule::{ScheduleFault, generate, read_schedule};
use nqs_store::Disks;
use nqs_types::WorldEvent;
use std::alloc::Global;

// The greatest length of a schedule.
const MAX_SCHEDULE: usize = 16_777_216;

// What comes of an input that was read whole.
fn play<K: Sink>(
    alloc: Global,
    summary: bool,
    input: &[u8],
    out: &mut K,
    left: &mut Vec<Disks<MemDisk>>,
) -> Status
    ensures { Plays summary input.now (sunk K.taken K.faults K.stalls out.old out.new) left.old.items left.new.items result }
{
    schedules_are_sane();
    sites_are_right();
    match read_schedule(alloc, input) {
        Ok(schedule) => run(
            alloc,
            summary,
            schedule.site.as_slice(),
            schedule.events.as_slice(),
            out,
            left,
        ),
        Err(ScheduleFault::Bad(fault)) => report(alloc, fault, out),
        Err(ScheduleFault::Memory(memory)) => Status::Memory(memory),
    }
}

// Runs the schedule that the source gives.
fn drain<S: Source, K: Sink>(
    alloc: Global,
    summary: bool,
    schedule: &mut S,
    out: &mut K,
    left: &mut Vec<Disks<MemDisk>>,
) -> Status
    ensures { EndsRead summary (fed S.left S.faults schedule.old schedule.new)
        (sunk K.taken K.faults K.stalls out.old out.new) left.old.items left.new.items result }
{
    match read_whole(alloc, schedule, MAX_SCHEDULE) {
        Ok(input) => play(alloc, summary, &input, out, left),
        Err(ReadStop::Fault) => Status::ReadFault,
        Err(ReadStop::TooLong) => Status::TooLong,
        Err(ReadStop::Memory(memory)) => Status::Memory(memory),
    }
}

// Runs a generated schedule.
fn play_generated<K: Sink>(
    alloc: Global,
    summary: bool,
    generation: Generation,
    out: &mut K,
    left: &mut Vec<Disks<MemDisk>>,
) -> Status
    requires some { 1 ≤ generation.hosts }
    requires few { generation.hosts ≤ 16 }
    ensures { Runs summary (generated_site generation.hosts) (generated generation.seed generation.hosts generation.events)
        (sunk K.taken K.faults K.stalls out.old out.new) left.old.items left.new.items result }
{
    generated_schedules_are_sane();
    sites_are_right();
    match generate(alloc, generation.seed, generation.hosts, generation.events) {
        Ok(schedule) => run(
            alloc,
            summary,
            schedule.site.as_slice(),
            schedule.events.as_slice(),
            out,
            left,
        ),
        Err(memory) => Status::Memory(memory),
    }
}

// Runs what the words ask for.
fn obey<S: Source, K: Sink>(
    alloc: Global,
    words: &[String],
    schedule: &mut S,
    out: &mut K,
    left: &mut Vec<Disks<MemDisk>>,
) -> Status
    ensures { Ends (map (λ s. string_bytes s) words.now) (fed S.left S.faults schedule.old schedule.new)
        (sunk K.taken K.faults K.stalls out.old out.new) left.old.items left.new.items result }
{
    match read_words(alloc, words) {
        Ok(ask) => match ask.generation {
            None => drain(alloc, ask.summary, schedule, out, left),
            Some(generation) => play_generated(alloc, ask.summary, generation, out, left),
        },
        Err(WordsStop::BadWords) => Status::BadWords,
        Err(WordsStop::Memory(memory)) => Status::Memory(memory),
        Err(WordsStop::Unparsed(refused)) => Status::Unparsed(refused),
    }
}

/// Does all that the program does, but for making the real source and sink. The words are without
/// the program's name. At `Done` the disks of each host are added to `left`, in the order of the
/// site; else it stays as it was.
///
/// Whatever images these disks may leave tell the last states of the hosts. Their calls are those
/// that kept each change since the host was new or last stopped, and at each moment of them the
/// images told the state before or after it.
pub fn replay<S: Source, K: Sink>(
    alloc: Global,
    words: &[String],
    schedule: &mut S,
    out: &mut K,
    left: &mut Vec<Disks<MemDisk>>,
) -> Status
    ensures end { Ends (map (λ s. string_bytes s) words.now) (fed S.left S.faults schedule.old schedule.new)
        (sunk K.taken K.faults K.stalls out.old out.new) left.old.items left.new.items result }
    ensures complete { IsComplete (map (λ s. string_bytes s) words.now) (fed S.left S.faults schedule.old schedule.new)
        (sunk K.taken K.faults K.stalls out.old out.new) result }
    ensures laws { HoldAlways (map (λ s. string_bytes s) words.now) (fed S.left S.faults schedule.old schedule.new) }
{
    runs_keep_the_laws();
    obey(alloc, words, schedule, out, left)
}
