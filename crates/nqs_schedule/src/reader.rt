//! Reads a schedule: lines, each with a line feed at its end. Each byte is looked at a few times at
//! most. The grammar stands in specs/Schedule.antt, what a line says in specs/Says.antt.

ghost use Rattle.std.specs.Prelude.{◌≡◌, ◌≢◌, ◌<◌, ◌≤◌, length, slice_index, take, codes, ◌∷◌, [], IfOk, All, MatchOption};
ghost use Rattle.nqs_schedule.specs.declared.reader.ScheduleFault.TheVariants.{Memory};
ghost use Rattle.nqs_schedule.specs.Taking.{state_of, TakesLine};
ghost use Rattle.nqs_schedule.specs.Schedule.{ReadsSchedule};
ghost use Rattle.nqs_base.specs.Want.{want};

use crate::cause::Cause;
use crate::line::{ReadError, Says, line_says};
use nqs_base::{Items, Memory, Name, NameList};
use nqs_types::WorldEvent;
use std::alloc::{AllocError, AllocFailed, Global};

/// The first bad line.
#[derive(Clone, Copy)]
pub struct LineFault {
    /// Its number, from 1 on; empty lines and remarks count.
    pub line: u64,
    pub cause: Cause,
}

/// Why there is no schedule.
#[derive(Drop)]
pub enum ScheduleFault {
    Bad(LineFault),
    Memory(Memory),
}

impl<T: Drop> From<AllocFailed<T>> for ScheduleFault {
    ghost from_gives = { λ _ e. e ≡ Memory want };

    fn from(refused: AllocFailed<T>) -> ScheduleFault {
        ScheduleFault::Memory(refused.into())
    }
}

impl From<AllocError> for ScheduleFault {
    ghost from_gives = { λ _ e. e ≡ Memory want };

    fn from(refused: AllocError) -> ScheduleFault {
        ScheduleFault::Memory(refused.into())
    }
}

/// A site of 1 to 16 hosts, and the events in order.
#[derive(Drop)]
pub struct Schedule {
    pub site: NameList,
    pub events: Items<WorldEvent>,
}

// What was read so far.
#[derive(Drop)]
struct Reading {
    site: NameList,
    events: Items<WorldEvent>,
    is_open: bool,
}

// Where the first line ends.
fn line_feed(bytes: &[u8]) -> Option<usize>
    ensures { MatchOption result (All (λ b. b ≢ 10) bytes.now)
        (λ place. (place < length bytes.now) × (slice_index bytes.now place ≡ 10) × All (λ b. b ≢ 10) (take place bytes.now)) }
{
    for (i, byte) in bytes.iter().enumerate() {
        if *byte == b'\n' {
            return Some(i);
        }
    }
    None
}

// The site of one host that a schedule without a line of hosts has.
fn alpha(alloc: Global) -> Result<NameList, AllocError>
    ensures { IfOk result (λ site. site ≡ codes "alpha" ∷ []) }
{
    let name = match Name::read(b"alpha") {
        Ok(name) => name,
        Err(_) => unreachable!(),
    };
    NameList::of(alloc, name)
}

// Takes what a line says.
fn take_line(
    alloc: Global,
    reading: &mut Reading,
    line: &[u8],
    number: u64,
) -> Result<(), ScheduleFault>
    ensures { TakesLine (state_of reading.old) line.now number result (state_of reading.new) }
{
    match line_says(alloc, reading.site.as_slice(), reading.is_open, line) {
        Ok(Says::Nothing) => Ok(()),
        Ok(Says::Hosts(site)) => {
            reading.site = site;
            reading.is_open = false;
            Ok(())
        }
        Ok(Says::Event(event)) => {
            reading.is_open = false;
            reading.events.push(event)?;
            Ok(())
        }
        Err(ReadError::Bad(cause)) => Err(ScheduleFault::Bad(LineFault {
            line: number,
            cause,
        })),
        Err(ReadError::Memory(memory)) => Err(ScheduleFault::Memory(memory)),
    }
}

/// The schedule that the bytes are, or the first bad line. A last part without a line feed is bad
/// whatever it holds. Memory is taken for the words of a line and for the events.
pub fn read_schedule(alloc: Global, bytes: &[u8]) -> Result<Schedule, ScheduleFault>
    ensures { ReadsSchedule bytes.now result }
{
    let mut reading = Reading {
        site: alpha(alloc)?,
        events: Items::new(alloc),
        is_open: true,
    };
    let mut rest = bytes;
    let mut number = 1u64;
    while !rest.is_empty() {
        let Some(end) = line_feed(rest) else {
            return Err(ScheduleFault::Bad(LineFault {
                line: number,
                cause: Cause::Unended,
            }));
        };
        take_line(alloc, &mut reading, &rest[..end], number)?;
        rest = &rest[end + 1..];
        number += 1;
    }
    Ok(Schedule {
        site: reading.site,
        events: reading.events,
    })
}
