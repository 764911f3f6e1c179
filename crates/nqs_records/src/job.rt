//! Jobs, and requests that are carried between hosts.

ghost use Rattle.std.specs.Prelude.{◌≡◌, ◌==◌};
ghost use Rattle.nqs_records.specs.Reading.{Answers, within};
ghost use Rattle.nqs_records.specs.Fields.{u8_at, u16_at};
ghost use Rattle.nqs_records.specs.Values.{is_at_most};
ghost use Rattle.nqs_records.specs.Parts.{job_at, carried_at};

use crate::fault::RecordFault;
use crate::field::{read_bool, read_name, read_u8, read_u16, read_u64};
use crate::part::{read_id, read_opt_name, read_opt_u64, read_path};
use nqs_types::{Carried, Job, Limits};
use std::alloc::Global;

/// The number of one byte at the place, up to a limit.
pub fn read_u8_at_most(bytes: &[u8], place: u64, limit: u8) -> Result<(u8, u64), RecordFault>
    ensures { result ≡ within (is_at_most limit) u8_at bytes.now place }
{
    let (value, next) = read_u8(bytes, place)?;
    if value <= limit {
        Ok((value, next))
    } else {
        Err(RecordFault::BadField(place))
    }
}

fn read_u16_at_most(bytes: &[u8], place: u64, limit: u16) -> Result<(u16, u64), RecordFault>
    ensures { result ≡ within (is_at_most limit) u16_at bytes.now place }
{
    let (value, next) = read_u16(bytes, place)?;
    if value <= limit {
        Ok((value, next))
    } else {
        Err(RecordFault::BadField(place))
    }
}

/// The job at the place.
#[tactic(auto, unfolding(crate::specs::Parts::job_at))]
pub fn read_job(alloc: Global, bytes: &[u8], place: u64) -> Result<(Job, u64), RecordFault>
    ensures { Answers (job_at bytes.now place) result }
{
    let (name, place) = read_name(bytes, place)?;
    let (owner, place) = read_name(bytes, place)?;
    let (priority, place) = read_u8_at_most(bytes, place, 63)?;
    let (earliest, place) = read_u64(bytes, place)?;
    let (rerun, place) = read_bool(bytes, place)?;
    let (cpu, place) = read_opt_u64(bytes, place)?;
    let (memory, place) = read_opt_u64(bytes, place)?;
    let (forms, place) = read_opt_name(bytes, place)?;
    let (out, place) = read_path(alloc, bytes, place)?;
    let (err, place) = read_path(alloc, bytes, place)?;
    let (join, place) = read_bool(bytes, place)?;
    let job = Job {
        name,
        owner,
        priority,
        earliest,
        rerun,
        limits: Limits { cpu, memory },
        forms,
        out,
        err,
        join,
    };
    Ok((job, place))
}

fn read_lost(bytes: &[u8], place: u64, starts: u16) -> Result<(u16, u64), RecordFault>
    ensures { result ≡ within (λ lost. lost == starts) u16_at bytes.now place }
{
    let (lost, next) = read_u16(bytes, place)?;
    if lost == starts {
        Ok((lost, next))
    } else {
        Err(RecordFault::BadField(place))
    }
}

/// The request on its way that stands at the place.
#[tactic(auto, unfolding(crate::specs::Parts::carried_at))]
pub fn read_carried(alloc: Global, bytes: &[u8], place: u64) -> Result<(Carried, u64), RecordFault>
    ensures { Answers (carried_at bytes.now place) result }
{
    let (id, place) = read_id(bytes, place)?;
    let (job, place) = read_job(alloc, bytes, place)?;
    let (starts, place) = read_u16_at_most(bytes, place, 65_534)?;
    let (lost, place) = read_lost(bytes, place, starts)?;
    let (hops, place) = read_u8_at_most(bytes, place, 32)?;
    let carried = Carried {
        id,
        job,
        starts,
        lost,
        hops,
    };
    Ok((carried, place))
}
