//! Copies of what a plan holds.
ghost use Rattle.std.specs.Prelude.{◌≡◌, IfOk};

use nqs_base::{ListOf, Memory};
use nqs_types::{Carried, Job};
use std::alloc::Global;

/// The same job.
pub fn copy_job(job: &Job) -> Result<Job, Memory>
    ensures { IfOk result (λ copy. copy ≡ job.now) }
{
    Ok(job.clone()?)
}

/// The same request on its way.
pub fn copy_carried(carried: &Carried) -> Result<Carried, Memory>
    ensures { IfOk result (λ copy. copy ≡ carried.now) }
{
    Ok(carried.clone()?)
}
