//! The way of a job into a queue.

ghost use Rattle.std.specs.Prelude.{◌≡◌};
ghost use Rattle.nqs_rules.specs.Causes.{first_refusal};
ghost use Rattle.nqs_rules.specs.Rows.{job_causes};

use nqs_access::may_use;
use nqs_limits::over_limits;
use nqs_types::{Entry, Job, QueueDef, Refusal};

/// Whether a job is let into the queue: whether its owner is, and then whether its limits are
/// within the queue's.
pub fn check_job(queue: &QueueDef, job: &Job, entry: Entry) -> Result<(), Refusal>
    ensures { result ≡ first_refusal (job_causes queue.now job.now entry) }
{
    may_use(queue, &job.owner, entry)?;
    over_limits(queue, &job.limits)
}
