//! What a request states, against what its queue allows.
ghost use Rattle.std.specs.Prelude.{◌≡◌};
ghost use Rattle.nqs_rules.specs.Limits.{is_over, over_limits};

use nqs_types::{Limits, QueueDef, Refusal};

fn is_over(limit: Option<u64>, stated: Option<u64>) -> bool
    ensures { result ≡ is_over limit stated }
{
    match (limit, stated) {
        (Some(limit), Some(stated)) => limit < stated,
        _ => false,
    }
}

/// Whether the limits that a request states, in seconds of a processor and bytes of memory, are
/// within its queue's: `OverCpu` or `OverMemory`, the first that holds. The queue's limit itself is
/// within it. A limit that isn't stated is within any, and a queue without one allows all.
pub fn over_limits(queue: &QueueDef, limits: &Limits) -> Result<(), Refusal>
    ensures { result ≡ over_limits queue.now limits.now }
{
    if is_over(queue.limits.cpu, limits.cpu) {
        return Err(Refusal::OverCpu(queue.name));
    }
    if is_over(queue.limits.memory, limits.memory) {
        return Err(Refusal::OverMemory(queue.name));
    }
    Ok(())
}
