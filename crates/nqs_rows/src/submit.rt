//! Whether a submission is refused.

ghost use Rattle.std.specs.Prelude.{◌≡◌, ◌∷◌, ◌++◌, [], Some};
ghost use Rattle.nqs_state.specs.State.{content};
ghost use Rattle.nqs_rules.specs.Causes.{cause, first_refusal};
ghost use Rattle.nqs_rules.specs.Rows.{is_host_full, numbers_used, queue_entry_causes, submit_causes_at, submit_causes};

use crate::entry::check_job;
use crate::room::{arrivals_used, is_host_full};
use nqs_base::Name;
use nqs_state::HostState;
use nqs_types::{Entry, Job, QueueDef, Refusal, Submission};

// Whether the host has room and numbers for one more request.
fn check_host(state: &HostState) -> Result<(), Refusal>
    ensures { result ≡ first_refusal (cause (is_host_full (content state.now)) Refusal.HostFull ∷ cause (numbers_used (content state.now)) Refusal.NumbersUsed
        ∷ []) }
{
    if is_host_full(state) {
        return Err(Refusal::HostFull);
    }
    if state.seq >= 4294967294 || arrivals_used(state) {
        return Err(Refusal::NumbersUsed);
    }
    Ok(())
}

fn check_into(state: &HostState, job: &Job, queue: &QueueDef) -> Result<(), Refusal>
    ensures { result ≡ first_refusal (queue_entry_causes job.now queue.now
        ++ cause (is_host_full (content state.now)) Refusal.HostFull ∷ cause (numbers_used (content state.now)) Refusal.NumbersUsed ∷ []) }
{
    check_job(queue, job, Entry::Direct)?;
    check_host(state)
}

fn check_submit_to(state: &HostState, job: &Job, queue: &Name) -> Result<(), Refusal>
    ensures { result ≡ first_refusal (submit_causes_at job.now (Some queue.now) (content state.now)) }
{
    match state.queues.get(queue) {
        Some(def) => check_into(state, job, def),
        None => Err(Refusal::NoQueue(*queue)),
    }
}

/// Whether a submission into its queue, or else into the default one, may be made: `Ok`, or the
/// first of these that holds: `NoDefault`; `NoQueue`; the way of its owner and of its limits into
/// that queue; `HostFull` at 10,000 requests and promises; `NumbersUsed` where the last sequence
/// number, 4,294,967,294, or the last arrival was given.
pub fn check_submit(state: &HostState, submission: &Submission) -> Result<(), Refusal>
    ensures { result ≡ first_refusal (submit_causes submission.now (content state.now)) }
{
    match submission.queue.or(state.default_queue) {
        Some(queue) => check_submit_to(state, &submission.job, &queue),
        None => Err(Refusal::NoDefault),
    }
}
