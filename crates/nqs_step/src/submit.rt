//! A request is submitted.
ghost use Rattle.std.specs.Prelude.{◌≡◌, ◌+◌, ◌<◌, ◌^◌, IfOk, Some};
ghost use Rattle.nqs_state.specs.State.{content};
ghost use Rattle.nqs_rules.specs.Step.{within, path_or, completed, submit_to, on_submit};
ghost use Rattle.nqs_rules.specs.Stepped.{plan_of};
ghost use Rattle.nqs_step.specs.Asked.{asked};

use crate::reply::{Asker, refuse, reply_to};
use nqs_base::{Bytes, ListOf, Memory, Name, copy_bytes};
use nqs_plans::{add, change_storing, no_extent};
use nqs_rows::check_submit;
use nqs_state::HostState;
use nqs_types::{Change, Job, Plan, Refusal, Reply, RequestId, Submission};
use std::alloc::Global;
use std::mem::replace;

// The path in that folder, where there is one.
fn within(alloc: Global, folder: Option<Name>, path: Vec<u8>) -> Result<Vec<u8>, Memory>
    ensures { IfOk result (λ p. p.items ≡ within folder path.items) }
{
    let Some(folder) = folder else {
        return Ok(path);
    };
    let mut bytes = Vec::from_slice(alloc, folder.as_bytes())?;
    bytes.push(b'/')?;
    bytes.extend_from_slice(&path)?;
    Ok(bytes)
}

// The path, or the default one in the folder where it is empty: NAME.oSEQ or NAME.eSEQ.
fn path_or(
    alloc: Global,
    folder: Option<Name>,
    path: &Bytes,
    name: &Name,
    letter: u8,
    seq: u32,
) -> Result<Bytes, Memory>
    ensures { IfOk result (λ p. p ≡ path_or folder path.now name.now letter seq) }
{
    if !path.as_slice().is_empty() {
        return copy_bytes(path);
    }
    let mut bytes = Vec::from_slice(alloc, name.as_bytes())?;
    bytes.extend_from_slice(&[b'.', letter])?;
    let number = format!(in alloc; "{seq}")?;
    bytes.extend_from_slice(number.as_bytes())?;
    let placed = within(alloc, folder, bytes)?;
    Ok(ListOf::from_vec(placed))
}

// The job under its number, with its default paths, which stand in the folder.
fn completed(alloc: Global, seq: u32, folder: Option<Name>, job: &Job) -> Result<Job, Memory>
    ensures { IfOk result (λ j. j ≡ completed seq folder job.now) }
{
    Ok(Job {
        name: job.name,
        owner: job.owner,
        priority: job.priority,
        earliest: job.earliest,
        rerun: job.rerun,
        limits: job.limits,
        forms: job.forms,
        out: path_or(alloc, folder, &job.out, &job.name, b'o', seq)?,
        err: path_or(alloc, folder, &job.err, &job.name, b'e', seq)?,
        join: job.join,
    })
}

// The script is taken and not copied.
fn submit_to(
    alloc: Global,
    state: &HostState,
    asker: Asker,
    submission: &mut Submission,
    queue: Name,
) -> Result<Plan, Memory>
    requires { state.now.seq + 1 < 2 ^ 32 }
    ensures { IfOk result (λ plan. plan ≡ plan_of (submit_to (asked asker) submission.old (content state.now) (Some queue))) }
{
    let seq = state.seq + 1;
    let host = state.me;
    let submitted = Change::Submitted {
        queue,
        job: completed(alloc, seq, submission.folder, &submission.job)?,
        script: no_extent(),
    };
    let script = replace(&mut submission.script, ListOf::new(alloc));
    let plan = change_storing(alloc, submitted, script)?;
    let id = RequestId { seq, host };
    add(plan, reply_to(asker, Reply::Submitted { id, queue }))
}

/// qsub: a request is made in the queue that is asked for, or in the default one.
pub(crate) fn on_submit(
    alloc: Global,
    state: &HostState,
    asker: Asker,
    submission: &mut Submission,
) -> Result<Plan, Memory>
    requires { state.now.seq + 1 < 2 ^ 32 }
    ensures { IfOk result (λ plan. plan ≡ plan_of (on_submit (asked asker) submission.old (content state.now))) }
{
    match check_submit(state, submission) {
        Err(refusal) => refuse(alloc, asker, refusal),
        Ok(()) => match submission.queue.or(state.default_queue) {
            None => refuse(alloc, asker, Refusal::NoDefault),
            Some(queue) => submit_to(alloc, state, asker, submission, queue),
        },
    }
}
