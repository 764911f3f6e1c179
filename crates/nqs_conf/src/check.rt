//! Why an edit of queues or parameters is refused.
ghost use Rattle.std.specs.Prelude.{◌≡◌, ◌≤◌, ◌∷◌, [], length, not};
ghost use Rattle.nqs_state.specs.State.{content};
ghost use Rattle.nqs_types.specs.declared.edit.ConfEdit.{ConfEdit};
ghost use Rattle.nqs_types.specs.declared.refusal.Refusal.TheVariants as refusal;
ghost use Rattle.nqs_rules.specs.Causes.{cause, first_refusal};
ghost use Rattle.nqs_rules.specs.Conf.{conf_causes, create_causes, create_pipe_causes, has_full_dests, is_pipe_queue, listed_dest_causes, lists_dest};
ghost use Rattle.nqs_rules.specs.Conf.{no_host_cause, promise_in};
ghost use Rattle.nqs_rules.specs.Conf.{row_in};
ghost use Rattle.nqs_rules.specs.Find.{held_count, meant_dest};

use crate::dest::{known_host, lists_dest, meant_dest};
use nqs_access::known_queue;
use nqs_base::Name;
use nqs_state::HostState;
use nqs_types::{ConfEdit, Kind, NamedDest, Promise, QueueDef, Refusal, Row};

fn check_create(state: &HostState, queue: &Name) -> Result<(), Refusal>
    ensures { result ≡ first_refusal (create_causes queue.now (content state.now)) }
{
    if state.queues.has(queue) {
        return Err(Refusal::QueueExists(*queue));
    }
    if state.queues.len() >= 256 {
        return Err(Refusal::TooMany);
    }
    Ok(())
}

fn check_create_pipe(
    state: &HostState,
    destination: &Option<NamedDest>,
    queue: &Name,
) -> Result<(), Refusal>
    ensures { result ≡ first_refusal (create_pipe_causes destination.now queue.now (content state.now)) }
{
    match destination {
        None => check_create(state, queue),
        Some(destination) => {
            known_host(state, &destination.host)?;
            check_create(state, queue)
        }
    }
}

fn is_in(row: &Row, queue: &Name) -> bool
    ensures { result ≡ row_in queue.now row.now }
{
    *queue == row.queue
}

fn is_promised_to(promise: &Promise, queue: &Name) -> bool
    ensures { result ≡ promise_in queue.now promise.now }
{
    *queue == promise.row.queue
}

fn check_delete(state: &HostState, queue: &Name) -> Result<(), Refusal>
    requires { held_count (content state.now) ≤ 10000 }
    ensures { result ≡ first_refusal (conf_causes (ConfEdit.DeleteQueue queue.now) (content state.now)) }
{
    known_queue(state, queue)?;
    let rows = state.rows.count(|row: &Row| is_in(row, queue));
    let promises = state
        .promises
        .count(|promise: &Promise| is_promised_to(promise, queue));
    let held = rows as u64 + promises as u64;
    if held > 0 {
        return Err(Refusal::QueueInUse(*queue, held));
    }
    Ok(())
}

fn is_pipe_queue(def: &QueueDef) -> bool
    ensures { result ≡ is_pipe_queue def.now }
{
    match def.kind {
        Kind::Batch => false,
        Kind::Device => false,
        Kind::Pipe => true,
    }
}

// Why the queue isn't given the destination.
fn check_new_dest(state: &HostState, def: &QueueDef, typed: &NamedDest) -> Result<(), Refusal>
    requires { length state.now.site ≤ 16 }
    ensures { result ≡ first_refusal (no_host_cause typed.now.host (content state.now) ∷ cause (not (is_pipe_queue def.now)) refusal.WrongKind
        ∷ cause (lists_dest (meant_dest typed.now (content state.now)) def.now) refusal.DestExists ∷ cause (has_full_dests def.now) refusal.TooMany ∷ []) }
{
    known_host(state, &typed.host)?;
    if !is_pipe_queue(def) {
        return Err(Refusal::WrongKind);
    }
    if lists_dest(def, meant_dest(state, typed)) {
        return Err(Refusal::DestExists);
    }
    if def.dests.len() >= 16 {
        return Err(Refusal::TooMany);
    }
    Ok(())
}

// Why the destination is none of the queue.
fn check_listed_dest(state: &HostState, def: &QueueDef, typed: &NamedDest) -> Result<(), Refusal>
    requires { length state.now.site ≤ 16 }
    ensures { result ≡ first_refusal (cause (not (is_pipe_queue def.now)) refusal.WrongKind
        ∷ cause (not (lists_dest (meant_dest typed.now (content state.now)) def.now)) refusal.NoDest ∷ []) }
{
    if !is_pipe_queue(def) {
        return Err(Refusal::WrongKind);
    }
    if !lists_dest(def, meant_dest(state, typed)) {
        return Err(Refusal::NoDest);
    }
    Ok(())
}

fn check_add_destination(
    state: &HostState,
    destination: &NamedDest,
    queue: &Name,
) -> Result<(), Refusal>
    requires { length state.now.site ≤ 16 }
    ensures { result ≡ first_refusal (conf_causes (ConfEdit.AddDestination destination.now queue.now) (content state.now)) }
{
    match state.queues.get(queue) {
        None => Err(Refusal::NoQueue(*queue)),
        Some(def) => check_new_dest(state, def, destination),
    }
}

fn check_destination(
    state: &HostState,
    destination: &NamedDest,
    queue: &Name,
) -> Result<(), Refusal>
    requires { length state.now.site ≤ 16 }
    ensures { result ≡ first_refusal (listed_dest_causes destination.now queue.now (content state.now)) }
{
    match state.queues.get(queue) {
        None => Err(Refusal::NoQueue(*queue)),
        Some(def) => check_listed_dest(state, def, destination),
    }
}

/// Whether the edit may be made: `Ok`, or the first of these that holds. A creation: `NoHost` of
/// its destination, `QueueExists`, `TooMany` at 256 queues. A deletion: `NoQueue`, `QueueInUse`
/// with the number of its requests and promises. A destination that is added: `NoQueue`, `NoHost`,
/// `WrongKind` for all but pipe queues, `DestExists`, `TooMany` at 16; one that is removed, or put
/// first: `NoQueue`, `WrongKind`, `NoDest`, also for an unknown host. The other edits of a queue:
/// `NoQueue`. Those of parameters are never refused.
///
/// `site` and `held` hold of each state in order: at most 16 hosts, and at most 10,000 requests and
/// promises.
pub fn check_conf(state: &HostState, edit: &ConfEdit) -> Result<(), Refusal>
    requires site { length state.now.site ≤ 16 }
    requires held { held_count (content state.now) ≤ 10000 }
    ensures { result ≡ first_refusal (conf_causes edit.now (content state.now)) }
{
    match edit {
        ConfEdit::CreateBatchQueue { queue, .. } => check_create(state, queue),
        ConfEdit::CreateDeviceQueue { queue, .. } => check_create(state, queue),
        ConfEdit::CreatePipeQueue {
            queue,
            destination,
            ..
        } => check_create_pipe(state, destination, queue),
        ConfEdit::DeleteQueue { queue } => check_delete(state, queue),
        ConfEdit::EnableQueue { queue } => known_queue(state, queue),
        ConfEdit::DisableQueue { queue } => known_queue(state, queue),
        ConfEdit::StartQueue { queue } => known_queue(state, queue),
        ConfEdit::StopQueue { queue } => known_queue(state, queue),
        ConfEdit::PurgeQueue { queue } => known_queue(state, queue),
        ConfEdit::SetPriority { queue, .. } => known_queue(state, queue),
        ConfEdit::SetRunLimit { queue, .. } => known_queue(state, queue),
        ConfEdit::AddDestination { destination, queue } => {
            check_add_destination(state, destination, queue)
        }
        ConfEdit::RemoveDestination { destination, queue } => {
            check_destination(state, destination, queue)
        }
        ConfEdit::FirstDestination { destination, queue } => {
            check_destination(state, destination, queue)
        }
        ConfEdit::SetDefaultQueue { queue } => known_queue(state, queue),
        ConfEdit::SetNoDefaultQueue => Ok(()),
        ConfEdit::SetPatience { .. } => Ok(()),
        ConfEdit::SetRetryWait { .. } => Ok(()),
    }
}
