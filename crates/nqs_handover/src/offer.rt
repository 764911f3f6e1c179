//! An offer comes.
ghost use Rattle.std.specs.Prelude.{◌≡◌, ◌∷◌, ◌++◌, [], ◌||◌, IfOk};
ghost use Rattle.nqs_state.specs.State.{content};
ghost use Rattle.nqs_rules.specs.Causes.{first_refusal};
ghost use Rattle.nqs_rules.specs.Find.{has_row, find_peer};
ghost use Rattle.nqs_rules.specs.Handover.{closes, is_not_given_here, offer_causes, on_offer, send_ready};
ghost use Rattle.nqs_rules.specs.Rows.{job_causes};
ghost use Rattle.nqs_types.specs.declared.change.Change.TheVariants.{Promised};
ghost use Rattle.nqs_rules.specs.Stepped.{plan_of, makes};
ghost use Rattle.nqs_handover.specs.Offers.{by_number, host_causes, into_causes};

use nqs_base::{Bytes, ListOf, Memory, Name};
use nqs_plans::{add, change_storing, copy_carried, message, no_extent, refusal_number, says};
use nqs_routing::{find_peer, has_promise, is_closed};
use nqs_rows::{check_arrivals, check_job, offer_full};
use nqs_state::HostState;
use nqs_types::{Body, Carried, Change, Entry, HostId, Job, Plan, QueueDef, Refusal, RequestId};
use std::alloc::Global;
use std::mem::replace;

// The number of a refusal for a request that exists.
const EXISTS: u8 = 33;

// Whether the host is of the site, and the number of a handover from it is closed.
pub(crate) fn closes(state: &HostState, peer: HostId, number: u64) -> bool
    ensures { result ≡ closes number (find_peer peer (content state.now)) }
{
    match find_peer(state, peer) {
        Some(known) => is_closed(known, number),
        None => false,
    }
}

// Whether the request is of this host, with a number that it didn't give yet.
fn is_not_given_here(state: &HostState, id: RequestId) -> bool
    ensures { result ≡ is_not_given_here id (content state.now) }
{
    state.me == id.host && state.seq < id.seq
}

fn check_host(state: &HostState, peer: HostId, low: u64) -> Result<(), Refusal>
    ensures { result ≡ first_refusal (host_causes peer low (content state.now)) }
{
    if offer_full(state, peer, low) {
        return Err(Refusal::HostFull);
    }
    check_arrivals(state)
}

fn check_found(
    state: &HostState,
    peer: HostId,
    low: u64,
    queue: &QueueDef,
    job: &Job,
) -> Result<(), Refusal>
    ensures { result ≡ first_refusal (job_causes queue.now job.now Entry.FromPipe ++ host_causes peer low (content state.now)) }
{
    check_job(queue, job, Entry::FromPipe)?;
    check_host(state, peer, low)
}

fn check_into(
    state: &HostState,
    peer: HostId,
    low: u64,
    queue: &Name,
    carried: &Carried,
) -> Result<(), Refusal>
    ensures { result ≡ first_refusal (into_causes peer low queue.now carried.now (content state.now)) }
{
    match state.queues.get(queue) {
        Some(def) => check_found(state, peer, low, def, &carried.job),
        None => Err(Refusal::NoQueue(*queue)),
    }
}

fn is_known(state: &HostState, id: RequestId) -> bool
    ensures { result ≡ (has_row id (content state.now) || is_not_given_here id (content state.now)) }
{
    state.rows.has(&id) || is_not_given_here(state, id)
}

// Whether the offer is taken, or the number of its refusal.
fn check_offer(
    state: &HostState,
    peer: HostId,
    low: u64,
    queue: &Name,
    carried: &Carried,
) -> Result<(), u8>
    ensures { result ≡ by_number (first_refusal (offer_causes peer low queue.now carried.now (content state.now))) }
{
    if is_known(state, carried.id) {
        return Err(EXISTS);
    }
    match check_into(state, peer, low, queue, carried) {
        Ok(()) => Ok(()),
        Err(refusal) => Err(refusal_number(&refusal)),
    }
}

// The bytes, in place of which none are left.
fn take_bytes(alloc: Global, bytes: &mut Bytes) -> Bytes
    ensures { result ≡ bytes.old }
{
    replace(bytes, ListOf::new(alloc))
}

// The offered request is promised. Its script is taken and not copied.
fn promise(
    alloc: Global,
    state: &HostState,
    peer: HostId,
    number: u64,
    low: u64,
    queue: &Name,
    carried: &Carried,
    script: &mut Bytes,
) -> Result<Plan, Memory>
    ensures { IfOk result (λ plan. plan ≡ plan_of (makes (Promised peer number low queue.now carried.now script.old)
        (send_ready (content state.now) peer number ∷ []))) }
{
    let promised = Change::Promised {
        peer,
        number,
        low,
        queue: *queue,
        carried: copy_carried(carried)?,
        script: no_extent(),
    };
    let plan = change_storing(alloc, promised, take_bytes(alloc, script))?;
    add(plan, message(state, peer, Body::Ready { number }))
}

/// OFFER: the request is promised and READY goes out, or REFUSED with the number of the first
/// refusal. By a promise the numbers below `low`, from 1 to the number, are closed. DONE goes out
/// where the number is closed, and READY where it is promised already. The script of a request that
/// is promised is taken out of `script`; what is left there isn't told.
pub fn on_offer(
    alloc: Global,
    state: &HostState,
    peer: HostId,
    number: u64,
    low: u64,
    queue: &Name,
    carried: &Carried,
    script: &mut Bytes,
) -> Result<Plan, Memory>
    ensures { IfOk result (λ plan. plan ≡ plan_of (on_offer peer number low queue.now carried.now script.old (content state.now))) }
{
    if closes(state, peer, number) {
        return says(alloc, message(state, peer, Body::Done { number }));
    }
    if has_promise(state, peer, number) {
        return says(alloc, message(state, peer, Body::Ready { number }));
    }
    match check_offer(state, peer, low, queue, carried) {
        Ok(()) => promise(alloc, state, peer, number, low, queue, carried, script),
        Err(cause) => says(alloc, message(state, peer, Body::Refused { number, cause })),
    }
}
