//! All that is told of a request that is asked about.

ghost use Rattle.std.specs.Prelude.{◌≡◌, ◌++◌, map, codes, flat_map, IfOk, OnOk};
ghost use Rattle.std.specs.Fmt.{decimal};
ghost use Rattle.nqs_state.specs.State.{content};
ghost use Rattle.nqs_rules.specs.Find.{find_queue};
ghost use Rattle.nqs_rules.specs.Answers.{answer_of};
ghost use Rattle.nqs_rules.specs.Reasons.{count_before};
ghost use Rattle.nqs_rules.specs.Why.{reason_line, dest_line, dest_lines, told_lines, before_lines, why_lines};
ghost use Rattle.nqs_types.specs.declared.reason.Reason.TheVariants.{NoDestination};

use crate::answers::answer;
use crate::text::{put_answer, put_count, put_reason};
use crate::told::{count_before, reasons};
use nqs_base::{Bytes, Items, ListOf, Memory, Name};
use nqs_put::{put_host, put_id, put_text};
use nqs_state::HostState;
use nqs_types::{Dest, DestAnswer, Reason, Row, RowState};
use std::alloc::Global;

// `Request ID: REASON.`
fn put_reason_line(
    alloc: Global,
    site: &[Name],
    row: &Row,
    reason: &Reason,
    out: &mut Vec<u8>,
) -> Result<(), Memory>
    ensures { OnOk result (out.new.items ≡ out.old.items ++ reason_line site.now row.now.id row.now.queue reason.now) }
{
    put_text(b"Request ", out)?;
    put_id(alloc, site, row.id, out)?;
    put_text(b": ", out)?;
    put_reason(alloc, &row.queue, reason, out)?;
    put_text(b".", out)
}

fn reason_line(alloc: Global, site: &[Name], row: &Row, reason: &Reason) -> Result<Bytes, Memory>
    ensures { IfOk result (λ line. line ≡ reason_line site.now row.now.id row.now.queue reason.now) }
{
    let mut line = Vec::new(alloc);
    put_reason_line(alloc, site, row, reason, &mut line)?;
    Ok(ListOf::from_vec(line))
}

// `QUEUE@HOST: ANSWER.`
fn put_dest_line(
    alloc: Global,
    site: &[Name],
    dest: &Dest,
    answer: &DestAnswer,
    out: &mut Vec<u8>,
) -> Result<(), Memory>
    ensures { OnOk result (out.new.items ≡ out.old.items ++ dest_line site.now (λ _. answer.now) dest.now) }
{
    put_text(dest.queue.as_bytes(), out)?;
    put_text(b"@", out)?;
    put_host(site, dest.host, out)?;
    put_text(b": ", out)?;
    put_answer(alloc, answer, out)?;
    put_text(b".", out)
}

// A destination of the row's queue, and what it answered.
fn dest_line(
    alloc: Global,
    state: &HostState,
    row: &Row,
    dest: &Dest,
    now: u64,
) -> Result<Bytes, Memory>
    ensures { IfOk result (λ line. line ≡ dest_line state.now.site (answer_of now (content state.now) row.now) dest.now) }
{
    let answer = answer(state, row, dest, now);
    let mut line = Vec::new(alloc);
    put_dest_line(alloc, state.site.as_slice(), dest, &answer, &mut line)?;
    Ok(ListOf::from_vec(line))
}

// The lines, and one for each of the destinations.
fn add_dests(
    alloc: Global,
    state: &HostState,
    lines: Items<Bytes>,
    row: &Row,
    dests: &[Dest],
    now: u64,
) -> Result<Items<Bytes>, Memory>
    ensures { let answered = answer_of now (content state.now) row.now in
        IfOk result (λ more. more ≡ lines ++ map (dest_line state.now.site answered) dests.now) }
{
    let mut lines = lines;
    for dest in dests {
        lines.push(dest_line(alloc, state, row, dest, now)?)?;
    }
    Ok(lines)
}

// The lines, and one for each destination of the row's queue.
fn add_dests_of(
    alloc: Global,
    state: &HostState,
    lines: Items<Bytes>,
    row: &Row,
    now: u64,
) -> Result<Items<Bytes>, Memory>
    ensures { let s = content state.now in let answered = answer_of now s row.now in
        IfOk result (λ more. more ≡ lines ++ dest_lines s.site NoDestination (find_queue row.now.queue s) answered) }
{
    match state.queues.get(&row.queue) {
        Some(queue) => add_dests(alloc, state, lines, row, queue.dests.as_slice(), now),
        None => Ok(lines),
    }
}

// The lines, and those of the destinations, where the reason is that none may be tried.
fn add_dest_lines(
    alloc: Global,
    state: &HostState,
    lines: Items<Bytes>,
    row: &Row,
    reason: &Reason,
    now: u64,
) -> Result<Items<Bytes>, Memory>
    ensures { let s = content state.now in let answered = answer_of now s row.now in
        IfOk result (λ more. more ≡ lines ++ dest_lines s.site reason.now (find_queue row.now.queue s) answered) }
{
    match reason {
        Reason::NoDestination => add_dests_of(alloc, state, lines, row, now),
        _ => Ok(lines),
    }
}

// `Requests that wait before it: N.`
fn before_line(alloc: Global, count: u64) -> Result<Bytes, Memory>
    ensures { IfOk result (λ line. line ≡ codes "Requests that wait before it: " ++ decimal count ++ codes ".") }
{
    let mut line = Vec::new(alloc);
    put_count(
        alloc,
        b"Requests that wait before it: ",
        count,
        b".",
        &mut line,
    )?;
    Ok(ListOf::from_vec(line))
}

// The lines, and of a queued row how many wait before it.
fn add_before(
    alloc: Global,
    state: &HostState,
    lines: Items<Bytes>,
    row: &Row,
    now: u64,
) -> Result<Items<Bytes>, Memory>
    ensures { IfOk result (λ more. more ≡ lines ++ before_lines row.now.state (count_before now (content state.now) row.now)) }
{
    if row.state != RowState::Queued {
        return Ok(lines);
    }
    let mut lines = lines;
    lines.push(before_line(alloc, count_before(state, row, now))?)?;
    Ok(lines)
}

// The lines, and those of a reason of the row.
fn add_reason(
    alloc: Global,
    state: &HostState,
    lines: Items<Bytes>,
    row: &Row,
    reason: &Reason,
    now: u64,
) -> Result<Items<Bytes>, Memory>
    ensures { IfOk result (λ more. more ≡ lines ++ told_lines now (content state.now) row.now reason.now) }
{
    let mut lines = lines;
    lines.push(reason_line(alloc, state.site.as_slice(), row, reason)?)?;
    add_dest_lines(alloc, state, lines, row, reason, now)
}

// The lines of the row's reasons.
fn lines_of(
    alloc: Global,
    state: &HostState,
    row: &Row,
    reasons: &[Reason],
    now: u64,
) -> Result<Items<Bytes>, Memory>
    ensures { IfOk result (λ lines. lines ≡ flat_map (told_lines now (content state.now) row.now) reasons.now) }
{
    let mut lines = Items::new(alloc);
    for reason in reasons {
        lines = add_reason(alloc, state, lines, row, reason, now)?;
    }
    Ok(lines)
}

/// What is told of a request of the host at a moment, in seconds since 1970: all reasons why it
/// doesn't run, where none of its queue's destinations may be tried what each answered, and of a
/// queued one how many wait before it. Each is a line, without a line end. It fails for want of
/// memory alone.
pub fn why_lines(
    alloc: Global,
    state: &HostState,
    row: &Row,
    now: u64,
) -> Result<Items<Bytes>, Memory>
    ensures { IfOk result (λ lines. lines ≡ why_lines now (content state.now) row.now) }
{
    let reasons = reasons(alloc, state, row, now)?;
    let lines = lines_of(alloc, state, row, reasons.as_slice(), now)?;
    add_before(alloc, state, lines, row, now)
}
