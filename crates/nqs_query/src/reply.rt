//! The text of each reply.

ghost use Rattle.std.specs.Prelude.{◌≡◌, ◌++◌, ◌∷◌, [], codes, flat_map, OnOk, OnErr};
ghost use Rattle.std.specs.Fmt.{decimal};
ghost use Rattle.nqs_rules.specs.Text.{id_text};
ghost use Rattle.nqs_rules.specs.Transcript.{at_place, grammar_text, words_text, in_script, words_fault_text, reply_text, lines};
ghost use Rattle.nqs_put.specs.Puts.{IsFrontPut};
ghost use Rattle.nqs_query.specs.Replies.{reply_line};
ghost use Rattle.nqs_types.specs.declared.event.Reply.TheVariants as reply;

use crate::refusal::put_refusal;
use nqs_base::{Bytes, Memory, Name};
use nqs_plans::refusal_number;
use nqs_put::{put_decimal, put_id, put_line_end, put_text};
use nqs_types::{GrammarFault, Refusal, Reply, RequestId, WordsCause, WordsFault};
use std::alloc::Global;

// `Bad line at PLACE: CAUSE`
fn put_at_place(alloc: Global, place: u64, cause: &[u8], out: &mut Vec<u8>) -> Result<(), Memory>
    ensures put { OnOk result (out.new.items ≡ out.old.items ++ at_place place cause.now) }
    ensures front { OnErr result (IsFrontPut out.old.items (at_place place cause.now) out.new.items) }
{
    put_text(b"Bad line at ", out)?;
    put_decimal(alloc, place, out)?;
    put_text(b": ", out)?;
    put_text(cause, out)
}

fn put_grammar_fault(alloc: Global, fault: GrammarFault, out: &mut Vec<u8>) -> Result<(), Memory>
    ensures put { OnOk result (out.new.items ≡ out.old.items ++ grammar_text fault) }
    ensures front { OnErr result (IsFrontPut out.old.items (grammar_text fault) out.new.items) }
{
    match fault {
        GrammarFault::UnknownWord(place) => put_at_place(alloc, place, b"unknown word", out),
        GrammarFault::Ambiguous(place) => put_at_place(alloc, place, b"ambiguous", out),
        GrammarFault::Missing(place) => put_at_place(alloc, place, b"missing", out),
        GrammarFault::Extra(place) => put_at_place(alloc, place, b"extra", out),
        GrammarFault::BadName(place) => put_at_place(alloc, place, b"bad name", out),
        GrammarFault::BadNumber(place) => put_at_place(alloc, place, b"bad number", out),
    }
}

fn words_text(cause: WordsCause) -> &'static [u8]
    ensures { result.now ≡ words_text cause }
{
    match cause {
        WordsCause::Unknown => b"unknown word",
        WordsCause::Missing => b"missing",
        WordsCause::Repeated => b"repeated",
        WordsCause::Both => b"both -e and -eo",
        WordsCause::BadName => b"bad name",
        WordsCause::BadNumber => b"bad number",
        WordsCause::BadMoment => b"bad moment",
        WordsCause::BadPath => b"bad path",
        WordsCause::ScriptTooLong => b"script too long",
    }
}

// ` in script line L`
fn put_line_of(alloc: Global, line: u32, out: &mut Vec<u8>) -> Result<(), Memory>
    ensures put { OnOk result (out.new.items ≡ out.old.items ++ (codes " in script line " ++ decimal line)) }
    ensures front { OnErr result (IsFrontPut out.old.items (codes " in script line " ++ decimal line) out.new.items) }
{
    put_text(b" in script line ", out)?;
    put_decimal(alloc, u64::from(line), out)
}

fn put_in_script(alloc: Global, line: u32, out: &mut Vec<u8>) -> Result<(), Memory>
    ensures put { OnOk result (out.new.items ≡ out.old.items ++ in_script line) }
    ensures front { OnErr result (IsFrontPut out.old.items (in_script line) out.new.items) }
{
    if line == 0 {
        return put_text(b"", out);
    }
    put_line_of(alloc, line, out)
}

// `Bad word W: CAUSE` or `Bad word W in script line L: CAUSE`
fn put_words_fault(alloc: Global, fault: WordsFault, out: &mut Vec<u8>) -> Result<(), Memory>
    ensures put { OnOk result (out.new.items ≡ out.old.items ++ words_fault_text fault) }
    ensures front { OnErr result (IsFrontPut out.old.items (words_fault_text fault) out.new.items) }
{
    put_text(b"Bad word ", out)?;
    put_decimal(alloc, u64::from(fault.word), out)?;
    put_in_script(alloc, fault.line, out)?;
    put_text(b": ", out)?;
    put_text(words_text(fault.cause), out)
}

// `Request ID submitted to queue: QUEUE.`
fn put_submitted(
    alloc: Global,
    site: &[Name],
    id: RequestId,
    queue: &Name,
    out: &mut Vec<u8>,
) -> Result<(), Memory>
    ensures put { OnOk result (out.new.items ≡ out.old.items ++ reply_line site.now (reply.Submitted id queue.now)) }
    ensures front { OnErr result (IsFrontPut out.old.items (reply_line site.now (reply.Submitted id queue.now)) out.new.items) }
{
    put_text(b"Request ", out)?;
    put_id(alloc, site, id, out)?;
    put_text(b" submitted to queue: ", out)?;
    put_text(queue.as_bytes(), out)?;
    put_text(b".", out)
}

// `Request ID has been deleted.`
fn put_deleted(alloc: Global, site: &[Name], id: RequestId, out: &mut Vec<u8>) -> Result<(), Memory>
    ensures put { OnOk result (out.new.items ≡ out.old.items ++ reply_line site.now (reply.Deleted id)) }
    ensures front { OnErr result (IsFrontPut out.old.items (reply_line site.now (reply.Deleted id)) out.new.items) }
{
    put_text(b"Request ", out)?;
    put_id(alloc, site, id, out)?;
    put_text(b" has been deleted.", out)
}

// `Request ID has been signalled.`
fn put_signalled(
    alloc: Global,
    site: &[Name],
    id: RequestId,
    out: &mut Vec<u8>,
) -> Result<(), Memory>
    ensures put { OnOk result (out.new.items ≡ out.old.items ++ reply_line site.now (reply.Signalled id)) }
    ensures front { OnErr result (IsFrontPut out.old.items (reply_line site.now (reply.Signalled id)) out.new.items) }
{
    put_text(b"Request ", out)?;
    put_id(alloc, site, id, out)?;
    put_text(b" has been signalled.", out)
}

// `Refused N: TEXT.`
fn put_refused(alloc: Global, refusal: &Refusal, out: &mut Vec<u8>) -> Result<(), Memory>
    ensures put { OnOk result (out.new.items ≡ out.old.items ++ reply_line [] (reply.Refused refusal.now)) }
    ensures front { OnErr result (IsFrontPut out.old.items (reply_line [] (reply.Refused refusal.now)) out.new.items) }
{
    put_text(b"Refused ", out)?;
    put_decimal(alloc, u64::from(refusal_number(refusal)), out)?;
    put_text(b": ", out)?;
    put_refusal(alloc, refusal, out)?;
    put_text(b".", out)
}

fn put_lines(texts: &[Bytes], out: &mut Vec<u8>) -> Result<(), Memory>
    ensures put { OnOk result (out.new.items ≡ out.old.items ++ lines texts.now) }
    ensures front { OnErr result (IsFrontPut out.old.items (lines texts.now) out.new.items) }
{
    for i in 0..texts.len() {
        put_text(texts[i].as_slice(), out)?;
        put_line_end(out)?;
    }
    Ok(())
}

// The text of a reply of one line; nothing for a list.
fn put_one_line(
    alloc: Global,
    reply: &Reply,
    site: &[Name],
    out: &mut Vec<u8>,
) -> Result<(), Memory>
    ensures put { OnOk result (out.new.items ≡ out.old.items ++ reply_line site.now reply.now) }
    ensures front { OnErr result (IsFrontPut out.old.items (reply_line site.now reply.now) out.new.items) }
{
    match reply {
        Reply::Submitted { id, queue } => put_submitted(alloc, site, *id, queue, out),
        Reply::Deleted(id) => put_deleted(alloc, site, *id, out),
        Reply::Signalled(id) => put_signalled(alloc, site, *id, out),
        Reply::Done => put_text(b"Done.", out),
        Reply::Refused(refusal) => put_refused(alloc, refusal, out),
        Reply::Lines(_) => put_text(b"", out),
        Reply::UnreadLine(fault) => put_grammar_fault(alloc, *fault, out),
        Reply::UnreadWords(fault) => put_words_fault(alloc, *fault, out),
    }
}

/// Appends the text of a reply: its lines, each with a line feed. Requests are named by the hosts
/// of the site. Want of memory leaves a front of the text behind what was there.
pub fn print_reply(
    alloc: Global,
    reply: &Reply,
    site: &[Name],
    out: &mut Vec<u8>,
) -> Result<(), Memory>
    ensures put { OnOk result (out.new.items ≡ out.old.items ++ reply_text site.now reply.now) }
    ensures front { OnErr result (IsFrontPut out.old.items (reply_text site.now reply.now) out.new.items) }
{
    if let Reply::Lines(texts) = reply {
        return put_lines(texts.as_slice(), out);
    }
    put_one_line(alloc, reply, site, out)?;
    put_line_end(out)
}
