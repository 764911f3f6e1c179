//! The texts of reasons, and of the answers of destinations. Want of memory leaves a front of one
//! behind what was there.

ghost use Rattle.std.specs.Prelude.{◌≡◌, ◌++◌, codes, OnOk, OnErr};
ghost use Rattle.std.specs.Fmt.{decimal};
ghost use Rattle.std.specs.Option.{option_copied};
ghost use Rattle.nqs_rules.specs.Why.{when_text, limit_text, forms_text, next_text, reason_text, answer_text};
ghost use Rattle.nqs_put.specs.Puts.{IsFrontPut};

use nqs_base::{Memory, Name};
use nqs_moments::{PrintFault, print_moment};
use nqs_put::{put_about, put_decimal, put_text};
use nqs_types::{DestAnswer, Reason};
use std::alloc::Global;

// A moment as its date, and past the last day that has one as its seconds since 1970.
fn put_when(alloc: Global, moment: u64, out: &mut Vec<u8>) -> Result<(), Memory>
    ensures put { OnOk result (out.new.items ≡ out.old.items ++ when_text moment) }
    ensures front { OnErr result (IsFrontPut out.old.items (when_text moment) out.new.items) }
{
    match print_moment(alloc, moment, out) {
        Ok(()) => Ok(()),
        Err(PrintFault::Range) => put_decimal(alloc, moment, out),
        Err(PrintFault::Memory(refused)) => Err(refused),
    }
}

// A moment behind a text.
fn put_moment(alloc: Global, before: &[u8], moment: u64, out: &mut Vec<u8>) -> Result<(), Memory>
    ensures put { OnOk result (out.new.items ≡ out.old.items ++ (before.now ++ when_text moment)) }
    ensures front { OnErr result (IsFrontPut out.old.items (before.now ++ when_text moment) out.new.items) }
{
    put_text(before, out)?;
    put_when(alloc, moment, out)
}

// A number between two texts.
pub(crate) fn put_count(
    alloc: Global,
    before: &[u8],
    number: u64,
    after: &[u8],
    out: &mut Vec<u8>,
) -> Result<(), Memory>
    ensures put { OnOk result (out.new.items ≡ out.old.items ++ (before.now ++ decimal number ++ after.now)) }
    ensures front { OnErr result (IsFrontPut out.old.items (before.now ++ decimal number ++ after.now) out.new.items) }
{
    put_text(before, out)?;
    put_decimal(alloc, number, out)?;
    put_text(after, out)
}

fn put_limit(
    alloc: Global,
    before: &[u8],
    limit: u64,
    of: &[u8],
    name: &Name,
    out: &mut Vec<u8>,
) -> Result<(), Memory>
    ensures put { OnOk result (out.new.items ≡ out.old.items ++ limit_text before.now limit of.now name.now) }
    ensures front { OnErr result (IsFrontPut out.old.items (limit_text before.now limit of.now name.now) out.new.items) }
{
    put_text(before, out)?;
    put_decimal(alloc, limit, out)?;
    put_about(of, name, b" is reached", out)
}

fn put_forms(forms: Option<&Name>, out: &mut Vec<u8>) -> Result<(), Memory>
    ensures put { OnOk result (out.new.items ≡ out.old.items ++ forms_text (option_copied forms.entry)) }
    ensures front { OnErr result (IsFrontPut out.old.items (forms_text (option_copied forms.entry)) out.new.items) }
{
    match forms {
        Some(forms) => put_about(b" with forms ", forms, b"", out),
        None => Ok(()),
    }
}

fn put_no_device(queue: &Name, forms: Option<&Name>, out: &mut Vec<u8>) -> Result<(), Memory>
    ensures put { let forms = forms_text (option_copied forms.entry) in
        OnOk result (out.new.items ≡ out.old.items ++ (codes "no device of queue " ++ queue.now ++ forms ++ codes " is free")) }
    ensures front { let forms = forms_text (option_copied forms.entry) in
        OnErr result (IsFrontPut out.old.items (codes "no device of queue " ++ queue.now ++ forms ++ codes " is free") out.new.items) }
{
    put_about(b"no device of queue ", queue, b"", out)?;
    put_forms(forms, out)?;
    put_text(b" is free", out)
}

fn put_next(alloc: Global, queue: &Name, count: u64, out: &mut Vec<u8>) -> Result<(), Memory>
    ensures put { OnOk result (out.new.items ≡ out.old.items ++ next_text queue.now count) }
    ensures front { OnErr result (IsFrontPut out.old.items (next_text queue.now count) out.new.items) }
{
    if count == 0 {
        return put_about(b"it is next in queue ", queue, b"", out);
    }
    if count == 1 {
        return put_text(b"1 request of the queue comes before it", out);
    }
    put_count(
        alloc,
        b"",
        count,
        b" requests of the queue come before it",
        out,
    )
}

/// Appends the text of a reason, for a request of this queue: `queue batch is stopped`.
/// A moment is a date in UTC, and past the last day of 9999 its seconds since 1970.
pub fn put_reason(
    alloc: Global,
    queue: &Name,
    reason: &Reason,
    out: &mut Vec<u8>,
) -> Result<(), Memory>
    ensures put { OnOk result (out.new.items ≡ out.old.items ++ reason_text queue.now reason.now) }
    ensures front { OnErr result (IsFrontPut out.old.items (reason_text queue.now reason.now) out.new.items) }
{
    match reason {
        Reason::Runs => put_text(b"it runs", out),
        Reason::OnItsWay => put_text(b"it is on its way to another host", out),
        Reason::HeldByUser => put_text(b"it is held", out),
        Reason::HeldBySystem => put_text(b"the system holds it", out),
        Reason::NotBefore(moment) => put_moment(alloc, b"it may not start before ", *moment, out),
        Reason::NoQueue => put_about(b"no queue ", queue, b"", out),
        Reason::QueueStopped => put_about(b"queue ", queue, b" is stopped", out),
        Reason::UserLimit(limit) => {
            let limit = u64::from(*limit);
            put_limit(alloc, b"the user limit ", limit, b" of queue ", queue, out)
        }
        Reason::RunLimit(limit) => {
            let limit = u64::from(*limit);
            put_limit(alloc, b"the run limit ", limit, b" of queue ", queue, out)
        }
        Reason::ComplexLimit(complex, limit) => {
            let limit = u64::from(*limit);
            put_limit(alloc, b"the limit ", limit, b" of complex ", complex, out)
        }
        Reason::GlobalLimit(limit) => {
            let limit = u64::from(*limit);
            put_count(alloc, b"the global limit ", limit, b" is reached", out)
        }
        Reason::NoDevice(forms) => put_no_device(queue, forms.as_ref(), out),
        Reason::NoDestination => put_about(
            b"no destination of queue ",
            queue,
            b" may be tried now",
            out,
        ),
        Reason::Next(count) => put_next(alloc, queue, *count, out),
    }
}

/// Appends the text of a destination's answer: `refused with number 19`.
/// A moment is as in the text of a reason.
pub fn put_answer(alloc: Global, answer: &DestAnswer, out: &mut Vec<u8>) -> Result<(), Memory>
    ensures put { OnOk result (out.new.items ≡ out.old.items ++ answer_text answer.now) }
    ensures front { OnErr result (IsFrontPut out.old.items (answer_text answer.now) out.new.items) }
{
    match answer {
        DestAnswer::Refused(number) => {
            put_count(alloc, b"refused with number ", u64::from(*number), b"", out)
        }
        DestAnswer::NoHost => put_text(b"no such host", out),
        DestAnswer::NoNumberLeft => put_text(b"all numbers are used", out),
        DestAnswer::HandingOver => put_text(b"its host is being handed eight requests", out),
        DestAnswer::NotSettled(number) => put_count(
            alloc,
            b"its host has not settled handover ",
            *number,
            b"",
            out,
        ),
        DestAnswer::WaitedFor(moment) => {
            put_moment(alloc, b"its host is waited for until ", *moment, out)
        }
        DestAnswer::MayBeTried => put_text(b"may be tried", out),
    }
}
