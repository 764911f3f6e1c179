//! The texts of refusals.

ghost use Rattle.std.specs.Prelude.{◌≡◌, ◌++◌, OnOk, OnErr};
ghost use Rattle.nqs_rules.specs.Text.{named_text};
ghost use Rattle.nqs_rules.specs.Transcript.{refusal_text};
ghost use Rattle.nqs_put.specs.Puts.{IsFrontPut};
ghost use Rattle.nqs_types.specs.declared.refusal.Refusal.TheVariants.{NoRequest, QueueInUse};

use nqs_base::{Memory, Name};
use nqs_put::{put_about, put_decimal, put_named, put_text};
use nqs_types::{Named, Refusal};
use std::alloc::Global;

// A text and a name.
fn put_of(before: &[u8], name: &Name, out: &mut Vec<u8>) -> Result<(), Memory>
    ensures put { OnOk result (out.new.items ≡ out.old.items ++ (before.now ++ name.now)) }
    ensures front { OnErr result (IsFrontPut out.old.items (before.now ++ name.now) out.new.items) }
{
    put_text(before, out)?;
    put_text(name.as_bytes(), out)
}

// A request between two texts.
fn put_request(
    alloc: Global,
    before: &[u8],
    id: &Named,
    after: &[u8],
    out: &mut Vec<u8>,
) -> Result<(), Memory>
    ensures put { OnOk result (out.new.items ≡ out.old.items ++ (before.now ++ named_text id.now ++ after.now)) }
    ensures front { OnErr result (IsFrontPut out.old.items (before.now ++ named_text id.now ++ after.now) out.new.items) }
{
    put_text(before, out)?;
    put_named(alloc, id, out)?;
    put_text(after, out)
}

fn put_no_request(alloc: Global, id: &Named, out: &mut Vec<u8>) -> Result<(), Memory>
    ensures put { OnOk result (out.new.items ≡ out.old.items ++ refusal_text (NoRequest id.now)) }
    ensures front { OnErr result (IsFrontPut out.old.items (refusal_text (NoRequest id.now)) out.new.items) }
{
    put_text(b"no request ", out)?;
    put_named(alloc, id, out)
}

fn put_in_use(alloc: Global, queue: &Name, count: u64, out: &mut Vec<u8>) -> Result<(), Memory>
    ensures put { OnOk result (out.new.items ≡ out.old.items ++ refusal_text (QueueInUse queue.now count)) }
    ensures front { OnErr result (IsFrontPut out.old.items (refusal_text (QueueInUse queue.now count)) out.new.items) }
{
    put_about(b"queue ", queue, b" holds ", out)?;
    put_decimal(alloc, count, out)?;
    put_text(b" requests", out)
}

/// Appends the text of a refusal, without its number.
pub(crate) fn put_refusal(alloc: Global, refusal: &Refusal, out: &mut Vec<u8>) -> Result<(), Memory>
    ensures put { OnOk result (out.new.items ≡ out.old.items ++ refusal_text refusal.now) }
    ensures front { OnErr result (IsFrontPut out.old.items (refusal_text refusal.now) out.new.items) }
{
    match refusal {
        Refusal::NotManager => put_text(b"not a manager", out),
        Refusal::NotOperator => put_text(b"not an operator", out),
        Refusal::NoDefault => put_text(b"no default queue", out),
        Refusal::WrongKind => put_text(b"wrong kind of queue", out),
        Refusal::DestExists => put_text(b"destination exists", out),
        Refusal::NoDest => put_text(b"no such destination", out),
        Refusal::NotMember => put_text(b"not a member", out),
        Refusal::IsMember => put_text(b"already a member", out),
        Refusal::KeepRoot => put_text(b"root stays a manager", out),
        Refusal::NotOwner => put_text(b"not the owner", out),
        Refusal::TooMany => put_text(b"too many", out),
        Refusal::HostFull => put_text(b"the host is full", out),
        Refusal::NumbersUsed => put_text(b"all numbers are used", out),
        Refusal::NoQueue(name) => put_of(b"no queue ", name, out),
        Refusal::NoComplex(name) => put_of(b"no complex ", name, out),
        Refusal::NoDevice(name) => put_of(b"no device ", name, out),
        Refusal::NoHost(name) => put_of(b"no host ", name, out),
        Refusal::QueueExists(name) => put_about(b"queue ", name, b" exists", out),
        Refusal::ComplexExists(name) => put_about(b"complex ", name, b" exists", out),
        Refusal::DeviceExists(name) => put_about(b"device ", name, b" exists", out),
        Refusal::Disabled(name) => put_about(b"queue ", name, b" is disabled", out),
        Refusal::PipeOnly(name) => put_about(
            b"queue ",
            name,
            b" takes requests from pipe queues only",
            out,
        ),
        Refusal::NoAccess(name) => put_of(b"no access to queue ", name, out),
        Refusal::QueueInUse(queue, count) => put_in_use(alloc, queue, *count, out),
        Refusal::DeviceBusy(name) => put_about(b"device ", name, b" is busy", out),
        Refusal::OverCpu(name) => put_of(b"over the cpu limit of queue ", name, out),
        Refusal::OverMemory(name) => put_of(b"over the memory limit of queue ", name, out),
        Refusal::NoRequest(id) => put_no_request(alloc, id, out),
        Refusal::RequestRouting(id) => put_request(
            alloc,
            b"request ",
            id,
            b" is being routed",
            out,
        ),
        Refusal::RequestRunning(id) => put_request(alloc, b"request ", id, b" is running", out),
        Refusal::NotHeld(id) => put_request(alloc, b"request ", id, b" is not held", out),
        Refusal::IsHeld(id) => put_request(alloc, b"request ", id, b" is held", out),
        Refusal::RequestExists(id) => put_request(alloc, b"request ", id, b" exists", out),
    }
}
