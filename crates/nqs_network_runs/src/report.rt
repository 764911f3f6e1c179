//! The line that names the first bad line of a schedule.

ghost use Rattle.std.specs.Prelude.{◌≡◌, ◌++◌, OnOk};
ghost use Rattle.nqs_outside.specs.Streams.{sunk};
ghost use Rattle.nqs_network_runs.specs.Running.{cause_text, bad_line_text, Reports};

use crate::status::Status;
use nqs_base::Memory;
use nqs_outside::{Sink, write_whole};
use nqs_query::{put_decimal, put_text};
use nqs_schedule::{Cause, LineFault};
use std::alloc::Global;

fn cause_text(cause: Cause) -> &'static [u8]
    ensures { result.now ≡ cause_text cause }
{
    match cause {
        Cause::Unended => b"unended",
        Cause::UnknownWord => b"unknown word",
        Cause::MissingWord => b"missing word",
        Cause::ExtraWord => b"extra word",
        Cause::BadName => b"bad name",
        Cause::BadNumber => b"bad number",
        Cause::BadQuote => b"bad quote",
        Cause::BadRequest => b"bad request",
        Cause::NoSuchHost => b"no such host",
        Cause::LateHosts => b"hosts line too late",
        Cause::HostTwice => b"host named twice",
        Cause::TooManyHosts => b"too many hosts",
        Cause::OutputTooLong => b"output too long",
    }
}

fn put_bad_line(alloc: Global, line: u64, cause: Cause, out: &mut Vec<u8>) -> Result<(), Memory>
    ensures { OnOk result (out.new.items ≡ out.old.items ++ bad_line_text line cause) }
{
    put_text(b"bad line ", out)?;
    put_decimal(alloc, line, out)?;
    put_text(b": ", out)?;
    put_text(cause_text(cause), out)?;
    put_text(b"\n", out)
}

/// Writes the line that names the first bad line.
pub(crate) fn report<K: Sink>(alloc: Global, fault: LineFault, out: &mut K) -> Status
    ensures { Reports fault.line fault.cause (sunk K.taken K.faults K.stalls out.old out.new) result }
{
    let mut text = Vec::new(alloc);
    match put_bad_line(alloc, fault.line, fault.cause, &mut text) {
        Err(memory) => Status::Memory(memory),
        Ok(()) => match write_whole(out, &text) {
            Ok(()) => Status::BadSchedule,
            Err(_) => Status::WriteFault,
        },
    }
}
