//! What a daemon asked of its outside, as lines like those of a transcript.

use crate::datagrams::text_of;
use crate::outside::Outside;
use crate::text::{put, put_datagram, put_quoted, put_text};
use crate::trouble::Trouble;
use nqs_base::Bytes;
use nqs_fakes::{FileWritten, Kept, LauncherCall, Printed};
use nqs_outside::Address;
use nqs_types::RequestId;
use std::alloc::Global;

// The text of an answer, or else the datagram, byte by byte.
fn put_answer(
    alloc: Global,
    to: Address,
    bytes: &Bytes,
    token: u64,
    out: &mut Vec<u8>,
) -> Result<(), Trouble> {
    let text = match to {
        Address::Client(9) => text_of(bytes.as_slice(), token),
        _ => None,
    };
    match text {
        Some(text) => put(text, out),
        None => put_datagram(alloc, to, bytes, out),
    }
}

// What is asked for first has the token 0, and each further one that of the answer behind it.
fn put_answers(alloc: Global, calls: &[Kept], out: &mut Vec<u8>) -> Result<(), Trouble> {
    let mut token = 0u64;
    for call in calls {
        if let Kept::Outbound(to, bytes) = call {
            put_answer(alloc, *to, bytes, token, out)?;
            token = token.saturating_add(1);
        }
    }
    Ok(())
}

// A word, and the start of a request of the host 0.
fn put_start(
    alloc: Global,
    word: &str,
    id: RequestId,
    start: u16,
    out: &mut Vec<u8>,
) -> Result<(), Trouble> {
    let host = if id.host.0 == 0 {
        "alpha"
    } else {
        "another host"
    };
    put_text(
        format!(in alloc; "{word} alpha {}.{host} {start}", id.seq),
        out,
    )
}

fn put_line_end(ok: bool, out: &mut Vec<u8>) -> Result<(), Trouble> {
    put(if ok { b"\n".as_slice() } else { b" failed\n" }, out)
}

// Bytes in quotes, behind a space, and whether the call failed.
fn put_body(bytes: &Bytes, ok: bool, out: &mut Vec<u8>) -> Result<(), Trouble> {
    put(b" ", out)?;
    put_quoted(bytes.as_slice(), out)?;
    put_line_end(ok, out)
}

fn put_job(alloc: Global, call: &LauncherCall, out: &mut Vec<u8>) -> Result<(), Trouble> {
    match call {
        LauncherCall::Launch { order, script, ok } => {
            put_start(alloc, "launch", order.id, order.start, out)?;
            put_body(script, *ok, out)
        }
        LauncherCall::Kill { id, start, ok } => {
            put_start(alloc, "kill", *id, *start, out)?;
            put_line_end(*ok, out)
        }
    }
}

fn put_print(alloc: Global, print: &Printed, out: &mut Vec<u8>) -> Result<(), Trouble> {
    let order = &print.order;
    put_start(alloc, "print", order.id, order.start, out)?;
    put(b" ", out)?;
    put(print.device.as_bytes(), out)?;
    put_body(&print.bytes, print.ok, out)
}

fn put_file(file: &FileWritten, out: &mut Vec<u8>) -> Result<(), Trouble> {
    put(b"write ", out)?;
    put(file.path.as_slice(), out)?;
    put_body(&file.bytes, file.ok, out)
}

/// Prints what the daemon asked of its outside: answers, jobs, prints and files.
pub(crate) fn put_told(alloc: Global, outside: &Outside, out: &mut Vec<u8>) -> Result<(), Trouble> {
    put_answers(alloc, outside.wire.kept(), out)?;
    for call in outside.launcher.kept() {
        put_job(alloc, call, out)?;
    }
    for print in outside.printer.kept() {
        put_print(alloc, print, out)?;
    }
    for file in outside.outlet.kept() {
        put_file(file, out)?;
    }
    Ok(())
}
