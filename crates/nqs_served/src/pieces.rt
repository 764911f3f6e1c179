//! Pieces of an ask of 100,000 bytes, put together by hand as `docs/formats.md` has them, and what
//! a daemon makes of them.

use crate::datagrams::put_bytes;
use crate::day::serve_rounds;
use crate::outside::{Failing, NONE, outside_of};
use crate::text::{put, put_calls, put_text};
use crate::trouble::Trouble;
use std::alloc::Global;

// `qstat` by ann, at the port 9 with the token 5.
const LIST: &[u8] = &[
    2, 10, 0, 0, 0, 9, 0, 0, 0, 0, 0, 0, 0, 5, 3, b'a', b'n', b'n', 2, 0, 0, 0, 0, 0, 0,
];

// How many bytes each piece has but the last.
const SIZE: usize = 48_000;

// What a piece says of its message.
#[derive(Clone, Copy)]
struct Saying {
    kind: u8,
    port: u8,
    number: u8,
    count: u8,
}

// What the pieces of the ask say.
const OF_ASK: Saying = Saying {
    kind: 10,
    port: 9,
    number: 5,
    count: 3,
};

// `qsub` by ann to this host, at the port 9 with the token 5, of a script that is one remark.
fn ask(alloc: Global, to: u8) -> Result<Vec<u8>, Trouble> {
    let mut bytes = Vec::new(alloc);
    put(&[2, 10, 0, to, 0, 9, 0, 0, 0, 0, 0, 0, 0, 5], &mut bytes)?;
    put(&[3, b'a', b'n', b'n', 1, 0, 0], &mut bytes)?;
    put(&99_975u32.to_be_bytes(), &mut bytes)?;
    let remark = vec![in alloc; b'#'; 99_975]?;
    put(&remark, &mut bytes)?;
    Ok(bytes)
}

// What the piece of an index has of the message.
fn part(message: &[u8], index: u8) -> &[u8] {
    let start = (SIZE * usize::from(index)).min(message.len());
    let rest = &message[start..];
    &rest[..rest.len().min(SIZE)]
}

fn piece(alloc: Global, says: Saying, index: u8, message: &[u8]) -> Result<Vec<u8>, Trouble> {
    let Saying {
        kind,
        port,
        number,
        count,
    } = says;
    let mut datagram = Vec::new(alloc);
    put(&[2, 14, 0, 0, kind, 0, port], &mut datagram)?;
    put(&[0, 0, 0, 0, 0, 0, 0, number, index, count], &mut datagram)?;
    put_bytes(part(message, index), &mut datagram)?;
    Ok(datagram)
}

fn three(alloc: Global, says: Saying, message: &[u8]) -> Result<[Vec<u8>; 3], Trouble> {
    Ok([
        piece(alloc, says, 0, message)?,
        piece(alloc, says, 1, message)?,
        piece(alloc, says, 2, message)?,
    ])
}

// Prints what a daemon makes of what comes. Where there are no bytes nothing comes.
fn put_case(
    alloc: Global,
    title: &'static str,
    comes: &[&[u8]],
    out: &mut Vec<u8>,
) -> Result<(), Trouble> {
    put_text(format!(in alloc; "\n== {title}\n"), out)?;
    let mut outside = outside_of(alloc, &NONE, comes)?;
    serve_rounds(alloc, None, &[comes.len() as u64], &mut outside, out)?;
    put_calls(alloc, outside.wire.kept(), out)
}

fn put_ask_in_pieces(alloc: Global, out: &mut Vec<u8>) -> Result<(), Trouble> {
    let pieces = three(alloc, OF_ASK, &ask(alloc, 0)?)?;
    let first = pieces[0].as_slice();
    let second = pieces[1].as_slice();
    let last = pieces[2].as_slice();
    put_case(
        alloc,
        "pieces, the last first",
        &[last, first, first, second],
        out,
    )?;
    put_case(
        alloc,
        "a quiet between pieces",
        &[first, second, b"", last],
        out,
    )?;
    put_case(
        alloc,
        "a client that goes away half way",
        &[first, second, LIST],
        out,
    )
}

// Pieces that say this make no event of the ask.
fn put_no_event(
    alloc: Global,
    title: &'static str,
    says: Saying,
    to: u8,
    out: &mut Vec<u8>,
) -> Result<(), Trouble> {
    let pieces = three(alloc, says, &ask(alloc, to)?)?;
    let comes = [
        pieces[0].as_slice(),
        pieces[1].as_slice(),
        pieces[2].as_slice(),
    ];
    put_case(alloc, title, &comes, out)
}

// A piece within pieces is none: the ask lacks it.
fn put_within(alloc: Global, out: &mut Vec<u8>) -> Result<(), Trouble> {
    let pieces = three(alloc, OF_ASK, &ask(alloc, 0)?)?;
    let says = Saying { count: 2, ..OF_ASK };
    let one = piece(alloc, says, 0, &pieces[0])?;
    let two = piece(alloc, says, 1, &pieces[0])?;
    let comes = [
        one.as_slice(),
        two.as_slice(),
        pieces[1].as_slice(),
        pieces[2].as_slice(),
    ];
    put_case(alloc, "a piece within pieces", &comes, out)
}

// Prints what a daemon makes of the pieces of the ask, where a call of the wire fails. It is served so
// many turns, and so many again, and what came of the ask before is forgotten then.
fn put_failed_call(
    alloc: Global,
    title: &'static str,
    failing: &Failing,
    rounds: &[u64],
    out: &mut Vec<u8>,
) -> Result<(), Trouble> {
    put_text(format!(in alloc; "\n== {title}\n"), out)?;
    let pieces = three(alloc, OF_ASK, &ask(alloc, 0)?)?;
    let comes = [
        pieces[0].as_slice(),
        pieces[1].as_slice(),
        pieces[2].as_slice(),
    ];
    let mut outside = outside_of(alloc, failing, &comes)?;
    serve_rounds(alloc, None, rounds, &mut outside, out)?;
    put_calls(alloc, outside.wire.kept(), out)
}

fn put_failed_calls(alloc: Global, out: &mut Vec<u8>) -> Result<(), Trouble> {
    let first = Failing {
        receives: &[1],
        ..NONE
    };
    put_failed_call(alloc, "a receive before pieces fails", &first, &[3, 3], out)?;
    let second = Failing {
        receives: &[2],
        ..NONE
    };
    put_failed_call(
        alloc,
        "a receive behind a piece fails",
        &second,
        &[3, 2],
        out,
    )?;
    let last = Failing {
        receives: &[3],
        ..NONE
    };
    put_failed_call(
        alloc,
        "a receive of the last piece fails",
        &last,
        &[3, 1],
        out,
    )?;
    let answer = Failing {
        sends: &[1],
        ..NONE
    };
    put_failed_call(
        alloc,
        "the send of what pieces are answered fails",
        &answer,
        &[3],
        out,
    )
}

/// Prints what a daemon makes of pieces.
pub(crate) fn put_pieces(alloc: Global, out: &mut Vec<u8>) -> Result<(), Trouble> {
    put_ask_in_pieces(alloc, out)?;
    let number = Saying {
        number: 6,
        ..OF_ASK
    };
    put_no_event(alloc, "pieces of another number", number, 0, out)?;
    let kind = Saying {
        kind: 1,
        port: 0,
        ..OF_ASK
    };
    put_no_event(alloc, "pieces of another kind", kind, 0, out)?;
    put_no_event(alloc, "pieces of an ask of another host", OF_ASK, 1, out)?;
    put_within(alloc, out)?;
    put_failed_calls(alloc, out)
}
