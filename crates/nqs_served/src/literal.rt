//! A job from its submission to its output, in literal datagrams, as `docs/formats.md` has them.

use crate::day::serve_rounds;
use crate::outside::{NONE, outside_of};
use crate::text::{put, put_calls};
use crate::trouble::Trouble;
use std::alloc::Global;

// `start queue batch` by root, at the port 9 with the token 5.
const START: &[u8] =
    b"\x02\x0a\0\0\0\x09\0\0\0\0\0\0\0\x05\x04root\x04\0\x01\0\0\0\x11start queue batch\0\0\0\0";

// `qsub` by ann, with the script `date`.
const SUBMIT: &[u8] = &[
    2, 10, 0, 0, 0, 9, 0, 0, 0, 0, 0, 0, 0, 5, 3, b'a', b'n', b'n', 1, 0, 0, 0, 0, 0, 4, b'd',
    b'a', b't', b'e',
];

// The end of the first start of the request 1, with status 0 and the output `hi`.
const ENDED: &[u8] = &[
    2, 12, 0, 0, 0, 9, 0, 0, 0, 1, 0, 0, 1, 0, 0, 0, 0, 3, b'h', b'i', 10, 0, 0, 0, 0,
];

// `qstat` by ann.
const LIST: &[u8] = &[
    2, 10, 0, 0, 0, 9, 0, 0, 0, 0, 0, 0, 0, 5, 3, b'a', b'n', b'n', 2, 0, 0, 0, 0, 0, 0,
];

static DATAGRAMS: [&[u8]; 4] = [START, SUBMIT, ENDED, LIST];

/// Prints what the daemon sends for literal datagrams.
pub(crate) fn put_literal(alloc: Global, out: &mut Vec<u8>) -> Result<(), Trouble> {
    put(b"\n== literal datagrams\n", out)?;
    let mut outside = outside_of(alloc, &NONE, &DATAGRAMS)?;
    serve_rounds(alloc, None, &[4], &mut outside, out)?;
    put_calls(alloc, outside.wire.kept(), out)
}
