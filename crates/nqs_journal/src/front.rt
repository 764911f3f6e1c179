//! What comes before the records of a journal, by any of its forms: the header, or a snapshot's
//! header with a snapshot behind its length, each of version 1 or 2. The forms are in
//! `specs/Either.antt`.
ghost use Rattle.std.specs.Prelude.{◌≡◌, ◌<◌, ◌≤◌, ◌^◌, ◌++◌, ℕ, List, length, take, drop, IfSome, IfNone, IfOk, IfErr, OnOk};
ghost use Rattle.nqs_journal.specs.Either.{header_of, has_snapshot, long_frame, front_of, IsSnapshot, IsNoSnapshot, LeavesHeaders, IsFrontFault};

use crate::begin::SNAPSHOT;
use crate::read::{HEADER, OLD_HEADER, first_difference};

const OLD_SNAPSHOT: [u8; 16] = *b"NQS-SNAPSHOT-v1\n";

// The form by the header that the bytes begin with, or the place at which they leave all headers.
fn header_form(bytes: &[u8]) -> Result<u8, usize>
    ensures known { IfOk result (λ form. form ≤ 3) }
    ensures stands { IfOk result (λ form. bytes.now ≡ header_of form ++ drop 16 bytes.now) }
    ensures fault { IfErr result (LeavesHeaders bytes.now) }
{
    let Some(place) = first_difference(bytes, &HEADER) else {
        return Ok(0);
    };
    let Some(old) = first_difference(bytes, &OLD_SNAPSHOT) else {
        return Ok(1);
    };
    let Some(new) = first_difference(bytes, &SNAPSHOT) else {
        return Ok(2);
    };
    let Some(first) = first_difference(bytes, &OLD_HEADER) else {
        return Ok(3);
    };
    Err(place.max(old).max(new).max(first))
}

// Whether a text of the form begins with a snapshot.
fn begins_with_snapshot(form: u8) -> bool
    ensures { result ≡ has_snapshot form }
{
    form == 1 || form == 2
}

// A snapshot behind its length. The length may be any that eight bytes have.
fn first_snapshot(bytes: &[u8]) -> Option<&[u8]>
    ensures some { IfSome result (λ snapshot. (rest : List ℕ) × (bytes.now ≡ long_frame snapshot.now ++ rest)) }
    ensures small { IfSome result (λ snapshot. length snapshot.now < 2 ^ 64) }
    ensures none { IfNone result (IsNoSnapshot bytes.now) }
{
    if bytes.len() < 8 {
        return None;
    }
    let (field, rest) = bytes.split_at(8);
    let length = u64::from_be_bytes([
        field[0], field[1], field[2], field[3], field[4], field[5], field[6], field[7],
    ]);
    if length > rest.len() as u64 {
        return None;
    }
    let (snapshot, _) = rest.split_at(length as usize);
    Some(snapshot)
}

/// What comes before the records.
#[derive(Clone, Copy)]
pub(crate) struct Front<'a> {
    /// The form's number.
    pub form: u8,
    /// Empty where there is no snapshot.
    pub snapshot: &'a [u8],
    /// How many bytes it takes.
    pub length: usize,
}

// What comes before the records, or the place of the first fault there.
pub(crate) fn read_front(bytes: &[u8]) -> Result<Front<'_>, usize>
    ensures is { IfOk result (λ front. IsSnapshot front.form front.snapshot.now) }
    ensures stands { IfOk result (λ front. take front.length bytes.now ≡ front_of front.form front.snapshot.now) }
    ensures within { IfOk result (λ front. front.length ≤ length bytes.now) }
    ensures fault { IfErr result (IsFrontFault bytes.now) }
{
    let form = header_form(bytes)?;
    if !begins_with_snapshot(form) {
        return Ok(Front {
            form,
            snapshot: &[],
            length: 16,
        });
    }
    let Some(snapshot) = first_snapshot(&bytes[16..]) else {
        return Err(16);
    };
    Ok(Front {
        form,
        snapshot,
        length: 24 + snapshot.len(),
    })
}
