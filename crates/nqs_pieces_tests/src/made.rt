//! Messages and their pieces, and feeds of these.

use nqs_base::{Bytes, Memory, copy_bytes};
use nqs_pieces::{Fed, Gather, Piece, cut};
use nqs_types::HostId;
use std::alloc::Global;

/// A message of so many bytes: 0 to 250, again and again.
pub(crate) fn message(alloc: Global, length: usize) -> Result<Vec<u8>, Memory> {
    let mut bytes = Vec::new(alloc);
    bytes.reserve(length)?;
    for place in 0..length {
        bytes.push((place % 251) as u8)?;
    }
    Ok(bytes)
}

/// The pieces of a message of host 1 to host 0 with this number, or none where it has no length for
/// that.
pub(crate) fn pieces(alloc: Global, message: &[u8], number: u64) -> Result<Vec<Piece>, Memory> {
    let head = Piece {
        from: HostId(1),
        to: HostId(0),
        kind: 1,
        port: 0,
        number,
        index: 0,
        count: 0,
        bytes: Bytes::new(alloc),
    };
    let mut out = Vec::new(alloc);
    if message.len() <= 48_000 {
        return Ok(out);
    }
    if 1_052_672 < message.len() {
        return Ok(out);
    }
    cut(message, &head, &mut out)?;
    Ok(out)
}

fn copy(piece: &Piece) -> Result<Piece, Memory> {
    let bytes = copy_bytes(&piece.bytes)?;
    Ok(Piece {
        from: piece.from,
        to: piece.to,
        kind: piece.kind,
        port: piece.port,
        number: piece.number,
        index: piece.index,
        count: piece.count,
        bytes,
    })
}

/// Feeds the piece of an index: `w` where it makes a message whole, `n` where it doesn't yet, and `-`
/// where there is none in form.
pub(crate) fn feed(
    gather: &mut Gather,
    pieces: &[Piece],
    index: usize,
    whole: &mut Vec<u8>,
) -> Result<u8, Memory> {
    if pieces.len() <= index {
        return Ok(b'-');
    }
    let piece = copy(&pieces[index])?;
    if !piece.is_in_form() {
        return Ok(b'-');
    }
    match gather.feed(piece, whole)? {
        Fed::Whole => Ok(b'w'),
        Fed::NotYet => Ok(b'n'),
    }
}

/// Feeds pieces in this order, and appends the letters.
pub(crate) fn feed_all(
    gather: &mut Gather,
    pieces: &[Piece],
    order: &[usize],
    whole: &mut Vec<u8>,
    letters: &mut Vec<u8>,
) -> Result<(), Memory> {
    for index in order {
        letters.push(feed(gather, pieces, *index, whole)?)?;
    }
    Ok(())
}
