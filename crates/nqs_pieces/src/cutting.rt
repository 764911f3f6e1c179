//! A message cut into pieces, as `specs/Pieces.antt` has them.

ghost use Rattle.std.specs.Prelude.{◌≡◌, ◌*◌, ◌<◌, ◌≤◌, ◌++◌, length, take, drop, IfOk, OnOk, OnErr};
ghost use Rattle.nqs_pieces.specs.Pieces.{piece_count, piece_of, pieces_of};

use crate::piece::{PIECE_SIZE, Piece};
use nqs_base::{Memory, bytes_of};
use std::alloc::Global;

/// Appends the pieces of a message of 48,001 to 1,052,672 bytes, in order of index. They have the
/// first five fields of `head`. An `Err` leaves `out` as it was.
pub fn cut(message: &[u8], head: &Piece, out: &mut Vec<Piece>) -> Result<(), Memory>
    requires long { 48000 < length message.now }
    requires short { length message.now ≤ 1052672 }
    ensures ok { OnOk result (out.new.items ≡ out.old.items ++ pieces_of message.now head.now) }
    ensures err { OnErr result (out.new.items ≡ out.old.items) }
{
    let mut pieces = all_pieces(*out.allocator(), message, head)?;
    out.append(&mut pieces)?;
    Ok(())
}

// The pieces of a message.
fn all_pieces(alloc: Global, message: &[u8], head: &Piece) -> Result<Vec<Piece>, Memory>
    requires { length message.now ≤ 1052672 }
    ensures { IfOk result (λ pieces. pieces.items ≡ pieces_of message.now head.now) }
{
    let count = count_of(message);
    let mut pieces = Vec::new(alloc);
    pieces.reserve(usize::from(count))?;
    for index in 0..count {
        let piece = piece_at(alloc, message, head, index, count)?;
        pieces.push(piece)?;
    }
    Ok(pieces)
}

// How many pieces a message has.
fn count_of(message: &[u8]) -> u8
    requires { length message.now ≤ 1052672 }
    ensures { result ≡ piece_count message.now }
{
    ((message.len() + (PIECE_SIZE - 1)) / PIECE_SIZE) as u8
}

// What a piece has of the message from a place on.
fn part(message: &[u8], start: usize) -> &[u8]
    requires { start ≤ length message.now }
    ensures { result.now ≡ take 48000 (drop start message.now) }
{
    let rest = &message[start..];
    &rest[..rest.len().min(PIECE_SIZE)]
}

// The piece of an index.
fn piece_at(
    alloc: Global,
    message: &[u8],
    head: &Piece,
    index: u8,
    count: u8,
) -> Result<Piece, Memory>
    requires counted { count ≡ piece_count message.now }
    requires inside { 48000 * index ≤ length message.now }
    ensures { IfOk result (λ piece. piece ≡ piece_of message.now head.now index) }
{
    let bytes = bytes_of(alloc, part(message, PIECE_SIZE * usize::from(index)))?;
    Ok(Piece {
        from: head.from,
        to: head.to,
        kind: head.kind,
        port: head.port,
        number: head.number,
        index,
        count,
        bytes,
    })
}
