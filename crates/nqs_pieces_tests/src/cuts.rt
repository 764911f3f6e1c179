//! Messages that are cut.

use crate::made::{message, pieces};
use nqs_base::Memory;
use nqs_pieces::Piece;
use std::alloc::Global;
use std::rt::HostRuntime;
use std::test::Fail;

// How many bytes each piece of a message of this length has.
fn lengths(alloc: Global, length: usize) -> Result<Vec<usize>, Memory> {
    let message = message(alloc, length)?;
    let pieces = pieces(alloc, message.as_slice(), 7)?;
    let mut lengths = Vec::new(alloc);
    for piece in &pieces {
        lengths.push(piece.bytes.len())?;
    }
    Ok(lengths)
}

// Whether a piece is the one of this index and count, of host 1 to host 0 with the number 7.
fn is_piece(piece: &Piece, index: u8, count: u8) -> bool {
    let named = [
        piece.from.0 == 1,
        piece.to.0 == 0,
        piece.kind == 1,
        piece.port == 0,
        piece.number == 7,
        piece.index == index,
        piece.count == count,
        piece.is_in_form(),
    ];
    named == [true; 8]
}

// Whether these bytes stand in a message, from a place on to before another.
fn is_part(message: &[u8], from: usize, to: usize, bytes: &[u8]) -> bool {
    match message.get(from..to) {
        Some(part) => part == bytes,
        None => false,
    }
}

#[test]
fn pieces_are_full_but_the_last(rt: HostRuntime) -> Result<(), Fail> {
    let alloc = rt.alloc();
    let three = lengths(alloc, 100_000)?;
    assert_eq!(rt; three.as_slice(), [48_000, 48_000, 4_000].as_slice());
    let two = lengths(alloc, 96_000)?;
    assert_eq!(rt; two.as_slice(), [48_000, 48_000].as_slice());
    Ok(())
}

#[test]
fn shortest_and_longest_messages_are_cut(rt: HostRuntime) -> Result<(), Fail> {
    let alloc = rt.alloc();
    let shortest = lengths(alloc, 48_001)?;
    assert_eq!(rt; shortest.as_slice(), [48_000, 1].as_slice());
    let longest = lengths(alloc, 1_052_672)?;
    assert_eq!(rt; longest.len(), 22);
    assert_eq!(rt; longest.last().copied(), Some(44_672));
    Ok(())
}

#[test]
fn pieces_have_their_index_and_the_fields_of_the_head(rt: HostRuntime) -> Result<(), Fail> {
    let alloc = rt.alloc();
    let message = message(alloc, 100_000)?;
    let pieces = pieces(alloc, message.as_slice(), 7)?;
    assert_eq!(rt; pieces.len(), 3);
    let shown = [
        is_piece(&pieces[0], 0, 3),
        is_piece(&pieces[1], 1, 3),
        is_piece(&pieces[2], 2, 3),
        is_part(
            message.as_slice(),
            48_000,
            96_000,
            pieces[1].bytes.as_slice(),
        ),
    ];
    assert_eq!(rt; shown, [true; 4]);
    Ok(())
}
