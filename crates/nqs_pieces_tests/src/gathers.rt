//! Pieces that are gathered.

use crate::made::{feed_all, message, pieces};
use nqs_base::Memory;
use nqs_pieces::{Gather, Piece};
use nqs_types::HostId;
use std::alloc::Global;
use std::rt::HostRuntime;
use std::test::Fail;

// Three pieces in each order, with each piece but the last once more.
static ORDERS: [[usize; 4]; 18] = [
    [0, 0, 1, 2],
    [0, 1, 0, 2],
    [0, 1, 1, 2],
    [0, 0, 2, 1],
    [0, 2, 0, 1],
    [0, 2, 2, 1],
    [1, 1, 0, 2],
    [1, 0, 1, 2],
    [1, 0, 0, 2],
    [1, 1, 2, 0],
    [1, 2, 1, 0],
    [1, 2, 2, 0],
    [2, 2, 0, 1],
    [2, 0, 2, 1],
    [2, 0, 0, 1],
    [2, 2, 1, 0],
    [2, 1, 2, 0],
    [2, 1, 1, 0],
];

// Whether the pieces, fed in this order to an empty gathering, are answered so, and make the message.
fn makes(
    alloc: Global,
    message: &[u8],
    pieces: &[Piece],
    order: &[usize],
    wanted: &[u8],
) -> Result<bool, Memory> {
    let mut gather = Gather::new(alloc);
    let mut whole = Vec::new(alloc);
    let mut letters = Vec::new(alloc);
    feed_all(&mut gather, pieces, order, &mut whole, &mut letters)?;
    Ok(letters.as_slice() == wanted && whole.as_slice() == message)
}

#[test]
fn pieces_make_the_message(rt: HostRuntime) -> Result<(), Fail> {
    let alloc = rt.alloc();
    let message = message(alloc, 100_000)?;
    let pieces = pieces(alloc, message.as_slice(), 7)?;
    assert!(rt;
        makes(
            alloc,
            message.as_slice(),
            pieces.as_slice(),
            &[2, 0, 0, 1],
            b"nnnw"
        )?
    );
    Ok(())
}

#[test]
fn any_order_with_any_repeat_does(rt: HostRuntime) -> Result<(), Fail> {
    let alloc = rt.alloc();
    let message = message(alloc, 100_000)?;
    let pieces = pieces(alloc, message.as_slice(), 7)?;
    for order in &ORDERS {
        assert!(rt; makes(alloc, message.as_slice(), pieces.as_slice(), order, b"nnnw")?);
    }
    Ok(())
}

// The letters for the pieces of a message of this length, from the last to the first, and whether
// they made it.
fn backwards(alloc: Global, length: usize) -> Result<(Vec<u8>, bool), Memory> {
    let message = message(alloc, length)?;
    let pieces = pieces(alloc, message.as_slice(), 7)?;
    let mut gather = Gather::new(alloc);
    let mut whole = Vec::new(alloc);
    let mut letters = Vec::new(alloc);
    let count = pieces.len();
    for place in 0..count {
        feed_all(
            &mut gather,
            pieces.as_slice(),
            &[count - 1 - place],
            &mut whole,
            &mut letters,
        )?;
    }
    let made = whole.as_slice() == message.as_slice();
    Ok((letters, made))
}

#[test]
fn shortest_and_longest_messages_are_made(rt: HostRuntime) -> Result<(), Fail> {
    let alloc = rt.alloc();
    let (two, shortest) = backwards(alloc, 48_001)?;
    assert_eq!(rt; two.as_slice(), b"nw".as_slice());
    let (all, longest) = backwards(alloc, 1_052_672)?;
    assert_eq!(rt; all.as_slice(), b"nnnnnnnnnnnnnnnnnnnnnw".as_slice());
    assert_eq!(rt; [shortest, longest], [true; 2]);
    Ok(())
}

// The first pieces of messages with these numbers are fed.
fn feed_firsts(
    gather: &mut Gather,
    message: &[u8],
    numbers: &[u64],
    whole: &mut Vec<u8>,
    letters: &mut Vec<u8>,
) -> Result<(), Memory> {
    for number in numbers {
        let pieces = pieces(*whole.allocator(), message, *number)?;
        feed_all(gather, pieces.as_slice(), &[0], whole, letters)?;
    }
    Ok(())
}

// A ninth key drops the first. That begins anew with its other piece and drops the second; the third
// is still there.
#[test]
fn a_ninth_key_drops_the_first(rt: HostRuntime) -> Result<(), Fail> {
    let alloc = rt.alloc();
    let message = message(alloc, 50_000)?;
    let mut gather = Gather::new(alloc);
    let mut whole = Vec::new(alloc);
    let mut letters = Vec::new(alloc);
    let first = pieces(alloc, message.as_slice(), 1)?;
    let third = pieces(alloc, message.as_slice(), 3)?;
    feed_firsts(
        &mut gather,
        message.as_slice(),
        &[1, 2, 3, 4, 5, 6, 7, 8, 9],
        &mut whole,
        &mut letters,
    )?;
    feed_all(
        &mut gather,
        first.as_slice(),
        &[1],
        &mut whole,
        &mut letters,
    )?;
    feed_all(
        &mut gather,
        third.as_slice(),
        &[1],
        &mut whole,
        &mut letters,
    )?;
    assert_eq!(rt; letters.as_slice(), b"nnnnnnnnnnw".as_slice());
    feed_all(
        &mut gather,
        first.as_slice(),
        &[0],
        &mut whole,
        &mut letters,
    )?;
    assert_eq!(rt; letters.last().copied(), Some(b'w'));
    Ok(())
}

#[test]
fn eight_keys_stay(rt: HostRuntime) -> Result<(), Fail> {
    let alloc = rt.alloc();
    let message = message(alloc, 50_000)?;
    let mut gather = Gather::new(alloc);
    let mut whole = Vec::new(alloc);
    let mut letters = Vec::new(alloc);
    let first = pieces(alloc, message.as_slice(), 1)?;
    feed_firsts(
        &mut gather,
        message.as_slice(),
        &[1, 2, 3, 4, 5, 6, 7, 8],
        &mut whole,
        &mut letters,
    )?;
    feed_all(
        &mut gather,
        first.as_slice(),
        &[1],
        &mut whole,
        &mut letters,
    )?;
    assert_eq!(rt; letters.as_slice(), b"nnnnnnnnw".as_slice());
    Ok(())
}

// Two pieces of 50,000 bytes come behind the first of three: that is gone.
#[test]
fn another_count_begins_anew(rt: HostRuntime) -> Result<(), Fail> {
    let alloc = rt.alloc();
    let long = message(alloc, 100_000)?;
    let short = message(alloc, 50_000)?;
    let three = pieces(alloc, long.as_slice(), 7)?;
    let two = pieces(alloc, short.as_slice(), 7)?;
    let mut gather = Gather::new(alloc);
    let mut whole = Vec::new(alloc);
    let mut letters = Vec::new(alloc);
    feed_all(
        &mut gather,
        three.as_slice(),
        &[0, 1],
        &mut whole,
        &mut letters,
    )?;
    feed_all(
        &mut gather,
        two.as_slice(),
        &[1, 0],
        &mut whole,
        &mut letters,
    )?;
    assert_eq!(rt; letters.as_slice(), b"nnnw".as_slice());
    assert!(rt; whole.as_slice() == short.as_slice());
    Ok(())
}

// Of two sendings that differ in the first piece alone, the one is made whose first piece came first.
#[test]
fn two_sendings_make_one_that_was_sent(rt: HostRuntime) -> Result<(), Fail> {
    let alloc = rt.alloc();
    let early = message(alloc, 100_000)?;
    let mut late = message(alloc, 100_000)?;
    if let Some(byte) = late.first_mut() {
        *byte = 255;
    }
    let once = pieces(alloc, early.as_slice(), 7)?;
    let again = pieces(alloc, late.as_slice(), 7)?;
    let mut gather = Gather::new(alloc);
    let mut whole = Vec::new(alloc);
    let mut letters = Vec::new(alloc);
    feed_all(&mut gather, once.as_slice(), &[0], &mut whole, &mut letters)?;
    feed_all(
        &mut gather,
        again.as_slice(),
        &[0, 2, 1],
        &mut whole,
        &mut letters,
    )?;
    assert_eq!(rt; letters.as_slice(), b"nnnw".as_slice());
    assert!(rt; whole.as_slice() == early.as_slice());
    Ok(())
}

// A message that was made is forgotten: the same pieces make it once more, behind what is there.
#[test]
fn a_key_serves_again(rt: HostRuntime) -> Result<(), Fail> {
    let alloc = rt.alloc();
    let message = message(alloc, 100_000)?;
    let pieces = pieces(alloc, message.as_slice(), 7)?;
    let mut gather = Gather::new(alloc);
    let mut whole = Vec::new(alloc);
    let mut letters = Vec::new(alloc);
    feed_all(
        &mut gather,
        pieces.as_slice(),
        &[0, 1, 2, 2, 1, 0],
        &mut whole,
        &mut letters,
    )?;
    assert_eq!(rt; letters.as_slice(), b"nnwnnw".as_slice());
    assert_eq!(rt; whole.len(), 200_000);
    gather.clear();
    feed_all(
        &mut gather,
        pieces.as_slice(),
        &[0],
        &mut whole,
        &mut letters,
    )?;
    gather.clear();
    feed_all(
        &mut gather,
        pieces.as_slice(),
        &[1, 2],
        &mut whole,
        &mut letters,
    )?;
    assert_eq!(rt; letters.as_slice(), b"nnwnnwnnn".as_slice());
    Ok(())
}

// The pieces, of a message with another sender, kind, port and number.
fn named(mut pieces: Vec<Piece>, from: HostId, kind: u8, port: u16, number: u64) -> Vec<Piece> {
    for piece in pieces.iter_mut() {
        piece.from = from;
        piece.kind = kind;
        piece.port = port;
        piece.number = number;
    }
    pieces
}

// Second pieces that differ from the first in their sender, kind, port or number don't go with it.
#[test]
fn pieces_of_other_keys_stand_apart(rt: HostRuntime) -> Result<(), Fail> {
    let alloc = rt.alloc();
    let message = message(alloc, 50_000)?;
    let first = named(pieces(alloc, message.as_slice(), 7)?, HostId(1), 10, 9, 7);
    let others = [
        named(pieces(alloc, message.as_slice(), 7)?, HostId(2), 10, 9, 7),
        named(pieces(alloc, message.as_slice(), 7)?, HostId(1), 1, 9, 7),
        named(pieces(alloc, message.as_slice(), 7)?, HostId(1), 10, 8, 7),
        named(pieces(alloc, message.as_slice(), 7)?, HostId(1), 10, 9, 8),
    ];
    let mut gather = Gather::new(alloc);
    let mut whole = Vec::new(alloc);
    let mut letters = Vec::new(alloc);
    feed_all(
        &mut gather,
        first.as_slice(),
        &[0],
        &mut whole,
        &mut letters,
    )?;
    for other in &others {
        feed_all(
            &mut gather,
            other.as_slice(),
            &[1],
            &mut whole,
            &mut letters,
        )?;
    }
    feed_all(
        &mut gather,
        first.as_slice(),
        &[1],
        &mut whole,
        &mut letters,
    )?;
    assert_eq!(rt; letters.as_slice(), b"nnnnnw".as_slice());
    Ok(())
}
