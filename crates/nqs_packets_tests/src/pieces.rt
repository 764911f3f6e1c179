//! Pieces of long messages, each byte by hand, and the datagrams in which a message goes out.

use crate::packets::{OFFER, fault, is_written_again};
use nqs_base::{Bytes, Memory};
use nqs_packets::{PacketFault, letters_of, read_message};
use nqs_types::Body;
use std::alloc::Global;
use std::rt::HostRuntime;
use std::test::Fail;

// What stands before the index of a piece of the offer 2, and of the ask of a client at port 9.
const OF_OFFER: &[u8] = b"\x02\x0e\x00\x01\x01\x00\x00\x00\x00\x00\x00\x00\x00\x00\x02";

const OF_ASK: &[u8] = b"\x02\x0e\x00\x00\x0a\x00\x09\x00\x00\x00\x00\x00\x00\x00\x05";

// A piece with so many bytes, all 0.
fn piece(alloc: Global, head: &[u8], index: u8, count: u8, length: u32) -> Result<Vec<u8>, Memory> {
    let mut bytes = head.to_vec(alloc)?;
    bytes.push(index)?;
    bytes.push(count)?;
    bytes.extend_from_slice(&length.to_be_bytes())?;
    let zeros = vec![in alloc; 0u8; length as usize]?;
    bytes.extend_from_slice(&zeros)?;
    Ok(bytes)
}

#[test]
fn reads_and_writes_pieces(rt: HostRuntime) -> Result<(), Fail> {
    let alloc = rt.alloc();
    let pieces = [
        piece(alloc, OF_OFFER, 0, 2, 48_000)?,
        piece(alloc, OF_OFFER, 1, 2, 1)?,
        piece(alloc, OF_ASK, 20, 22, 48_000)?,
        piece(alloc, OF_ASK, 21, 22, 48_000)?,
    ];
    for bytes in &pieces {
        assert!(rt; is_written_again(alloc, bytes));
    }
    Ok(())
}

// The index and the count of a piece, how many bytes it has, and its fault.
static FAULTS: [(u8, u8, u32, PacketFault); 9] = [
    (0, 0, 1, PacketFault::BadField(16)),
    (0, 1, 1, PacketFault::BadField(16)),
    (2, 2, 1, PacketFault::BadField(16)),
    (0, 23, 48_000, PacketFault::BadField(16)),
    (22, 23, 1, PacketFault::BadField(16)),
    (0, 2, 47_999, PacketFault::BadField(17)),
    (0, 2, 48_001, PacketFault::BadField(17)),
    (1, 2, 0, PacketFault::BadField(17)),
    (1, 2, 48_001, PacketFault::BadField(17)),
];

#[test]
fn faults_of_pieces_are_at_their_places(rt: HostRuntime) -> Result<(), Fail> {
    let alloc = rt.alloc();
    for (index, count, length, first) in &FAULTS {
        let bytes = piece(alloc, OF_ASK, *index, *count, *length)?;
        assert_eq!(rt; fault(alloc, &bytes).as_ref(), Some(first));
    }
    Ok(())
}

// A piece of no offer and no ask, one of an offer with a port, and one of no number.
#[test]
fn other_pieces_are_none(rt: HostRuntime) -> Result<(), Fail> {
    let alloc = rt.alloc();
    let mut found = Vec::new(alloc);
    for (place, value) in [(4, 2), (6, 1), (14, 0)] {
        let mut bytes = piece(alloc, OF_OFFER, 1, 2, 1)?;
        if let Some(byte) = bytes.get_mut(place) {
            *byte = value;
        }
        found.push(fault(alloc, &bytes))?;
    }
    let wanted = [
        Some(PacketFault::BadField(4)),
        Some(PacketFault::BadField(5)),
        Some(PacketFault::BadField(7)),
    ];
    assert_eq!(rt; found.as_slice(), wanted.as_slice());
    Ok(())
}

// The offer with a script of so many bytes, of which each 10,000 are another byte.
fn offer(alloc: Global, length: u32) -> Result<Vec<u8>, Memory> {
    let mut bytes = OFFER[..66].to_vec(alloc)?;
    bytes.extend_from_slice(&length.to_be_bytes())?;
    for block in 0..=length / 10_000 {
        let left = (length - block * 10_000).min(10_000);
        let same = vec![in alloc; (block % 251) as u8; left as usize]?;
        bytes.extend_from_slice(&same)?;
    }
    Ok(bytes)
}

// The datagrams in which the offer of these bytes goes out.
fn letters(alloc: Global, bytes: &[u8]) -> Result<Option<Vec<Bytes>>, Memory> {
    match &read_message(alloc, bytes) {
        Ok(message) => match &message.body {
            Body::Offer { .. } => Ok(Some(letters_of(alloc, message)?)),
            _ => Ok(None),
        },
        Err(_) => Ok(None),
    }
}

// How many datagrams there are, how long the last of them is, and whether what stands behind the
// first bytes of each is the offer.
fn sent(
    alloc: Global,
    bytes: &[u8],
    behind: usize,
) -> Result<Option<(usize, usize, bool)>, Memory> {
    let Some(letters) = letters(alloc, bytes)? else {
        return Ok(None);
    };
    let mut whole = Vec::new(alloc);
    let mut last = 0;
    for letter in &letters {
        whole.extend_from_slice(&letter.as_slice()[behind.min(letter.len())..])?;
        last = letter.len();
    }
    Ok(Some((letters.len(), last, whole.as_slice() == bytes)))
}

// A message of 49,152 bytes is one datagram, though it might be cut; one of a byte more goes in two
// pieces, of which each has 21 bytes before its own. The longest script goes in 22.
#[test]
fn long_messages_go_in_pieces(rt: HostRuntime) -> Result<(), Fail> {
    let alloc = rt.alloc();
    let whole = sent(alloc, &offer(alloc, 49_082)?, 0)?;
    let two = sent(alloc, &offer(alloc, 49_083)?, 21)?;
    let most = sent(alloc, &offer(alloc, 1_048_576)?, 21)?;
    let none = letters(alloc, &offer(alloc, 1_048_577)?)?.is_none();
    assert_eq!(rt; whole, Some((1, 49_152, true)));
    assert_eq!(rt; two, Some((2, 1_174, true)));
    assert_eq!(rt; most, Some((22, 40_667, true)));
    assert!(rt; none);
    Ok(())
}

// Whether there are so many datagrams, and each begins as the piece of its index: it is of the
// offer 2, whose low is 1.
fn begin_as_pieces(alloc: Global, bytes: &[u8], count: u8) -> Result<bool, Memory> {
    let Some(letters) = letters(alloc, bytes)? else {
        return Ok(false);
    };
    let mut same = letters.len() == usize::from(count);
    let mut index = 0u8;
    for letter in &letters {
        let mut head = OF_OFFER.to_vec(alloc)?;
        head.push(index)?;
        head.push(count)?;
        same = same && &letter.as_slice()[..letter.len().min(17)] == head.as_slice();
        index = index.saturating_add(1);
    }
    Ok(same)
}

#[test]
fn pieces_say_whose_they_are(rt: HostRuntime) -> Result<(), Fail> {
    let alloc = rt.alloc();
    let two = begin_as_pieces(alloc, &offer(alloc, 49_083)?, 2)?;
    let most = begin_as_pieces(alloc, &offer(alloc, 1_048_576)?, 22)?;
    assert_eq!(rt; [two, most], [true, true]);
    Ok(())
}
