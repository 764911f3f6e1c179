//! The datagrams in which a message goes out, as `specs/Letters.antt` has them.

ghost use Rattle.std.specs.Prelude.{◌≡◌, ◌<◌, IfOk, IsTrue, length, map};
ghost use Rattle.nqs_pieces.specs.Pieces.{pieces_of};
ghost use Rattle.nqs_packets.specs.Letters.{has_short_words, head_of, letters_of, number_in, piece_letter, port_in, MayGo};
ghost use Rattle.nqs_packets.specs.Messages.{in_datagram};
ghost use Rattle.nqs_packets.specs.Spelling.{spelling};
ghost use Rattle.nqs_packets.specs.Values.{MaySend};

use crate::laws::{what_is_in_form_may_be_sent, what_is_short_may_go};
use crate::write::{kind_of, write_message};
use nqs_base::{Bytes, Memory, bytes_of};
use nqs_pieces::laws::pieces_are_in_form;
use nqs_pieces::{Piece, cut};
use nqs_types::{Body, Message};
use std::alloc::Global;

// The longest datagram.
const LONGEST: usize = 49_152;

fn port_in(body: &Body) -> u16
    ensures { result ≡ port_in body.now }
{
    match body {
        Body::Ask { port, .. } => *port,
        _ => 0,
    }
}

/// The number under which its pieces belong together: an offer's, or a client's token.
pub fn number_in(body: &Body) -> u64
    ensures { result ≡ number_in body.now }
{
    match body {
        Body::Offer { number, .. } => *number,
        Body::Ask { token, .. } => *token,
        _ => 0,
    }
}

// What the pieces of a message have in common.
fn head_of(alloc: Global, message: &Message) -> Piece
    ensures { result ≡ head_of message.now }
{
    Piece {
        from: message.from,
        to: message.to,
        kind: kind_of(&message.body),
        port: port_in(&message.body),
        number: number_in(&message.body),
        index: 0,
        count: 0,
        bytes: Bytes::from_vec(Vec::new(alloc)),
    }
}

// The bytes of a message.
fn spelled(alloc: Global, message: &Message) -> Result<Vec<u8>, Memory>
    requires { MaySend message.now }
    ensures { IfOk result (λ bytes. bytes.items ≡ spelling message.now) }
{
    let mut bytes = Vec::new(alloc);
    write_message(alloc, message, &mut bytes)?;
    Ok(bytes)
}

// The datagram of a piece.
fn piece_letter(alloc: Global, piece: &Piece) -> Result<Bytes, Memory>
    requires { MaySend (in_datagram piece.now) }
    ensures { IfOk result (λ letter. letter ≡ piece_letter piece.now) }
{
    let message = Message {
        from: piece.from,
        to: piece.to,
        body: Body::Piece {
            kind: piece.kind,
            port: piece.port,
            number: piece.number,
            index: piece.index,
            count: piece.count,
            bytes: bytes_of(alloc, piece.bytes.as_slice())?,
        },
    };
    Ok(Bytes::from_vec(spelled(alloc, &message)?))
}

// The pieces of a message of these bytes.
fn pieces_of(alloc: Global, message: &Message, bytes: &[u8]) -> Result<Vec<Piece>, Memory>
    requires go { MayGo message.now }
    requires spelled { bytes.now ≡ spelling message.now }
    requires long { 49152 < length bytes.now }
    ensures { IfOk result (λ pieces. pieces.items ≡ pieces_of bytes.now (head_of message.now)) }
{
    let mut pieces = Vec::new(alloc);
    cut(bytes, &head_of(alloc, message), &mut pieces)?;
    Ok(pieces)
}

// The datagrams of a message's pieces.
fn piece_letters(alloc: Global, message: &Message, bytes: &[u8]) -> Result<Vec<Bytes>, Memory>
    requires go { MayGo message.now }
    requires spelled { bytes.now ≡ spelling message.now }
    requires long { 49152 < length bytes.now }
    ensures { IfOk result (λ letters. letters.items ≡ map piece_letter (pieces_of bytes.now (head_of message.now))) }
{
    pieces_are_in_form();
    what_is_in_form_may_be_sent();
    let pieces = pieces_of(alloc, message, bytes)?;
    let mut letters = Vec::new(alloc);
    for place in 0..pieces.len() {
        letters.push(piece_letter(alloc, &pieces[place])?)?;
    }
    Ok(letters)
}

// The datagrams of a message that may go out.
#[tactic(auto, unfolding(crate::specs::Letters::letters_of))]
fn letters_in(alloc: Global, message: &Message) -> Result<Vec<Bytes>, Memory>
    requires { MayGo message.now }
    ensures { IfOk result (λ letters. letters.items ≡ letters_of message.now) }
{
    let bytes = spelled(alloc, message)?;
    if bytes.len() > LONGEST {
        return piece_letters(alloc, message, bytes.as_slice());
    }
    let mut letters = Vec::new(alloc);
    letters.push(Bytes::from_vec(bytes))?;
    Ok(letters)
}

/// The datagrams in which a message goes out, in order: one, or its pieces' where it is longer.
pub fn letters_of(alloc: Global, message: &Message) -> Result<Vec<Bytes>, Memory>
    requires may { MaySend message.now }
    requires short { IsTrue (has_short_words message.now.body) }
    ensures { IfOk result (λ letters. letters.items ≡ letters_of message.now) }
{
    what_is_short_may_go();
    letters_in(alloc, message)
}
