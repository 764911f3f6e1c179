//! What a datagram comes to: it is sorted, or it is a piece of a message and is gathered. A message
//! that its pieces made is sorted like any.

ghost use Rattle.std.specs.Prelude.{◌≡◌, IfErr, IfOk, IsTrue, OnOk, Ok, None, Some, length};
ghost use Rattle.nqs_rules.specs.Sane.{is_of_site, is_sane_event};
ghost use Rattle.nqs_rules.specs.Tests.{same_host};
ghost use Rattle.nqs_outside.specs.Asked.{came};
ghost use Rattle.nqs_pieces.specs.Gathering.{fed, key_of};
ghost use Rattle.nqs_pieces.specs.Pieces.{IsPiece};
ghost use Rattle.nqs_packets.specs.Messages.{in_datagram};
ghost use Rattle.nqs_packets.specs.Values.{MaySend};
ghost use Rattle.nqs_serve.specs.Events.{Here};
ghost use Rattle.nqs_serve.specs.Gathers.{came_as, event_fed, event_keyed, event_made, heard, heard_by, heard_said, is_keyed, piece_in, taken_by, IfTaken};
ghost use Rattle.nqs_serve.specs.Sends.{is_right_event};
ghost use Rattle.nqs_serve.specs.Sorted.{taken_of, IfEvent};

use crate::sort::{IgnoreCause, Sorted, ignored, sort_read, unread};
use nqs_base::{Memory, Name};
use nqs_packets::{kind_of, number_in, read_message, what_is_read_is_in_form};
use nqs_pieces::{Fed, Gather, MessageKey, Piece};
use nqs_types::{Body, Event, HostId, Message};
use std::alloc::Global;

/// What a datagram came to.
#[derive(Drop)]
pub(crate) enum Came {
    /// It is an event, or the message is of which it was the last piece.
    Event(Event),
    Ignored(IgnoreCause),
    /// It is a piece of a message of which others lack.
    Piece,
}

// By how it is sorted.
fn came_as(sorted: Sorted) -> Came
    ensures { result ≡ came_as sorted }
{
    match sorted {
        Sorted::Event(event) => Came::Event(event),
        Sorted::Ignored(cause) => Came::Ignored(cause),
    }
}

/// The longest datagram.
const DATAGRAM: usize = 49_152;

/// The longest message.
const MESSAGE: usize = 1_052_672;

// The message is the one that its pieces say.
fn is_keyed(key: &MessageKey, message: &Message) -> bool
    ensures { result ≡ is_keyed key.now message.now }
{
    kind_of(&message.body) == key.kind
        && message.from.0 == key.from.0
        && number_in(&message.body) == key.number
}

// By the message that pieces made.
fn sort_keyed(
    alloc: Global,
    site: &[Name],
    me: HostId,
    key: &MessageKey,
    message: Message,
) -> Result<Sorted, Memory>
    requires { MaySend message }
    ensures event { IfOk result (λ s. taken_of s ≡ event_keyed (record { me = me; site = site.now }) key.now (Ok message)) }
    ensures sane { IfOk result (λ s. IfEvent s (λ e. IsTrue (is_sane_event (length site.now) e))) }
    ensures right { IfOk result (λ s. IfEvent s (λ e. IsTrue (is_right_event (length site.now) e))) }
{
    if !is_keyed(key, &message) {
        return Ok(ignored(IgnoreCause::NotAsked));
    }
    sort_read(alloc, site, me, message)
}

// By the bytes that pieces made.
fn sort_made(
    alloc: Global,
    site: &[Name],
    me: HostId,
    key: &MessageKey,
    bytes: &[u8],
) -> Result<Sorted, Memory>
    ensures event { IfOk result (λ s. taken_of s ≡ event_made (record { me = me; site = site.now }) key.now bytes.now) }
    ensures sane { IfOk result (λ s. IfEvent s (λ e. IsTrue (is_sane_event (length site.now) e))) }
    ensures right { IfOk result (λ s. IfEvent s (λ e. IsTrue (is_right_event (length site.now) e))) }
{
    if bytes.len() > MESSAGE {
        return Ok(ignored(IgnoreCause::TooLong));
    }
    match read_message(alloc, bytes) {
        Err(fault) => unread(fault),
        Ok(message) => sort_keyed(alloc, site, me, key, message),
    }
}

// Gathers a piece.
fn feed(
    alloc: Global,
    site: &[Name],
    me: HostId,
    piece: Piece,
    gather: &mut Gather,
) -> Result<Came, Memory>
    requires { IsPiece piece }
    ensures event { IfOk result (λ came. taken_by came ≡ event_fed (record { me = me; site = site.now }) (key_of piece) (fed piece gather.old).whole) }
    ensures gathered { OnOk result (gather.new ≡ (fed piece gather.old).after) }
    ensures sane { IfOk result (λ came. IfTaken came (λ e. IsTrue (is_sane_event (length site.now) e))) }
    ensures right { IfOk result (λ came. IfTaken came (λ e. IsTrue (is_right_event (length site.now) e))) }
{
    let key = MessageKey::of(&piece);
    let mut whole = Vec::new(alloc);
    match gather.feed(piece, &mut whole) {
        Err(memory) => Err(memory),
        Ok(Fed::NotYet) => Ok(Came::Piece),
        Ok(Fed::Whole) => match sort_made(alloc, site, me, &key, whole.as_slice()) {
            Err(memory) => Err(memory),
            Ok(sorted) => Ok(came_as(sorted)),
        },
    }
}

// It is for this host.
fn is_here(me: HostId, piece: &Piece) -> bool
    ensures { result ≡ same_host me piece.now.to }
{
    me.0 == piece.to.0
}

// It comes from a host of the site.
fn is_known(site: &[Name], piece: &Piece) -> bool
    ensures { result ≡ is_of_site (length site.now) piece.now.from }
{
    usize::from(piece.from.0) < site.len()
}

// Gathers a piece that is for this host, and comes from a host of the site.
fn take_piece(
    alloc: Global,
    site: &[Name],
    me: HostId,
    piece: Piece,
    gather: &mut Gather,
) -> Result<Came, Memory>
    requires { IsPiece piece }
    ensures event { IfOk result (λ came. taken_by came
        ≡ (heard_by (record { me = me; site = site.now }) gather.old (in_datagram piece) (Some piece)).event) }
    ensures gathered { OnOk result (gather.new
        ≡ (heard_by (record { me = me; site = site.now }) gather.old (in_datagram piece) (Some piece)).gathered) }
    ensures sane { IfOk result (λ came. IfTaken came (λ e. IsTrue (is_sane_event (length site.now) e))) }
    ensures right { IfOk result (λ came. IfTaken came (λ e. IsTrue (is_right_event (length site.now) e))) }
{
    if !is_here(me, &piece) {
        return Ok(Came::Ignored(IgnoreCause::NotHere));
    }
    if !is_known(site, &piece) {
        return Ok(Came::Ignored(IgnoreCause::Stranger));
    }
    feed(alloc, site, me, piece, gather)
}

// The piece that a message is, or the message.
fn piece_in(message: Message) -> Result<Piece, Message>
    ensures piece { IfOk result (λ piece. piece_in message ≡ Some piece) }
    ensures other { IfErr result (λ other. (other ≡ message) × (piece_in message ≡ None)) }
{
    let Message { from, to, body } = message;
    match body {
        Body::Piece {
            kind,
            port,
            number,
            index,
            count,
            bytes,
        } => Ok(Piece {
            from,
            to,
            kind,
            port,
            number,
            index,
            count,
            bytes,
        }),
        body => Err(Message { from, to, body }),
    }
}

// By a message that was read.
fn take_message(
    alloc: Global,
    site: &[Name],
    me: HostId,
    message: Message,
    gather: &mut Gather,
) -> Result<Came, Memory>
    requires may { MaySend message }
    requires form { (piece : Piece) → message ≡ in_datagram piece → IsPiece piece }
    ensures event { IfOk result (λ came. taken_by came ≡ (heard_said (record { me = me; site = site.now }) gather.old (Ok message)).event) }
    ensures gathered { OnOk result (gather.new ≡ (heard_said (record { me = me; site = site.now }) gather.old (Ok message)).gathered) }
    ensures sane { IfOk result (λ came. IfTaken came (λ e. IsTrue (is_sane_event (length site.now) e))) }
    ensures right { IfOk result (λ came. IfTaken came (λ e. IsTrue (is_right_event (length site.now) e))) }
{
    match piece_in(message) {
        Ok(piece) => take_piece(alloc, site, me, piece, gather),
        Err(message) => match sort_read(alloc, site, me, message) {
            Err(memory) => Err(memory),
            Ok(sorted) => Ok(came_as(sorted)),
        },
    }
}

/// What a datagram comes to, where these messages came in part. What is too long for a datagram is
/// passed over.
pub(crate) fn hear(
    alloc: Global,
    site: &[Name],
    me: HostId,
    bytes: &[u8],
    gather: &mut Gather,
) -> Result<Came, Memory>
    ensures event { IfOk result (λ c. taken_by c ≡ (heard (record { me = me; site = site.now }) gather.old (came bytes.now)).event) }
    ensures gathered { OnOk result (gather.new ≡ (heard (record { me = me; site = site.now }) gather.old (came bytes.now)).gathered) }
    ensures sane { IfOk result (λ c. IfTaken c (λ e. IsTrue (is_sane_event (length site.now) e))) }
    ensures right { IfOk result (λ c. IfTaken c (λ e. IsTrue (is_right_event (length site.now) e))) }
{
    if bytes.len() > DATAGRAM {
        return Ok(Came::Ignored(IgnoreCause::TooLong));
    }
    what_is_read_is_in_form();
    match read_message(alloc, bytes) {
        Err(fault) => match unread(fault) {
            Err(memory) => Err(memory),
            Ok(sorted) => Ok(came_as(sorted)),
        },
        Ok(message) => take_message(alloc, site, me, message, gather),
    }
}
