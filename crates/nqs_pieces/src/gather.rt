//! What has come of messages in pieces, until they are whole. `specs/Gathering.antt` says what a
//! gathering is and what a piece makes of it, `specs/Feeds.antt` what that comes to.

ghost use Rattle.std.specs.Prelude.{◌≡◌, ◌<◌, ◌≤◌, ◌==◌, false, true, List, ℕ, [], length, filter, not, slice_set, slice_index_or, IfOk, MatchOption};
ghost use Rattle.nqs_pieces.specs.declared.gather.Gathered.{Gathered};
ghost use Rattle.nqs_pieces.specs.Gathering.{Answers, begun, is_whole, key_of, same_key, with_bytes, with_piece};
ghost use Rattle.nqs_pieces.specs.Standing.{StandsAt, joined};
ghost use Rattle.nqs_pieces.specs.Feeds.{is_awaited};
ghost use Rattle.nqs_pieces.specs.Pieces.{IsPiece};

use crate::piece::{MessageKey, Piece};
use crate::slots::Slots;
use nqs_base::{Bytes, Memory};
use std::alloc::Global;
use std::marker::Model;

// How many messages are gathered at most.
const MESSAGES: usize = 8;

/// What feeding a piece came to.
#[derive(Clone, Copy, Debug, PartialEq, Eq)]
pub enum Fed {
    /// The piece was the last that lacked: the message is whole.
    Whole,
    /// Other pieces of the message lack.
    NotYet,
}

/// What has come of one message.
#[derive(Drop)]
pub struct Gathered {
    pub(crate) key: MessageKey,
    pub(crate) slots: Slots,
}

/// Messages of which pieces have come and others lack, eight at most, in the order of their first
/// pieces. Contracts see the list.
#[derive(Drop)]
pub struct Gather {
    messages: Vec<Gathered>,
}

impl Model for Gather {
    ghost use Rattle.std.specs.Prelude.{List, length, ◌≤◌};
    ghost use Rattle.nqs_pieces.specs.declared.gather.Gathered.{Gathered};

    ghost Value = { List Gathered };

    ghost view = { λ g. g.messages.items };

    ghost invariant = { λ g. length g.messages.items ≤ 8 };
}

// A message of which this piece has come alone.
fn first_of(alloc: Global, piece: Piece) -> Result<Gathered, Memory>
    requires form { IsPiece piece }
    ensures { IfOk result (λ message. message ≡ with_piece piece (begun piece)) }
{
    let key = MessageKey::of(&piece);
    let mut slots = Slots::new(alloc, piece.count)?;
    slots.put(usize::from(piece.index), piece.bytes);
    Ok(Gathered { key, slots })
}

impl Gather {
    /// No message. It takes no memory.
    pub fn new(alloc: Global) -> Gather
        ensures { result ≡ [] }
    {
        Gather {
            messages: Vec::new(alloc),
        }
    }

    /// Forgets all messages. It takes no memory.
    pub fn clear(&mut self)
        ensures { self.new ≡ [] }
    {
        self.messages.clear();
    }

    /// Takes a piece in form. With the last that lacked of its message, that is appended to `whole`
    /// and forgotten here; else `whole` stays as it is. A ninth message drops the first. At want of
    /// memory all is as before, without the piece.
    pub fn feed(&mut self, piece: Piece, whole: &mut Vec<u8>) -> Result<Fed, Memory>
        requires form { IsPiece piece }
        ensures { Answers piece self.old self.new whole.old.items whole.new.items result }
    {
        let key = MessageKey::of(&piece);
        match self.place_of(&key) {
            None => self.begin(piece),
            Some(place) => self.go_on(place, piece, whole),
        }
    }

    // The place of the message of a key.
    fn place_of(&self, key: &MessageKey) -> Option<usize>
        ensures { MatchOption result (is_awaited key.now self.now ≡ false) (λ place. StandsAt key.now self.now place) }
    {
        for (place, message) in self.messages.iter().enumerate() {
            if message.key.is(key) {
                return Some(place);
            }
        }
        None
    }

    // Takes the first piece of a message.
    fn begin(&mut self, piece: Piece) -> Result<Fed, Memory>
        requires form { IsPiece piece }
        requires new { is_awaited (key_of piece) self.old ≡ false }
        ensures { (buffer : List ℕ) → Answers piece self.old self.new buffer buffer result }
    {
        let message = first_of(*self.messages.allocator(), piece)?;
        self.messages.push(message)?;
        if self.messages.len() > MESSAGES {
            let _first = self.messages.remove(0);
        }
        Ok(Fed::NotYet)
    }

    // Takes a piece of a message of which others have come.
    fn go_on(&mut self, place: usize, piece: Piece, whole: &mut Vec<u8>) -> Result<Fed, Memory>
        requires form { IsPiece piece }
        requires at { StandsAt (key_of piece) self.old place }
        ensures { Answers piece self.old self.new whole.old.items whole.new.items result }
    {
        if self.count_at(place) != usize::from(piece.count) {
            return self.begin_anew(place, piece);
        }
        if !self.lacks_only(place, usize::from(piece.index)) {
            self.put_in(place, usize::from(piece.index), piece.bytes);
            return Ok(Fed::NotYet);
        }
        self.complete(place, piece, whole)
    }

    // In how many pieces the message of a place comes.
    fn count_at(&self, place: usize) -> usize
        requires { place < length self.now }
        ensures count { (message : Gathered) → result ≡ length (slice_index_or self.now place message).slots }
        ensures few { length self.now ≤ 8 }
    {
        self.messages[place].slots.len()
    }

    // Whether nothing but perhaps this index lacks of the message of a place.
    fn lacks_only(&self, place: usize, index: usize) -> bool
        requires inside { place < length self.now }
        requires placed { (message : Gathered) → index < length (slice_index_or self.now place message).slots }
        ensures { (message : Gathered) (bytes : List ℕ) → result ≡ is_whole (with_bytes index bytes (slice_index_or self.now place message).slots) }
    {
        self.messages[place].slots.lacks_only(index)
    }

    // Puts bytes into the message of a place.
    fn put_in(&mut self, place: usize, index: usize, bytes: Bytes)
        requires inside { place < length self.old }
        requires placed { (message : Gathered) → index < length (slice_index_or self.old place message).slots }
        ensures { (message : Gathered) → self.new ≡ slice_set self.old place (joined index bytes (slice_index_or self.old place message)) }
    {
        let message = &mut self.messages[place];
        message.slots.put(index, bytes);
    }

    // Puts a message that begins anew in its place.
    fn begin_anew(&mut self, place: usize, piece: Piece) -> Result<Fed, Memory>
        requires form { IsPiece piece }
        requires at { StandsAt (key_of piece) self.old place }
        requires other { (message : Gathered) → (length (slice_index_or self.old place message).slots == piece.count) ≡ false }
        ensures { (buffer : List ℕ) → Answers piece self.old self.new buffer buffer result }
    {
        let message = first_of(*self.messages.allocator(), piece)?;
        self.messages[place] = message;
        Ok(Fed::NotYet)
    }

    // Makes a message whole, of which just this piece lacks.
    fn complete(&mut self, place: usize, piece: Piece, whole: &mut Vec<u8>) -> Result<Fed, Memory>
        requires form { IsPiece piece }
        requires at { StandsAt (key_of piece) self.old place }
        requires counted { (message : Gathered) → (length (slice_index_or self.old place message).slots == piece.count) ≡ true }
        requires last { (message : Gathered) → is_whole (with_bytes piece.index piece.bytes (slice_index_or self.old place message).slots) ≡ true }
        ensures { Answers piece self.old self.new whole.old.items whole.new.items result }
    {
        // What follows can't fail once the room is there.
        let total = self.messages[place].slots.total();
        whole.reserve(total.saturating_add(piece.bytes.len()))?;
        let key = MessageKey::of(&piece);
        self.put_in(place, usize::from(piece.index), piece.bytes);
        self.messages[place].slots.append_to(whole);
        self.forget(&key);
        Ok(Fed::Whole)
    }

    // Forgets the message of a key.
    fn forget(&mut self, key: &MessageKey)
        ensures { self.new ≡ filter (λ (message : Gathered). not (same_key message.key key.now)) self.old }
    {
        self.messages.retain(|message| !message.key.is(key));
    }
}
