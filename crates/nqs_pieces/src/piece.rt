//! A piece of a message, and the key by which pieces belong together. `specs/Gathering.antt` says
//! what the key is, `specs/Pieces.antt` when a piece is in form.

ghost use Rattle.std.specs.Prelude.{◌≡◌, true};
ghost use Rattle.nqs_pieces.specs.Gathering.{key_of, same_key};
ghost use Rattle.nqs_pieces.specs.Pieces.{IsPiece};

use nqs_base::Bytes;
use nqs_types::HostId;

// How many bytes each piece has but the last.
pub(crate) const PIECE_SIZE: usize = 48_000;

/// One of the pieces in which a message travels, with what the others have too.
#[derive(Drop)]
pub struct Piece {
    pub from: HostId,
    pub to: HostId,
    /// The number of the message's kind.
    pub kind: u8,
    /// The port of a client, or 0.
    pub port: u16,
    /// The number of the handover, or the token of a client.
    pub number: u64,
    /// Which piece this is, from 0.
    pub index: u8,
    /// How many pieces the message has: 2 to 22.
    pub count: u8,
    /// 48,000 bytes of the message, in its last piece 1 to 48,000.
    pub bytes: Bytes,
}

impl Piece {
    /// Whether it is in form: its count is 2 to 22, its index below that, and it has 48,000 bytes,
    /// or 1 to 48,000 where it is the last.
    pub fn is_in_form(&self) -> bool
        ensures form { result ≡ true → IsPiece self.now }
        ensures only { IsPiece self.now → result ≡ true }
    {
        if self.count < 2 || 22 < self.count {
            return false;
        }
        if self.count <= self.index {
            return false;
        }
        let length = self.bytes.len();
        if usize::from(self.index) + 1 < usize::from(self.count) {
            length == PIECE_SIZE
        } else {
            0 < length && length <= PIECE_SIZE
        }
    }
}

/// What the pieces of one message have in common: its sender, kind, port and number.
#[derive(Clone, Copy)]
pub struct MessageKey {
    pub from: HostId,
    pub kind: u8,
    pub port: u16,
    pub number: u64,
}

impl MessageKey {
    /// The key of a piece.
    pub fn of(piece: &Piece) -> MessageKey
        ensures { result ≡ key_of piece.now }
    {
        MessageKey {
            from: piece.from,
            kind: piece.kind,
            port: piece.port,
            number: piece.number,
        }
    }

    /// Whether it is this key.
    pub(crate) fn is(&self, other: &MessageKey) -> bool
        ensures { result ≡ same_key self.now other.now }
    {
        self.from.0 == other.from.0
            && self.kind == other.kind
            && self.port == other.port
            && self.number == other.number
    }
}
