//! Laws for callers: what the cutting and the gathering of messages come to.
//!
//! A caller calls the function for its contract; it does nothing.

ghost use Rattle.std.specs.Prelude.{◌≡◌, ◌<◌, ◌≤◌, List, ℕ, length};
ghost use Rattle.std.specs.List.{flat_map, range_with_len};
ghost use Rattle.nqs_pieces.specs.declared.gather.Gathered.{Gathered};
ghost use Rattle.nqs_pieces.specs.declared.piece.Piece.{Piece};
ghost use Rattle.nqs_pieces.specs.Feeds.{ForgetsTheWhole, HoldsEight, MakesTheMessage};
ghost use Rattle.nqs_pieces.specs.Pieces.{IsPiece, bytes_of, piece_count, piece_of};

/// A message's pieces, one behind the other, are the message.
pub fn pieces_are_the_message()
    ensures { (message : List ℕ) → flat_map (bytes_of message) (range_with_len 0 (piece_count message)) ≡ message }
{}

/// The pieces of a message of 48,001 to 1,052,672 bytes are in form.
pub fn pieces_are_in_form()
    ensures { (message : List ℕ) (head : Piece) (index : ℕ) → 48000 < length message → length message ≤ 1052672
        → index < piece_count message → IsPiece (piece_of message head index) }
{}

/// The pieces of a message make it, in any order and with repeats, beside pieces of others.
pub fn pieces_make_the_message()
    ensures { (message : List ℕ) (head : Piece) → MakesTheMessage message head }
{}

/// A message that was made whole is awaited no more.
pub fn whole_messages_are_forgotten()
    ensures { (piece : Piece) (messages : List Gathered) (message : List ℕ) → ForgetsTheWhole piece messages message }
{}

/// Eight messages at most stay eight at most.
pub fn eight_messages_stay_eight()
    ensures { (piece : Piece) (messages : List Gathered) → HoldsEight piece messages }
{}
