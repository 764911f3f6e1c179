//! Long messages in pieces: a message that no datagram holds is cut into pieces (`cutting`), each
//! goes in a datagram of its own (`piece`), and the receiver gathers them in any order
//! (`gather`, `slots`). `laws` has what follows for callers.
#![tactic(auto)]

mod cutting;
mod gather;
pub mod laws;
mod piece;
mod slots;

pub use cutting::cut;
pub use gather::{Fed, Gather, Gathered};
pub use piece::{MessageKey, Piece};
pub use slots::Slots;
