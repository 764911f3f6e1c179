//! Routing: which destination of a pipe queue is tried for a request, and what a refusal or a
//! silence leaves; and what a host knows of the handovers and promises with another.
//!
//! A destination that refused a request isn't tried again for it, and one on another host only
//! while fewer than eight handovers to that host are open, its next number is less than 64 above
//! the least of theirs, and the host isn't waited for.
//! `nqs_rules/specs/Routing.antt` has the rules; `docs/rules.md` says them in words. No call takes
//! memory.
#![tactic(auto)]

mod dests;
mod hands;
mod note;

pub use dests::{destination, destination_in, is_reachable, refuses};
pub use hands::{
    find_peer, has_promise, has_room_for_hand, is_before, is_closed, is_hand_to, is_offered_for,
    is_open_number, is_outlived, is_within_window, low,
};
pub use note::{note_refusal, note_silence};
