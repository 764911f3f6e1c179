//! Tables of the rules: values of single definitions that were written by hand from
//! `docs/rules.md`.
//!
//! Each law says that a definition has these values, and is proved by computing them. The tables go
//! over each bound, each pair of neighbouring refusals, each kind of change and of datagram, so
//! that a definition in which one word is another is refused here. `docs/pinned.md` says what is
//! pinned and how that was counted.
#![tactic(auto)]

pub mod bounds;
pub mod checkpoints;
pub mod choices;
pub mod commands;
pub mod fitting;
pub mod made;
pub mod order_bounds;
pub mod reasons;
pub mod refusals;
pub mod steps;
pub mod texts;
pub mod two_queues;
pub mod worlds;
