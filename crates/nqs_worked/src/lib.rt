//! Worked schedules: what the written rules of `nqs_rules` make of schedules whose transcripts were
//! written by hand.
//!
//! Each law says that a schedule of `specs/` has this transcript, or that a definition has this
//! value, and is proved by computing it: a rule that says something else than was meant is refused
//! here. `docs/rules.md` names the places.
#![tactic(auto)]

pub mod checkpoints;
pub mod definitions;
pub mod handovers;
pub mod many_handovers;
pub mod network;
pub mod one_host;
pub mod queue_edits;
pub mod small_host;
pub mod small_network;
pub mod stops;
pub mod waits;
