//! What each kind of change makes of a host's state, but for edits.
//!
//! `rows` has the requests that stay on this host, `hands` the handovers from it, `promises` those
//! to it, `outputs` the files and the stages of outputs, `peers` what is known of other hosts,
//! `boot` the start after a stop. Each call is the rule of its name in `nqs_rules`
//! (specs/Applied.antt); `docs/rules.md` says them in words. No call needs memory: the room was
//! made before, and the index is given up where it can't grow.
#![tactic(auto)]

pub mod boot;
pub mod hands;
pub mod outputs;
pub mod peers;
pub mod promises;
pub mod rows;
