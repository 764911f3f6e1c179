//! The edits of queues and of a host's parameters.
//!
//! Each call is the rule of its name in `nqs_rules` (specs/Conf.antt); `docs/rules.md` says them in
//! words. No call needs memory.
#![tactic(auto)]

mod apply;
mod check;
mod create;
mod dest;

pub use apply::{apply_conf, is_queued_in};
pub use check::check_conf;
