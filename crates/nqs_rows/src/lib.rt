//! Requests: whether a submission, a deletion or an edit of one is refused, and what the edits make
//! of a state.
//!
//! `entry` has the way of a job into a queue, `meant` the request that is typed, `room` whether the
//! host has room and numbers for one more. `nqs_rules/specs/Rows.antt` has the rules;
//! `docs/rules.md` says them in words. No call needs memory.
#![tactic(auto)]

mod apply;
mod check;
mod entry;
mod meant;
mod room;
mod submit;

pub use apply::apply_rows;
pub use check::{check_delete, check_rows};
pub use entry::check_job;
pub use meant::meant_row;
pub use room::{arrivals_used, check_arrivals, is_host_full, offer_full};
pub use submit::check_submit;
