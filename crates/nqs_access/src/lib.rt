//! Who may do what: the ranks of users, the way into a queue, and the edits of lists of users.
//!
//! Each call is the rule of its name in `nqs_rules` (specs/Access.antt); `docs/rules.md` says them
//! in words. No call takes memory.
#![tactic(auto)]

mod apply;
mod check;
mod names;
mod ranks;
mod way;

pub use apply::apply_access;
pub use check::check_access;
pub use names::{drop_name, known_queue};
pub use nqs_types::{Entry, Rank};
pub use ranks::{may_command, rank};
pub use way::may_use;
