//! Why a request doesn't run: the conditions of the scheduler's rule that fail, in order.
//!
//! `told` has which reasons they are, `before` which requests come before another, `answers` what a
//! destination of a pipe queue last answered, `text` the texts of both, `lines` all that is told of
//! a request. `nqs_rules/specs/Reasons.antt` has the conditions in their order, each with its
//! reason, and `Why.antt` beside it the texts. `laws` says that the conditions are those of the
//! scheduler. Only lists and texts take memory.
#![tactic(auto)]

mod answers;
mod before;
pub mod laws;
mod lines;
mod text;
mod told;

pub use answers::answer;
pub use lines::why_lines;
pub use text::{put_answer, put_reason};
pub use told::{count_before, reasons};
