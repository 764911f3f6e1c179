//! Plans of one step of a host, as they are put together, and what several rules look up for them.
//!
//! `plan` has the shapes of plans, `each` what is made of the values of a table, `look` the numbers
//! of refusals, `copies` copies of what a plan holds. `nqs_rules/specs/Stepped.antt` says what a
//! plan is of a step. A call fails for want of memory alone; a plan that it was given is lost then.
#![tactic(auto)]

mod copies;
mod each;
mod look;
mod plan;

pub use copies::{copy_carried, copy_job};
pub use each::fold_each;
pub use look::refusal_number;
pub use plan::{add, add_kept, change_alone, change_storing, message, no_extent, quiet, says};
