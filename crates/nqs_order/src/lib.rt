//! The scheduler: which request of which queue starts next.
//!
//! `limits` has the limits of queues and complexes, `eligible` the first row of a queue that may
//! start, `choice` the next start of the host. `by_index` has the next start of the host, told by
//! an index (`nqs_index`) with no look at all rows, `next` the one of both that the host's rows
//! allow, and `laws` that the index's keys stand in the order of the rows.
//! `nqs_rules/specs/Order.antt` has the rules.
#![tactic(auto)]

mod by_index;
mod choice;
mod eligible;
mod laws;
mod limits;
mod next;

pub use by_index::pick_by;
pub use choice::pick;
pub use eligible::{comes_before, first_eligible, is_eligible, kind_allows, user_allows};
pub use laws::keys_order_rows;
pub use limits::{complex_allows, global_allows, run_allows, within_limits};
pub use next::pick_next;
pub use nqs_index::{
    Class, ClassLine, Counter, Counters, Entry, Index, Key, Line, QueueLines, Seat, Steps, Tally,
};
pub use nqs_types::Choice;
