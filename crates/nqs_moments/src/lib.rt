//! Moments as texts.
#![tactic(auto)]

mod laws;
mod moment;

pub use laws::{date_is_moment, printed_reads_back, read_prints_back};
pub use moment::{MomentFault, PrintFault, print_moment, read_moment};
