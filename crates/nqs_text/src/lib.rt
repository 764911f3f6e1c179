//! Plain numbers as texts.
#![tactic(auto)]

mod number;
mod printed;

pub use number::{NumberFault, decimal, read_u64};
pub use printed::digits;
