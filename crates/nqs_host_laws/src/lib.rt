//! What steps make can be kept, and what they say can be read: laws of steps and starts for the
//! store.
#![tactic(auto)]

mod edits;
pub mod laws;
mod values;
