//! What comes back of what a host sends out, and how its state stands without its stored bytes:
//! definitions and laws that hold over every disk.
#![tactic(auto)]

pub mod laws;
