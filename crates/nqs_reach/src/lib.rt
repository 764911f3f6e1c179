//! What a peer can reach of a host, whatever it sends: definitions, their laws, and values by hand.
#![tactic(auto)]

pub mod laws;
pub mod worked;
