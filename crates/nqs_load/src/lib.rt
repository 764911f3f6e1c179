//! The order of a pipe queue's destinations by load, and the edits of qmgr that put them into it.
//! No program uses it yet.
//!
//! `order` has loads and their order: known before unknown, less before more, ties as given. `plan`
//! has the edits, `laws` what follows for callers: what they make of a queue, and which destination
//! is tried behind them. `specs/Load.antt` has the order, `specs/Balance.antt` the edits.
#![tactic(auto)]

pub mod laws;
mod order;
mod plan;
#[cfg(test)]
mod tests;

pub use order::{Load, is_before, load_order};
pub use plan::plan_order;
