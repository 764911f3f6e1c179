//! Values in order of creation, each found by its key.
#![tactic(auto)]

mod held;
mod slots;
mod table;

pub use table::Table;
