//! The clients and shepherds over a wire in memory, and the program `nqs` over a machine in memory:
//! its forms, how it ends, and what the machine tells. They stand apart from the crates, so that a
//! crate isn't proved once more for its tests.
#![tactic(auto)]

#[cfg(test)]
mod callers;
#[cfg(test)]
mod clients;
mod disks;
#[cfg(test)]
mod forms;
mod kept;
mod machine;
#[cfg(test)]
mod shown;

pub use kept::{Images, Lending, MemAround, Returned};
pub use machine::{MemMachine, MemNotes};
