//! Tests of what stands on a disk below the rules: each module has those of one crate, `forms`
//! those of a journal's two forms, and `texts` what faults say. They stand apart from the crates,
//! so that a crate isn't proved once more for its tests.
#![tactic(auto)]

#[cfg(test)]
mod codec;
#[cfg(test)]
mod forms;
#[cfg(test)]
mod journal;
#[cfg(test)]
mod spool;
#[cfg(test)]
mod texts;
