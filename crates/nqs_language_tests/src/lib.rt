//! Tests of the crates of the lines that people type and of schedules: each module has those of one
//! crate. They stand apart from the crates, so that a crate isn't proved once more for its tests.
#![tactic(auto)]

#[cfg(test)]
mod lines;
#[cfg(test)]
mod qmgr;
#[cfg(test)]
mod qsub;
#[cfg(test)]
mod query;
#[cfg(test)]
mod schedule;
#[cfg(test)]
mod text;
#[cfg(test)]
mod words;
