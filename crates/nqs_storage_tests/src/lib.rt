//! Tests of the records and of a host over its disks: `records` and `node` have those of a crate
//! each, `failures` what is told after each call that failed, `old` what disks of the version
//! before tell, and `texts` what faults say. They stand apart from the crates, so that a crate
//! isn't proved once more for its tests.
#![tactic(auto)]

#[cfg(test)]
mod failures;
#[cfg(test)]
mod node;
#[cfg(test)]
mod old;
#[cfg(test)]
mod records;
#[cfg(test)]
mod texts;
