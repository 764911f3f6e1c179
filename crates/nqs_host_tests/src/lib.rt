//! Tests of the crates of plans, handovers, lists, steps and tables: each module has those of one
//! crate. They stand apart from the crates, so that a crate isn't proved once more for its tests.
#![tactic(auto)]

#[cfg(test)]
mod handover;
#[cfg(test)]
mod host;
#[cfg(test)]
mod lists;
#[cfg(test)]
mod numbers;
#[cfg(test)]
mod offers;
#[cfg(test)]
mod plans;
#[cfg(test)]
mod stage;
#[cfg(test)]
mod step;
#[cfg(test)]
mod table;
