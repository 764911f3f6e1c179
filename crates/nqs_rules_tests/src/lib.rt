//! Tests of the crates of the types and of the rules in code that say what is refused and what
//! comes next: each module has those of one crate. They stand apart from the crates, so that a
//! crate isn't proved once more for its tests.
#![tactic(auto)]

#[cfg(test)]
mod access;
#[cfg(test)]
mod conf;
#[cfg(test)]
mod counted;
#[cfg(test)]
mod index;
#[cfg(test)]
mod limits;
#[cfg(test)]
mod order;
#[cfg(test)]
mod routing;
#[cfg(test)]
mod rows;
#[cfg(test)]
mod types;
