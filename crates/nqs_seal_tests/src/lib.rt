//! Tests of `nqs_seal`: `tags` by outside vectors, `wires` over one in memory, `keys` as they stand
//! in a file, `callers` and their words. They stand apart from the crate, so that it isn't proved
//! once more for its tests.
#![tactic(auto)]

#[cfg(test)]
mod callers;
#[cfg(test)]
mod keys;
#[cfg(test)]
mod tags;
#[cfg(test)]
mod wires;
