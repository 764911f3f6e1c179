//! Tests of the outside: `fakes` of the outside in memory, `real` of the adapters over the real
//! system, `sockets` of whom a client hears, `keys` of a site's key, `accounts` of who calls,
//! `leftovers` of what is left of jobs. They stand apart from the crates, so that a crate isn't
//! proved once more for its tests.
#![tactic(auto)]

#[cfg(test)]
mod accounts;
#[cfg(test)]
mod fakes;
#[cfg(test)]
mod keys;
#[cfg(test)]
mod leftovers;
#[cfg(test)]
mod real;
#[cfg(test)]
mod sockets;
