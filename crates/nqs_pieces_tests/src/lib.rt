//! Tests of `nqs_pieces`: messages that are cut (`cuts`) and gathered (`gathers`), of bytes that
//! `made` makes. They stand apart from the crate, so that it isn't proved once more for its tests.
#![tactic(auto)]

#[cfg(test)]
mod cuts;
#[cfg(test)]
mod gathers;
#[cfg(test)]
mod made;
