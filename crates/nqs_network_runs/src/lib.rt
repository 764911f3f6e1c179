//! Runs of a schedule, read from a source or generated, on hosts in memory: their words, their
//! transcript or summary in a sink, and how they end. `nqs_replay` is the program that makes one
//! with standard input and output.
#![tactic(auto)]

pub mod laws;
pub mod replay;
mod report;
mod run;
pub mod status;
mod unparsed;
mod words;
