//! The written rules of a batch system of several hosts: definitions over plain states, and their
//! laws.
//! `docs/rules.md` says them in words, table by table.
#![tactic(auto)]

pub mod handover_laws;
pub mod laws;
pub mod order_laws;
pub mod start_laws;
