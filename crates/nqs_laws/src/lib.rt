//! Laws of whole runs of a network of hosts, with stops at any call of a device.
//! `specs/` has the words that the laws are said in; each law is the contract of a function.
#![tactic(auto)]

pub mod at_once;
pub mod causes;
pub mod checkpoints;
pub mod closings;
pub mod handovers;
pub mod heals;
pub mod journal_laws;
pub mod launches;
pub mod numbers;
pub mod requests;
pub mod rest;
pub mod runs;
pub mod scripts;
pub mod starts;
pub mod tables;
pub mod whole_heals;
