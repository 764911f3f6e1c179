//! Devices: which one is free for a request, and the edits of devices.
//!
//! A device is busy while a running request is on it. `nqs_rules/specs/Devices.antt` has the rules;
//! `docs/rules.md` says them in words. No call takes memory.
#![tactic(auto)]

mod apply;
mod check;
mod free;

pub use apply::apply_devices;
pub use check::check_devices;
pub use free::{can_serve, free_device, is_busy, runs_on};
