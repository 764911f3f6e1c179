//! The outside in memory. Each fake keeps what it was asked with its answers, and tells it; the
//! calls that are to fail are given by their numbers. One that was refused memory for what it keeps
//! is starved, and tells nothing more.
#![tactic(auto)]

mod clock;
mod failures;
mod first;
mod launcher;
mod outlet;
mod printer;
mod runner;
mod wire;

pub use clock::ListClock;
pub use failures::Failures;
pub use launcher::{LauncherCall, MemLauncher};
pub use outlet::{FileWritten, MemOutlet};
pub use printer::{MemPrinter, Printed};
pub use runner::{JobRun, MemRunner};
pub use wire::{Item, Kept, MemWire};
