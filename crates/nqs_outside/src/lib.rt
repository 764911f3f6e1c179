//! The outside as traits. Each trait has a written meaning and, but for the clock, a count of
//! faults: a call fails only where the count rose. What a trait may tell, as lists of what it was
//! asked, the real outside doesn't tell.
#![tactic(auto)]

mod clock;
mod disk;
mod launcher;
mod memory;
mod outlet;
mod printer;
mod runner;
mod sink;
mod source;
mod whole;
mod wire;

pub use clock::Clock;
pub use disk::{Disk, Fused};
pub use launcher::Launcher;
pub use memory::{ListSource, MemSink, MemSource, SinkCall};
pub use outlet::Outlet;
pub use printer::Printer;
pub use runner::{RunEnd, Runner};
pub use sink::Sink;
pub use source::{Failed, Source};
pub use whole::{ReadStop, read_whole, write_whole};
pub use wire::{Address, Received, Wire};
