//! A sorted index of a host's rows: what may start, in order, and how many rows count under what
//! a limit asks for.
//!
//! `key` has what orders rows, `steps` the count of comparisons, `class` what waiting rows of a
//! queue have in common, `line` the waiting rows of a class, `classes` the lines of a queue,
//! `lines` those of all queues, `tally` the counts, `runs` the running requests, `seat` what an
//! index sees of a row, `index` all of it. `specs/Indexed.antt` says which index stands for which
//! rows.
#![tactic(auto)]

mod class;
mod classes;
mod index;
mod key;
mod line;
mod lines;
mod nobody;
mod runs;
mod seat;
mod steps;
mod tally;

pub use class::Class;
pub use classes::{ClassLine, Classes};
pub use index::Index;
pub use key::Key;
pub use line::{Entry, Line};
pub use lines::{Lines, QueueLines};
pub use runs::{Run, Runs, is_less};
pub use seat::Seat;
pub use steps::Steps;
pub use tally::{Counter, Counters, Tally};
