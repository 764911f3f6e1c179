//! Schedules and transcripts: `read_schedule` reads recorded events, `print_seen` writes what is
//! seen of them.
//!
//! The grammar stands apart from the reading: specs/Written.antt (how words are written in a line),
//! specs/Forms.antt (a row for each kind of line), specs/Spelled.antt (which words spell which
//! event, and their first fault), specs/Sayings.antt (all words of a line), specs/Schedule.antt
//! (lines). What the code does word by word is in specs/Lines.antt, specs/Plans.antt and
//! specs/Says.antt; `laws` says that the two agree. The texts of what is seen stand in nqs_rules
//! (specs/Transcript.antt).
#![tactic(auto)]

mod cause;
mod draw;
mod event;
mod laws;
mod line;
mod plan;
mod reader;
mod seen;
mod summary;
mod values;
mod words;

pub use cause::Cause;
pub use draw::generate;
pub use laws::{one_reading, quoted_words, words_as_written};
pub use line::{ReadError, Says};
pub use plan::{Plan, Verb};
pub use reader::{LineFault, Schedule, ScheduleFault, read_schedule};
pub use seen::print_seen;
pub use summary::{Summary, print_summary, summarize, summary_of};
pub use words::{LineWord, LineWords, Next};
