//! Command lines of qmgr. `read_qmgr` gives the command that a line says, or the first fault from
//! the left.
//!
//! specs/Lines.antt has the table of lines, by verb and second keyword, and how lines are read;
//! specs/Says.antt the same as a grammar, specs/Faults.antt which first fault a line has, and
//! specs/Law.antt that what is read is just that, and that whatever follows a fault's word, the
//! line has it. docs/commands.md has the lines in plain words. No call takes memory.
#![tactic(auto)]

mod edits;
mod head;
mod laws;
mod lines;
mod nouns;
mod options;
mod shape;
mod value;

pub use head::Head;
pub use laws::{
    lines_are_told_by_their_keywords, no_command_begins_with_a_fault, reads_what_is_said,
};
pub use lines::read_qmgr;
pub use options::Settings;
pub use value::Amount;
