//! Submissions as qsub takes them: options among the command's words and in the lines of the script
//! that begin with `#@$`. `read_qsub` gives the submission, or the first fault; `read_qsub_of`
//! does so of a script that the submission keeps.
//!
//! specs/Options.antt says what each option says, specs/Script.antt which lines hold options,
//! specs/Qsub.antt which word wins and what a submission is. specs/Says.antt has the grammar and
//! specs/Faults.antt the first fault, both apart from the reading, and specs/Law.antt that what is
//! read is just that. docs/commands.md has it in plain words.
#![tactic(auto)]

mod laws;
mod options;
mod path;
mod reading;
mod script;
mod submission;
mod token;

pub use laws::{reads_what_is_said, the_last_folder_holds};
pub use options::{Flag, Options};
pub use path::is_path;
pub use reading::Progress;
pub use script::LineKind;
pub use submission::{read_qsub, read_qsub_of};
pub use token::{Place, Source, Stated, Token};
