//! Questions and answers: the words of qstat and qdel, and the text of each reply.
//!
//! specs/Words.antt says what the words ask for; the texts stand in nqs_rules
//! (specs/Transcript.antt). docs/commands.md has both in plain words.
#![tactic(auto)]

mod laws;
mod refusal;
mod reply;
mod words;

pub use laws::words_as_written;
pub use nqs_put::{put_decimal, put_host, put_id, put_line_end, put_named, put_text, put_word};
pub use reply::print_reply;
pub use words::{NotNames, read_qdel, read_qstat};
