//! Words of the lines that people type, and what they may say. A word is named by its place in the
//! line, so no list of words is made and no memory taken. specs/ has the definitions.
#![tactic(auto)]

mod amounts;
mod keyword;
mod keywords;
mod laws;
mod moments;
mod quoted;
mod values;
mod words;

pub use amounts::{size_of, time_of};
pub use keyword::{Keyword, spelling};
pub use keywords::{NoKeyword, keyword_of};
pub use laws::requests_as_written;
pub use moments::moment_of;
pub use quoted::{QuoteFault, Step, read_quoted};
pub use values::{NotNamed, dest_of, name_of, named_of, number_of, place_of, seq_of};
pub use words::{Gaps, Word, end_of, is_gap, next_word};
