//! Parts of texts, appended to a list of bytes.
//!
//! Each call appends one part, whose text is a definition of `nqs_rules` or a few words. Want of
//! memory leaves a front of the part behind what was there.
#![tactic(auto)]

mod put;

pub use put::{
    put_about, put_decimal, put_host, put_id, put_line_end, put_named, put_text, put_word,
};
