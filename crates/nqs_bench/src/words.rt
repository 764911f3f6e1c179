//! The words of the command line.
use nqs_text::read_u64;
use std::env::Args;

/// What is to be done, and how often.
pub(crate) enum Work {
    /// So many appends.
    Journal(u64),
    /// So many puts and frees, and the extents that are live at each.
    Spool(u64, u64),
}

fn number(word: Option<String>) -> Option<u64> {
    let word = word?;
    read_u64(word.as_bytes()).ok()
}

/// The work that the words name, the program's own name first.
pub(crate) fn work_of(words: Args) -> Option<Work> {
    let mut words = words.skip(1);
    let kind = words.next()?;
    let count = number(words.next())?;
    match kind.as_str() {
        "journal" => Some(Work::Journal(count)),
        "spool" => Some(Work::Spool(count, number(words.next())?)),
        _ => None,
    }
}
