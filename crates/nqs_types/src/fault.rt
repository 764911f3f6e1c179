//! What is wrong with a line of qmgr, or with the words of qsub, qstat and qdel.

/// The first fault of a line of qmgr, with its place in the line, in bytes from 0.
#[derive(Clone, Copy, Debug, PartialEq, Eq)]
pub enum GrammarFault {
    UnknownWord(u64),
    Ambiguous(u64),
    Missing(u64),
    Extra(u64),
    BadName(u64),
    BadNumber(u64),
}

/// Why the words of a command can't be read.
#[derive(Clone, Copy, Debug, PartialEq, Eq)]
pub enum WordsCause {
    Unknown,
    Missing,
    Repeated,
    /// Both `-e` and `-eo`.
    Both,
    BadName,
    BadNumber,
    BadMoment,
    BadPath,
    ScriptTooLong,
}

/// The first fault of the words of a command.
#[derive(Clone, Copy, Debug, PartialEq, Eq)]
pub struct WordsFault {
    pub cause: WordsCause,
    /// The line of the script, from 1; 0 for the command's own words.
    pub line: u32,
    /// The word, from 1; 0 where the script as a whole is at fault.
    pub word: u32,
}
