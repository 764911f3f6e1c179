//! Why a line of a schedule is bad.

/// Why a line of a schedule is bad; the first of its words that is at fault decides.
#[derive(Clone, Copy, Debug, PartialEq, Eq)]
pub enum Cause {
    /// The last line has no line feed.
    Unended,
    UnknownWord,
    MissingWord,
    ExtraWord,
    BadName,
    BadNumber,
    BadQuote,
    BadRequest,
    NoSuchHost,
    /// The line of hosts is not the first.
    LateHosts,
    HostTwice,
    TooManyHosts,
    OutputTooLong,
}
