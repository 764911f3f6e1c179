//! A law for callers: what is read is what the grammar has.

ghost use Rattle.nqs_words.specs.Spelled.{ReadsRequests};

/// A text is read as a request exactly where it is written as one, and else for the one reason why
/// it isn't.
pub fn requests_as_written()
    ensures { ReadsRequests }
{}
