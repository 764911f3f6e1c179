//! Laws for callers: words are read as what they say, or by their first fault.

ghost use Rattle.nqs_query.specs.Spelled.{ReadsStats, ReadsDeletes};

/// Words of qstat and of qdel ask for something or have a first fault, never both, and are read so.
pub fn words_as_written()
    ensures stats { ReadsStats }
    ensures deletes { ReadsDeletes }
{}
