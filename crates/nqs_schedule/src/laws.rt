//! Laws of schedules.

ghost use Rattle.nqs_schedule.specs.Spelled.{ReadsEvents};
ghost use Rattle.nqs_schedule.specs.Sayings.{ReadsWords};
ghost use Rattle.nqs_schedule.specs.Written.{SplitsLines};
ghost use Rattle.nqs_schedule.specs.Laws.{HasOneSchedule, IsSaidOrBad, IsGoodOrBad, HasOneFault, QuotedReadsBack, ReadWasQuoted};

/// Bytes are a schedule in one way, or have one first bad line, and never both.
pub fn one_reading()
    ensures schedule { HasOneSchedule }
    ensures said_or_bad { IsSaidOrBad }
    ensures good_or_bad { IsGoodOrBad }
    ensures fault { HasOneFault }
{}

/// A word that is written within quotes is read back, with what follows it; and each quoted word of
/// a line is read from just the text that writes it.
pub fn quoted_words()
    ensures back { QuotedReadsBack }
    ensures written { ReadWasQuoted }
{}

/// A line holds words in one way and is split into them; they spell an event or have a first fault,
/// never both, and are read so: `events` for the words behind a first one that is known, `words`
/// for all words of a line.
pub fn words_as_written()
    ensures split { SplitsLines }
    ensures events { ReadsEvents }
    ensures words { ReadsWords }
{}
