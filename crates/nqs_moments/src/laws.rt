//! Laws for callers: reading and printing a moment undo each other, and its date is its text.
//!
//! A caller calls the function for its contract; it does nothing.

ghost use Rattle.nqs_moments.specs.Laws.{PrintedReadsBack, ReadPrintsBack, DateIsMoment};

/// A printed text reads as the moment that was printed, and as no other.
pub fn printed_reads_back()
    ensures { PrintedReadsBack }
{}

/// A moment that a text was read as prints as that text, and as no other.
pub fn read_prints_back()
    ensures { ReadPrintsBack }
{}

/// The date of a moment, counted on day by day from 1970, is the text of its second in the
/// calendar, for each moment that has one.
pub fn date_is_moment()
    ensures { DateIsMoment }
{}
