//! Laws of lines: whatever is read is within the limits that the rules of a host ask for, so that
//! each event of a schedule may be taken, and the laws of networks hold of each run of one. A
//! caller cites a law by calling it.

ghost use Rattle.nqs_language_acts.specs.Laws.{SubmissionsAreSane, EditsAreSane, ListsAreSane, DeletionsAreSane, SchedulesAreSane, GeneratedSchedulesAreSane};
ghost use Rattle.nqs_language_acts.specs.Laws.{ActsAreSane, SitesAreRight, GeneratedSitesAreRight};

/// Whatever the words of a submission and its script are, the job that they ask for has a name, a
/// priority of at most 63 and paths or none, and the script is short enough.
pub fn submissions_are_sane()
    ensures { SubmissionsAreSane }
{}

/// Whatever a line of qmgr says, the numbers of the edit that it asks for are within their limits.
pub fn edits_are_sane()
    ensures { EditsAreSane }
{}

/// Whatever the words of qstat and qdel are, what they ask for has no limit that it could pass.
pub fn lists_and_deletions_are_sane()
    ensures lists { ListsAreSane }
    ensures deletions { DeletionsAreSane }
{}

/// Where bytes are a schedule, each of its events asks for what is within the limits.
pub fn schedules_are_sane()
    ensures { SchedulesAreSane }
{}

/// So does each event of a schedule that a seed gives.
pub fn generated_schedules_are_sane()
    ensures { GeneratedSchedulesAreSane }
{}

/// Where the events of a schedule are within the limits, so are the acts that they ask for.
pub fn acts_are_sane()
    ensures { ActsAreSane }
{}

/// A schedule that is read has a site of 1 to 16 hosts, and so has one that a seed gives for so
/// many.
pub fn sites_are_right()
    ensures read { SitesAreRight }
    ensures generated { GeneratedSitesAreRight }
{}
