//! Laws on the definitions: what is read is what the grammar has, and what is answered else is the
//! first fault.

ghost use Rattle.nqs_qmgr.specs.Law.{ReadsWhatIsSaid, FindsTheFault, SaysOrFaults, NeverBoth, OneCommand, OneFault, NoCommandBeginsSo};
ghost use Rattle.nqs_qmgr.specs.Law.{EachLineIsTold, NounsAreOfLines};

/// A line is read as a command exactly where the grammar has it, and a fault is answered exactly
/// where the line has it first; each line says one command or has one first fault, never both.
pub fn reads_what_is_said()
    ensures said { ReadsWhatIsSaid }
    ensures faults { FindsTheFault }
    ensures one { SaysOrFaults }
    ensures never_both { NeverBoth }
    ensures one_command { OneCommand }
    ensures one_fault { OneFault }
{}

/// A fault other than a missing word is told at a word, and every line with the same words up to
/// that one has the same fault, whatever follows: no command begins with these words.
pub fn no_command_begins_with_a_fault()
    ensures { NoCommandBeginsSo }
{}

/// Each line of the table is told by its own keywords, and a keyword stands behind a verb just
/// where the table has a line of the two.
pub fn lines_are_told_by_their_keywords()
    ensures told { EachLineIsTold }
    ensures nouns { NounsAreOfLines }
{}
