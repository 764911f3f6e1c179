//! Laws on the definitions: what is read is what the grammar has, and what is answered else is the
//! first fault.

ghost use Rattle.nqs_qsub.specs.Law.{ReadsWhatIsSaid, FindsTheFault, SaysOrFaults, NeverBoth, OneFault, LastFolderHolds};

/// Words and a script are read as options exactly where the grammar has them, and a fault is
/// answered exactly where it is their first one; they give options or have one first fault, never
/// both.
pub fn reads_what_is_said()
    ensures said { ReadsWhatIsSaid }
    ensures faults { FindsTheFault }
    ensures one { SaysOrFaults }
    ensures never_both { NeverBoth }
    ensures one_fault { OneFault }
{}

/// Where the last two words are `-do` and a name, outputs stand in the folder of that name or there
/// is a fault, whatever stands before them and in the script: so a caller's own words don't take
/// them elsewhere.
pub fn the_last_folder_holds()
    ensures { LastFolderHolds }
{}
