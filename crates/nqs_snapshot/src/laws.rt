//! Laws for callers: what is read was written, which faults come, and bytes by hand.
//!
//! A caller calls the function for its contract; it does nothing.

ghost use Rattle.std.specs.Prelude.{◌≡◌, ℕ, ◌+◌, codes, [], ◌∷◌, length, Err};
ghost use Rattle.nqs_records.specs.declared.fault.RecordFault.TheVariants.{Short};
ghost use Rattle.nqs_base.specs.declared.extent.Extent.{Extent};
ghost use Rattle.nqs_state.specs.State.{State};
ghost use Rattle.nqs_rules.specs.Find.{host_at};
ghost use Rattle.nqs_rules.specs.Format.{formatted};
ghost use Rattle.nqs_snapshot.specs.Spelling.{state_field, old_state_field};
ghost use Rattle.nqs_snapshot.specs.Values.{MayStand, MayStandOld};
ghost use Rattle.nqs_snapshot.specs.Readings.{renewed};
ghost use Rattle.nqs_snapshot.specs.Sound.{HasShortParts, SoundIsInOrder};
ghost use Rattle.nqs_snapshot.specs.Reading.{snapshot_of, old_snapshot_of};
ghost use Rattle.nqs_snapshot.specs.Laws.{ReadsTheSpelling, SpellsOne};
ghost use Rattle.nqs_snapshot.specs.Faults.{FirstFaults};
ghost use Rattle.nqs_snapshot.specs.Alpha.{alpha_snapshot, old_alpha_snapshot};

/// Bytes are read as a state exactly where they are its spelling, its values are within their
/// limits, and it is in order and consistent. So what was written is read back, and nothing else.
/// The same holds of the spelling of version 1.
pub fn reads_the_spelling()
    ensures current { ReadsTheSpelling MayStand state_field snapshot_of }
    ensures old { ReadsTheSpelling MayStandOld old_state_field old_snapshot_of }
{}

/// Bytes spell one state at most by each of the spellings, be it in order or not.
pub fn spells_one()
    ensures current { SpellsOne MayStand state_field }
    ensures old { SpellsOne MayStandOld old_state_field }
{}

/// What a peer of version 1 becomes: of its closed number 0 the floor 0 and no closed number above
/// it, of each other one the floor below it, and the number alone above that.
pub fn old_peers_become()
    ensures none { (next wait stage_next stage_got : ℕ) → renewed (next, (0, (wait, (stage_next, stage_got))))
        ≡ record { next = next; floor = 0; closed = []; wait = wait; stage_next = stage_next; stage_got = stage_got } }
    ensures some { (next floor wait stage_next stage_got : ℕ) → renewed (next, (floor + 1, (wait, (stage_next, stage_got))))
        ≡ record { next = next; floor = floor; closed = (floor + 1) ∷ []; wait = wait; stage_next = stage_next; stage_got = stage_got } }
{}

/// The tests that a reader makes of a state are the rules' own.
pub fn sound_is_in_order()
    ensures { SoundIsInOrder }
{}

/// Which bytes have which first fault, apart from how they are read.
pub fn first_faults()
    ensures current { FirstFaults MayStand state_field snapshot_of }
    ensures old { FirstFaults MayStandOld old_state_field old_snapshot_of }
{}

/// A state whose values have fields has short scripts and outputs. What has fields by the spelling
/// of version 1 has fields.
pub fn what_stands_is_short()
    ensures short { (s : State Extent) → MayStand s → HasShortParts s }
    ensures old { (s : State Extent) → MayStandOld s → MayStand s }
{}

/// What a formatted host of host alpha alone is written as: 234 bytes, and 226 by the spelling of
/// version 1. Of no bytes at all the answer is `Short(0)`.
pub fn formatted_host()
    ensures bytes { state_field (formatted (host_at 0) (codes "alpha" ∷ [])) ≡ alpha_snapshot }
    ensures length { length alpha_snapshot ≡ 234 }
    ensures none { snapshot_of [] ≡ Err (Short 0) }
    ensures old_bytes { old_state_field (formatted (host_at 0) (codes "alpha" ∷ [])) ≡ old_alpha_snapshot }
    ensures old_length { length old_alpha_snapshot ≡ 226 }
    ensures old_none { old_snapshot_of [] ≡ Err (Short 0) }
{}
