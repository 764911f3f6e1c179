//! Worked bytes: the journal of a formatted host, written by hand from `docs/formats.md`.
//!
//! Each law says that the formats of `nqs_journal` and `nqs_records` give these bytes, or what
//! bytes like these tell, and is proved by computing it.
#![tactic(auto)]

ghost use Rattle.std.specs.Prelude.{◌≡◌, codes, [], ◌∷◌, ◌++◌};
ghost use Rattle.nqs_types.specs.declared.change.Change.TheVariants.{Site};
ghost use Rattle.nqs_types.specs.declared.world.Which.TheVariants.{First};
ghost use Rattle.nqs_rules.specs.Find.{host_at};
ghost use Rattle.nqs_journal.specs.Text.{header, records, StandsFor};
ghost use Rattle.nqs_records.specs.Changes.{spelling};
ghost use Rattle.nqs_store.specs.Faults.{IsLoadFault};
ghost use Rattle.nqs_store.specs.declared.fault.LoadFault.TheVariants.{NotNqs};
ghost use Rattle.nqs_worked_bytes.specs.Alpha.{alpha_record, alpha_journal, old_alpha_journal, disks_with};

/// What a format of host alpha leaves, in a site of alpha alone: 31 bytes, which stand for one
/// record. So do the 31 bytes that a format of the version before left.
pub fn formatted_host()
    ensures bytes { header ++ records (spelling (Site (host_at 0) (codes "alpha" ∷ [])) ∷ []) ++ 0 ∷ [] ≡ alpha_journal 1 }
    ensures stands { StandsFor (alpha_journal 1) (alpha_record ∷ []) }
    ensures old { StandsFor old_alpha_journal (alpha_record ∷ []) }
{}

/// With 7 in place of its gate the record doesn't count. The bytes are a journal without records,
/// which is no host's from the gate's place on.
pub fn record_behind_a_closed_gate()
    ensures stands { StandsFor (alpha_journal 7) [] }
    ensures fault { IsLoadFault (disks_with (alpha_journal 7)) (NotNqs First 16) }
{}
