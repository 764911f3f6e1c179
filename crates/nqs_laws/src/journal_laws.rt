//! Laws of the two journals of a host: which of them a root names, before a checkpoint, behind it,
//! and after a stop in it.
ghost use Rattle.std.specs.Prelude.{◌≡◌, ◌⊎◌, ℕ, Bool, MatchBool, List};
ghost use Rattle.nqs_base.specs.declared.tear.Tear.{Tear};
ghost use Rattle.nqs_rules.specs.Journals.{active, resting, turned, torn_root, names_same, behind_byte};

/// Two roots name one journal where `names_same` says so, and else each names the one that rests by
/// the other.
pub fn roots_name_one_journal()
    ensures { (a b : List ℕ) → MatchBool (names_same a b) (active b ≡ active a) (active b ≡ resting a) }
{}

/// A checkpoint makes the journal active that was resting, and lets the other one rest. Of the root
/// it changes the first byte only.
pub fn checkpoints_turn_over()
    ensures active { (root : List ℕ) → active (turned root) ≡ resting root }
    ensures resting { (root : List ℕ) → resting (turned root) ≡ active root }
    ensures bytes { (root : List ℕ) → behind_byte (turned root) ≡ behind_byte root }
{}

/// Whatever a tear leaves of a root in a checkpoint names the journal that was active or the one
/// that the checkpoint wrote, and differs in the first byte only.
pub fn torn_roots_name_a_journal()
    ensures either { (tear : Tear) (root : List ℕ)
        → (active (torn_root tear root) ≡ active root) ⊎ (active (torn_root tear root) ≡ active (turned root)) }
    ensures bytes { (tear : Tear) (root : List ℕ) → behind_byte (torn_root tear root) ≡ behind_byte root }
{}
