//! Runs of a host whose active journal is nearly full, so that changes begin with checkpoints.
ghost use Rattle.std.specs.Prelude.{◌≡◌, codes, [], ◌∷◌};
ghost use Rattle.nqs_base.specs.declared.tear.Tear.TheVariants.{Old, New, Mixed};
ghost use Rattle.nqs_rules.specs.Transcript.{lines};
ghost use Rattle.nqs_worked.specs.Checkpoints.{told_from, journals_from, stop_at_the_root, boot_stops_twice, start_turns_over, fuse_waits};

/// A stop at a checkpoint's write of the root. Where the tear leaves 255 the other journal is the
/// active one, and the boot's record is its first.
pub fn root_is_torn()
    ensures told { told_from [] 4095 (stop_at_the_root (Mixed 3)) ≡ lines (
        codes "Request 1.alpha submitted to queue: batch."
        ∷ codes "stop alpha"
        ∷ codes "boot alpha"
        ∷ codes "Request 2.alpha submitted to queue: batch."
        ∷ codes "table 2"
        ∷ codes "alpha batch 1.alpha QUEUED ann starts 0 lost 0"
        ∷ codes "alpha batch 2.alpha QUEUED bob starts 0 lost 0"
        ∷ []) }
    ensures left { journals_from [] 4095 (stop_at_the_root (Mixed 3)) ≡ (255 ∷ [], 2, record { root = 0; first = 0; second = 8; spool = 0 }) ∷ [] }
{}

/// Where the tear leaves the old root, the boot makes the checkpoint.
pub fn root_stays()
    ensures told { told_from [] 4095 (stop_at_the_root Old) ≡ lines (
        codes "Request 1.alpha submitted to queue: batch."
        ∷ codes "stop alpha"
        ∷ codes "boot alpha"
        ∷ codes "Request 2.alpha submitted to queue: batch."
        ∷ codes "table 2"
        ∷ codes "alpha batch 1.alpha QUEUED ann starts 0 lost 0"
        ∷ codes "alpha batch 2.alpha QUEUED bob starts 0 lost 0"
        ∷ []) }
    ensures left { journals_from [] 4095 (stop_at_the_root Old) ≡ (1 ∷ [], 2, record { root = 2; first = 0; second = 10; spool = 0 }) ∷ [] }
{}

/// A boot that is stopped twice in its checkpoint: whatever the tears leave, the third one boots.
pub fn boot_stops_twice()
    ensures told { told_from [] 4095 (boot_stops_twice New Old) ≡ lines (
        codes "Request 1.alpha submitted to queue: batch."
        ∷ codes "stop alpha"
        ∷ codes "stop alpha"
        ∷ codes "stop alpha"
        ∷ codes "boot alpha"
        ∷ codes "table 1"
        ∷ codes "alpha batch 1.alpha QUEUED ann starts 0 lost 0"
        ∷ []) }
    ensures same { told_from [] 4095 (boot_stops_twice (Mixed 2) New) ≡ told_from [] 4095 (boot_stops_twice New Old) }
    ensures old { journals_from [] 4095 (boot_stops_twice New Old) ≡ (1 ∷ [], 1, record { root = 2; first = 0; second = 6; spool = 0 }) ∷ [] }
    ensures new { journals_from [] 4095 (boot_stops_twice (Mixed 2) New) ≡ (1 ∷ [], 1, record { root = 0; first = 0; second = 4; spool = 0 }) ∷ [] }
    ensures seven { journals_from (0 ∷ []) 4095 (boot_stops_twice Old (Mixed 2)) ≡ (7 ∷ [], 1, record { root = 0; first = 0; second = 4; spool = 0 }) ∷ [] }
{}

/// A start may begin with a checkpoint too.
pub fn start_turns_over()
    ensures told { told_from [] 4094 start_turns_over ≡ lines (
        codes "Done."
        ∷ codes "Request 1.alpha submitted to queue: batch."
        ∷ codes "stop alpha"
        ∷ codes "boot alpha"
        ∷ codes "launch alpha 1.alpha 1"
        ∷ codes "table 1"
        ∷ codes "alpha batch 1.alpha RUNNING ann starts 1 lost 0"
        ∷ []) }
    ensures left { journals_from [] 4094 start_turns_over ≡ (1 ∷ [], 2, record { root = 0; first = 0; second = 8; spool = 0 }) ∷ [] }
{}

/// A fuse on the disk of the journal that rests waits for the next checkpoint and goes on behind
/// it.
pub fn fuse_waits()
    ensures told { told_from (1 ∷ []) 4095 fuse_waits ≡ lines (
        codes "Request 1.alpha submitted to queue: batch."
        ∷ codes "Request 2.alpha submitted to queue: batch."
        ∷ codes "stop alpha"
        ∷ codes "boot alpha"
        ∷ codes "table 2"
        ∷ codes "alpha batch 1.alpha QUEUED ann starts 0 lost 0"
        ∷ codes "alpha batch 2.alpha QUEUED ann starts 0 lost 0"
        ∷ []) }
    ensures left { journals_from (1 ∷ []) 4095 fuse_waits ≡ (0 ∷ [], 2, record { root = 0; first = 4; second = 0; spool = 0 }) ∷ [] }
{}
