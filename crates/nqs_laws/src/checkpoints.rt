//! Laws of checkpoints: what a change that begins with one shows and leaves, and what a stop within
//! one leaves.
ghost use Rattle.std.specs.Prelude.{◌≡◌, ℕ, ◌+◌, List, Some, true, false};
ghost use Rattle.std.specs.List.{list_all};
ghost use Rattle.nqs_types.specs.declared.ids.HostId.{HostId};
ghost use Rattle.nqs_types.specs.declared.change.Change.{Change};
ghost use Rattle.nqs_types.specs.declared.event.Output.{Output};
ghost use Rattle.nqs_types.specs.declared.world.Seen.{Seen};
ghost use Rattle.nqs_rules.specs.Applied.{applied};
ghost use Rattle.nqs_rules.specs.Stepped.{stored_parts};
ghost use Rattle.nqs_rules.specs.Notes.{Why};
ghost use Rattle.nqs_rules.specs.Journals.{active, resting, is_due};
ghost use Rattle.nqs_rules.specs.World.{World, Host, Act, Made, fate, host_of, ready, makes_change};
ghost use Rattle.nqs_rules.specs.Run.{run, run_of};
ghost use Rattle.nqs_laws.specs.Checkpoints.{stops_in_checkpoint, DifferInDisks, StopsAsItWas, Records, AreDisksSmall};
ghost use Rattle.nqs_laws.specs.Checkpoints.{AreWorldsAlike, AreRunsAlike, lays_none};

/// A checkpoint changes no state, nor what a host's disks told: it changes the root, the number of
/// records, whether the text is old and what is counted of calls, and nothing else.
pub fn checkpoints_change_no_state()
    ensures { (host : Host) → DifferInDisks host (ready host) }
{}

/// A checkpoint shows nothing: a change in whose checkpoint no fuse falls is, with all that is seen
/// of it, what it would be had the checkpoint been made before.
pub fn checkpoints_show_nothing()
    ensures { (h : HostId) (host : Host) (why : Why) (c : Change (List ℕ)) (first : List Seen) (outputs : List Output) (w : World)
        → stops_in_checkpoint host ≡ false → makes_change h host why c first outputs w ≡ makes_change h (ready host) why c first outputs w }
{}

/// Nothing of a run without fuses tells of its checkpoints: whatever the roots are, however many
/// records the journals have and whether they are old, the same is seen, and the worlds stay the
/// same but for the disks.
pub fn runs_show_no_checkpoints()
    ensures { (acts : List Act) (w v : World) → list_all lays_none acts ≡ true → AreWorldsAlike w v → AreRunsAlike (run acts w) (run acts v) }
{}

/// A stop among a checkpoint's calls leaves the state before the change, whatever the tear is, on
/// disks that tell it, and shows nothing but the stop.
pub fn stops_in_checkpoints_leave_the_state()
    ensures { (h : HostId) (host : Host) (why : Why) (c : Change (List ℕ)) (first : List Seen) (outputs : List Output) (w : World)
        → stops_in_checkpoint host ≡ true → StopsAsItWas h host w (makes_change h host why c first outputs w) }
{}

/// A change that is made leaves one record more in the active journal, or, where it began with a
/// checkpoint, one record in the journal that was resting, which is then the active one. Neither is
/// old then: the first change carries an old host over.
pub fn changes_are_recorded()
    ensures due { (h : HostId) (host : Host) (why : Why) (c : Change (List ℕ)) (first : List Seen) (outputs : List Output) (w : World)
        → host_of h w ≡ Some host → fate (stored_parts c) host ≡ Made → is_due host.is_old host.records ≡ true
        → Records h (applied c host.state) (resting host.root) 1 (makes_change h host why c first outputs w).world }
    ensures not_due { (h : HostId) (host : Host) (why : Why) (c : Change (List ℕ)) (first : List Seen) (outputs : List Output) (w : World)
        → host_of h w ≡ Some host → fate (stored_parts c) host ≡ Made → is_due host.is_old host.records ≡ false
        → Records h (applied c host.state) (active host.root) (host.records + 1) (makes_change h host why c first outputs w).world }
{}

/// In every run, whatever stops, no host's active journal has more than 4,096 records or is old,
/// and no root has more than one byte.
pub fn disks_stay_small()
    ensures { (site : List (List ℕ)) (acts : List Act) (h : HostId) (host : Host) → host_of h (run_of site acts).world ≡ Some host → AreDisksSmall host }
{}
