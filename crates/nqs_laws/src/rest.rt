//! The law of the scheduler over whole runs: starts go on as long as anything may start.
ghost use Rattle.std.specs.Prelude.{◌≡◌, List, ℕ, Some, true, false, ◌++◌, ◌∷◌, []};
ghost use Rattle.std.specs.List.{list_any};
ghost use Rattle.nqs_types.specs.declared.ids.HostId.{HostId};
ghost use Rattle.nqs_rules.specs.Picked.{may_start};
ghost use Rattle.nqs_rules.specs.World.{Act, Host, host_of};
ghost use Rattle.nqs_rules.specs.Run.{run_of};
ghost use Rattle.nqs_laws.specs.Sane.{AreSane, IsSite};
ghost use Rattle.nqs_laws.specs.Rest.{host_for};

/// After each event that a host took, or its boot, unless it was stopped, no started queue of the
/// host within its limits has a request that may start.
pub fn nothing_is_left_to_start()
    ensures { (site : List (List ℕ)) (acts : List Act) (a : Act) → IsSite site → AreSane (acts ++ a ∷ []) → (h : HostId)
        → host_for a (run_of site acts).world ≡ Some h → (host : Host) → host_of h (run_of site (acts ++ a ∷ [])).world ≡ Some host → host.up ≡ true
        → list_any (may_start (run_of site (acts ++ a ∷ [])).world.now host.state) host.state.queues ≡ false }
{}
