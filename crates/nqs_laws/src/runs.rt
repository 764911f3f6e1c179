//! Laws of what holds at every moment of a run, whatever stops.
ghost use Rattle.std.specs.Prelude.{◌≡◌, List, ℕ};
ghost use Rattle.nqs_rules.specs.Notes.{sights};
ghost use Rattle.nqs_rules.specs.World.{World, Act, seen_of, new_world};
ghost use Rattle.nqs_rules.specs.Run.{run, run_of, states_of};
ghost use Rattle.nqs_laws.specs.History.{history};
ghost use Rattle.nqs_laws.specs.Sane.{AreSane, IsSite};
ghost use Rattle.nqs_laws.specs.Words.{replayed, IsInOrderAll};

/// A history tells what a run does: what is seen in it is what is seen of the run, and its kept
/// changes lead to the states of the hosts.
pub fn history_tells_the_run()
    ensures seen { (acts : List Act) (w : World) → sights (history acts w) ≡ seen_of (run acts w) }
    ensures states { (acts : List Act) (w : World) → AreSane acts → replayed (history acts w) (states_of w) ≡ states_of (run acts w).world }
{}

/// Over every list of events, with stops at any call, each host stays in order and each packet
/// within its limits.
pub fn hosts_stay_in_order()
    ensures { (site : List (List ℕ)) (acts : List Act) → IsSite site → AreSane acts → IsInOrderAll site (run_of site acts).world }
{}
