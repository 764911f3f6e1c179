//! Laws of starts and losses, over every list of events with stops at any call.
ghost use Rattle.std.specs.Prelude.{◌≡◌, List, ℕ, None, IsTrue};
ghost use Rattle.std.specs.List.{list_all};
ghost use Rattle.nqs_rules.specs.World.{Act, seen_of};
ghost use Rattle.nqs_rules.specs.Run.{run_of, states_of};
ghost use Rattle.nqs_rules.specs.Net.{entries};
ghost use Rattle.nqs_laws.specs.Sane.{AreSane, IsSite};
ghost use Rattle.nqs_laws.specs.Words.{is_counted, is_never_lost, is_carried_counted, is_carried_never_lost, offers_pass, boots_tell};

/// A request was started once more than it was lost exactly where it runs, and elsewhere as often
/// as it was lost. An offer carries both numbers along, equal.
pub fn starts_are_counted()
    ensures hosts { (site : List (List ℕ)) (acts : List Act) → IsSite site → AreSane acts
        → IsTrue (list_all is_counted (entries (states_of (run_of site acts).world))) }
    ensures offers { (site : List (List ℕ)) (acts : List Act) → IsSite site → AreSane acts
        → IsTrue (list_all (offers_pass is_carried_counted) (run_of site acts).world.packets) }
{}

/// A request that isn't rerunnable was never lost, so that it was started at most once. Offers
/// carry that along.
pub fn only_rerunnable_requests_start_again()
    ensures hosts { (site : List (List ℕ)) (acts : List Act) → IsSite site → AreSane acts
        → IsTrue (list_all is_never_lost (entries (states_of (run_of site acts).world))) }
    ensures offers { (site : List (List ℕ)) (acts : List Act) → IsSite site → AreSane acts
        → IsTrue (list_all (offers_pass is_carried_never_lost) (run_of site acts).world.packets) }
{}

/// That a request starts again or is lost is told right behind a boot of its host, and nowhere
/// else.
pub fn boots_tell_what_ran()
    ensures { (site : List (List ℕ)) (acts : List Act) → IsSite site → AreSane acts → IsTrue (boots_tell None (seen_of (run_of site acts))) }
{}
