//! Laws of launches, for the whole network: over every list of events on 1 to 16 hosts, with stops
//! at any call.
ghost use Rattle.std.specs.Prelude.{List, ℕ, IsTrue, false};
ghost use Rattle.nqs_types.specs.declared.ids.RequestId.{RequestId};
ghost use Rattle.nqs_rules.specs.InOrder.{are_distinct};
ghost use Rattle.nqs_rules.specs.World.{Act, new_world};
ghost use Rattle.nqs_rules.specs.Run.{states_of};
ghost use Rattle.nqs_laws.specs.History.{history};
ghost use Rattle.nqs_laws.specs.Launches.{launches, same_launch, AreApart, AreStarted};
ghost use Rattle.nqs_laws.specs.Sane.{AreSane, IsSite};

/// No launch comes twice in the network: of all starts of jobs and prints that are seen at any
/// host, no two have the same request and the same number.
pub fn no_launch_comes_twice()
    ensures { (site : List (List ℕ)) (acts : List Act) → IsSite site → AreSane acts
        → IsTrue (are_distinct same_launch (launches (history acts (new_world site)))) }
{}

/// Between two launches of a request, anywhere in the network, a kept change has lost it and will
/// start it again.
pub fn launches_are_apart()
    ensures { (site : List (List ℕ)) (acts : List Act) → IsSite site → AreSane acts → (x : RequestId)
        → AreApart x (states_of (new_world site)) false (history acts (new_world site)) }
{}

/// What a host launches lies with it and runs then, and its number is one more than it was lost. A
/// request that isn't rerunnable is launched with number 1 alone, so at most once.
pub fn launches_are_numbered()
    ensures { (site : List (List ℕ)) (acts : List Act) → IsSite site → AreSane acts → AreStarted (states_of (new_world site)) (history acts (new_world site)) }
{}
