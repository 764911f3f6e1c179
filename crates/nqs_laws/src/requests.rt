//! Laws of requests that a host acknowledged, for the whole network: over every list of events on 1
//! to 16 hosts, with stops at any call.
ghost use Rattle.std.specs.Prelude.{◌≡◌, ◌++◌, ◌||◌, List, ℕ, IsTrue, true, false, not};
ghost use Rattle.nqs_types.specs.declared.ids.RequestId.{RequestId};
ghost use Rattle.nqs_rules.specs.World.{Act, new_world};
ghost use Rattle.nqs_rules.specs.Run.{run_of, states_of};
ghost use Rattle.nqs_laws.specs.History.{history};
ghost use Rattle.nqs_laws.specs.Launches.{is_acknowledged, lies, was_taken_out};
ghost use Rattle.nqs_laws.specs.Sane.{AreSane, IsSite};
ghost use Rattle.nqs_laws.specs.Each.{InEachHistory, InEachRun, SomeKept};
ghost use Rattle.nqs_laws.specs.TakenOut.{WentOut};
ghost use Rattle.nqs_laws.specs.CutOff.{was_cut_off};
ghost use Rattle.nqs_laws.specs.HeldBy.{HoldsForCause};
ghost use Rattle.nqs_rules.specs.Applied.{applied};
ghost use Rattle.nqs_rules.specs.Edits.{change_at};

/// An acknowledged request lies in the network until it is deleted, ends, or is lost by a boot that
/// found it running, and not longer. It lies in one queue of one host, as no request lies in two
/// places.
pub fn acknowledged_requests_stay()
    ensures { (site : List (List ℕ)) (acts : List Act) → IsSite site → AreSane acts → (x : RequestId) → is_acknowledged x (history acts (new_world site)) ≡ true
        → lies x (states_of (run_of site acts).world) ≡ not (was_taken_out x (states_of (new_world site)) (history acts (new_world site))) }
{}

/// A request that was deleted, has ended or was lost never comes back, however the run goes on.
pub fn what_is_taken_out_stays_out()
    ensures { (site : List (List ℕ)) (acts more : List Act) → IsSite site → AreSane (acts ++ more) → (x : RequestId)
        → was_taken_out x (states_of (new_world site)) (history acts (new_world site)) ≡ true → lies x (states_of (run_of site (acts ++ more)).world) ≡ false }
{}

/// Each change that takes a request out of the network does it for one of three reasons: it is
/// deleted, it has finished, or a boot of its host found it running and it may not start again.
/// What was taken out went by such a change.
pub fn requests_go_out_for_a_reason()
    ensures each { InEachHistory (λ states h why c. (x : RequestId) → lies x states ≡ true → lies x (change_at h.0 (applied c) states) ≡ false
        → WentOut x states h why c) }
    ensures taken { InEachRun (λ first notes. (x : RequestId) → was_taken_out x first notes ≡ true → SomeKept (WentOut x) first notes) }
{}

/// No other request lies anywhere: each was acknowledged, or a stop cut off its submission, right
/// behind the change that its host kept.
pub fn no_other_request_lies()
    ensures { (site : List (List ℕ)) (acts : List Act) → IsSite site → AreSane acts → (x : RequestId) → lies x (states_of (run_of site acts).world) ≡ true
        → (is_acknowledged x (history acts (new_world site)) || was_cut_off x (states_of (new_world site)) (history acts (new_world site))) ≡ true }
{}

/// The system begins to hold a request only where it came 32 hops far, or where each destination
/// that its queue has then refused it.
pub fn the_system_holds_for_cause()
    ensures { InEachHistory HoldsForCause }
{}
