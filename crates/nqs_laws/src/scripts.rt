//! The law of scripts, over every list of events on 1 to 16 hosts, with stops at any call, losses,
//! repeats and reorderings of packets.
ghost use Rattle.std.specs.Prelude.{List, ℕ};
ghost use Rattle.nqs_rules.specs.World.{Act, new_world};
ghost use Rattle.nqs_rules.specs.Run.{run_of, states_of};
ghost use Rattle.nqs_laws.specs.History.{history};
ghost use Rattle.nqs_laws.specs.Sane.{AreSane, IsSite};
ghost use Rattle.nqs_laws.specs.Scripts.{AreKept};

/// A request keeps the script that was submitted with it, in whatever queue of whatever host it
/// lies, however it came there; so does each promise of it, and each offer of it that was ever
/// sent.
pub fn scripts_are_kept()
    ensures { (site : List (List ℕ)) (acts : List Act) → IsSite site → AreSane acts
        → AreKept (states_of (new_world site)) (history acts (new_world site)) (run_of site acts).world }
{}
