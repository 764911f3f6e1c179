//! The network's law: where requests lie, over every list of events on 1 to 16 hosts, with stops at
//! any call, losses, repeats and reorderings of packets.
ghost use Rattle.std.specs.Prelude.{List, ℕ, IsTrue};
ghost use Rattle.nqs_rules.specs.World.{Act};
ghost use Rattle.nqs_rules.specs.Run.{run_of, states_of};
ghost use Rattle.nqs_rules.specs.Net.{is_table};
ghost use Rattle.nqs_rules.specs.World.{new_world};
ghost use Rattle.nqs_laws.specs.History.{history};
ghost use Rattle.nqs_laws.specs.Licensed.{AreLicensed};
ghost use Rattle.nqs_laws.specs.Sane.{AreSane, IsSite};

/// No request lies in two places: the states of the hosts always tell one table.
pub fn no_request_lies_in_two_places()
    ensures { (site : List (List ℕ)) (acts : List Act) → IsSite site → AreSane acts → IsTrue (is_table (states_of (run_of site acts).world)) }
{}

/// Whatever change a host keeps, also one that a stop cuts off from its outputs, leaves each
/// request where it is or takes it by one step, of a kind that the cause of the change licenses.
pub fn each_change_is_licensed()
    ensures { (site : List (List ℕ)) (acts : List Act) → IsSite site → AreSane acts → AreLicensed (states_of (new_world site)) (history acts (new_world site)) }
{}
