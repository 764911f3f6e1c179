//! Laws of what comes back of a host's outputs: it comes to an end.

ghost use Rattle.std.specs.Prelude.{◌≡◌, ◌<◌, ◌≤◌, ℕ, List, [], Some, IsTrue, IfSome, map};
ghost use Rattle.std.specs.Option.{option_map};
ghost use Rattle.nqs_state.specs.State.{State, Plain};
ghost use Rattle.nqs_types.specs.declared.change.Change.{Change};
ghost use Rattle.nqs_types.specs.declared.event.Event.{Event};
ghost use Rattle.nqs_types.specs.declared.event.Output.{Output};
ghost use Rattle.nqs_base.specs.declared.extent.Extent.{Extent};
ghost use Rattle.nqs_rules.specs.Applied.{applied};
ghost use Rattle.nqs_rules.specs.InOrder.{IsInOrder};
ghost use Rattle.nqs_rules.specs.Measure.{starts_left};
ghost use Rattle.nqs_rules.specs.Start.{start};
ghost use Rattle.nqs_rules.specs.Starts.{after_change, after_step};
ghost use Rattle.nqs_rules.specs.Step.{step};
ghost use Rattle.nqs_rules.specs.Stepped.{Stepped, map_change, map_stepped, no_extent, plan_of, shown};
ghost use Rattle.nqs_back.specs.Back.{comebacks, comes_back};
ghost use Rattle.nqs_back.specs.Bare.{emptied, blank, without_bytes};

/// Of a start at most one event comes back: it sends out at most one launch, print or file.
pub fn one_comes_back_of_a_start()
    ensures { (now : ℕ) (s : Plain) → IfSome (start now s) (λ x. comebacks (map shown x.outputs) ≤ 1) }
{}

/// Of an event that came back nothing comes back again, and no more is left to start after it than
/// before.
pub fn what_came_back_is_over()
    ensures none { (e : Event) (s : Plain) → IsTrue (comes_back e) → comebacks (map shown (step e s).outputs) ≡ 0 }
    ensures starts_left { (e : Event) (s : Plain) → IsTrue (comes_back e) → starts_left (after_step (step e s) s) ≤ starts_left s }
{}

/// How many starts are left, and how much comes back, is told without the stored bytes: a start of
/// a host in order lowers what is left of it.
pub fn bytes_bring_nothing_back()
    ensures left { (s : State Extent) → starts_left (emptied s) ≡ starts_left s }
    ensures lowers { (now : ℕ) (s : State Extent) (x : Stepped (List ℕ)) → IsInOrder s → start now (emptied s) ≡ Some x
        → starts_left (emptied (after_step x (emptied s))) < starts_left s }
    ensures comebacks { (outputs : List Output) → comebacks (map without_bytes outputs) ≡ comebacks outputs }
{}

/// What is planned is what is done, but for the stored bytes: whatever extents are put into a
/// change, it makes the same state, and whatever bytes are read for the outputs, the same goes out.
pub fn plans_do_the_same_without_bytes()
    ensures made { (c d : Change Extent) (s : State Extent) → map_change (λ _. no_extent) d ≡ map_change (λ _. no_extent) c
        → emptied (applied d s) ≡ applied (blank c) (emptied s) }
    ensures done { (done : Stepped Extent) (s : State Extent) → after_change (option_map blank (plan_of done).change) (emptied s)
        ≡ emptied (after_step (map_stepped (λ _. []) done) (emptied s)) }
    ensures said { (done : Stepped Extent) → map without_bytes (plan_of done).outputs ≡ map without_bytes (map shown (map_stepped (λ _. []) done).outputs) }
{}
