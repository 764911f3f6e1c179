//! Laws for callers: which order it is, what the edits make of a queue, and which destination is
//! tried behind them.
//!
//! A caller calls the function for its contract; it does nothing.
ghost use Rattle.std.specs.Prelude.{◌≡◌, ◌∷◌, [], ℕ, List, true, codes};
ghost use Rattle.nqs_base.specs.declared.extent.Extent.{Extent};
ghost use Rattle.nqs_state.specs.State.{State};
ghost use Rattle.nqs_rules.specs.Conf.{is_pipe_queue};
ghost use Rattle.nqs_rules.specs.Edits.{change_queue};
ghost use Rattle.nqs_rules.specs.Find.{find_queue};
ghost use Rattle.nqs_rules.specs.Routing.{dests_of, destination, may_try};
ghost use Rattle.nqs_types.specs.declared.queue.QueueDef.{QueueDef};
ghost use Rattle.nqs_types.specs.declared.request.Row.{Row};
ghost use Rattle.nqs_load.specs.declared.order.Load.{Load};
ghost use Rattle.nqs_load.specs.Load.{IsLoadOrder, load_order};
ghost use Rattle.nqs_load.specs.Balance.{ChoosesLeast, HasJust, are_fitting, dests_in, edits_applied, first_edit, order_edits, with_dests};
ghost use Rattle.nqs_load.specs.Worked.{big_cray, hosts, load_of, small_cray, small_front, three, with_road};

/// Loads have one order, and `load_order` is it.
pub fn one_order_of_loads()
    ensures is { (loads : List Load) → IsLoadOrder loads (load_order loads) }
    ensures one { (loads order : List Load) → IsLoadOrder loads order → order ≡ load_order loads }
{}

/// Behind the edits the queue's list is the order, and nothing else of the state is another.
pub fn edits_make_the_order()
    ensures state { (pipe : List ℕ) (loads : List Load) (s : State Extent) → HasJust pipe loads s
        → edits_applied (order_edits pipe s.site (load_order loads)) s ≡ change_queue pipe (with_dests (dests_in (load_order loads))) s }
    ensures dests { (pipe : List ℕ) (loads : List Load) (s : State Extent) → HasJust pipe loads s
        → dests_of (find_queue pipe (edits_applied (order_edits pipe s.site (load_order loads)) s)) ≡ dests_in (load_order loads) }
{}

/// None of the edits is refused, where the queue is a pipe queue.
pub fn edits_are_allowed()
    ensures { (pipe : List ℕ) (loads : List Load) (s : State Extent) (just : HasJust pipe loads s) → is_pipe_queue just.queue ≡ true
        → are_fitting (order_edits pipe s.site (load_order loads)) s ≡ true }
{}

/// Behind the edits the destination of a request is the least loaded of those that may be tried.
pub fn the_least_is_tried()
    ensures { (pipe : List ℕ) (loads : List Load) (s t : State Extent) (queue : QueueDef) (now : ℕ) (row : Row Extent) → HasJust pipe loads s
        → t ≡ edits_applied (order_edits pipe s.site (load_order loads)) s → find_queue pipe t ≡ Some queue
        → ChoosesLeast (λ load. may_try now t row load.dest) (load_order loads) (destination queue now t row) }
{}

/// Worked by hand: three loads, a queue that has them, ties, and none.
pub fn worked_loads()
    ensures three { load_order three ≡ small_front ∷ small_cray ∷ big_cray ∷ [] }
    ensures edits { (pipe : List ℕ) → order_edits pipe hosts (load_order three)
        ≡ first_edit pipe hosts big_cray ∷ first_edit pipe hosts small_cray ∷ first_edit pipe hosts small_front ∷ [] }
    ensures just { (s : State Extent) → HasJust (codes "out") three (with_road s) }
    ensures dests { (s : State Extent) → dests_of (find_queue (codes "out") (edits_applied (order_edits (codes "out") hosts (load_order three)) (with_road s)))
        ≡ dests_in (small_front ∷ small_cray ∷ big_cray ∷ []) }
    ensures ties { let more = load_of (codes "more") 0 (Some 1) in let lost = load_of (codes "lost") 0 None in
        load_order (big_cray ∷ small_front ∷ lost ∷ more ∷ []) ≡ small_front ∷ more ∷ big_cray ∷ lost ∷ [] }
    ensures none { (pipe : List ℕ) → order_edits pipe hosts (load_order []) ≡ [] }
{}
