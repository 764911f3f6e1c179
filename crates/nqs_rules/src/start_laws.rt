//! Laws of the scheduler and of starts.
ghost use Rattle.std.specs.Prelude.{◌≡◌, ℕ, ◌<◌, ◌≤◌, List, [], ◌∷◌, Option, None, Some, IfSome, is_some, true};
ghost use Rattle.std.specs.List.{list_any};
ghost use Rattle.std.specs.Option.{option_map};
ghost use Rattle.nqs_state.specs.State.{State, Plain};
ghost use Rattle.nqs_types.specs.declared.queue.QueueDef.{QueueDef};
ghost use Rattle.nqs_base.specs.declared.extent.Extent.{Extent};
ghost use Rattle.nqs_types.specs.declared.change.Change.{Change};
ghost use Rattle.nqs_rules.specs.Applied.{applied};
ghost use Rattle.nqs_rules.specs.InOrder.{IsInOrder};
ghost use Rattle.nqs_rules.specs.Measure.{starts_of, starts_left};
ghost use Rattle.nqs_rules.specs.Order.{first_eligible, next_queue, pick};
ghost use Rattle.nqs_rules.specs.Picked.{has_eligible, may_start, PlainRow, IsFirstRow, IsNextQueue, IsPicked};
ghost use Rattle.nqs_rules.specs.Plain.{map_state};
ghost use Rattle.nqs_rules.specs.Start.{start};
ghost use Rattle.nqs_rules.specs.Stepped.{Stepped, map_stepped};
ghost use Rattle.nqs_rules.specs.Starts.{after_step, starts, after_starts};

/// A start hands stored bytes on, and does nothing else by them.
pub fn start_looks_at_no_bytes()
    ensures start { (f : Extent → List ℕ) (now : ℕ) (s : State Extent) → start now (map_state f s) ≡ option_map (map_stepped f) (start now s) }
    ensures pick { (f : Extent → List ℕ) (now : ℕ) (s : State Extent) → pick now (map_state f s) ≡ pick now s }
    ensures starts_left { (f : Extent → List ℕ) (s : State Extent) → starts_left (map_state f s) ≡ starts_left s }
{}

/// The first row of a queue: none that may start from it comes before. There is one exactly where
/// some row may start from the queue.
pub fn first_row_comes_first()
    ensures first { (d : QueueDef) (now : ℕ) (s : Plain) → IfSome (first_eligible d now s) (λ p. IsFirstRow d now s p.0 p.1) }
    ensures some { (d : QueueDef) (now : ℕ) (s : Plain) → is_some (first_eligible d now s) ≡ has_eligible now s d }
{}

/// The next queue: none that may start a row is greater, and of equal ones it was created first.
/// There is one exactly where some queue may start a row.
pub fn next_queue_is_greatest()
    ensures next { (now : ℕ) (s : Plain) → IfSome (next_queue now s) (λ p. IsNextQueue now s p.0 p.1) }
    ensures some { (now : ℕ) (s : Plain) → is_some (next_queue now s) ≡ list_any (may_start now s) s.queues }
{}

/// The scheduler picks the first row of the next queue, and picks something exactly where some
/// queue may start a row.
pub fn first_row_of_next_queue_is_picked()
    ensures picked { (now : ℕ) (s : Plain) → IfSome (pick now s) (IsPicked now s) }
    ensures some { (now : ℕ) (s : Plain) → is_some (pick now s) ≡ list_any (may_start now s) s.queues }
{}

/// A start changes its host, and lowers how many starts there may still be: for one row never more
/// than 33 times 17 and 16.
pub fn start_lowers_starts_left()
    ensures lowers { (now : ℕ) (s : Plain) (x : Stepped (List ℕ)) (c : Change (List ℕ)) → IsInOrder s → start now s ≡ Some x → x.change ≡ Some c
        → starts_left (applied c s) < starts_left s }
    ensures changes { (now : ℕ) (s : Plain) (x : Stepped (List ℕ)) → IsInOrder s → start now s ≡ Some x → is_some x.change ≡ true }
    ensures few { (s : Plain) (r : PlainRow) → IsInOrder s → starts_of s r ≤ 577 }
{}

/// Starts go on until there is none: there are none where nothing starts, where one starts it is
/// followed by the starts from the state after it, and after them all nothing starts.
pub fn starts_go_on_until_none()
    ensures none { (now : ℕ) (s : Plain) → start now s ≡ None → starts now s ≡ [] }
    ensures some { (now : ℕ) (s : Plain) (x : Stepped (List ℕ)) → IsInOrder s → start now s ≡ Some x → starts now s ≡ x ∷ starts now (after_step x s) }
    ensures end { (now : ℕ) (s : Plain) → IsInOrder s → start now (after_starts (starts now s) s) ≡ None }
{}
