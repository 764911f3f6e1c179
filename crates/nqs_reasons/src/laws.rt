//! Laws of reasons: what they say of what the scheduler starts.

ghost use Rattle.std.specs.Prelude.{◌≡◌, ◌≢◌, ℕ, ◌≤◌, ◌&&◌, Bool, true, false, List, [], ◌∷◌, slice_get, Option, None, Some, IfSome, is_some};
ghost use Rattle.std.specs.List.{list_any, list_all};
ghost use Rattle.nqs_state.specs.State.{State, Plain};
ghost use Rattle.nqs_base.specs.declared.extent.Extent.{Extent};
ghost use Rattle.nqs_types.specs.declared.ids.Dest.{Dest};
ghost use Rattle.nqs_types.specs.declared.request.Row.{Row};
ghost use Rattle.nqs_types.specs.declared.queue.QueueDef.{QueueDef};
ghost use Rattle.nqs_types.specs.declared.rule.Choice.{Choice};
ghost use Rattle.nqs_rules.specs.Find.{find_queue};
ghost use Rattle.nqs_rules.specs.InOrder.{IsInOrder};
ghost use Rattle.nqs_rules.specs.Order.{is_eligible, pick};
ghost use Rattle.nqs_rules.specs.Picked.{PlainRow, may_start, IsFirstRow, IsNextQueue, row_place};
ghost use Rattle.nqs_rules.specs.Plain.{map_row, map_state};
ghost use Rattle.nqs_rules.specs.Routing.{may_try};
ghost use Rattle.nqs_rules.specs.Reasons.{Conditions, first_failing, reason_of, reasons_of, count_before};
ghost use Rattle.nqs_rules.specs.Answers.{answer_of};
ghost use Rattle.nqs_reasons.specs.Chosen.{is_next, may_be_tried, IsFirstFailing, IsAtOrBefore};
ghost use Rattle.nqs_reasons.specs.Says.{Has, Says};
ghost use Rattle.nqs_rules.specs.Why.{why_lines};
ghost use Rattle.nqs_types.specs.declared.reason.Reason.{Reason};
ghost use Rattle.nqs_types.specs.declared.reason.Reason.TheVariants.{NoQueue, NoDestination, Next};
ghost use Rattle.nqs_types.specs.declared.reason.DestAnswer.TheVariants.{NoHost};
ghost use Rattle.nqs_types.specs.declared.reason.DestAnswer.{DestAnswer};

/// What is told of a list of conditions is told of the first that fails, and nothing else is.
pub fn first_failing_is_told()
    ensures told { (cs : Conditions Reason) (last : Reason) → IsFirstFailing cs last (first_failing cs last) }
    ensures only { (cs : Conditions Reason) (last answer : Reason) → IsFirstFailing cs last answer → answer ≡ first_failing cs last }
{}

/// Each reason of a request of a host says what `Says` has for it, in words of the state: it is
/// told just where that is so.
pub fn each_reason_says_what_it_says()
    ensures says { (now : ℕ) (s : Plain) (place : ℕ) (r : PlainRow) (x : Reason) → slice_get s.rows place ≡ Some r → Has (reasons_of now s r) x
        → Says now s r x }
    ensures told { (now : ℕ) (s : Plain) (place : ℕ) (r : PlainRow) (x : Reason) → slice_get s.rows place ≡ Some r → Says now s r x
        → Has (reasons_of now s r) x }
{}

/// All that keeps a request is told, the first condition that fails before the others. Nothing else
/// than that it is next is told just where its queue may start a request and it may start from
/// there; and then that alone.
pub fn all_reasons_are_told()
    ensures first { (now : ℕ) (s : Plain) (r : PlainRow) → (rest : List Reason) × (reasons_of now s r ≡ reason_of now s r ∷ rest) }
    ensures complete { (now : ℕ) (s : Plain) (place : ℕ) (r : PlainRow) (d : QueueDef) → slice_get s.rows place ≡ Some r → find_queue r.queue s ≡ Some d
        → list_all is_next (reasons_of now s r) ≡ (may_start now s d && is_eligible d now s r) }
    ensures alone { (now : ℕ) (s : Plain) (place : ℕ) (r : PlainRow) (n : ℕ) → slice_get s.rows place ≡ Some r → Has (reasons_of now s r) (Next n)
        → reasons_of now s r ≡ Next n ∷ [] }
{}

/// A request of a host is next exactly where its queue may start a request, and it is one that may
/// start from there. In a host in order each request has a queue.
pub fn next_request_may_start()
    ensures next { (now : ℕ) (s : Plain) (place : ℕ) (r : PlainRow) (d : QueueDef) → slice_get s.rows place ≡ Some r → find_queue r.queue s ≡ Some d
        → is_next (reason_of now s r) ≡ (may_start now s d && is_eligible d now s r) }
    ensures no_queue { (now : ℕ) (s : Plain) (r : PlainRow) → find_queue r.queue s ≡ None → is_next (reason_of now s r) ≡ false }
    ensures queue { (now : ℕ) (s : Plain) (place : ℕ) (r : PlainRow) → IsInOrder s → slice_get s.rows place ≡ Some r → reason_of now s r ≢ NoQueue }
{}

/// Where a request is next something starts: it, or a request before it. So where nothing is left
/// to start, as after each event of a host, none is next. Where none of its queue comes before it,
/// it is its queue's first, and starts where its queue is the next one. Those that come before it
/// are some of those that wait before it.
pub fn next_request_waits_for_those_before()
    ensures some { (now : ℕ) (s : Plain) (place : ℕ) (r : PlainRow) → slice_get s.rows place ≡ Some r → is_next (reason_of now s r) ≡ true
        → is_some (pick now s) ≡ true }
    ensures before { (now : ℕ) (s : Plain) (place : ℕ) (r : PlainRow) → IsInOrder s → slice_get s.rows place ≡ Some r → is_next (reason_of now s r) ≡ true
        → IfSome (pick now s) (IsAtOrBefore s place r) }
    ensures rest { (now : ℕ) (s : Plain) (place : ℕ) (r : PlainRow) → pick now s ≡ None → slice_get s.rows place ≡ Some r
        → is_next (reason_of now s r) ≡ false }
    ensures first { (now : ℕ) (s : Plain) (place : ℕ) (r : PlainRow) (d : QueueDef) → slice_get s.rows place ≡ Some r → find_queue r.queue s ≡ Some d
        → reason_of now s r ≡ Next 0 → IsFirstRow d now s place r }
    ensures starts { (now : ℕ) (s : Plain) (place : ℕ) (r : PlainRow) (queue_place : ℕ) (d : QueueDef) → IsInOrder s → slice_get s.rows place ≡ Some r
        → reason_of now s r ≡ Next 0 → IsNextQueue now s queue_place d → find_queue r.queue s ≡ Some d → IfSome (pick now s) (λ c. row_place c ≡ place) }
    ensures waiting { (now : ℕ) (s : Plain) (r : PlainRow) (n : ℕ) → reason_of now s r ≡ Next n → n ≤ count_before now s r }
{}

/// What the scheduler starts is next, and none of its queue comes before it. So no request with
/// another reason starts.
pub fn only_next_requests_start()
    ensures started { (now : ℕ) (s : Plain) (c : Choice) (r : PlainRow) → IsInOrder s → pick now s ≡ Some c → slice_get s.rows (row_place c) ≡ Some r
        → reason_of now s r ≡ Next 0 }
    ensures others { (now : ℕ) (s : Plain) (c : Choice) (place : ℕ) (r : PlainRow) → IsInOrder s → pick now s ≡ Some c → slice_get s.rows place ≡ Some r
        → is_next (reason_of now s r) ≡ false → row_place c ≢ place }
{}

/// A destination may be tried exactly where its answer says so. Where the reason is that none may,
/// each has another answer.
pub fn answers_say_what_may_be_tried()
    ensures tried { (now : ℕ) (s : Plain) (r : PlainRow) (dest : Dest) → may_be_tried (answer_of now s r dest) ≡ may_try now s r dest }
    ensures none { (now : ℕ) (s : Plain) (r : PlainRow) (d : QueueDef) → find_queue r.queue s ≡ Some d → reason_of now s r ≡ NoDestination
        → list_any (λ dest. may_be_tried (answer_of now s r dest)) d.dests ≡ false }
    ensures host { (now : ℕ) (s : Plain) (r : PlainRow) (d : QueueDef) (k : ℕ) (dest : Dest) → IsInOrder s → find_queue r.queue s ≡ Some d
        → slice_get d.dests k ≡ Some dest → answer_of now s r dest ≢ NoHost }
{}

/// None of it depends on stored bytes, and so nothing that is told of a request does.
pub fn reason_looks_at_no_bytes()
    ensures reason { (f : Extent → List ℕ) (now : ℕ) (s : State Extent) (r : Row Extent) → reason_of now (map_state f s) (map_row f r) ≡ reason_of now s r }
    ensures reasons { (f : Extent → List ℕ) (now : ℕ) (s : State Extent) (r : Row Extent)
        → reasons_of now (map_state f s) (map_row f r) ≡ reasons_of now s r }
    ensures count { (f : Extent → List ℕ) (now : ℕ) (s : State Extent) (r : Row Extent)
        → count_before now (map_state f s) (map_row f r) ≡ count_before now s r }
    ensures answer { (f : Extent → List ℕ) (now : ℕ) (s : State Extent) (r : Row Extent) (dest : Dest)
        → answer_of now (map_state f s) (map_row f r) dest ≡ answer_of now s r dest }
    ensures lines { (f : Extent → List ℕ) (now : ℕ) (s : State Extent) (r : Row Extent)
        → why_lines now (map_state f s) (map_row f r) ≡ why_lines now s r }
{}
