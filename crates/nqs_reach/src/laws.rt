//! Laws of what a peer can reach by what it sends. They ask nothing of a message; but for those of
//! running requests they ask nothing of the state either.
ghost use Rattle.std.specs.Prelude.{◌≡◌, ◌||◌, ℕ, List, map, false, Some, IsTrue};
ghost use Rattle.std.specs.List.{list_any, list_all};
ghost use Rattle.nqs_state.specs.State.{Plain};
ghost use Rattle.nqs_types.specs.declared.event.Command.{Command};
ghost use Rattle.nqs_types.specs.declared.event.Event.TheVariants as event;
ghost use Rattle.nqs_types.specs.declared.ids.HostId.{HostId};
ghost use Rattle.nqs_types.specs.declared.ids.RequestId.{RequestId};
ghost use Rattle.nqs_rules.specs.Access.{may_command, rank};
ghost use Rattle.nqs_rules.specs.Applied.{next_id};
ghost use Rattle.nqs_rules.specs.Find.{find_complex, find_device, find_queue, find_row, has_row};
ghost use Rattle.nqs_rules.specs.InOrder.{IsInOrder};
ghost use Rattle.nqs_rules.specs.Picked.{PlainRow};
ghost use Rattle.nqs_rules.specs.Step.{step};
ghost use Rattle.nqs_rules.specs.Stepped.{shown};
ghost use Rattle.nqs_reach.specs.Deliveries.{Delivery, after_message, after_messages, is_from};
ghost use Rattle.nqs_reach.specs.Reach.{is_given_to, is_in_reach, is_promised_to, lasting, running_rows, AnswersOnly, KeepsSettings, IsWithinReach};
ghost use Rattle.nqs_reach.specs.Reach.{IsWithinReachInTheEnd};

/// Whatever message comes, at whatever moment, with whatever content: the state after it is within
/// reach of its sender from the state before.
pub fn messages_stay_within_reach()
    ensures { (a : Delivery) (s : Plain) → IsWithinReach a.1.from s (after_message a s) }
{}

/// A request out of the sender's reach stays as it is at each message, and one that the host has
/// stays out of its reach.
pub fn requests_out_of_reach_stay()
    ensures row { (a : Delivery) (s : Plain) (id : RequestId) → is_in_reach a.1.from s id ≡ false → find_row id (after_message a s) ≡ find_row id s }
    ensures out { (a : Delivery) (s : Plain) (id : RequestId) → IsTrue (has_row id s) → is_in_reach a.1.from s id ≡ false
        → is_in_reach a.1.from (after_message a s) id ≡ false }
{}

/// A request goes only to the sender, which has promised it, and the host keeps a handover that
/// says so; one comes only where the host has promised it to the sender.
pub fn requests_move_by_promises()
    ensures gone { (a : Delivery) (s : Plain) (id : RequestId) → IsTrue (has_row id s)
        → IsTrue (has_row id (after_message a s) || list_any (is_given_to a.1.from id) (after_message a s).hands) }
    ensures come { (a : Delivery) (s : Plain) (id : RequestId) → has_row id s ≡ false → IsTrue (has_row id (after_message a s))
        → IsTrue (list_any (is_promised_to a.1.from id) s.promises) }
{}

/// A request that stays keeps its job, its script, its queue, its starts and losses at each
/// message: at most its state, its hold and its refusals change.
pub fn requests_keep_their_jobs()
    ensures { (a : Delivery) (s : Plain) (id : RequestId) (before after : PlainRow) → IsInOrder s → find_row id s ≡ Some before
        → find_row id (after_message a s) ≡ Some after → lasting after ≡ lasting before }
{}

/// At a message nothing goes out but a message back to its sender, and at most one file with it: so
/// nothing is launched, printed or killed, and no other host hears of it.
pub fn answers_go_to_the_sender()
    ensures { (a : Delivery) (s : Plain) → AnswersOnly a.1.from (map shown (step (event.Arrived a.0 a.1) s).outputs) }
{}

/// However many messages a peer sends, one after the other: the state after them is within its
/// reach from the state before, but for rows of requests that the host didn't have. The row of each
/// request that it had, out of the peer's reach, is as it was.
pub fn messages_of_a_peer_stay_within_reach()
    ensures within { (peer : HostId) (deliveries : List Delivery) (s : Plain) → IsTrue (list_all (is_from peer) deliveries)
        → IsWithinReachInTheEnd peer s (after_messages deliveries s) }
    ensures row { (peer : HostId) (deliveries : List Delivery) (s : Plain) (id : RequestId) → IsTrue (list_all (is_from peer) deliveries)
        → IsTrue (has_row id s)
        → is_in_reach peer s id ≡ false → find_row id (after_messages deliveries s) ≡ find_row id s }
{}

/// Whatever messages come, of whatever senders: the requests that run at a host in order are the
/// same, so none is started, ended or changed, and none runs at once that came in.
pub fn running_jobs_stay()
    ensures { (deliveries : List Delivery) (s : Plain) → IsInOrder s → running_rows (after_messages deliveries s) ≡ running_rows s }
{}

/// Whatever messages come, of whatever senders: the host's settings stay.
pub fn settings_stay()
    ensures { (deliveries : List Delivery) (s : Plain) → KeepsSettings s (after_messages deliveries s) }
{}

/// Queues, complexes and devices are then the same, by name.
pub fn queues_stay()
    ensures queues { (deliveries : List Delivery) (s : Plain) (name : List ℕ) → find_queue name (after_messages deliveries s) ≡ find_queue name s }
    ensures complexes { (deliveries : List Delivery) (s : Plain) (name : List ℕ) → find_complex name (after_messages deliveries s) ≡ find_complex name s }
    ensures devices { (deliveries : List Delivery) (s : Plain) (name : List ℕ) → find_device name (after_messages deliveries s) ≡ find_device name s }
{}

/// Each user may give the same commands as before, and the next request gets the same number.
pub fn rights_stay()
    ensures commands { (deliveries : List Delivery) (s : Plain) (user : List ℕ) (c : Command)
        → may_command (rank user (after_messages deliveries s)) c ≡ may_command (rank user s) c }
    ensures next { (deliveries : List Delivery) (s : Plain) → next_id (after_messages deliveries s) ≡ next_id s }
{}
