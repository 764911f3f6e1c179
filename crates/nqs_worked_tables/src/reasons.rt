//! Why a request doesn't run: each reason, each pair of neighbours in their order, both sides of
//! each bound, the texts, and all that is told of a request.
ghost use Rattle.std.specs.Prelude.{◌≡◌, codes, [], ◌∷◌, map, replicate, true, false, None, Some};
ghost use Rattle.nqs_types.specs.declared.request.RowState.TheVariants.{Running, Routing};
ghost use Rattle.nqs_types.specs.declared.request.Hold.TheVariants.{User, System};
ghost use Rattle.nqs_rules.specs.Format.{new_peer};
ghost use Rattle.nqs_worked.specs.ScheduleWords.{host, job_of};
ghost use Rattle.nqs_worked.specs.Definitions.{far, near};
ghost use Rattle.nqs_text.specs.Dates.{date_text};
ghost use Rattle.nqs_rules.specs.Reasons.{reason_of};
ghost use Rattle.nqs_rules.specs.Why.{reason_text, answer_text};
ghost use Rattle.nqs_worked_tables.specs.Reasons.{ours, told, all_told, busy, without_queue, printing, to_print, moving, to_move, waiting};
ghost use Rattle.nqs_worked_tables.specs.Reasons.{ranked, of_bob, lined_up, told_among, counted_among, hand, answered, asked, parting, stopped, from_afar};
ghost use Rattle.nqs_types.specs.declared.reason.Reason.TheVariants.{Runs, OnItsWay, HeldByUser, HeldBySystem, NotBefore, NoQueue, QueueStopped, UserLimit};
ghost use Rattle.nqs_types.specs.declared.reason.Reason.TheVariants.{RunLimit, ComplexLimit, GlobalLimit, NoDevice, NoDestination, Next};
ghost use Rattle.nqs_types.specs.declared.reason.DestAnswer.TheVariants.{Refused, NoHost, NoNumberLeft, HandingOver, NotSettled, WaitedFor, MayBeTried};

/// Of a request that runs, is on its way, is held, is too early or has no queue, where all that
/// comes behind would hold it back too.
pub fn rows_are_told()
    ensures rows { map (told (busy false (Some 1) 2 2 2 2)) (record (ours (codes "batch") 51) { state = Running; hold = User }
        ∷ record (ours (codes "batch") 51) { state = Routing; hold = System } ∷ record (ours (codes "batch") 51) { hold = User }
        ∷ record (ours (codes "batch") 51) { hold = System } ∷ ours (codes "batch") 51 ∷ ours (codes "batch") 50 ∷ [])
        ≡ Runs ∷ OnItsWay ∷ HeldByUser ∷ HeldBySystem ∷ NotBefore 51 ∷ QueueStopped ∷ [] }
    ensures no_queue { map (told without_queue) (record waiting { state = Running } ∷ record (ours (codes "batch") 51) { hold = User }
        ∷ ours (codes "batch") 51 ∷ ours (codes "batch") 50 ∷ []) ≡ Runs ∷ HeldByUser ∷ NotBefore 51 ∷ NoQueue ∷ [] }
    ensures moments { map (λ n. told (lined_up []) (ours (codes "batch") n)) (0 ∷ 49 ∷ 50 ∷ 51 ∷ 99 ∷ [])
        ≡ Next 0 ∷ Next 0 ∷ Next 0 ∷ NotBefore 51 ∷ NotBefore 99 ∷ [] }
{}

/// Of a request in a batch queue, one condition after the other mended, where all that comes behind
/// fails still.
pub fn batch_queues_are_told()
    ensures order { map (λ s. told s waiting) (busy false (Some 1) 2 2 2 2 ∷ busy true (Some 1) 2 2 2 2 ∷ busy true (Some 2) 2 2 2 2
        ∷ busy true (Some 2) 3 2 2 2 ∷ busy true (Some 2) 3 3 2 2 ∷ busy true (Some 2) 3 3 3 2 ∷ busy true (Some 2) 3 3 3 3 ∷ [])
        ≡ QueueStopped ∷ UserLimit 1 ∷ RunLimit 2 ∷ ComplexLimit (codes "one") 2 ∷ ComplexLimit (codes "two") 2 ∷ GlobalLimit 2 ∷ Next 0 ∷ [] }
    ensures users { map (λ n. told (busy true n 9 9 9 9) waiting) (Some 0 ∷ Some 1 ∷ Some 2 ∷ None ∷ [])
        ≡ UserLimit 0 ∷ UserLimit 1 ∷ Next 0 ∷ Next 0 ∷ [] }
    ensures strangers { map (λ n. told (busy true n 9 9 9 9) (record waiting { job = job_of (codes "cy") })) (Some 0 ∷ Some 1 ∷ [])
        ≡ UserLimit 0 ∷ Next 0 ∷ [] }
    ensures run { map (λ n. told (busy true None n 9 9 9) waiting) (0 ∷ 1 ∷ 2 ∷ 3 ∷ []) ≡ RunLimit 0 ∷ RunLimit 1 ∷ RunLimit 2 ∷ Next 0 ∷ [] }
    ensures complexes { map (λ n. told (busy true None 9 n 9 9) waiting) (0 ∷ 1 ∷ 2 ∷ 3 ∷ [])
        ≡ ComplexLimit (codes "one") 0 ∷ ComplexLimit (codes "one") 1 ∷ ComplexLimit (codes "one") 2 ∷ Next 0 ∷ [] }
    ensures others { map (λ q. told (record (busy true None 9 9 9 9) { complexes = record { name = codes "one"; limit = 0; queues = q ∷ [] } ∷ [] }) waiting)
        (codes "bat" ∷ codes "batch" ∷ []) ≡ Next 0 ∷ ComplexLimit (codes "one") 0 ∷ [] }
    ensures global { map (λ n. told (busy true None 9 9 9 n) waiting) (0 ∷ 1 ∷ 2 ∷ 3 ∷ []) ≡ GlobalLimit 0 ∷ GlobalLimit 1 ∷ GlobalLimit 2 ∷ Next 0 ∷ [] }
{}

/// Of a request in a device queue, for which neither complexes nor the global limit count.
pub fn device_queues_are_told()
    ensures order { map (λ s. told s (to_print None)) (printing false (Some 1) 1 (codes "ink" ∷ []) ∷ printing true (Some 1) 1 (codes "ink" ∷ [])
        ∷ printing true (Some 2) 1 (codes "ink" ∷ []) ∷ printing true (Some 2) 2 (codes "ink" ∷ [])
        ∷ printing true (Some 2) 2 (codes "ink" ∷ codes "laser" ∷ []) ∷ []) ≡ QueueStopped ∷ UserLimit 1 ∷ RunLimit 1 ∷ NoDevice None ∷ Next 0 ∷ [] }
    ensures forms { map (λ f. told (printing true None 2 (codes "ink" ∷ codes "off" ∷ codes "gone" ∷ codes "laser" ∷ [])) (to_print f)) (None
        ∷ Some (codes "red") ∷ Some (codes "plain") ∷ Some (codes "blue") ∷ Some (codes "pink") ∷ [])
        ≡ Next 0 ∷ Next 0 ∷ NoDevice (Some (codes "plain")) ∷ NoDevice (Some (codes "blue")) ∷ NoDevice (Some (codes "pink")) ∷ [] }
    ensures listed { map (λ ds. told (printing true None 2 ds) (to_print (Some (codes "red")))) ([] ∷ (codes "ink" ∷ []) ∷ (codes "laser" ∷ []) ∷ [])
        ≡ NoDevice (Some (codes "red")) ∷ NoDevice (Some (codes "red")) ∷ Next 0 ∷ [] }
{}

/// Of a request in a pipe queue, for which neither complexes nor the global limit count.
pub fn pipe_queues_are_told()
    ensures order { map (λ s. told s (to_move 31)) (moving false (Some 1) 1 ∷ moving true (Some 1) 1 ∷ moving true (Some 2) 1 ∷ moving true (Some 2) 2
        ∷ record (moving true (Some 2) 2) { hands = [] } ∷ []) ≡ QueueStopped ∷ UserLimit 1 ∷ RunLimit 1 ∷ NoDestination ∷ Next 0 ∷ [] }
    ensures far { map (λ n. told (moving true None 2) (to_move n)) (0 ∷ 31 ∷ 32 ∷ []) ≡ NoDestination ∷ NoDestination ∷ Next 0 ∷ [] }
    ensures refused { map (λ d. told (record (moving true None 2) { hands = [] }) (record (to_move 0) { refused = record { dest = d; cause = 19 } ∷ [] }))
        (far ∷ near ∷ []) ≡ NoDestination ∷ Next 0 ∷ [] }
{}

/// All reasons of a request at once: each pair of neighbours, where nothing else keeps it, then
/// three with gaps between, and all that there can be; and the one of a request that runs, is on
/// its way, or is kept by nothing but the order.
pub fn all_reasons_are_told()
    ensures own { map (all_told (busy true None 9 9 9 9)) (record (ours (codes "batch") 51) { hold = User }
        ∷ record (ours (codes "batch") 51) { hold = System } ∷ []) ≡ (HeldByUser ∷ NotBefore 51 ∷ []) ∷ (HeldBySystem ∷ NotBefore 51 ∷ []) ∷ [] }
    ensures early { map (λ started. all_told (busy started None 9 9 9 9) (ours (codes "batch") 51)) (false ∷ true ∷ [])
        ≡ (NotBefore 51 ∷ QueueStopped ∷ []) ∷ (NotBefore 51 ∷ []) ∷ [] }
    ensures neighbours { map (λ s. all_told s waiting) (busy false (Some 1) 9 9 9 9 ∷ busy true (Some 1) 2 9 9 9 ∷ busy true None 2 2 9 9
        ∷ busy true None 9 2 2 9 ∷ busy true None 9 9 2 2 ∷ []) ≡ (QueueStopped ∷ UserLimit 1 ∷ []) ∷ (UserLimit 1 ∷ RunLimit 2 ∷ [])
        ∷ (RunLimit 2 ∷ ComplexLimit (codes "one") 2 ∷ []) ∷ (ComplexLimit (codes "one") 2 ∷ ComplexLimit (codes "two") 2 ∷ [])
        ∷ (ComplexLimit (codes "two") 2 ∷ GlobalLimit 2 ∷ []) ∷ [] }
    ensures gaps { all_told (busy false None 9 2 9 9) (record waiting { hold = User }) ≡ HeldByUser ∷ QueueStopped ∷ ComplexLimit (codes "one") 2 ∷ [] }
    ensures whole { all_told (busy false (Some 1) 2 2 2 2) (record (ours (codes "batch") 51) { hold = System })
        ≡ HeldBySystem ∷ NotBefore 51 ∷ QueueStopped ∷ UserLimit 1 ∷ RunLimit 2 ∷ ComplexLimit (codes "one") 2 ∷ ComplexLimit (codes "two") 2
        ∷ GlobalLimit 2 ∷ [] }
    ensures devices { map (λ s. all_told s (to_print None)) (printing true None 1 (codes "ink" ∷ []) ∷ printing false (Some 1) 1 (codes "ink" ∷ [])
        ∷ printing false (Some 1) 1 (codes "ink" ∷ codes "laser" ∷ []) ∷ []) ≡ (RunLimit 1 ∷ NoDevice None ∷ [])
        ∷ (QueueStopped ∷ UserLimit 1 ∷ RunLimit 1 ∷ NoDevice None ∷ []) ∷ (QueueStopped ∷ UserLimit 1 ∷ RunLimit 1 ∷ []) ∷ [] }
    ensures pipes { map (λ n. all_told (moving false (Some 1) 1) (to_move n)) (31 ∷ 32 ∷ []) ≡ (QueueStopped ∷ UserLimit 1 ∷ RunLimit 1 ∷ NoDestination ∷ [])
        ∷ (QueueStopped ∷ UserLimit 1 ∷ RunLimit 1 ∷ []) ∷ [] }
    ensures destination { all_told (moving true None 1) (to_move 31) ≡ RunLimit 1 ∷ NoDestination ∷ [] }
    ensures no_queue { map (all_told without_queue) (record (ours (codes "batch") 51) { hold = User } ∷ ours (codes "batch") 51 ∷ waiting ∷ [])
        ≡ (HeldByUser ∷ NotBefore 51 ∷ NoQueue ∷ []) ∷ (NotBefore 51 ∷ NoQueue ∷ []) ∷ (NoQueue ∷ []) ∷ [] }
    ensures started { map (all_told (busy false (Some 1) 2 2 2 2)) (record (ours (codes "batch") 51) { state = Running; hold = User }
        ∷ record (ours (codes "batch") 51) { state = Routing; hold = System } ∷ []) ≡ (Runs ∷ []) ∷ (OnItsWay ∷ []) ∷ [] }
    ensures next { map (all_told (lined_up (ranked 31 4 ∷ ranked 40 2 ∷ []))) (ranked 41 9 ∷ ranked 31 9 ∷ []) ≡ (Next 0 ∷ []) ∷ (Next 2 ∷ []) ∷ [] }
{}

/// How many come before: of greater priority, or of the same one and earlier, in the same queue,
/// and those that may start themselves, or those that wait.
pub fn those_before_are_counted()
    ensures ranks { told_among (ranked 31 4 ∷ ranked 31 2 ∷ ranked 40 8 ∷ ranked 20 1 ∷ []) (ranked 41 9 ∷ ranked 40 7 ∷ ranked 40 9 ∷ ranked 31 1
        ∷ ranked 31 3 ∷ ranked 31 9 ∷ ranked 20 9 ∷ ranked 19 0 ∷ []) ≡ Next 0 ∷ Next 0 ∷ Next 1 ∷ Next 1 ∷ Next 2 ∷ Next 3 ∷ Next 4 ∷ Next 4 ∷ [] }
    ensures places { map (reason_of 50 (lined_up (ranked 31 4 ∷ ranked 31 2 ∷ ranked 40 8 ∷ []))) (ranked 31 4 ∷ ranked 31 2 ∷ ranked 40 8 ∷ [])
        ≡ Next 2 ∷ Next 1 ∷ Next 0 ∷ [] }
    ensures eligible { map (λ q. told (lined_up (q ∷ ranked 40 2 ∷ [])) (ranked 31 9)) (ranked 40 1 ∷ record (ranked 40 1) { hold = User }
        ∷ record (ranked 40 1) { hold = System } ∷ record (ranked 40 1) { state = Running } ∷ record (ranked 40 1) { state = Routing }
        ∷ record (ranked 40 1) { queue = codes "night" } ∷ record (ours (codes "batch") 51) { arrival = 1 } ∷ []) ≡ Next 2 ∷ replicate 6 (Next 1) }
    ensures at_limit { map (λ n. told (busy true n 9 9 9 9) (of_bob 20 9)) (Some 2 ∷ None ∷ []) ≡ Next 0 ∷ Next 0 ∷ [] }
    ensures limited { map (told (record (busy true (Some 1) 9 9 9 9) { rows = record (ranked 31 1) { state = Running } ∷ ranked 40 2 ∷ ranked 40 3 ∷ [] }))
        (of_bob 20 9 ∷ ranked 20 9 ∷ []) ≡ Next 0 ∷ UserLimit 1 ∷ [] }
    ensures waiting { map (λ q. counted_among (q ∷ ranked 40 2 ∷ ranked 31 9 ∷ ranked 31 10 ∷ []) (ranked 31 9)) (ranked 40 1 ∷ ranked 31 8
        ∷ record (ranked 40 1) { hold = User } ∷ record (ranked 40 1) { hold = System } ∷ record (ranked 40 1) { state = Running }
        ∷ record (ranked 40 1) { state = Routing } ∷ record (ranked 40 1) { queue = codes "night" } ∷ record (ours (codes "batch") 51) { arrival = 1 } ∷ [])
        ≡ 2 ∷ 2 ∷ replicate 6 1 }
    ensures hindered { map (λ r. counted_among (record (ranked 31 1) { state = Running } ∷ ranked 40 2 ∷ ranked 40 3 ∷ []) r) (of_bob 20 9 ∷ ranked 20 9
        ∷ ranked 40 3 ∷ ranked 40 2 ∷ []) ≡ 2 ∷ 2 ∷ 1 ∷ 0 ∷ [] }
{}

/// What a destination answered, one condition after the other mended, where all that comes behind
/// fails still.
pub fn answers_are_told()
    ensures order { answered (record new_peer { next = 18446744073709551615; wait = 51 }) (replicate 8 hand) (far ∷ []) far
        ∷ answered (record new_peer { next = 18446744073709551615; wait = 51 }) (replicate 8 hand) (near ∷ []) far
        ∷ answered (record new_peer { next = 18446744073709551614; wait = 51 }) (replicate 8 hand) [] far
        ∷ answered (record new_peer { next = 18446744073709551614; wait = 51 }) (replicate 7 hand) [] far
        ∷ answered (record new_peer { next = 64; wait = 51 }) (replicate 7 hand) [] far
        ∷ answered (record new_peer { next = 64; wait = 50 }) (replicate 7 hand) [] far ∷ answered new_peer [] [] far ∷ []
        ≡ Refused 19 ∷ NoNumberLeft ∷ HandingOver ∷ NotSettled 1 ∷ WaitedFor 51 ∷ MayBeTried ∷ MayBeTried ∷ [] }
    ensures window { map (λ n. answered (record new_peer { next = n }) (record hand { number = 9 } ∷ record hand { number = 5 } ∷ []) [] far)
        (68 ∷ 69 ∷ 70 ∷ []) ≡ MayBeTried ∷ NotSettled 5 ∷ NotSettled 5 ∷ [] }
    ensures here { map (λ refused. answered (record new_peer { next = 18446744073709551615; wait = 51 }) (hand ∷ record hand { peer = host 0 } ∷ [])
        refused near) ((near ∷ []) ∷ (far ∷ []) ∷ []) ≡ Refused 19 ∷ MayBeTried ∷ [] }
    ensures elsewhere { map (λ refused. answered new_peer (record hand { peer = host 2 } ∷ []) refused (record far { host = host 2 }))
        ((record far { host = host 2 } ∷ []) ∷ [] ∷ []) ≡ Refused 19 ∷ NoHost ∷ [] }
    ensures other_host { answered new_peer (record hand { peer = host 0 } ∷ []) [] far ≡ MayBeTried }
{}

/// The texts.
pub fn reasons_are_spelled()
    ensures words { map (reason_text (codes "batch")) (Runs ∷ OnItsWay ∷ HeldByUser ∷ HeldBySystem ∷ NoQueue ∷ QueueStopped ∷ UserLimit 2 ∷ RunLimit 10
        ∷ ComplexLimit (codes "night") 3 ∷ GlobalLimit 64 ∷ NoDevice None ∷ NoDevice (Some (codes "red")) ∷ NoDestination ∷ [])
        ≡ codes "it runs" ∷ codes "it is on its way to another host" ∷ codes "it is held" ∷ codes "the system holds it" ∷ codes "no queue batch"
        ∷ codes "queue batch is stopped" ∷ codes "the user limit 2 of queue batch is reached" ∷ codes "the run limit 10 of queue batch is reached"
        ∷ codes "the limit 3 of complex night is reached" ∷ codes "the global limit 64 is reached" ∷ codes "no device of queue batch is free"
        ∷ codes "no device of queue batch with forms red is free" ∷ codes "no destination of queue batch may be tried now" ∷ [] }
    ensures next { map (λ n. reason_text (codes "batch") (Next n)) (0 ∷ 1 ∷ 2 ∷ 30 ∷ []) ≡ codes "it is next in queue batch"
        ∷ codes "1 request of the queue comes before it" ∷ codes "2 requests of the queue come before it" ∷ codes "30 requests of the queue come before it"
        ∷ [] }
    ensures moments { map (λ n. reason_text (codes "batch") (NotBefore n)) (1000000000 ∷ 253402214400 ∷ 253402214401 ∷ [])
        ≡ codes "it may not start before 2001-09-09T01:46:40" ∷ codes "it may not start before 9999-12-31T00:00:00"
        ∷ codes "it may not start before 253402214401" ∷ [] }
    ensures answers { map answer_text (Refused 19 ∷ NoHost ∷ NoNumberLeft ∷ HandingOver ∷ NotSettled 5 ∷ WaitedFor 300 ∷ WaitedFor 253402214401
        ∷ MayBeTried ∷ [])
        ≡ codes "refused with number 19" ∷ codes "no such host" ∷ codes "all numbers are used" ∷ codes "its host is being handed eight requests"
        ∷ codes "its host has not settled handover 5" ∷ codes "its host is waited for until 1970-01-01T00:05:00"
        ∷ codes "its host is waited for until 253402214401" ∷ codes "may be tried" ∷ [] }
{}

/// The dates of moments: the first second and the last day, both sides of a new year, leap days,
/// and a century without one.
pub fn dates_are_spelled()
    ensures { map date_text (0 ∷ 300 ∷ 68169600 ∷ 946684799 ∷ 946684800 ∷ 951782400 ∷ 1000000000 ∷ 4107542400 ∷ 253402214400 ∷ [])
        ≡ codes "1970-01-01T00:00:00" ∷ codes "1970-01-01T00:05:00" ∷ codes "1972-02-29T00:00:00" ∷ codes "1999-12-31T23:59:59"
        ∷ codes "2000-01-01T00:00:00" ∷ codes "2000-02-29T00:00:00" ∷ codes "2001-09-09T01:46:40" ∷ codes "2100-03-01T00:00:00"
        ∷ codes "9999-12-31T00:00:00" ∷ [] }
{}

/// All that is told of a request: of one in a stopped queue, whether others come before it or not,
/// and whether limits are reached too; of one that is too early, of one in a pipe queue with two
/// destinations, held or not, and of one that has two before it.
pub fn requests_are_explained()
    ensures is_stopped { asked (busy false None 9 9 9 9) waiting ≡ codes "Request 9.alpha: queue batch is stopped."
        ∷ codes "Requests that wait before it: 0." ∷ [] }
    ensures all { asked (busy false (Some 1) 2 9 2 2) waiting ≡ codes "Request 9.alpha: queue batch is stopped."
        ∷ codes "Request 9.alpha: the user limit 1 of queue batch is reached." ∷ codes "Request 9.alpha: the run limit 2 of queue batch is reached."
        ∷ codes "Request 9.alpha: the limit 2 of complex two is reached." ∷ codes "Request 9.alpha: the global limit 2 is reached."
        ∷ codes "Requests that wait before it: 0." ∷ [] }
    ensures is_behind { asked (stopped (ranked 40 1 ∷ ranked 31 8 ∷ ranked 31 10 ∷ [])) (ranked 31 9) ≡ codes "Request 9.alpha: queue batch is stopped."
        ∷ codes "Requests that wait before it: 2." ∷ [] }
    ensures early { asked (lined_up []) (ours (codes "batch") 51) ≡ codes "Request 9.alpha: it may not start before 1970-01-01T00:00:51."
        ∷ codes "Requests that wait before it: 0." ∷ [] }
    ensures dests { asked parting (record (to_move 0) { refused = record { dest = near; cause = 19 } ∷ [] })
        ≡ codes "Request 9.alpha: no destination of queue link may be tried now." ∷ codes "batch@beta: its host is being handed eight requests."
        ∷ codes "batch@alpha: refused with number 19." ∷ codes "Requests that wait before it: 0." ∷ [] }
    ensures two { asked parting (record (to_move 0) { hold = System; refused = record { dest = near; cause = 19 } ∷ [] })
        ≡ codes "Request 9.alpha: the system holds it." ∷ codes "Request 9.alpha: no destination of queue link may be tried now."
        ∷ codes "batch@beta: its host is being handed eight requests." ∷ codes "batch@alpha: refused with number 19."
        ∷ codes "Requests that wait before it: 0." ∷ [] }
    ensures open { asked parting (to_move 0) ≡ codes "Request 9.alpha: it is next in queue link." ∷ codes "Requests that wait before it: 0." ∷ [] }
    ensures next { asked (lined_up (ranked 40 1 ∷ ranked 31 8 ∷ ranked 31 10 ∷ [])) (ranked 31 9)
        ≡ codes "Request 9.alpha: 2 requests of the queue come before it." ∷ codes "Requests that wait before it: 2." ∷ [] }
{}

/// Of one that runs or is on its way there is a reason, and no more.
pub fn started_requests_are_explained()
    ensures running { asked (busy false (Some 1) 2 2 2 2) from_afar ≡ codes "Request 3.beta: it runs." ∷ [] }
    ensures moved { asked parting (record (to_move 0) { state = Routing }) ≡ codes "Request 9.alpha: it is on its way to another host." ∷ [] }
{}
