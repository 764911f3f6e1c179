//! What is started next: limits at their bounds, the order of rows and queues, devices,
//! destinations, and the start itself.
ghost use Rattle.std.specs.Prelude.{◌≡◌, codes, [], ◌∷◌, ◌++◌, map, replicate, true, false, None, Some};
ghost use Rattle.nqs_types.specs.declared.request.RowState.TheVariants.{Running, Routing};
ghost use Rattle.nqs_types.specs.declared.request.Hold.TheVariants.{User, System};
ghost use Rattle.nqs_types.specs.declared.request.Phase.TheVariants.{Offered, Committed};
ghost use Rattle.nqs_types.specs.declared.rule.Choice.TheVariants.{Launch, Print, TooFar, Local, Hand};
ghost use Rattle.nqs_types.specs.declared.change.Change.TheVariants.{Started, HandOpened, MovedLocal, RefusedLocal, HeldFar};
ghost use Rattle.nqs_types.specs.declared.message.Body.TheVariants as body;
ghost use Rattle.nqs_types.specs.declared.event.Output.TheVariants as out;
ghost use Rattle.nqs_rules.specs.Format.{first_queue, new_peer};
ghost use Rattle.nqs_rules.specs.Devices.{free_device, is_busy};
ghost use Rattle.nqs_rules.specs.Order.{is_eligible, pick};
ghost use Rattle.nqs_rules.specs.Measure.{starts_left};
ghost use Rattle.nqs_rules.specs.Start.{start, started, limits_of};
ghost use Rattle.nqs_rules.specs.Stepped.{makes, message};
ghost use Rattle.nqs_worked.specs.ScheduleWords.{host, request, job_of};
ghost use Rattle.nqs_worked.specs.Definitions.{fresh, far, link, queued, in_link, carried};
ghost use Rattle.nqs_worked_tables.specs.Refusals.{printer, in_queue};
ghost use Rattle.nqs_worked_tables.specs.OrderBounds.{hand};
ghost use Rattle.nqs_worked_tables.specs.Choices.{night, runs, loaded, with_both, within, timed, owned, ranked, first_of, with_rows, first_place, next_place};
ghost use Rattle.nqs_worked_tables.specs.Choices.{ready_queue, five_devices, workshop, asking, to, fork, crossing, crossing_with, sent_to, refused_by_each};

/// A queue has fewer active rows than its run limit, a batch queue's complexes and all batch queues
/// fewer running ones than theirs.
pub fn queues_are_within_limits()
    ensures run { within first_queue (2 ∷ 3 ∷ 4 ∷ []) loaded ≡ false ∷ false ∷ true ∷ [] }
    ensures other_kinds { map (λ d. within d (1 ∷ 2 ∷ 3 ∷ []) (record (with_both 0 0) { global_limit = 0 })) (printer ∷ link ∷ [])
        ≡ (false ∷ false ∷ true ∷ []) ∷ (false ∷ true ∷ true ∷ []) ∷ [] }
    ensures complexes { map (λ n. within first_queue (9 ∷ []) (with_both n 0)) (2 ∷ 3 ∷ 4 ∷ []) ≡ (false ∷ []) ∷ (false ∷ []) ∷ (true ∷ []) ∷ [] }
    ensures others { map (λ n. within night (2 ∷ []) (with_both n 0)) (3 ∷ 4 ∷ []) ≡ (false ∷ []) ∷ (true ∷ []) ∷ [] }
    ensures global { map (λ n. within first_queue (9 ∷ []) (record loaded { global_limit = n })) (2 ∷ 3 ∷ 4 ∷ [])
        ≡ (false ∷ []) ∷ (false ∷ []) ∷ (true ∷ []) ∷ [] }
    ensures both { map (λ s. within first_queue (9 ∷ []) s) (record (with_both 4 0) { global_limit = 4 } ∷ record (with_both 3 0) { global_limit = 4 }
        ∷ record (with_both 4 0) { global_limit = 3 } ∷ []) ≡ (true ∷ []) ∷ (false ∷ []) ∷ (false ∷ []) ∷ [] }
{}

/// A row is eligible from its earliest start on, ready, in its queue, while its owner has fewer
/// active rows there than the user limit.
pub fn rows_are_eligible()
    ensures moments { map (λ now. is_eligible first_queue now owned timed) (99 ∷ 100 ∷ 101 ∷ []) ≡ false ∷ true ∷ true ∷ [] }
    ensures queues { map (λ q. is_eligible first_queue 100 owned (in_queue q timed)) (codes "batch" ∷ codes "night" ∷ []) ≡ true ∷ false ∷ [] }
    ensures states { map (λ r. is_eligible first_queue 100 owned r) (record timed { hold = User } ∷ record timed { hold = System }
        ∷ record timed { state = Running } ∷ record timed { state = Routing } ∷ []) ≡ replicate 4 false }
    ensures owners { map (λ n. is_eligible (record first_queue { user_limit = n }) 100 owned timed) (Some 0 ∷ Some 1 ∷ Some 2 ∷ None ∷ [])
        ≡ false ∷ false ∷ true ∷ true ∷ [] }
    ensures strangers { map (λ n. is_eligible (record first_queue { user_limit = n }) 100 owned (record timed { job = job_of (codes "cy") })) (Some 0 ∷ Some 1
        ∷ []) ≡ false ∷ true ∷ [] }
{}

/// The greatest priority starts first, then the earliest arrival, and of queues the greatest
/// priority, then the first created.
pub fn the_first_starts()
    ensures rows { map (λ r. first_of (ranked 1 31 5) r) (ranked 2 30 4 ∷ ranked 2 32 6 ∷ ranked 2 31 4 ∷ ranked 2 31 6 ∷ ranked 2 31 5 ∷ [])
        ≡ (true ∷ false ∷ []) ∷ (false ∷ true ∷ []) ∷ (false ∷ true ∷ []) ∷ (true ∷ false ∷ []) ∷ (false ∷ false ∷ []) ∷ [] }
    ensures places { map (λ rs. first_place first_queue (with_rows rs)) ((ranked 1 31 5 ∷ ranked 2 31 4 ∷ ranked 3 31 6 ∷ [])
        ∷ (ranked 1 31 4 ∷ ranked 2 32 5 ∷ ranked 3 32 6 ∷ []) ∷ (record (ranked 1 31 4) { hold = User } ∷ ranked 2 31 5 ∷ [])
        ∷ (in_queue (codes "night") (ranked 1 31 4) ∷ []) ∷ []) ≡ Some 1 ∷ Some 1 ∷ Some 1 ∷ None ∷ [] }
    ensures queues { map next_place ((ready_queue (codes "batch") 5 ∷ ready_queue (codes "night") 6 ∷ ready_queue (codes "noon") 6 ∷ [])
        ∷ (ready_queue (codes "batch") 6 ∷ ready_queue (codes "night") 6 ∷ ready_queue (codes "noon") 5 ∷ [])
        ∷ (record (ready_queue (codes "batch") 9) { started = false } ∷ ready_queue (codes "night") 5 ∷ record (ready_queue (codes "noon") 9) { run_limit = 0 }
        ∷ []) ∷ (ready_queue (codes "void") 9 ∷ ready_queue (codes "noon") 5 ∷ []) ∷ (ready_queue (codes "void") 9 ∷ []) ∷ [])
        ≡ Some 1 ∷ Some 0 ∷ Some 1 ∷ Some 1 ∷ None ∷ [] }
    ensures disabled { pick 50 (record fresh { queues = ready_queue (codes "batch") 5 ∷ []; rows = queued 1 ∷ [] }) ≡ Some (Launch 0) }
{}

/// The device is the first of the queue's list that is there, enabled, not busy, and has the forms.
pub fn devices_are_free()
    ensures forms { map (λ f. free_device five_devices f (workshop [])) (None ∷ Some (codes "red") ∷ Some (codes "blue") ∷ Some (codes "pink") ∷ [])
        ≡ Some 3 ∷ Some 3 ∷ Some 4 ∷ None ∷ [] }
    ensures busy { map (λ d. is_busy d (workshop (record (asking None) { device = Some (codes "red") } ∷ []))) (codes "busy" ∷ codes "red" ∷ codes "gone" ∷ [])
        ≡ true ∷ false ∷ false ∷ [] }
    ensures picks { map (λ f. pick 50 (workshop (asking f ∷ []))) (None ∷ Some (codes "blue") ∷ Some (codes "pink") ∷ [])
        ≡ Some (Print 1 3) ∷ Some (Print 1 4) ∷ None ∷ [] }
    ensures batch { pick 50 (record (workshop (queued 2 ∷ [])) { queues = ready_queue (codes "batch") 5 ∷ [] }) ≡ Some (Launch 1) }
{}

/// The destination is the first that hasn't refused, and is here or on a host that is free and not
/// waited for.
pub fn destinations_are_tried()
    ensures free { map (λ p. sent_to (crossing p []) (in_link 1)) (new_peer ∷ record new_peer { wait = 50 } ∷ record new_peer { wait = 51 }
        ∷ record new_peer { next = 18446744073709551614 } ∷ record new_peer { next = 18446744073709551615 } ∷ [])
        ≡ Some 0 ∷ Some 0 ∷ Some 1 ∷ Some 0 ∷ Some 1 ∷ [] }
    ensures taken { map (λ hs. sent_to (crossing new_peer hs) (in_link 1)) (replicate 7 (hand 1 1 (request 2 0) Offered)
        ∷ replicate 8 (hand 1 1 (request 2 0) Offered)
        ∷ replicate 8 (hand 1 1 (request 2 0) Committed) ∷ replicate 8 (hand 2 1 (request 2 0) Offered)
        ∷ (replicate 8 (hand 2 1 (request 2 0) Offered) ++ replicate 8 (hand 1 1 (request 2 0) Committed)) ∷ [])
        ≡ Some 0 ∷ Some 1 ∷ Some 1 ∷ Some 0 ∷ Some 2 ∷ [] }
    ensures window { map (λ n. sent_to (crossing (record new_peer { next = n }) (hand 2 1 (request 2 0) Offered ∷ hand 1 4 (request 2 0) Committed ∷ []))
        (in_link 1)) (5 ∷ 67 ∷ 68 ∷ []) ≡ Some 0 ∷ Some 0 ∷ Some 1 ∷ [] }
    ensures refused { map (λ ds. sent_to (crossing new_peer []) (refused_by_each ds)) ((to 1 ∷ []) ∷ (to 2 ∷ []) ∷ (to 2 ∷ to 1 ∷ [])
        ∷ (to 0 ∷ to 1 ∷ to 2 ∷ []) ∷ (record (to 1) { queue = codes "night" } ∷ []) ∷ []) ≡ Some 1 ∷ Some 0 ∷ Some 2 ∷ None ∷ Some 0 ∷ [] }
    ensures own_host { sent_to (record (crossing new_peer []) { peers = record new_peer { wait = 99 } ∷ new_peer ∷ new_peer ∷ [] }) (refused_by_each (to 1
        ∷ to 2 ∷ [])) ≡ Some 2 }
    ensures picks { map (λ r. pick 50 (crossing_with r)) (in_link 1 ∷ refused_by_each (to 1 ∷ []) ∷ refused_by_each (to 1 ∷ to 2 ∷ [])
        ∷ refused_by_each (to 0 ∷ to 1 ∷ to 2 ∷ []) ∷ record (in_link 1) { hops = 31 } ∷ record (in_link 1) { hops = 32 }
        ∷ record (refused_by_each (to 0 ∷ to 1 ∷ to 2 ∷ [])) { hops = 32 } ∷ [])
        ≡ Some (Hand 0 0) ∷ Some (Hand 0 1) ∷ Some (Local 0 2) ∷ None ∷ Some (Hand 0 0) ∷ Some (TooFar 0) ∷ Some (TooFar 0) ∷ [] }
{}

/// What a start makes, and what goes out with it.
pub fn starts_are_made()
    ensures launch { start 50 (record fresh {
      queues = record (ready_queue (codes "batch") 5) { limits = record { cpu = Some 7; memory = Some 8 } }
          ∷ [];
      rows = record (queued 1) {
        starts = 3;
        lost = 3;
        script = codes "date";
        job = record (job_of (codes "ann"))
            { name = codes "sim"; limits = record { cpu = None; memory = Some 6 } };
      } ∷ [];
    })
        ≡ Some (makes (Started (request 1 0) None)
        ((
          out.Launch (record {
            id = request 1 0;
            start = 4;
            name = codes "sim";
            owner = codes "ann";
            queue = codes "batch";
            limits = record
                { cpu = Some 7; memory = Some 6 };
          }) [],
          Some (codes "date"),
        ) ∷ [])) }
    ensures limits { map (λ l. limits_of l (Some (record first_queue { limits = record { cpu = Some 7; memory = Some 8 } })))
        (record { cpu = Some 3; memory = None } ∷ record { cpu = None; memory = Some 4 } ∷ [])
        ≡ record { cpu = Some 3; memory = Some 8 } ∷ record { cpu = Some 7; memory = Some 4 } ∷ [] }
    ensures print { start 50 (workshop (record (asking (Some (codes "blue"))) { script = codes "text" } ∷ []))
        ≡ Some (makes (Started (request 2 0) (Some (codes "blue")))
        ((
          out.Print (codes "blue") (record {
            id = request 2 0;
            start = 1;
            name = codes "STDIN";
            owner = codes "ann";
            queue = codes "lp";
            limits = record
                { cpu = None; memory = None };
          }) [],
          Some (codes "text"),
        ) ∷ [])) }
    ensures far { start 50 (crossing_with (record (in_link 1) { hops = 32 })) ≡ Some (makes (HeldFar (request 1 0)) []) }
    ensures hand { start 50 (crossing_with (record (in_link 1) { hops = 7; starts = 2; lost = 2; script = codes "date" }))
        ≡ Some (makes (HandOpened (host 1) 5 (request 1 0) (codes "batch") 50)
        ((message (host 0) (host 1) (body.Offer 5 5 (codes "batch") (record (carried 1) { starts = 2; lost = 2; hops = 8 }) []), Some (codes "date")) ∷ [])) }
    ensures here { map (λ d. start 50 (record (crossing_with (refused_by_each (to 1 ∷ to 2 ∷ []))) { queues = d ∷ fork ∷ [] })) (first_queue
        ∷ record first_queue { enabled = false } ∷ record first_queue { pipe_only = true } ∷ night ∷ [])
        ≡ Some (makes (MovedLocal (request 1 0) (codes "batch")) []) ∷ Some (makes (RefusedLocal (request 1 0) (codes "batch") 19) [])
        ∷ Some (makes (MovedLocal (request 1 0) (codes "batch")) []) ∷ Some (makes (RefusedLocal (request 1 0) (codes "batch") 3) []) ∷ [] }
    ensures nothing { map (λ now. start now fresh) (0 ∷ 50 ∷ []) ≡ None ∷ None ∷ [] }
    ensures no_row { map (λ c. started c 50 fresh) (Launch 0 ∷ Print 0 0 ∷ TooFar 0 ∷ Local 0 0 ∷ Hand 0 0 ∷ []) ≡ replicate 5 None }
    ensures measure { map (λ s. starts_left s) (record fresh {
      rows = queued 1 ∷ record (queued 2) { hops = 1 } ∷ runs 3 (codes "batch")
          ∷ record (queued 4) { hold = User } ∷ [];
    } ∷ crossing_with (in_link 1) ∷ crossing_with (refused_by_each (to 1 ∷ to 0 ∷ [])) ∷ [])
        ≡ 1105 ∷ 564 ∷ 562 ∷ [] }
{}
