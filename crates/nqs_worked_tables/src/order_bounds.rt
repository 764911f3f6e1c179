//! States in order: each item at its bound, and one beyond.
ghost use Rattle.std.specs.Prelude.{◌≡◌, codes, [], ◌∷◌, ◌++◌, map, replicate, length, true, false, None, Some};
ghost use Rattle.std.specs.List.{list_all};
ghost use Rattle.nqs_types.specs.Ids.{id_eq};
ghost use Rattle.nqs_types.specs.declared.request.Hold.TheVariants.{User, System};
ghost use Rattle.nqs_types.specs.declared.request.Phase.TheVariants.{Offered, Committed};
ghost use Rattle.nqs_rules.specs.Tests.{same_host};
ghost use Rattle.nqs_rules.specs.Format.{new_peer};
ghost use Rattle.nqs_rules.specs.InOrder.{is_site_right, are_parameters_right, are_lists_short, are_keys_distinct, are_distinct, arrivals_of, same_number};
ghost use Rattle.nqs_rules.specs.InOrder.{is_queue_right, is_complex_right, is_promise_right, is_hand_right, offered_ids, has_few_hands};
ghost use Rattle.nqs_rules.specs.InOrder.{is_peer_right, is_stage_right, is_file_right, are_parts_short, is_doom_right, is_hold_right, has_hand};
ghost use Rattle.nqs_rules.specs.InOrder.{is_promise_free, is_hand_of_given};
ghost use Rattle.nqs_worked.specs.ScheduleWords.{host, request};
ghost use Rattle.nqs_worked.specs.Definitions.{fresh, with_queues, with_complexes, with_devices, with_managers, with_operators, crowded, queued, running};
ghost use Rattle.nqs_worked.specs.Definitions.{promise, upwards, a_stage, a_file};
ghost use Rattle.nqs_worked_tables.specs.Bounds.{bad_path};
ghost use Rattle.nqs_worked_tables.specs.Refusals.{held};
ghost use Rattle.nqs_worked_tables.specs.OrderBounds.{sited, with_two_devices, may_list, queue_bounds, complex, is_row_of_home, home, right_rows, wrong_rows};
ghost use Rattle.nqs_worked_tables.specs.OrderBounds.{is_promise_of_home, promise_bounds, hand, handing, hand_bounds, with_hands, staging, apart, not_apart};
ghost use Rattle.nqs_worked_tables.specs.OrderBounds.{with_part, on_the_way, with_hand, doomed};

/// A site has 1 to 16 hosts, this one among them, and as many peers.
pub fn sites_have_bounds()
    ensures sizes { map is_site_right (sited 0 1 1 ∷ sited 15 16 16 ∷ sited 0 0 0 ∷ sited 0 17 17 ∷ []) ≡ true ∷ true ∷ false ∷ false ∷ [] }
    ensures places { map is_site_right (sited 1 2 2 ∷ sited 2 2 2 ∷ sited 0 2 1 ∷ sited 0 2 3 ∷ []) ≡ true ∷ false ∷ false ∷ false ∷ [] }
{}

/// Parameters and counters.
pub fn parameters_have_bounds()
    ensures global { map (λ n. are_parameters_right (record fresh { global_limit = n })) (0 ∷ 10000 ∷ 10001 ∷ []) ≡ true ∷ true ∷ false ∷ [] }
    ensures patience { map (λ n. are_parameters_right (record fresh { patience = n })) (0 ∷ 1 ∷ 86400 ∷ 86401 ∷ []) ≡ false ∷ true ∷ true ∷ false ∷ [] }
    ensures retry { map (λ n. are_parameters_right (record fresh { retry_wait = n })) (0 ∷ 1 ∷ 86400 ∷ 86401 ∷ []) ≡ false ∷ true ∷ true ∷ false ∷ [] }
    ensures sequence { map (λ n. are_parameters_right (record fresh { seq = n })) (4294967294 ∷ 4294967295 ∷ []) ≡ true ∷ false ∷ [] }
    ensures arrivals { map (λ n. are_parameters_right (record fresh { arrivals = n })) (18446744073709551615 ∷ 18446744073709551616 ∷ []) ≡ true ∷ false ∷ [] }
    ensures files { map (λ n. are_parameters_right (record fresh { file_next = n })) (0 ∷ 1 ∷ 18446744073709551615 ∷ 18446744073709551616 ∷ [])
        ≡ false ∷ true ∷ true ∷ false ∷ [] }
    ensures default { map (λ q. are_parameters_right (record fresh { default_queue = q })) (None ∷ Some (codes "batch") ∷ Some (codes "nope") ∷ [])
        ≡ true ∷ true ∷ false ∷ [] }
{}

/// Lists have at most so many items.
pub fn lists_have_bounds()
    ensures queues { map (λ n. are_lists_short (with_queues n)) (256 ∷ 257 ∷ []) ≡ true ∷ false ∷ [] }
    ensures complexes { map (λ n. are_lists_short (with_complexes n)) (64 ∷ 65 ∷ []) ≡ true ∷ false ∷ [] }
    ensures devices { map (λ n. are_lists_short (with_devices n)) (64 ∷ 65 ∷ []) ≡ true ∷ false ∷ [] }
    ensures managers { map (λ n. are_lists_short (with_managers n)) (256 ∷ 257 ∷ []) ≡ true ∷ false ∷ [] }
    ensures operators { map (λ n. are_lists_short (with_operators n)) (256 ∷ 257 ∷ []) ≡ true ∷ false ∷ [] }
    ensures held { map (λ n. are_lists_short (crowded n)) (9999 ∷ 10000 ∷ []) ≡ true ∷ false ∷ [] }
{}

/// No two queues, complexes, devices, rows, handovers, promises, stages or files have one key.
///
/// And no two rows or promises have one arrival, no two promises one peer, no two offers one row.
pub fn keys_are_apart()
    ensures apart { are_keys_distinct apart ≡ true }
    ensures twice { map are_keys_distinct not_apart ≡ replicate 8 false }
    ensures arrivals { map (λ s. are_distinct same_number (arrivals_of s)) (record fresh {
      rows = queued 1 ∷ queued 2 ∷ [];
      promises = promise 1 3
          ∷ promise 2 4 ∷ [];
    } ∷ record fresh { rows = queued 1 ∷ queued 2 ∷ queued 1 ∷ [] }
        ∷ record fresh { rows = queued 1 ∷ queued 2 ∷ []; promises = promise 1 3 ∷ promise 2 3 ∷ [] }
        ∷ record fresh { rows = queued 1 ∷ queued 2 ∷ []; promises = promise 1 2 ∷ [] } ∷ [])
        ≡ true ∷ false ∷ false ∷ false ∷ [] }
    ensures promises { map are_keys_distinct (record fresh { promises = promise 1 1 ∷ record (promise 1 2) { peer = host 0 } ∷ [] }
        ∷ record fresh { promises = promise 1 1 ∷ promise 2 2 ∷ [] } ∷ record fresh { promises = promise 1 1 ∷ promise 1 2 ∷ [] } ∷ [])
        ≡ true ∷ true ∷ false ∷ [] }
    ensures offers { map (λ p. are_distinct id_eq (offered_ids (record fresh {
      hands = hand 1 1 (request 8 0) Offered ∷ hand 2 1 (request 8 0) p
          ∷ hand 1 2 (request 9 0) Offered ∷ [];
    }))) (Committed ∷ Offered ∷ []) ≡ true ∷ false ∷ [] }
{}

/// Queues and complexes.
pub fn queues_have_bounds()
    ensures queues { map (is_queue_right with_two_devices) queue_bounds ≡ replicate 7 true ++ replicate 8 false }
    ensures devices { map may_list (64 ∷ 65 ∷ []) ≡ true ∷ false ∷ [] }
    ensures complexes { map (is_complex_right fresh) (complex 10000 (codes "batch" ∷ []) ∷ complex 10001 (codes "batch" ∷ [])
        ∷ complex 1 (codes "batch" ∷ codes "nope" ∷ []) ∷ complex 1 [] ∷ []) ≡ true ∷ false ∷ false ∷ true ∷ [] }
{}

/// Rows and promises.
pub fn rows_have_bounds()
    ensures right { map is_row_of_home right_rows ≡ replicate 14 true }
    ensures wrong { map is_row_of_home wrong_rows ≡ replicate 23 false }
    ensures first_promise { is_promise_right (home (queued 1)) (promise 1 3) ≡ true }
    ensures promises { map is_promise_of_home promise_bounds ≡ replicate 2 true ++ replicate 8 false }
{}

/// Handovers, peers, stages and files.
pub fn numbers_have_bounds()
    ensures hands { map (is_hand_right handing) hand_bounds ≡ replicate 4 true ++ replicate 10 false }
    ensures few { map (λ n. list_all (has_few_hands (with_hands n)) (with_hands n).hands) (8 ∷ 9 ∷ []) ≡ true ∷ false ∷ [] }
    ensures peers { map is_peer_right (new_peer ∷ record new_peer { next = 0 } ∷ record new_peer { stage_next = 0 }
        ∷ record new_peer { floor = 9; wait = 9; stage_got = 9 } ∷ []) ≡ true ∷ false ∷ false ∷ true ∷ [] }
    ensures closed { map (λ ns. is_peer_right (record new_peer { floor = 4; closed = ns })) ((5 ∷ []) ∷ (5 ∷ 6 ∷ 900 ∷ []) ∷ upwards 5 70 ∷ (4 ∷ [])
        ∷ (3 ∷ []) ∷ (6 ∷ 5 ∷ []) ∷ (5 ∷ 5 ∷ []) ∷ (5 ∷ 7 ∷ 6 ∷ []) ∷ []) ≡ replicate 3 true ++ replicate 5 false }
    ensures stages { map (is_stage_right staging) (a_stage 1 1 ∷ a_stage 1 2 ∷ a_stage 1 0 ∷ a_stage 1 3 ∷ a_stage 0 1 ∷ a_stage 2 1
        ∷ record (a_stage 1 1) { path = bad_path } ∷ []) ≡ true ∷ true ∷ false ∷ false ∷ false ∷ false ∷ false ∷ [] }
    ensures files { map (is_file_right staging) (a_file 1 ∷ a_file 2 ∷ a_file 0 ∷ a_file 3 ∷ record (a_file 1) { path = bad_path } ∷ [])
        ≡ true ∷ true ∷ false ∷ false ∷ false ∷ [] }
    ensures parts { map (are_parts_short length) (with_part 32768) ≡ replicate 4 true }
    ensures long_outputs { map (are_parts_short length) (with_part 32769) ≡ true ∷ true ∷ false ∷ false ∷ [] }
    ensures long_scripts { map (are_parts_short (λ bytes. 1048576)) (with_part 1) ≡ true ∷ true ∷ false ∷ false ∷ [] }
    ensures long_parts { map (are_parts_short (λ bytes. 1048577)) (with_part 1) ≡ replicate 4 false }
{}

/// At every moment: who may be doomed and held, that what routes is offered, that a promise is
/// free, that a handover's request was given.
pub fn moments_have_bounds()
    ensures doomed { map (λ r. is_doom_right (doomed r)) (running 1 ∷ queued 1 ∷ on_the_way 1 ∷ []) ≡ true ∷ false ∷ false ∷ [] }
    ensures not_doomed { map is_doom_right (running 1 ∷ queued 1 ∷ on_the_way 1 ∷ []) ≡ true ∷ true ∷ true ∷ [] }
    ensures held { map (λ r. is_hold_right (held r)) (queued 1 ∷ running 1 ∷ on_the_way 1 ∷ []) ≡ true ∷ false ∷ false ∷ [] }
    ensures not_held { map is_hold_right (running 1 ∷ queued 1 ∷ on_the_way 1 ∷ []) ≡ true ∷ true ∷ true ∷ [] }
    ensures offered { map (λ s. has_hand s (on_the_way 1)) (with_hand 1 Offered ∷ with_hand 1 Committed ∷ with_hand 2 Offered ∷ fresh ∷ [])
        ≡ true ∷ false ∷ false ∷ false ∷ [] }
    ensures no_hand { map (has_hand fresh) (queued 1 ∷ running 1 ∷ []) ≡ true ∷ true ∷ [] }
    ensures promises { map (λ r. is_promise_free (record (promise 1 1) { row = r })) (queued 1 ∷ record (queued 1) { hold = User }
        ∷ record (queued 1) { hold = System } ∷ record (queued 1) { doomed = true } ∷ []) ≡ true ∷ false ∷ false ∷ false ∷ [] }
    ensures given { map (λ id. is_hand_of_given (record fresh { seq = 9 }) (hand 1 1 id Offered)) (request 9 0 ∷ request 10 0 ∷ request 10 1 ∷ [])
        ≡ true ∷ false ∷ true ∷ [] }
{}
