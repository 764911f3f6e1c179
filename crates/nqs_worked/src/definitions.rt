//! Single definitions that are computed: limits of lists, last numbers, states in order, changes
//! that fit, and texts.
ghost use Rattle.std.specs.Prelude.{◌≡◌, codes, [], ◌∷◌, ◌++◌, map, replicate, length, true, false, None, Some, Ok, Err};
ghost use Rattle.nqs_worked.specs.Definitions.{refused, near, refused_by, with_queues, with_complexes, with_devices, with_managers, with_operators, with_users};
ghost use Rattle.nqs_worked.specs.Definitions.{with_dests, fresh, far, link, with_link, carried, queued, in_link, running, with_row, on_its_way, handed_over};
ghost use Rattle.nqs_worked.specs.Definitions.{promise, with_promise, listing, crowded, fit_each, order_told, is_all_right, refusals, sample, far_carried};
ghost use Rattle.nqs_worked.specs.Definitions.{closed_numbers, upwards, with_hands};
ghost use Rattle.nqs_worked.specs.Definitions.{with_peer, wrong_states, with_promised, planned, busy, a_stage, sends, told_at, changed_at};
ghost use Rattle.nqs_types.specs.declared.edit.Edit.TheVariants.{Conf, Limits, Access, Devices, Rows};
ghost use Rattle.nqs_types.specs.declared.edit.ConfEdit.TheVariants.{CreateBatchQueue, AddDestination, SetPriority, SetRunLimit, SetPatience, SetRetryWait};
ghost use Rattle.nqs_types.specs.declared.edit.LimitsEdit.TheVariants.{CreateComplex, SetUserLimit, SetCpuLimit, SetComplexLimit, SetGlobalLimit};
ghost use Rattle.nqs_types.specs.declared.edit.AccessEdit.TheVariants.{AddManager, AddOperator, AddUser};
ghost use Rattle.nqs_types.specs.declared.edit.DevicesEdit.TheVariants.{CreateDevice};
ghost use Rattle.nqs_types.specs.declared.edit.RowsEdit.TheVariants.{HoldRequest, ReleaseRequest, MoveRequest, ModifyRequest};
ghost use Rattle.nqs_types.specs.declared.queue.Access.TheVariants.{Users};
ghost use Rattle.nqs_types.specs.declared.rule.Entry.TheVariants.{Direct, FromPipe};
ghost use Rattle.nqs_base.specs.declared.tear.Tear.TheVariants.{Old, New, Mixed};
ghost use Rattle.nqs_types.specs.declared.refusal.Refusal.TheVariants.{Disabled, PipeOnly, NoAccess, OverCpu, OverMemory, TooMany, NumbersUsed, RequestExists};
ghost use Rattle.nqs_types.specs.declared.refusal.Refusal.TheVariants.{HostFull};
ghost use Rattle.nqs_types.specs.declared.request.RowState.TheVariants.{Queued, Running};
ghost use Rattle.nqs_types.specs.declared.request.Hold.TheVariants.{User, System};
ghost use Rattle.nqs_types.specs.declared.request.Phase.TheVariants.{Offered, Committed};
ghost use Rattle.nqs_types.specs.declared.change.Change.TheVariants.{Site, Submitted, Deleted, Doomed, Started, Ended, Unlaunched, Boot, Edited, HandOpened};
ghost use Rattle.nqs_types.specs.declared.change.Change.TheVariants.{HandCommitted, HandRefused, HandsSilent, HandDone, OldPromised, Promised, Accepted};
ghost use Rattle.nqs_types.specs.declared.change.Change.TheVariants.{Dropped};
ghost use Rattle.nqs_types.specs.declared.change.Change.TheVariants.{MovedLocal, RefusedLocal, HeldFar, StageGot, StageGone, FileGone};
ghost use Rattle.nqs_types.specs.declared.message.Body.TheVariants as body;
ghost use Rattle.nqs_types.specs.declared.event.Output.TheVariants as out;
ghost use Rattle.nqs_types.specs.declared.event.Reply.TheVariants.{Refused, Done, UnreadLine, UnreadWords};
ghost use Rattle.nqs_types.specs.declared.event.Event.TheVariants as event;
ghost use Rattle.nqs_types.specs.declared.event.Command.TheVariants.{Tick};
ghost use Rattle.nqs_types.specs.declared.fault.GrammarFault.TheVariants as grammar;
ghost use Rattle.nqs_types.specs.declared.fault.WordsCause.TheVariants as words_cause;
ghost use Rattle.nqs_types.specs.declared.table_row.NetState.TheVariants.{Arriving};
ghost use Rattle.nqs_rules.specs.Tests.{last_u64, last_seq};
ghost use Rattle.nqs_rules.specs.Format.{first_queue, new_peer};
ghost use Rattle.nqs_rules.specs.Causes.{first_refusal};
ghost use Rattle.nqs_rules.specs.Find.{peer_number};
ghost use Rattle.nqs_base.specs.Path.{is_path};
ghost use Rattle.nqs_rules.specs.Access.{may_use};
ghost use Rattle.nqs_rules.specs.Conf.{is_conf_within};
ghost use Rattle.nqs_rules.specs.Limits.{over_limits, is_limits_within};
ghost use Rattle.nqs_rules.specs.Rows.{submit_causes, is_rows_within};
ghost use Rattle.nqs_rules.specs.Order.{is_within_limits, is_eligible};
ghost use Rattle.nqs_rules.specs.Plain.{map_state};
ghost use Rattle.nqs_rules.specs.InOrder.{IsInOrder, IsWholeInOrder, IsConsistent, are_parts_short};
ghost use Rattle.nqs_rules.specs.Routing.{destination, refusal_noted};
ghost use Rattle.nqs_rules.specs.Handover.{later, offer_causes, on_tick};
ghost use Rattle.nqs_rules.specs.Stage.{kept_parts, on_end, on_stage};
ghost use Rattle.nqs_rules.specs.Start.{limits_of, local_causes};
ghost use Rattle.nqs_rules.specs.Applied.{applied, booted_row};
ghost use Rattle.nqs_rules.specs.Fits.{fits};
ghost use Rattle.nqs_rules.specs.Stepped.{makes, message, ready, plan_of, map_stepped};
ghost use Rattle.nqs_rules.specs.World.{keeps_gate, is_less_id};
ghost use Rattle.nqs_rules.specs.Measure.{starts_left};
ghost use Rattle.nqs_rules.specs.Net.{is_table, entry_of, last_given, table};
ghost use Rattle.nqs_rules.specs.Transcript.{lines, reply_text};
ghost use Rattle.nqs_worked.specs.ScheduleWords.{host, request, named, typed, job_of, one_host, two_hosts, bad_words};
ghost use Rattle.nqs_worked.specs.OneHost.{request_goes_round, devices_and_forms};
ghost use Rattle.nqs_worked.specs.Network.{handover, source_stops_at_commit, late_copies, site_of_two};
ghost use Rattle.nqs_worked.specs.SmallHost.{jobs_are_told_to_end, requests_are_held_and_moved};
ghost use Rattle.nqs_worked.specs.QueueEdits.{devices_are_edited};
ghost use Rattle.nqs_worked.specs.Stops.{outputs_are_written, rows_come_back_in_order};
ghost use Rattle.nqs_worked.specs.SmallNetwork.{purge_keeps_what_is_active, packets_repeat_after_boots, stages_repeat, peer_is_silent};
ghost use Rattle.nqs_worked.specs.SmallNetwork.{promises_count_for_a_queue};
ghost use Rattle.nqs_worked.specs.ManyHandovers.{ninth_waits, offers_cross, one_of_three_is_deleted, several_outlive_boots, silent_offers_are_passed};

/// A list that has its greatest number of items takes no further one.
pub fn lists_have_limits()
    ensures queues { map (λ n. refused (Conf (CreateBatchQueue (codes "x") None None false)) (with_queues n)) (255 ∷ 256 ∷ []) ≡ Ok tt ∷ Err TooMany ∷ [] }
    ensures complexes { map (λ n. refused (Limits (CreateComplex (codes "x"))) (with_complexes n)) (63 ∷ 64 ∷ []) ≡ Ok tt ∷ Err TooMany ∷ [] }
    ensures devices { map (λ n. refused (Devices (CreateDevice (codes "x") (codes "f"))) (with_devices n)) (63 ∷ 64 ∷ []) ≡ Ok tt ∷ Err TooMany ∷ [] }
    ensures managers { map (λ n. refused (Access (AddManager (codes "x"))) (with_managers n)) (255 ∷ 256 ∷ []) ≡ Ok tt ∷ Err TooMany ∷ [] }
    ensures operators { map (λ n. refused (Access (AddOperator (codes "x"))) (with_operators n)) (255 ∷ 256 ∷ []) ≡ Ok tt ∷ Err TooMany ∷ [] }
    ensures users { map (λ n. refused (Access (AddUser (codes "x") (codes "batch"))) (with_users n)) (255 ∷ 256 ∷ []) ≡ Ok tt ∷ Err TooMany ∷ [] }
    ensures dests { map (λ n. refused (Conf (AddDestination (typed (codes "x") (codes "beta")) (codes "link"))) (with_dests n)) (15 ∷ 16 ∷ [])
        ≡ Ok tt ∷ Err TooMany ∷ [] }
{}

/// The last sequence number but one is given, and no arrival number behind the last.
pub fn numbers_end()
    ensures sequence { map (λ n. first_refusal (submit_causes sample (record fresh { seq = n }))) (4294967293 ∷ 4294967294 ∷ [])
        ≡ Ok tt ∷ Err NumbersUsed ∷ [] }
    ensures arrivals { map (λ n. first_refusal (submit_causes sample (record fresh { arrivals = n }))) (18446744073709551614 ∷ 18446744073709551615 ∷ [])
        ≡ Ok tt ∷ Err NumbersUsed ∷ [] }
    ensures offers { map (λ n. first_refusal (offer_causes (host 1) 1 (codes "batch") far_carried (record fresh { arrivals = n })))
        (18446744073709551614 ∷ 18446744073709551615 ∷ []) ≡ Ok tt ∷ Err NumbersUsed ∷ [] }
    ensures given { map (λ n. first_refusal (offer_causes (host 1) 1 (codes "batch") (carried 5) (record fresh { seq = n }))) (4 ∷ 5 ∷ [])
        ≡ Err (RequestExists (named 5 (codes "alpha"))) ∷ Ok tt ∷ [] }
    ensures full_first { first_refusal (submit_causes sample (record (crowded 9999) { seq = 4294967294 })) ≡ Err HostFull }
    ensures moves { map (λ n. refused (Rows (MoveRequest (named 1 (codes "alpha")) (codes "link")))
        (record (with_row (queued 1)) { arrivals = n; queues = first_queue ∷ record link { enabled = true } ∷ [] }))
        (18446744073709551614 ∷ 18446744073709551615 ∷ []) ≡ Ok tt ∷ Err NumbersUsed ∷ [] }
    ensures local { map (λ n. first_refusal (local_causes (codes "batch") (record fresh { arrivals = n }) (queued 1)))
        (18446744073709551614 ∷ 18446744073709551615 ∷ []) ≡ Ok tt ∷ Err NumbersUsed ∷ [] }
    ensures sums { map (λ n. later 18446744073709551600 n) (14 ∷ 15 ∷ 16 ∷ 86400 ∷ [])
        ≡ 18446744073709551614 ∷ 18446744073709551615 ∷ 18446744073709551615 ∷ 18446744073709551615 ∷ [] }
{}

/// A host has at most 10,000 rows and promises, and an offer doesn't count the promises of its peer
/// below its low.
pub fn hosts_are_full()
    ensures submissions { map (λ n. first_refusal (submit_causes sample (crowded n))) (9998 ∷ 9999 ∷ []) ≡ Ok tt ∷ Err HostFull ∷ [] }
    ensures same_peer { map (λ low. first_refusal (offer_causes (host 1) low (codes "batch") far_carried (crowded 9999))) (3 ∷ 4 ∷ [])
        ≡ Err HostFull ∷ Ok tt ∷ [] }
    ensures numbers { first_refusal (offer_causes (host 0) 4 (codes "batch") far_carried (record (crowded 9999) { arrivals = 18446744073709551615 }))
        ≡ Err HostFull }
    ensures other_peer { first_refusal (offer_causes (host 0) 4 (codes "batch") far_carried (crowded 9999)) ≡ Err HostFull }
{}

/// A destination on another host is tried where it hasn't refused, fewer than eight handovers to
/// that host are open, a number is left that is less than 64 above the low, and the wait is over.
pub fn destinations_are_free()
    ensures numbers { map (λ n. destination link 7 (with_peer (record new_peer { next = n })) (in_link 1)) (18446744073709551614 ∷ 18446744073709551615 ∷ [])
        ≡ Some 0 ∷ None ∷ [] }
    ensures waits { map (λ n. destination link 7 (with_peer (record new_peer { wait = n })) (in_link 1)) (7 ∷ 8 ∷ []) ≡ Some 0 ∷ None ∷ [] }
    ensures hands { map (λ s. destination link 7 s (in_link 1)) (with_link ∷ on_its_way ∷ handed_over ∷ []) ≡ Some 0 ∷ Some 0 ∷ Some 0 ∷ [] }
    ensures eight { map (λ ns. destination link 7 (with_hands Offered ns 9) (in_link 1)) (upwards 1 7 ∷ upwards 1 8 ∷ []) ≡ Some 0 ∷ None ∷ [] }
    ensures committed { map (λ ns. destination link 7 (with_hands Committed ns 9) (in_link 1)) (upwards 1 7 ∷ upwards 1 8 ∷ [])
        ≡ Some 0 ∷ None ∷ [] }
    ensures window { map (λ n. destination link 7 (with_hands Committed (1 ∷ []) n) (in_link 1)) (64 ∷ 65 ∷ []) ≡ Some 0 ∷ None ∷ [] }
    ensures settled { map (λ n. destination link 7 (with_hands Committed (2 ∷ []) n) (in_link 1)) (65 ∷ 66 ∷ []) ≡ Some 0 ∷ None ∷ [] }
    ensures refusals { map (λ d. destination link 7 with_link (record (in_link 1) { refused = record { dest = d; cause = 19 } ∷ [] }))
        (far ∷ record far { host = host 0 } ∷ []) ≡ None ∷ Some 0 ∷ [] }
{}

/// A refusal is noted, those of removed destinations go, and the system holds a request that each
/// destination has refused.
pub fn refusals_are_noted()
    ensures all { refusal_noted (far ∷ []) far 19 (refused_by near 3) ≡ record (refused_by far 19) { hold = System } }
    ensures some { refusal_noted (near ∷ far ∷ []) far 19 (in_link 1) ≡ refused_by far 19 }
    ensures both { refusal_noted (near ∷ far ∷ []) far 19 (refused_by near 3)
        ≡ record (in_link 1) { refused = record { dest = near; cause = 3 } ∷ record { dest = far; cause = 19 } ∷ []; hold = System } }
    ensures removed { refusal_noted (near ∷ []) far 19 (in_link 1) ≡ in_link 1 }
    ensures none { refusal_noted [] far 19 (in_link 1) ≡ record (in_link 1) { hold = System } }
{}

/// What changes of one row leave of it.
pub fn rows_are_changed()
    ensures release { (applied (Edited (Rows (ReleaseRequest (named 1 (codes "alpha")))))
        (with_row (record (refused_by far 3) { hold = System; hops = 32 }))).rows ≡ in_link 1 ∷ [] }
    ensures moved { (applied (Edited (Rows (MoveRequest (named 1 (codes "alpha")) (codes "batch"))))
        (with_row (record (refused_by far 3) { hold = User; hops = 5 }))).rows ≡ record (queued 1) { hold = User; arrival = 10 } ∷ [] }
    ensures local { (applied (MovedLocal (request 1 0) (codes "batch")) (with_row (record (refused_by far 3) { hops = 5 }))).rows
        ≡ record (queued 1) { arrival = 10; hops = 6 } ∷ [] }
    ensures arrivals { (applied (MovedLocal (request 1 0) (codes "batch")) (with_row (queued 1))).arrivals ≡ 10 }
    ensures hold { (applied (Edited (Rows (HoldRequest (named 1 (codes "alpha"))))) (with_row (queued 1))).rows ≡ record (queued 1) { hold = User } ∷ [] }
    ensures far { (applied (HeldFar (request 1 0)) (with_row (queued 1))).rows ≡ record (queued 1) { hold = System } ∷ [] }
    ensures start { (applied (Started (request 1 0) (Some (codes "laser"))) (with_row (queued 1))).rows
        ≡ record (running 1) { device = Some (codes "laser") } ∷ [] }
    ensures doom { (applied (Doomed (request 1 0)) (with_row (running 1))).rows ≡ record (running 1) { doomed = true } ∷ [] }
    ensures refused { (applied (HandRefused (host 1) 1 19) on_its_way).rows ≡ record (refused_by far 19) { hold = System } ∷ [] }
    ensures next { map (λ p. p.next) on_its_way.peers ≡ 1 ∷ 2 ∷ [] }
{}

/// What is on its way counts against the run limit of its queue and against the limit of its owner.
pub fn limits_count_what_routes()
    ensures queue { map (λ n. is_within_limits (record link { run_limit = n }) on_its_way) (1 ∷ 2 ∷ []) ≡ false ∷ true ∷ [] }
    ensures owner { map (λ n. is_eligible (record link { user_limit = n; dests = near ∷ [] }) 9 (record on_its_way { rows = on_its_way.rows ++ in_link 2 ∷ [] })
        (in_link 2)) (Some 1 ∷ Some 2 ∷ None ∷ []) ≡ false ∷ true ∷ true ∷ [] }
    ensures other { is_eligible (record link { user_limit = Some 1; dests = near ∷ [] }) 9 on_its_way (record (in_link 2) { job = job_of (codes "bob") })
        ≡ true }
    ensures far { map (λ n. is_eligible (record link { dests = [] }) 9 with_link (record (in_link 2) { hops = n })) (31 ∷ 32 ∷ []) ≡ false ∷ true ∷ [] }
{}

/// The ways into a queue, and the limits of what is asked for.
pub fn queues_let_in()
    ensures direct { map (λ d. may_use d (codes "ann") Direct) (first_queue ∷ record first_queue { pipe_only = true }
        ∷ record first_queue { pipe_only = true; enabled = false } ∷ record first_queue { access = Users (codes "bob" ∷ []) }
        ∷ record first_queue { pipe_only = true; access = Users [] } ∷ record first_queue { access = Users (codes "bob" ∷ codes "ann" ∷ []) } ∷ [])
        ≡ Ok tt ∷ Err (PipeOnly (codes "batch")) ∷ Err (Disabled (codes "batch")) ∷ Err (NoAccess (codes "batch")) ∷ Err (PipeOnly (codes "batch")) ∷ Ok tt
        ∷ [] }
    ensures pipe { map (λ d. may_use d (codes "ann") FromPipe) (record first_queue { pipe_only = true }
        ∷ record first_queue { pipe_only = true; access = Users [] } ∷ []) ≡ Ok tt ∷ Err (NoAccess (codes "batch")) ∷ [] }
    ensures limits { map (λ n. over_limits (record first_queue { limits = record { cpu = Some 5; memory = Some 7 } }) n)
        (record { cpu = Some 5; memory = Some 7 } ∷ record { cpu = None; memory = Some 8 } ∷ record { cpu = Some 6; memory = Some 8 } ∷ [])
        ≡ Ok tt ∷ Err (OverMemory (codes "batch")) ∷ Err (OverCpu (codes "batch")) ∷ [] }
    ensures conf { map is_conf_within (SetPatience 0 ∷ SetPatience 1 ∷ SetRetryWait 86400 ∷ SetRetryWait 86401 ∷ SetPriority 63 (codes "q")
        ∷ SetPriority 64 (codes "q") ∷ SetRunLimit 10000 (codes "q") ∷ SetRunLimit 10001 (codes "q") ∷ CreateBatchQueue (codes "q") (Some 64) None false
        ∷ CreateBatchQueue (codes "q") None None false ∷ []) ≡ false ∷ true ∷ true ∷ false ∷ true ∷ false ∷ true ∷ false ∷ false ∷ true ∷ [] }
    ensures edits { map is_limits_within (SetUserLimit (Some 10000) (codes "q") ∷ SetUserLimit (Some 10001) (codes "q") ∷ SetGlobalLimit 10001
        ∷ SetCpuLimit (Some 18446744073709551615) (codes "q") ∷ SetComplexLimit 10001 (codes "c") ∷ []) ≡ true ∷ false ∷ false ∷ true ∷ false ∷ [] }
    ensures rows { map is_rows_within (ModifyRequest (named 1 (codes "h")) 63 ∷ ModifyRequest (named 1 (codes "h")) 64 ∷ []) ≡ true ∷ false ∷ [] }
{}

/// A tear keeps a new gate by two bits of its number.
pub fn gates_are_kept()
    ensures { map keeps_gate (Old ∷ New ∷ Mixed 0 ∷ Mixed 1 ∷ Mixed 2 ∷ Mixed 3 ∷ Mixed 4 ∷ Mixed 5 ∷ [])
        ≡ false ∷ true ∷ false ∷ true ∷ false ∷ false ∷ false ∷ true ∷ [] }
{}

/// A table is by host and then by request, and the least request is by host of submission and then
/// by number.
pub fn requests_are_ordered()
    ensures table { map (λ r. r.id) (table (record fresh {
      rows = record (queued 1) { id = request 2 1 } ∷ record (queued 2) { id = request 1 1 } ∷ queued 9
          ∷ [];
    } ∷ with_promise ∷ with_row (queued 3) ∷ [])) ≡ request 9 0 ∷ request 1 1 ∷ request 2 1 ∷ request 3 0 ∷ [] }
    ensures least { map (λ a. is_less_id a (request 5 1)) (request 9 0 ∷ request 4 1 ∷ request 5 1 ∷ request 1 2 ∷ []) ≡ true ∷ true ∷ false ∷ false ∷ [] }
{}

/// A host with its stored parts replaced is the same host, and a formatted one is in order.
pub fn states_are_plain()
    ensures state { map_state (λ b. b) busy ≡ busy }
    ensures step { map_stepped (λ x. x.length) planned ≡ makes (Ended (request 1 0)
        (record { path = codes "o"; bytes = codes "ab" } ∷ record { path = codes "e"; bytes = codes "c" } ∷ []))
        (ready (out.Ended (request 1 0) 1 0) ∷ (out.File 4 (codes "o") [], Some 2) ∷ (out.File 5 (codes "e") [], Some 3) ∷ []) }
    ensures parts { map (λ n. are_parts_short (λ b. n) busy) (32768 ∷ 32769 ∷ []) ≡ true ∷ false ∷ [] }
    ensures order { IsInOrder fresh }
    ensures whole { IsWholeInOrder length fresh }
    ensures consistent { IsConsistent fresh }
{}

/// An output that no number is left for is dropped.
pub fn counters_stop()
    ensures files { map (λ n. kept_parts (record fresh { file_next = n }) (running 1) (codes "a") (codes "b"))
        (18446744073709551613 ∷ 18446744073709551614 ∷ 18446744073709551615 ∷ [])
        ≡ (record { path = codes "o"; bytes = codes "a" } ∷ record { path = codes "e"; bytes = codes "b" } ∷ [])
        ∷ (record { path = codes "o"; bytes = codes "a" } ∷ []) ∷ [] ∷ [] }
    ensures stages { map (λ n. kept_parts (with_peer (record new_peer { stage_next = n })) (record (running 1) { id = request 1 1 }) (codes "a") (codes "b"))
        (18446744073709551614 ∷ 18446744073709551615 ∷ [])
        ≡ (record { path = codes "o"; bytes = codes "a" } ∷ []) ∷ [] ∷ [] }
    ensures taken { on_stage (host 1) 1 (codes "o") (codes "a") (record fresh { file_next = 18446744073709551615 })
        ≡ makes (StageGot (host 1) 1 (codes "o") []) (ready (message (host 0) (host 1) (body.Staged 1)) ∷ []) }
    ensures kept { (applied (StageGot (host 1) 1 (codes "o") (codes "a")) (record fresh { file_next = 18446744073709551615 })).files ≡ [] }
    ensures got { map (λ p. p.stage_got) (applied (StageGot (host 1) 4 (codes "o") (codes "a")) (record fresh { file_next = 18446744073709551615 })).peers
        ≡ 0 ∷ 4 ∷ [] }
{}

/// A request that was started 65,535 times, one that was told to end, and one that isn't rerunnable
/// don't start again.
pub fn starts_end()
    ensures again { booted_row (running 65534) ≡ Some (record (queued 1) { starts = 65534; lost = 65534 }) }
    ensures last { booted_row (running 65535) ≡ None }
    ensures doomed { booted_row (record (running 3) { doomed = true }) ≡ None }
    ensures once { booted_row (record (running 1) { job = record (job_of (codes "ann")) { rerun = false } }) ≡ None }
    ensures device { booted_row (record (running 3) { device = Some (codes "laser") }) ≡ Some (record (queued 1) { starts = 3; lost = 3 }) }
    ensures others { booted_row (in_link 1) ≡ Some (in_link 1) }
{}

/// A launcher is told the request's limits, and where it states none the queue's.
pub fn limits_are_told()
    ensures { limits_of (record { cpu = None; memory = Some 5 }) (Some (record first_queue { limits = record { cpu = Some 60; memory = Some 1024 } }))
        ≡ record { cpu = Some 60; memory = Some 5 } }
{}

/// Each start lowers a number that is at most 577 for each request.
pub fn starts_are_bounded()
    ensures { map (λ r. starts_left (with_row r)) (in_link 1 ∷ record (in_link 1) { hops = 32 } ∷ queued 1 ∷ running 1 ∷ record (in_link 1) { hold = User }
        ∷ record (in_link 1) { refused = record { dest = far; cause = 3 } ∷ [] } ∷ [])
        ≡ 562 ∷ 18 ∷ 561 ∷ 0 ∷ 0 ∷ 561 ∷ [] }
{}

/// Paths of outputs.
pub fn paths_are_told()
    ensures right { map is_path (codes "STDIN.o1" ∷ codes "a/b..c/...d" ∷ codes "a/" ∷ codes "a//b" ∷ replicate 255 97 ∷ []) ≡ replicate 5 true }
    ensures wrong { map is_path ([] ∷ codes "/a" ∷ codes ".." ∷ codes "a/../b" ∷ codes "a/.." ∷ codes "a b" ∷ replicate 256 97 ∷ (127 ∷ []) ∷ [])
        ≡ replicate 8 false }
{}

/// Hosts are in order after schedules of many kinds.
pub fn states_are_in_order()
    ensures one { map (order_told one_host) (request_goes_round ∷ devices_and_forms ∷ jobs_are_told_to_end ∷ requests_are_held_and_moved ∷ devices_are_edited
        ∷ outputs_are_written ∷ rows_come_back_in_order ∷ []) ≡ replicate 7 (true ∷ []) }
    ensures two { map (order_told two_hosts) (handover ∷ source_stops_at_commit ∷ late_copies ∷ purge_keeps_what_is_active ∷ packets_repeat_after_boots
        ∷ stages_repeat ∷ peer_is_silent ∷ promises_count_for_a_queue ∷ []) ≡ replicate 8 (true ∷ true ∷ []) }
    ensures many { map (order_told two_hosts) (offers_cross ∷ ninth_waits ∷ silent_offers_are_passed ∷ one_of_three_is_deleted ∷ several_outlive_boots ∷ [])
        ≡ replicate 5 (true ∷ true ∷ []) }
    ensures sites { order_told (codes "cray" ∷ codes "front" ∷ []) site_of_two ≡ true ∷ true ∷ [] }
    ensures right { map is_all_right (fresh ∷ with_row (queued 1) ∷ with_row (running 65535) ∷ on_its_way ∷ handed_over ∷ with_promise ∷ listing 1
        ∷ record with_promise { promises = promise 3 3 ∷ promise 4 4 ∷ [] } ∷ with_hands Committed (upwards 1 8) 9
        ∷ with_peer (record new_peer { floor = 2; closed = 3 ∷ 5 ∷ 70 ∷ [] }) ∷ []) ≡ replicate 10 true }
    ensures wrong { map is_all_right (wrong_states) ≡ replicate 19 false }
{}

/// Which changes fit a formatted host, one with a queued request, and so on.
pub fn changes_fit()
    ensures fresh { fit_each (Site (host 0) two_hosts ∷ Submitted (codes "batch") (carried 1).job [] ∷ Submitted (codes "x") (carried 1).job [] ∷ Boot
        ∷ Deleted (request 1 0) ∷ HandsSilent 9 [] ∷ FileGone 1 ∷ StageGone (host 1) 1 ∷ StageGot (host 1) 1 (codes "o") [] ∷ StageGot (host 1) 0 (codes "o") []
        ∷ StageGot (host 2) 1 (codes "o") [] ∷ []) fresh
        ≡ false ∷ true ∷ false ∷ true ∷ false ∷ true ∷ false ∷ false ∷ true ∷ false ∷ false ∷ [] }
    ensures queued { fit_each (Deleted (request 1 0) ∷ Doomed (request 1 0) ∷ Started (request 1 0) None ∷ Started (request 1 0) (Some (codes "laser"))
        ∷ Ended (request 1 0) [] ∷ Unlaunched (request 1 0) ∷ HandOpened (host 1) 1 (request 1 0) (codes "nope") 5
        ∷ HandOpened (host 1) 2 (request 1 0) (codes "nope") 5 ∷ HandOpened (host 2) 1 (request 1 0) (codes "nope") 5 ∷ MovedLocal (request 1 0) (codes "link")
        ∷ MovedLocal (request 1 0) (codes "nope") ∷ RefusedLocal (request 1 0) (codes "nope") 3 ∷ HeldFar (request 1 0) ∷ []) (with_row (queued 1))
        ≡ true ∷ false ∷ true ∷ false ∷ false ∷ false ∷ true ∷ false ∷ false ∷ true ∷ false ∷ true ∷ true ∷ [] }
    ensures far { fit_each (HandOpened (host 1) 1 (request 1 0) (codes "batch") 5 ∷ MovedLocal (request 1 0) (codes "link") ∷ HeldFar (request 1 0) ∷ [])
        (with_row (record (queued 1) { hops = 32 })) ≡ false ∷ false ∷ true ∷ [] }
    ensures held { fit_each (Deleted (request 1 0) ∷ Started (request 1 0) None ∷ MovedLocal (request 1 0) (codes "link")
        ∷ RefusedLocal (request 1 0) (codes "nope") 3 ∷ HeldFar (request 1 0) ∷ []) (with_row (record (queued 1) { hold = User }))
        ≡ true ∷ false ∷ false ∷ false ∷ false ∷ [] }
    ensures runs { fit_each (Deleted (request 1 0) ∷ Doomed (request 1 0) ∷ Started (request 1 0) None ∷ Ended (request 1 0) [] ∷ Unlaunched (request 1 0) ∷ [])
        (with_row (running 1)) ≡ false ∷ true ∷ false ∷ true ∷ true ∷ [] }
    ensures offered { fit_each (Deleted (request 1 0) ∷ HandCommitted (host 1) 1 ∷ HandCommitted (host 1) 2 ∷ HandRefused (host 1) 1 3
        ∷ HandsSilent 9 (peer_number (host 1) 1 ∷ []) ∷ HandsSilent 9 (peer_number (host 0) 1 ∷ []) ∷ HandDone (host 1) 1 ∷ []) on_its_way
        ≡ true ∷ true ∷ false ∷ true ∷ true ∷ false ∷ false ∷ [] }
    ensures committed { fit_each (HandCommitted (host 1) 1 ∷ HandRefused (host 1) 1 3 ∷ HandsSilent 9 (peer_number (host 1) 1 ∷ []) ∷ HandDone (host 1) 1
        ∷ []) handed_over ≡ false ∷ false ∷ false ∷ true ∷ [] }
    ensures promised { fit_each (Promised (host 1) 3 1 (codes "batch") far_carried [] ∷ Promised (host 1) 4 1 (codes "batch") far_carried []
        ∷ Promised (host 1) 2 1 (codes "batch") far_carried [] ∷ Promised (host 1) 4 1 (codes "nope") far_carried []
        ∷ Promised (host 1) 0 1 (codes "batch") far_carried [] ∷ Promised (host 1) 4 1 (codes "batch") (carried 1) []
        ∷ Promised (host 2) 4 1 (codes "batch") far_carried [] ∷ Accepted (host 1) 3 ∷ Accepted (host 1) 4
        ∷ Dropped (host 1) 3 ∷ Dropped (host 0) 3 ∷ []) with_promise
        ≡ false ∷ true ∷ true ∷ false ∷ false ∷ false ∷ false ∷ true ∷ false ∷ true ∷ false ∷ [] }
    ensures old { fit_each (OldPromised (host 1) 3 (codes "batch") far_carried [] ∷ OldPromised (host 1) 4 (codes "batch") far_carried []
        ∷ OldPromised (host 1) 4 (codes "nope") far_carried [] ∷ []) with_promise ≡ false ∷ true ∷ false ∷ [] }
{}

/// A promise is taken or dropped, and its number is closed then. A new one drops those of its peer
/// below its low, and one as older versions noted it all of its peer below itself.
pub fn promises_are_kept()
    ensures left { map (λ low. map (λ p. p.number) (applied (Promised (host 1) 5 low (codes "batch") far_carried []) with_promise).promises)
        (1 ∷ 3 ∷ 4 ∷ 5 ∷ []) ≡ (3 ∷ 5 ∷ []) ∷ (3 ∷ 5 ∷ []) ∷ (5 ∷ []) ∷ (5 ∷ []) ∷ [] }
    ensures old { map (λ p. p.number) (applied (OldPromised (host 1) 5 (codes "batch") far_carried []) with_promise).promises ≡ 5 ∷ [] }
    ensures arrival { map (λ p. p.row.arrival) (applied (Promised (host 1) 5 5 (codes "batch") far_carried []) with_promise).promises ≡ 10 ∷ [] }
    ensures closed { map (λ c. map closed_numbers (applied c with_promise).peers)
        (Promised (host 1) 5 4 (codes "batch") far_carried [] ∷ Promised (host 1) 5 1 (codes "batch") far_carried []
        ∷ OldPromised (host 1) 5 (codes "batch") far_carried [] ∷ Accepted (host 1) 3 ∷ Dropped (host 1) 3 ∷ [])
        ≡ ((0 ∷ []) ∷ (3 ∷ []) ∷ []) ∷ ((0 ∷ []) ∷ (0 ∷ []) ∷ []) ∷ ((0 ∷ []) ∷ (4 ∷ []) ∷ [])
        ∷ ((0 ∷ []) ∷ (0 ∷ 3 ∷ []) ∷ []) ∷ ((0 ∷ []) ∷ (0 ∷ 3 ∷ []) ∷ []) ∷ [] }
    ensures behind { map (λ low. map (λ p. p.number) (applied (Promised (host 2) 10 low (codes "batch") far_carried []) busy).promises) (9 ∷ 10 ∷ [])
        ≡ (9 ∷ 3 ∷ 10 ∷ []) ∷ (3 ∷ 10 ∷ []) ∷ [] }
    ensures taken { (applied (Accepted (host 1) 3) with_promise).rows ≡ (promise 3 3).row ∷ [] }
    ensures once { (applied (Accepted (host 1) 3) (record with_promise { rows = (promise 3 3).row ∷ [] })).rows ≡ (promise 3 3).row ∷ [] }
{}

/// Where a request lies in the network.
pub fn requests_lie()
    ensures table { is_table (handed_over ∷ with_promised ∷ []) ≡ true }
    ensures nowhere { entry_of (request 1 0) (handed_over ∷ fresh ∷ []) ≡ None }
    ensures arriving { entry_of (request 1 0) (handed_over ∷ with_promised ∷ [])
        ≡ Some (record {
          id = request 1 0;
          host = host 1;
          queue = codes "batch";
          state = Arriving;
          owner = codes "ann";
          rerun = true;
          doomed = false;
          starts =
              0;
          lost = 0;
        }) }
    ensures twice { is_table (with_row (queued 1) ∷ with_row (queued 1) ∷ []) ≡ false }
    ensures numbers { map (λ h. last_given h (handed_over ∷ with_promised ∷ [])) (host 0 ∷ host 1 ∷ host 2 ∷ []) ≡ 9 ∷ 0 ∷ 0 ∷ [] }
{}

/// A tick says each handover again, asks for each promise, and sends the least stage to each host
/// and each file, in this order.
pub fn ticks_say_again()
    ensures early { told_at (event.Tick 59) busy ≡
        sends 1 (body.Offer 1 1 (codes "batch") (record (carried 1) { hops = 3 }) (codes "date"))
        ∷ sends 2 (body.Commit 4) ∷ sends 2 (body.Inquire 9) ∷ sends 1 (body.Inquire 3)
        ∷ sends 1 (body.Stage 7 (codes "o") (codes "s")) ∷ sends 2 (body.Stage 1 (codes "o") (codes "s"))
        ∷ out.File 3 (codes "e") (codes "f") ∷ out.File 4 (codes "e") (codes "f") ∷ [] }
    ensures unchanged { changed_at (event.Tick 59) busy ≡ None }
    ensures silent { changed_at (event.Tick 60) busy ≡ Some (HandsSilent 360 (peer_number (host 1) 1 ∷ [])) }
    ensures command { told_at (event.Ask 60 9 77 (codes "ann") Tick) busy ≡
        sends 2 (body.Commit 4) ∷ sends 2 (body.Inquire 9) ∷ sends 1 (body.Inquire 3)
        ∷ sends 1 (body.Stage 7 (codes "o") (codes "s")) ∷ sends 2 (body.Stage 1 (codes "o") (codes "s"))
        ∷ out.File 3 (codes "e") (codes "f") ∷ out.File 4 (codes "e") (codes "f") ∷ out.Reply 9 77 Done ∷ [] }
    ensures back { map (λ r. r.state) (applied (HandsSilent 360 (peer_number (host 1) 1 ∷ [])) busy).rows ≡ Queued ∷ [] }
    ensures waits { map (λ p. p.wait) (applied (HandsSilent 360 (peer_number (host 1) 1 ∷ [])) busy).peers ≡ 0 ∷ 360 ∷ 0 ∷ [] }
{}

/// A client that tells of an end gets an acknowledgement last, in every case, and a datagram of a
/// client among hosts is nothing.
pub fn clients_are_answered()
    ensures unknown { told_at (event.Ended 5 9 (request 1 0) 1 0 [] []) fresh ≡ out.Ack 9 (request 1 0) 1 ∷ [] }
    ensures ended { told_at (event.Ended 5 9 (request 1 0) 1 7 (codes "a") []) (with_row (running 1))
        ≡ out.Ended (request 1 0) 1 7 ∷ out.File 1 (codes "o") (codes "a") ∷ out.Ack 9 (request 1 0) 1 ∷ [] }
    ensures world { told_at (event.Ended 5 0 (request 1 0) 2 7 (codes "a") []) (with_row (running 1)) ≡ [] }
    ensures hosts { told_at (event.Arrived 5 (record { from = host 1; to = host 0; body = body.EndedAck (request 1 0) 1 })) (with_row (running 1)) ≡ [] }
{}

/// Outputs go out of a host one at a time, the least first.
pub fn stages_wait()
    ensures first { told_at (event.Ended 5 0 (request 3 1) 1 0 (codes "a") (codes "b")) (with_row (record (running 1) { id = request 3 1 }))
        ≡ out.Ended (request 3 1) 1 0 ∷ sends 1 (body.Stage 1 (codes "o") (codes "a")) ∷ [] }
    ensures behind { told_at (event.Ended 5 0 (request 3 1) 1 0 (codes "a") [])
        (record (with_row (record (running 1) { id = request 3 1 })) { stages = a_stage 1 7 ∷ [] }) ≡ out.Ended (request 3 1) 1 0 ∷ [] }
    ensures next { told_at (event.Arrived 5 (record { from = host 1; to = host 0; body = body.Staged 8 })) busy
        ≡ sends 1 (body.Stage 7 (codes "o") (codes "s")) ∷ [] }
    ensures unknown { told_at (event.Arrived 5 (record { from = host 1; to = host 0; body = body.Staged 2 })) busy ≡ [] }
{}

/// A plan has the bytes to be stored in order, and names the outputs whose bytes are read from the
/// spool.
pub fn plans_are_made()
    ensures puts { (plan_of planned).puts ≡ codes "ab" ∷ codes "c" ∷ [] }
    ensures outputs { (plan_of planned).outputs ≡ out.Ended (request 1 0) 1 0 ∷ out.File 4 (codes "o") [] ∷ out.File 5 (codes "e") [] ∷ [] }
    ensures reads { (plan_of planned).reads ≡ record { output = 1; extent = record { place = 7; length = 2 } }
        ∷ record { output = 2; extent = record { place = 9; length = 3 } } ∷ [] }
{}

/// The text of each refusal.
pub fn refusals_are_told()
    ensures { map (λ r. reply_text one_host (Refused r)) refusals ≡ map (λ t. lines (t ∷ [])) (
        codes "Refused 1: not a manager."
        ∷ codes "Refused 2: not an operator."
        ∷ codes "Refused 3: no queue q."
        ∷ codes "Refused 4: no complex c."
        ∷ codes "Refused 5: no device d."
        ∷ codes "Refused 6: no request 7.h."
        ∷ codes "Refused 7: no host h."
        ∷ codes "Refused 8: no default queue."
        ∷ codes "Refused 9: queue q exists."
        ∷ codes "Refused 10: complex c exists."
        ∷ codes "Refused 11: device d exists."
        ∷ codes "Refused 12: wrong kind of queue."
        ∷ codes "Refused 13: destination exists."
        ∷ codes "Refused 14: no such destination."
        ∷ codes "Refused 15: not a member."
        ∷ codes "Refused 16: already a member."
        ∷ codes "Refused 17: root stays a manager."
        ∷ codes "Refused 18: not the owner."
        ∷ codes "Refused 19: queue q is disabled."
        ∷ codes "Refused 20: queue q takes requests from pipe queues only."
        ∷ codes "Refused 21: no access to queue q."
        ∷ codes "Refused 22: request 7.h is being routed."
        ∷ codes "Refused 23: request 7.h is running."
        ∷ codes "Refused 24: request 7.h is not held."
        ∷ codes "Refused 25: request 7.h is held."
        ∷ codes "Refused 26: queue q holds 3 requests."
        ∷ codes "Refused 27: device d is busy."
        ∷ codes "Refused 28: over the cpu limit of queue q."
        ∷ codes "Refused 29: over the memory limit of queue q."
        ∷ codes "Refused 30: too many."
        ∷ codes "Refused 31: the host is full."
        ∷ codes "Refused 32: all numbers are used."
        ∷ codes "Refused 33: request 7.h exists."
        ∷ []) }
{}

/// The text of each fault of a line and of words.
pub fn faults_are_told()
    ensures line { map (λ f. reply_text one_host (UnreadLine f)) (grammar.UnknownWord 0 ∷ grammar.Ambiguous 7 ∷ grammar.Missing 12 ∷ grammar.Extra 19
        ∷ grammar.BadName 19 ∷ grammar.BadNumber 8 ∷ []) ≡ map (λ t. lines (t ∷ [])) (
        codes "Bad line at 0: unknown word"
        ∷ codes "Bad line at 7: ambiguous"
        ∷ codes "Bad line at 12: missing"
        ∷ codes "Bad line at 19: extra"
        ∷ codes "Bad line at 19: bad name"
        ∷ codes "Bad line at 8: bad number"
        ∷ []) }
    ensures words { map (λ f. reply_text one_host (UnreadWords f)) (bad_words words_cause.Unknown 0 1 ∷ bad_words words_cause.Missing 0 2
        ∷ bad_words words_cause.Repeated 3 2 ∷ bad_words words_cause.Both 0 2 ∷ bad_words words_cause.BadName 1 1 ∷ bad_words words_cause.BadNumber 0 2
        ∷ bad_words words_cause.BadMoment 0 4 ∷ bad_words words_cause.BadPath 12 10 ∷ bad_words words_cause.ScriptTooLong 0 0 ∷ [])
        ≡ map (λ t. lines (t ∷ [])) (
        codes "Bad word 1: unknown word"
        ∷ codes "Bad word 2: missing"
        ∷ codes "Bad word 2 in script line 3: repeated"
        ∷ codes "Bad word 2: both -e and -eo"
        ∷ codes "Bad word 1 in script line 1: bad name"
        ∷ codes "Bad word 2: bad number"
        ∷ codes "Bad word 4: bad moment"
        ∷ codes "Bad word 10 in script line 12: bad path"
        ∷ codes "Bad word 0: script too long"
        ∷ []) }
{}
