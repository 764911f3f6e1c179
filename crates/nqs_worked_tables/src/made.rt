//! What each kind of change makes of a whole state.
ghost use Rattle.std.specs.Prelude.{◌≡◌, codes, [], ◌∷◌, ◌++◌, map, true, false, None, Some};
ghost use Rattle.nqs_types.specs.declared.request.RowState.TheVariants.{Queued, Routing, Running};
ghost use Rattle.nqs_types.specs.declared.request.Hold.TheVariants.{User, System};
ghost use Rattle.nqs_types.specs.declared.request.Phase.TheVariants.{Offered, Committed};
ghost use Rattle.nqs_types.specs.declared.queue.Kind.TheVariants.{Batch, Device, Pipe};
ghost use Rattle.nqs_types.specs.declared.queue.Access.TheVariants.{Users};
ghost use Rattle.nqs_types.specs.declared.change.Change.TheVariants.{Site, Submitted, Deleted, Doomed, Started, Ended, Unlaunched, Boot, Edited, HandOpened};
ghost use Rattle.nqs_types.specs.declared.change.Change.TheVariants.{HandCommitted, HandRefused, HandsSilent, HandDone, OldPromised, Promised, Accepted};
ghost use Rattle.nqs_types.specs.declared.change.Change.TheVariants.{Dropped};
ghost use Rattle.nqs_types.specs.declared.change.Change.TheVariants.{MovedLocal, RefusedLocal, HeldFar, StageGot, StageGone, FileGone};
ghost use Rattle.nqs_types.specs.declared.edit.Edit.TheVariants.{Conf, Limits, Access, Devices, Rows};
ghost use Rattle.nqs_types.specs.declared.edit.ConfEdit.TheVariants.{CreateBatchQueue, CreateDeviceQueue, CreatePipeQueue, DeleteQueue, EnableQueue};
ghost use Rattle.nqs_types.specs.declared.edit.ConfEdit.TheVariants.{DisableQueue, StartQueue, StopQueue, PurgeQueue, SetPriority, SetRunLimit, AddDestination};
ghost use Rattle.nqs_types.specs.declared.edit.ConfEdit.TheVariants.{RemoveDestination, FirstDestination, SetDefaultQueue, SetNoDefaultQueue, SetPatience};
ghost use Rattle.nqs_types.specs.declared.edit.ConfEdit.TheVariants.{SetRetryWait};
ghost use Rattle.nqs_types.specs.declared.edit.LimitsEdit.TheVariants.{SetUserLimit, SetCpuLimit, SetMemoryLimit, CreateComplex, DeleteComplex, AddQueue};
ghost use Rattle.nqs_types.specs.declared.edit.LimitsEdit.TheVariants.{RemoveQueue, SetComplexLimit, SetGlobalLimit};
ghost use Rattle.nqs_types.specs.declared.edit.AccessEdit.TheVariants.{SetUnrestrictedAccess, SetNoAccess, AddUser, RemoveUser, AddManager, RemoveManager};
ghost use Rattle.nqs_types.specs.declared.edit.AccessEdit.TheVariants.{AddOperator, RemoveOperator};
ghost use Rattle.nqs_types.specs.declared.edit.DevicesEdit.TheVariants.{CreateDevice, DeleteDevice, EnableDevice, DisableDevice, SetForms, AddDevice};
ghost use Rattle.nqs_types.specs.declared.edit.DevicesEdit.TheVariants.{RemoveDevice};
ghost use Rattle.nqs_types.specs.declared.edit.RowsEdit.TheVariants.{AbortQueue, HoldRequest, ReleaseRequest, MoveRequest, ModifyRequest};
ghost use Rattle.nqs_rules.specs.Find.{peer_number};
ghost use Rattle.nqs_rules.specs.Format.{formatted, first_queue, new_peer};
ghost use Rattle.nqs_rules.specs.Stepped.{map_change, stored_parts, plan_of};
ghost use Rattle.nqs_rules.specs.Applied.{applied};
ghost use Rattle.nqs_worked.specs.ScheduleWords.{host, request, named, two_hosts};
ghost use Rattle.nqs_worked.specs.Definitions.{far, near, link, queued, in_link, far_carried, promise, a_stage, a_file, busy, with_row, planned};
ghost use Rattle.nqs_worked_tables.specs.Bounds.{pathed, part, kept_changes};
ghost use Rattle.nqs_worked_tables.specs.Refusals.{full_house, printer, of_each_kind, to_beta, to_alpha};
ghost use Rattle.nqs_worked_tables.specs.OrderBounds.{hand, on_the_way, started};
ghost use Rattle.nqs_worked_tables.specs.Fitting.{route};
ghost use Rattle.nqs_worked_tables.specs.Made.{edited, idle_row, printing_row, routing_row, user_row, system_row, queues_are, batch_is, rows_are, made_queue};
ghost use Rattle.nqs_worked_tables.specs.Made.{incoming, at_work, rests, in_doubt, peers_are, busy_row, stored_changes, part_of_extent};

/// Queues are created last, disabled and stopped, and deleted out of complexes and as the default.
pub fn queues_are_made()
    ensures batch { edited (Conf (CreateBatchQueue (codes "x") (Some 5) (Some 7) true))
        ≡ queues_are (first_queue ∷ printer ∷ link ∷ record (made_queue (codes "x") Batch 5 7 []) { pipe_only = true } ∷ []) }
    ensures device { edited (Conf (CreateDeviceQueue (codes "x") (Some 5) None false))
        ≡ queues_are (first_queue ∷ printer ∷ link ∷ made_queue (codes "x") Device 5 1 [] ∷ []) }
    ensures pipe { edited (Conf (CreatePipeQueue (codes "x") None (Some 7) false (Some (to_beta (codes "y")))))
        ≡ queues_are (first_queue ∷ printer ∷ link ∷ made_queue (codes "x") Pipe 31 7 (record { queue = codes "y"; host = host 1 } ∷ []) ∷ []) }
    ensures no_dest { edited (Conf (CreatePipeQueue (codes "x") None None true None))
        ≡ queues_are (first_queue ∷ printer ∷ link ∷ record (made_queue (codes "x") Pipe 31 1 []) { pipe_only = true } ∷ []) }
    ensures delete_default { edited (Conf (DeleteQueue (codes "batch")))
        ≡ record (queues_are (printer ∷ link ∷ [])) {
          complexes = record { name = codes "both"; limit = 1; queues = codes "gone" ∷ [] }
              ∷ [];
          default_queue = None;
        } }
    ensures delete_other { edited (Conf (DeleteQueue (codes "lp"))) ≡ queues_are (first_queue ∷ link ∷ []) }
    ensures delete_from_complex { applied (Edited (Conf (DeleteQueue (codes "gone")))) (record full_house { default_queue = None })
        ≡ record full_house { complexes = record { name = codes "both"; limit = 1; queues = codes "batch" ∷ [] } ∷ []; default_queue = None } }
{}

/// Edits of one queue, and of parameters.
pub fn queues_are_changed()
    ensures enable { map edited (Conf (EnableQueue (codes "lp")) ∷ Conf (DisableQueue (codes "batch")) ∷ Conf (StartQueue (codes "lp")) ∷ [])
        ≡ queues_are (first_queue ∷ record printer { enabled = true } ∷ link ∷ []) ∷ batch_is (record first_queue { enabled = false })
        ∷ queues_are (first_queue ∷ record printer { started = true } ∷ link ∷ []) ∷ [] }
    ensures stop { applied (Edited (Conf (StopQueue (codes "batch")))) (batch_is (record first_queue { started = true })) ≡ full_house }
    ensures numbers { map edited (Conf (SetPriority 5 (codes "batch")) ∷ Conf (SetRunLimit 7 (codes "batch")) ∷ Limits (SetUserLimit (Some 3) (codes "batch"))
        ∷ Limits (SetCpuLimit (Some 3) (codes "batch")) ∷ Limits (SetMemoryLimit (Some 3) (codes "batch")) ∷ [])
        ≡ batch_is (record first_queue { priority = 5 }) ∷ batch_is (record first_queue { run_limit = 7 })
        ∷ batch_is (record first_queue { user_limit = Some 3 }) ∷ batch_is (record first_queue { limits = record { cpu = Some 3; memory = None } })
        ∷ batch_is (record first_queue { limits = record { cpu = None; memory = Some 3 } }) ∷ [] }
    ensures other_limit { map (λ e. applied (Edited (Limits e)) (batch_is (record first_queue { limits = record { cpu = Some 1; memory = Some 2 } })))
        (SetCpuLimit None (codes "batch") ∷ SetMemoryLimit None (codes "batch") ∷ [])
        ≡ batch_is (record first_queue { limits = record { cpu = None; memory = Some 2 } })
        ∷ batch_is (record first_queue { limits = record { cpu = Some 1; memory = None } }) ∷ [] }
    ensures add_dest { edited (Conf (AddDestination (to_alpha (codes "y")) (codes "link")))
        ≡ queues_are (first_queue ∷ printer ∷ record link { dests = far ∷ record { queue = codes "y"; host = host 0 } ∷ [] } ∷ []) }
    ensures remove_dest { applied (Edited (Conf (RemoveDestination (to_beta (codes "batch")) (codes "link")))) (queues_are (record link {
      dests = near ∷ far
          ∷ record far { queue = codes "y" } ∷ [];
    } ∷ [])) ≡ queues_are (record link { dests = near ∷ record far { queue = codes "y" } ∷ [] } ∷ []) }
    ensures first_dest { applied (Edited (Conf (FirstDestination (to_beta (codes "batch")) (codes "link")))) (queues_are (record link {
      dests = near ∷ far
          ∷ record far { queue = codes "y" } ∷ [];
    } ∷ [])) ≡ queues_are (record link { dests = far ∷ near ∷ record far { queue = codes "y" } ∷ [] } ∷ []) }
    ensures parameters { map edited (Conf (SetDefaultQueue (codes "lp")) ∷ Conf SetNoDefaultQueue ∷ Conf (SetPatience 3) ∷ Conf (SetRetryWait 4)
        ∷ Limits (SetGlobalLimit 5) ∷ [])
        ≡ record full_house { default_queue = Some (codes "lp") } ∷ record full_house { default_queue = None } ∷ record full_house { patience = 3 }
        ∷ record full_house { retry_wait = 4 } ∷ record full_house { global_limit = 5 } ∷ [] }
{}

/// Complexes, users and devices: what is added is the last.
pub fn members_are_added()
    ensures complex { edited (Limits (CreateComplex (codes "c")))
        ≡ record full_house { complexes = full_house.complexes ++ record { name = codes "c"; limit = 1; queues = [] } ∷ [] } }
    ensures no_complex { edited (Limits (DeleteComplex (codes "both"))) ≡ record full_house { complexes = [] } }
    ensures queue { map edited (Limits (AddQueue (codes "lp") (codes "both")) ∷ Limits (RemoveQueue (codes "batch") (codes "both"))
        ∷ Limits (SetComplexLimit 9 (codes "both")) ∷ [])
        ≡ record full_house { complexes = record { name = codes "both"; limit = 1; queues = codes "batch" ∷ codes "gone" ∷ codes "lp" ∷ [] } ∷ [] }
        ∷ record full_house { complexes = record { name = codes "both"; limit = 1; queues = codes "gone" ∷ [] } ∷ [] }
        ∷ record full_house { complexes = record { name = codes "both"; limit = 9; queues = codes "batch" ∷ codes "gone" ∷ [] } ∷ [] } ∷ [] }
    ensures users { map (λ e. applied (Edited (Access e)) (batch_is (record first_queue {
      access = Users (codes "bob" ∷ codes "cy"
          ∷ []);
    }))) (AddUser (codes "ann") (codes "batch") ∷ RemoveUser (codes "bob") (codes "batch") ∷ SetNoAccess (codes "batch")
        ∷ SetUnrestrictedAccess (codes "batch") ∷ [])
        ≡ batch_is (record first_queue { access = Users (codes "bob" ∷ codes "cy" ∷ codes "ann" ∷ []) })
        ∷ batch_is (record first_queue { access = Users (codes "cy" ∷ []) }) ∷ batch_is (record first_queue { access = Users [] }) ∷ full_house ∷ [] }
    ensures ranks { map edited (Access (AddManager (codes "x")) ∷ Access (RemoveManager (codes "mia")) ∷ Access (AddOperator (codes "x"))
        ∷ Access (RemoveOperator (codes "op")) ∷ [])
        ≡ record full_house { managers = codes "root" ∷ codes "mia" ∷ codes "x" ∷ [] } ∷ record full_house { managers = codes "root" ∷ [] }
        ∷ record full_house { operators = codes "op" ∷ codes "x" ∷ [] } ∷ record full_house { operators = [] } ∷ [] }
    ensures devices { map edited (Devices (CreateDevice (codes "x") (codes "red")) ∷ Devices (EnableDevice (codes "ink"))
        ∷ Devices (DisableDevice (codes "laser")) ∷ Devices (SetForms (codes "red") (codes "ink")) ∷ [])
        ≡ record full_house {
          devices = record { name = codes "laser"; forms = codes "plain"; enabled = true }
              ∷ record { name = codes "ink"; forms = codes "plain"; enabled = false } ∷ record { name = codes "x"; forms = codes "red"; enabled = false } ∷ [];
        }
        ∷ record full_house {
          devices = record { name = codes "laser"; forms = codes "plain"; enabled = true }
              ∷ record { name = codes "ink"; forms = codes "plain"; enabled = true } ∷ [];
        }
        ∷ record full_house {
          devices = record { name = codes "laser"; forms = codes "plain"; enabled = false }
              ∷ record { name = codes "ink"; forms = codes "plain"; enabled = false } ∷ [];
        }
        ∷ record full_house {
          devices = record { name = codes "laser"; forms = codes "plain"; enabled = true }
              ∷ record { name = codes "ink"; forms = codes "red"; enabled = false } ∷ [];
        } ∷ [] }
    ensures no_device { edited (Devices (DeleteDevice (codes "laser")))
        ≡ record full_house {
          devices = record { name = codes "ink"; forms = codes "plain"; enabled = false } ∷ [];
          queues = first_queue
              ∷ record printer { devices = [] } ∷ link ∷ [];
        } }
    ensures members { map edited (Devices (AddDevice (codes "ink") (codes "lp")) ∷ Devices (RemoveDevice (codes "laser") (codes "lp")) ∷ [])
        ≡ queues_are (first_queue ∷ record printer { devices = codes "laser" ∷ codes "ink" ∷ [] } ∷ link ∷ [])
        ∷ queues_are (first_queue ∷ record printer { devices = [] } ∷ link ∷ []) ∷ [] }
{}

/// A purge takes the queued rows of one queue, an abort dooms the running rows of one; and the
/// edits of one row.
pub fn rows_are_edited()
    ensures purge { map edited (Conf (PurgeQueue (codes "batch")) ∷ Conf (PurgeQueue (codes "lp")) ∷ Conf (PurgeQueue (codes "link")) ∷ [])
        ≡ rows_are (printing_row ∷ routing_row ∷ []) ∷ full_house ∷ full_house ∷ [] }
    ensures purge_one { applied (Edited (Conf (PurgeQueue (codes "link")))) (rows_are (in_link 7 ∷ of_each_kind)) ≡ full_house }
    ensures abort { map edited (Rows (AbortQueue (codes "lp")) ∷ Rows (AbortQueue (codes "batch")) ∷ [])
        ≡ rows_are (idle_row ∷ record printing_row { doomed = true } ∷ routing_row ∷ user_row ∷ system_row ∷ []) ∷ full_house ∷ [] }
    ensures hold { edited (Rows (HoldRequest (named 1 (codes "alpha"))))
        ≡ rows_are (record idle_row { hold = User } ∷ printing_row ∷ routing_row ∷ user_row ∷ system_row ∷ []) }
    ensures release { edited (Rows (ReleaseRequest (named 4 (codes "alpha")))) ≡ rows_are (idle_row ∷ printing_row ∷ routing_row ∷ queued 4 ∷ system_row ∷ []) }
    ensures release_all { applied (Edited (Rows (ReleaseRequest (named 5 (codes "alpha")))))
        (rows_are (record system_row { hops = 32; refused = record { dest = far; cause = 3 } ∷ [] } ∷ [])) ≡ rows_are (queued 5 ∷ []) }
    ensures moves { applied (Edited (Rows (MoveRequest (named 4 (codes "alpha")) (codes "link")))) (rows_are (idle_row
        ∷ record user_row { hops = 7; refused = record { dest = far; cause = 3 } ∷ [] } ∷ []))
        ≡ record (rows_are (idle_row ∷ record user_row { queue = codes "link"; arrival = 10 } ∷ [])) { arrivals = 10 } }
    ensures modify { edited (Rows (ModifyRequest (named 1 (codes "alpha")) 63))
        ≡ rows_are (record idle_row { job = record idle_row.job { priority = 63 } } ∷ printing_row ∷ routing_row ∷ user_row ∷ system_row ∷ []) }
{}

/// The host is formatted, and a change with each stored part replaced is the same change.
pub fn changes_are_whole()
    ensures site { applied (Site (host 1) two_hosts) full_house ≡ formatted (host 1) two_hosts }
    ensures replaced { map (map_change (λ b. b)) kept_changes ≡ kept_changes }
    ensures parts { map stored_parts stored_changes ≡ (codes "s" ∷ []) ∷ (codes "b" ∷ codes "b" ∷ []) ∷ (codes "s" ∷ []) ∷ (codes "s" ∷ []) ∷ (codes "b" ∷ [])
        ∷ [] ∷ [] }
    ensures planned { (plan_of planned).change ≡ Some (Ended (request 1 0) (part_of_extent (codes "o") ∷ part_of_extent (codes "e") ∷ [])) }
{}

/// What becomes of a request on its own host.
pub fn requests_are_changed()
    ensures submitted { applied (Submitted (codes "lp") pathed (codes "date")) full_house
        ≡ record (rows_are (of_each_kind ++ incoming (request 10 0) pathed (codes "lp") 10 0 0 (codes "date") ∷ [])) { seq = 10; arrivals = 10 } }
    ensures deleted { applied (Deleted (request 1 0)) full_house ≡ rows_are (printing_row ∷ routing_row ∷ user_row ∷ system_row ∷ []) }
    ensures deleted_offer { applied (Deleted (request 1 0)) in_doubt
        ≡ record in_doubt {
          rows = record (on_the_way 3) { id = request 2 0 } ∷ queued 3 ∷ [];
          hands = hand 2 4 (request 1 0) Committed
              ∷ hand 2 3 (request 2 0) Offered ∷ [];
        } }
    ensures doomed { applied (Doomed (request 2 0)) full_house
        ≡ rows_are (idle_row ∷ record printing_row { doomed = true } ∷ routing_row ∷ user_row ∷ system_row ∷ []) }
    ensures started { applied (Started (request 1 0) None) (rows_are (record idle_row { starts = 3; lost = 3 } ∷ printing_row ∷ []))
        ≡ rows_are (record idle_row { state = Running; starts = 4; lost = 3 } ∷ printing_row ∷ []) }
    ensures printed { applied (Started (request 1 0) (Some (codes "ink"))) full_house
        ≡ rows_are (record idle_row { state = Running; starts = 1; device = Some (codes "ink") } ∷ printing_row ∷ routing_row ∷ user_row ∷ system_row ∷ []) }
    ensures unlaunched { applied (Unlaunched (request 2 0)) full_house ≡ rows_are (idle_row ∷ routing_row ∷ user_row ∷ system_row ∷ []) }
    ensures boot { applied Boot (rows_are (printing_row ∷ idle_row ∷ routing_row ∷ user_row ∷ record printing_row { id = request 9 0; doomed = true } ∷ []))
        ≡ rows_are (record printing_row { state = Queued; device = None; lost = 1 } ∷ idle_row ∷ routing_row ∷ user_row ∷ []) }
    ensures moved { applied (MovedLocal (request 4 0) (codes "lp")) (rows_are (idle_row
        ∷ record (queued 4) { hops = 7; refused = record { dest = far; cause = 3 } ∷ [] } ∷ []))
        ≡ record (rows_are (idle_row ∷ record (queued 4) { queue = codes "lp"; arrival = 10; hops = 8 } ∷ [])) { arrivals = 10 } }
    ensures refused { applied (RefusedLocal (request 7 0) (codes "batch") 19) (record full_house {
      queues = first_queue ∷ printer
          ∷ record link { dests = near ∷ far ∷ [] } ∷ [];
      rows = in_link 7 ∷ [];
    })
        ≡ record full_house {
          queues = first_queue ∷ printer ∷ record link { dests = near ∷ far ∷ [] }
              ∷ [];
          rows = record (in_link 7) { refused = record { dest = near; cause = 19 } ∷ [] } ∷ [];
        } }
    ensures far { applied (HeldFar (request 1 0)) full_house
        ≡ rows_are (record idle_row { hold = System } ∷ printing_row ∷ routing_row ∷ user_row ∷ system_row ∷ []) }
{}

/// An output of a request of this host is a file, of another one a stage, each under the next
/// number as long as one is left.
pub fn outputs_are_made()
    ensures none { applied (Ended (request 2 0) []) at_work
        ≡ rests (started 1 0 ∷ record (started 1 0) { id = request 2 2 } ∷ record (started 1 0) { id = request 1 2 } ∷ []) }
    ensures files { applied (Ended (request 1 0) (part (codes "o") ∷ part (codes "e") ∷ [])) at_work
        ≡ record (rests (record (started 1 0) { id = request 2 2 } ∷ record (started 1 0) { id = request 2 0 }
        ∷ record (started 1 0) { id = request 1 2 } ∷ [])) {
          files = a_file 3 ∷ a_file 4 ∷ record { number = 5; path = codes "o"; bytes = codes "b" } ∷ record { number = 6; path = codes "e"; bytes = codes "b" }
              ∷ [];
          file_next = 7;
        } }
    ensures stages { applied (Ended (request 2 2) (part (codes "o") ∷ part (codes "e") ∷ [])) at_work
        ≡ peers_are (record new_peer { stage_next = 9 }) (record new_peer { stage_next = 5 }) (record (rests (started 1 0
        ∷ record (started 1 0) { id = request 2 0 } ∷ record (started 1 0) { id = request 1 2 } ∷ [])) {
          stages = a_stage 2 2 ∷ a_stage 1 8 ∷ a_stage 1 7 ∷ a_stage 2 1 ∷ record { peer = host 2; number = 3; path = codes "o"; bytes = codes "b" }
              ∷ record { peer = host 2; number = 4; path = codes "e"; bytes = codes "b" } ∷ [];
        }) }
    ensures last_file { applied (Ended (request 1 0) (part (codes "o") ∷ part (codes "e")
        ∷ [])) (record (with_row (started 1 0)) { file_next = 18446744073709551614 })
        ≡ record (with_row (started 1 0)) {
          rows = [];
          files = record { number = 18446744073709551614; path = codes "o"; bytes = codes "b" }
              ∷ [];
          file_next = 18446744073709551615;
        } }
    ensures last_stage { applied (Ended (request 1 1) (part (codes "o") ∷ part (codes "e")
        ∷ [])) (record (with_row (record (started 1 0) { id = request 1 1 })) { peers = new_peer ∷ record new_peer { stage_next = 18446744073709551614 } ∷ [] })
        ≡ record (with_row (queued 1)) {
          rows = [];
          peers = new_peer ∷ record new_peer { stage_next = 18446744073709551615 }
              ∷ [];
          stages = record { peer = host 1; number = 18446744073709551614; path = codes "o"; bytes = codes "b" } ∷ [];
        } }
    ensures got { applied (StageGot (host 2) 9 (codes "o") (codes "b")) at_work
        ≡ peers_are (record new_peer { stage_next = 9 }) (record new_peer { stage_next = 3; stage_got = 9 }) (record at_work {
          files = a_file 3 ∷ a_file 4
              ∷ record { number = 5; path = codes "o"; bytes = codes "b" } ∷ [];
          file_next = 6;
        }) }
    ensures gone { map (λ c. applied c at_work) (StageGone (host 1) 7 ∷ StageGone (host 2) 2 ∷ FileGone 3 ∷ [])
        ≡ record at_work { stages = a_stage 2 2 ∷ a_stage 1 8 ∷ a_stage 2 1 ∷ [] } ∷ record at_work { stages = a_stage 1 8 ∷ a_stage 1 7 ∷ a_stage 2 1 ∷ [] }
        ∷ record at_work { files = a_file 4 ∷ [] } ∷ [] }
{}

/// A handover is opened, committed, refused, silent or done.
pub fn handovers_are_made()
    ensures opened { applied (HandOpened (host 1) 4 (request 1 0) (codes "any") 50)
        (route (queued 1) (record new_peer { next = 4; floor = 2; closed = 7 ∷ []; wait = 5; stage_next = 6; stage_got = 8 })
        (hand 2 6 (request 2 0) Committed ∷ []))
        ≡ route (record (queued 1) { state = Routing }) (record new_peer { next = 5; floor = 2; closed = 7 ∷ []; wait = 5; stage_next = 6; stage_got = 8 })
        (hand 2 6 (request 2 0) Committed ∷ record { peer = host 1; number = 4; id = request 1 0; queue = codes "any"; since = 50; phase = Offered } ∷ []) }
    ensures committed { applied (HandCommitted (host 1) 1) in_doubt
        ≡ record in_doubt {
          rows = record (on_the_way 3) { id = request 2 0 } ∷ queued 3 ∷ [];
          hands = hand 2 4 (request 1 0) Committed
              ∷ hand 1 1 (request 1 0) Committed ∷ hand 2 3 (request 2 0) Offered ∷ [];
        } }
    ensures refused { applied (HandRefused (host 1) 1 19) (record in_doubt { queues = record link { dests = near ∷ far ∷ [] } ∷ [] })
        ≡ record in_doubt {
          queues = record link { dests = near ∷ far ∷ [] }
              ∷ [];
          rows = record (on_the_way 2) { state = Queued; refused = record { dest = far; cause = 19 } ∷ [] } ∷ record (on_the_way 3) { id = request 2 0 }
              ∷ queued 3 ∷ [];
          hands = hand 2 4 (request 1 0) Committed ∷ hand 2 3 (request 2 0) Offered ∷ [];
        } }
    ensures silent { applied (HandsSilent 360 (peer_number (host 1) 1 ∷ peer_number (host 2) 3 ∷ [])) in_doubt
        ≡ peers_are (record new_peer { wait = 360 }) (record new_peer { wait = 360 }) (record in_doubt {
          rows = record (on_the_way 2) { state = Queued }
              ∷ record (on_the_way 3) { id = request 2 0; state = Queued } ∷ queued 3 ∷ [];
          hands = hand 2 4 (request 1 0) Committed ∷ [];
        }) }
    ensures one_silent { applied (HandsSilent 360 (peer_number (host 2) 3 ∷ [])) in_doubt
        ≡ peers_are new_peer (record new_peer { wait = 360 }) (record in_doubt {
          rows = on_the_way 2
              ∷ record (on_the_way 3) { id = request 2 0; state = Queued } ∷ queued 3 ∷ [];
          hands = hand 2 4 (request 1 0) Committed ∷ hand 1 1 (request 1 0) Offered
              ∷ [];
        }) }
    ensures done { applied (HandDone (host 2) 4) in_doubt ≡ record in_doubt { hands = hand 1 1 (request 1 0) Offered ∷ hand 2 3 (request 2 0) Offered ∷ [] } }
{}

/// A promise is made, accepted or dropped.
pub fn promises_are_made()
    ensures promised { applied (Promised (host 2) 12 10 (codes "batch") (record far_carried { starts = 3; lost = 3; hops = 5 }) (codes "date")) busy
        ≡ peers_are new_peer (record new_peer { floor = 9 }) (record busy {
          promises = promise 3 3
              ∷ record { peer = host 2; number = 12; row = incoming (request 3 1) far_carried.job (codes "batch") 1 3 5 (codes "date") } ∷ [];
          arrivals = 1;
        }) }
    ensures beside { applied (Promised (host 2) 12 9 (codes "batch") (record far_carried { starts = 3; lost = 3; hops = 5 }) (codes "date"))
        (peers_are new_peer (record new_peer { floor = 4; closed = 7 ∷ 8 ∷ 10 ∷ [] }) busy)
        ≡ peers_are new_peer (record new_peer { floor = 8; closed = 10 ∷ [] }) (record busy {
          promises = record (promise 9 9) { peer = host 2 } ∷ promise 3 3
              ∷ record { peer = host 2; number = 12; row = incoming (request 3 1) far_carried.job (codes "batch") 1 3 5 (codes "date") } ∷ [];
          arrivals = 1;
        }) }
    ensures old { applied (OldPromised (host 2) 12 (codes "batch") (record far_carried { starts = 3; lost = 3; hops = 5 }) (codes "date")) busy
        ≡ peers_are new_peer (record new_peer { floor = 11 }) (record busy {
          promises = promise 3 3
              ∷ record { peer = host 2; number = 12; row = incoming (request 3 1) far_carried.job (codes "batch") 1 3 5 (codes "date") } ∷ [];
          arrivals = 1;
        }) }
    ensures accepted { applied (Accepted (host 2) 9) busy
        ≡ peers_are new_peer (record new_peer { closed = 9 ∷ [] }) (record busy { promises = promise 3 3 ∷ []; rows = busy_row ∷ (promise 9 9).row ∷ [] }) }
    ensures accepted_again { applied (Accepted (host 2) 9) (record busy { rows = busy_row ∷ record (in_link 9) { id = request 9 1 } ∷ [] })
        ≡ peers_are new_peer (record new_peer { closed = 9 ∷ [] }) (record busy {
          promises = promise 3 3 ∷ [];
          rows = busy_row
              ∷ record (in_link 9) { id = request 9 1 } ∷ [];
        }) }
    ensures dropped { applied (Dropped (host 1) 3) busy
        ≡ peers_are (record new_peer { closed = 3 ∷ [] }) new_peer (record busy { promises = record (promise 9 9) { peer = host 2 } ∷ [] }) }
{}
