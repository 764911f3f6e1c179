//! Which changes fit: each thing that a change needs, there and not there.
ghost use Rattle.std.specs.Prelude.{◌≡◌, codes, [], ◌∷◌, ◌++◌, map, replicate, true, false, None, Some};
ghost use Rattle.nqs_types.specs.declared.change.Change.TheVariants.{Submitted, Deleted, Doomed, Started, Ended, Unlaunched, Boot, Edited, HandOpened};
ghost use Rattle.nqs_types.specs.declared.change.Change.TheVariants.{HandCommitted, HandRefused, HandsSilent, HandDone, OldPromised, Promised, Accepted};
ghost use Rattle.nqs_types.specs.declared.change.Change.TheVariants.{Dropped};
ghost use Rattle.nqs_types.specs.declared.change.Change.TheVariants.{MovedLocal, RefusedLocal, HeldFar, StageGot, StageGone, FileGone};
ghost use Rattle.nqs_types.specs.declared.edit.Edit.TheVariants.{Conf, Limits, Access, Devices, Rows};
ghost use Rattle.nqs_types.specs.declared.edit.ConfEdit.TheVariants.{EnableQueue};
ghost use Rattle.nqs_types.specs.declared.edit.LimitsEdit.TheVariants.{DeleteComplex};
ghost use Rattle.nqs_types.specs.declared.edit.AccessEdit.TheVariants.{RemoveManager};
ghost use Rattle.nqs_types.specs.declared.edit.DevicesEdit.TheVariants.{EnableDevice};
ghost use Rattle.nqs_types.specs.declared.edit.RowsEdit.TheVariants.{AbortQueue};
ghost use Rattle.nqs_rules.specs.Find.{peer_number};
ghost use Rattle.nqs_rules.specs.Format.{new_peer};
ghost use Rattle.nqs_worked.specs.ScheduleWords.{host, request};
ghost use Rattle.nqs_worked.specs.Definitions.{fresh, queued, far_carried, crowded, fit_each, busy};
ghost use Rattle.nqs_worked_tables.specs.Bounds.{pathed};
ghost use Rattle.nqs_worked_tables.specs.Refusals.{full_house};
ghost use Rattle.nqs_worked_tables.specs.Fitting.{fitting, fits_each, fits_of_each_kind, route, opening, opening_bounds, last_opening, opening_behind};
ghost use Rattle.nqs_worked_tables.specs.Fitting.{promising, promised};
ghost use Rattle.nqs_worked_tables.specs.Fitting.{full_for};

/// Changes of one request: of one that is queued, runs, is on its way, is held by the user, by the
/// system, and of one that isn't there.
pub fn changes_of_requests_fit()
    ensures deleted { fits_of_each_kind (λ seq. Deleted (request seq 0)) ≡ true ∷ false ∷ true ∷ true ∷ true ∷ false ∷ [] }
    ensures doomed { fits_of_each_kind (λ seq. Doomed (request seq 0)) ≡ false ∷ true ∷ false ∷ false ∷ false ∷ false ∷ [] }
    ensures started { fits_of_each_kind (λ seq. Started (request seq 0) None) ≡ true ∷ false ∷ false ∷ false ∷ false ∷ false ∷ [] }
    ensures printed { map (λ d. fitting (Started (request 1 0) (Some d)) full_house) (codes "ink" ∷ codes "laser" ∷ codes "none" ∷ [])
        ≡ true ∷ false ∷ false ∷ [] }
    ensures ended { fits_of_each_kind (λ seq. Ended (request seq 0) []) ≡ false ∷ true ∷ false ∷ false ∷ false ∷ false ∷ [] }
    ensures unlaunched { fits_of_each_kind (λ seq. Unlaunched (request seq 0)) ≡ false ∷ true ∷ false ∷ false ∷ false ∷ false ∷ [] }
    ensures opened { fits_of_each_kind (λ seq. HandOpened (host 0) 1 (request seq 0) (codes "any") 5) ≡ true ∷ false ∷ false ∷ false ∷ false ∷ false ∷ [] }
    ensures moved { fits_of_each_kind (λ seq. MovedLocal (request seq 0) (codes "lp")) ≡ true ∷ false ∷ false ∷ false ∷ false ∷ false ∷ [] }
    ensures refused { fits_of_each_kind (λ seq. RefusedLocal (request seq 0) (codes "any") 3) ≡ true ∷ false ∷ false ∷ false ∷ false ∷ false ∷ [] }
    ensures far { fits_of_each_kind (λ seq. HeldFar (request seq 0)) ≡ true ∷ false ∷ false ∷ false ∷ false ∷ false ∷ [] }
    ensures edits { fit_each (Edited (Conf (EnableQueue (codes "lp"))) ∷ Edited (Conf (EnableQueue (codes "x")))
        ∷ Edited (Limits (DeleteComplex (codes "both"))) ∷ Edited (Limits (DeleteComplex (codes "x"))) ∷ Edited (Access (RemoveManager (codes "mia")))
        ∷ Edited (Access (RemoveManager (codes "root"))) ∷ Edited (Devices (EnableDevice (codes "ink"))) ∷ Edited (Devices (EnableDevice (codes "x")))
        ∷ Edited (Rows (AbortQueue (codes "lp"))) ∷ Edited (Rows (AbortQueue (codes "link"))) ∷ []) full_house
        ≡ true ∷ false ∷ true ∷ false ∷ true ∷ false ∷ true ∷ false ∷ true ∷ false ∷ [] }
{}

/// A submission needs a queue, room for a row, a sequence number and an arrival; a move a queue, a
/// hop and an arrival.
pub fn numbers_fit()
    ensures rows { map (λ n. fitting (Submitted (codes "batch") pathed []) (crowded n)) (9998 ∷ 9999 ∷ []) ≡ true ∷ false ∷ [] }
    ensures sequence { map (λ n. fitting (Submitted (codes "batch") pathed []) (record fresh { seq = n })) (4294967293 ∷ 4294967294 ∷ []) ≡ true ∷ false ∷ [] }
    ensures arrivals { map (λ n. fitting (Submitted (codes "batch") pathed []) (record fresh { arrivals = n })) (18446744073709551614
        ∷ 18446744073709551615 ∷ [])
        ≡ true ∷ false ∷ [] }
    ensures moves { map (λ n. fitting (MovedLocal (request 1 0) (codes "batch")) (record full_house { arrivals = n })) (18446744073709551614
        ∷ 18446744073709551615 ∷ []) ≡ true ∷ false ∷ [] }
    ensures hops { map (λ n. fitting (MovedLocal (request 1 0) (codes "link")) (route (record (queued 1) { hops = n }) new_peer [])) (31 ∷ 32 ∷ [])
        ≡ true ∷ false ∷ [] }
    ensures refusals { map (λ n. fitting (RefusedLocal (request 1 0) (codes "link") 3) (route (record (queued 1) { hops = n }) new_peer [])) (31 ∷ 32 ∷ [])
        ≡ true ∷ true ∷ [] }
{}

/// Handovers, from the side of the source.
pub fn handovers_fit()
    ensures opened { fits_each opening opening_bounds ≡ replicate 7 true ++ replicate 9 false }
    ensures last { map last_opening (18446744073709551614 ∷ 18446744073709551615 ∷ []) ≡ true ∷ false ∷ [] }
    ensures window { map opening_behind (64 ∷ 65 ∷ []) ≡ true ∷ false ∷ [] }
    ensures committed { fit_each (HandCommitted (host 1) 1 ∷ HandCommitted (host 2) 4 ∷ HandCommitted (host 1) 4 ∷ HandCommitted (host 2) 1 ∷ []) busy
        ≡ true ∷ false ∷ false ∷ false ∷ [] }
    ensures refused { fit_each (HandRefused (host 1) 1 3 ∷ HandRefused (host 2) 4 3 ∷ HandRefused (host 1) 4 3 ∷ []) busy ≡ true ∷ false ∷ false ∷ [] }
    ensures done { fit_each (HandDone (host 1) 1 ∷ HandDone (host 2) 4 ∷ HandDone (host 1) 4 ∷ []) busy ≡ false ∷ true ∷ false ∷ [] }
    ensures silent { fit_each (HandsSilent 9 [] ∷ HandsSilent 9 (peer_number (host 1) 1 ∷ [])
        ∷ HandsSilent 9 (peer_number (host 1) 1 ∷ peer_number (host 2) 4 ∷ []) ∷ HandsSilent 9 (peer_number (host 2) 4 ∷ peer_number (host 1) 1 ∷ [])
        ∷ HandsSilent 9 (peer_number (host 1) 4 ∷ []) ∷ []) busy ≡ true ∷ true ∷ false ∷ false ∷ false ∷ [] }
{}

/// Promises, stages and files.
pub fn promises_fit()
    ensures numbers { map (λ n. fitting (promised n) promising) (4 ∷ 5 ∷ 7 ∷ 8 ∷ []) ≡ false ∷ true ∷ false ∷ true ∷ [] }
    ensures queues { map (λ q. fitting (Promised (host 1) 8 1 q far_carried []) promising) (codes "batch" ∷ codes "link" ∷ codes "nope" ∷ [])
        ≡ true ∷ true ∷ false ∷ [] }
    ensures peers { map (λ n. fitting (Promised (host n) 8 1 (codes "batch") far_carried []) promising) (0 ∷ 2 ∷ 3 ∷ []) ≡ true ∷ true ∷ false ∷ [] }
    ensures requests { map (λ id. fitting (Promised (host 1) 8 1 (codes "batch") (record far_carried { id = id }) []) promising) (request 1 0 ∷ request 1 1
        ∷ request 9 0 ∷ request 10 0 ∷ request 10 2 ∷ request 1 3 ∷ []) ≡ false ∷ true ∷ true ∷ false ∷ true ∷ false ∷ [] }
    ensures arrivals { map (λ n. fitting (promised 8) (record promising { arrivals = n })) (18446744073709551614 ∷ 18446744073709551615 ∷ [])
        ≡ true ∷ false ∷ [] }
    ensures room { map (λ n. full_for 0 4 n) (9998 ∷ 9999 ∷ []) ≡ true ∷ false ∷ [] }
    ensures room_of_its_own { map (λ n. full_for 1 4 n) (9999 ∷ 10000 ∷ []) ≡ true ∷ false ∷ [] }
    ensures room_below { map (λ low. full_for 1 low 9999) (1 ∷ 3 ∷ 4 ∷ 9 ∷ []) ≡ false ∷ false ∷ true ∷ true ∷ [] }
    ensures old { fit_each (OldPromised (host 1) 4 (codes "batch") far_carried [] ∷ OldPromised (host 1) 5 (codes "batch") far_carried []
        ∷ OldPromised (host 1) 7 (codes "batch") far_carried [] ∷ OldPromised (host 1) 8 (codes "nope") far_carried [] ∷ []) promising
        ≡ false ∷ true ∷ false ∷ false ∷ [] }
    ensures old_room { map (λ n. fitting (OldPromised (host 1) n (codes "batch") far_carried []) (crowded 9999)) (2 ∷ 4 ∷ []) ≡ false ∷ true ∷ [] }
    ensures promises { fit_each (Accepted (host 1) 7 ∷ Accepted (host 2) 7 ∷ Accepted (host 1) 8 ∷ Dropped (host 1) 7 ∷ Dropped (host 2) 7 ∷ Dropped (host 1) 8
        ∷ []) promising ≡ true ∷ false ∷ false ∷ true ∷ false ∷ false ∷ [] }
    ensures got { map (λ n. fitting (StageGot (host 1) n (codes "o") []) (route (queued 1) (record new_peer { stage_got = 4 }) [])) (3 ∷ 4 ∷ 5 ∷ 9 ∷ [])
        ≡ false ∷ false ∷ true ∷ true ∷ [] }
    ensures gone { fit_each (StageGone (host 1) 7 ∷ StageGone (host 2) 7 ∷ StageGone (host 1) 2 ∷ FileGone 3 ∷ FileGone 5 ∷ []) busy
        ≡ true ∷ false ∷ false ∷ true ∷ false ∷ [] }
    ensures boot { fit_each (Boot ∷ []) busy ≡ true ∷ [] }
{}
