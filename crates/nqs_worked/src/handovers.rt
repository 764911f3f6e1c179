//! Definitions of several handovers between two hosts that are computed: closed numbers, lows, the
//! window, offers in any order, and destinations that are put first.
ghost use Rattle.std.specs.Prelude.{◌≡◌, codes, [], ◌∷◌, map, true, false, None, Some, Ok, Err};
ghost use Rattle.nqs_types.specs.declared.change.Change.TheVariants.{Edited, HandOpened, HandsSilent, Promised};
ghost use Rattle.nqs_types.specs.declared.edit.Edit.TheVariants.{Conf};
ghost use Rattle.nqs_types.specs.declared.edit.ConfEdit.TheVariants.{FirstDestination};
ghost use Rattle.nqs_types.specs.declared.event.Event.TheVariants as event;
ghost use Rattle.nqs_types.specs.declared.message.Body.TheVariants as body;
ghost use Rattle.nqs_types.specs.declared.refusal.Refusal.TheVariants.{NoDest, NoQueue, WrongKind};
ghost use Rattle.nqs_types.specs.declared.request.Phase.TheVariants.{Committed, Offered};
ghost use Rattle.nqs_rules.specs.Applied.{applied};
ghost use Rattle.nqs_rules.specs.Conf.{with_dest_first};
ghost use Rattle.nqs_rules.specs.Find.{peer_number};
ghost use Rattle.nqs_rules.specs.Format.{first_queue, new_peer};
ghost use Rattle.nqs_rules.specs.Handover.{open_hand};
ghost use Rattle.nqs_rules.specs.Routing.{close, is_closed, low, raise_floor};
ghost use Rattle.nqs_rules.specs.Stepped.{makes, message};
ghost use Rattle.nqs_worked.specs.Definitions.{a_hand, carried, changed_at, closed_numbers, far, far_carried, in_link, link, near, refused, sends, told_at};
ghost use Rattle.nqs_worked.specs.Definitions.{with_hands};
ghost use Rattle.nqs_worked.specs.Handovers.{comes, known, knowing, linked, mixed_hands, night, offers, three_dests, three_hands};
ghost use Rattle.nqs_worked.specs.ScheduleWords.{host, typed};

/// A number is closed where it is at most the floor, or in the list. One more joins the list in its
/// place, and a floor that is raised takes those that it reaches.
pub fn numbers_are_closed()
    ensures closed { map (λ n. is_closed n known) (0 ∷ 3 ∷ 4 ∷ 5 ∷ 6 ∷ 9 ∷ 10 ∷ []) ≡ true ∷ true ∷ false ∷ true ∷ false ∷ true ∷ false ∷ [] }
    ensures joined { map (λ n. closed_numbers (close n known)) (4 ∷ 6 ∷ 8 ∷ 10 ∷ []) ≡ (3 ∷ 4 ∷ 5 ∷ 7 ∷ 9 ∷ []) ∷ (3 ∷ 5 ∷ 6 ∷ 7 ∷ 9 ∷ [])
        ∷ (3 ∷ 5 ∷ 7 ∷ 8 ∷ 9 ∷ []) ∷ (3 ∷ 5 ∷ 7 ∷ 9 ∷ 10 ∷ []) ∷ [] }
    ensures raised { map (λ n. closed_numbers (raise_floor n known)) (0 ∷ 3 ∷ 4 ∷ 5 ∷ 8 ∷ 9 ∷ 12 ∷ []) ≡ (3 ∷ 5 ∷ 7 ∷ 9 ∷ []) ∷ (3 ∷ 5 ∷ 7 ∷ 9 ∷ [])
        ∷ (4 ∷ 5 ∷ 7 ∷ 9 ∷ []) ∷ (5 ∷ 7 ∷ 9 ∷ []) ∷ (8 ∷ 9 ∷ []) ∷ (9 ∷ []) ∷ (12 ∷ []) ∷ [] }
    ensures closed_alone { close 4 known ≡ record known { closed = 4 ∷ 5 ∷ 7 ∷ 9 ∷ [] } }
    ensures raised_alone { raise_floor 8 known ≡ record known { floor = 8; closed = 9 ∷ [] } }
{}

/// A low is the least number of the handovers to its host, in either phase, and the next number
/// where there is none.
pub fn lows_are_least()
    ensures { map (λ n. low (host n) 12 mixed_hands) (0 ∷ 1 ∷ 2 ∷ []) ≡ 12 ∷ 4 ∷ 2 ∷ [] }
{}

/// An offer carries the low with its own handover: its own number where it is the only one, and
/// else that of the oldest.
pub fn openings_carry_the_low()
    ensures alone { open_hand far 50 (with_hands Offered [] 7) (in_link 1) ≡ makes (HandOpened (host 1) 7 (in_link 1).id (codes "batch") 50)
        ((message (host 0) (host 1) (body.Offer 7 7 (codes "batch") (record (carried 1) { hops = 1 }) []), Some []) ∷ []) }
    ensures others { open_hand far 50 (with_hands Committed (2 ∷ 5 ∷ []) 7) (in_link 1) ≡ makes (HandOpened (host 1) 7 (in_link 1).id (codes "batch") 50)
        ((message (host 0) (host 1) (body.Offer 7 2 (codes "batch") (record (carried 1) { hops = 1 }) []), Some []) ∷ []) }
{}

/// Offers come in any order: only a number that is closed is answered DONE, and an open one below
/// it is promised.
pub fn offers_come_in_any_order()
    ensures told { map (λ n. told_at (offers n 1) (knowing (record new_peer { closed = 3 ∷ [] }))) (3 ∷ 1 ∷ 2 ∷ [])
        ≡ (sends 1 (body.Done 3) ∷ []) ∷ (sends 1 (body.Ready 1) ∷ []) ∷ (sends 1 (body.Ready 2) ∷ []) ∷ [] }
    ensures changed { map (λ n. changed_at (offers n 1) (knowing (record new_peer { closed = 3 ∷ [] }))) (3 ∷ 1 ∷ 2 ∷ [])
        ≡ None ∷ Some (Promised (host 1) 1 1 (codes "batch") far_carried (codes "date"))
        ∷ Some (Promised (host 1) 2 1 (codes "batch") far_carried (codes "date")) ∷ [] }
    ensures passed { map (λ n. told_at (offers n 1) (knowing known)) (1 ∷ 3 ∷ 4 ∷ []) ≡ (sends 1 (body.Done 1) ∷ []) ∷ (sends 1 (body.Done 3) ∷ [])
        ∷ (sends 1 (body.Ready 4) ∷ []) ∷ [] }
    ensures commits { map (λ n. told_at (comes (body.Commit n)) (knowing known)) (2 ∷ 5 ∷ 6 ∷ 9 ∷ []) ≡ (sends 1 (body.Done 2) ∷ [])
        ∷ (sends 1 (body.Done 5) ∷ []) ∷ [] ∷ (sends 1 (body.Done 9) ∷ []) ∷ [] }
{}

/// The offers that a tick says again carry the low of the handovers that it leaves: those that it
/// takes back count no more, and committed ones do.
pub fn ticks_raise_the_low()
    ensures early { told_at (event.Tick 59) (three_hands Offered) ≡ sends 1 (body.Offer 1 1 (codes "batch") (record (carried 1) { hops = 1 }) [])
        ∷ sends 1 (body.Offer 2 1 (codes "batch") (record (carried 2) { hops = 1 }) []) ∷ sends 1 (body.Offer 3 1 (codes "batch")
        (record (carried 3) { hops = 1 }) []) ∷ [] }
    ensures silent { changed_at (event.Tick 60) (three_hands Offered) ≡ Some (HandsSilent 360 (peer_number (host 1) 1 ∷ peer_number (host 1) 2 ∷ [])) }
    ensures raised { told_at (event.Tick 60) (three_hands Offered) ≡ sends 1 (body.Offer 3 3 (codes "batch") (record (carried 3) { hops = 1 }) []) ∷ [] }
    ensures committed { told_at (event.Tick 60) (three_hands Committed) ≡ sends 1 (body.Commit 2) ∷ sends 1 (body.Offer 3 2 (codes "batch")
        (record (carried 3) { hops = 1 }) []) ∷ [] }
{}

/// A destination is put first, and the others stay in their order.
pub fn destinations_are_put_first()
    ensures each { map (λ d. (with_dest_first (Some d) (record link { dests = far ∷ near ∷ night ∷ [] })).dests) (far ∷ near ∷ night ∷ [])
        ≡ (far ∷ near ∷ night ∷ []) ∷ (near ∷ far ∷ night ∷ []) ∷ (night ∷ far ∷ near ∷ []) ∷ [] }
    ensures none { with_dest_first None link ≡ link }
    ensures edited { map (λ d. applied (Edited (Conf (FirstDestination d (codes "link")))) three_dests)
        (typed (codes "batch") (codes "alpha") ∷ typed (codes "night") (codes "beta") ∷ typed (codes "batch") (codes "beta") ∷ [])
        ≡ linked (near ∷ far ∷ night ∷ []) ∷ linked (night ∷ far ∷ near ∷ []) ∷ three_dests ∷ [] }
{}

/// It is refused for its queue, the kind of that, and a destination that the queue hasn't, in this
/// order; a host that the site hasn't is none of the queue.
pub fn first_destinations_are_refused()
    ensures { map (λ e. refused (Conf e) three_dests) (FirstDestination (typed (codes "night") (codes "beta")) (codes "link")
        ∷ FirstDestination (typed (codes "night") (codes "beta")) (codes "nope") ∷ FirstDestination (typed (codes "x") (codes "beta")) (codes "nope")
        ∷ FirstDestination (typed (codes "night") (codes "beta")) (codes "batch") ∷ FirstDestination (typed (codes "x") (codes "zed")) (codes "batch")
        ∷ FirstDestination (typed (codes "night") (codes "alpha")) (codes "link") ∷ FirstDestination (typed (codes "batch") (codes "zed")) (codes "link") ∷ [])
        ≡ Ok tt ∷ Err (NoQueue (codes "nope")) ∷ Err (NoQueue (codes "nope")) ∷ Err WrongKind ∷ Err WrongKind ∷ Err NoDest ∷ Err NoDest ∷ [] }
{}
