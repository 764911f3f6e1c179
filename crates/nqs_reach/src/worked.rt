//! What a message makes of a small host, by hand: each kind of message where it does what it may,
//! and where it does nothing.
ghost use Rattle.std.specs.Prelude.{◌≡◌, codes, [], ◌∷◌, ◌++◌, map, replicate, true};
ghost use Rattle.nqs_types.specs.declared.request.Phase.TheVariants.{Committed, Offered};
ghost use Rattle.nqs_types.specs.declared.request.RowState.TheVariants.{Queued};
ghost use Rattle.nqs_types.specs.declared.message.Body.TheVariants.{Abort, Answer, Commit, Done, EndedAck, Inquire, Offer, Ready, Refused, Stage, Staged};
ghost use Rattle.nqs_reach.specs.Deliveries.{after_message};
ghost use Rattle.nqs_reach.specs.Worked.{after, alpha, batch_of, beta, busy, carried, elsewhere, file, gamma, going, hand, known, promise, request, row, small};
ghost use Rattle.nqs_reach.specs.Worked.{stage};

/// Handovers to the sender: a promise takes the request away, a refusal lets it wait again with
/// the refusal noted, a commit that was taken ends the handover.
pub fn offers_are_answered()
    ensures ready { after beta (Ready 2)
        ≡ record small { rows = busy ∷ elsewhere ∷ []; hands = hand beta 2 1 Committed ∷ hand gamma 3 3 Offered ∷ hand beta 1 4 Committed ∷ [] } }
    ensures inquire { after beta (Inquire 2) ≡ after beta (Ready 2) }
    ensures refused { after beta (Refused 2 19)
        ≡ record small {
          rows = record going { state = Queued; refused = record { dest = batch_of beta; cause = 19 } ∷ [] } ∷ busy ∷ elsewhere ∷ [];
          hands = hand gamma 3 3 Offered ∷ hand beta 1 4 Committed ∷ [];
        } }
    ensures done { after beta (Done 1) ≡ record small { hands = hand beta 2 1 Offered ∷ hand gamma 3 3 Offered ∷ [] } }
{}

/// Promises to the sender: an offer makes one beside those that its low leaves, a commit makes a
/// request of it, which waits, and an abort lets it go. An offer and a commit bring in one of the
/// sender's.
pub fn promises_are_settled()
    ensures offer { after beta (Offer 6 5 (codes "batch") (carried (request 9 beta)) (codes "date"))
        ≡ record small { promises = promise beta 5 7 4 ∷ promise gamma 6 8 5 ∷ promise beta 6 9 6 ∷ []; arrivals = 6 } }
    ensures low { after beta (Offer 6 6 (codes "batch") (carried (request 9 beta)) (codes "date"))
        ≡ record small { promises = promise gamma 6 8 5 ∷ promise beta 6 9 6 ∷ []; peers = known ∷ record known { floor = 5 } ∷ known ∷ []; arrivals = 6 } }
    ensures commit { after beta (Commit 5)
        ≡ record small {
          rows = going ∷ busy ∷ elsewhere ∷ row (request 7 beta) (codes "batch") 4 ∷ [];
          promises = promise gamma 6 8 5 ∷ [];
          peers = known ∷ record known { closed = 5 ∷ [] } ∷ known ∷ [];
        } }
    ensures both { map (λ r. r.id) (after_message (51, record { from = beta; to = alpha; body = Commit 6 })
        (after beta (Offer 6 6 (codes "batch") (carried (request 9 beta)) (codes "date")))).rows
        ≡ request 1 alpha ∷ request 2 alpha ∷ request 3 alpha ∷ request 9 beta ∷ [] }
    ensures abort { after beta (Abort 5)
        ≡ record small { promises = promise gamma 6 8 5 ∷ []; peers = known ∷ record known { closed = 5 ∷ [] } ∷ known ∷ [] } }
{}

/// Outputs: a stage of the sender becomes a file behind the others, and one to it goes as it was
/// taken.
pub fn stages_are_taken()
    ensures stage { after beta (Stage 1 (codes "out") (codes "done"))
        ≡ record small { peers = known ∷ record known { stage_got = 1 } ∷ known ∷ []; files = file 1 ∷ file 2 ∷ []; file_next = 3 } }
    ensures staged { after beta (Staged 1) ≡ record small { stages = stage gamma 1 ∷ [] } }
{}

/// Nothing changes: by numbers that have no handover, promise or stage, or have one of another
/// host, by an offer of a request that the host has, in a phase that waits for another word, and by
/// what no host says.
pub fn the_rest_does_nothing()
    ensures unknown { map (after beta) (Ready 9 ∷ Refused 9 19 ∷ Commit 9 ∷ Done 9 ∷ Inquire 9 ∷ Abort 9 ∷ Staged 9 ∷ []) ≡ replicate 7 small }
    ensures others { map (after gamma) (Ready 2 ∷ Refused 2 19 ∷ Commit 5 ∷ Done 1 ∷ Inquire 2 ∷ Abort 5 ∷ []) ≡ replicate 6 small }
    ensures known { map (λ id. after beta (Offer 6 1 (codes "batch") (carried id) (codes "date"))) (request 1 alpha ∷ request 2 alpha ∷ request 5 alpha ∷ [])
        ≡ replicate 3 small }
    ensures phase { map (after beta) (Done 2 ∷ Ready 1 ∷ Refused 1 19 ∷ []) ≡ replicate 3 small }
    ensures again { map (after beta) (Stage 0 (codes "out") (codes "done") ∷ []) ≡ small ∷ [] }
    ensures strange { map (after beta) (Answer 1 true (codes "Done") ∷ EndedAck (request 2 alpha) 1 ∷ []) ≡ replicate 2 small }
{}
