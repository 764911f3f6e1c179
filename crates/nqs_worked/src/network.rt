//! Runs of several hosts that are computed: the transcript of each schedule.
ghost use Rattle.std.specs.Prelude.{◌≡◌, codes, [], ◌∷◌, ◌++◌};
ghost use Rattle.nqs_rules.specs.Transcript.{lines};
ghost use Rattle.nqs_worked.specs.ScheduleWords.{done, first_offered, first_taken, told};
ghost use Rattle.nqs_worked.specs.Network.{handover, source_stops_at_commit, receiver_stops, late_copies, deletion_in_doubt, all_destinations_refuse};
ghost use Rattle.nqs_worked.specs.Network.{site_of_two};

/// A handover, with each packet repeated.
pub fn handover()
    ensures { told (codes "alpha" ∷ codes "beta" ∷ []) handover ≡ lines (
        done 3
        ++ first_offered
        ++ codes "packet 2 beta alpha READY 1"
        ∷ codes "packet 3 beta alpha READY 1"
        ∷ codes "packet 4 beta alpha READY 1"
        ∷ codes "packet 5 alpha beta COMMIT 1"
        ∷ codes "packet 6 beta alpha DONE 1"
        ∷ codes "packet 7 beta alpha DONE 1"
        ∷ codes "table 1"
        ∷ codes "beta batch 1.alpha QUEUED ann starts 0 lost 0"
        ∷ []) }
{}

/// The source stops as it commits, and says so after its boot.
pub fn source_stops_at_commit()
    ensures { told (codes "alpha" ∷ codes "beta" ∷ []) source_stops_at_commit ≡ lines (
        done 3
        ++ first_offered
        ++ codes "packet 2 beta alpha READY 1"
        ∷ codes "stop alpha"
        ∷ codes "table 1"
        ∷ codes "beta batch 1.alpha ARRIVING ann starts 0 lost 0"
        ∷ codes "boot alpha"
        ∷ codes "packet 3 alpha beta COMMIT 1"
        ∷ codes "packet 4 beta alpha DONE 1"
        ∷ codes "table 1"
        ∷ codes "beta batch 1.alpha QUEUED ann starts 0 lost 0"
        ∷ []) }
{}

/// The receiver of an offer stops, and another destination takes the request.
pub fn receiver_stops()
    ensures { told (codes "alpha" ∷ codes "beta" ∷ codes "gamma" ∷ []) receiver_stops ≡ lines (
        done 4
        ++ first_offered
        ++ codes "packet 2 beta alpha READY 1"
        ∷ codes "stop beta"
        ∷ codes "packet 3 alpha gamma OFFER 1"
        ∷ codes "packet 4 gamma alpha READY 1"
        ∷ codes "packet 5 alpha gamma COMMIT 1"
        ∷ codes "packet 6 gamma alpha DONE 1"
        ∷ codes "boot beta"
        ∷ codes "packet 7 beta alpha INQUIRE 1"
        ∷ codes "packet 8 alpha beta ABORT 1"
        ∷ codes "table 1"
        ∷ codes "gamma batch 1.alpha QUEUED ann starts 0 lost 0"
        ∷ []) }
{}

/// Late copies of a handover change nothing.
pub fn late_copies()
    ensures { told (codes "alpha" ∷ codes "beta" ∷ []) late_copies ≡ lines (
        done 4
        ++ first_taken
        ++ codes "launch beta 1.alpha 1"
        ∷ codes "ended beta 1.alpha 1 0"
        ∷ codes "packet 5 beta alpha DONE 1"
        ∷ codes "packet 6 alpha beta ABORT 1"
        ∷ codes "packet 7 beta alpha DONE 1"
        ∷ codes "table 0"
        ∷ []) }
{}

/// A request is deleted while it is offered.
pub fn deletion_in_doubt()
    ensures { told (codes "alpha" ∷ codes "beta" ∷ []) deletion_in_doubt ≡ lines (
        done 3
        ++ first_offered
        ++ codes "packet 2 beta alpha READY 1"
        ∷ codes "Request 1.alpha has been deleted."
        ∷ codes "packet 3 alpha beta ABORT 1"
        ∷ codes "table 0"
        ∷ []) }
{}

/// A request that all destinations refuse is held until it is released.
pub fn all_destinations_refuse()
    ensures { told (codes "alpha" ∷ codes "beta" ∷ codes "gamma" ∷ []) all_destinations_refuse ≡ lines (
        done 6
        ++ first_offered
        ++ codes "packet 2 beta alpha REFUSED 1"
        ∷ codes "packet 3 alpha gamma OFFER 1"
        ∷ codes "packet 4 gamma alpha REFUSED 1"
        ∷ codes "table 1"
        ∷ codes "alpha link 1.alpha HELD ann starts 0 lost 0"
        ∷ codes "Done."
        ∷ codes "Done."
        ∷ codes "packet 5 alpha beta OFFER 2"
        ∷ codes "packet 6 beta alpha READY 2"
        ∷ codes "packet 7 alpha beta COMMIT 2"
        ∷ codes "packet 8 beta alpha DONE 2"
        ∷ codes "table 1"
        ∷ codes "beta batch 1.alpha QUEUED ann starts 0 lost 0"
        ∷ []) }
{}

/// A site of two hosts, with outputs that come back.
pub fn site_of_two()
    ensures { told (codes "cray" ∷ codes "front" ∷ []) site_of_two ≡ lines (
        done 12
        ++ codes "Request 1.front submitted to queue: run."
        ∷ codes "packet 1 front cray OFFER 1"
        ∷ codes "Request 2.front submitted to queue: lp."
        ∷ codes "print front 2.front 1 laser"
        ∷ codes "packet 2 cray front READY 1"
        ∷ codes "packet 3 front cray COMMIT 1"
        ∷ codes "packet 4 cray front DONE 1"
        ∷ codes "launch cray 1.front 1"
        ∷ codes "ended front 2.front 1 0"
        ∷ codes "ended cray 1.front 1 0"
        ∷ codes "packet 5 cray front STAGE 1"
        ∷ codes "packet 6 front cray STAGED 1"
        ∷ codes "write front 1 flow.o1 3"
        ∷ codes "table 0"
        ∷ []) }
{}
