//! Runs of two hosts that are computed, in which several handovers are open at once.
ghost use Rattle.std.specs.Prelude.{◌≡◌, codes, [], ◌∷◌, ◌++◌};
ghost use Rattle.nqs_rules.specs.Transcript.{lines};
ghost use Rattle.nqs_worked.specs.ManyHandovers.{ninth_waits, offers_cross, one_of_three_is_deleted, several_outlive_boots, silent_offers_are_passed};
ghost use Rattle.nqs_worked.specs.ScheduleWords.{done, three_offered, told, two_hosts};

/// The offer of the third of three requests comes first and is taken up to its end. That of the
/// first one, which comes behind, is promised all the same.
pub fn offers_cross()
    ensures { told two_hosts offers_cross ≡ lines (
        done 4
        ++ three_offered
        ++ codes "packet 4 beta alpha READY 3"
        ∷ codes "packet 5 alpha beta COMMIT 3"
        ∷ codes "packet 6 beta alpha DONE 3"
        ∷ codes "packet 7 beta alpha READY 1"
        ∷ codes "table 3"
        ∷ codes "alpha link 1.alpha ROUTING ann starts 0 lost 0"
        ∷ codes "alpha link 2.alpha ROUTING ann starts 0 lost 0"
        ∷ codes "beta batch 3.alpha QUEUED ann starts 0 lost 0"
        ∷ []) }
{}

/// Eight requests are on their way, and the ninth waits, also behind a commit: until one of the
/// eight handovers is over. The offers are answered in the worst order, and none twice.
pub fn ninth_waits()
    ensures { told two_hosts ninth_waits ≡ lines (
        done 4
        ++ three_offered
        ++ codes "Request 4.alpha submitted to queue: link."
        ∷ codes "packet 4 alpha beta OFFER 4"
        ∷ codes "Request 5.alpha submitted to queue: link."
        ∷ codes "packet 5 alpha beta OFFER 5"
        ∷ codes "Request 6.alpha submitted to queue: link."
        ∷ codes "packet 6 alpha beta OFFER 6"
        ∷ codes "Request 7.alpha submitted to queue: link."
        ∷ codes "packet 7 alpha beta OFFER 7"
        ∷ codes "Request 8.alpha submitted to queue: link."
        ∷ codes "packet 8 alpha beta OFFER 8"
        ∷ codes "Request 9.alpha submitted to queue: link."
        ∷ codes "Request 9.alpha: no destination of queue link may be tried now."
        ∷ codes "batch@beta: its host is being handed eight requests."
        ∷ codes "Requests that wait before it: 0."
        ∷ codes "packet 9 beta alpha READY 8"
        ∷ codes "packet 10 beta alpha READY 7"
        ∷ codes "packet 11 beta alpha READY 6"
        ∷ codes "packet 12 beta alpha READY 5"
        ∷ codes "packet 13 beta alpha READY 4"
        ∷ codes "packet 14 beta alpha READY 3"
        ∷ codes "packet 15 beta alpha READY 2"
        ∷ codes "packet 16 beta alpha READY 1"
        ∷ codes "packet 17 alpha beta COMMIT 8"
        ∷ codes "packet 18 beta alpha DONE 8"
        ∷ codes "packet 19 alpha beta OFFER 9"
        ∷ codes "packet 20 beta alpha READY 9"
        ∷ codes "packet 21 beta alpha DONE 8"
        ∷ codes "table 9"
        ∷ codes "alpha link 1.alpha ROUTING ann starts 0 lost 0"
        ∷ codes "alpha link 2.alpha ROUTING ann starts 0 lost 0"
        ∷ codes "alpha link 3.alpha ROUTING ann starts 0 lost 0"
        ∷ codes "alpha link 4.alpha ROUTING ann starts 0 lost 0"
        ∷ codes "alpha link 5.alpha ROUTING ann starts 0 lost 0"
        ∷ codes "alpha link 6.alpha ROUTING ann starts 0 lost 0"
        ∷ codes "alpha link 7.alpha ROUTING ann starts 0 lost 0"
        ∷ codes "alpha link 9.alpha ROUTING ann starts 0 lost 0"
        ∷ codes "beta batch 8.alpha QUEUED ann starts 0 lost 0"
        ∷ []) }
{}

/// Three offers are taken back. The others, said again, tell the receiver so by their low: it drops
/// what it promised of the three, and says of a late copy that it is over.
pub fn silent_offers_are_passed()
    ensures { told two_hosts silent_offers_are_passed ≡ lines (
        done 4
        ++ three_offered
        ++ codes "Request 4.alpha submitted to queue: link."
        ∷ codes "packet 4 alpha beta OFFER 4"
        ∷ codes "Request 5.alpha submitted to queue: link."
        ∷ codes "packet 5 alpha beta OFFER 5"
        ∷ codes "packet 6 alpha beta OFFER 4"
        ∷ codes "packet 7 alpha beta OFFER 5"
        ∷ codes "packet 8 beta alpha READY 2"
        ∷ codes "packet 9 beta alpha READY 4"
        ∷ codes "packet 10 beta alpha DONE 1"
        ∷ codes "packet 11 beta alpha DONE 2"
        ∷ codes "packet 12 alpha beta ABORT 2"
        ∷ codes "packet 13 beta alpha READY 4"
        ∷ codes "packet 14 alpha beta COMMIT 4"
        ∷ codes "table 5"
        ∷ codes "alpha link 1.alpha QUEUED ann starts 0 lost 0"
        ∷ codes "alpha link 2.alpha QUEUED ann starts 0 lost 0"
        ∷ codes "alpha link 3.alpha QUEUED ann starts 0 lost 0"
        ∷ codes "alpha link 5.alpha ROUTING ann starts 0 lost 0"
        ∷ codes "beta batch 4.alpha ARRIVING ann starts 0 lost 0"
        ∷ []) }
{}

/// A request is deleted that was promised: its READY is answered ABORT, which closes its number.
/// The handovers before and behind it go on.
pub fn one_of_three_is_deleted()
    ensures { told two_hosts one_of_three_is_deleted ≡ lines (
        done 4
        ++ three_offered
        ++ codes "packet 4 beta alpha READY 2"
        ∷ codes "Request 2.alpha has been deleted."
        ∷ codes "packet 5 alpha beta ABORT 2"
        ∷ codes "packet 6 beta alpha DONE 2"
        ∷ codes "packet 7 beta alpha READY 3"
        ∷ codes "packet 8 beta alpha READY 1"
        ∷ codes "table 2"
        ∷ codes "alpha link 1.alpha ROUTING ann starts 0 lost 0"
        ∷ codes "alpha link 3.alpha ROUTING ann starts 0 lost 0"
        ∷ []) }
{}

/// What is promised, what is committed and what is closed above the floor outlives a stop of either
/// host.
pub fn several_outlive_boots()
    ensures { told two_hosts several_outlive_boots ≡ lines (
        done 4
        ++ three_offered
        ++ codes "packet 4 beta alpha READY 3"
        ∷ codes "packet 5 alpha beta COMMIT 3"
        ∷ codes "packet 6 beta alpha DONE 3"
        ∷ codes "stop beta"
        ∷ codes "boot beta"
        ∷ codes "packet 7 beta alpha READY 1"
        ∷ codes "packet 8 beta alpha DONE 3"
        ∷ codes "packet 9 beta alpha DONE 3"
        ∷ codes "stop alpha"
        ∷ codes "boot alpha"
        ∷ codes "packet 10 alpha beta COMMIT 1"
        ∷ codes "packet 11 alpha beta COMMIT 1"
        ∷ codes "packet 12 alpha beta OFFER 2"
        ∷ codes "packet 13 alpha beta COMMIT 3"
        ∷ codes "packet 14 beta alpha READY 2"
        ∷ codes "packet 15 alpha beta COMMIT 1"
        ∷ codes "packet 16 alpha beta OFFER 2"
        ∷ codes "packet 17 beta alpha DONE 1"
        ∷ codes "packet 18 beta alpha DONE 1"
        ∷ codes "table 3"
        ∷ codes "alpha link 2.alpha ROUTING ann starts 0 lost 0"
        ∷ codes "beta batch 1.alpha QUEUED ann starts 0 lost 0"
        ∷ codes "beta batch 3.alpha QUEUED ann starts 0 lost 0"
        ∷ []) }
{}
