//! Runs of two hosts that are computed: handovers and stages.
ghost use Rattle.std.specs.Prelude.{◌≡◌, codes, [], ◌∷◌, ◌++◌};
ghost use Rattle.nqs_rules.specs.Transcript.{lines};
ghost use Rattle.nqs_worked.specs.ScheduleWords.{done, first_offered, first_taken, told, two_hosts};
ghost use Rattle.nqs_worked.specs.SmallNetwork.{purge_keeps_what_is_active, newest_packet_arrives, packets_repeat_after_boots, stages_repeat, peer_is_silent};
ghost use Rattle.nqs_worked.specs.SmallNetwork.{offers_are_refused, request_comes_back, promises_count_for_a_queue};

/// A purge drops queued requests, held ones too, and leaves those that run or are on their way.
pub fn purge_keeps_what_is_active()
    ensures { told two_hosts purge_keeps_what_is_active ≡ lines (
        done 4
        ++ first_offered
        ++ codes "Request 2.alpha submitted to queue: link."
        ∷ codes "Request 3.alpha submitted to queue: link."
        ∷ codes "Done."
        ∷ codes "Request 4.alpha submitted to queue: batch."
        ∷ codes "launch alpha 4.alpha 1"
        ∷ codes "Request 5.alpha submitted to queue: batch."
        ∷ codes "Refused 22: request 1.alpha is being routed."
        ∷ codes "Refused 22: request 1.alpha is being routed."
        ∷ codes "Refused 22: request 1.alpha is being routed."
        ∷ codes "Refused 23: request 4.alpha is running."
        ∷ done 3
        ++ codes "Refused 3: no queue nope."
        ∷ codes "table 2"
        ∷ codes "alpha link 1.alpha ROUTING ann starts 0 lost 0"
        ∷ codes "alpha batch 4.alpha RUNNING ann starts 1 lost 0"
        ∷ codes "Request 1.alpha has been deleted."
        ∷ codes "table 1"
        ∷ codes "alpha batch 4.alpha RUNNING ann starts 1 lost 0"
        ∷ []) }
{}

/// The newest packet between two hosts, either way.
pub fn newest_packet_arrives()
    ensures { told two_hosts newest_packet_arrives ≡ lines (
        codes "no packet"
        ∷ done 3
        ++ first_taken
        ++ codes "no packet"
        ∷ codes "no packet 9"
        ∷ codes "stop beta"
        ∷ codes "down beta"
        ∷ codes "table 1"
        ∷ codes "beta batch 1.alpha QUEUED ann starts 0 lost 0"
        ∷ []) }
{}

/// Promises, closed numbers and committed handovers outlive a boot.
pub fn packets_repeat_after_boots()
    ensures { told two_hosts packets_repeat_after_boots ≡ lines (
        done 3
        ++ first_offered
        ++ codes "packet 2 beta alpha READY 1"
        ∷ codes "stop beta"
        ∷ codes "boot beta"
        ∷ codes "packet 3 beta alpha READY 1"
        ∷ codes "table 1"
        ∷ codes "alpha link 1.alpha ROUTING ann starts 0 lost 0"
        ∷ codes "packet 4 alpha beta COMMIT 1"
        ∷ codes "stop alpha"
        ∷ codes "boot alpha"
        ∷ codes "table 1"
        ∷ codes "beta batch 1.alpha ARRIVING ann starts 0 lost 0"
        ∷ codes "packet 5 alpha beta COMMIT 1"
        ∷ codes "packet 6 alpha beta COMMIT 1"
        ∷ codes "packet 7 beta alpha DONE 1"
        ∷ codes "stop beta"
        ∷ codes "boot beta"
        ∷ codes "packet 8 beta alpha DONE 1"
        ∷ codes "packet 9 beta alpha DONE 1"
        ∷ codes "stop alpha"
        ∷ codes "boot alpha"
        ∷ codes "packet 10 alpha beta ABORT 1"
        ∷ codes "table 1"
        ∷ codes "beta batch 1.alpha QUEUED ann starts 0 lost 0"
        ∷ []) }
{}

/// Outputs go back in stages, one at a time, and each makes one file however often it comes.
pub fn stages_repeat()
    ensures { told two_hosts stages_repeat ≡ lines (
        done 4
        ++ first_taken
        ++ codes "launch beta 1.alpha 1"
        ∷ codes "ended beta 1.alpha 1 0"
        ∷ codes "packet 5 beta alpha STAGE 1"
        ∷ codes "packet 6 beta alpha STAGE 1"
        ∷ codes "packet 7 alpha beta STAGED 1"
        ∷ codes "write alpha 1 STDIN.o1 3"
        ∷ codes "packet 8 alpha beta STAGED 1"
        ∷ codes "packet 9 beta alpha STAGE 2"
        ∷ codes "packet 10 alpha beta STAGED 2"
        ∷ codes "write alpha 2 STDIN.e1 5"
        ∷ codes "stop alpha"
        ∷ codes "boot alpha"
        ∷ codes "packet 11 alpha beta STAGED 2"
        ∷ codes "write alpha 1 STDIN.o1 3"
        ∷ codes "write alpha 2 STDIN.e1 5"
        ∷ []) }
{}

/// An offer without an answer is taken back, the peer is waited for, and the next offer has the
/// next number.
pub fn peer_is_silent()
    ensures { told two_hosts peer_is_silent ≡ lines (
        done 3
        ++ first_offered
        ++ codes "packet 2 alpha beta OFFER 1"
        ∷ codes "table 1"
        ∷ codes "alpha link 1.alpha QUEUED ann starts 0 lost 0"
        ∷ codes "packet 3 alpha beta OFFER 2"
        ∷ codes "packet 4 beta alpha READY 1"
        ∷ codes "packet 5 alpha beta ABORT 1"
        ∷ codes "packet 6 beta alpha READY 2"
        ∷ codes "packet 7 beta alpha INQUIRE 2"
        ∷ codes "packet 8 alpha beta COMMIT 2"
        ∷ codes "table 1"
        ∷ codes "beta batch 1.alpha ARRIVING ann starts 0 lost 0"
        ∷ codes "packet 9 beta alpha DONE 2"
        ∷ codes "table 1"
        ∷ codes "beta batch 1.alpha QUEUED ann starts 0 lost 0"
        ∷ codes "packet 10 beta alpha DONE 1"
        ∷ []) }
{}

/// An offer is refused for its request, its queue, the way in or the limits, in this order.
pub fn offers_are_refused()
    ensures { told two_hosts offers_are_refused ≡ lines (
        done 6
        ++ first_offered
        ++ codes "packet 2 beta alpha REFUSED 1"
        ∷ codes "packet 3 alpha beta OFFER 2"
        ∷ codes "packet 4 beta alpha REFUSED 2"
        ∷ codes "table 1"
        ∷ codes "alpha link 1.alpha HELD ann starts 0 lost 0"
        ∷ done 3
        ++ codes "packet 5 alpha beta OFFER 3"
        ∷ codes "packet 6 beta alpha REFUSED 3"
        ∷ codes "packet 7 alpha beta OFFER 4"
        ∷ codes "packet 8 beta alpha REFUSED 4"
        ∷ codes "Done."
        ∷ codes "Done."
        ∷ codes "packet 9 alpha beta OFFER 5"
        ∷ codes "packet 10 beta alpha REFUSED 5"
        ∷ codes "packet 11 alpha beta OFFER 6"
        ∷ codes "packet 12 beta alpha REFUSED 6"
        ∷ codes "Done."
        ∷ codes "packet 13 beta alpha READY 6"
        ∷ codes "packet 14 alpha beta ABORT 6"
        ∷ codes "table 1"
        ∷ codes "alpha link 1.alpha HELD ann starts 0 lost 0"
        ∷ []) }
{}

/// A request goes to another host and back, and a late copy of its first offer is refused there.
pub fn request_comes_back()
    ensures { told two_hosts request_comes_back ≡ lines (
        done 8
        ++ first_taken
        ++ codes "packet 5 beta alpha OFFER 1"
        ∷ codes "packet 6 alpha beta READY 1"
        ∷ codes "packet 7 beta alpha COMMIT 1"
        ∷ codes "packet 8 alpha beta DONE 1"
        ∷ codes "table 1"
        ∷ codes "alpha batch 1.alpha QUEUED ann starts 0 lost 0"
        ∷ codes "packet 9 alpha beta DONE 1"
        ∷ codes "packet 10 beta alpha ABORT 1"
        ∷ codes "packet 11 beta alpha DONE 1"
        ∷ codes "packet 12 beta alpha DONE 1"
        ∷ []) }
{}

/// A queue with a promise is in use, and a request that its own host gave up may be promised and
/// lie elsewhere.
pub fn promises_count_for_a_queue()
    ensures { told two_hosts promises_count_for_a_queue ≡ lines (
        done 7
        ++ first_offered
        ++ codes "packet 2 beta alpha READY 1"
        ∷ codes "Refused 26: queue night holds 1 requests."
        ∷ codes "Request 1.alpha has been deleted."
        ∷ codes "table 0"
        ∷ codes "packet 3 beta alpha INQUIRE 1"
        ∷ codes "packet 4 alpha beta ABORT 1"
        ∷ codes "Done."
        ∷ []) }
{}
