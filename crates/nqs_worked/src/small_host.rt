//! Runs of one host that are computed: requests, limits and starts.
ghost use Rattle.std.specs.Prelude.{◌≡◌, codes, [], ◌∷◌, ◌++◌};
ghost use Rattle.nqs_rules.specs.Transcript.{lines};
ghost use Rattle.nqs_worked.specs.ScheduleWords.{done, one_host, told};
ghost use Rattle.nqs_worked.specs.SmallHost.{owner_has_a_limit, request_states_too_much, all_batch_queues_have_a_limit, jobs_are_told_to_end};
ghost use Rattle.nqs_worked.specs.SmallHost.{requests_are_held_and_moved, request_waits_for_its_start, pipe_queue_tries_the_next, queues_have_priorities};

/// An owner has so many requests running as the queue allows, and who waits for that keeps back no
/// one.
pub fn owner_has_a_limit()
    ensures { told one_host owner_has_a_limit ≡ lines (
        done 3
        ++ codes "Request 1.alpha submitted to queue: batch."
        ∷ codes "launch alpha 1.alpha 1"
        ∷ codes "Request 2.alpha submitted to queue: batch."
        ∷ codes "Request 3.alpha submitted to queue: batch."
        ∷ codes "launch alpha 3.alpha 1"
        ∷ codes "Done."
        ∷ codes "launch alpha 2.alpha 1"
        ∷ codes "Refused 3: no queue nope."
        ∷ codes "table 3"
        ∷ codes "alpha batch 1.alpha RUNNING ann starts 1 lost 0"
        ∷ codes "alpha batch 2.alpha RUNNING ann starts 1 lost 0"
        ∷ codes "alpha batch 3.alpha RUNNING bob starts 1 lost 0"
        ∷ []) }
{}

/// What a request states is at most the limits of its queue, which are tested after the way in.
pub fn request_states_too_much()
    ensures { told one_host request_states_too_much ≡ lines (
        codes "Done."
        ∷ codes "Done."
        ∷ codes "Refused 28: over the cpu limit of queue batch."
        ∷ codes "Refused 29: over the memory limit of queue batch."
        ∷ codes "Request 1.alpha submitted to queue: batch."
        ∷ codes "Done."
        ∷ codes "Refused 19: queue batch is disabled."
        ∷ codes "Done."
        ∷ codes "Done."
        ∷ codes "Request 2.alpha submitted to queue: batch."
        ∷ codes "Done."
        ∷ codes "Request 3.alpha submitted to queue: batch."
        ∷ codes "Refused 3: no queue x."
        ∷ codes "Refused 3: no queue x."
        ∷ []) }
{}

/// The running requests of all batch queues together have a limit, those of other queues none.
pub fn all_batch_queues_have_a_limit()
    ensures { told one_host all_batch_queues_have_a_limit ≡ lines (
        done 11
        ++ codes "Request 1.alpha submitted to queue: lp."
        ∷ codes "print alpha 1.alpha 1 laser"
        ∷ codes "Request 2.alpha submitted to queue: batch."
        ∷ codes "launch alpha 2.alpha 1"
        ∷ codes "Request 3.alpha submitted to queue: night."
        ∷ codes "Done."
        ∷ codes "launch alpha 3.alpha 1"
        ∷ []) }
{}

/// A running request is told to end by a deletion with kill or by an abort of its queue, again each
/// time, and is lost with its host.
pub fn jobs_are_told_to_end()
    ensures { told one_host jobs_are_told_to_end ≡ lines (
        codes "Done."
        ∷ codes "Done."
        ∷ codes "Request 1.alpha submitted to queue: batch."
        ∷ codes "launch alpha 1.alpha 1"
        ∷ codes "Request 2.alpha submitted to queue: batch."
        ∷ codes "launch alpha 2.alpha 1"
        ∷ codes "Request 3.alpha submitted to queue: batch."
        ∷ codes "Refused 23: request 1.alpha is running."
        ∷ codes "Refused 18: not the owner."
        ∷ codes "Request 1.alpha has been signalled."
        ∷ codes "kill alpha 1.alpha 1"
        ∷ codes "Request 1.alpha has been signalled."
        ∷ codes "kill alpha 1.alpha 1"
        ∷ codes "Done."
        ∷ codes "kill alpha 1.alpha 1"
        ∷ codes "kill alpha 2.alpha 1"
        ∷ codes "Done."
        ∷ codes "kill alpha 1.alpha 1"
        ∷ codes "kill alpha 2.alpha 1"
        ∷ codes "Done."
        ∷ codes "Refused 12: wrong kind of queue."
        ∷ codes "Refused 3: no queue x."
        ∷ codes "table 3"
        ∷ codes "alpha batch 1.alpha RUNNING ann starts 1 lost 0"
        ∷ codes "alpha batch 2.alpha RUNNING bob starts 1 lost 0"
        ∷ codes "alpha batch 3.alpha QUEUED cy starts 0 lost 0"
        ∷ codes "stop alpha"
        ∷ codes "boot alpha"
        ∷ codes "lost alpha 1.alpha"
        ∷ codes "lost alpha 2.alpha"
        ∷ codes "launch alpha 3.alpha 1"
        ∷ codes "Request 3.alpha has been signalled."
        ∷ codes "kill alpha 3.alpha 1"
        ∷ codes "table 1"
        ∷ codes "alpha batch 3.alpha RUNNING cy starts 1 lost 0"
        ∷ []) }
{}

/// A moved request keeps its hold and takes a new arrival; a changed priority counts.
pub fn requests_are_held_and_moved()
    ensures { told one_host requests_are_held_and_moved ≡ lines (
        codes "Done."
        ∷ codes "Done."
        ∷ codes "Request 1.alpha submitted to queue: batch."
        ∷ codes "Done."
        ∷ codes "Refused 25: request 1.alpha is held."
        ∷ codes "Refused 6: no request 9.alpha."
        ∷ codes "Request 2.alpha submitted to queue: night."
        ∷ codes "Done."
        ∷ codes "table 2"
        ∷ codes "alpha night 1.alpha HELD ann starts 0 lost 0"
        ∷ codes "alpha night 2.alpha QUEUED bob starts 0 lost 0"
        ∷ codes "Done."
        ∷ codes "Refused 24: request 1.alpha is not held."
        ∷ codes "Refused 6: no request 9.alpha."
        ∷ codes "Done."
        ∷ codes "launch alpha 2.alpha 1"
        ∷ codes "Refused 23: request 2.alpha is running."
        ∷ codes "Done."
        ∷ codes "Refused 23: request 2.alpha is running."
        ∷ codes "Refused 6: no request 9.alpha."
        ∷ codes "Refused 23: request 2.alpha is running."
        ∷ codes "Refused 3: no queue nope."
        ∷ codes "Refused 6: no request 9.alpha."
        ∷ codes "Done."
        ∷ codes "Refused 21: no access to queue night."
        ∷ codes "Done."
        ∷ codes "Done."
        ∷ codes "Request 3.alpha submitted to queue: night."
        ∷ codes "Refused 28: over the cpu limit of queue batch."
        ∷ codes "1.alpha STDIN ann night QUEUED 63"
        ∷ codes "2.alpha STDIN bob night RUNNING 31"
        ∷ codes "3.alpha STDIN ann night QUEUED 31"
        ∷ codes "3 requests."
        ∷ []) }
{}

/// A request with an earliest start waits for it, keeps back no one, and starts at the first event
/// then.
pub fn request_waits_for_its_start()
    ensures { told one_host request_waits_for_its_start ≡ lines (
        codes "Done."
        ∷ codes "Request 1.alpha submitted to queue: batch."
        ∷ codes "Request 2.alpha submitted to queue: batch."
        ∷ codes "launch alpha 2.alpha 1"
        ∷ codes "ended alpha 2.alpha 1 0"
        ∷ codes "table 1"
        ∷ codes "alpha batch 1.alpha QUEUED ann starts 0 lost 0"
        ∷ codes "Refused 3: no queue nope."
        ∷ codes "launch alpha 1.alpha 1"
        ∷ codes "ended alpha 1.alpha 1 7"
        ∷ []) }
{}

/// Destinations of this host are tried in order within one event, and a run limit of 0 stops that.
pub fn pipe_queue_tries_the_next()
    ensures { told one_host pipe_queue_tries_the_next ≡ lines (
        done 6
        ++ codes "Request 1.alpha submitted to queue: link."
        ∷ codes "table 1"
        ∷ codes "alpha link 1.alpha QUEUED ann starts 0 lost 0"
        ∷ codes "Done."
        ∷ codes "table 1"
        ∷ codes "alpha batch 1.alpha QUEUED ann starts 0 lost 0"
        ∷ done 3
        ++ codes "Request 2.alpha submitted to queue: empty."
        ∷ codes "table 2"
        ∷ codes "alpha batch 1.alpha QUEUED ann starts 0 lost 0"
        ∷ codes "alpha empty 2.alpha QUEUED ann starts 0 lost 0"
        ∷ []) }
{}

/// The queue of greatest priority starts first, among equals the first created, and one that can't
/// start keeps back no one.
pub fn queues_have_priorities()
    ensures { told one_host queues_have_priorities ≡ lines (
        done 5
        ++ codes "Request 1.alpha submitted to queue: night."
        ∷ codes "Request 2.alpha submitted to queue: night."
        ∷ codes "Request 3.alpha submitted to queue: batch."
        ∷ codes "Request 4.alpha submitted to queue: batch."
        ∷ codes "Done."
        ∷ codes "launch alpha 3.alpha 1"
        ∷ codes "Done."
        ∷ codes "ended alpha 3.alpha 1 0"
        ∷ codes "launch alpha 1.alpha 1"
        ∷ codes "Done."
        ∷ codes "ended alpha 1.alpha 1 0"
        ∷ codes "launch alpha 4.alpha 1"
        ∷ codes "Done."
        ∷ codes "ended alpha 4.alpha 1 0"
        ∷ codes "Done."
        ∷ codes "launch alpha 2.alpha 1"
        ∷ []) }
{}
