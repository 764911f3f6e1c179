//! Runs of one host that are computed: the transcript of each schedule.
ghost use Rattle.std.specs.Prelude.{◌≡◌, codes, [], ◌∷◌, ◌++◌, replicate};
ghost use Rattle.nqs_rules.specs.Transcript.{lines};
ghost use Rattle.nqs_worked.specs.ScheduleWords.{done, kept, not_kept, one_host, stops_told, told};
ghost use Rattle.nqs_types.specs.declared.world.Which.TheVariants.{First, Spool};
ghost use Rattle.nqs_worked.specs.OneHost.{submission_is_shown, priority_starts_first, complex_limits_its_queues, limit_counts_what_runs, request_is_lost};
ghost use Rattle.nqs_worked.specs.OneHost.{request_starts_again, boot_stops, commands_are_refused, ranks_and_lists, words_are_refused, requests_are_listed};
ghost use Rattle.nqs_worked.specs.OneHost.{devices_and_forms, request_goes_round, local_destination_refuses};

/// One submission, and the table.
pub fn submission_is_shown()
    ensures { told one_host submission_is_shown ≡ lines (
        codes "Request 1.alpha submitted to queue: batch."
        ∷ codes "table 1"
        ∷ codes "alpha batch 1.alpha QUEUED ann starts 0 lost 0"
        ∷ []) }
{}

/// The greater priority starts first, and among equals the earlier.
pub fn priority_starts_first()
    ensures { told one_host priority_starts_first ≡ lines (
        codes "Request 1.alpha submitted to queue: batch."
        ∷ codes "Request 2.alpha submitted to queue: batch."
        ∷ codes "Request 3.alpha submitted to queue: batch."
        ∷ codes "Done."
        ∷ codes "launch alpha 2.alpha 1"
        ∷ codes "ended alpha 2.alpha 1 0"
        ∷ codes "launch alpha 3.alpha 1"
        ∷ codes "table 2"
        ∷ codes "alpha batch 1.alpha QUEUED ann starts 0 lost 0"
        ∷ codes "alpha batch 3.alpha RUNNING cy starts 1 lost 0"
        ∷ []) }
{}

/// A complex limits its queues together.
pub fn complex_limits_its_queues()
    ensures { told one_host complex_limits_its_queues ≡ lines (
        done 8
        ++ codes "Request 1.alpha submitted to queue: batch."
        ∷ codes "launch alpha 1.alpha 1"
        ∷ codes "Request 2.alpha submitted to queue: night."
        ∷ codes "table 2"
        ∷ codes "alpha batch 1.alpha RUNNING ann starts 1 lost 0"
        ∷ codes "alpha night 2.alpha QUEUED ann starts 0 lost 0"
        ∷ []) }
{}

/// The run limit counts what already runs.
pub fn limit_counts_what_runs()
    ensures { told one_host limit_counts_what_runs ≡ lines (
        codes "Done."
        ∷ codes "Done."
        ∷ codes "Request 1.alpha submitted to queue: batch."
        ∷ codes "launch alpha 1.alpha 1"
        ∷ codes "Request 2.alpha submitted to queue: batch."
        ∷ codes "launch alpha 2.alpha 1"
        ∷ codes "Request 3.alpha submitted to queue: batch."
        ∷ codes "launch alpha 3.alpha 1"
        ∷ codes "Request 4.alpha submitted to queue: batch."
        ∷ codes "Done."
        ∷ codes "ended alpha 1.alpha 1 0"
        ∷ codes "ended alpha 2.alpha 1 0"
        ∷ codes "ended alpha 3.alpha 1 0"
        ∷ codes "launch alpha 4.alpha 1"
        ∷ []) }
{}

/// A request that isn't rerunnable is lost with its host.
pub fn request_is_lost()
    ensures { told one_host request_is_lost ≡ lines (
        codes "Done."
        ∷ codes "Request 1.alpha submitted to queue: batch."
        ∷ codes "launch alpha 1.alpha 1"
        ∷ codes "stop alpha"
        ∷ codes "boot alpha"
        ∷ codes "lost alpha 1.alpha"
        ∷ codes "table 0"
        ∷ []) }
{}

/// Another starts again after the stop.
pub fn request_starts_again()
    ensures { told one_host request_starts_again ≡ lines (
        codes "Done."
        ∷ codes "Request 1.alpha submitted to queue: batch."
        ∷ codes "launch alpha 1.alpha 1"
        ∷ codes "stop alpha"
        ∷ codes "boot alpha"
        ∷ codes "again alpha 1.alpha"
        ∷ codes "launch alpha 1.alpha 2"
        ∷ codes "table 1"
        ∷ codes "alpha batch 1.alpha RUNNING ann starts 2 lost 1"
        ∷ []) }
{}

/// A boot is stopped, and its record is kept.
pub fn boot_stops()
    ensures { told one_host boot_stops ≡ lines (
        codes "Done."
        ∷ codes "Request 1.alpha submitted to queue: batch."
        ∷ codes "launch alpha 1.alpha 1"
        ∷ codes "stop alpha"
        ∷ codes "stop alpha"
        ∷ codes "boot alpha"
        ∷ codes "launch alpha 1.alpha 2"
        ∷ codes "table 1"
        ∷ codes "alpha batch 1.alpha RUNNING ann starts 2 lost 1"
        ∷ []) }
{}

/// Refusals, bad words, and events that meet nothing.
pub fn commands_are_refused()
    ensures { told one_host commands_are_refused ≡ lines (
        codes "Refused 3: no queue nope."
        ∷ codes "Bad word 2: bad number"
        ∷ codes "Refused 2: not an operator."
        ∷ codes "Bad line at 0: ambiguous"
        ∷ codes "0 requests."
        ∷ codes "Refused 6: no request 9.alpha."
        ∷ codes "no packet 1"
        ∷ []) }
{}

/// Ranks of users, and a list of users of a queue.
pub fn ranks_and_lists()
    ensures { told one_host ranks_and_lists ≡ lines (
        codes "Done."
        ∷ codes "Done."
        ∷ codes "Refused 1: not a manager."
        ∷ codes "Done."
        ∷ codes "Refused 21: no access to queue batch."
        ∷ codes "Done."
        ∷ codes "Request 1.alpha submitted to queue: batch."
        ∷ codes "table 1"
        ∷ codes "alpha batch 1.alpha QUEUED ann starts 0 lost 0"
        ∷ []) }
{}

/// Bad words of a script and of a command.
pub fn words_are_refused()
    ensures { told one_host words_are_refused ≡ lines (
        codes "Bad word 2 in script line 1: bad number"
        ∷ codes "Bad word 3: both -e and -eo"
        ∷ []) }
{}

/// Lists of requests, and who may delete them.
pub fn requests_are_listed()
    ensures { told one_host requests_are_listed ≡ lines (
        codes "Request 1.alpha submitted to queue: batch."
        ∷ codes "Request 2.alpha submitted to queue: batch."
        ∷ codes "2.alpha top bob batch QUEUED 63"
        ∷ codes "1.alpha low ann batch QUEUED 10"
        ∷ codes "2 requests."
        ∷ codes "1.alpha low ann batch QUEUED 10"
        ∷ codes "1 requests."
        ∷ codes "Refused 18: not the owner."
        ∷ codes "Request 2.alpha has been deleted."
        ∷ []) }
{}

/// A device runs requests with its forms, and a file is written.
pub fn devices_and_forms()
    ensures { told one_host devices_and_forms ≡ lines (
        done 6
        ++ codes "Request 1.alpha submitted to queue: lp."
        ∷ codes "Request 2.alpha submitted to queue: lp."
        ∷ codes "print alpha 2.alpha 1 laser"
        ∷ codes "Refused 27: device laser is busy."
        ∷ codes "ended alpha 2.alpha 1 0"
        ∷ codes "Done."
        ∷ codes "print alpha 1.alpha 1 laser"
        ∷ codes "ended alpha 1.alpha 1 0"
        ∷ codes "write alpha 1 STDIN.o1 2"
        ∷ codes "write alpha 1 STDIN.o1 2"
        ∷ codes "table 0"
        ∷ []) }
{}

/// A request that two pipe queues hand to each other is held after 32 moves.
pub fn request_goes_round()
    ensures { told one_host request_goes_round ≡ lines (
        done 7
        ++ codes "Request 1.alpha submitted to queue: ping."
        ∷ codes "table 1"
        ∷ codes "alpha ping 1.alpha HELD ann starts 0 lost 0"
        ∷ []) }
{}

/// A request that its only destination refuses is held until it is released.
pub fn local_destination_refuses()
    ensures { told one_host local_destination_refuses ≡ lines (
        done 4
        ++ codes "Request 1.alpha submitted to queue: link."
        ∷ codes "table 1"
        ∷ codes "alpha link 1.alpha HELD ann starts 0 lost 0"
        ∷ codes "Done."
        ∷ codes "Done."
        ∷ codes "table 1"
        ∷ codes "alpha batch 1.alpha QUEUED ann starts 0 lost 0"
        ∷ []) }
{}

/// A stop at either call of the spool, with any tear, keeps nothing of a submission.
pub fn spool_stops()
    ensures { stops_told Spool (1 ∷ 2 ∷ []) ≡ replicate 8 not_kept }
{}

/// Nor does one before the gate is written. From there on the tear decides, by whether it leaves
/// the gate at 1.
pub fn gate_decides()
    ensures early { stops_told First (1 ∷ 2 ∷ []) ≡ replicate 8 not_kept }
    ensures late { stops_told First (3 ∷ 4 ∷ []) ≡ not_kept ∷ kept ∷ kept ∷ not_kept ∷ not_kept ∷ kept ∷ kept ∷ not_kept ∷ [] }
{}
