//! Runs of one host with two queues, of which a purge, an abort or a complex means one.
ghost use Rattle.std.specs.Prelude.{◌≡◌, codes, [], ◌∷◌, ◌++◌};
ghost use Rattle.nqs_rules.specs.Transcript.{lines};
ghost use Rattle.nqs_worked.specs.ScheduleWords.{done, one_host, told};
ghost use Rattle.nqs_worked_tables.specs.TwoQueues.{one_queue_is_aborted, one_queue_is_purged, two_complexes_limit};

/// An abort of one queue kills what runs there, and that alone is lost with the host.
pub fn one_queue_is_aborted()
    ensures { told one_host one_queue_is_aborted ≡ lines (
        done 4
        ++ codes "Request 1.alpha submitted to queue: batch."
        ∷ codes "launch alpha 1.alpha 1"
        ∷ codes "Request 2.alpha submitted to queue: night."
        ∷ codes "launch alpha 2.alpha 1"
        ∷ codes "Request 3.alpha submitted to queue: night."
        ∷ codes "launch alpha 3.alpha 1"
        ∷ codes "Request 4.alpha submitted to queue: batch."
        ∷ codes "Request 5.alpha submitted to queue: night."
        ∷ codes "Done."
        ∷ codes "kill alpha 2.alpha 1"
        ∷ codes "kill alpha 3.alpha 1"
        ∷ codes "stop alpha"
        ∷ codes "boot alpha"
        ∷ codes "again alpha 1.alpha"
        ∷ codes "lost alpha 2.alpha"
        ∷ codes "lost alpha 3.alpha"
        ∷ codes "launch alpha 1.alpha 2"
        ∷ codes "launch alpha 5.alpha 1"
        ∷ codes "table 3"
        ∷ codes "alpha batch 1.alpha RUNNING ann starts 2 lost 1"
        ∷ codes "alpha batch 4.alpha QUEUED ann starts 0 lost 0"
        ∷ codes "alpha night 5.alpha RUNNING ann starts 1 lost 0"
        ∷ []) }
{}

/// A purge of one queue takes what waits there, held or not.
pub fn one_queue_is_purged()
    ensures { told one_host one_queue_is_purged ≡ lines (
        done 4
        ++ codes "Request 1.alpha submitted to queue: batch."
        ∷ codes "Request 2.alpha submitted to queue: night."
        ∷ codes "launch alpha 2.alpha 1"
        ∷ codes "Request 3.alpha submitted to queue: batch."
        ∷ codes "Request 4.alpha submitted to queue: night."
        ∷ codes "launch alpha 4.alpha 1"
        ∷ codes "Request 5.alpha submitted to queue: night."
        ∷ codes "Done."
        ∷ codes "Done."
        ∷ codes "table 4"
        ∷ codes "alpha batch 1.alpha QUEUED ann starts 0 lost 0"
        ∷ codes "alpha night 2.alpha RUNNING ann starts 1 lost 0"
        ∷ codes "alpha batch 3.alpha HELD ann starts 0 lost 0"
        ∷ codes "alpha night 4.alpha RUNNING ann starts 1 lost 0"
        ∷ codes "Done."
        ∷ codes "table 2"
        ∷ codes "alpha night 2.alpha RUNNING ann starts 1 lost 0"
        ∷ codes "alpha night 4.alpha RUNNING ann starts 1 lost 0"
        ∷ []) }
{}

/// A complex of one queue and one of both: each limits only its own.
pub fn two_complexes_limit()
    ensures { told one_host two_complexes_limit ≡ lines (
        done 12
        ++ codes "Request 1.alpha submitted to queue: batch."
        ∷ codes "launch alpha 1.alpha 1"
        ∷ codes "Request 2.alpha submitted to queue: batch."
        ∷ codes "Request 3.alpha submitted to queue: night."
        ∷ codes "launch alpha 3.alpha 1"
        ∷ codes "Request 4.alpha submitted to queue: night."
        ∷ codes "ended alpha 3.alpha 1 0"
        ∷ codes "launch alpha 4.alpha 1"
        ∷ codes "Done."
        ∷ codes "Done."
        ∷ codes "launch alpha 2.alpha 1"
        ∷ codes "table 3"
        ∷ codes "alpha batch 1.alpha RUNNING ann starts 1 lost 0"
        ∷ codes "alpha batch 2.alpha RUNNING ann starts 1 lost 0"
        ∷ codes "alpha night 4.alpha RUNNING ann starts 1 lost 0"
        ∷ []) }
{}
