//! Runs of one host that are computed: ends, outputs, stops and boots.
ghost use Rattle.std.specs.Prelude.{◌≡◌, codes, [], ◌∷◌};
ghost use Rattle.nqs_rules.specs.Transcript.{lines};
ghost use Rattle.nqs_worked.specs.ScheduleWords.{told, one_host};
ghost use Rattle.nqs_worked.specs.Stops.{host_is_shut_down, shutdown_meets_a_fuse, requests_finish, outputs_are_written, rows_come_back_in_order};
ghost use Rattle.nqs_worked.specs.Stops.{outputs_meet_fuses, fuses_are_replaced};

/// A shutdown is answered, then come the starts of that event, and then the host stops.
pub fn host_is_shut_down()
    ensures { told one_host host_is_shut_down ≡ lines (
        codes "Done."
        ∷ codes "Done."
        ∷ codes "Request 1.alpha submitted to queue: batch."
        ∷ codes "Request 2.alpha submitted to queue: batch."
        ∷ codes "Refused 1: not a manager."
        ∷ codes "launch alpha 1.alpha 1"
        ∷ codes "Done."
        ∷ codes "launch alpha 2.alpha 1"
        ∷ codes "stop alpha"
        ∷ codes "down alpha"
        ∷ codes "down alpha"
        ∷ codes "down alpha"
        ∷ codes "down alpha"
        ∷ codes "down alpha"
        ∷ codes "boot alpha"
        ∷ codes "again alpha 1.alpha"
        ∷ codes "again alpha 2.alpha"
        ∷ codes "launch alpha 1.alpha 2"
        ∷ codes "launch alpha 2.alpha 2"
        ∷ codes "up alpha"
        ∷ codes "stop alpha"
        ∷ []) }
{}

/// Where a fuse falls in the starts of a shutdown there is one stop only.
pub fn shutdown_meets_a_fuse()
    ensures { told one_host shutdown_meets_a_fuse ≡ lines (
        codes "Done."
        ∷ codes "Request 1.alpha submitted to queue: batch."
        ∷ codes "Done."
        ∷ codes "stop alpha"
        ∷ codes "boot alpha"
        ∷ codes "launch alpha 1.alpha 1"
        ∷ []) }
{}

/// The least running request is ended, and a launch that failed takes its request away.
pub fn requests_finish()
    ensures { told one_host requests_finish ≡ lines (
        codes "idle alpha"
        ∷ codes "Done."
        ∷ codes "Done."
        ∷ codes "Request 1.alpha submitted to queue: batch."
        ∷ codes "launch alpha 1.alpha 1"
        ∷ codes "Request 2.alpha submitted to queue: batch."
        ∷ codes "launch alpha 2.alpha 1"
        ∷ codes "ended alpha 1.alpha 1 0"
        ∷ codes "unlaunched alpha 2.alpha 1"
        ∷ codes "idle alpha"
        ∷ codes "table 0"
        ∷ []) }
{}

/// Outputs are asked for at each tick until they are written, and -eo makes one of both.
pub fn outputs_are_written()
    ensures { told one_host outputs_are_written ≡ lines (
        codes "Done."
        ∷ codes "Request 1.alpha submitted to queue: batch."
        ∷ codes "launch alpha 1.alpha 1"
        ∷ codes "ended alpha 1.alpha 1 0"
        ∷ codes "write alpha 1 STDIN.o1 3"
        ∷ codes "write alpha 2 STDIN.e1 5"
        ∷ codes "write alpha 1 STDIN.o1 3"
        ∷ codes "write alpha 2 STDIN.e1 5"
        ∷ codes "write alpha 2 STDIN.e1 5"
        ∷ codes "Request 2.alpha submitted to queue: batch."
        ∷ codes "launch alpha 2.alpha 1"
        ∷ codes "ended alpha 2.alpha 1 3"
        ∷ codes "write alpha 3 sim.o2 3"
        ∷ codes "Request 3.alpha submitted to queue: batch."
        ∷ codes "launch alpha 3.alpha 1"
        ∷ codes "ended alpha 3.alpha 1 0"
        ∷ codes "write alpha 4 res/log 4"
        ∷ codes "Request 4.alpha submitted to queue: batch."
        ∷ codes "launch alpha 4.alpha 1"
        ∷ codes "ended alpha 4.alpha 1 0"
        ∷ codes "write alpha 5 trouble 1"
        ∷ codes "Request 5.alpha submitted to queue: batch."
        ∷ codes "launch alpha 5.alpha 1"
        ∷ codes "ended alpha 5.alpha 1 0"
        ∷ codes "write alpha 3 sim.o2 3"
        ∷ codes "write alpha 4 res/log 4"
        ∷ codes "write alpha 5 trouble 1"
        ∷ []) }
{}

/// A boot tells in the order of rows which requests start again and which are lost.
pub fn rows_come_back_in_order()
    ensures { told one_host rows_come_back_in_order ≡ lines (
        codes "Done."
        ∷ codes "Done."
        ∷ codes "Request 1.alpha submitted to queue: batch."
        ∷ codes "launch alpha 1.alpha 1"
        ∷ codes "Request 2.alpha submitted to queue: batch."
        ∷ codes "launch alpha 2.alpha 1"
        ∷ codes "Request 3.alpha submitted to queue: batch."
        ∷ codes "launch alpha 3.alpha 1"
        ∷ codes "Request 4.alpha submitted to queue: batch."
        ∷ codes "stop alpha"
        ∷ codes "table 4"
        ∷ codes "alpha batch 1.alpha RUNNING ann starts 1 lost 0"
        ∷ codes "alpha batch 2.alpha RUNNING bob starts 1 lost 0"
        ∷ codes "alpha batch 3.alpha RUNNING cy starts 1 lost 0"
        ∷ codes "alpha batch 4.alpha QUEUED dee starts 0 lost 0"
        ∷ codes "boot alpha"
        ∷ codes "again alpha 1.alpha"
        ∷ codes "lost alpha 2.alpha"
        ∷ codes "again alpha 3.alpha"
        ∷ codes "launch alpha 3.alpha 2"
        ∷ codes "launch alpha 1.alpha 2"
        ∷ codes "launch alpha 4.alpha 1"
        ∷ codes "table 3"
        ∷ codes "alpha batch 1.alpha RUNNING ann starts 2 lost 1"
        ∷ codes "alpha batch 3.alpha RUNNING cy starts 2 lost 1"
        ∷ codes "alpha batch 4.alpha RUNNING dee starts 1 lost 0"
        ∷ []) }
{}

/// Each output that has bytes takes two calls of the spool, and a call that isn't made counts for
/// no fuse.
pub fn outputs_meet_fuses()
    ensures { told one_host outputs_meet_fuses ≡ lines (
        codes "Done."
        ∷ codes "Request 1.alpha submitted to queue: batch."
        ∷ codes "launch alpha 1.alpha 1"
        ∷ codes "stop alpha"
        ∷ codes "boot alpha"
        ∷ codes "again alpha 1.alpha"
        ∷ codes "launch alpha 1.alpha 2"
        ∷ codes "ended alpha 1.alpha 2 0"
        ∷ codes "write alpha 1 STDIN.o1 1"
        ∷ codes "Request 2.alpha submitted to queue: batch."
        ∷ codes "launch alpha 2.alpha 1"
        ∷ codes "stop alpha"
        ∷ codes "table 1"
        ∷ codes "alpha batch 2.alpha RUNNING bob starts 1 lost 0"
        ∷ codes "boot alpha"
        ∷ codes "again alpha 2.alpha"
        ∷ codes "launch alpha 2.alpha 2"
        ∷ codes "write alpha 1 STDIN.o1 1"
        ∷ codes "table 1"
        ∷ codes "alpha batch 2.alpha RUNNING bob starts 2 lost 1"
        ∷ []) }
{}

/// A later fuse replaces the count of its disk and the tear of its host, a stop takes all fuses
/// away, and one of 0 is one of 1.
pub fn fuses_are_replaced()
    ensures { told one_host fuses_are_replaced ≡ lines (
        codes "Request 1.alpha submitted to queue: batch."
        ∷ codes "stop alpha"
        ∷ codes "boot alpha"
        ∷ codes "Request 3.alpha submitted to queue: batch."
        ∷ codes "stop alpha"
        ∷ codes "stop alpha"
        ∷ codes "boot alpha"
        ∷ codes "table 3"
        ∷ codes "alpha batch 1.alpha QUEUED ann starts 0 lost 0"
        ∷ codes "alpha batch 2.alpha QUEUED ann starts 0 lost 0"
        ∷ codes "alpha batch 3.alpha QUEUED ann starts 0 lost 0"
        ∷ []) }
{}
