//! Runs that are computed, in which it is asked why requests wait.
ghost use Rattle.std.specs.Prelude.{◌≡◌, codes, [], ◌∷◌, ◌++◌};
ghost use Rattle.nqs_rules.specs.Transcript.{lines};
ghost use Rattle.nqs_worked.specs.ScheduleWords.{done, first_offered, one_host, told};
ghost use Rattle.nqs_worked.specs.Waits.{a_host_says_why, destinations_say_why};

/// What a host says of requests whose queue is stopped, at a limit, held, or not to start yet; of
/// one that runs, of one that has gone, and of one that starts behind the question.
pub fn a_host_says_why()
    ensures { told one_host a_host_says_why ≡ lines (
        codes "Request 1.alpha submitted to queue: batch."
        ∷ codes "Request 2.alpha submitted to queue: batch."
        ∷ codes "Request 1.alpha: queue batch is stopped."
        ∷ codes "Requests that wait before it: 0."
        ∷ codes "Request 2.alpha: queue batch is stopped."
        ∷ codes "Requests that wait before it: 1."
        ∷ codes "Done."
        ∷ codes "launch alpha 1.alpha 1"
        ∷ codes "Request 1.alpha: it runs."
        ∷ codes "Request 2.alpha: the run limit 1 of queue batch is reached."
        ∷ codes "Requests that wait before it: 0."
        ∷ codes "Done."
        ∷ codes "Request 2.alpha: it is held."
        ∷ codes "Request 2.alpha: the run limit 1 of queue batch is reached."
        ∷ codes "Requests that wait before it: 0."
        ∷ codes "Request 3.alpha submitted to queue: batch."
        ∷ codes "Request 3.alpha: it may not start before 1970-01-01T00:01:40."
        ∷ codes "Request 3.alpha: the run limit 1 of queue batch is reached."
        ∷ codes "Requests that wait before it: 0."
        ∷ codes "Done."
        ∷ codes "Done."
        ∷ codes "Request 4.alpha submitted to queue: batch."
        ∷ codes "Request 4.alpha: the user limit 1 of queue batch is reached."
        ∷ codes "Requests that wait before it: 0."
        ∷ codes "Request 3.alpha: it is next in queue batch."
        ∷ codes "Requests that wait before it: 0."
        ∷ codes "launch alpha 3.alpha 1"
        ∷ codes "ended alpha 1.alpha 1 0"
        ∷ codes "launch alpha 4.alpha 1"
        ∷ codes "Request 4.alpha: it runs."
        ∷ codes "Refused 6: no request 1.alpha."
        ∷ []) }
{}

/// What is said of a request of a pipe queue: on its way; then of each destination what it answered
/// or how long its host is waited for; and at that moment that nothing hinders.
pub fn destinations_say_why()
    ensures { told (codes "alpha" ∷ codes "beta" ∷ codes "gamma" ∷ []) destinations_say_why ≡ lines (
        done 4
        ++ first_offered
        ++ codes "Request 1.alpha: it is on its way to another host."
        ∷ codes "packet 2 beta alpha REFUSED 1"
        ∷ codes "packet 3 alpha gamma OFFER 1"
        ∷ codes "Request 1.alpha: no destination of queue link may be tried now."
        ∷ codes "nope@beta: refused with number 3."
        ∷ codes "batch@gamma: its host is waited for until 1970-01-01T00:06:00."
        ∷ codes "Requests that wait before it: 0."
        ∷ codes "Request 1.alpha: it is next in queue link."
        ∷ codes "Requests that wait before it: 0."
        ∷ codes "packet 4 alpha gamma OFFER 2"
        ∷ []) }
{}
