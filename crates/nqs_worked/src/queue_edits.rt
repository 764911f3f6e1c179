//! Runs of one host that are computed: edits of queues, complexes, devices and users, and lists.
ghost use Rattle.std.specs.Prelude.{◌≡◌, codes, [], ◌∷◌, ◌++◌};
ghost use Rattle.nqs_rules.specs.Transcript.{lines};
ghost use Rattle.nqs_worked.specs.ScheduleWords.{done, one_host, told};
ghost use Rattle.nqs_worked.specs.QueueEdits.{complexes_are_edited, queue_is_deleted, destinations_are_edited, users_are_listed, lists_are_shown};
ghost use Rattle.nqs_worked.specs.QueueEdits.{devices_are_edited};

/// Complexes, with queues and without, and one that lets nothing run.
pub fn complexes_are_edited()
    ensures { told one_host complexes_are_edited ≡ lines (
        codes "Done."
        ∷ codes "c 1"
        ∷ codes "Refused 10: complex c exists."
        ∷ codes "Done."
        ∷ codes "Refused 16: already a member."
        ∷ codes "Refused 3: no queue nope."
        ∷ codes "Refused 4: no complex d."
        ∷ codes "Done."
        ∷ codes "Refused 12: wrong kind of queue."
        ∷ codes "c 1 batch"
        ∷ codes "Done."
        ∷ codes "Refused 4: no complex d."
        ∷ codes "Done."
        ∷ codes "Request 1.alpha submitted to queue: batch."
        ∷ codes "Done."
        ∷ codes "launch alpha 1.alpha 1"
        ∷ codes "Refused 15: not a member."
        ∷ codes "Refused 4: no complex d."
        ∷ codes "Done."
        ∷ codes "Refused 4: no complex c."
        ∷ []) }
{}

/// A queue that holds nothing is deleted, out of complexes and as the default.
pub fn queue_is_deleted()
    ensures { told one_host queue_is_deleted ≡ lines (
        codes "Done."
        ∷ codes "Refused 9: queue night exists."
        ∷ codes "Refused 9: queue night exists."
        ∷ done 5
        ++ codes "Request 1.alpha submitted to queue: night."
        ∷ codes "Refused 26: queue night holds 1 requests."
        ∷ codes "Request 1.alpha has been deleted."
        ∷ codes "Done."
        ∷ codes "c 1 batch"
        ∷ codes "global_limit 64"
        ∷ codes "patience 60"
        ∷ codes "retry_wait 300"
        ∷ codes "default_queue none"
        ∷ codes "Refused 8: no default queue."
        ∷ codes "Refused 3: no queue night."
        ∷ codes "Refused 3: no queue night."
        ∷ done 4
        ++ codes "global_limit 2"
        ∷ codes "patience 5"
        ∷ codes "retry_wait 7"
        ∷ codes "default_queue batch"
        ∷ codes "Request 2.alpha submitted to queue: batch."
        ∷ codes "Done."
        ∷ codes "Refused 8: no default queue."
        ∷ []) }
{}

/// Destinations of a pipe queue: what refuses them, and in which order.
pub fn destinations_are_edited()
    ensures { told one_host destinations_are_edited ≡ lines (
        codes "Refused 7: no host zed."
        ∷ codes "Refused 7: no host zed."
        ∷ codes "Refused 9: queue batch exists."
        ∷ codes "Done."
        ∷ codes "Refused 3: no queue nope."
        ∷ codes "Refused 7: no host zed."
        ∷ codes "Refused 12: wrong kind of queue."
        ∷ codes "Refused 13: destination exists."
        ∷ codes "Done."
        ∷ codes "Refused 3: no queue nope."
        ∷ codes "Refused 12: wrong kind of queue."
        ∷ codes "Refused 14: no such destination."
        ∷ codes "Done."
        ∷ codes "Refused 14: no such destination."
        ∷ codes "Done."
        ∷ codes "Refused 3: no queue nope."
        ∷ codes "Refused 3: no queue nope."
        ∷ codes "batch batch enabled stopped 31 1"
        ∷ codes "p pipe disabled stopped 3 1"
        ∷ []) }
{}

/// Users of a queue, managers and operators.
pub fn users_are_listed()
    ensures { told one_host users_are_listed ≡ lines (
        codes "Refused 16: already a member."
        ∷ codes "Refused 15: not a member."
        ∷ codes "Done."
        ∷ codes "Refused 21: no access to queue batch."
        ∷ codes "Done."
        ∷ codes "Refused 16: already a member."
        ∷ codes "Request 1.alpha submitted to queue: batch."
        ∷ codes "Done."
        ∷ codes "Refused 15: not a member."
        ∷ codes "Refused 21: no access to queue batch."
        ∷ codes "Done."
        ∷ codes "Request 2.alpha submitted to queue: batch."
        ∷ codes "Refused 3: no queue x."
        ∷ codes "Refused 3: no queue x."
        ∷ codes "Refused 3: no queue x."
        ∷ codes "Refused 3: no queue x."
        ∷ codes "Done."
        ∷ codes "Refused 16: already a member."
        ∷ codes "Done."
        ∷ codes "Refused 16: already a member."
        ∷ codes "root manager"
        ∷ codes "mia manager"
        ∷ codes "op operator"
        ∷ codes "Refused 17: root stays a manager."
        ∷ codes "Refused 15: not a member."
        ∷ codes "Done."
        ∷ codes "Refused 1: not a manager."
        ∷ codes "Refused 1: not a manager."
        ∷ codes "Done."
        ∷ codes "Request 1.alpha has been deleted."
        ∷ codes "Done."
        ∷ codes "Refused 15: not a member."
        ∷ codes "Refused 2: not an operator."
        ∷ codes "Refused 18: not the owner."
        ∷ codes "root manager"
        ∷ []) }
{}

/// Each list of qmgr, and a queue that takes requests from pipe queues only.
pub fn lists_are_shown()
    ensures { told one_host lists_are_shown ≡ lines (
        codes "batch batch enabled stopped 31 1"
        ∷ codes "root manager"
        ∷ codes "global_limit 64"
        ∷ codes "patience 60"
        ∷ codes "retry_wait 300"
        ∷ codes "default_queue batch"
        ∷ codes "Done."
        ∷ codes "laser plain disabled free"
        ∷ codes "Done."
        ∷ codes "Done."
        ∷ codes "Refused 20: queue lp takes requests from pipe queues only."
        ∷ codes "Done."
        ∷ codes "batch batch enabled stopped 31 1"
        ∷ codes "lp device enabled stopped 40 2"
        ∷ codes "link pipe disabled stopped 31 1"
        ∷ done 5
        ++ codes "Request 1.alpha submitted to queue: link."
        ∷ codes "print alpha 1.alpha 1 laser"
        ∷ codes "laser plain enabled 1.alpha"
        ∷ codes "batch batch enabled stopped 31 1"
        ∷ codes "lp device enabled started 40 2"
        ∷ codes "link pipe enabled started 31 1"
        ∷ codes "Refused 3: no queue nope."
        ∷ codes "1.alpha STDIN ann lp RUNNING 31"
        ∷ codes "1 requests."
        ∷ codes "0 requests."
        ∷ []) }
{}

/// Devices that are disabled, busy, removed and deleted.
pub fn devices_are_edited()
    ensures { told one_host devices_are_edited ≡ lines (
        codes "Done."
        ∷ codes "Done."
        ∷ codes "Refused 11: device a exists."
        ∷ done 3
        ++ codes "Refused 16: already a member."
        ∷ codes "Refused 5: no device z."
        ∷ codes "Refused 3: no queue nope."
        ∷ codes "Refused 12: wrong kind of queue."
        ∷ codes "Done."
        ∷ codes "Refused 5: no device z."
        ∷ codes "Done."
        ∷ codes "Done."
        ∷ codes "Request 1.alpha submitted to queue: lp."
        ∷ codes "print alpha 1.alpha 1 b"
        ∷ codes "Request 2.alpha submitted to queue: lp."
        ∷ codes "Done."
        ∷ codes "print alpha 2.alpha 1 a"
        ∷ codes "Refused 27: device a is busy."
        ∷ codes "Refused 27: device a is busy."
        ∷ codes "Done."
        ∷ codes "Done."
        ∷ codes "Refused 15: not a member."
        ∷ codes "Refused 3: no queue nope."
        ∷ codes "ended alpha 1.alpha 1 0"
        ∷ codes "Done."
        ∷ codes "a plain disabled 2.alpha"
        ∷ codes "Refused 5: no device b."
        ∷ codes "Refused 5: no device b."
        ∷ codes "Refused 5: no device b."
        ∷ codes "Request 3.alpha submitted to queue: lp."
        ∷ codes "ended alpha 2.alpha 1 0"
        ∷ codes "Done."
        ∷ codes "a x disabled free"
        ∷ codes "table 1"
        ∷ codes "alpha lp 3.alpha QUEUED ann starts 0 lost 0"
        ∷ []) }
{}
