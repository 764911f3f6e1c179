//! Values at their bounds, and one beyond: edits, jobs, requests on their way, changes, commands,
//! datagrams and events.
ghost use Rattle.std.specs.Prelude.{◌≡◌, ℕ, nat_le, List, [], ◌∷◌, ◌++◌, length, map, replicate, codes, true, false, Some, None};
ghost use Rattle.nqs_types.specs.declared.message.Body.TheVariants as body;
ghost use Rattle.nqs_worked.specs.ScheduleWords.{host, request};
ghost use Rattle.nqs_worked.specs.Definitions.{far_carried};
ghost use Rattle.nqs_rules.specs.Conf.{is_conf_within};
ghost use Rattle.nqs_rules.specs.Limits.{is_limits_within};
ghost use Rattle.nqs_rules.specs.Rows.{is_rows_within};
ghost use Rattle.nqs_rules.specs.Sane.{is_sane_edit, is_sane_job, is_sane_id, is_sane_carried, is_sane_change, is_name_byte, is_sane_name, is_asked_job};
ghost use Rattle.nqs_rules.specs.Sane.{is_sane_folder, is_sane_command, is_offer_refusal, is_of_site, is_sane_body, is_sane_event};
ghost use Rattle.nqs_worked_tables.specs.Bounds.{bytes, bounded_queue_edits, bounded_parameters, free_queue_edits, bounded_limits, free_limits, row_edits};
ghost use Rattle.nqs_rules.specs.Step.{completed};
ghost use Rattle.nqs_worked_tables.specs.Bounds.{edits_of_each_class, kept_jobs, asked_jobs, carried_ones, kept_changes, lost_changes, kept_commands};
ghost use Rattle.nqs_worked_tables.specs.Bounds.{script_changes, output_changes, other_changes, are_short_with, pathed, pathless, asked};
ghost use Rattle.nqs_worked_tables.specs.Bounds.{lost_commands, kept_bodies, lost_bodies, kept_events, lost_events};

/// The numbers of edits: priorities to 63, limits of what runs to 10,000, waits from 1 to 86,400
/// seconds.
pub fn edits_have_bounds()
    ensures queues { map is_conf_within bounded_queue_edits ≡ true ∷ false ∷ false ∷ true ∷ false ∷ false ∷ true ∷ false ∷ false ∷ true ∷ true ∷ true ∷ [] }
    ensures parameters { map is_conf_within bounded_parameters ≡ true ∷ false ∷ true ∷ false ∷ false ∷ true ∷ true ∷ false ∷ false ∷ true ∷ true ∷ false ∷ [] }
    ensures no_number { map is_conf_within free_queue_edits ≡ replicate 11 true }
    ensures limits { map is_limits_within bounded_limits ≡ true ∷ true ∷ false ∷ true ∷ false ∷ true ∷ false ∷ [] }
    ensures no_limit { map is_limits_within free_limits ≡ replicate 7 true }
    ensures rows { map is_rows_within row_edits ≡ true ∷ false ∷ true ∷ true ∷ true ∷ true ∷ [] }
    ensures classes { map is_sane_edit edits_of_each_class ≡ true ∷ false ∷ true ∷ false ∷ true ∷ true ∷ true ∷ false ∷ [] }
{}

/// Names of 1 to 15 bytes that are seen but no `/`, priorities to 63, paths below the folder; a job
/// that is asked for may leave its paths out.
pub fn jobs_have_bounds()
    ensures kept { map is_sane_job kept_jobs ≡ true ∷ true ∷ false ∷ false ∷ false ∷ false ∷ false ∷ [] }
    ensures asked { map is_asked_job asked_jobs ≡ replicate 6 true ++ replicate 6 false }
    ensures name_bytes { map is_name_byte (32 ∷ 33 ∷ 46 ∷ 47 ∷ 48 ∷ 126 ∷ 127 ∷ []) ≡ false ∷ true ∷ true ∷ false ∷ true ∷ true ∷ false ∷ [] }
    ensures names { map (λ n. is_sane_name (bytes n)) (0 ∷ 1 ∷ 15 ∷ 16 ∷ []) ≡ false ∷ true ∷ true ∷ false ∷ [] }
    ensures folders { map is_sane_folder (None ∷ Some (codes "ann") ∷ Some (bytes 15) ∷ Some (codes "..") ∷ Some (bytes 16) ∷ Some [] ∷ Some (codes "a/b") ∷ [])
        ≡ replicate 3 true ++ replicate 4 false }
    ensures numbers { map (λ n. is_sane_id (request n 9)) (0 ∷ 1 ∷ 4294967294 ∷ 4294967295 ∷ []) ≡ false ∷ true ∷ true ∷ false ∷ [] }
    ensures carried { map is_sane_carried carried_ones ≡ replicate 4 true ++ replicate 7 false }
{}

/// Default paths stand in the submission's folder, where it has one, and stated ones where they are
/// stated.
pub fn default_paths_stand_in_the_folder()
    ensures default { map (λ folder. (completed 7 folder pathless).out) (None ∷ Some (codes "ann") ∷ []) ≡ codes "run.o7" ∷ codes "ann/run.o7" ∷ [] }
    ensures error { map (λ folder. (completed 7 folder pathless).err) (None ∷ Some (codes "ann") ∷ []) ≡ codes "run.e7" ∷ codes "ann/run.e7" ∷ [] }
    ensures stated { map (λ folder. (completed 7 folder pathed).out) (None ∷ Some (codes "ann") ∷ []) ≡ codes "o" ∷ codes "o" ∷ [] }
    ensures stated_error { map (λ folder. (completed 7 folder pathed).err) (None ∷ Some (codes "ann") ∷ []) ≡ codes "e" ∷ codes "e" ∷ [] }
{}

/// The values of each kind of change, and how much it may store: a script has 1,048,576 bytes at
/// most, an output 32,768.
pub fn changes_have_bounds()
    ensures kept { map is_sane_change kept_changes ≡ replicate 28 true }
    ensures lost { map is_sane_change lost_changes ≡ replicate 15 false }
    ensures scripts { map (λ n. are_short_with n script_changes) (1048576 ∷ 1048577 ∷ []) ≡ replicate 3 true ∷ replicate 3 false ∷ [] }
    ensures outputs { map (λ n. are_short_with n output_changes) (32768 ∷ 32769 ∷ []) ≡ replicate 2 true ∷ replicate 2 false ∷ [] }
    ensures others { are_short_with 1048577 other_changes ≡ replicate 20 true }
{}

/// Scripts to 1,048,576 bytes, outputs that wait to 32,768, those of an end to 16,384 each, numbers
/// from 1 on, senders and requests of hosts of the site.
pub fn events_have_bounds()
    ensures commands { map is_sane_command kept_commands ≡ replicate 9 true }
    ensures no_commands { map is_sane_command lost_commands ≡ replicate 2 false }
    ensures scripts { (script : List ℕ) → is_sane_command (asked pathed script) ≡ nat_le (length script) 1048576 }
    ensures refusals { map is_offer_refusal (3 ∷ 19 ∷ 21 ∷ 28 ∷ 29 ∷ 31 ∷ 32 ∷ 33 ∷ []) ≡ replicate 8 true }
    ensures other_refusals { map is_offer_refusal (0 ∷ 1 ∷ 2 ∷ 4 ∷ 5 ∷ 6 ∷ 7 ∷ 8 ∷ 9 ∷ 10 ∷ 11 ∷ 12 ∷ 13 ∷ 14 ∷ 15 ∷ 16 ∷ 17 ∷ 18 ∷ 20 ∷ 22 ∷ 23 ∷ 24 ∷ 25 ∷ 26
        ∷ 27 ∷ 30 ∷ 34 ∷ []) ≡ replicate 27 false }
    ensures places { map (λ n. is_of_site 2 (host n)) (0 ∷ 1 ∷ 2 ∷ []) ≡ true ∷ true ∷ false ∷ [] }
    ensures bodies { map (is_sane_body 2) kept_bodies ≡ replicate 18 true }
    ensures no_bodies { map (is_sane_body 2) lost_bodies ≡ replicate 10 false }
    ensures offers { (script : List ℕ) → is_sane_body 2 (body.Offer 1 1 (codes "q") far_carried script) ≡ nat_le (length script) 1048576 }
    ensures events { map (is_sane_event 2) kept_events ≡ replicate 7 true }
    ensures no_events { map (is_sane_event 2) lost_events ≡ replicate 5 false }
{}
