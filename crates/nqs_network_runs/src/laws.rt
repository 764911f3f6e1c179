//! Laws of the words, and the laws of networks, of the runs that the program makes.

ghost use Rattle.nqs_network_runs.specs.Headline.{RunsKeepTheLaws};
ghost use Rattle.nqs_network_runs.specs.Worked.{AreWorked, AreRefused};
ghost use Rattle.nqs_network_runs.specs.WorkedRuns.{AreRun};

use nqs_language_acts::laws::{
    acts_are_sane, generated_schedules_are_sane, schedules_are_sane, sites_are_right,
};
use nqs_laws::at_once::{boots_purges_and_aborts_leave_none, ticks_take_back_all};
use nqs_laws::causes::events_make_their_own_changes;
use nqs_laws::closings::ends_of_promises_close_their_numbers;
use nqs_laws::handovers::{
    accepted_requests_find_no_row, handovers_are_few, handovers_are_in_step, messages_stay_true,
    open_offers_find_no_row, packets_have_given_numbers, promises_keep_what_is_handed_over,
    taken_numbers_are_near,
};
use nqs_laws::launches::{launches_are_apart, launches_are_numbered, no_launch_comes_twice};
use nqs_laws::numbers::{requests_are_numbered, submissions_give_numbers};
use nqs_laws::requests::{
    acknowledged_requests_stay, no_other_request_lies, requests_go_out_for_a_reason,
    the_system_holds_for_cause, what_is_taken_out_stays_out,
};
use nqs_laws::rest::nothing_is_left_to_start;
use nqs_laws::runs::{history_tells_the_run, hosts_stay_in_order};
use nqs_laws::scripts::scripts_are_kept;
use nqs_laws::starts::{
    boots_tell_what_ran, only_rerunnable_requests_start_again, starts_are_counted,
};
use nqs_laws::tables::{each_change_is_licensed, no_request_lies_in_two_places};
use nqs_laws::whole_heals::{commitments_are_settled, promises_are_settled};

/// After each event of a schedule, read or generated, with stops within any call, the laws hold.
pub fn runs_keep_the_laws()
    ensures { RunsKeepTheLaws }
{
    schedules_are_sane();
    generated_schedules_are_sane();
    sites_are_right();
    acts_are_sane();
    history_tells_the_run();
    events_make_their_own_changes();
    hosts_stay_in_order();
    no_request_lies_in_two_places();
    each_change_is_licensed();
    submissions_give_numbers();
    boots_purges_and_aborts_leave_none();
    ticks_take_back_all();
    the_system_holds_for_cause();
    requests_go_out_for_a_reason();
    ends_of_promises_close_their_numbers();
    acknowledged_requests_stay();
    no_other_request_lies();
    what_is_taken_out_stays_out();
    requests_are_numbered();
    scripts_are_kept();
    no_launch_comes_twice();
    launches_are_apart();
    launches_are_numbered();
    starts_are_counted();
    only_rerunnable_requests_start_again();
    boots_tell_what_ran();
    nothing_is_left_to_start();
    handovers_are_in_step();
    handovers_are_few();
    taken_numbers_are_near();
    promises_keep_what_is_handed_over();
    messages_stay_true();
    packets_have_given_numbers();
    open_offers_find_no_row();
    accepted_requests_find_no_row();
    promises_are_settled();
    commitments_are_settled();
}

/// Some words, and what they ask for.
pub fn worked_words()
    ensures worked { AreWorked }
    ensures refused { AreRefused }
{}

/// Some schedules, and what is written of them.
pub fn worked_runs()
    ensures { AreRun }
{}
