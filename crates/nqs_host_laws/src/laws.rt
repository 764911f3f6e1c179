//! Laws of what a step or a start makes at a host in order.

ghost use Rattle.std.specs.Prelude.{◌≡◌, ℕ, List, IsTrue, IfSome, length};
ghost use Rattle.std.specs.List.{AllByRecursion};
ghost use Rattle.nqs_state.specs.State.{State, content};
ghost use Rattle.nqs_types.specs.declared.change.Change.{Change};
ghost use Rattle.nqs_types.specs.declared.event.Event.{Event};
ghost use Rattle.nqs_base.specs.declared.extent.Extent.{Extent};
ghost use Rattle.nqs_records.specs.Changes.{MayStand};
ghost use Rattle.nqs_records.specs.Values.{IsPlaced};
ghost use Rattle.nqs_rules.specs.Fits.{fits};
ghost use Rattle.nqs_rules.specs.InOrder.{IsInOrder};
ghost use Rattle.nqs_rules.specs.Sane.{is_sane_change, is_sane_event, is_short_change};
ghost use Rattle.nqs_rules.specs.Start.{start};
ghost use Rattle.nqs_rules.specs.Step.{step};
ghost use Rattle.nqs_rules.specs.Stepped.{map_change, stored_parts};
ghost use Rattle.nqs_store.specs.Puts.{length_of};
ghost use Rattle.nqs_host_laws.specs.Reads.{AreLive};
ghost use Rattle.nqs_host_laws.specs.Offers.{takes_back_few};

use crate::edits::edit_stands;
use crate::values::{carried_stands, hands_stand};
use nqs_base::name_stands;
use nqs_records::{byte_stands, job_stands, maybe_name_stands, number_stands};
use nqs_state::HostState;
use nqs_types::Change;

/// A change that fits a host in order, and is within its limits, may stand in a record. It reads
/// the change's values, whose types say that names are names and that numbers fit, and does nothing
/// else.
pub fn fitting_changes_may_stand(state: &HostState, change: &Change)
    requires order { IsInOrder (content state.now) }
    requires fits { IsTrue (fits change.now (content state.now)) }
    requires sane { IsTrue (is_sane_change change.now) }
    requires extents { AllByRecursion IsPlaced (stored_parts change.now) }
    requires short { IsTrue (is_short_change length_of change.now) }
    requires few { IsTrue (takes_back_few change.now) }
    ensures { MayStand change.now }
{
    match change {
        Change::Site { .. } => {}
        Change::Submitted { queue, job, .. } => {
            name_stands(queue);
            job_stands(job);
        }
        Change::Deleted(_) => {}
        Change::Doomed(_) => {}
        Change::Started { device, .. } => maybe_name_stands(device),
        Change::Ended { .. } => {}
        Change::Unlaunched(_) => {}
        Change::Boot => {}
        Change::Edited(edit) => edit_stands(state, edit),
        Change::HandOpened {
            number,
            queue,
            since,
            ..
        } => {
            number_stands(*number);
            name_stands(queue);
            number_stands(*since);
        }
        Change::HandCommitted { number, .. } => number_stands(*number),
        Change::HandRefused { number, cause, .. } => {
            number_stands(*number);
            byte_stands(*cause);
        }
        Change::HandsSilent { until, hands } => {
            number_stands(*until);
            hands_stand(hands.as_slice());
        }
        Change::HandDone { number, .. } => number_stands(*number),
        Change::OldPromised {
            number,
            queue,
            carried,
            ..
        } => {
            number_stands(*number);
            name_stands(queue);
            carried_stands(carried);
        }
        Change::Promised {
            number,
            queue,
            carried,
            ..
        } => {
            number_stands(*number);
            name_stands(queue);
            carried_stands(carried);
        }
        Change::Accepted { number, .. } => number_stands(*number),
        Change::Dropped { number, .. } => number_stands(*number),
        Change::MovedLocal { queue, .. } => name_stands(queue),
        Change::RefusedLocal { queue, cause, .. } => {
            name_stands(queue);
            byte_stands(*cause);
        }
        Change::HeldFar(_) => {}
        Change::StageGot { number, .. } => number_stands(*number),
        Change::StageGone { number, .. } => number_stands(*number),
        Change::FileGone { file } => number_stands(*file),
    }
}

/// A step or a start takes few enough offers back for its record.
pub fn few_offers_are_taken_back()
    ensures step { (e : Event) (s : State Extent) → IsInOrder s → IsTrue (is_sane_event (length s.site) e)
        → IfSome (step e s).change (λ c. IsTrue (takes_back_few c)) }
    ensures start { (now : ℕ) (s : State Extent) → IsInOrder s → IfSome (start now s) (λ x. IfSome x.change (λ c. IsTrue (takes_back_few c))) }
    ensures mapped { (f : List ℕ → Extent) (c : Change (List ℕ)) → takes_back_few (map_change f c) ≡ takes_back_few c }
{}

/// What is stored for a step or a start is no more than a script or an output may have.
pub fn stored_bytes_are_short()
    ensures step { (e : Event) (s : State Extent) → IsInOrder s → IsTrue (is_sane_event (length s.site) e)
        → IfSome (step e s).change (λ c. IsTrue (is_short_change length c)) }
    ensures start { (now : ℕ) (s : State Extent) → IsInOrder s → IfSome (start now s) (λ x. IfSome x.change (λ c. IsTrue (is_short_change length c))) }
{}

/// What goes out reads live extents alone.
pub fn outputs_read_live_extents()
    ensures step { (e : Event) (s : State Extent) → IsInOrder s → AreLive s (step e s).outputs }
    ensures start { (now : ℕ) (s : State Extent) → IsInOrder s → IfSome (start now s) (λ x. AreLive s x.outputs) }
{}
