//! Whether a state is in order, as a host may go on from it.

ghost use Rattle.std.specs.Prelude.{◌≡◌, IsTrue, IfOk};
ghost use Rattle.std.specs.List.{AllByRecursion};
ghost use Rattle.nqs_state.specs.State.{content};
ghost use Rattle.nqs_base.specs.Path.{is_path};
ghost use Rattle.nqs_rules.specs.Sane.{is_sane_job};
ghost use Rattle.nqs_snapshot.specs.Values.{MayStand};
ghost use Rattle.nqs_snapshot.specs.Sound.{are_bounds_right, are_values_right, is_right};

use crate::differ::are_numbers_distinct;
use crate::few::are_hands_few;
use crate::order::{
    all_right, are_lists_short, are_parameters_right, are_peers_right, is_site_right,
};
use nqs_state::HostState;
use std::alloc::{AllocError, Global};

#[tactic(auto, unfolding(crate::specs::Sound::are_bounds_right))]
fn are_bounds_right(state: &HostState) -> bool
    ensures { result ≡ are_bounds_right (content state.now) }
{
    is_site_right(state) && are_parameters_right(state) && are_lists_short(state)
}

#[tactic(auto, unfolding(crate::specs::Sound::are_values_right))]
fn are_values_right(state: &HostState) -> bool
    requires rows { AllByRecursion (λ r. IsTrue (is_sane_job r.job)) state.now.rows.items }
    requires promises { AllByRecursion (λ p. IsTrue (is_sane_job p.row.job)) state.now.promises.items }
    requires stages { AllByRecursion (λ t. IsTrue (is_path t.path)) state.now.stages.items }
    requires files { AllByRecursion (λ f. IsTrue (is_path f.path)) state.now.files.items }
    ensures { result ≡ are_values_right (content state.now) }
{
    all_right(&state.queues, state)
        && all_right(&state.complexes, state)
        && all_right(state.rows.table(), state)
        && all_right(&state.promises, state)
        && all_right(&state.hands, state)
        && are_peers_right(state)
        && all_right(&state.stages, state)
        && all_right(&state.files, state)
}

/// Whether a state whose values have fields is in order, but that its keys are distinct.
#[tactic(auto, unfolding(crate::specs::Sound::is_right))]
pub(crate) fn is_right(alloc: Global, state: &HostState) -> Result<bool, AllocError>
    requires { MayStand (content state.now) }
    ensures { IfOk result (λ right. right ≡ is_right (content state.now)) }
{
    if !are_bounds_right(state) {
        return Ok(false);
    }
    if !are_values_right(state) {
        return Ok(false);
    }
    if !are_hands_few(state) {
        return Ok(false);
    }
    are_numbers_distinct(alloc, state)
}
