//! What is started next, by the index of the host's rows where they keep one.

ghost use Rattle.std.specs.Prelude.{◌≡◌, ◌≤◌, ◌+◌, ◌-◌, length, false};
ghost use Rattle.nqs_state.specs.Kept.{IfThere, is_kept, is_there};
ghost use Rattle.nqs_state.specs.State.{content};
ghost use Rattle.nqs_rules.specs.InOrder.{IsInOrder};
ghost use Rattle.nqs_rules.specs.Order.{pick};
ghost use Rattle.nqs_index.specs.Indexed.{StandsForIndex};
ghost use Rattle.nqs_order.specs.ByIndex.{PicksBy};

use crate::by_index::pick_by;
use crate::choice::pick;
use nqs_index::Steps;
use nqs_state::{HostState, Indexed};
use nqs_types::Choice;
use std::sync::ledger::Ledger;

// What is started next, by this index where it is there.
fn told<L: Ledger>(
    asked: &Indexed,
    state: &HostState,
    now: u64,
    steps: &mut Steps<L>,
) -> Option<Choice>
    requires stands { IfThere (λ i. StandsForIndex i state.now.rows.items) asked.now }
    requires order { IsInOrder (content state.now) }
    ensures choice { result ≡ pick now (content state.now) }
    ensures rises { steps.old ≤ steps.new }
    ensures few { IfThere (λ i. PicksBy i now (content state.now) (steps.new - steps.old)) asked.now }
    ensures all { is_there asked.now ≡ false → steps.new ≤ steps.old + length state.now.rows.items }
{
    match asked {
        Indexed::There(index) => pick_by(index, state, now, steps),
        _ => pick(state, now, steps),
    }
}

/// What is started next at a moment, in seconds since 1970, as `pick` has it, and the index that
/// was asked. By one that is there it is told by two comparisons at most for each class of the
/// queue that starts. It looks over all rows only where there is none: where memory was refused for
/// it, which the answer then holds, or none is kept.
pub fn pick_next<'a, L: Ledger>(
    state: &'a HostState,
    now: u64,
    steps: &mut Steps<L>,
) -> (Option<Choice>, &'a Indexed)
    requires { IsInOrder (content state.now) }
    ensures choice { result.0 ≡ pick now (content state.now) }
    ensures stands { IfThere (λ i. StandsForIndex i state.now.rows.items) result.1.now }
    ensures kept { is_kept result.1.now ≡ state.now.rows.is_indexed }
    ensures rises { steps.old ≤ steps.new }
    ensures few { IfThere (λ i. PicksBy i now (content state.now) (steps.new - steps.old)) result.1.now }
    ensures all { is_there result.1.now ≡ false → steps.new ≤ steps.old + length state.now.rows.items }
{
    let asked = state.rows.index();
    (told(asked, state, now, steps), asked)
}
