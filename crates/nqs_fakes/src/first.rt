//! The first of the values that wait, taken out.

ghost use Rattle.std.specs.Prelude.{◌≡◌, ◌∷◌, [], IfSome, IfNone};

use std::collections::VecDeque;

/// The first value, which goes out. Where there is none, none waits afterwards either.
pub(crate) fn take_first<T: Drop>(waiting: &mut VecDeque<T>) -> Option<T>
    ensures some { IfSome result (λ x. waiting.old.items ≡ x ∷ waiting.new.items) }
    ensures none { IfNone result (waiting.old.items ≡ []) }
    ensures empty { IfNone result (waiting.new.items ≡ []) }
{
    waiting.pop_front()
}
