//! The values of a list that are taken out one after the other, from the first on. None of them is
//! moved in its list when an earlier one goes.

ghost use Rattle.std.specs.Prelude.{◌≡◌, ◌∷◌, [], IfSome, IfNone};

use crate::items::Items;
use std::alloc::Global;
use std::marker::Model;
use std::vec::IntoIter;

/// The values of a list that weren't taken out yet. Contracts see the list of these.
#[derive(Drop)]
pub struct Rest<T: Drop> {
    values: IntoIter<T, Global>,
}

impl<T: Drop> Model for Rest<T> {
    ghost use Rattle.std.specs.Prelude.{List};
    ghost use Rattle.std.specs.Vec.Iter.{into_iter_items};

    ghost Value = { List T };

    ghost view = { λ r. into_iter_items r.values };
}

impl<T: Drop> Rest<T> {
    /// All values of a list.
    pub fn of(items: Items<T>) -> Self
        ensures { result ≡ items }
    {
        Rest::from_vec(items.into_vec())
    }

    /// All values of a vector.
    pub fn from_vec(items: Vec<T>) -> Self
        ensures { result ≡ items.items }
    {
        Rest {
            values: items.into_iter(),
        }
    }

    /// Takes the first value out.
    pub fn take_first(&mut self) -> Option<T>
        ensures some { IfSome result (λ x. self.old ≡ x ∷ self.new) }
        ensures none { IfNone result (self.old ≡ []) }
    {
        self.values.next()
    }
}
