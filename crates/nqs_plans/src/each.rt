//! What is made of the values of a table, one after the other.
ghost use Rattle.std.specs.Prelude.{◌≡◌, fold, IfOk};
ghost use Rattle.std.specs.Borrow.{Bor};
ghost use Rattle.std.specs.Fn.{AnyResult};

use nqs_base::{Key, Keyed, Memory};
use nqs_base_tables::Table;

/// What the function makes of a start and the values of the table, in order, where each call is
/// given what the last one made. The first want of memory ends it.
pub fn fold_each<K: Key, V: Keyed<K> + Drop, A: Drop, F: Fn(A, &V) -> Result<A, Memory>>(
    start: A,
    table: &Table<K, V>,
    f: F,
) -> Result<A, Memory>
    requires { F.IsAlwaysCallable f }
    ensures { (h : A → V → A) → ((a : A) (w : Bor V) → AnyResult F.Fn f (a, (w, tt)) (λ r. IfOk r (λ b. b ≡ h a w.now)))
        → IfOk result (λ b. b ≡ fold h start table.now.items) }
{
    let mut made = start;
    for place in 0..table.len() {
        made = f(made, table.at(place))?;
    }
    Ok(made)
}
