//! Tables of values that were read.

ghost use Rattle.std.specs.Prelude.{◌≡◌, true, map, [], IfOk};
ghost use Rattle.nqs_rules.specs.InOrder.{are_distinct};

use nqs_base::{Items, Key, Keyed};
use nqs_base_tables::Table;
use std::alloc::AllocError;

/// Fills an empty table with values, unless two of them have one key: whether it did.
pub(crate) fn fill<K: Key, V: Keyed<K> + Drop>(
    table: &mut Table<K, V>,
    values: Items<V>,
) -> Result<bool, AllocError>
    requires { table.old.items ≡ [] }
    ensures distinct { IfOk result (λ filled. filled ≡ are_distinct K.eq (map V.key_of values)) }
    ensures filled { IfOk result (λ filled. filled ≡ true → table.new.items ≡ values) }
{
    table.reserve(values.len())?;
    for value in values.into_vec() {
        if table.has(&value.key()) {
            return Ok(false);
        }
        table.push(value);
    }
    Ok(true)
}
