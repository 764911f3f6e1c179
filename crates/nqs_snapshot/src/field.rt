//! Lists and tables of values, put at the end of a list of bytes. After `Memory` a part of them may
//! stand there.

ghost use Rattle.std.specs.Prelude.{flat_map};
ghost use Rattle.std.specs.List.{AllByRecursion};
ghost use Rattle.nqs_records.specs.Adds.{Adds};
ghost use Rattle.nqs_snapshot.specs.Spelling.{many_field};

use crate::lists::InSnapshot;
use nqs_base::{Key, Keyed, Memory};
use nqs_base_tables::Table;
use nqs_codec::put_u64;
use nqs_records::{Put, put_each};

/// Puts a count and the items.
#[tactic(auto, using(crate::proofs::Joined::joined), unfolding(crate::specs::Spelling::many_field))]
pub(crate) fn put_list<T: Put<InSnapshot>>(items: &[T], out: &mut Vec<u8>) -> Result<(), Memory>
    requires { AllByRecursion T.IsPut items.now }
    ensures { Adds out.old.items (many_field T.field items.now) result out.new.items }
{
    put_u64(items.len() as u64, out)?;
    put_each::<InSnapshot, T>(items, out)
}

fn put_rows<K: Key, V: Keyed<K> + Drop + Put<InSnapshot>>(
    table: &Table<K, V>,
    out: &mut Vec<u8>,
) -> Result<(), Memory>
    requires { AllByRecursion V.IsPut table.now.items }
    ensures { Adds out.old.items (flat_map V.field table.now.items) result out.new.items }
{
    let mut place = 0usize;
    while place < table.len() {
        table.at(place).put(out)?;
        place += 1;
    }
    Ok(())
}

/// Puts a count and the values in order of creation.
#[tactic(auto, using(crate::proofs::Joined::joined), unfolding(crate::specs::Spelling::many_field))]
pub(crate) fn put_table<K: Key, V: Keyed<K> + Drop + Put<InSnapshot>>(
    table: &Table<K, V>,
    out: &mut Vec<u8>,
) -> Result<(), Memory>
    requires { AllByRecursion V.IsPut table.now.items }
    ensures { Adds out.old.items (many_field V.field table.now.items) result out.new.items }
{
    put_u64(table.len() as u64, out)?;
    put_rows(table, out)
}
