//! The extents that a host has.

ghost use Rattle.std.specs.Prelude.{◌≡◌, ◌++◌, map, OnOk, IfOk};
ghost use Rattle.std.specs.Fn.{FnReturnsAt};
ghost use Rattle.nqs_state.specs.State.{content};
ghost use Rattle.nqs_base.specs.declared.extent.Extent.{Extent};
ghost use Rattle.nqs_store.specs.Live.{live, row_part};

use nqs_base::{Extent, Key, Keyed, Memory};
use nqs_base_tables::Table;
use nqs_state::{HostState, Rows};
use nqs_types::{FileOut, Promise, Row, Stage};
use std::alloc::Global;

// The extents of a table, behind those that are there.
fn add_parts<K: Key, V: Keyed<K> + Drop, F: Fn(&V) -> Extent>(
    extents: &mut Vec<Extent>,
    table: &Table<K, V>,
    part: F,
) -> Result<(), Memory>
    requires { F.IsAlwaysCallable part }
    ensures { (g : V → Extent) → ((v : V) (x : Extent) → FnReturnsAt F.Fn part v x → x ≡ g v)
        → OnOk result (extents.new.items ≡ extents.old.items ++ map g table.now.items) }
{
    extents.reserve(table.len())?;
    for place in 0..table.len() {
        extents.push(part(table.at(place)))?;
    }
    Ok(())
}

// The scripts of a host's rows, behind those that are there.
fn add_rows(extents: &mut Vec<Extent>, rows: &Rows) -> Result<(), Memory>
    ensures { OnOk result (extents.new.items ≡ extents.old.items ++ map row_part rows.now.items) }
{
    add_parts(extents, rows.table(), |row: &Row| row.script)
}

/// The live extents of a host: those of rows, promises, stages and files, in this order.
pub(crate) fn live_extents(alloc: Global, state: &HostState) -> Result<Vec<Extent>, Memory>
    ensures { IfOk result (λ extents. extents.items ≡ live (content state.now)) }
{
    let mut extents = Vec::new(alloc);
    add_rows(&mut extents, &state.rows)?;
    add_parts(&mut extents, &state.promises, |promise: &Promise| {
        promise.row.script
    })?;
    add_parts(&mut extents, &state.stages, |stage: &Stage| stage.bytes)?;
    add_parts(&mut extents, &state.files, |file: &FileOut| file.bytes)?;
    Ok(extents)
}
