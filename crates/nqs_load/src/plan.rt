//! The edits that put a pipe queue's destinations into their order by load.
ghost use Rattle.std.specs.Prelude.{◌≡◌, ◌++◌, true, length, map, reverse, IfOk, OnOk, OnErr};
ghost use Rattle.std.specs.List.{list_all};
ghost use Rattle.nqs_load.specs.Load.{load_order};
ghost use Rattle.nqs_load.specs.Balance.{first_edit, is_of_site, order_edits};

use crate::order::{Load, load_order};
use nqs_base::{Memory, Name};
use nqs_types::{AccessEdit, ConfEdit, DevicesEdit, Edit, LimitsEdit, Named, NamedDest, RowsEdit};
use std::alloc::Global;

// What an edit is made of, which the check of loans is to know by name where edits are added.
type Parts = (
    ConfEdit,
    LimitsEdit,
    AccessEdit,
    DevicesEdit,
    RowsEdit,
    Named,
    NamedDest,
);

// The edit by which the load's destination becomes the first of the queue.
fn first_edit(load: &Load, pipe: &Name, site: &[Name]) -> Edit
    requires { is_of_site (length site.now) load.now ≡ true }
    ensures { result ≡ first_edit pipe.now site.now load.now }
{
    Edit::Conf(ConfEdit::FirstDestination {
        destination: NamedDest {
            queue: load.dest.queue,
            host: site[load.dest.host.0 as usize],
        },
        queue: *pipe,
    })
}

// The edits of the loads, in the order in which these are given.
fn first_edits(
    alloc: Global,
    loads: &[Load],
    pipe: &Name,
    site: &[Name],
) -> Result<Vec<Edit>, Memory>
    requires { list_all (is_of_site (length site.now)) loads.now ≡ true }
    ensures { IfOk result (λ edits. edits.items ≡ map (first_edit pipe.now site.now) loads.now) }
{
    let _parts: Option<Parts> = None;
    let mut edits = Vec::new(alloc);
    for load in loads {
        edits.push(first_edit(load, pipe, site))?;
    }
    Ok(edits)
}

// The loads, the last of their order first.
fn last_first(alloc: Global, loads: &[Load]) -> Result<Vec<Load>, Memory>
    ensures { IfOk result (λ turned. turned.items ≡ reverse (load_order loads.now)) }
{
    let mut order = Vec::new(alloc);
    order.extend_from_slice(loads)?;
    load_order(alloc, order.as_mut_slice())?;
    order.reverse();
    Ok(order)
}

/// Adds the edits that put the destinations of the queue `pipe` into their order by load, from the
/// last of the order to the first, one for each. Of the site it is given the hosts' names by their
/// places; each load's destination is on one of these. An `Err` leaves `out` as it was.
pub fn plan_order(
    alloc: Global,
    loads: &[Load],
    pipe: &Name,
    site: &[Name],
    out: &mut Vec<Edit>,
) -> Result<(), Memory>
    requires { list_all (is_of_site (length site.now)) loads.now ≡ true }
    ensures ok { OnOk result (out.new.items ≡ out.old.items ++ order_edits pipe.now site.now (load_order loads.now)) }
    ensures err { OnErr result (out.new.items ≡ out.old.items) }
{
    let order = last_first(alloc, loads)?;
    let mut edits = first_edits(alloc, order.as_slice(), pipe, site)?;
    out.append(&mut edits)?;
    Ok(())
}
