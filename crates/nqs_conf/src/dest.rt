//! Hosts and destinations as they are typed, and what is meant by them.
ghost use Rattle.std.specs.Prelude.{◌≡◌, ◌<◌, ◌≤◌, ◌∷◌, [], true, filter, length, not, position};
ghost use Rattle.std.specs.List.{list_any};
ghost use Rattle.nqs_base_tables.specs.Table.{without_first};
ghost use Rattle.nqs_state.specs.State.{content};
ghost use Rattle.nqs_rules.specs.Causes.{first_refusal};
ghost use Rattle.nqs_rules.specs.Conf.{lists_dest, no_host_cause, dest_list, created_dests};
ghost use Rattle.nqs_rules.specs.Find.{meant_dest};
ghost use Rattle.nqs_rules.specs.Tests.{same_dest};

use nqs_base::{ListOf, Name, Spare, place_of};
use nqs_state::HostState;
use nqs_types::{Dest, DestList, HostId, NamedDest, QueueDef, Refusal};
use std::alloc::Global;
use std::mem::replace;

/// Whether the site has a host of this name: `NoHost` where it has none.
pub(crate) fn known_host(state: &HostState, host: &Name) -> Result<(), Refusal>
    ensures { result ≡ first_refusal (no_host_cause host.now (content state.now) ∷ []) }
{
    match place_of(state.site.as_slice(), host) {
        Some(_) => Ok(()),
        None => Err(Refusal::NoHost(*host)),
    }
}

/// The destination that is typed so; none where the site has no such host.
pub(crate) fn meant_dest(state: &HostState, typed: &NamedDest) -> Option<Dest>
    requires { length state.now.site ≤ 16 }
    ensures { result ≡ meant_dest typed.now (content state.now) }
{
    match place_of(state.site.as_slice(), &typed.host) {
        Some(place) => Some(Dest {
            queue: typed.queue,
            host: HostId(place as u8),
        }),
        None => None,
    }
}

fn same_dest(dest: &Dest, other: &Dest) -> bool
    ensures { result ≡ same_dest dest.now other.now }
{
    dest.queue == other.queue && dest.host.0 == other.host.0
}

fn has_dest(dests: &[Dest], wanted: &Dest) -> bool
    ensures { result ≡ list_any (same_dest wanted.now) dests.now }
{
    dests.iter().any(|other: &Dest| same_dest(wanted, other))
}

/// Whether the queue lists the destination.
pub(crate) fn lists_dest(def: &QueueDef, dest: Option<Dest>) -> bool
    ensures { result ≡ lists_dest dest def.now }
{
    match dest {
        None => false,
        Some(dest) => has_dest(def.dests.as_slice(), &dest),
    }
}

/// Takes the destination out of the list. The others keep their order.
pub(crate) fn drop_dest(dests: &mut DestList, dropped: &Dest)
    ensures { dests.new ≡ filter (λ other. not (same_dest dropped.now other)) dests.old }
{
    dests.keep(|other: &Dest| !same_dest(dropped, other));
}

fn place_of_dest(dests: &[Dest], wanted: &Dest) -> Option<usize>
    ensures { result ≡ position (same_dest wanted.now) dests.now }
{
    dests
        .iter()
        .position(|other: &Dest| same_dest(wanted, other))
}

/// Puts a destination first that the list has. The others keep their order, and no memory is taken.
pub(crate) fn put_first(alloc: Global, dests: &mut DestList, dest: Dest)
    ensures { list_any (same_dest dest) dests.old ≡ true → dests.new ≡ dest ∷ without_first (same_dest dest) dests.old }
{
    let Some(place) = place_of_dest(dests.as_slice(), &dest) else {
        return;
    };
    let mut items = replace(dests, ListOf::new(alloc)).into_vec();
    items.remove(place);
    items.insert(0, dest).unwrap();
    *dests = ListOf::from_vec(items);
}

/// The destination that a pipe queue is created with, if any.
pub(crate) fn created_dest(state: &HostState, typed: &Option<NamedDest>) -> Option<Dest>
    requires { length state.now.site ≤ 16 }
    ensures { dest_list result ≡ created_dests typed.now (content state.now) }
{
    match typed {
        None => None,
        Some(typed) => meant_dest(state, typed),
    }
}

/// The list of this destination, or of none, in the memory that was kept.
pub(crate) fn dest_list(alloc: Global, spare: &mut Spare<Dest>, dest: Option<Dest>) -> DestList
    requires { 0 < spare.old }
    ensures { result ≡ dest_list dest }
{
    match dest {
        None => ListOf::new(alloc),
        Some(dest) => spare.grown(&[], dest),
    }
}
