//! `nqs daemon`: the disks are read, and where they are the host's own it is booted from them, and
//! serves.

ghost use Rattle.std.specs.Prelude.{◌≡◌, ◌⊎◌, ℕ, List, IsTrue};
ghost use Rattle.nqs_base.specs.declared.extent.Extent.{Extent};
ghost use Rattle.nqs_state.specs.State.{content};
ghost use Rattle.nqs_rules.specs.Plain.{map_state};
ghost use Rattle.nqs_types.specs.declared.ids.HostId.{HostId};
ghost use Rattle.nqs_types.specs.declared.world.Which.{Which};
ghost use Rattle.nqs_outside.specs.History.{IsQuiet};
ghost use Rattle.nqs_store.specs.Disks.{histories_of};
ghost use Rattle.nqs_store.specs.declared.disks.Disks.{Disks};
ghost use Rattle.nqs_node.specs.Boots.{IsLoaded};
ghost use Rattle.nqs_cli.specs.Parts.{disks_told, daemon_told};
ghost use Rattle.nqs_cli.specs.Daemons.{Daemons, IsHere, is_here};
ghost use Rattle.nqs_cli.specs.Ends.{status_of_fault, status_of_serve};
ghost use Rattle.nqs_cli.specs.Runs.{Uses, DoesDaemon, IsWanting, no_parts, place_at};

use crate::machine::{Machine, Notices, status_of_end};
use crate::parts::{Around, DaemonParts};
use crate::station::Station;
use nqs_base::Name;
use nqs_clients::NqsStatus;
use nqs_node::Node;
use nqs_outside::{Clock, Disk, Launcher, Outlet, Printer, Wire};
use nqs_serve::{ServeEnd, serve_with_notes};
use nqs_state::HostState;
use nqs_store::{Disks, LoadFault, Store};
use nqs_types::HostId;
use std::alloc::Global;

fn status_of_fault(fault: LoadFault) -> NqsStatus
    ensures { result ≡ status_of_fault fault }
{
    match fault {
        LoadFault::Disk(_) => NqsStatus::DiskFault,
        LoadFault::NotNqs(_, _) => NqsStatus::NotNqs,
        LoadFault::Memory(memory) => NqsStatus::Memory(memory),
    }
}

fn status_of_serve(end: ServeEnd) -> NqsStatus
    ensures { result ≡ status_of_serve end }
{
    match end {
        ServeEnd::Shutdown => NqsStatus::Done,
        ServeEnd::TurnsUsed => NqsStatus::TurnsUsed,
        ServeEnd::WireFault => NqsStatus::WireFault,
        ServeEnd::DiskFault(_) => NqsStatus::DiskFault,
        ServeEnd::Memory(memory) => NqsStatus::Memory(memory),
    }
}

// Whether it is this host of this site.
fn is_here(me: HostId, names: &[Name], state: &HostState) -> bool
    ensures { (bytes : Extent → List ℕ) → result ≡ is_here me names.now (map_state bytes (content state.now)) }
{
    me.0 == state.me.0 && state.site.as_slice() == names
}

// Boots the host that was loaded from its disks, which is this one, and serves; the disks come
// back.
fn boot_and_serve<
    D: Disk + Drop,
    W: Wire,
    L: Launcher,
    P: Printer,
    O: Outlet,
    C: Clock,
    N: Notices,
>(
    alloc: Global,
    loaded: (Store<D>, HostState),
    notices: &N,
    around: &mut Around<W, L, P, O, C>,
    turns: u64,
) -> (NqsStatus, Disks<D>)
    requires loaded { (disks : Disks D) × IsLoaded disks loaded.0 loaded.1 }
    ensures { (me : HostId) (names : List (List ℕ)) (disks : Disks D) → IsLoaded disks loaded.0 loaded.1
        → IsHere D.tells me names (disks_told D.Disk disks)
        → Daemons D.tells me names turns
        (daemon_told D.Disk W.Wire L.Launcher P.Printer O.Outlet C.Clock disks around.old)
        (daemon_told D.Disk W.Wire L.Launcher P.Printer O.Outlet C.Clock result.1 around.new)
        result.0 }
{
    let (store, state) = loaded;
    let mut said = Vec::new(alloc);
    match Node::boot_loaded(alloc, store, state, &mut said) {
        Err((fault, disks)) => {
            notices.not_booted(&fault);
            (status_of_fault(fault), disks)
        }
        Ok(mut node) => {
            notices.booted(node.state(), &said);
            let mut notes = notices.notes(node.state().site.as_slice());
            let end = serve_with_notes(
                alloc,
                &mut node,
                &mut around.wire,
                &mut around.launcher,
                &mut around.printer,
                &mut around.outlet,
                &mut around.clock,
                &mut notes,
                turns,
            );
            notices.served(node.state(), &end);
            (status_of_serve(end), node.close())
        }
    }
}

// Serves where the disks are this host's; the disks come back.
fn load_and_serve<
    D: Disk + Drop,
    W: Wire,
    L: Launcher,
    P: Printer,
    O: Outlet,
    C: Clock,
    N: Notices,
>(
    station: &Station<'_>,
    notices: &N,
    disks: Disks<D>,
    around: &mut Around<W, L, P, O, C>,
    turns: u64,
) -> (NqsStatus, Disks<D>)
    requires quiet { IsTrue D.tells → (which : Which) → IsQuiet (histories_of D.history disks which) }
    ensures { Daemons D.tells station.now.me station.now.names.now turns
        (daemon_told D.Disk W.Wire L.Launcher P.Printer O.Outlet C.Clock disks around.old)
        (daemon_told D.Disk W.Wire L.Launcher P.Printer O.Outlet C.Clock result.1 around.new)
        result.0 }
{
    match Store::load(station.alloc, disks) {
        Err((fault, disks)) => {
            notices.not_loaded(&fault);
            (status_of_fault(fault), disks)
        }
        Ok((store, state)) => {
            if !is_here(station.me, station.names, &state) {
                notices.not_here(station.me, station.names, &state);
                return (NqsStatus::NotNqs, store.close());
            }
            boot_and_serve(station.alloc, (store, state), notices, around, turns)
        }
    }
}

/// Serves a host for so many turns.
pub(crate) fn daemon<M: Machine>(station: &Station<'_>, machine: &mut M, turns: u64) -> NqsStatus
    ensures { Uses (M.told machine.old) (M.told machine.new)
        (λ parts. DoesDaemon M.D.tells (place_at station.now) turns parts result
        ⊎ (IsWanting (M.told machine.old).faults (M.told machine.new).faults result × (parts ≡ no_parts))) }
{
    match machine.daemon(station.dir, station.me) {
        Err(end) => status_of_end(end),
        Ok(DaemonParts { disks, mut around }) => {
            let (status, disks) = load_and_serve(station, &*machine, disks, &mut around, turns);
            machine.daemon_back(station.me, disks, around);
            status
        }
    }
}
