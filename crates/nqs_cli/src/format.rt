//! `nqs format`: the empty disks of a host become those of a host that has nothing.

ghost use Rattle.std.specs.Prelude.{◌≡◌, ◌⊎◌, ◌≤◌, nat_lt, false, IsTrue, IfOk, IfErr, OnErr, length};
ghost use Rattle.nqs_types.specs.declared.world.Which.{Which};
ghost use Rattle.nqs_outside.specs.Causes.{Rose};
ghost use Rattle.nqs_outside.specs.History.{content};
ghost use Rattle.nqs_store.specs.Disks.{disk_at, histories_of};
ghost use Rattle.nqs_cli.specs.Parts.{disks_told};
ghost use Rattle.nqs_cli.specs.Formats.{Formats, AreEmpty, AreUsed, AreSame};
ghost use Rattle.nqs_cli.specs.Runs.{Uses, DoesFormat, IsWanting, no_parts, place_at};

use crate::machine::{Machine, Notices, status_of_end};
use crate::station::Station;
use nqs_base::names_stand;
use nqs_clients::NqsStatus;
use nqs_outside::Disk;
use nqs_store::{Disks, StoreFault};
use nqs_types::Which;

// Whether a disk has a byte.
fn has_bytes<D: Disk, N: Notices>(
    disk: &mut D,
    which: Which,
    notices: &N,
) -> Result<bool, NqsStatus>
    ensures bytes { IsTrue D.tells → IfOk result (λ found. found ≡ nat_lt 0 (length (content (D.history disk.old)))) }
    ensures same { IsTrue D.tells → D.history disk.new ≡ D.history disk.old }
    ensures only { IfErr result (λ status. status ≡ NqsStatus.DiskFault) }
    ensures later { D.faults disk.old ≤ D.faults disk.new }
    ensures failed { OnErr result (Rose (D.faults disk.old) (D.faults disk.new)) }
{
    match disk.len() {
        Ok(length) => Ok(length > 0),
        Err(_) => {
            notices.disk_failed(which);
            Err(NqsStatus::DiskFault)
        }
    }
}

// Whether one of the disks has a byte.
fn have_bytes<D: Disk, N: Notices>(disks: &mut Disks<D>, notices: &N) -> Result<bool, NqsStatus>
    ensures used { IsTrue D.tells → IfOk result (λ found. IsTrue found → AreUsed (histories_of D.history disks.old)) }
    ensures empty { IsTrue D.tells → IfOk result (λ found. found ≡ false → AreEmpty (histories_of D.history disks.old)) }
    ensures same { IsTrue D.tells → AreSame (histories_of D.history disks.old) (histories_of D.history disks.new) }
    ensures only { IfErr result (λ status. status ≡ NqsStatus.DiskFault) }
    ensures later { (which : Which) → D.faults (disk_at which disks.old) ≤ D.faults (disk_at which disks.new) }
    ensures failed { OnErr result ((which : Which) × Rose (D.faults (disk_at which disks.old)) (D.faults (disk_at which disks.new))) }
{
    let root = has_bytes(&mut disks.root, Which::Root, notices)?;
    let first = has_bytes(&mut disks.first, Which::First, notices)?;
    let second = has_bytes(&mut disks.second, Which::Second, notices)?;
    let spool = has_bytes(&mut disks.spool, Which::Spool, notices)?;
    Ok(root || first || second || spool)
}

fn format_empty<D: Disk, N: Notices>(
    station: &Station<'_>,
    notices: &N,
    disks: &mut Disks<D>,
) -> NqsStatus
    ensures { Formats D.tells station.now.me station.now.names.now (disks_told D.Disk disks.old) (disks_told D.Disk disks.new) result }
{
    match have_bytes(disks, notices) {
        Err(status) => return status,
        Ok(true) => {
            notices.has_disks();
            return NqsStatus::Exists;
        }
        Ok(false) => {}
    }
    names_stand(station.names);
    match nqs_store::format(station.alloc, disks, station.me, station.names) {
        Ok(()) => NqsStatus::Done,
        Err(StoreFault::Disk(which)) => {
            notices.disk_failed(which);
            NqsStatus::DiskFault
        }
        Err(StoreFault::Memory(memory)) => NqsStatus::Memory(memory),
        Err(StoreFault::Stopped) => unreachable!(),
    }
}

/// Formats the disks of a host, where all of them are empty.
pub(crate) fn format<M: Machine>(station: &Station<'_>, machine: &mut M) -> NqsStatus
    ensures { Uses (M.told machine.old) (M.told machine.new)
        (λ parts. DoesFormat M.D.tells (place_at station.now) parts result
        ⊎ (IsWanting (M.told machine.old).faults (M.told machine.new).faults result × (parts ≡ no_parts))) }
{
    match machine.disks(station.dir, station.me) {
        Err(end) => status_of_end(end),
        Ok(mut disks) => {
            let status = format_empty(station, &*machine, &mut disks);
            machine.disks_back(station.me, disks);
            status
        }
    }
}
