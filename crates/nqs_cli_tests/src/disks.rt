//! Disks in memory from one run to the next.

ghost use Rattle.std.specs.Prelude.{◌≡◌, [], IfOk};
ghost use Rattle.nqs_types.specs.declared.world.Which.{Which};
ghost use Rattle.nqs_outside.specs.History.{content, IsQuiet};
ghost use Rattle.nqs_store.specs.Disks.{disk_at};
ghost use Rattle.nqs_disk.specs.MemDisk.{history_of, faults_of};
ghost use Rattle.nqs_cli_tests.specs.Told.{fresh_disks, told_disks};

use crate::kept::Images;
use nqs_base::{Bytes, Tear};
use nqs_cli::MachineEnd;
use nqs_disk::{Lack, MemDisk};
use nqs_outside::Disk;
use nqs_store::Disks;
use std::alloc::Global;

/// Disks without bytes.
pub(crate) fn empty_disks(alloc: Global) -> Disks<MemDisk> {
    Disks {
        root: MemDisk::new(alloc),
        first: MemDisk::new(alloc),
        second: MemDisk::new(alloc),
        spool: MemDisk::new(alloc),
    }
}

fn end_of(lack: Lack) -> MachineEnd {
    match lack {
        Lack::Memory(memory) => MachineEnd::Memory(memory),
        Lack::Full(_) => MachineEnd::Failed,
    }
}

// All bytes of a disk.
fn bytes_of(alloc: Global, disk: &mut MemDisk) -> Result<Bytes, MachineEnd>
    ensures bytes { IfOk result (λ bytes. bytes ≡ content (history_of disk.old)) }
    ensures same { history_of disk.new ≡ history_of disk.old }
{
    let Ok(length) = disk.len() else {
        return Err(MachineEnd::Failed);
    };
    let mut bytes = match vec![in alloc; 0u8; length as usize] {
        Ok(bytes) => bytes,
        Err(refused) => return Err(MachineEnd::Memory(refused.into())),
    };
    match disk.read_at(0, &mut bytes) {
        Ok(_) => Ok(Bytes::from_vec(bytes)),
        Err(_) => Err(MachineEnd::Failed),
    }
}

// A disk with the bytes that it has, on which nothing is pending.
fn settled(alloc: Global, disk: MemDisk) -> Result<(MemDisk, Bytes), MachineEnd>
    ensures history { IfOk result (λ r. history_of r.0 ≡ record { start = r.1; calls = [] }) }
    ensures faults { IfOk result (λ r. faults_of r.0 ≡ 0) }
{
    let mut disk = disk;
    let bytes = bytes_of(alloc, &mut disk)?;
    match disk.crash(Tear::New) {
        Ok(disk) => Ok((disk, bytes)),
        Err(lack) => Err(end_of(lack)),
    }
}

/// The disks with the bytes that they have, on which nothing is pending.
pub(crate) fn settled_disks(
    alloc: Global,
    disks: Disks<MemDisk>,
) -> Result<(Disks<MemDisk>, Images), MachineEnd>
    ensures fresh { IfOk result (λ r. told_disks r.0 ≡ fresh_disks r.1) }
    ensures quiet { IfOk result (λ r. (which : Which) → IsQuiet (history_of (disk_at which r.0))) }
{
    let Disks {
        root,
        first,
        second,
        spool,
    } = disks;
    let root = settled(alloc, root)?;
    let first = settled(alloc, first)?;
    let second = settled(alloc, second)?;
    let spool = settled(alloc, spool)?;
    let disks = Disks {
        root: root.0,
        first: first.0,
        second: second.0,
        spool: spool.0,
    };
    let images = Images {
        root: root.1,
        first: first.1,
        second: second.1,
        spool: spool.1,
    };
    Ok((disks, images))
}
