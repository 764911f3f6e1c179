//! Appends to a journal.
ghost use Rattle.nqs_outside.specs.History.{IsQuiet};
ghost use Rattle.nqs_disk.specs.MemDisk.{history_of};

use crate::stopped::Stopped;
use nqs_disk::MemDisk;
use nqs_journal::{Journal, format};
use std::alloc::Global;

const PAYLOAD: [u8; 100] = [7; 100];

fn open(alloc: Global, disk: MemDisk) -> Result<Journal<MemDisk>, Stopped>
    requires { IsQuiet (history_of disk) }
{
    let mut found = Vec::new(alloc);
    match Journal::load(alloc, disk, &mut found) {
        Ok(journal) => Ok(journal),
        Err(_) => Err(Stopped),
    }
}

fn new_journal(alloc: Global) -> Result<Journal<MemDisk>, Stopped> {
    let mut disk = MemDisk::new(alloc);
    let Ok(()) = format(&mut disk) else {
        return Err(Stopped);
    };
    open(alloc, disk)
}

/// Appends so many payloads of 100 bytes to a new journal.
pub(crate) fn append_payloads(alloc: Global, count: u64) -> Result<(), Stopped> {
    let mut journal = new_journal(alloc)?;
    for _ in 0..count {
        let Ok(()) = journal.append(&PAYLOAD) else {
            return Err(Stopped);
        };
    }
    Ok(())
}
