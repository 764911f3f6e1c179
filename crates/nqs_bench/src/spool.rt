//! Puts and frees of a spool.
ghost use Rattle.std.specs.Prelude.{◌≤◌};

use crate::stopped::Stopped;
use nqs_base::Extent;
use nqs_disk::MemDisk;
use nqs_spool::Spool;
use std::alloc::Global;

/// The longest list of bytes that is put.
const LONGEST: u64 = 2_000;

static BYTES: [u8; 2_000] = [7; 2_000];

// The length of the turn's list of bytes, from 1 to LONGEST, and different from turn to turn.
fn length_of(turn: u64) -> usize
    ensures { result ≤ 2000 }
{
    (turn % LONGEST * 7_919 % LONGEST + 1) as usize
}

fn put(spool: &mut Spool<MemDisk>, turn: u64) -> Result<Extent, Stopped> {
    match spool.put(&BYTES[..length_of(turn)]) {
        Ok(extent) => Ok(extent),
        Err(_) => Err(Stopped),
    }
}

// A spool with so many live extents, and these.
fn filled(alloc: Global, live: u64) -> Result<(Spool<MemDisk>, Vec<Extent>), Stopped> {
    let disk = MemDisk::new(alloc);
    let Ok(mut spool) = Spool::load(alloc, disk, &[]) else {
        return Err(Stopped);
    };
    spool.make_room(live)?;
    let mut extents = Vec::new(alloc);
    for turn in 0..live {
        let extent = put(&mut spool, turn)?;
        extents.push(extent)?;
    }
    Ok((spool, extents))
}

/// Keeps so many extents live, and so often frees the one that was put first and puts another.
pub(crate) fn put_and_free(alloc: Global, count: u64, live: u64) -> Result<(), Stopped> {
    let (mut spool, mut extents) = filled(alloc, live)?;
    for turn in 0..count {
        let Some(oldest) = extents.get_mut((turn % live.max(1)) as usize) else {
            return Ok(());
        };
        spool.free(oldest);
        spool.make_room(1)?;
        *oldest = put(&mut spool, turn)?;
    }
    Ok(())
}
