//! A host is stopped: its disks become what the tear leaves of them.

ghost use Rattle.std.specs.Prelude.{◌≡◌, ◌++◌, ◌∷◌, [], ℕ, false, IfOk, OnOk, OnErr, None};
ghost use Rattle.nqs_types.specs.declared.world.Which.{Which};
ghost use Rattle.nqs_types.specs.declared.world.Seen.TheVariants as sight;
ghost use Rattle.nqs_outside.specs.History.{IsImage, state};
ghost use Rattle.nqs_disk.specs.MemDisk as mem;
ghost use Rattle.nqs_store.specs.Disks.{disk_at, histories_of};
ghost use Rattle.nqs_net.specs.Turns.{IsSameTurn, IsTorn, IsStopped};

use crate::slot::{DownHost, Slot};
use crate::turn::Turn;
use nqs_base::Tear;
use nqs_disk::{Lack, MemDisk};
use nqs_store::Disks;
use nqs_types::Seen;
use std::alloc::Global;

// What a stop leaves of the disks of a host. A disk that lacked something for a call gives that
// back.
fn torn(disks: Disks<MemDisk>, tear: Tear) -> Result<Disks<MemDisk>, Lack>
    ensures torn { IfOk result (λ left. IsTorn tear (histories_of mem.history_of disks) left) }
    ensures fed { IfOk result (λ _. (which : Which) → mem.is_starved (disk_at which disks) ≡ false) }
{
    Ok(Disks {
        root: disks.root.crash(tear)?,
        first: disks.first.crash(tear)?,
        second: disks.second.crash(tear)?,
        spool: disks.spool.crash(tear)?,
    })
}

/// Stops a host, which is all that is seen. Where a disk lacked something for a call the answer is
/// that, as the host couldn't go on, and didn't stop by a fuse.
pub(crate) fn stop(alloc: Global, turn: &mut Turn<'_>, disks: Disks<MemDisk>) -> Result<Slot, Lack>
    ensures same { IsSameTurn turn.old turn.new }
    ensures packets { turn.new.packets.now ≡ turn.old.packets.now }
    ensures fed { IfOk result (λ _. (which : Which) → mem.is_starved (disk_at which disks) ≡ false) }
    ensures stopped { IfOk result (IsStopped turn.old.tear (histories_of mem.history_of disks)) }
    ensures seen { OnOk result (turn.new.seen.now.items ≡ turn.old.seen.now.items ++ sight.Stop turn.old.me ∷ []) }
    ensures unseen { OnErr result (turn.new.seen.now.items ≡ turn.old.seen.now.items) }
{
    let disks = torn(disks, turn.tear)?;
    let disks = Box::new(alloc, disks)?;
    turn.seen.push(Seen::Stop { host: turn.me })?;
    Ok(Slot::Down(DownHost { disks }))
}
