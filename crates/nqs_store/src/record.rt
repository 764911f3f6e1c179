//! The record of a change, written to the active journal of an open store.

ghost use Rattle.std.specs.Prelude.{◌≡◌, ◌≤◌, false, not, length};
ghost use Rattle.nqs_journal.specs.Open.{is_stopped};
ghost use Rattle.nqs_store.specs.Calls.{Appends};
ghost use Rattle.nqs_store.specs.Stores.{pick};

use nqs_journal::Journal;
use nqs_outside::{Disk, Failed};

/// Appends a record, at most 65,536 bytes of it, to the journal on `second`, or to the other, and
/// leaves the one that it isn't. After a fault the journal is stopped.
pub(crate) fn append_to<D: Disk>(
    on_second: bool,
    first: &mut Journal<D>,
    second: &mut Journal<D>,
    text: &[u8],
) -> Result<(), Failed>
    requires short { length text.now ≤ 65536 }
    requires running { is_stopped (pick on_second first.old second.old) ≡ false }
    ensures appends { Appends (pick on_second first.old second.old) (pick on_second first.new second.new) text.now result }
    ensures rest { pick (not on_second) first.new second.new ≡ pick (not on_second) first.old second.old }
{
    if on_second {
        match second.append(text) {
            Ok(()) => Ok(()),
            Err(_) => Err(Failed),
        }
    } else {
        match first.append(text) {
            Ok(()) => Ok(()),
            Err(_) => Err(Failed),
        }
    }
}
