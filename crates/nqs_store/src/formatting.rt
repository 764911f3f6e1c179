//! The disks of a host that is formatted.

ghost use Rattle.std.specs.Prelude.{◌≡◌, ◌⊎◌, ◌≤◌, ℕ, List, IsTrue, IsErrOf, OnOk, IfOk, IfErr, ◌++◌, ◌∷◌, [], Ok, vec_len};
ghost use Rattle.nqs_base.specs.Want.{want};
ghost use Rattle.nqs_outside.specs.Causes.{Rose};
ghost use Rattle.nqs_outside.specs.History.{Call, extended, StopsShort};
ghost use Rattle.nqs_journal.specs.Text.{header, records};
ghost use Rattle.nqs_journal.specs.Plan.{begin_calls};
ghost use Rattle.nqs_records.specs.Changes.{MayStand, spelling};
ghost use Rattle.nqs_records.specs.Kinds.{record_of};
ghost use Rattle.nqs_store.specs.Formatted.{IsFormatted};
ghost use Rattle.nqs_store.specs.PutCalls.{WritesChange};
ghost use Rattle.nqs_types.specs.declared.change.Change.{Change};

use crate::disks::Disks;
use crate::fault::StoreFault;
use nqs_base::{ListOf, Name};
use nqs_journal::{JournalFault, format_with};
use nqs_outside::Disk;
use nqs_records::write_change;
use nqs_types::{Change, HostId, Which};
use std::alloc::Global;

// The record of a change. The limits of its values keep it short.
pub(crate) fn written(alloc: Global, change: &Change) -> Result<Vec<u8>, StoreFault>
    requires { MayStand change.now }
    ensures { WritesChange change.now result }
{
    let mut text = Vec::new(alloc);
    write_change(alloc, change, &mut text)?;
    Ok(text)
}

// A record is read as the change that it was written of: a law, which callers call for its
// contract.
pub(crate) fn read_back(text: &[u8], change: &Change)
    ensures { MayStand change.now → text.now ≡ spelling change.now → record_of text.now ≡ Ok change.now }
{}

// The record that formats a host of this site.
fn site_text(alloc: Global, me: HostId, site: &[Name]) -> Result<Vec<u8>, StoreFault>
    requires { MayStand (Change.Site me site.now) }
    ensures text { IfOk result (λ text. text.items ≡ spelling (Change.Site me site.now)) }
    ensures short { IfOk result (λ text. vec_len text ≤ 65536) }
    ensures read { IfOk result (λ text. record_of text.items ≡ Ok (Change.Site me site.now)) }
    ensures fault { IfErr result (λ fault. fault ≡ StoreFault.Memory want) }
{
    let hosts = site.to_vec(alloc)?;
    let change = Change::Site {
        me,
        site: ListOf::from_vec(hosts),
    };
    match written(alloc, &change) {
        Ok(text) => {
            read_back(&text, &change);
            drop(change);
            Ok(text)
        }
        Err(fault) => {
            drop(change);
            Err(fault)
        }
    }
}

/// Makes empty disks those of a host of this site. `Memory` comes before the first call of a disk,
/// and `Disk` says that a call of `first` failed: the calls before it were made. The other disks
/// are left alone.
pub fn format<D: Disk>(
    alloc: Global,
    disks: &mut Disks<D>,
    me: HostId,
    site: &[Name],
) -> Result<(), StoreFault>
    requires { MayStand (Change.Site me site.now) }
    ensures told { IsTrue D.tells → OnOk result (IsFormatted (D.history disks.new.first) me site.now) }
    ensures made { IsTrue D.tells → OnOk result (D.history disks.new.first
        ≡ extended (D.history disks.old.first) (begin_calls (header ++ records (spelling (Change.Site me site.now) ∷ []) ++ 0 ∷ []))) }
    ensures only { IfErr result (λ fault. (fault ≡ StoreFault.Disk Which.First) ⊎ (fault ≡ StoreFault.Memory want)) }
    // At `Disk` just the first of these calls were made, of which only the last may have failed.
    ensures broken { IsTrue D.tells → IsErrOf result (StoreFault.Disk Which.First) → (calls : List Call)
        × (D.history disks.new.first ≡ extended (D.history disks.old.first) calls)
        × StopsShort (begin_calls (header ++ records (spelling (Change.Site me site.now) ∷ []) ++ 0 ∷ [])) calls }
    ensures memory { IsTrue D.tells → IsErrOf result (StoreFault.Memory want) → D.history disks.new.first ≡ D.history disks.old.first }
    ensures failed { IsErrOf result (StoreFault.Disk Which.First) → Rose (D.faults disks.old.first) (D.faults disks.new.first) }
    // Only where the disk is starved, or a call was to fail.
    ensures cause { IsTrue D.tells → IsErrOf result (StoreFault.Disk Which.First) → IsTrue (D.starved disks.new.first) ⊎ (i : ℕ)
        × IsTrue (D.fails disks.old.first i) }
    ensures fuse { IsTrue D.tells → (i : ℕ) → D.fails disks.new.first i ≡ D.fails disks.old.first i }
    // No disk is read, and the others are left alone.
    ensures unread { IsTrue D.tells → D.reads disks.new.first ≡ D.reads disks.old.first }
    ensures root { disks.new.root ≡ disks.old.root }
    ensures second { disks.new.second ≡ disks.old.second }
    ensures spool { disks.new.spool ≡ disks.old.spool }
{
    let text = site_text(alloc, me, site)?;
    match format_with(alloc, &mut disks.first, &text) {
        Ok(()) => Ok(()),
        Err(JournalFault::Disk) => Err(StoreFault::Disk(Which::First)),
        Err(JournalFault::Memory(memory)) => Err(StoreFault::Memory(memory)),
        // A format has no other fault.
        Err(_) => unreachable!(),
    }
}
