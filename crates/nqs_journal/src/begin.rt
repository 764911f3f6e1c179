//! The first text of a journal: one that begins with a snapshot, and one that has a payload.
ghost use Rattle.std.specs.Prelude.{◌≡◌, ◌⊎◌, ◌+◌, ◌<◌, ◌≤◌, ◌^◌, ◌++◌, [], ◌∷◌, ℕ, List, false, IsTrue, IsErrOf, OnOk, OnErr, IfOk, IfErr, length, vec_len};
ghost use Rattle.nqs_outside.specs.Causes.{Rose};
ghost use Rattle.nqs_outside.specs.History.{Call, content, extended, moment, StopsShort, IsExact};
ghost use Rattle.nqs_journal.specs.Text.{header, records, frame, snapshot_front};
ghost use Rattle.nqs_journal.specs.Either.{IsSnapshotText};
ghost use Rattle.nqs_journal.specs.Plan.{begin_calls, front_calls};
ghost use Rattle.nqs_base.specs.Want.{want};
ghost use Rattle.nqs_journal.specs.Opened.{IsOpen};
ghost use Rattle.nqs_journal.specs.Faults.{MatchBegin};

use crate::JournalFault;
use crate::read::HEADER;
use nqs_base::Memory;
use nqs_outside::{Disk, Failed};
use std::alloc::{AllocError, Global};

/// What a journal that begins with a snapshot begins with.
pub(crate) const SNAPSHOT: [u8; 16] = *b"NQS-SNAPSHOT-v2\n";

/// The whole text of a journal that begins with this snapshot and has no record, for
/// `Journal::begin_anew`. `Memory` makes nothing.
#[tactic(auto, unfolding(crate::specs::Text::snapshot_front))]
pub fn snapshot_text(alloc: Global, snapshot: &[u8]) -> Result<Vec<u8>, Memory>
    ensures text { IfOk result (λ text. text.items ≡ snapshot_front snapshot.now ++ 0 ∷ []) }
    ensures length { IfOk result (λ text. vec_len text ≡ length snapshot.now + 25) }
    ensures begins { IfOk result (λ text. IsSnapshotText text.items) }
{
    let mut text = Vec::new(alloc);
    text.extend_from_slice(&SNAPSHOT)?;
    text.extend_from_slice(&(snapshot.len() as u64).to_be_bytes())?;
    text.extend_from_slice(snapshot)?;
    text.extend_from_slice(&[0])?;
    Ok(text)
}

// The text in place of what stood there.
pub(crate) fn write_begin<D: Disk>(disk: &mut D, text: &[u8]) -> Result<(), Failed>
    ensures small { OnOk result (length text.now ≤ 2 ^ 40) }
    ensures made { IsTrue D.tells → OnOk result (D.history disk.new ≡ extended (D.history disk.old) (begin_calls text.now)) }
    ensures broken { IsTrue D.tells → OnErr result ((calls : List Call) × (D.history disk.new ≡ extended (D.history disk.old) calls)
        × StopsShort (begin_calls text.now) calls) }
    ensures open { IsTrue D.tells → OnOk result (
        (front : List ℕ) → text.now ≡ front ++ 0 ∷ [] → IsOpen (D.history disk.new) front (length front) []) }
    ensures length { IsTrue D.tells → OnOk result (length text.now ≤ length (content (D.history disk.new))) }
    ensures fuse { IsTrue D.tells → (i : ℕ) → D.fails disk.new i ≡ D.fails disk.old i }
    ensures ends { IsTrue D.tells → (i : ℕ) → D.ends disk.new i ≡ D.ends disk.old i }
    ensures later { D.faults disk.old ≤ D.faults disk.new }
    ensures failed { OnErr result (Rose (D.faults disk.old) (D.faults disk.new)) }
    ensures faultless { OnOk result (D.faults disk.new ≡ D.faults disk.old) }
    ensures unread { IsTrue D.tells → D.reads disk.new ≡ D.reads disk.old }
    // Only where the disk is starved, or a call was to fail.
    ensures cause { IsTrue D.tells → OnErr result (IsTrue (D.starved disk.new) ⊎ (i : ℕ) × IsTrue (D.fails disk.old i)) }
    ensures exact { IsTrue D.tells → IsExact (D.fails disk.old) (D.starved disk.old) (D.starved disk.new)
        (D.history disk.old) (D.history disk.new) (begin_calls text.now) }
    // None of them was to fail.
    ensures due { IsTrue D.tells → OnOk result ((i : ℕ) → i < 2 → D.fails disk.old (moment (D.history disk.old) + i) ≡ false) }
{
    disk.write_at(0, text)?;
    disk.sync()?;
    Ok(())
}

// The header, an open gate, the payload, and a closed gate.
#[tactic(auto, unfolding(crate::specs::Text::frame))]
fn one_payload_text(alloc: Global, payload: &[u8]) -> Result<Vec<u8>, AllocError>
    requires { length payload.now < 2 ^ 32 }
    ensures { IfOk result (λ text. text.items ≡ header ++ records (payload.now ∷ []) ++ 0 ∷ []) }
{
    let mut text = Vec::new(alloc);
    text.extend_from_slice(&HEADER)?;
    text.extend_from_slice(&[1])?;
    text.extend_from_slice(&(payload.len() as u32).to_be_bytes())?;
    text.extend_from_slice(payload)?;
    text.extend_from_slice(&[0])?;
    Ok(text)
}

/// Makes a disk the journal of one payload, of at most 65,536 bytes, whatever stood there. `Memory`
/// comes before the first call.
pub fn format_with<D: Disk>(alloc: Global, disk: &mut D, payload: &[u8]) -> Result<(), JournalFault>
    requires { length payload.now ≤ 65536 }
    ensures made { IsTrue D.tells → OnOk result (D.history disk.new ≡ extended (D.history disk.old) (front_calls (header ++ records (payload.now ∷ [])))) }
    ensures broken { IsTrue D.tells → IfErr result (λ fault. MatchBegin fault (D.history disk.old) (D.history disk.new)
        (front_calls (header ++ records (payload.now ∷ [])))) }
    ensures formatted { IsTrue D.tells → OnOk result (
        IsOpen (D.history disk.new) header (length (header ++ records (payload.now ∷ []))) (payload.now ∷ [])) }
    ensures only { IfErr result (λ fault. (fault ≡ JournalFault.Disk) ⊎ (fault ≡ JournalFault.Memory want)) }
    ensures disk { IsErrOf result JournalFault.Disk → Rose (D.faults disk.old) (D.faults disk.new) }
    // Only where the disk is starved, or a call was to fail.
    ensures cause { IsTrue D.tells → IsErrOf result JournalFault.Disk → IsTrue (D.starved disk.new) ⊎ (i : ℕ) × IsTrue (D.fails disk.old i) }
    ensures fuse { IsTrue D.tells → (i : ℕ) → D.fails disk.new i ≡ D.fails disk.old i }
    ensures ends { IsTrue D.tells → (i : ℕ) → D.ends disk.new i ≡ D.ends disk.old i }
    ensures later { D.faults disk.old ≤ D.faults disk.new }
    // At Ok no call failed, and the disk isn't read.
    ensures faultless { OnOk result (D.faults disk.new ≡ D.faults disk.old) }
    ensures unread { IsTrue D.tells → D.reads disk.new ≡ D.reads disk.old }
{
    let text = match one_payload_text(alloc, payload) {
        Ok(text) => text,
        Err(refused) => return Err(refused.into()),
    };
    match write_begin(disk, &text) {
        Ok(()) => Ok(()),
        Err(Failed) => Err(JournalFault::Disk),
    }
}
