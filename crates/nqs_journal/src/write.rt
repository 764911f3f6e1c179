//! The writes and syncs of a journal.
ghost use Rattle.std.specs.Prelude.{◌≡◌, ℕ, ◌+◌, ◌<◌, ◌≤◌, ◌^◌, ◌++◌, [], ◌∷◌, List, false, IsTrue, OnOk, OnErr, length, vec_len, vec_capacity};
ghost use Rattle.nqs_outside.specs.Causes.{Rose};
ghost use Rattle.nqs_outside.specs.History.{Call, content, extended, moment, StopsShort, IsExact};
ghost use Rattle.nqs_journal.specs.Text.{frame};
ghost use Rattle.nqs_journal.specs.Plan.{behind_gate};

use nqs_outside::{Disk, Failed};

// The text behind the gate, and then the gate, each on the disk before what follows.
pub(crate) fn write_behind<D: Disk>(disk: &mut D, gate: u64, text: &[u8]) -> Result<(), Failed>
    requires small { gate ≤ 2 ^ 40 }
    requires within { IsTrue D.tells → gate < length (content (D.history disk.old)) }
    ensures small { OnOk result (gate + 1 + length text.now ≤ 2 ^ 40) }
    ensures made { IsTrue D.tells → OnOk result (D.history disk.new ≡ extended (D.history disk.old) (behind_gate gate text.now)) }
    ensures broken { IsTrue D.tells → OnErr result ((calls : List Call) × (D.history disk.new ≡ extended (D.history disk.old) calls)
        × StopsShort (behind_gate gate text.now) calls) }
    ensures exact { IsTrue D.tells → IsExact (D.fails disk.old) (D.starved disk.old) (D.starved disk.new)
        (D.history disk.old) (D.history disk.new) (behind_gate gate text.now) }
    // None of them was to fail.
    ensures due { IsTrue D.tells → OnOk result ((i : ℕ) → i < 4 → D.fails disk.old (moment (D.history disk.old) + i) ≡ false) }
    ensures fuse { IsTrue D.tells → (i : ℕ) → D.fails disk.new i ≡ D.fails disk.old i }
    ensures ends { IsTrue D.tells → (i : ℕ) → D.ends disk.new i ≡ D.ends disk.old i }
    ensures later { D.faults disk.old ≤ D.faults disk.new }
    ensures failed { OnErr result (Rose (D.faults disk.old) (D.faults disk.new)) }
    ensures faultless { OnOk result (D.faults disk.new ≡ D.faults disk.old) }
    ensures unread { IsTrue D.tells → D.reads disk.new ≡ D.reads disk.old }
{
    disk.write_at(gate + 1, text)?;
    disk.sync()?;
    disk.write_at(gate, &[1])?;
    disk.sync()
}

// The length, the payload, and the next gate.
#[tactic(auto, unfolding(crate::specs::Text::frame))]
pub(crate) fn fill(buffer: &mut Vec<u8>, payload: &[u8])
    requires short { length payload.now < 2 ^ 32 }
    requires room { length payload.now + 5 ≤ vec_capacity buffer.old }
    ensures text { buffer.new.items ≡ frame payload.now ++ 0 ∷ [] }
    ensures length { vec_len buffer.new ≡ length payload.now + 5 }
    ensures capacity { vec_capacity buffer.old ≤ vec_capacity buffer.new }
{
    let length = (payload.len() as u32).to_be_bytes();
    buffer.clear();
    buffer.extend_from_slice(&length).unwrap();
    buffer.extend_from_slice(payload).unwrap();
    buffer.extend_from_slice(&[0]).unwrap();
}
