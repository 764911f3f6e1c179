//! Calls that are made and kept.
ghost use Rattle.std.specs.Prelude.{◌≡◌, ℕ, List, IsTrue, ◌↔◌, ◌+◌, ◌^◌, ◌<◌, ◌≤◌, ◌++◌, [], ◌∷◌, length, vec_len, OnOk, OnErr, IsErrOf};
ghost use Rattle.nqs_outside.specs.History.{written, write, sync, after, fresh, is_sound, State};
ghost use Rattle.nqs_disk.specs.Calls.{calls_of};
ghost use Rattle.nqs_disk.specs.Lack.{full};

use crate::calls::{MOST, overwrite};
use crate::lack::past_the_end;
use crate::{DiskCall, Lack};
use nqs_base::Bytes;
use std::alloc::Global;

// Makes a write and keeps it. A write past the greatest length, or one for which there is no
// memory, changes nothing.
pub(crate) fn keep_write(
    alloc: Global,
    content: &mut Vec<u8>,
    calls: &mut Vec<DiskCall>,
    place: u64,
    bytes: &[u8],
    done: bool,
) -> Result<(), Lack>
    requires { place ≤ vec_len content.old }
    ensures small { OnOk result (place + length bytes.now ≤ 2 ^ 40) }
    ensures full { IsErrOf result (Lack.Full full) ↔ (2 ^ 40 < place + length bytes.now) }
    ensures calls { OnOk result (calls_of calls.new.items ≡ calls_of calls.old.items ++ write place bytes.now done ∷ []) }
    ensures same_calls { OnErr result (calls.new.items ≡ calls.old.items) }

    // The calls still give the bytes.
    ensures replayed { (s : State) → (after s (calls_of calls.old.items)).content ≡ content.old.items
        → (after s (calls_of calls.new.items)).content ≡ content.new.items }
    ensures sound { (bytes : List ℕ) → (after (fresh bytes) (calls_of calls.old.items)).content ≡ content.old.items
        → IsTrue (is_sound bytes (calls_of calls.old.items)) → IsTrue (is_sound bytes (calls_of calls.new.items)) }
    ensures length { length content.old.items ≤ 2 ^ 40 → length content.new.items ≤ 2 ^ 40 }
{
    if place > MOST || bytes.len() as u64 > MOST - place {
        return Err(Lack::Full(past_the_end(place, bytes)));
    }
    let copy = bytes.to_vec(alloc)?;
    calls.reserve(1)?;
    overwrite(content, place as usize, bytes)?;
    calls.push(DiskCall::Write {
        place,
        bytes: Bytes::from_vec(copy),
        done,
    })?;
    Ok(())
}

// Keeps a sync.
pub(crate) fn keep_sync(calls: &mut Vec<DiskCall>, done: bool) -> Result<(), Lack>
    ensures calls { OnOk result (calls_of calls.new.items ≡ calls_of calls.old.items ++ sync done ∷ []) }
    ensures same_calls { OnErr result (calls.new.items ≡ calls.old.items) }
    ensures replayed { (s : State) → (after s (calls_of calls.new.items)).content ≡ (after s (calls_of calls.old.items)).content }
    ensures sound { (bytes : List ℕ) → IsTrue (is_sound bytes (calls_of calls.old.items)) → IsTrue (is_sound bytes (calls_of calls.new.items)) }
{
    calls.push(DiskCall::Sync { done })?;
    Ok(())
}
