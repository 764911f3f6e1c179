//! A whole state, read.

ghost use Rattle.std.specs.Prelude.{◌≡◌, ◌≢◌, Ok, Err, if◌then◌else◌, IfOk, IfErr};
ghost use Rattle.nqs_base.specs.Want.{want};
ghost use Rattle.nqs_state.specs.State.{content};
ghost use Rattle.nqs_records.specs.Reading.{Answers};
ghost use Rattle.nqs_records.specs.declared.fault.RecordFault.TheVariants.{BadField, Memory};
ghost use Rattle.nqs_snapshot.specs.Spelling.{state_field, old_state_field};
ghost use Rattle.nqs_snapshot.specs.Values.{MayStand, MayStandOld};
ghost use Rattle.nqs_snapshot.specs.Readings.{peer_at, old_peer_at};
ghost use Rattle.nqs_snapshot.specs.Reading.{state_of, or_bad, whole_of, snapshot_of, old_snapshot_of};
ghost use Rattle.nqs_rules.specs.InOrder.{IsInOrder, IsConsistent};
ghost use Rattle.nqs_snapshot.specs.Sound.{HasShortParts, is_consistent};
ghost use Rattle.nqs_snapshot.specs.Laws.{IsSpelled, IsOldSpelled, SpellsNone, told_by};

use crate::consistent::is_consistent;
use crate::lists::{InOldSnapshot, InSnapshot};
use crate::parts::Parts;
use crate::sound::is_right;
use nqs_records::{RecordFault, read_alone};
use nqs_state::HostState;
use std::alloc::Global;

// The parts that the whole list spells.
#[tactic(auto, unfolding(crate::specs::Reading::whole_of))]
fn read_whole(alloc: Global, bytes: &[u8]) -> Result<Parts, RecordFault>
    ensures { Answers (whole_of peer_at bytes.now) result }
{
    read_alone::<InSnapshot, Parts>(alloc, bytes, 0)
}

// The same by the spelling of version 1.
#[tactic(auto, unfolding(crate::specs::Reading::whole_of))]
fn read_old_whole(alloc: Global, bytes: &[u8]) -> Result<Parts, RecordFault>
    ensures { Answers (whole_of old_peer_at bytes.now) result }
{
    read_alone::<InOldSnapshot, Parts>(alloc, bytes, 0)
}

// A state in order, where it is consistent. It asks for no memory, so that one which isn't is told
// as a bad field and never as a want of memory.
fn consistent(state: HostState) -> Result<HostState, RecordFault>
    ensures { told_by result ≡ (if is_consistent (content state) then Ok (content state) else Err (BadField 0)) }
{
    if is_consistent(&state) {
        return Ok(state);
    }
    Err(RecordFault::BadField(0))
}

// The state of the parts, where a host may go on from it. All memory is asked for before it is seen
// whether the state is consistent.
#[tactic(auto, unfolding(crate::specs::Sound::is_sound))]
fn sound_state(alloc: Global, parts: Parts) -> Result<HostState, RecordFault>
    requires { MayStand (state_of parts) }
    ensures { Answers (or_bad (state_of parts)) (told_by result) }
{
    let Some(state) = parts.build(alloc)? else {
        return Err(RecordFault::BadField(0));
    };
    if !is_right(alloc, &state)? {
        return Err(RecordFault::BadField(0));
    }
    consistent(state)
}

#[tactic(auto, unfolding(crate::specs::Reading::state_read_by))]
fn read_snapshot(alloc: Global, bytes: &[u8]) -> Result<HostState, RecordFault>
    ensures { Answers (snapshot_of bytes.now) (told_by result) }
{
    let parts = read_whole(alloc, bytes)?;
    sound_state(alloc, parts)
}

#[tactic(auto, unfolding(crate::specs::Reading::state_read_by))]
fn read_old_snapshot(alloc: Global, bytes: &[u8]) -> Result<HostState, RecordFault>
    ensures { Answers (old_snapshot_of bytes.now) (told_by result) }
{
    let parts = read_old_whole(alloc, bytes)?;
    sound_state(alloc, parts)
}

/// Reads the whole list as one state from which a host goes on: one in order, and consistent. A
/// fault other than `Memory` is the first from the left; a state that reads and isn't in order is
/// `BadField(0)`.
pub fn read_state(alloc: Global, bytes: &[u8]) -> Result<HostState, RecordFault>
    ensures answer { Answers (snapshot_of bytes.now) (told_by result) }
    ensures ok { IfOk result (λ state. IsSpelled bytes.now (content state)) }
    ensures order { IfOk result (λ state. IsInOrder (content state)) }
    ensures consistent { IfOk result (λ state. IsConsistent (content state)) }
    ensures short { IfOk result (λ state. HasShortParts (content state)) }
    ensures none { IfErr result (λ fault. fault ≢ Memory want → SpellsNone MayStand state_field bytes.now) }
{
    read_snapshot(alloc, bytes)
}

/// Reads the whole list as one state by the spelling of version 1, in which a peer has one closed
/// number: of k the peer gets the floor k - 1 and the entry k, of 0 the floor 0 and none. Its faults
/// are those of `read_state`.
pub fn read_old_state(alloc: Global, bytes: &[u8]) -> Result<HostState, RecordFault>
    ensures answer { Answers (old_snapshot_of bytes.now) (told_by result) }
    ensures ok { IfOk result (λ state. IsOldSpelled bytes.now (content state)) }
    ensures order { IfOk result (λ state. IsInOrder (content state)) }
    ensures consistent { IfOk result (λ state. IsConsistent (content state)) }
    ensures short { IfOk result (λ state. HasShortParts (content state)) }
    ensures none { IfErr result (λ fault. fault ≢ Memory want → SpellsNone MayStandOld old_state_field bytes.now) }
{
    read_old_snapshot(alloc, bytes)
}
