//! Kinds of record that change a request of the host.

ghost use Rattle.std.specs.Prelude.{◌≡◌, ◌∷◌, []};
ghost use Rattle.nqs_records.specs.Reading.{Answers};
ghost use Rattle.nqs_records.specs.Tables.{by_code, values_at};
ghost use Rattle.nqs_records.specs.KindFields.{value_at, an_id};
ghost use Rattle.nqs_records.specs.KindTable.{kinds};
ghost use Rattle.nqs_records.specs.Kinds.{no_kind};

use crate::fault::RecordFault;
use crate::field::{read_name, read_u8};
use crate::hand_kinds::read_hand_kind;
use crate::job::read_job;
use crate::lists::read_parts;
use crate::part::{read_id, read_opt_name, read_script};
use nqs_types::{Change, RequestId};
use std::alloc::Global;

#[tactic(auto, unfolding(crate::specs::KindTable::kinds, crate::specs::Tables::values_at))]
fn read_submitted(alloc: Global, bytes: &[u8], place: u64) -> Result<(Change, u64), RecordFault>
    ensures { Answers (by_code value_at kinds 2 no_kind bytes.now place) result }
{
    let (queue, place) = read_name(bytes, place)?;
    let (job, place) = read_job(alloc, bytes, place)?;
    let (script, place) = read_script(bytes, place)?;
    let change = Change::Submitted { queue, job, script };
    Ok((change, place))
}

#[tactic(auto, unfolding(crate::specs::KindTable::kinds, crate::specs::Tables::values_at))]
fn read_started(bytes: &[u8], place: u64) -> Result<(Change, u64), RecordFault>
    ensures { result ≡ by_code value_at kinds 5 no_kind bytes.now place }
{
    let (id, place) = read_id(bytes, place)?;
    let (device, place) = read_opt_name(bytes, place)?;
    Ok((Change::Started { id, device }, place))
}

#[tactic(auto, unfolding(crate::specs::KindTable::kinds, crate::specs::Tables::values_at))]
fn read_ended(alloc: Global, bytes: &[u8], place: u64) -> Result<(Change, u64), RecordFault>
    ensures { Answers (by_code value_at kinds 6 no_kind bytes.now place) result }
{
    let (id, place) = read_id(bytes, place)?;
    let (outputs, place) = read_parts(alloc, bytes, place)?;
    Ok((Change::Ended { id, outputs }, place))
}

#[tactic(auto, unfolding(crate::specs::KindTable::kinds, crate::specs::Tables::values_at))]
fn read_moved_local(bytes: &[u8], place: u64) -> Result<(Change, u64), RecordFault>
    ensures { result ≡ by_code value_at kinds 18 no_kind bytes.now place }
{
    let (id, place) = read_id(bytes, place)?;
    let (queue, place) = read_name(bytes, place)?;
    Ok((Change::MovedLocal { id, queue }, place))
}

#[tactic(auto, unfolding(crate::specs::KindTable::kinds, crate::specs::Tables::values_at))]
fn read_refused_local(bytes: &[u8], place: u64) -> Result<(Change, u64), RecordFault>
    ensures { result ≡ by_code value_at kinds 19 no_kind bytes.now place }
{
    let (id, place) = read_id(bytes, place)?;
    let (queue, place) = read_name(bytes, place)?;
    let (cause, place) = read_u8(bytes, place)?;
    let change = Change::RefusedLocal { id, queue, cause };
    Ok((change, place))
}

#[tactic(auto, unfolding(crate::specs::Tables::values_at))]
fn read_one_id(bytes: &[u8], place: u64) -> Result<(RequestId, u64), RecordFault>
    ensures { result ≡ values_at value_at (an_id ∷ []) bytes.now place }
{
    read_id(bytes, place)
}

// The change of a kind, whose fields stand at the place: an arm for each row of this part of the
// table (`specs/KindTable.antt`), and else what the next part has.
#[tactic(auto, unfolding(crate::specs::KindTable::kinds))]
pub(crate) fn read_kind(
    alloc: Global,
    kind: u8,
    bytes: &[u8],
    place: u64,
) -> Result<(Change, u64), RecordFault>
    ensures { Answers (by_code value_at kinds kind no_kind bytes.now place) result }
{
    match kind {
        2 => read_submitted(alloc, bytes, place),
        3 => {
            let (id, place) = read_one_id(bytes, place)?;
            Ok((Change::Deleted(id), place))
        }
        4 => {
            let (id, place) = read_one_id(bytes, place)?;
            Ok((Change::Doomed(id), place))
        }
        5 => read_started(bytes, place),
        6 => read_ended(alloc, bytes, place),
        7 => {
            let (id, place) = read_one_id(bytes, place)?;
            Ok((Change::Unlaunched(id), place))
        }
        18 => read_moved_local(bytes, place),
        19 => read_refused_local(bytes, place),
        20 => {
            let (id, place) = read_one_id(bytes, place)?;
            Ok((Change::HeldFar(id), place))
        }
        _ => read_hand_kind(alloc, kind, bytes, place),
    }
}
