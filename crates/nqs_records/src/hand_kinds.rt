//! Kinds of record that change a handover, on either side, or a stage.

ghost use Rattle.std.specs.Prelude.{◌≡◌, ◌∷◌, []};
ghost use Rattle.nqs_records.specs.Reading.{Answers};
ghost use Rattle.nqs_records.specs.Tables.{by_code, values_at};
ghost use Rattle.nqs_records.specs.KindFields.{value_at, eight_bytes, a_host, with_low};
ghost use Rattle.nqs_records.specs.KindTable.{hand_kinds};
ghost use Rattle.nqs_records.specs.Kinds.{no_kind};

use crate::fault::RecordFault;
use crate::field::{read_name, read_u8, read_u64};
use crate::host_kinds::read_host_kind;
use crate::job::read_carried;
use crate::lists::read_hands;
use crate::part::{read_host, read_id, read_low, read_output, read_path, read_script};
use nqs_types::{Change, HostId};
use std::alloc::Global;

#[tactic(auto, unfolding(crate::specs::KindTable::hand_kinds, crate::specs::Tables::values_at))]
fn read_hand_opened(bytes: &[u8], place: u64) -> Result<(Change, u64), RecordFault>
    ensures { result ≡ by_code value_at hand_kinds 10 no_kind bytes.now place }
{
    let (peer, place) = read_host(bytes, place)?;
    let (number, place) = read_u64(bytes, place)?;
    let (id, place) = read_id(bytes, place)?;
    let (queue, place) = read_name(bytes, place)?;
    let (since, place) = read_u64(bytes, place)?;
    let change = Change::HandOpened {
        peer,
        number,
        id,
        queue,
        since,
    };
    Ok((change, place))
}

#[tactic(auto, unfolding(crate::specs::KindTable::hand_kinds, crate::specs::Tables::values_at))]
fn read_hand_refused(bytes: &[u8], place: u64) -> Result<(Change, u64), RecordFault>
    ensures { result ≡ by_code value_at hand_kinds 12 no_kind bytes.now place }
{
    let (peer, place) = read_host(bytes, place)?;
    let (number, place) = read_u64(bytes, place)?;
    let (cause, place) = read_u8(bytes, place)?;
    let change = Change::HandRefused {
        peer,
        number,
        cause,
    };
    Ok((change, place))
}

#[tactic(auto, unfolding(crate::specs::KindTable::hand_kinds, crate::specs::Tables::values_at))]
fn read_hands_silent(alloc: Global, bytes: &[u8], place: u64) -> Result<(Change, u64), RecordFault>
    ensures { Answers (by_code value_at hand_kinds 13 no_kind bytes.now place) result }
{
    let (until, place) = read_u64(bytes, place)?;
    let (hands, place) = read_hands(alloc, bytes, place)?;
    Ok((Change::HandsSilent { until, hands }, place))
}

#[tactic(auto, unfolding(crate::specs::KindTable::hand_kinds, crate::specs::Tables::values_at))]
fn read_old_promised(alloc: Global, bytes: &[u8], place: u64) -> Result<(Change, u64), RecordFault>
    ensures { Answers (by_code value_at hand_kinds 15 no_kind bytes.now place) result }
{
    let (peer, place) = read_host(bytes, place)?;
    let (number, place) = read_u64(bytes, place)?;
    let (queue, place) = read_name(bytes, place)?;
    let (carried, place) = read_carried(alloc, bytes, place)?;
    let (script, place) = read_script(bytes, place)?;
    let change = Change::OldPromised {
        peer,
        number,
        queue,
        carried,
        script,
    };
    Ok((change, place))
}

// The number of a handover and its low.
fn read_with_low(bytes: &[u8], place: u64) -> Result<((u64, u64), u64), RecordFault>
    ensures { result ≡ value_at with_low bytes.now place }
{
    let (number, next) = read_u64(bytes, place)?;
    let (low, end) = read_low(bytes, next, number)?;
    Ok(((number, low), end))
}

#[tactic(auto, unfolding(crate::specs::KindTable::hand_kinds, crate::specs::Tables::values_at))]
fn read_promised(alloc: Global, bytes: &[u8], place: u64) -> Result<(Change, u64), RecordFault>
    ensures { Answers (by_code value_at hand_kinds 24 no_kind bytes.now place) result }
{
    let (peer, place) = read_host(bytes, place)?;
    let ((number, low), place) = read_with_low(bytes, place)?;
    let (queue, place) = read_name(bytes, place)?;
    let (carried, place) = read_carried(alloc, bytes, place)?;
    let (script, place) = read_script(bytes, place)?;
    let change = Change::Promised {
        peer,
        number,
        low,
        queue,
        carried,
        script,
    };
    Ok((change, place))
}

#[tactic(auto, unfolding(crate::specs::KindTable::hand_kinds, crate::specs::Tables::values_at))]
fn read_stage_got(alloc: Global, bytes: &[u8], place: u64) -> Result<(Change, u64), RecordFault>
    ensures { Answers (by_code value_at hand_kinds 21 no_kind bytes.now place) result }
{
    let (peer, place) = read_host(bytes, place)?;
    let (number, place) = read_u64(bytes, place)?;
    let (path, place) = read_path(alloc, bytes, place)?;
    let (extent, place) = read_output(bytes, place)?;
    let change = Change::StageGot {
        peer,
        number,
        path,
        bytes: extent,
    };
    Ok((change, place))
}

// The peer and the number of a handover or a stage.
#[tactic(auto, unfolding(crate::specs::Tables::values_at))]
fn read_peer_number(bytes: &[u8], place: u64) -> Result<((HostId, u64), u64), RecordFault>
    ensures { result ≡ values_at value_at (a_host ∷ eight_bytes ∷ []) bytes.now place }
{
    let (peer, next) = read_host(bytes, place)?;
    let (number, end) = read_u64(bytes, next)?;
    Ok(((peer, number), end))
}

#[tactic(auto, unfolding(crate::specs::KindTable::hand_kinds))]
pub(crate) fn read_hand_kind(
    alloc: Global,
    kind: u8,
    bytes: &[u8],
    place: u64,
) -> Result<(Change, u64), RecordFault>
    ensures { Answers (by_code value_at hand_kinds kind no_kind bytes.now place) result }
{
    match kind {
        10 => read_hand_opened(bytes, place),
        11 => {
            let ((peer, number), place) = read_peer_number(bytes, place)?;
            Ok((Change::HandCommitted { peer, number }, place))
        }
        12 => read_hand_refused(bytes, place),
        13 => read_hands_silent(alloc, bytes, place),
        14 => {
            let ((peer, number), place) = read_peer_number(bytes, place)?;
            Ok((Change::HandDone { peer, number }, place))
        }
        15 => read_old_promised(alloc, bytes, place),
        16 => {
            let ((peer, number), place) = read_peer_number(bytes, place)?;
            Ok((Change::Accepted { peer, number }, place))
        }
        17 => {
            let ((peer, number), place) = read_peer_number(bytes, place)?;
            Ok((Change::Dropped { peer, number }, place))
        }
        21 => read_stage_got(alloc, bytes, place),
        22 => {
            let ((peer, number), place) = read_peer_number(bytes, place)?;
            Ok((Change::StageGone { peer, number }, place))
        }
        24 => read_promised(alloc, bytes, place),
        _ => read_host_kind(alloc, kind, bytes, place),
    }
}
