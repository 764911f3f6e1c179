//! What records are made of: hosts, requests, extents, paths, jobs and what may be left out.

ghost use Rattle.std.specs.Prelude.{◌≡◌, ◌<◌};
ghost use Rattle.nqs_base.specs.Extents.{extent_bytes};
ghost use Rattle.nqs_codec.specs.Takes.{IsExtentAt};
ghost use Rattle.nqs_records.specs.Reading.{Answers};
ghost use Rattle.nqs_records.specs.Fields.{u64_at, name_at, path_at, opt_at};
ghost use Rattle.nqs_records.specs.Parts.{host_at, seq_at, id_at, extent_within, script_at, output_at, part_at, hand_at, low_at};

use crate::fault::RecordFault;
use crate::field::{as_fault, read_bool, read_name, read_u8, read_u32, read_u64};
use nqs_base::{Bytes, Extent, Name};
use nqs_codec::take_path;
use nqs_types::{HostId, LONGEST_SCRIPT, OutPart, PeerNumber, RequestId};
use std::alloc::Global;

/// The number of eight bytes at the place, or nothing.
#[tactic(auto, unfolding(crate::specs::Fields::opt_at))]
pub fn read_opt_u64(bytes: &[u8], place: u64) -> Result<(Option<u64>, u64), RecordFault>
    ensures { result ≡ opt_at u64_at bytes.now place }
{
    let (is_there, next) = read_bool(bytes, place)?;
    if !is_there {
        return Ok((None, next));
    }
    let (value, end) = read_u64(bytes, next)?;
    Ok((Some(value), end))
}

/// The name at the place, or nothing.
#[tactic(auto, unfolding(crate::specs::Fields::opt_at))]
pub fn read_opt_name(bytes: &[u8], place: u64) -> Result<(Option<Name>, u64), RecordFault>
    ensures { result ≡ opt_at name_at bytes.now place }
{
    let (is_there, next) = read_bool(bytes, place)?;
    if !is_there {
        return Ok((None, next));
    }
    let (name, end) = read_name(bytes, next)?;
    Ok((Some(name), end))
}

/// The host at the place.
#[tactic(auto, unfolding(crate::specs::Parts::host_at))]
pub fn read_host(bytes: &[u8], place: u64) -> Result<(HostId, u64), RecordFault>
    ensures { result ≡ host_at bytes.now place }
{
    let (host, next) = read_u8(bytes, place)?;
    if host < 16 {
        Ok((HostId(host), next))
    } else {
        Err(RecordFault::BadField(place))
    }
}

/// The name of a request at the place.
#[tactic(auto, unfolding(crate::specs::Parts::id_at))]
pub fn read_id(bytes: &[u8], place: u64) -> Result<(RequestId, u64), RecordFault>
    ensures { result ≡ id_at bytes.now place }
{
    let (seq, next) = read_seq(bytes, place)?;
    let (host, end) = read_host(bytes, next)?;
    Ok((RequestId { seq, host }, end))
}

#[tactic(auto, unfolding(crate::specs::Parts::seq_at))]
pub(crate) fn read_seq(bytes: &[u8], place: u64) -> Result<(u32, u64), RecordFault>
    ensures { result ≡ seq_at bytes.now place }
{
    let (seq, next) = read_u32(bytes, place)?;
    if 1 <= seq && seq <= 4_294_967_294 {
        Ok((seq, next))
    } else {
        Err(RecordFault::BadField(place))
    }
}

#[tactic(auto, unfolding(crate::specs::Parts::extent_within))]
fn read_within(bytes: &[u8], place: u64, limit: u32) -> Result<(Extent, u64), RecordFault>
    ensures { result ≡ extent_within limit bytes.now place }
{
    let (start, next) = read_u64(bytes, place)?;
    let (length, end) = read_u32(bytes, next)?;
    if length <= limit {
        Ok((
            Extent {
                place: start,
                length,
            },
            end,
        ))
    } else {
        Err(RecordFault::BadField(next))
    }
}

/// The range of a spool at the place, of one script.
pub fn read_script(bytes: &[u8], place: u64) -> Result<(Extent, u64), RecordFault>
    ensures { result ≡ script_at bytes.now place }
{
    read_within(bytes, place, LONGEST_SCRIPT)
}

/// The range of a spool at the place, of one output.
pub fn read_output(bytes: &[u8], place: u64) -> Result<(Extent, u64), RecordFault>
    ensures { result ≡ output_at bytes.now place }
{
    read_within(bytes, place, 32_768)
}

#[tactic(auto, unfolding(crate::specs::Parts::hand_at))]
pub(crate) fn read_hand(bytes: &[u8], place: u64) -> Result<(PeerNumber, u64), RecordFault>
    ensures { result ≡ hand_at bytes.now place }
{
    let (peer, next) = read_host(bytes, place)?;
    let (number, end) = read_u64(bytes, next)?;
    Ok((PeerNumber { peer, number }, end))
}

/// The low of a handover at the place: from 1 to the handover's number.
#[tactic(auto, unfolding(crate::specs::Parts::low_at))]
pub fn read_low(bytes: &[u8], place: u64, number: u64) -> Result<(u64, u64), RecordFault>
    ensures { result ≡ low_at number bytes.now place }
{
    let (low, next) = read_u64(bytes, place)?;
    if 1 <= low && low <= number {
        Ok((low, next))
    } else {
        Err(RecordFault::BadField(place))
    }
}

// The bytes of an extent that lies within.
fn slice_of(bytes: &[u8], extent: Extent) -> &[u8]
    requires inside { IsExtentAt bytes.now extent.place extent }
    requires some { 0 < extent.length }
    ensures { result.now ≡ extent_bytes bytes.now extent }
{
    let start = extent.place as usize;
    &bytes[start..start + extent.length as usize]
}

/// The path at the place.
pub fn read_path(alloc: Global, bytes: &[u8], place: u64) -> Result<(Bytes, u64), RecordFault>
    ensures { Answers (path_at bytes.now place) result }
{
    match take_path(bytes, place) {
        Ok((extent, next)) => {
            let path = Vec::from_slice(alloc, slice_of(bytes, extent))?;
            Ok((Bytes::from_vec(path), next))
        }
        Err(fault) => Err(as_fault(fault)),
    }
}

#[tactic(auto, unfolding(crate::specs::Parts::part_at))]
pub(crate) fn read_part(
    alloc: Global,
    bytes: &[u8],
    place: u64,
) -> Result<(OutPart, u64), RecordFault>
    ensures { Answers (part_at bytes.now place) result }
{
    let (path, next) = read_path(alloc, bytes, place)?;
    let (extent, end) = read_output(bytes, next)?;
    Ok((
        OutPart {
            path,
            bytes: extent,
        },
        end,
    ))
}
