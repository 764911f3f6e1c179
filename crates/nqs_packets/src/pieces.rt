//! The kind of datagram that is a piece of a long message, read and put.

ghost use Rattle.std.specs.Prelude.{◌≡◌, ◌∷◌, []};
ghost use Rattle.nqs_codec.specs.Fields.{u8_field, u16_field, u64_field, bytes_field};
ghost use Rattle.nqs_codec.specs.Takes.{IsLong};
ghost use Rattle.nqs_records.specs.Adds.{Adds};
ghost use Rattle.nqs_records.specs.Fields.{u8_at, u16_at, u32_at};
ghost use Rattle.nqs_records.specs.Reading.{Answers, within};
ghost use Rattle.nqs_records.specs.Spelling.{fields};
ghost use Rattle.nqs_packets.specs.Bodies.{piece_at};
ghost use Rattle.nqs_packets.specs.Parts.{is_piece_kind, is_piece_port, is_piece_count, is_piece_length, bytes_at};

use crate::part::{read_number, read_run};
use nqs_base::{Bytes, Memory};
use nqs_codec::{put_bytes, put_u8, put_u16, put_u64};
use nqs_records::{RecordFault, read_u8, read_u16, read_u32};
use nqs_types::Body;
use std::alloc::Global;

fn is_kind(kind: u8) -> bool
    ensures { result ≡ is_piece_kind kind }
{
    kind == 1 || kind == 10
}

fn read_kind(bytes: &[u8], place: u64) -> Result<(u8, u64), RecordFault>
    ensures { result ≡ within is_piece_kind u8_at bytes.now place }
{
    let (kind, next) = read_u8(bytes, place)?;
    if is_kind(kind) {
        Ok((kind, next))
    } else {
        Err(RecordFault::BadField(place))
    }
}

fn is_port(kind: u8, port: u16) -> bool
    ensures { result ≡ is_piece_port kind port }
{
    kind == 10 || port == 0
}

fn read_port(bytes: &[u8], place: u64, kind: u8) -> Result<(u16, u64), RecordFault>
    ensures { result ≡ within (is_piece_port kind) u16_at bytes.now place }
{
    let (port, next) = read_u16(bytes, place)?;
    if is_port(kind, port) {
        Ok((port, next))
    } else {
        Err(RecordFault::BadField(place))
    }
}

fn is_count(index: u8, count: u8) -> bool
    ensures { result ≡ is_piece_count index count }
{
    2 <= count && count <= 22 && index < count
}

fn read_count(bytes: &[u8], place: u64, index: u8) -> Result<(u8, u64), RecordFault>
    ensures { result ≡ within (is_piece_count index) u8_at bytes.now place }
{
    let (count, next) = read_u8(bytes, place)?;
    if is_count(index, count) {
        Ok((count, next))
    } else {
        Err(RecordFault::BadField(place))
    }
}

fn is_length(index: u8, count: u8, length: u32) -> bool
    ensures { result ≡ is_piece_length index count length }
{
    if u16::from(index) + 1 < u16::from(count) {
        length == 48_000
    } else {
        1 <= length && length <= 48_000
    }
}

fn read_length(bytes: &[u8], place: u64, index: u8, count: u8) -> Result<(u32, u64), RecordFault>
    ensures { result ≡ within (is_piece_length index count) u32_at bytes.now place }
{
    let (length, next) = read_u32(bytes, place)?;
    if is_length(index, count, length) {
        Ok((length, next))
    } else {
        Err(RecordFault::BadField(place))
    }
}

// As many bytes as a piece has at its place.
#[tactic(auto, unfolding(crate::specs::Parts::bytes_at))]
fn read_part(
    alloc: Global,
    bytes: &[u8],
    place: u64,
    index: u8,
    count: u8,
) -> Result<(Bytes, u64), RecordFault>
    ensures { Answers (bytes_at (is_piece_length index count) bytes.now place) result }
{
    let (length, next) = read_length(bytes, place, index, count)?;
    read_run(alloc, bytes, next, length)
}

#[tactic(auto, unfolding(crate::specs::Bodies::piece_at))]
pub(crate) fn read_piece(
    alloc: Global,
    bytes: &[u8],
    place: u64,
) -> Result<(Body, u64), RecordFault>
    ensures { Answers (piece_at bytes.now place) result }
{
    let (kind, place) = read_kind(bytes, place)?;
    let (port, place) = read_port(bytes, place, kind)?;
    let (number, place) = read_number(bytes, place)?;
    let (index, place) = read_u8(bytes, place)?;
    let (count, place) = read_count(bytes, place, index)?;
    let (part, place) = read_part(alloc, bytes, place, index, count)?;
    let body = Body::Piece {
        kind,
        port,
        number,
        index,
        count,
        bytes: part,
    };
    Ok((body, place))
}

#[tactic(auto, using(crate::proofs::Joined::joined))]
pub(crate) fn put_piece(
    kind: u8,
    port: u16,
    number: u64,
    place: (u8, u8),
    bytes: &[u8],
    out: &mut Vec<u8>,
) -> Result<(), Memory>
    requires { IsLong bytes.now }
    ensures { Adds out.old.items (fields (u8_field kind ∷ u16_field port ∷ u64_field number ∷ u8_field place.0 ∷ u8_field place.1 ∷ bytes_field bytes.now
        ∷ [])) result out.new.items }
{
    put_u8(kind, out)?;
    put_u16(port, out)?;
    put_u64(number, out)?;
    put_u8(place.0, out)?;
    put_u8(place.1, out)?;
    put_bytes(bytes, out)
}
