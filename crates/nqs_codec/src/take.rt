//! Fields that are taken from a place of a list, with the place behind them.
//!
//! A place may lie at or past the end of the list: nothing stands there, and the answer is `Short`.
//! No call takes memory.

ghost use Rattle.std.specs.Prelude.{◌≡◌, ◌<◌, ◌≤◌, ◌^◌, length, take, drop, IfOk, IfErr};
ghost use Rattle.nqs_codec.specs.Fields.{u8_field, u16_field, u32_field, u64_field};
ghost use Rattle.nqs_codec.specs.Takes.{TakesNumber, TakesBytes};

use crate::fault::Short;
use nqs_base::Extent;

/// What stands from the place on.
pub fn rest_at(bytes: &[u8], place: u64) -> &[u8]
    ensures { result.now ≡ drop place bytes.now }
{
    let start = place.min(bytes.len() as u64) as usize;
    &bytes[start..]
}

// That many bytes from the place on.
pub(crate) fn part_at(bytes: &[u8], place: u64, count: usize) -> Result<&[u8], Short>
    ensures part { IfOk result (λ part. part.now ≡ take count (drop place bytes.now)) }
    ensures whole { IfOk result (λ _. count ≤ length (drop place bytes.now)) }
    ensures end { IfErr result (λ short. short.0 ≡ length bytes.now) }
    ensures short { IfErr result (λ _. length (drop place bytes.now) < count) }
{
    let rest = rest_at(bytes, place);
    if rest.len() < count {
        return Err(Short(bytes.len() as u64));
    }
    Ok(&rest[..count])
}

/// The number of one byte at the place.
#[tactic(auto, unfolding(crate::specs::Fields::u8_field))]
pub fn take_u8(bytes: &[u8], place: u64) -> Result<(u8, u64), Short>
    ensures { TakesNumber (2 ^ 8) u8_field bytes.now place result }
{
    let Some((byte, _)) = rest_at(bytes, place).split_first() else {
        return Err(Short(bytes.len() as u64));
    };
    Ok((*byte, place + 1))
}

/// The number of two bytes at the place.
pub fn take_u16(bytes: &[u8], place: u64) -> Result<(u16, u64), Short>
    ensures { TakesNumber (2 ^ 16) u16_field bytes.now place result }
{
    let part = part_at(bytes, place, 2)?;
    Ok((u16::from_be_bytes([part[0], part[1]]), place + 2))
}

/// The number of four bytes at the place.
pub fn take_u32(bytes: &[u8], place: u64) -> Result<(u32, u64), Short>
    ensures { TakesNumber (2 ^ 32) u32_field bytes.now place result }
{
    let part = part_at(bytes, place, 4)?;
    let number = u32::from_be_bytes([part[0], part[1], part[2], part[3]]);
    Ok((number, place + 4))
}

/// The number of eight bytes at the place.
pub fn take_u64(bytes: &[u8], place: u64) -> Result<(u64, u64), Short>
    ensures { TakesNumber (2 ^ 64) u64_field bytes.now place result }
{
    let part = part_at(bytes, place, 8)?;
    let number = u64::from_be_bytes([
        part[0], part[1], part[2], part[3], part[4], part[5], part[6], part[7],
    ]);
    Ok((number, place + 8))
}

/// Where the bytes lie that stand at the place behind their length.
pub fn take_bytes(bytes: &[u8], place: u64) -> Result<(Extent, u64), Short>
    ensures { TakesBytes bytes.now place result }
{
    let (length, start) = take_u32(bytes, place)?;
    part_at(bytes, start, length as usize)?;
    let extent = Extent {
        place: start,
        length,
    };
    Ok((extent, start + u64::from(length)))
}
