//! Fields whose bytes are tested: yes and no, names and paths.
//!
//! A field is read from its front, and its first fault is answered. A byte of length, or a yes or
//! no, that is not there is `Short`; one that is not allowed is `Bad` at its place. Where a length
//! is allowed and its bytes are not all there the answer is `Short`, before any of them is looked
//! at. No call takes memory.

ghost use Rattle.std.specs.Prelude.{◌≡◌, ◌≤◌, length, IfOk, IfErr, IfSome, IfNone};
ghost use Rattle.nqs_base.specs.Path.{path_allowed_at, PathAllowedBelow, IsFirstBadOfPath};
ghost use Rattle.nqs_codec.specs.Takes.{TakesBool, TakesName, TakesPath, IsShortAt, IsShortFault};

use crate::fault::FieldFault;
use crate::take::{part_at, take_u8};
use nqs_base::{Extent, Name, NameFault, has_parent, is_visible};

/// The yes or no at the place.
pub fn take_bool(bytes: &[u8], place: u64) -> Result<(bool, u64), FieldFault>
    ensures { TakesBool bytes.now place result }
{
    let (byte, next) = take_u8(bytes, place)?;
    match byte {
        0 => Ok((false, next)),
        1 => Ok((true, next)),
        _ => Err(FieldFault::Bad(place)),
    }
}

/// Whether something follows the tag at the place.
pub fn take_opt_tag(bytes: &[u8], place: u64) -> Result<(bool, u64), FieldFault>
    ensures { TakesBool bytes.now place result }
{
    take_bool(bytes, place)
}

// The bytes behind a byte of length, which is at least 1.
fn short_at(bytes: &[u8], place: u64, most: u8) -> Result<&[u8], FieldFault>
    ensures found { IfOk result (λ value. IsShortAt most bytes.now place value.now) }
    ensures fault { IfErr result (IsShortFault most bytes.now place) }
{
    let (count, start) = take_u8(bytes, place)?;
    if count == 0 {
        return Err(FieldFault::Bad(place));
    }
    if count > most {
        return Err(FieldFault::Bad(place));
    }
    let value = part_at(bytes, start, count as usize)?;
    Ok(value)
}

/// The name at the place.
pub fn take_name(bytes: &[u8], place: u64) -> Result<(Name, u64), FieldFault>
    ensures { TakesName bytes.now place result }
{
    let value = short_at(bytes, place, 15)?;
    match Name::read(value) {
        Ok(name) => Ok((name, place + 1 + value.len() as u64)),
        Err(NameFault::BadByte(offset)) => Err(FieldFault::Bad(place + 1 + offset)),
        Err(NameFault::Empty) => unreachable!(),
        Err(NameFault::Long) => unreachable!(),
    }
}

fn may_begin_path(byte: u8) -> bool
    ensures { result ≡ path_allowed_at 0 byte }
{
    is_visible(byte) && byte != b'/'
}

// The place of the first byte that may not stand there in a path.
fn first_bad(path: &[u8]) -> Option<usize>
    ensures none { IfNone result (PathAllowedBelow path.now (length path.now)) }
    ensures some { IfSome result (IsFirstBadOfPath path.now) }
{
    for (i, byte) in path.iter().enumerate() {
        let allowed = if i == 0 {
            may_begin_path(*byte)
        } else {
            is_visible(*byte)
        };
        if !allowed {
            return Some(i);
        }
    }
    None
}

/// Where the path lies that stands at the place. A component `..` is `Bad` at the place of the
/// length.
pub fn take_path(bytes: &[u8], place: u64) -> Result<(Extent, u64), FieldFault>
    ensures { TakesPath bytes.now place result }
{
    let path = short_at(bytes, place, 255)?;
    if let Some(offset) = first_bad(path) {
        return Err(FieldFault::Bad(place + 1 + offset as u64));
    }
    if has_parent(path) {
        return Err(FieldFault::Bad(place));
    }
    let extent = Extent {
        place: place + 1,
        length: path.len() as u32,
    };
    Ok((extent, place + 1 + path.len() as u64))
}
