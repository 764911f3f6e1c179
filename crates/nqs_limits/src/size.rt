//! Sizes as they are typed: digits and one of the units `b`, `kb`, `mb` and `gb`, which are powers
//! of 1,024.
ghost use Rattle.std.specs.Prelude.{◌≡◌, ◌<◌, ◌≤◌, length, IfSome};
ghost use Rattle.nqs_limits.specs.Size.{digits_end, unit, size_unit, ReadsSize};

use nqs_text::{NumberFault, decimal, read_u64};

// Where the digits end.
fn digits_end(bytes: &[u8]) -> usize
    ensures end { result ≡ digits_end bytes.now }
    ensures within { result ≤ length bytes.now }
{
    match read_u64(bytes) {
        Ok(_) => bytes.len(),
        Err(NumberFault::Empty) => 0,
        Err(NumberFault::BadByte(place)) => place as usize,
        Err(NumberFault::TooLarge) => bytes.len(),
    }
}

// How many bytes a unit is.
fn unit(bytes: &[u8]) -> Option<u64>
    ensures unit { result ≡ unit bytes.now }
    ensures some { IfSome result (λ n. 0 < n) }
{
    if b"b".as_slice() == bytes {
        return Some(1);
    }
    if b"kb".as_slice() == bytes {
        return Some(1_024);
    }
    if b"mb".as_slice() == bytes {
        return Some(1_048_576);
    }
    if b"gb".as_slice() == bytes {
        return Some(1_073_741_824);
    }
    None
}

// The unit behind some digits.
fn size_unit(bytes: &[u8], end: usize) -> Option<u64>
    requires end { end ≡ digits_end bytes.now }
    requires within { end ≤ length bytes.now }
    ensures unit { result ≡ size_unit bytes.now }
    ensures some { IfSome result (λ n. 0 < n) }
{
    if end == 0 {
        return None;
    }
    unit(&bytes[end..])
}

/// The bytes that the text writes. `Empty`: there are no bytes. `BadByte`: the place, from 0, where
/// the digits end, and there is no digit before it or no unit behind it. `TooLarge`: it is a size
/// of more than 18,446,744,073,709,551,615 bytes.
pub fn read_size(bytes: &[u8]) -> Result<u64, NumberFault>
    ensures { ReadsSize bytes.now result }
{
    if bytes.is_empty() {
        return Err(NumberFault::Empty);
    }
    let end = digits_end(bytes);
    let Some(unit) = size_unit(bytes, end) else {
        return Err(NumberFault::BadByte(end as u64));
    };
    let Some(number) = decimal(&bytes[..end]) else {
        return Err(NumberFault::TooLarge);
    };
    match number.checked_mul(unit) {
        Some(size) => Ok(size),
        None => Err(NumberFault::TooLarge),
    }
}
