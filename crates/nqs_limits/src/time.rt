//! Times as they are typed: `S`, `M:S` or `H:M:S`.
//!
//! Each part is one or more digits, with leading zeros or without. The first may be any number, a
//! later one is below 60. A fourth part is no part: the colon before it is a wrong byte.
ghost use Rattle.std.specs.Prelude.{◌≡◌, ◌+◌, ◌*◌, ◌^◌, ◌<◌, ◌≤◌, length, nat_le, IfSome, MatchOption};
ghost use Rattle.nqs_text.specs.Number.{decimal};
ghost use Rattle.nqs_limits.specs.Time.{first_colon, part_fault, later_fault, later_faults, time_fault, later_seconds, seconds, ReadsTime};

use nqs_text::{NumberFault, decimal, read_u64};

#[tactic(auto, unfolding(crate::specs::Time::first_colon))]
fn first_colon(bytes: &[u8]) -> Option<usize>
    ensures place { result ≡ first_colon bytes.now }
    ensures within { IfSome result (λ colon. colon < length bytes.now) }
{
    bytes.iter().position(|byte| *byte == b':')
}

// What is wrong with a part that begins at a place.
fn part_fault(place: u64, part: &[u8]) -> Option<u64>
    requires { place + length part.now < 2 ^ 64 }
    ensures { result ≡ part_fault place part.now }
{
    match read_u64(part) {
        Ok(_) => None,
        Err(NumberFault::Empty) => Some(place),
        Err(NumberFault::BadByte(other)) => Some(place + other),
        Err(NumberFault::TooLarge) => None,
    }
}

fn is_sixty(part: &[u8]) -> bool
    ensures { result ≡ nat_le 60 (decimal part.now) }
{
    match decimal(part) {
        Some(number) => number >= 60,
        None => true,
    }
}

fn later_fault(place: u64, part: &[u8]) -> Option<u64>
    requires { place + length part.now < 2 ^ 64 }
    ensures { result ≡ later_fault place part.now }
{
    match part_fault(place, part) {
        Some(fault) => Some(fault),
        None => { if is_sixty(part) { Some(place) } else { None } }
    }
}

// What is wrong with the minutes and seconds.
fn later_faults(place: u64, bytes: &[u8]) -> Option<u64>
    requires { place + length bytes.now < 2 ^ 64 }
    ensures { result ≡ later_faults (first_colon bytes.now) place bytes.now }
{
    match first_colon(bytes) {
        None => later_fault(place, bytes),
        Some(colon) => {
            let second = later_fault(place + colon as u64 + 1, &bytes[colon + 1..]);
            later_fault(place, &bytes[..colon]).or(second)
        }
    }
}

fn time_fault(bytes: &[u8]) -> Option<u64>
    ensures { result ≡ time_fault bytes.now }
{
    match first_colon(bytes) {
        None => part_fault(0, bytes),
        Some(colon) => {
            let later = later_faults(colon as u64 + 1, &bytes[colon + 1..]);
            part_fault(0, &bytes[..colon]).or(later)
        }
    }
}

// Sixty times what stands before, and a part.
fn sixties(before: u64, part: &[u8]) -> Option<u64>
    ensures { MatchOption result (2 ^ 64 ≤ before * 60 + decimal part.now) (λ n. n ≡ before * 60 + decimal part.now) }
{
    let part = decimal(part)?;
    before.checked_mul(60)?.checked_add(part)
}

fn later_seconds(before: u64, bytes: &[u8]) -> Option<u64>
    ensures { MatchOption result (2 ^ 64 ≤ later_seconds (first_colon bytes.now) before bytes.now)
        (λ n. n ≡ later_seconds (first_colon bytes.now) before bytes.now) }
{
    match first_colon(bytes) {
        None => sixties(before, bytes),
        Some(colon) => {
            let minutes = sixties(before, &bytes[..colon])?;
            sixties(minutes, &bytes[colon + 1..])
        }
    }
}

fn seconds(bytes: &[u8]) -> Option<u64>
    ensures { MatchOption result (2 ^ 64 ≤ seconds bytes.now) (λ n. n ≡ seconds bytes.now) }
{
    match first_colon(bytes) {
        None => decimal(bytes),
        Some(colon) => {
            let first = decimal(&bytes[..colon])?;
            later_seconds(first, &bytes[colon + 1..])
        }
    }
}

/// The seconds that the bytes write. `Empty`: there are no bytes. `BadByte`: the first place, from
/// 0, where they are no time: of a byte that isn't a digit, of a part that is 60 or more and not
/// the first, or where a part is missing. `TooLarge`: they are a time of more than
/// 18,446,744,073,709,551,615 seconds.
pub fn read_time(bytes: &[u8]) -> Result<u64, NumberFault>
    ensures { ReadsTime bytes.now result }
{
    if bytes.is_empty() {
        return Err(NumberFault::Empty);
    }
    if let Some(place) = time_fault(bytes) {
        return Err(NumberFault::BadByte(place));
    }
    match seconds(bytes) {
        Some(n) => Ok(n),
        None => Err(NumberFault::TooLarge),
    }
}
