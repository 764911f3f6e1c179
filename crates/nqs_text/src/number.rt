//! Plain numbers: one or more decimal digits; leading zeros are allowed.

ghost use Rattle.std.specs.Prelude.{◌≡◌, ◌^◌, ◌≤◌, MatchOption};
ghost use Rattle.nqs_base.specs.Name.{is_digit};
ghost use Rattle.nqs_text.specs.Number.{decimal, first_other, ReadsNumber};

/// Why bytes are no number.
#[derive(Clone, Copy, Debug, PartialEq, Eq)]
pub enum NumberFault {
    /// There are no bytes.
    Empty,
    /// The place, from 0, of the first byte that is no digit.
    BadByte(u64),
    /// The number is past 18,446,744,073,709,551,615.
    TooLarge,
}

fn is_digit(byte: u8) -> bool
    ensures { result ≡ is_digit byte }
{
    byte.is_ascii_digit()
}

#[tactic(auto, unfolding(crate::specs::Number::first_other))]
fn first_other(bytes: &[u8]) -> Option<usize>
    ensures { result ≡ first_other bytes.now }
{
    bytes.iter().position(|byte| !is_digit(*byte))
}

/// The number that digits write; none where it is past 18,446,744,073,709,551,615. It takes no
/// memory.
pub fn decimal(bytes: &[u8]) -> Option<u64>
    ensures { MatchOption result (2 ^ 64 ≤ decimal bytes.now) (λ number. number ≡ decimal bytes.now) }
{
    let mut value = 0u64;
    for byte in bytes {
        let tens = value.checked_mul(10)?;
        value = tens.checked_add(byte.saturating_sub(b'0') as u64)?;
    }
    Some(value)
}

/// The number that the bytes write. It takes no memory.
pub fn read_u64(bytes: &[u8]) -> Result<u64, NumberFault>
    ensures { ReadsNumber bytes.now result }
{
    if bytes.is_empty() {
        return Err(NumberFault::Empty);
    }
    if let Some(place) = first_other(bytes) {
        return Err(NumberFault::BadByte(place as u64));
    }
    match decimal(bytes) {
        Some(number) => Ok(number),
        None => Err(NumberFault::TooLarge),
    }
}
