//! What a word may say: a name, a number, a request or a destination. No call takes memory.

ghost use Rattle.std.specs.Prelude.{◌≡◌, ◌<◌, ◌≤◌, length, IfSome};
ghost use Rattle.nqs_words.specs.Values.{name_of, number_of, seq_of, begins_with_zero, place_of, split_named, named_of, split_dest, dest_of};

use nqs_base::Name;
use nqs_text::read_u64;
use nqs_types::{Named, NamedDest};

/// Why a word is no request.
#[derive(Clone, Copy, PartialEq, Eq)]
pub enum NotNamed {
    /// What stands before its first point is no sequence number.
    BadNumber,
    /// It is, but no point and name follow.
    BadName,
}

/// The bytes as a name.
pub fn name_of(bytes: &[u8]) -> Option<Name>
    ensures { result ≡ name_of bytes.now }
{
    match Name::read(bytes) {
        Ok(name) => Some(name),
        Err(_) => None,
    }
}

/// The number that plain digits write, where it lies between these two. Zeros may stand in front.
#[tactic(auto, unfolding(crate::specs::Values::number_of))]
pub fn number_of(low: u64, high: u64, bytes: &[u8]) -> Option<u64>
    ensures number { result ≡ number_of low high bytes.now }
    ensures bound { IfSome result (λ n. n ≤ high) }
{
    match read_u64(bytes) {
        Ok(number) => {
            if low <= number && number <= high {
                Some(number)
            } else {
                None
            }
        }
        Err(_) => None,
    }
}

fn begins_with_zero(bytes: &[u8]) -> bool
    ensures { result ≡ begins_with_zero bytes.now }
{
    match bytes.split_first() {
        Some((byte, _)) => *byte == b'0',
        None => false,
    }
}

/// A sequence number: plain digits without a zero in front, from 1 to 4,294,967,294.
#[tactic(auto, unfolding(crate::specs::Values::seq_of))]
pub fn seq_of(bytes: &[u8]) -> Option<u32>
    ensures { result ≡ seq_of bytes.now }
{
    if begins_with_zero(bytes) {
        return None;
    }
    match number_of(1, 4_294_967_294, bytes) {
        Some(number) => Some(number as u32),
        None => None,
    }
}

/// Where a byte comes first.
#[tactic(auto, unfolding(crate::specs::Values::place_of))]
pub fn place_of(byte: u8, bytes: &[u8]) -> Option<usize>
    ensures place { result ≡ place_of byte bytes.now }
    ensures bound { IfSome result (λ place. place < length bytes.now) }
{
    bytes.iter().position(|b| *b == byte)
}

/// The bytes as a request, `SEQ.HOST`.
#[tactic(auto, unfolding(crate::specs::Values::named_of))]
pub fn named_of(bytes: &[u8]) -> Result<Named, NotNamed>
    ensures { result ≡ named_of bytes.now }
{
    let Some(point) = place_of(b'.', bytes) else {
        return match seq_of(bytes) {
            Some(_) => Err(NotNamed::BadName),
            None => Err(NotNamed::BadNumber),
        };
    };
    let Some(seq) = seq_of(&bytes[..point]) else {
        return Err(NotNamed::BadNumber);
    };
    match name_of(&bytes[point + 1..]) {
        Some(host) => Ok(Named { seq, host }),
        None => Err(NotNamed::BadName),
    }
}

/// The bytes as a destination, `QUEUE@HOST`.
#[tactic(auto, unfolding(crate::specs::Values::dest_of))]
pub fn dest_of(bytes: &[u8]) -> Option<NamedDest>
    ensures { result ≡ dest_of bytes.now }
{
    let sign = place_of(b'@', bytes)?;
    let queue = name_of(&bytes[..sign])?;
    let host = name_of(&bytes[sign + 1..])?;
    Some(NamedDest { queue, host })
}
