//! Times and sizes, as a number or none.

ghost use Rattle.std.specs.Prelude.{◌≡◌};
ghost use Rattle.nqs_words.specs.Amounts.{time_of, size_of};

use nqs_limits::{read_size, read_time};

/// The seconds that a time writes: `S`, `M:S` or `H:M:S`.
#[tactic(auto, unfolding(crate::specs::Amounts::time_of))]
pub fn time_of(bytes: &[u8]) -> Option<u64>
    ensures { result ≡ time_of bytes.now }
{
    match read_time(bytes) {
        Ok(seconds) => Some(seconds),
        Err(_) => None,
    }
}

/// The bytes that a size writes: digits and `b`, `kb`, `mb` or `gb`.
#[tactic(auto, unfolding(crate::specs::Amounts::size_of))]
pub fn size_of(bytes: &[u8]) -> Option<u64>
    ensures { result ≡ size_of bytes.now }
{
    match read_size(bytes) {
        Ok(size) => Some(size),
        Err(_) => None,
    }
}
