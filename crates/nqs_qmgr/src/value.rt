//! Amounts that limits take.

ghost use Rattle.std.specs.Prelude.{◌≡◌};
ghost use Rattle.nqs_qmgr.specs.Heads.{amount_of, limit_of};

use nqs_words::{number_of, size_of, time_of};

/// What a limit counts.
#[derive(Clone, Copy)]
pub enum Amount {
    /// Requests, from 0 to 10,000.
    Count,
    /// Seconds of processor time.
    Time,
    /// Bytes of memory.
    Size,
}

fn amount_of(amount: Amount, bytes: &[u8]) -> Option<u64>
    ensures { result ≡ amount_of amount bytes.now }
{
    match amount {
        Amount::Count => number_of(0, 10_000, bytes),
        Amount::Time => time_of(bytes),
        Amount::Size => size_of(bytes),
    }
}

/// An amount, or `none`, which is `Some(None)`.
#[tactic(auto, unfolding(crate::specs::Heads::limit_of))]
pub(crate) fn limit_of(amount: Amount, bytes: &[u8]) -> Option<Option<u64>>
    ensures { result ≡ limit_of amount bytes.now }
{
    if b"none".as_slice() == bytes {
        return Some(None);
    }
    match amount_of(amount, bytes) {
        Some(number) => Some(Some(number)),
        None => None,
    }
}
