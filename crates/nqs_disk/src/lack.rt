//! Why a disk in memory didn't keep a call, as values that nobody can feign.

ghost use Rattle.std.specs.Prelude.{◌≡◌, ◌+◌, ◌^◌, ◌<◌, length};
ghost use Rattle.nqs_base.specs.Want.{want};
ghost use Rattle.nqs_disk.specs.Lack.{full};
ghost use Rattle.nqs_disk.specs.declared.lack.Lack.TheVariants as lack;

use nqs_base::Memory;
use std::alloc::{AllocError, AllocFailed};

/// A write would have ended past 2^40 bytes. Its field is private, and it is neither `Clone` nor
/// `Copy`, so a disk in memory alone makes one, at such a write.
#[derive(Debug, PartialEq, Eq, Drop)]
pub struct Full {
    past: (),
}

/// Why a call of a disk in memory was not kept.
#[derive(Debug, PartialEq, Eq, Drop)]
pub enum Lack {
    Memory(Memory),
    Full(Full),
}

// What a write lacks that would end past the greatest length.
pub(crate) fn past_the_end(_place: u64, _bytes: &[u8]) -> Full
    requires { 2 ^ 40 < _place + length _bytes.now }
    ensures { result ≡ full }
{
    Full { past: () }
}

impl From<Memory> for Lack {
    ghost from_gives = { λ _ l. l ≡ lack.Memory want };

    fn from(memory: Memory) -> Lack {
        Lack::Memory(memory)
    }
}

impl From<AllocError> for Lack {
    ghost from_gives = { λ _ l. l ≡ lack.Memory want };

    fn from(refused: AllocError) -> Lack {
        Lack::Memory(refused.into())
    }
}

impl<T: Drop> From<AllocFailed<T>> for Lack {
    ghost from_gives = { λ _ l. l ≡ lack.Memory want };

    fn from(refused: AllocFailed<T>) -> Lack {
        Lack::Memory(refused.into())
    }
}

impl From<Full> for Lack {
    ghost from_gives = { λ _ l. l ≡ lack.Full full };

    fn from(past: Full) -> Lack {
        Lack::Full(past)
    }
}
