//! Want of memory, as a value that nobody can feign: only a refused allocation makes one.

ghost use Rattle.std.specs.Prelude.{◌≡◌, ◌↔◌, IsSome};
ghost use Rattle.std.specs.IoError.{error_kind};
ghost use Rattle.std.specs.declared.io.ErrorKind.TheVariants.{OutOfMemory};
ghost use Rattle.nqs_base.specs.Want.{want};

use std::alloc::{AllocError, AllocFailed};
use std::io;
use std::io::ErrorKind;

/// An allocation was refused. It is made of the allocator's own error, or of one of the machine
/// that tells of it: its field is private, and it is neither `Clone` nor `Copy`. So who answers
/// with one was refused an allocation, or was handed one by who was.
#[derive(Debug, PartialEq, Eq, Drop)]
pub struct Memory {
    refused: (),
}

impl Memory {
    /// That of an error of the machine, where it says that an allocation was refused.
    pub fn of_error(error: &io::Error) -> Option<Memory>
        ensures { IsSome result ↔ (error_kind error.now ≡ OutOfMemory) }
    {
        match error.kind() {
            ErrorKind::OutOfMemory => Some(Memory { refused: () }),
            _ => None,
        }
    }
}

impl From<AllocError> for Memory {
    ghost from_gives = { λ _ memory. memory ≡ want };

    fn from(_: AllocError) -> Memory {
        Memory { refused: () }
    }
}

impl<T: Drop> From<AllocFailed<T>> for Memory {
    ghost from_gives = { λ _ memory. memory ≡ want };

    fn from(_: AllocFailed<T>) -> Memory {
        Memory { refused: () }
    }
}
