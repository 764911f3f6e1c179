//! Want of memory that `clap` tells of.

ghost use Rattle.std.specs.Prelude.{◌≡◌};
ghost use Rattle.clap.specs.Values.{kind_of};
ghost use Rattle.clap.specs.declared.error.kind.ErrorKind.TheVariants.{OutOfMemory};

use clap::Error;

/// `clap` was refused an allocation while it read the words: an error of `clap` that says so, and
/// no other.
#[derive(Drop)]
pub struct Unparsed {
    error: Error,
    ghost refused: { kind_of error ≡ OutOfMemory },
}

impl Unparsed {
    /// Of an error that says so.
    pub(crate) fn of_error(error: Error) -> Unparsed
        requires { kind_of error ≡ OutOfMemory }
    {
        Unparsed { error }
    }
}
