//! What runs one job to its end.

ghost use Rattle.std.specs.Prelude.{[], ◌∷◌, List, ℕ};
ghost use Rattle.std.specs.declared.option.Option.{Option};
ghost use Rattle.nqs_outside.specs.Causes.{HasCause};
ghost use Rattle.nqs_outside.specs.Told.{Extends};

use crate::source::Failed;
use nqs_base::Bytes;
use nqs_types::RequestId;

/// How a job ended: its exit status, its output, and its error output.
#[derive(Drop)]
pub struct RunEnd {
    pub status: u8,
    pub out: Bytes,
    pub err: Bytes,
}

/// What runs one job to its end.
pub trait Runner {
    ghost use Rattle.nqs_outside.specs.Asked.{Job, ran, end_of};

    /// The jobs that were to be run, with their ends, where it tells them. A real one doesn't.
    ghost runs: { Self → Option (List Job) };

    /// How often a call has failed.
    ghost faults: { Self → ℕ };

    /// Runs the job of this start to its end.
    fn run(&mut self, id: RequestId, start: u16) -> Result<RunEnd, Failed>
        ensures runs { Extends (runs self.old) (runs self.new) (ran id start (end_of result) ∷ []) }
        ensures cause { HasCause (faults self.old) (faults self.new) result };
}
