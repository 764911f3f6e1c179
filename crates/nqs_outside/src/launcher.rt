//! What starts jobs.

ghost use Rattle.std.specs.Prelude.{◌≤◌, [], ◌∷◌, List, ℕ, is_ok};
ghost use Rattle.std.specs.declared.option.Option.{Option};
ghost use Rattle.nqs_outside.specs.Causes.{HasCause};
ghost use Rattle.nqs_outside.specs.Told.{Extends};

use crate::source::Failed;
use nqs_types::{LaunchOrder, RequestId};

/// What starts jobs, and ends them before their time. A job's end comes as a datagram.
pub trait Launcher {
    ghost use Rattle.nqs_outside.specs.Asked.{Asked, launched, killed};

    /// What it was asked, with its answers, where it tells it. A real one doesn't.
    ghost asked: { Self → Option (List Asked) };

    /// How often a call has failed.
    ghost faults: { Self → ℕ };

    /// Starts a job with this script.
    fn launch(&mut self, order: &LaunchOrder, script: &[u8]) -> Result<(), Failed>
        ensures asked { Extends (asked self.old) (asked self.new) (launched order.now script.now (is_ok result) ∷ []) }
        ensures cause { HasCause (faults self.old) (faults self.new) result };

    /// Tells the job of this start to end. It says nothing where that job has ended already.
    fn kill(&mut self, id: RequestId, start: u16) -> Result<(), Failed>
        ensures asked { Extends (asked self.old) (asked self.new) (killed id start (is_ok result) ∷ []) }
        ensures cause { HasCause (faults self.old) (faults self.new) result };

    /// Tries once more what it was asked to start or to end and a shortage of the system has kept
    /// back. It is asked for nothing by it.
    fn tend(&mut self)
        ensures asked { Extends (asked self.old) (asked self.new) [] }
        ensures later { faults self.old ≤ faults self.new };
}
