//! Where outputs of jobs go.

ghost use Rattle.std.specs.Prelude.{[], ◌∷◌, List, ℕ, is_ok};
ghost use Rattle.std.specs.declared.option.Option.{Option};
ghost use Rattle.nqs_outside.specs.Causes.{HasCause};
ghost use Rattle.nqs_outside.specs.Told.{Extends};

use crate::source::Failed;

/// Where outputs of jobs go.
pub trait Outlet {
    ghost use Rattle.nqs_outside.specs.Asked.{Filing, filed};

    /// The files that were to be written, with the answers, where it tells them. A real one
    /// doesn't.
    ghost filings: { Self → Option (List Filing) };

    /// How often a call has failed.
    ghost faults: { Self → ℕ };

    /// Writes a file at a path below the outlet's folder, in place of one that was there. At `Ok`
    /// it outlasts a stop.
    fn write_file(&mut self, path: &[u8], bytes: &[u8]) -> Result<(), Failed>
        ensures filings { Extends (filings self.old) (filings self.new) (filed path.now bytes.now (is_ok result) ∷ []) }
        ensures cause { HasCause (faults self.old) (faults self.new) result };
}
