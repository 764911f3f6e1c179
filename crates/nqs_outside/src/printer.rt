//! What feeds devices.

ghost use Rattle.std.specs.Prelude.{[], ◌∷◌, List, ℕ, is_ok};
ghost use Rattle.std.specs.declared.option.Option.{Option};
ghost use Rattle.nqs_outside.specs.Causes.{HasCause};
ghost use Rattle.nqs_outside.specs.Told.{Extends};

use crate::source::Failed;
use nqs_base::Name;
use nqs_types::LaunchOrder;

/// What feeds devices.
pub trait Printer {
    ghost use Rattle.nqs_outside.specs.Asked.{Print, printed};

    /// What was to be printed, with its answers, where it tells it. A real one doesn't.
    ghost prints: { Self → Option (List Print) };

    /// How often a call has failed.
    ghost faults: { Self → ℕ };

    /// Prints the bytes of a request on a device. At `Ok` the device has them.
    fn print(&mut self, device: &Name, order: &LaunchOrder, bytes: &[u8]) -> Result<(), Failed>
        ensures prints { Extends (prints self.old) (prints self.new) (printed device.now order.now bytes.now (is_ok result) ∷ []) }
        ensures cause { HasCause (faults self.old) (faults self.new) result };
}
