//! How a failed call is counted.

ghost use Rattle.std.specs.Prelude.{◌≡◌, Ok, IfOk, OnOk};
ghost use Rattle.nqs_outside.specs.Causes.{HasCause};

use nqs_outside::Failed;
use std::io;

/// The answer of a call: where it failed, and only there, the count rises, and what was wrong is
/// not told.
pub(crate) fn counted<T: Drop>(made: io::Result<T>, faults: &mut u64) -> Result<T, Failed>
    ensures value { IfOk result (λ value. made ≡ Ok value) }
    ensures cause { HasCause faults.old faults.new result }
    ensures uncounted { OnOk result (faults.new ≡ faults.old) }
{
    match made {
        Ok(value) => Ok(value),
        Err(_) => {
            *faults = faults.saturating_add(1);
            Err(Failed)
        }
    }
}
