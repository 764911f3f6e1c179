//! A file of this host was written, or not.
ghost use Rattle.std.specs.Prelude.{◌≡◌, Ok};
ghost use Rattle.nqs_state.specs.State.{content};
ghost use Rattle.nqs_rules.specs.Stepped.{plan_of};
ghost use Rattle.nqs_stage.specs.Files.{on_file};

use nqs_base::Memory;
use nqs_plans::{change_alone, quiet};
use nqs_state::HostState;
use nqs_types::{Change, Plan};
use std::alloc::Global;

/// A file that was written goes. One that wasn't stays, and is asked for again at the next tick. It
/// takes no memory.
pub fn on_file(alloc: Global, state: &HostState, file: u64, written: bool) -> Result<Plan, Memory>
    ensures { result ≡ Ok (plan_of (on_file written file (content state.now))) }
{
    if !written {
        return Ok(quiet(alloc));
    }
    if !state.files.has(&file) {
        return Ok(quiet(alloc));
    }
    Ok(change_alone(alloc, Change::FileGone { file }))
}
