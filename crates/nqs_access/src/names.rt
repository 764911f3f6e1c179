//! Names in lists, and queues by name: what the checks and edits of several kinds share.
ghost use Rattle.std.specs.Prelude.{◌≡◌};
ghost use Rattle.nqs_state.specs.State.{content};
ghost use Rattle.nqs_rules.specs.Access.{without_name};
ghost use Rattle.nqs_rules.specs.Causes.{first_refusal};
ghost use Rattle.nqs_rules.specs.Conf.{queue_causes};

use nqs_base::{Name, NameList};
use nqs_state::HostState;
use nqs_types::Refusal;

/// Takes the name out of the list. The others keep their order.
pub fn drop_name(names: &mut NameList, dropped: &Name)
    ensures { names.new ≡ without_name dropped.now names.old }
{
    names.keep(|name: &Name| *dropped != *name);
}

/// Whether the host has a queue of this name: `NoQueue` where it has none.
pub fn known_queue(state: &HostState, queue: &Name) -> Result<(), Refusal>
    ensures { result ≡ first_refusal (queue_causes queue.now (content state.now)) }
{
    if !state.queues.has(queue) {
        return Err(Refusal::NoQueue(*queue));
    }
    Ok(())
}
