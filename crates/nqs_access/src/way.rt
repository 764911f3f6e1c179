//! The way into a queue.
ghost use Rattle.std.specs.Prelude.{◌≡◌, ◌&&◌};
ghost use Rattle.nqs_rules.specs.Access.{is_direct, admits, may_use};

use nqs_base::{Name, has_name};
use nqs_types::{Access, Entry, QueueDef, Refusal};

fn is_direct(entry: Entry) -> bool
    ensures { result ≡ is_direct entry }
{
    match entry {
        Entry::Direct => true,
        Entry::FromPipe => false,
    }
}

/// Whether a queue of this access lists the user.
pub(crate) fn admits(access: &Access, user: &Name) -> bool
    ensures { result ≡ admits access.now user.now }
{
    match access {
        Access::All => true,
        Access::Users(users) => has_name(users.as_slice(), user),
    }
}

// Whether the queue takes requests from pipe queues only, and this one comes by a submission.
fn is_shut(queue: &QueueDef, entry: Entry) -> bool
    ensures { result ≡ (queue.now.pipe_only && is_direct entry) }
{
    queue.pipe_only && is_direct(entry)
}

/// Whether a user's request may come into the queue: `Disabled`, `PipeOnly` or `NoAccess`, the
/// first that holds. Nobody is let in by rank.
pub fn may_use(queue: &QueueDef, user: &Name, entry: Entry) -> Result<(), Refusal>
    ensures { result ≡ may_use queue.now user.now entry }
{
    if !queue.enabled {
        return Err(Refusal::Disabled(queue.name));
    }
    if is_shut(queue, entry) {
        return Err(Refusal::PipeOnly(queue.name));
    }
    if !admits(&queue.access, user) {
        return Err(Refusal::NoAccess(queue.name));
    }
    Ok(())
}
