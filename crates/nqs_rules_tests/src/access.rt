//! The way into a queue, by hand.

use nqs_access::may_use;
use nqs_base::{ListOf, Memory, Name};
use nqs_builders::queue;
use nqs_types::{Access, Entry, QueueDef, Refusal};
use std::alloc::Global;
use std::test::Fail;

// Whether the queue is enabled and whether only pipe queues lead to it, a user with the way that is
// taken, and the answer.
type Case = (bool, bool, Name, Entry, Result<(), Refusal>);

fn answer(def: &mut QueueDef, case: &Case) -> Result<(), Refusal> {
    let (enabled, pipe_only, user, entry, _) = *case;
    def.enabled = enabled;
    def.pipe_only = pipe_only;
    may_use(def, &user, entry)
}

// The first case that is answered otherwise: its place, and the answer.
fn wrong_way(def: &mut QueueDef, cases: &[Case]) -> Option<(usize, Result<(), Refusal>)> {
    for (place, case) in cases.iter().enumerate() {
        let answer = answer(def, case);
        if answer != case.4 {
            return Some((place, answer));
        }
    }
    None
}

// The same, of a queue for one user.
fn wrong_way_into(
    alloc: Global,
    name: Name,
    user: Name,
    cases: &[Case],
) -> Result<Option<(usize, Result<(), Refusal>)>, Memory> {
    let users = ListOf::of(alloc, user)?;
    let mut def = queue(alloc, name);
    def.access = Access::Users(users);
    Ok(wrong_way(&mut def, cases))
}

#[test]
fn ways_into_a_queue(rt: HostRuntime) -> Result<(), Fail> {
    let (short, carl, root) = (
        Name::read(b"short")?,
        Name::read(b"carl")?,
        Name::read(b"root")?,
    );
    let cases = [
        (true, false, carl, Entry::Direct, Ok(())),
        (true, true, carl, Entry::FromPipe, Ok(())),
        (
            true,
            true,
            root,
            Entry::FromPipe,
            Err(Refusal::NoAccess(short)),
        ),
        (
            true,
            true,
            root,
            Entry::Direct,
            Err(Refusal::PipeOnly(short)),
        ),
        (
            false,
            true,
            root,
            Entry::Direct,
            Err(Refusal::Disabled(short)),
        ),
    ];
    let wrong = wrong_way_into(rt.alloc(), short, carl, &cases)?;
    assert_eq!(rt; wrong, None);
    Ok(())
}
