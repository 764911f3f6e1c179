//! A host as it is formatted.

use nqs_base::{ListOf, Name, NameList};
use nqs_host::formatted;
use nqs_state::HostState;
use nqs_types::HostId;
use std::alloc::Global;
use std::test::Fail;

// A queue: its name, whether it is enabled and started, its priority and its limit.
type Queue = (Option<Name>, bool, bool, u8, u16);

// What is compared of a state: the one queue, how many queues, requests, peers and operators there
// are, the first manager, the parameters, and the host's own number with the counters.
type Answers = (
    Queue,
    [usize; 4],
    Option<Name>,
    (u16, u64, u64),
    (HostId, u32, u64),
);

fn queue_of(state: &HostState) -> Queue {
    match state.queues.get_at(0) {
        Some(queue) => (
            Some(queue.name),
            queue.enabled,
            queue.started,
            queue.priority,
            queue.run_limit,
        ),
        None => (None, false, false, 0, 0),
    }
}

fn lengths(state: &HostState) -> [usize; 4] {
    [
        state.queues.len(),
        state.rows.len(),
        state.peers.len(),
        state.operators.len(),
    ]
}

fn answers(state: &HostState) -> Answers {
    (
        queue_of(state),
        lengths(state),
        state.managers.as_slice().first().copied(),
        (state.global_limit, state.patience, state.retry_wait),
        (state.me, state.seq, state.file_next),
    )
}

// The third host of a site, as it is formatted.
fn third(alloc: Global, site: NameList) -> Option<Answers> {
    match formatted(alloc, HostId(2), site) {
        Ok(state) => Some(answers(&state)),
        Err(_) => None,
    }
}

#[test]
fn host_is_formatted(rt: HostRuntime) -> Result<(), Fail> {
    let alloc = rt.alloc();
    let alpha = Name::read(b"alpha")?;
    let (batch, root) = (Name::read(b"batch")?, Name::read(b"root")?);
    let site = ListOf::from_vec([alpha, alpha, alpha].to_vec(alloc)?);
    let wanted = (
        (Some(batch), true, false, 31, 1),
        [1, 0, 3, 0],
        Some(root),
        (64, 60, 300),
        (HostId(2), 0, 1),
    );
    assert_eq!(rt; third(alloc, site), Some(wanted));
    Ok(())
}
