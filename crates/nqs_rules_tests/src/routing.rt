//! When one more handover to a host may be opened: by how many there are, and by the window of
//! numbers.

use nqs_base::Memory;
use nqs_builders::{add, hand, host, peer};
use nqs_routing::{is_reachable, low};
use nqs_state::HostState;
use nqs_types::{HostId, Phase};
use std::alloc::Global;
use std::rt::HostRuntime;

const BETA: HostId = HostId(1);

// The numbers of the handovers to beta, its next number, its low, and whether it may be tried.
static CASES: [(&[u64], u64, u64, bool); 8] = [
    (&[], 5, 5, true),
    (&[7, 2, 5], 8, 2, true),
    (&[3, 4, 5, 6, 7, 8, 9], 10, 3, true),
    (&[3, 4, 5, 6, 7, 8, 9, 10], 11, 3, false),
    (&[1], 64, 1, true),
    (&[1], 65, 1, false),
    (&[], u64::MAX, u64::MAX, false),
    (&[], u64::MAX - 1, u64::MAX - 1, true),
];

// Every other one is committed.
fn phase(number: u64) -> Phase {
    if number % 2 == 0 {
        Phase::Offered
    } else {
        Phase::Committed
    }
}

fn fill(alloc: Global, state: &mut HostState, numbers: &[u64], next: u64) -> Result<(), Memory> {
    state.peers.push(peer(alloc, 1, 1))?;
    state.peers.push(peer(alloc, next, 1))?;
    for number in numbers {
        add(&mut state.hands, hand(*number, 1, 0, phase(*number)))?;
    }
    Ok(())
}

fn answer(
    alloc: Global,
    state: &mut HostState,
    numbers: &[u64],
    next: u64,
) -> Result<(u64, bool), Memory> {
    fill(alloc, state, numbers, next)?;
    Ok((low(state, BETA, next), is_reachable(state, 100, BETA)))
}

fn answered(alloc: Global, numbers: &[u64], next: u64) -> Result<(u64, bool), Memory> {
    let mut state = host(alloc);
    let answer = answer(alloc, &mut state, numbers, next);
    drop(state);
    answer
}

#[test]
fn eight_handovers_within_a_window(rt: HostRuntime) {
    for (numbers, next, low, free) in &CASES {
        let answer = answered(rt.alloc(), numbers, *next);
        assert_eq!(rt; answer, Ok((*low, *free)));
    }
}
