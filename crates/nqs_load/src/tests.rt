//! The edits of three loads, as they come out.

use crate::{Load, plan_order};
use nqs_base::Name;
use nqs_types::{ConfEdit, Dest, Edit, HostId};
use std::rt::HostRuntime;
use std::test::Fail;

// Whether the edit makes the destination the first of the queue.
fn is_first(edit: &Edit, pipe: &Name, queue: &Name, host: &Name) -> bool {
    match edit {
        Edit::Conf(
            ConfEdit::FirstDestination {
                destination,
                queue: list,
            },
        ) => *list == *pipe && destination.queue == *queue && destination.host == *host,
        _ => false,
    }
}

#[test]
fn the_unknown_first_and_the_least_last(rt: HostRuntime) -> Result<(), Fail> {
    let (small, big, pipe) = (
        Name::read(b"small")?,
        Name::read(b"big")?,
        Name::read(b"out")?,
    );
    let (front, cray) = (Name::read(b"front")?, Name::read(b"cray")?);
    let loads = [
        Load {
            dest: Dest {
                queue: small,
                host: HostId(1),
            },
            requests: Some(3),
        },
        Load {
            dest: Dest {
                queue: small,
                host: HostId(0),
            },
            requests: Some(1),
        },
        Load {
            dest: Dest {
                queue: big,
                host: HostId(1),
            },
            requests: None,
        },
    ];
    let mut out = Vec::new(rt.alloc());
    plan_order(rt.alloc(), &loads, &pipe, &[front, cray], &mut out)?;
    let found = match out.as_slice() {
        [unknown, more, less] => [
            is_first(unknown, &pipe, &big, &cray),
            is_first(more, &pipe, &small, &cray),
            is_first(less, &pipe, &small, &front),
        ],
        _ => [false; 3],
    };
    assert_eq!(rt; found, [true; 3]);
    Ok(())
}
