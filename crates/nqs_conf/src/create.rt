//! Created queues.
ghost use Rattle.std.specs.Prelude.{◌≡◌, ◌<◌, IsTrue, unwrap_or, false};
ghost use Rattle.nqs_state.specs.State.{content};
ghost use Rattle.nqs_rules.specs.Conf.{add_queue, at_most};
ghost use Rattle.nqs_rules.specs.Find.{has_queue};
ghost use Rattle.nqs_rules.specs.Format.{new_queue, no_limits};

use nqs_base::{ListOf, Name};
use nqs_state::HostState;
use nqs_types::{Access, DestList, Kind, Limits, QueueDef};

/// What of a created queue is typed.
#[derive(Clone, Copy)]
pub(crate) struct Created {
    pub name: Name,
    pub kind: Kind,
    pub priority: Option<u64>,
    pub run_limit: Option<u64>,
    pub pipe_only: bool,
}

fn priority_of(typed: Option<u64>) -> u8
    requires { IsTrue (at_most 63 typed) }
    ensures { result ≡ unwrap_or typed 31 }
{
    match typed {
        Some(priority) => priority as u8,
        None => 31,
    }
}

fn run_limit_of(typed: Option<u64>) -> u16
    requires { IsTrue (at_most 10000 typed) }
    ensures { result ≡ unwrap_or typed 1 }
{
    match typed {
        Some(limit) => limit as u16,
        None => 1,
    }
}

/// Puts a new queue behind the others: disabled and stopped, with what is typed and else the
/// defaults.
pub(crate) fn create_queue(state: &mut HostState, created: Created, dests: DestList)
    requires room { 0 < state.old.queues.spare }
    requires absent { has_queue created.name (content state.old) ≡ false }
    requires priority { IsTrue (at_most 63 created.priority) }
    requires run_limit { IsTrue (at_most 10000 created.run_limit) }
    ensures { content state.new ≡ add_queue (new_queue created.name created.kind created.priority created.run_limit created.pipe_only dests)
        (content state.old) }
{
    let alloc = state.queues.allocator();
    let def = QueueDef {
        name: created.name,
        kind: created.kind,
        enabled: false,
        started: false,
        pipe_only: created.pipe_only,
        priority: priority_of(created.priority),
        run_limit: run_limit_of(created.run_limit),
        user_limit: None,
        limits: Limits {
            cpu: None,
            memory: None,
        },
        access: Access::All,
        dests,
        devices: ListOf::new(alloc),
    };
    state.queues.push(def);
}
