//! The table of a network, made of the states of its hosts: where each request lies.
//!
//! `rows` has the rows of one host. Each call is the rule of its name in `nqs_rules`
//! (specs/Net.antt), on the plain states that the hosts' states stand for: what a script says isn't
//! in the table, so no spool is read.
#![tactic(auto)]

mod rows;

ghost use Rattle.std.specs.Prelude.{◌≡◌, ◌≤◌, List, IfOk, length};
ghost use Rattle.nqs_state.specs.State.{Plain};
ghost use Rattle.nqs_rules.specs.Net.{table};
ghost use Rattle.nqs_rules_table.specs.Standing.{StandForEach};

use nqs_base::Memory;
use nqs_state::HostState;
use nqs_types::{HostId, TableRow};
use rows::rows_at;
use std::alloc::Global;

/// The rows of the table, by host and then by request: by the host of its submission and its
/// number. The states are those of all hosts, in the order of the site. A host's number is one
/// byte, so there are at most 256.
pub fn table_of(alloc: Global, states: &[HostState]) -> Result<Vec<TableRow>, Memory>
    requires { length states.now ≤ 256 }
    ensures { (plains : List Plain) → StandForEach states.now plains → IfOk result (λ rows. rows.items ≡ table plains) }
{
    let mut table = Vec::new(alloc);
    for (place, state) in states.iter().enumerate() {
        let mut rows = rows_at(alloc, states, HostId(place as u8), state)?;
        table.append(&mut rows)?;
    }
    Ok(table)
}
