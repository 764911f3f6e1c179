//! All that a host holds, and the room that it has for what comes. `state` has the parts, `rows`
//! the requests, `indexed` their index, `room` the memory for a change. `docs/rules.md` says what
//! each part is for.
#![tactic(auto)]

mod indexed;
mod room;
mod rows;
mod state;

pub use indexed::Indexed;
pub use rows::Rows;
pub use state::{HostState, PeerList};
