//! The types that the crates of the rules share: requests, queues, the changes of a host's state,
//! commands, datagrams, and the events of schedules. `docs/rules.md` says what they are for.
#![tactic(auto)]

mod change;
mod edit;
mod event;
mod fault;
mod first;
mod ids;
mod keys;
mod message;
mod queue;
mod reason;
mod refusal;
mod request;
mod rule;
mod script;
mod table_row;
mod world;

pub use change::{Change, OutPart};
pub use edit::{AccessEdit, ConfEdit, DevicesEdit, Edit, LimitsEdit, RowsEdit};
pub use event::{Command, Event, LaunchOrder, Output, Plan, PlanRead, Reply, Submission};
pub use fault::{GrammarFault, WordsCause, WordsFault};
pub use first::{batch, root};
pub use ids::{Dest, HostId, Named, NamedDest, PeerNumber, RequestId};
pub use message::{Body, BodyKind, Message, Tool};
pub use queue::{Access, ComplexDef, DestList, DeviceDef, Kind, QueueDef};
pub use reason::{DestAnswer, Reason};
pub use refusal::Refusal;
pub use request::{
    Carried, FileOut, Hand, Hold, Job, Limits, NumberList, Peer, Phase, Promise, Refused,
    RefusedList, Row, RowState, Stage,
};
pub use rule::{Choice, Entry, Rank};
pub use script::LONGEST_SCRIPT;
pub use table_row::{NetState, TableRow};
pub use world::{Seen, Which, WorldEvent};
