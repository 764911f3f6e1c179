//! The rows of the network table, which `show` prints.

use crate::ids::{HostId, RequestId};
use nqs_base::Name;

/// The state of a request in the network table.
#[derive(Clone, Copy, Debug, PartialEq, Eq)]
pub enum NetState {
    Queued,
    Held,
    Routing,
    Arriving,
    Running,
}

/// Where a request lies, and how often it was started and lost.
#[derive(Clone, Copy, Debug, PartialEq, Eq)]
pub struct TableRow {
    pub id: RequestId,
    pub host: HostId,
    pub queue: Name,
    pub state: NetState,
    pub owner: Name,
    pub starts: u16,
    pub lost: u16,
}
