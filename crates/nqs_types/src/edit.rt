//! The edits of qmgr, one variant a line. Numbers, times (seconds) and sizes (bytes) are as typed;
//! `docs/rules.md` has who may make each of them and what it does.

use crate::ids::{Named, NamedDest};
use nqs_base::Name;

/// Edits of queues and of the host's parameters.
#[derive(Clone, Copy)]
pub enum ConfEdit {
    CreateBatchQueue {
        queue: Name,
        priority: Option<u64>,
        run_limit: Option<u64>,
        pipe_only: bool,
    },
    CreateDeviceQueue {
        queue: Name,
        priority: Option<u64>,
        run_limit: Option<u64>,
        pipe_only: bool,
    },
    CreatePipeQueue {
        queue: Name,
        priority: Option<u64>,
        run_limit: Option<u64>,
        pipe_only: bool,
        destination: Option<NamedDest>,
    },
    DeleteQueue {
        queue: Name,
    },
    EnableQueue {
        queue: Name,
    },
    DisableQueue {
        queue: Name,
    },
    StartQueue {
        queue: Name,
    },
    StopQueue {
        queue: Name,
    },
    PurgeQueue {
        queue: Name,
    },
    SetPriority {
        priority: u64,
        queue: Name,
    },
    SetRunLimit {
        limit: u64,
        queue: Name,
    },
    AddDestination {
        destination: NamedDest,
        queue: Name,
    },
    RemoveDestination {
        destination: NamedDest,
        queue: Name,
    },
    /// The destination becomes the queue's first one; the others stay in their order.
    FirstDestination {
        destination: NamedDest,
        queue: Name,
    },
    SetDefaultQueue {
        queue: Name,
    },
    SetNoDefaultQueue,
    SetPatience {
        seconds: u64,
    },
    SetRetryWait {
        seconds: u64,
    },
}

/// Edits of limits and complexes.
#[derive(Clone, Copy)]
pub enum LimitsEdit {
    SetUserLimit { limit: Option<u64>, queue: Name },
    SetCpuLimit { limit: Option<u64>, queue: Name },
    SetMemoryLimit { limit: Option<u64>, queue: Name },
    CreateComplex { complex: Name },
    DeleteComplex { complex: Name },
    AddQueue { queue: Name, complex: Name },
    RemoveQueue { queue: Name, complex: Name },
    SetComplexLimit { limit: u64, complex: Name },
    SetGlobalLimit { limit: u64 },
}

/// Edits of who may do what.
#[derive(Clone, Copy)]
pub enum AccessEdit {
    SetUnrestrictedAccess { queue: Name },
    SetNoAccess { queue: Name },
    AddUser { user: Name, queue: Name },
    RemoveUser { user: Name, queue: Name },
    AddManager { user: Name },
    RemoveManager { user: Name },
    AddOperator { user: Name },
    RemoveOperator { user: Name },
}

/// Edits of devices.
#[derive(Clone, Copy)]
pub enum DevicesEdit {
    CreateDevice { device: Name, forms: Name },
    DeleteDevice { device: Name },
    EnableDevice { device: Name },
    DisableDevice { device: Name },
    SetForms { forms: Name, device: Name },
    AddDevice { device: Name, queue: Name },
    RemoveDevice { device: Name, queue: Name },
}

/// Edits of requests.
#[derive(Clone, Copy)]
pub enum RowsEdit {
    AbortQueue { queue: Name },
    HoldRequest { request: Named },
    ReleaseRequest { request: Named },
    MoveRequest { request: Named, queue: Name },
    ModifyRequest { request: Named, priority: u64 },
}

/// A change of a host by a command, by what it changes.
#[derive(Clone, Copy)]
pub enum Edit {
    Conf(ConfEdit),
    Limits(LimitsEdit),
    Access(AccessEdit),
    Devices(DevicesEdit),
    Rows(RowsEdit),
}
