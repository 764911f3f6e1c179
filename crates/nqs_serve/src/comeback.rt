//! What comes back of what went out.

ghost use Rattle.std.specs.Prelude.{◌≡◌, if◌then◌else◌};
ghost use Rattle.nqs_serve.specs.Runs.{comeback_of, event_back};

use nqs_base::Bytes;
use nqs_types::{Event, Output, RequestId};
use std::alloc::Global;

/// What comes back of what went out: the start of a request, or the number of a file.
#[derive(Clone, Copy, Debug, PartialEq, Eq)]
pub enum Comeback {
    /// A launch or a print that failed.
    Unlaunched(RequestId, u16),
    /// A print that succeeded.
    Printed(RequestId, u16),
    /// A file that was written.
    Written(u64),
    /// A file that was not.
    Unwritten(u64),
}

// What comes back of a print.
fn printed(id: RequestId, start: u16, ok: bool) -> Comeback
    ensures { result ≡ (if ok then Comeback.Printed id start else Comeback.Unlaunched id start) }
{
    if ok {
        Comeback::Printed(id, start)
    } else {
        Comeback::Unlaunched(id, start)
    }
}

// What comes back of a file.
fn filed(file: u64, ok: bool) -> Comeback
    ensures { result ≡ (if ok then Comeback.Written file else Comeback.Unwritten file) }
{
    if ok {
        Comeback::Written(file)
    } else {
        Comeback::Unwritten(file)
    }
}

// What comes back of a launch.
fn launched(id: RequestId, start: u16, ok: bool) -> Option<Comeback>
    ensures { result ≡ (if ok then None else Some (Comeback.Unlaunched id start)) }
{
    if ok {
        None
    } else {
        Some(Comeback::Unlaunched(id, start))
    }
}

/// What comes back of an output that was carried out, or was not.
pub(crate) fn comeback_of(output: &Output, ok: bool) -> Option<Comeback>
    ensures { result ≡ comeback_of output.now ok }
{
    match output {
        Output::Launch { order, .. } => launched(order.id, order.start, ok),
        Output::Print { order, .. } => Some(printed(order.id, order.start, ok)),
        Output::File { file, .. } => Some(filed(*file, ok)),
        Output::Reply { .. } => None,
        Output::Send(_) => None,
        Output::Kill { .. } => None,
        Output::Ended { .. } => None,
        Output::Unlaunched { .. } => None,
        Output::Again(_) => None,
        Output::Lost(_) => None,
        Output::Ack { .. } => None,
    }
}

// The end of a print, as that of a job without output, of which nobody is to be told.
fn ended(alloc: Global, id: RequestId, start: u16) -> Event
    ensures { result ≡ event_back (Comeback.Printed id start) }
{
    Event::Ended {
        now: 0,
        port: 0,
        id,
        start,
        status: 0,
        out: Bytes::new(alloc),
        err: Bytes::new(alloc),
    }
}

/// The event that comes back, with the moment 0.
pub(crate) fn event_back(alloc: Global, comeback: Comeback) -> Event
    ensures { result ≡ event_back comeback }
{
    match comeback {
        Comeback::Unlaunched(id, start) => Event::Unlaunched { now: 0, id, start },
        Comeback::Printed(id, start) => ended(alloc, id, start),
        Comeback::Written(file) => Event::Written { now: 0, file },
        Comeback::Unwritten(file) => Event::Unwritten { now: 0, file },
    }
}
