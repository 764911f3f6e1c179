//! What is told of a request that doesn't start, and of a destination of its queue.

use nqs_base::Name;

/// Why a request doesn't start at a moment (docs/rules.md, "Why a request waits"). The cases stand
/// in the order in which they are told, but that a queue of one kind has the conditions of that
/// kind alone.
#[derive(Clone, Copy)]
pub enum Reason {
    /// It was started, and runs.
    Runs,
    /// It is on its way to another host, which hasn't taken it yet.
    OnItsWay,
    /// A command holds it back, until one releases it.
    HeldByUser,
    /// The system holds it back, until a command releases it: each destination of its queue has
    /// refused it, or it was moved 32 times.
    HeldBySystem,
    /// It may not start before this moment, in seconds since 1970.
    NotBefore(u64),
    /// Its queue isn't there. No request of a host in order has this reason.
    NoQueue,
    /// Its queue is stopped, until a command starts it.
    QueueStopped,
    /// As many requests of its owner run in its queue, or are on their way, as the queue's user
    /// limit, which is this, or more.
    UserLimit(u16),
    /// As many requests run in its queue, or are on their way, as its run limit, or more.
    RunLimit(u16),
    /// As many requests run in the queues of this complex as its limit, or more. Its queue is one
    /// of them.
    ComplexLimit(Name, u16),
    /// As many requests run in the batch queues of the host as its global limit, or more.
    GlobalLimit(u16),
    /// No device of its queue is free that is enabled and has these forms, if it asks for any.
    NoDevice(Option<Name>),
    /// No destination of its queue may be tried now. Each has an answer that says why.
    NoDestination,
    /// Nothing stands in its way but the order. So many requests of its queue that may start as
    /// well come before it; 0 where it is the first. Other queues may come before its queue. After
    /// each event a host starts what may start, so a request has this reason only where the clock
    /// alone has made it so since.
    Next(u64),
}

/// What a destination of a pipe queue last answered a request, or why it isn't asked now.
#[derive(Clone, Copy)]
pub enum DestAnswer {
    /// It refused the request with this number, 1 to 33, and isn't asked again for it.
    Refused(u8),
    /// Its host isn't of the site. No destination of a host in order has this answer.
    NoHost,
    /// No number is left for a handover to its host.
    NoNumberLeft,
    /// Its host is being handed eight requests, as many as may be at once.
    HandingOver,
    /// The handover of this number to its host isn't over, and the next number is 64 above it.
    NotSettled(u64),
    /// Its host was silent, and isn't asked before this moment, in seconds since 1970.
    WaitedFor(u64),
    /// It may be asked now.
    MayBeTried,
}
