//! What a daemon of the real machine notes on standard error while it serves: which datagrams it
//! passed over, where the last of them came from, and which ends of jobs came.

use crate::told::name_text;
use nqs_base::Name;
use nqs_outside::Clock;
use nqs_real::{LastSender, SystemClock, tell};
use nqs_serve::{IgnoreCause, Notes};
use nqs_types::{HostId, RequestId};
use std::io;
use std::net::SocketAddr;
use std::rt::HostRuntime;

/// For each cause there is at most one line in so many seconds.
const PAUSE: u64 = 60;

// What was passed over for one cause: how often since its last line, and when that was.
#[derive(Clone, Copy)]
struct Tally {
    count: u64,
    told: Option<u64>,
}

// What was passed over, by its cause.
#[derive(Clone, Copy)]
struct Tallies {
    too_long: Tally,
    unread: Tally,
    not_here: Tally,
    stranger: Tally,
    not_asked: Tally,
}

/// Of a cause nothing was passed over.
const NONE: Tally = Tally {
    count: 0,
    told: None,
};

/// The notes of one daemon.
#[derive(Drop)]
pub struct RealNotes {
    rt: HostRuntime,
    // The names of the site's hosts, where there was memory for them.
    names: Option<Vec<Name>>,
    clock: SystemClock,
    sender: LastSender,
    tallies: Tallies,
}

impl Tally {
    // A line is due: there was none, or a minute has passed since. Where the clock was set back,
    // one is due too.
    fn is_due(&self, now: u64) -> bool {
        match self.told {
            None => true,
            Some(told) if now < told => true,
            Some(told) => now - told >= PAUSE,
        }
    }

    // One datagram more, at this moment: how many there were since the last line, where the next is
    // due.
    fn count_one(&mut self, now: u64) -> Option<u64> {
        self.count = self.count.saturating_add(1);
        if !self.is_due(now) {
            return None;
        }
        self.told = Some(now);
        Some(std::mem::replace(&mut self.count, 0))
    }
}

impl Tallies {
    fn of_cause(&mut self, cause: &IgnoreCause) -> &mut Tally {
        match cause {
            IgnoreCause::TooLong => &mut self.too_long,
            IgnoreCause::Unread(_) => &mut self.unread,
            IgnoreCause::NotHere => &mut self.not_here,
            IgnoreCause::Stranger => &mut self.stranger,
            IgnoreCause::NotAsked => &mut self.not_asked,
        }
    }
}

// What a datagram is that was passed over for this cause.
fn cause_text(cause: &IgnoreCause) -> &'static str {
    match cause {
        IgnoreCause::TooLong => "longer than any that a host writes",
        IgnoreCause::Unread(_) => "no message of this version of nqs",
        IgnoreCause::NotHere => "for another host",
        IgnoreCause::Stranger => "from no host of the site, or on a request of none",
        IgnoreCause::NotAsked => "an answer, which no daemon waits for",
    }
}

// The place from where the last one came is that of its envelope, where it is known.
fn ignored_text(
    rt: &HostRuntime,
    what: &str,
    count: u64,
    from: Option<SocketAddr>,
) -> io::Result<String> {
    let alloc = rt.alloc();
    match from {
        Some(from) => Ok(format!(in alloc;
            "datagrams passed over: {count}, the last one, from {from}, is {what}"
        )?),
        None => Ok(format!(in alloc; "datagrams passed over: {count}, the last one is {what}")?),
    }
}

fn tell_ignored(rt: &HostRuntime, what: &str, count: u64, from: Option<SocketAddr>) {
    if let Ok(text) = ignored_text(rt, what, count, from) {
        tell(rt, &text);
    }
}

fn host_text(names: Option<&Vec<Name>>, host: HostId) -> &str {
    match names {
        Some(names) => name_text(names.as_slice().get(host.0 as usize)),
        None => "?",
    }
}

// That the job of this start of a request has ended.
fn tell_ended(
    rt: &HostRuntime,
    names: Option<&Vec<Name>>,
    id: RequestId,
    start: u16,
    status: u8,
) -> io::Result<()> {
    let host = host_text(names, id.host);
    let text = format!(in rt.alloc();
        "{}.{host} has ended, start {start}, status {status}",
        id.seq
    )?;
    tell(rt, &text);
    Ok(())
}

impl RealNotes {
    /// The notes of a daemon of a site whose hosts have these names, and whose wire notes there
    /// from where its last datagram came. Nothing is noted yet.
    pub(crate) fn new(rt: HostRuntime, names: &[Name], sender: LastSender) -> RealNotes {
        RealNotes {
            rt,
            names: Vec::from_slice(rt.alloc(), names).ok(),
            clock: SystemClock::new(rt),
            sender,
            tallies: Tallies {
                too_long: NONE,
                unread: NONE,
                not_here: NONE,
                stranger: NONE,
                not_asked: NONE,
            },
        }
    }
}

impl Notes for RealNotes {
    fn ignored(&mut self, cause: &IgnoreCause) {
        let now = self.clock.now();
        if let Some(count) = self.tallies.of_cause(cause).count_one(now) {
            tell_ignored(&self.rt, cause_text(cause), count, self.sender.place());
        }
    }

    fn ended(&mut self, id: RequestId, start: u16, status: u8) {
        let _ = tell_ended(&self.rt, self.names.as_ref(), id, start, status);
    }
}
