//! The summary of a run: how many things of each kind were seen. It is counted as things are seen,
//! so that no list of them is kept.

ghost use Rattle.std.specs.Prelude.{◌≡◌, ◌++◌, OnOk};
ghost use Rattle.nqs_schedule.specs.Summary.{is_submitted_reply, is_submitted, is_launch, is_ended, is_packet, is_stop, more, nothing_seen, counted};
ghost use Rattle.nqs_schedule.specs.Summary.{summary_of, count_line, summary_text};

use nqs_base::Memory;
use nqs_query::{put_decimal, put_line_end, put_text};
use nqs_types::{Reply, Seen};
use std::alloc::Global;

/// How many things of each kind were seen. A count stays at 18,446,744,073,709,551,615.
#[derive(Clone, Copy)]
pub struct Summary {
    /// Submissions that were taken.
    pub submitted: u64,
    /// Starts of jobs, by launchers and printers.
    pub launches: u64,
    pub ended: u64,
    pub packets: u64,
    pub stops: u64,
}

fn is_submitted_reply(reply: &Reply) -> bool
    ensures { result ≡ is_submitted_reply reply.now }
{
    match reply {
        Reply::Submitted { .. } => true,
        _ => false,
    }
}

fn is_submitted(seen: &Seen) -> bool
    ensures { result ≡ is_submitted seen.now }
{
    match seen {
        Seen::Reply(reply) => is_submitted_reply(reply),
        _ => false,
    }
}

fn is_launch(seen: &Seen) -> bool
    ensures { result ≡ is_launch seen.now }
{
    match seen {
        Seen::Launch { .. } => true,
        Seen::Print { .. } => true,
        _ => false,
    }
}

fn is_ended(seen: &Seen) -> bool
    ensures { result ≡ is_ended seen.now }
{
    match seen {
        Seen::Ended { .. } => true,
        _ => false,
    }
}

fn is_packet(seen: &Seen) -> bool
    ensures { result ≡ is_packet seen.now }
{
    match seen {
        Seen::Packet { .. } => true,
        _ => false,
    }
}

fn is_stop(seen: &Seen) -> bool
    ensures { result ≡ is_stop seen.now }
{
    match seen {
        Seen::Stop { .. } => true,
        _ => false,
    }
}

fn more(counts: bool, number: u64) -> u64
    ensures { result ≡ more counts number }
{
    if !counts {
        return number;
    }
    if number < u64::MAX {
        return number + 1;
    }
    number
}

impl Summary {
    /// Nothing was seen.
    pub fn new() -> Summary
        ensures { result ≡ nothing_seen }
    {
        Summary {
            submitted: 0,
            launches: 0,
            ended: 0,
            packets: 0,
            stops: 0,
        }
    }

    /// Counts a thing that is seen.
    pub fn count(&mut self, seen: &Seen)
        ensures { self.new ≡ counted self.old seen.now }
    {
        self.submitted = more(is_submitted(seen), self.submitted);
        self.launches = more(is_launch(seen), self.launches);
        self.ended = more(is_ended(seen), self.ended);
        self.packets = more(is_packet(seen), self.packets);
        self.stops = more(is_stop(seen), self.stops);
    }
}

/// The counts of things that were seen.
pub fn summary_of(seen: &[Seen]) -> Summary
    ensures { result ≡ summary_of nothing_seen seen.now }
{
    let mut summary = Summary::new();
    for i in 0..seen.len() {
        summary.count(&seen[i]);
    }
    summary
}

#[tactic(auto, unfolding(crate::specs::Summary::count_line))]
fn put_count(alloc: Global, word: &[u8], number: u64, out: &mut Vec<u8>) -> Result<(), Memory>
    ensures { OnOk result (out.new.items ≡ out.old.items ++ count_line word.now number) }
{
    put_text(word, out)?;
    put_text(b" ", out)?;
    put_decimal(alloc, number, out)?;
    put_line_end(out)
}

/// Appends the summary: the number of events, the counts, and the number of requests in the last
/// table, each on a line.
pub fn print_summary(
    alloc: Global,
    summary: &Summary,
    events: u64,
    table: u64,
    out: &mut Vec<u8>,
) -> Result<(), Memory>
    ensures { OnOk result (out.new.items ≡ out.old.items ++ summary_text summary.now events table) }
{
    put_count(alloc, b"events", events, out)?;
    put_count(alloc, b"submitted", summary.submitted, out)?;
    put_count(alloc, b"launches", summary.launches, out)?;
    put_count(alloc, b"ended", summary.ended, out)?;
    put_count(alloc, b"packets", summary.packets, out)?;
    put_count(alloc, b"stops", summary.stops, out)?;
    put_count(alloc, b"table", table, out)?;
    Ok(())
}

/// Appends the summary of things that were seen.
pub fn summarize(
    alloc: Global,
    seen: &[Seen],
    events: u64,
    table: u64,
    out: &mut Vec<u8>,
) -> Result<(), Memory>
    ensures { OnOk result (out.new.items ≡ out.old.items ++ summary_text (summary_of nothing_seen seen.now) events table) }
{
    print_summary(alloc, &summary_of(seen), events, table, out)
}
