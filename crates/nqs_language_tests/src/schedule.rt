//! Schedules as they are read, with the first bad line, and as a seed gives them; the lines of what
//! is seen, and its summary.

use nqs_base::{Bytes, Items, Memory, Name};
use nqs_schedule::{
    Cause, LineFault, Schedule, ScheduleFault, generate, print_seen, read_schedule, summarize,
};
use nqs_types::{BodyKind, HostId, NetState, RequestId, Seen, TableRow};
use std::alloc::Global;
use std::rt::HostRuntime;

// The first bad line of a schedule and its cause, where it has one.
fn fault(alloc: Global, text: &[u8]) -> Result<Option<(u64, Cause)>, Memory> {
    match read_schedule(alloc, text) {
        Ok(_) => Ok(None),
        Err(ScheduleFault::Bad(LineFault { line, cause })) => Ok(Some((line, cause))),
        Err(ScheduleFault::Memory(memory)) => Err(memory),
    }
}

// How many hosts and events there are.
fn sizes(schedule: &Schedule) -> (usize, usize) {
    (schedule.site.len(), schedule.events.len())
}

fn counts(alloc: Global, text: &[u8]) -> Option<(usize, usize)> {
    match read_schedule(alloc, text) {
        Ok(schedule) => Some(sizes(&schedule)),
        Err(_) => None,
    }
}

/// A schedule, and how many hosts and events it has.
static READ: [(&[u8], (usize, usize)); 10] = [
    (b"", (1, 0)),
    (b"# x\n\n   \nsubmit ann sim\nshow\n", (1, 2)),
    (b"hosts alpha beta\nqsub beta ann \"a\\n\" -p 5\n", (2, 1)),
    (b"qmgr alpha root set \"x\nqstat alpha ann\n", (1, 2)),
    (b"qdel alpha ann 1.alpha\n\"show\"\n", (1, 2)),
    (b"end alpha 1.alpha 1 0 \"42\\n\" e\nfinish alpha\n", (1, 2)),
    (b"fail alpha 1.alpha 65535\nwritten alpha 1\n", (1, 2)),
    (b"unwritten alpha 1\ndeliver 1\ntick alpha\n", (1, 3)),
    (b"newest alpha alpha\nclock 007\ncrash alpha\n", (1, 3)),
    (b"fuse alpha first 3 mixed:2\nboot alpha\n", (1, 2)),
];

#[test]
fn reads_lines(rt: HostRuntime) {
    for (text, sizes) in &READ {
        assert_eq!(rt; counts(rt.alloc(), text), Some(*sizes));
    }
}

/// A schedule, the number of its first bad line, and why that is bad.
static BAD: [(&[u8], u64, Cause); 18] = [
    (b"submit ann sim\nsho", 2, Cause::Unended),
    (b"#\n\nfrob\n#", 3, Cause::UnknownWord),
    (b"show\n#", 2, Cause::Unended),
    (b" # x\n", 1, Cause::UnknownWord),
    (b"submit ann\n", 1, Cause::MissingWord),
    (b"show \"x\n", 1, Cause::ExtraWord),
    (b"submit 9x \"y\n", 1, Cause::BadName),
    (b"tick\talpha\n", 1, Cause::UnknownWord),
    (b"deliver 0\n", 1, Cause::BadNumber),
    (b"qsub alpha ann \"x\n", 1, Cause::BadQuote),
    (b"fail alpha 07.alpha 1\n", 1, Cause::BadRequest),
    (b"fail alpha 7.beta 1\n", 1, Cause::NoSuchHost),
    (b"show\nhosts a\n", 2, Cause::LateHosts),
    (b"hosts a b a\n", 1, Cause::HostTwice),
    (b"hosts\n", 1, Cause::MissingWord),
    (
        b"hosts a b c d e f g h i j k l m n o p q\n",
        1,
        Cause::TooManyHosts,
    ),
    (b"fuse alpha disk 1 old\n", 1, Cause::UnknownWord),
    (b"fuse alpha root 1 mixed:x\n", 1, Cause::BadNumber),
];

#[test]
fn finds_the_first_bad_line(rt: HostRuntime) {
    for (text, line, cause) in &BAD {
        assert_eq!(rt; fault(rt.alloc(), text), Ok(Some((*line, *cause))));
    }
}

fn name(bytes: &[u8]) -> Name {
    match Name::read(bytes) {
        Ok(name) => name,
        Err(_) => match Name::read(b"bad") {
            Ok(name) => name,
            Err(_) => unreachable!(),
        },
    }
}

fn prints(alloc: Global, seen: Result<Seen, Memory>, text: &[u8]) -> bool {
    let Ok(seen) = seen else {
        return false;
    };
    let site = [name(b"alpha"), name(b"beta")];
    let mut out = Vec::new(alloc);
    let printed = print_seen(alloc, &seen, site.as_slice(), &mut out).is_ok();
    printed && out.as_slice() == text
}

const FIRST: RequestId = RequestId {
    seq: 1,
    host: HostId(0),
};

fn launch() -> Seen {
    Seen::Launch {
        host: HostId(0),
        id: FIRST,
        start: 1,
    }
}

fn packet() -> Seen {
    Seen::Packet {
        packet: 2,
        from: HostId(1),
        to: HostId(0),
        kind: BodyKind::Ready,
        number: 1,
    }
}

fn write(alloc: Global) -> Result<Seen, Memory> {
    let path = Bytes::from_vec(Vec::from_slice(alloc, b"flow.o1")?);
    Ok(Seen::Write {
        host: HostId(0),
        file: 1,
        path,
        length: 3,
    })
}

fn table(alloc: Global) -> Result<Seen, Memory> {
    let row = TableRow {
        id: FIRST,
        host: HostId(0),
        queue: name(b"batch"),
        state: NetState::Queued,
        owner: name(b"ann"),
        starts: 0,
        lost: 0,
    };
    Ok(Seen::Table(Items::of(alloc, row)?))
}

#[test]
fn prints_what_is_seen(rt: HostRuntime) {
    let alloc = rt.alloc();
    let rows = b"table 1\nalpha batch 1.alpha QUEUED ann starts 0 lost 0\n";
    let printed = [
        prints(alloc, Ok(launch()), b"launch alpha 1.alpha 1\n"),
        prints(alloc, Ok(packet()), b"packet 2 beta alpha READY 1\n"),
        prints(alloc, write(alloc), b"write alpha 1 flow.o1 3\n"),
        prints(alloc, Ok(Seen::NoPacket(Some(1))), b"no packet 1\n"),
        prints(alloc, table(alloc), rows),
    ];
    assert_eq!(rt; printed, [true; 5]);
}

fn drawn(alloc: Global, hosts: u8, events: u32) -> Option<(usize, usize)> {
    if hosts == 0 {
        return None;
    }
    if hosts > 16 {
        return None;
    }
    match generate(alloc, 1, hosts, events) {
        Ok(schedule) => Some(sizes(&schedule)),
        Err(_) => None,
    }
}

#[test]
fn generates_schedules(rt: HostRuntime) {
    let sizes = [drawn(rt.alloc(), 1, 0), drawn(rt.alloc(), 16, 100)];
    assert_eq!(rt; sizes, [Some((1, 6)), Some((16, 181))]);
}

fn sums_up(alloc: Global, text: &[u8]) -> bool {
    let host = HostId(0);
    let seen = [Seen::Stop { host }, Seen::Up { host }];
    let mut out = Vec::new(alloc);
    let done = summarize(alloc, seen.as_slice(), 6, 0, &mut out).is_ok();
    done && out.as_slice() == text
}

#[test]
fn sums_up_what_was_seen(rt: HostRuntime) {
    let text = b"events 6\nsubmitted 0\nlaunches 0\nended 0\npackets 0\nstops 1\ntable 0\n";
    assert!(rt; sums_up(rt.alloc(), text));
}
