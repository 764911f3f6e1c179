//! Records by hand from their format: each is read, written again as it was, and faults are at
//! their places.

use nqs_base::Extent;
use nqs_records::{RecordFault, read_change, write_change};
use nqs_types::{Change, ConfEdit, Edit, Job};
use std::alloc::Global;
use std::rt::HostRuntime;

const SITE: &[u8] = b"\x01\x00\x01\x05alpha";

const SUBMITTED: &[u8] = b"\x02\x01b\x01j\x02me\x3f\x00\x00\x00\x00\x00\x00\x01\x02\x01\
\x01\x00\x00\x00\x00\x00\x00\x00\x09\x00\x01\x03a4x\x01o\x03d/e\x00\
\x00\x00\x00\x00\x00\x00\x00\x07\x00\x10\x00\x00";

// A promise to the host 1: of its number 2, while its 1 is still open.
const PROMISED: &[u8] = b"\x18\x01\x00\x00\x00\x00\x00\x00\x00\x02\x00\x00\x00\x00\x00\x00\x00\x01\
\x01q\x00\x00\x00\x01\x01\x01j\x01m\x00\x00\x00\x00\x00\x00\x00\x00\x00\x00\x00\x00\x00\x01o\x01e\x00\
\x00\x02\x00\x02\x20\x00\x00\x00\x00\x00\x00\x00\x07\x00\x10\x00\x00";

// A promise as older versions wrote it, of the number 9.
const OLD_PROMISED: &[u8] = b"\x0f\x01\x00\x00\x00\x00\x00\x00\x00\x09\
\x01q\x00\x00\x00\x01\x01\x01j\x01m\x00\x00\x00\x00\x00\x00\x00\x00\x00\x00\x00\x00\x00\x01o\x01e\x00\
\x00\x02\x00\x02\x20\x00\x00\x00\x00\x00\x00\x00\x07\x00\x10\x00\x00";

static RECORDS: [&[u8]; 17] = [
    SITE,
    SUBMITTED,
    PROMISED,
    OLD_PROMISED,
    b"\x03\x00\x00\x00\x01\x0f",
    b"\x05\xff\xff\xff\xfe\x00\x01\x03lp1",
    b"\x06\x00\x00\x00\x02\x01\x01\x01o\x00\x00\x00\x00\x00\x00\x00\x00\x00\x00\x00\x05",
    b"\x08",
    b"\x09\x04\x01b",
    b"\x09\x03\x01p\x01\x00\x00\x00\x00\x00\x00\x00\x3f\x00\x01\x00\x00\x00\x00\x00\x00\x00\x01\x01\x01q\x01h",
    b"\x09\x28",
    b"\x09\x36\x01b\x05alpha\x01p",
    b"\x09\x2e\x00\x00\x00\x07\x05alpha\x00\x00\x00\x00\x00\x00\x00\x05",
    b"\x0a\x02\x00\x00\x00\x00\x00\x00\x00\x01\x00\x00\x00\x03\x00\x01q\x00\x00\x00\x00\x00\x00\x01\x00",
    b"\x0d\x00\x00\x00\x00\x00\x00\x00\x3c\x02\x00\x00\x00\x00\x00\x00\x00\x00\x01\x01\x00\x00\x00\x00\x00\x00\x00\x02",
    b"\x13\x00\x00\x00\x04\x02\x01q\x13",
    b"\x17\x00\x00\x00\x00\x00\x00\x00\x0b",
];

// Whether the record is read, and written as these bytes.
fn is_written_again(alloc: Global, bytes: &[u8]) -> bool {
    let mut out = Vec::new(alloc);
    let written = match &read_change(alloc, bytes) {
        Ok(change) => write_change(alloc, change, &mut out).is_ok(),
        Err(_) => false,
    };
    written && out.as_slice() == bytes
}

#[test]
fn reads_and_writes(rt: HostRuntime) {
    for bytes in &RECORDS {
        assert!(rt; is_written_again(rt.alloc(), bytes));
    }
}

fn is_site(change: &Change) -> bool {
    match change {
        Change::Site { me, site } => {
            let alpha = site.as_slice().first();
            me.0 == 0
                && site.len() == 1
                && alpha.is_some_and(|name| name.as_bytes() == b"alpha".as_slice())
        }
        _ => false,
    }
}

fn reads_site(alloc: Global) -> bool {
    match &read_change(alloc, SITE) {
        Ok(change) => is_site(change),
        Err(_) => false,
    }
}

fn is_job(job: &Job) -> bool {
    let small = (job.priority, job.earliest, job.rerun, job.join) == (63, 258, true, false);
    let limits = (job.limits.cpu, job.limits.memory) == (Some(9), None);
    let out = job.out.as_slice() == b"o".as_slice();
    let err = job.err.as_slice() == b"d/e".as_slice();
    job.owner.as_bytes() == b"me".as_slice() && small && limits && out && err
}

fn is_submission(change: &Change) -> bool {
    let extent = Extent {
        place: 7,
        length: 1_048_576,
    };
    match change {
        Change::Submitted { queue, job, script } => {
            queue.as_bytes() == b"b".as_slice() && is_job(job) && *script == extent
        }
        _ => false,
    }
}

fn reads_submission(alloc: Global) -> bool {
    match &read_change(alloc, SUBMITTED) {
        Ok(change) => is_submission(change),
        Err(_) => false,
    }
}

#[test]
fn reads_the_parts(rt: HostRuntime) {
    let alloc = rt.alloc();
    assert_eq!(rt; (reads_site(alloc), reads_submission(alloc)), (true, true));
}

// The number of a promise, and its low where it has one.
fn numbers(change: &Change) -> Option<(u64, Option<u64>)> {
    match change {
        Change::Promised { number, low, .. } => Some((*number, Some(*low))),
        Change::OldPromised { number, .. } => Some((*number, None)),
        _ => None,
    }
}

fn read_numbers(alloc: Global, bytes: &[u8]) -> Option<(u64, Option<u64>)> {
    match &read_change(alloc, bytes) {
        Ok(change) => numbers(change),
        Err(_) => None,
    }
}

#[test]
fn reads_promises(rt: HostRuntime) {
    let read = (
        read_numbers(rt.alloc(), PROMISED),
        read_numbers(rt.alloc(), OLD_PROMISED),
    );
    assert_eq!(rt; read, (Some((2, Some(1))), Some((9, None))));
}

// The kinds of faults.
const SHORT: u8 = 0;

const KIND: u8 = 1;

const FIELD: u8 = 2;

const TRAILING: u8 = 3;

// The kind of a fault, and its place.
fn kind(fault: &RecordFault) -> (u8, u64) {
    match fault {
        RecordFault::Short(place) => (SHORT, *place),
        RecordFault::Kind(place) => (KIND, *place),
        RecordFault::BadField(place) => (FIELD, *place),
        RecordFault::Trailing(place) => (TRAILING, *place),
        RecordFault::Memory(_) => (u8::MAX, 0),
    }
}

fn fault(alloc: Global, bytes: &[u8]) -> Option<(u8, u64)> {
    match &read_change(alloc, bytes) {
        Ok(_) => None,
        Err(fault) => Some(kind(fault)),
    }
}

// Bytes that are no record: the kind and the place of their first fault.
static FAULTS: [(&[u8], u8, u64); 18] = [
    (b"", SHORT, 0),
    (b"\x00", KIND, 0),
    (b"\x18", SHORT, 1),
    (b"\x19", KIND, 0),
    (b"\x01\x00\x01\x05alph", SHORT, 8),
    (b"\x01\x10\x01\x05alpha", FIELD, 1),
    (b"\x01\x01\x01\x05alpha", FIELD, 2),
    (b"\x01\x00\x11", FIELD, 2),
    (b"\x01\x00\x01\x05al ha", FIELD, 6),
    (b"\x01\x00\x01\x05alpha\x00", TRAILING, 9),
    (b"\x08\x00", TRAILING, 1),
    (b"\x03\x00\x00\x00\x00\x10", FIELD, 1),
    (b"\x03\xff\xff\xff\xff\x00", FIELD, 1),
    (b"\x03\x00\x00\x00\x01\x10", FIELD, 5),
    (b"\x03\x00\x00\x00", SHORT, 4),
    (b"\x05\x00\x00\x00\x01\x00\x02", FIELD, 6),
    (b"\x06\x00\x00\x00\x01\x00\x03", FIELD, 6),
    (b"\x06\x00\x00\x00\x01\x00\x01\x02..", FIELD, 7),
];

#[test]
fn finds_the_first_fault(rt: HostRuntime) {
    for (bytes, kind, place) in &FAULTS {
        assert_eq!(rt; fault(rt.alloc(), bytes), Some((*kind, *place)));
    }
}

// Values past their limits.
static PAST_LIMITS: [(&[u8], u8, u64); 20] = [
    (b"\x09\x00", FIELD, 1),
    (b"\x09\x2f\x01b", FIELD, 1),
    (b"\x09\x35\x01b", FIELD, 1),
    (b"\x09\x37\x01b", FIELD, 1),
    (b"\x09\x0b\x00\x00\x00\x00\x00\x00\x00\x40\x01b", FIELD, 2),
    (
        b"\x09\x01\x01b\x01\x00\x00\x00\x00\x00\x00\x00\x40\x00\x00",
        FIELD,
        5,
    ),
    (b"\x09\x29\x00\x00\x00\x00\x00\x00\x00\x00", FIELD, 2),
    (
        b"\x15\x00\x00\x00\x00\x00\x00\x00\x00\x01\x01o\x00\x00\x00\x00\x00\x00\x00\x00\x00\x00\x80\x01",
        FIELD,
        20,
    ),
    // An output of an end of 32,769 bytes, and the script of a submission of 1,048,577 bytes, and
    // that of a promise.
    (
        b"\x06\x00\x00\x00\x01\x00\x01\x01o\x00\x00\x00\x00\x00\x00\x00\x00\x00\x00\x80\x01",
        FIELD,
        17,
    ),
    (
        b"\x02\x01b\x01j\x02me\x3f\x00\x00\x00\x00\x00\x00\x01\x02\x01\
\x00\x00\x00\x01o\x01e\x00\x00\x00\x00\x00\x00\x00\x00\x07\x00\x10\x00\x01",
        FIELD,
        34,
    ),
    (
        b"\x0f\x01\x00\x00\x00\x00\x00\x00\x00\x01\x01q\x00\x00\x00\x01\x01\x01j\x01m\
\x00\x00\x00\x00\x00\x00\x00\x00\x00\x00\x00\x00\x00\x01o\x01e\x00\x00\x02\x00\x02\x20\
\x00\x00\x00\x00\x00\x00\x00\x07\x00\x10\x00\x01",
        FIELD,
        52,
    ),
    (
        b"\x0f\x01\x00\x00\x00\x00\x00\x00\x00\x01\x01q\x00\x00\x00\x01\x01\x01j\x01m\
\x00\x00\x00\x00\x00\x00\x00\x00\x00\x00\x00\x00\x00\x01o\x01e\x00\x00\x02\x00\x01\x00",
        FIELD,
        41,
    ),
    (
        b"\x0f\x01\x00\x00\x00\x00\x00\x00\x00\x01\x01q\x00\x00\x00\x01\x01\x01j\x01m\
\x00\x00\x00\x00\x00\x00\x00\x00\x00\x00\x00\x00\x00\x01o\x01e\x00\x00\x02\x00\x02\x21",
        FIELD,
        43,
    ),
    // A promise without its low, one of the number 0 with the lows 0 and 1, and one of the number 2
    // with the lows 0, 2, 3 and the greatest: that of 2 lacks its queue alone.
    (b"\x18\x01\x00\x00\x00\x00\x00\x00\x00\x02", SHORT, 10),
    (
        b"\x18\x01\x00\x00\x00\x00\x00\x00\x00\x00\x00\x00\x00\x00\x00\x00\x00\x00",
        FIELD,
        10,
    ),
    (
        b"\x18\x01\x00\x00\x00\x00\x00\x00\x00\x00\x00\x00\x00\x00\x00\x00\x00\x01",
        FIELD,
        10,
    ),
    (
        b"\x18\x01\x00\x00\x00\x00\x00\x00\x00\x02\x00\x00\x00\x00\x00\x00\x00\x00",
        FIELD,
        10,
    ),
    (
        b"\x18\x01\x00\x00\x00\x00\x00\x00\x00\x02\x00\x00\x00\x00\x00\x00\x00\x02",
        SHORT,
        18,
    ),
    (
        b"\x18\x01\x00\x00\x00\x00\x00\x00\x00\x02\x00\x00\x00\x00\x00\x00\x00\x03",
        FIELD,
        10,
    ),
    (
        b"\x18\x01\x00\x00\x00\x00\x00\x00\x00\x02\xff\xff\xff\xff\xff\xff\xff\xff",
        FIELD,
        10,
    ),
];

#[test]
fn finds_values_past_their_limits(rt: HostRuntime) {
    for (bytes, kind, place) in &PAST_LIMITS {
        assert_eq!(rt; fault(rt.alloc(), bytes), Some((*kind, *place)));
    }
}

// The records of new queues, and whether these are for pipe queues alone.
static CREATED: [(&[u8], bool); 6] = [
    (b"\x09\x01\x01b\x00\x00\x00", false),
    (
        b"\x09\x01\x01b\x00\x00\x01\x00\x00\x00\x00\x00\x00\x00\x01",
        true,
    ),
    (
        b"\x09\x02\x01d\x00\x01\x00\x00\x00\x00\x00\x00\x00\x02\x00",
        false,
    ),
    (
        b"\x09\x02\x01d\x00\x00\x01\x00\x00\x00\x00\x00\x00\x00\x01",
        true,
    ),
    (b"\x09\x03\x01p\x00\x00\x00\x00", false),
    (
        b"\x09\x03\x01p\x00\x00\x01\x00\x00\x00\x00\x00\x00\x00\x01\x01\x01q\x01h",
        true,
    ),
];

fn is_pipe_only(edit: &ConfEdit) -> Option<bool> {
    match edit {
        ConfEdit::CreateBatchQueue { pipe_only, .. } => Some(*pipe_only),
        ConfEdit::CreateDeviceQueue { pipe_only, .. } => Some(*pipe_only),
        ConfEdit::CreatePipeQueue { pipe_only, .. } => Some(*pipe_only),
        _ => None,
    }
}

fn reads_pipe_only(alloc: Global, bytes: &[u8]) -> Option<bool> {
    match &read_change(alloc, bytes) {
        Ok(Change::Edited(Edit::Conf(edit))) => is_pipe_only(edit),
        _ => None,
    }
}

#[test]
fn reads_new_queues(rt: HostRuntime) {
    for (bytes, pipe_only) in &CREATED {
        assert_eq!(rt; reads_pipe_only(rt.alloc(), bytes), Some(*pipe_only));
        assert!(rt; is_written_again(rt.alloc(), bytes));
    }
}

// Flags that are neither left out nor the number 1.
static NO_FLAGS: [(&[u8], u8, u64); 7] = [
    (b"\x09\x01\x01b\x00\x00\x02", FIELD, 6),
    (b"\x09\x01\x01b\x00\x00\x01", SHORT, 7),
    (
        b"\x09\x01\x01b\x00\x00\x01\x00\x00\x00\x00\x00\x00\x00",
        SHORT,
        14,
    ),
    (
        b"\x09\x01\x01b\x00\x00\x01\x00\x00\x00\x00\x00\x00\x00\x00",
        FIELD,
        7,
    ),
    (
        b"\x09\x02\x01d\x00\x00\x01\x00\x00\x00\x00\x00\x00\x00\x02",
        FIELD,
        7,
    ),
    (
        b"\x09\x03\x01p\x00\x00\x01\x01\x00\x00\x00\x00\x00\x00\x01\x00",
        FIELD,
        7,
    ),
    (b"\x09\x01\x01b\x00\x00\x00\x00", TRAILING, 7),
];

#[test]
fn finds_what_is_no_flag(rt: HostRuntime) {
    for (bytes, kind, place) in &NO_FLAGS {
        assert_eq!(rt; fault(rt.alloc(), bytes), Some((*kind, *place)));
    }
}
