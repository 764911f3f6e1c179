//! Numbers and moments as texts, by hand.

use nqs_moments::*;
use nqs_text::*;
use std::alloc::Global;
use std::rt::HostRuntime;

static NUMBERS: [(&[u8], Result<u64, NumberFault>); 8] = [
    (b"0", Ok(0)),
    (b"0042", Ok(42)),
    (b"18446744073709551615", Ok(u64::MAX)),
    (b"18446744073709551616", Err(NumberFault::TooLarge)),
    (b"99999999999999999999999", Err(NumberFault::TooLarge)),
    (b"99999999999999999999999x", Err(NumberFault::BadByte(23))),
    (b"", Err(NumberFault::Empty)),
    (b"+1", Err(NumberFault::BadByte(0))),
];

#[test]
fn reads_numbers(rt: HostRuntime) {
    for (bytes, answer) in &NUMBERS {
        assert_eq!(rt; read_u64(bytes), *answer);
    }
}

static MOMENTS: [(&[u8], Result<u64, MomentFault>); 12] = [
    (b"1970-01-01T00:00:00", Ok(0)),
    (b"1970-01-02T00:00:00", Ok(86_400)),
    (b"2000-01-01T00:00:00", Ok(946_684_800)),
    (b"9999-12-31T00:00:00", Ok(253_402_214_400)),
    (b"9999-12-31T23:59:59", Ok(253_402_300_799)),
    (b"2001-02-29T00:00:00", Err(MomentFault::Range)),
    (b"1969-12-31T23:59:59", Err(MomentFault::Range)),
    (b"2000-01-01T24:00:00", Err(MomentFault::Range)),
    (b"2001-02", Err(MomentFault::Form(7))),
    (b"2001-02-03 00:00:00", Err(MomentFault::Form(10))),
    (b"2001-02-03T00:00:00Z", Err(MomentFault::Form(19))),
    (b"", Err(MomentFault::Form(0))),
];

#[test]
fn reads_moments(rt: HostRuntime) {
    for (bytes, answer) in &MOMENTS {
        assert_eq!(rt; read_moment(bytes), *answer);
    }
}

fn printed(alloc: Global, moment: u64) -> Result<Vec<u8>, PrintFault> {
    let mut out = Vec::new(alloc);
    print_moment(alloc, moment, &mut out)?;
    Ok(out)
}

fn prints(alloc: Global, moment: u64, text: &[u8]) -> bool {
    match printed(alloc, moment) {
        Ok(out) => out.as_slice() == text,
        Err(_) => false,
    }
}

fn is_past_the_last(alloc: Global, moment: u64) -> bool {
    matches!(printed(alloc, moment), Err(PrintFault::Range))
}

static PRINTED: [(u64, &[u8]); 3] = [
    (86_400, b"1970-01-02T00:00:00"),
    (951_827_696, b"2000-02-29T12:34:56"),
    (253_402_214_400, b"9999-12-31T00:00:00"),
];

#[test]
fn prints_moments(rt: HostRuntime) {
    let alloc = rt.alloc();
    for (moment, text) in &PRINTED {
        assert!(rt; prints(alloc, *moment, text));
    }
    assert!(rt; is_past_the_last(alloc, 253_402_214_401));
}
