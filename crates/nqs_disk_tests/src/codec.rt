//! Fields of each kind by hand: written, taken at their places, cut short, and the first at fault.

use nqs_base::{Extent, Memory, Name};
use nqs_codec::*;
use std::alloc::Global;
use std::rt::HostRuntime;
use std::test::Fail;

// A field of each kind, in the order of the table below.
static FIELDS: [u8; 38] = [
    7, 1, 2, 1, 2, 3, 4, 0, 0, 0, 1, 0, 0, 0, 2, 0, 0, 0, 2, 9, 8, 3, b'h', b'-', b'1', 5, b'a',
    b'/', b'.', b'b', b'/', 1, 0, 0, 0, 0, 0, 0,
];

fn written(alloc: Global) -> Result<Vec<u8>, Memory> {
    let mut out = Vec::new(alloc);
    put_u8(7, &mut out)?;
    put_u16(0x102, &mut out)?;
    put_u32(0x102_0304, &mut out)?;
    put_u64(0x1_0000_0002, &mut out)?;
    put_bytes(&[9, 8], &mut out)?;
    if let Ok(name) = Name::read(b"h-1") {
        put_name(&name, &mut out)?;
    }
    put_path(b"a/.b/", &mut out)?;
    put_bool(true, &mut out)?;
    put_opt_tag(false, &mut out)?;
    put_bytes(b"", &mut out)?;
    put_bool(false, &mut out)?;
    Ok(out)
}

#[test]
fn puts_fields(rt: HostRuntime) -> Result<(), Fail> {
    let out = written(rt.alloc())?;
    assert_eq!(rt; out.as_slice(), FIELDS.as_slice());
    Ok(())
}

fn extent(place: u64, length: u32) -> Extent {
    Extent { place, length }
}

fn has_name() -> bool {
    match &take_name(&FIELDS, 21) {
        Ok((name, next)) => name.as_bytes() == b"h-1".as_slice() && *next == 25,
        Err(_) => false,
    }
}

// Asserted once, at the end: each assertion is a way out, and such tests are proved slowly.
#[test]
fn takes_fields(rt: HostRuntime) {
    let numbers = [
        take_u8(&FIELDS, 0) == Ok((7, 1)),
        take_u16(&FIELDS, 1) == Ok((258, 3)),
        take_u32(&FIELDS, 3) == Ok((16_909_060, 7)),
        take_u64(&FIELDS, 7) == Ok((4_294_967_298, 15)),
        take_bool(&FIELDS, 31) == Ok((true, 32)),
        take_opt_tag(&FIELDS, 32) == Ok((false, 33)),
    ];
    let bytes = [
        take_bytes(&FIELDS, 15) == Ok((extent(19, 2), 21)),
        has_name(),
        take_path(&FIELDS, 25) == Ok((extent(26, 5), 31)),
        take_bytes(&FIELDS, 33) == Ok((extent(37, 0), 37)),
    ];
    assert_eq!(rt; (numbers, bytes), ([true; 6], [true; 4]));
}

#[test]
fn finds_the_end(rt: HostRuntime) {
    let ends = [
        take_u8(&[], 0) == Err(Short(0)),
        take_u16(&[1, 2], 1) == Err(Short(2)),
        take_u32(&[1, 2, 3], 0) == Err(Short(3)),
        take_u64(&[0; 7], 0) == Err(Short(7)),
        take_bytes(&[0, 0, 0, 2, 9], 0) == Err(Short(5)),
        take_u8(&[1, 2], u64::MAX) == Err(Short(2)),
    ];
    assert_eq!(rt; ends, [true; 6]);
}

// Bytes that are no name, and why.
static NAMES: [(&[u8], FieldFault); 6] = [
    (b"", FieldFault::Short(0)),
    (&[0], FieldFault::Bad(0)),
    (&[16], FieldFault::Bad(0)),
    (&[2, b'-'], FieldFault::Short(2)),
    (&[2, b'a', b'.', 0], FieldFault::Bad(2)),
    (&[1, b'1'], FieldFault::Bad(1)),
];

// Bytes that are no path, and why.
static PATHS: [(&[u8], FieldFault); 7] = [
    (b"", FieldFault::Short(0)),
    (&[0], FieldFault::Bad(0)),
    (&[3, b'/', b'a'], FieldFault::Short(3)),
    (&[2, b'/', b'a'], FieldFault::Bad(1)),
    (&[2, b'a', b' '], FieldFault::Bad(2)),
    (&[4, b'.', b'.', b'/', 127], FieldFault::Bad(4)),
    (&[4, b'a', b'/', b'.', b'.'], FieldFault::Bad(0)),
];

#[test]
fn finds_the_first_fault(rt: HostRuntime) {
    let flags = [
        take_bool(&[1, 2], 1) == Err(FieldFault::Bad(1)),
        take_opt_tag(&[1], 1) == Err(FieldFault::Short(1)),
    ];
    assert_eq!(rt; flags, [true; 2]);
    for (bytes, fault) in &NAMES {
        assert!(rt;
            take_name(bytes, 0).is_err_and(|e| e == *fault),
            "{fault:?}"
        );
    }
    for (bytes, fault) in &PATHS {
        assert_eq!(rt; take_path(bytes, 0), Err(*fault));
    }
}
