//! Times and sizes as they are typed, by hand.

use nqs_limits::{read_size, read_time};
use nqs_text::NumberFault;

static TIMES: [(&[u8], Result<u64, NumberFault>); 18] = [
    (b"90", Ok(90)),
    (b"1:30", Ok(90)),
    (b"1:30:00", Ok(5_400)),
    (b"100:00:59", Ok(360_059)),
    (b"00:007", Ok(7)),
    (b"", Err(NumberFault::Empty)),
    (b"1x", Err(NumberFault::BadByte(1))),
    (b":30", Err(NumberFault::BadByte(0))),
    (b"1:60", Err(NumberFault::BadByte(2))),
    (b"1:75:3x", Err(NumberFault::BadByte(2))),
    (b"1:5x:99", Err(NumberFault::BadByte(3))),
    (b"1:", Err(NumberFault::BadByte(2))),
    (b"1::5", Err(NumberFault::BadByte(2))),
    (b"1:02:03:04", Err(NumberFault::BadByte(7))),
    (b"18446744073709551615", Ok(u64::MAX)),
    (b"18446744073709551616", Err(NumberFault::TooLarge)),
    (b"307445734561825860:16", Err(NumberFault::TooLarge)),
    (b"18446744073709551616:x", Err(NumberFault::BadByte(21))),
];

#[test]
fn times(rt: HostRuntime) {
    for (bytes, answer) in &TIMES {
        assert_eq!(rt; read_time(bytes), *answer);
    }
}

static SIZES: [(&[u8], Result<u64, NumberFault>); 12] = [
    (b"0b", Ok(0)),
    (b"007kb", Ok(7_168)),
    (b"64mb", Ok(67_108_864)),
    (b"17179869183gb", Ok(18_446_744_072_635_809_792)),
    (b"17179869184gb", Err(NumberFault::TooLarge)),
    (b"18446744073709551616b", Err(NumberFault::TooLarge)),
    (b"", Err(NumberFault::Empty)),
    (b"64", Err(NumberFault::BadByte(2))),
    (b"kb", Err(NumberFault::BadByte(0))),
    (b"64Mb", Err(NumberFault::BadByte(2))),
    (b"64mbx", Err(NumberFault::BadByte(2))),
    (b"6 4mb", Err(NumberFault::BadByte(1))),
];

#[test]
fn sizes(rt: HostRuntime) {
    for (bytes, answer) in &SIZES {
        assert_eq!(rt; read_size(bytes), *answer);
    }
}
