//! Names by the lines of the system's accounts.

use nqs_real::{account_name, caller_name};
use std::rt::HostRuntime;
use std::test::Fail;

// Lines, the number that is asked for, and the name that is had.
static LINES: [(&str, &[u8], &[u8]); 15] = [
    ("1000", b"ann:x:1000:1000:Ann,,,:/home/ann:/bin/sh", b"ann"),
    ("0", b"root:x:0:0:root:/root:/bin/bash", b"root"),
    ("7", b"ann:x:7:7:::", b"ann"),
    ("7", b"ann::7::::a:b", b"ann"),
    ("7", b":x:7:7:::", b""),
    // The number has to be the third part, whole, and there.
    ("1000", b"ann:x:1001:1000:Ann,,,:/home/ann:/bin/sh", b""),
    ("1000", b"ann:1000:1001:1000:Ann,,,:/home/ann:/bin/sh", b""),
    ("100", b"ann:x:1000:1000::/:/bin/sh", b""),
    ("1000", b"ann:x:01000:1000::/:/bin/sh", b""),
    // There have to be seven parts.
    ("1000", b"ann:x:1000:1000::/", b""),
    ("1000", b"ann:x:1000:", b""),
    ("1000", b"ann:x:1000", b""),
    ("1000", b"ann:x", b""),
    ("1000", b"ann", b""),
    ("1000", b"", b""),
];

#[test]
fn names_stand_with_their_numbers(rt: HostRuntime) -> Result<(), Fail> {
    for (number, line, name) in &LINES {
        let had = account_name(number, line).unwrap_or(b"");
        assert_eq!(rt; had, *name);
    }
    Ok(())
}

// Whoever runs the tests has an account.
#[test]
fn who_runs_this_has_a_name(rt: HostRuntime) -> Result<(), Fail> {
    let name = caller_name(&rt)?;
    assert!(rt; name.is_some());
    Ok(())
}
