//! Tags, by the test vectors that are published with the algorithm.

use nqs_seal::hmac;
use std::alloc::Global;
use std::rt::HostRuntime;

fn is_tag(alloc: Global, key: &[u8], message: &[u8], tag: &str) -> bool {
    match hex::encode(alloc, hmac(key, message)) {
        Ok(text) => text.as_str() == tag,
        Err(_) => false,
    }
}

static COUNTED: [u8; 25] = [
    1, 2, 3, 4, 5, 6, 7, 8, 9, 10, 11, 12, 13, 14, 15, 16, 17, 18, 19, 20, 21, 22, 23, 24, 25,
];

// Keys up to a block, of 20, 4, 20, 25 and 20 bytes. The last vector is published cut to 16 bytes.
#[test]
fn keys_up_to_a_block(rt: HostRuntime) {
    let alloc = rt.alloc();
    let shown = [
        is_tag(
            alloc,
            &[0x0b; 20],
            b"Hi There",
            "b0344c61d8db38535ca8afceaf0bf12b881dc200c9833da726e9376c2e32cff7",
        ),
        is_tag(
            alloc,
            b"Jefe",
            b"what do ya want for nothing?",
            "5bdcc146bf60754e6a042426089575c75a003f089d2739839dec58b964ec3843",
        ),
        is_tag(
            alloc,
            &[0xaa; 20],
            &[0xdd; 50],
            "773ea91e36800e46854db8ebd09181a72959098b3ef8c122d9635514ced565fe",
        ),
        is_tag(
            alloc,
            &COUNTED,
            &[0xcd; 50],
            "82558a389a443c0ea4cc819899f2083a85f0faa3e578f8077a2e3ff46729665b",
        ),
        is_tag(
            alloc,
            &[0x0c; 20],
            b"Test With Truncation",
            "a3b6167473100ee06e0c796c2955552bfa6f7c0a6a8aef8b93f860aab0cd20c5",
        ),
    ];
    assert_eq!(rt; shown, [true; 5]);
}

// A key of 131 bytes is hashed first.
#[test]
fn keys_of_more_than_a_block(rt: HostRuntime) {
    let alloc = rt.alloc();
    let shown = [
        is_tag(
            alloc,
            &[0xaa; 131],
            b"Test Using Larger Than Block-Size Key - Hash Key First",
            "60e431591ee0b67f0d8a26aacbf5b77f8e0bc6213728c5140546040f0ee37f54",
        ),
        is_tag(
            alloc,
            &[0xaa; 131],
            b"This is a test using a larger than block-size key and a larger than block-size data. \
              The key needs to be hashed before being used by the HMAC algorithm.",
            "9b09ffa71b942fcb27635fbcd5b0e944bfdc63644f0713938a7f51535c3a35e2",
        ),
    ];
    assert_eq!(rt; shown, [true; 2]);
}
