//! The texts of faults, as a person reads them. No contract says them, and two that are swapped
//! would be proved. Want of memory has none here: no test makes one.

use nqs_store::{LoadFault, StoreFault};
use nqs_types::Which;
use std::alloc::Global;
use std::fmt::Display;
use std::test::Fail;

fn says<T: Display>(alloc: Global, fault: &T, text: &str) -> Result<bool, Fail> {
    Ok(format!(in alloc; "{fault}")?.as_str() == text)
}

#[test]
fn faults_of_a_host_say_what_failed(rt: HostRuntime) -> Result<(), Fail> {
    let alloc = rt.alloc();
    let said = [
        says(alloc, &LoadFault::Disk(Which::Root), "a disk failed")?,
        says(
            alloc,
            &LoadFault::NotNqs(Which::Spool, 12),
            "not a host's disk: byte 12",
        )?,
        says(alloc, &StoreFault::Disk(Which::Root), "a disk failed")?,
        says(alloc, &StoreFault::Stopped, "the store is stopped")?,
    ];
    assert_eq!(rt; said, [true; 4]);
    Ok(())
}
