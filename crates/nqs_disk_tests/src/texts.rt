//! The texts of faults, as a person reads them. No contract says them, and two that are swapped
//! would be proved. Want of memory has none here: no test makes one.

use nqs_journal::JournalFault;
use nqs_spool::{ExtentFault, SpoolFault};
use std::alloc::Global;
use std::fmt::Display;
use std::test::Fail;

fn says<T: Display>(alloc: Global, fault: &T, text: &str) -> Result<bool, Fail> {
    Ok(format!(in alloc; "{fault}")?.as_str() == text)
}

#[test]
fn faults_of_a_journal_say_what_failed(rt: HostRuntime) -> Result<(), Fail> {
    let alloc = rt.alloc();
    let said = [
        says(alloc, &JournalFault::Disk, "the disk failed")?,
        says(alloc, &JournalFault::NotJournal(16), "no journal: byte 16")?,
        says(alloc, &JournalFault::TooLong, "the payload is too long")?,
        says(alloc, &JournalFault::Stopped, "the journal is stopped")?,
    ];
    assert_eq!(rt; said, [true; 4]);
    Ok(())
}

#[test]
fn faults_of_a_spool_say_what_failed(rt: HostRuntime) -> Result<(), Fail> {
    let alloc = rt.alloc();
    let said = [
        says(
            alloc,
            &SpoolFault::TooLong,
            "the bytes are too long for the spool",
        )?,
        says(alloc, &SpoolFault::Disk, "the disk failed")?,
        says(alloc, &ExtentFault::Bad(7), "no extent of the disk: byte 7")?,
    ];
    assert_eq!(rt; said, [true; 3]);
    Ok(())
}
