//! Work on the storage of one host, for the scripts of `bench/` to time. It writes nothing where
//! all goes well.
//!
//! `nqs_bench journal COUNT` appends so many payloads of 100 bytes to a journal on a disk in
//! memory. `nqs_bench spool COUNT LIVE` keeps so many extents live on a disk in memory, and so
//! often frees the one that was put first and puts another in its place in the order. The disks
//! keep all their calls. The status is 0, or 2 where the words aren't one of these, or 6 where
//! memory is missing or a disk is full.
#![tactic(auto)]

mod journal;
mod spool;
mod stopped;
mod words;

use journal::append_payloads;
use spool::put_and_free;
use std::env;
use std::process::ExitCode;
use stopped::Stopped;
use words::{Work, work_of};

const BAD_WORDS: u8 = 2;

const STOPPED: u8 = 6;

fn status_of(done: Result<(), Stopped>) -> u8 {
    match done {
        Ok(()) => 0,
        Err(Stopped) => STOPPED,
    }
}

fn work(rt: &HostRuntime) -> u8 {
    let Ok(words) = env::args(rt) else {
        return BAD_WORDS;
    };
    match work_of(words) {
        Some(Work::Journal(count)) => status_of(append_payloads(rt.alloc(), count)),
        Some(Work::Spool(count, live)) => status_of(put_and_free(rt.alloc(), count, live)),
        None => BAD_WORDS,
    }
}

fn main(rt: HostRuntime) -> ExitCode {
    ExitCode::from(work(&rt))
}
