//! Shortages of the system: no process, memory, open file or space on a disk is left for now. What
//! meets one isn't refused, it is tried again.

ghost use Rattle.std.specs.Prelude.{◌≡◌, ◌*◌, ◌-◌, ◌^◌, min, true, None};
ghost use Rattle.std.specs.IoError.{error_kind, raw_os_error};
ghost use Rattle.nqs_real.specs.Shortages.{is_short_kind};

use std::io::ErrorKind;
use std::rt::HostRuntime;
use std::time::Duration;
use std::{io, thread};

/// The system's table of open files is full: ENFILE.
const NO_SYSTEM_FILE: i32 = 23;

/// This process has as many open files as it may have: EMFILE.
const NO_FILE: i32 = 24;

/// The first wait for a shortage to pass, in milliseconds.
const FIRST_WAIT: u64 = 1;

/// The longest wait for a shortage to pass, in milliseconds.
const LAST_WAIT: u64 = 1000;

/// Waits that grow: each is twice the one before, up to a longest.
#[derive(Clone, Copy)]
pub(crate) struct Waits {
    next: u64,
}

impl Waits {
    /// Waits from this one on, in milliseconds.
    pub(crate) fn new(first: u64) -> Waits {
        Waits { next: first }
    }

    /// Waits for a shortage to pass, each made by `wait_shortage`.
    pub(crate) fn of_shortage() -> Waits {
        Waits::new(FIRST_WAIT)
    }

    /// Makes the next wait. The one after it is twice as long, at most this many milliseconds.
    pub(crate) fn wait(&mut self, rt: &HostRuntime, longest: u64)
        ensures { self.new.next ≡ min longest (min (self.old.next * 2) (2 ^ 64 - 1)) }
    {
        thread::sleep(rt, Duration::from_millis(self.next));
        self.next = longest.min(self.next.saturating_mul(2));
    }

    /// Makes the next wait for a shortage to pass, of a second at most.
    pub(crate) fn wait_shortage(&mut self, rt: &HostRuntime) {
        self.wait(rt, LAST_WAIT);
    }
}

// Is it a failure of this kind for want of a process, memory, or space on a disk?
fn is_short_kind(kind: ErrorKind) -> bool
    ensures { result ≡ is_short_kind kind }
{
    matches!(
        kind,
        ErrorKind::WouldBlock
            | ErrorKind::OutOfMemory
            | ErrorKind::StorageFull
            | ErrorKind::QuotaExceeded
    )
}

/// Has a call failed for want of what may come back: a process, memory, an open file, or space on a
/// disk?
pub(crate) fn is_shortage(e: &io::Error) -> bool
    ensures kind { is_short_kind (error_kind e.now) ≡ true → result ≡ true }
    ensures other { raw_os_error e.now ≡ None → result ≡ is_short_kind (error_kind e.now) }
{
    match e.raw_os_error() {
        Some(NO_SYSTEM_FILE | NO_FILE) => true,
        _ => is_short_kind(e.kind()),
    }
}
