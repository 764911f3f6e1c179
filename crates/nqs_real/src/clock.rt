//! The system's clock.

ghost use Rattle.std.specs.Prelude.{◌≡◌, None};

use nqs_outside::Clock;
use std::rt::HostRuntime;
use std::time::{SystemTime, UNIX_EPOCH};

/// The system's clock. Where it can't be read, or stands before 1970, the last moment that it gave
/// stands for it, at first 0.
#[derive(Drop)]
pub struct SystemClock {
    rt: HostRuntime,
    last: u64,
}

impl SystemClock {
    /// The clock, which has given no moment yet.
    pub fn new(rt: HostRuntime) -> SystemClock
        ensures { result.last ≡ 0 }
    {
        SystemClock { rt, last: 0 }
    }
}

/// The seconds since 1970, where the clock can be read and stands behind it.
pub(crate) fn seconds(rt: &HostRuntime) -> Option<u64> {
    let now = SystemTime::now(rt).ok()?;
    let since = now.duration_since(UNIX_EPOCH).ok()?;
    Some(since.as_secs())
}

impl Clock for SystemClock {
    ghost given = { λ _. None };

    fn now(&mut self) -> u64 {
        if let Some(seconds) = seconds(&self.rt) {
            self.last = seconds;
        }
        self.last
    }
}
