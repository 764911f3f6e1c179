//! Orders that a shortage of the system keeps back, until they can be started.

ghost use Rattle.std.specs.Prelude.{◌≡◌, ◌↔◌, IsTrue, string_bytes};

use crate::starter::{LaunchedJob, Starter};
use std::io;
use std::process::Child;

/// A job that is to be started as soon as it can be: what its shepherd is to read, and whether it
/// was killed meanwhile.
#[derive(Drop)]
pub(crate) struct KeptOrder {
    pub job: LaunchedJob,
    pub order: String,
    pub script: Vec<u8>,
    pub is_killed: bool,
}

impl KeptOrder {
    /// Starts it.
    pub(crate) fn start(&self, starter: &Starter) -> io::Result<Child> {
        starter.begin(&self.job, &self.order, &self.script, self.is_killed)
    }

    // Is it the order of the job with this folder?
    fn is_at(&self, place: &str) -> bool
        ensures { IsTrue result ↔ (string_bytes self.now.job.place ≡ place.now) }
    {
        self.job.place.as_str() == place
    }
}

/// Notes that the job with this folder is to be killed as soon as it is started. Is its order kept?
pub(crate) fn note_kill(orders: &mut Vec<KeptOrder>, place: &str) -> bool {
    for kept in orders.iter_mut() {
        if kept.is_at(place) {
            kept.is_killed = true;
            return true;
        }
    }
    false
}
