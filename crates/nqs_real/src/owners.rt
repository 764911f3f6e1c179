//! As whom jobs run.

ghost use Rattle.std.specs.Prelude.{◌≡◌, false, IfOk};

use std::os::unix::fs::MetadataExt;
use std::rt::HostRuntime;
use std::{fs, io};

/// As whom the jobs of a host run.
#[derive(Clone, Copy, Debug, PartialEq, Eq)]
pub enum RunsAs {
    /// As the user that runs the daemon.
    Daemon,
    /// Each as its owner.
    Owners,
}

/// As whom the jobs of a site run, which hears who has its key alone, or everyone: as their owners
/// where this process is root's and it isn't everyone who is heard.
pub fn runs_as(rt: &HostRuntime, is_sealed: bool) -> io::Result<RunsAs>
    ensures { is_sealed ≡ false → IfOk result (λ found. found ≡ RunsAs.Daemon) }
{
    if is_sealed && fs::metadata(rt, "/proc/self")?.uid() == 0 {
        Ok(RunsAs::Owners)
    } else {
        Ok(RunsAs::Daemon)
    }
}
