//! Files of jobs' outputs.

ghost use Rattle.std.specs.Prelude.{◌≡◌, None, IfOk};
ghost use Rattle.nqs_real.specs.Owners.{IsKept};

use crate::counted::counted;
use crate::directory::user_of;
use crate::folder::{path_in, sync_folder};
use crate::lost::put_lost;
use crate::owners::RunsAs;
use crate::put::{Whose, is_passing, make_whose, put_file};
use crate::shortage::is_shortage;
use nqs_outside::{Failed, Outlet};
use std::io;
use std::io::ErrorKind;
use std::rt::HostRuntime;
use std::time::{Duration, Instant};

/// How long the directory of users isn't asked after it was late, in seconds: the daemon waits for
/// it.
const REST: u64 = 30;

/// The files below the folder `output` of a host's folder, each at its path. One that can't be
/// written there (its path is a folder, or leads below a file or out of the folder) goes to the
/// folder `output.lost` beside it, under a name of its own, and a line on standard error says so; a
/// call fails only where that can't be done either, or something is wanting that may be there
/// later, as space. Where jobs run as their owners, a file whose path's first part is a user's name
/// is his, any other root's, and all folders are root's. Trusted: that no job puts a link there
/// that leads elsewhere, which one that runs as its owner can't.
#[derive(Drop)]
pub struct FileOutlet {
    rt: HostRuntime,
    folder: String,
    runs_as: RunsAs,
    // When the directory of users was late last.
    late: Option<Instant>,
    faults: u64,
}

// The folder of outputs in that of a host, which is made where it isn't there.
fn make_output(rt: &HostRuntime, parent: &str, whose: Whose) -> io::Result<String> {
    let path = path_in(rt, parent, "output")?;
    if make_whose(rt, &path, whose)? {
        sync_folder(rt, parent)?;
    }
    Ok(path)
}

impl FileOutlet {
    /// The outlet in the folder of a host whose jobs run so. Where the folder `output` isn't there
    /// it is made.
    pub fn open(rt: HostRuntime, folder: &str, runs_as: RunsAs) -> io::Result<FileOutlet>
        ensures { IfOk result (λ outlet. outlet.faults ≡ 0) }
    {
        let whose = match runs_as {
            RunsAs::Daemon => Whose::Own,
            RunsAs::Owners => Whose::Shared(None),
        };
        let folder = make_output(&rt, folder, whose)?;
        Ok(FileOutlet {
            rt,
            folder,
            runs_as,
            late: None,
            faults: 0,
        })
    }

    // Was the directory of users late within the last half a minute?
    fn rests(&self, now: Instant) -> bool {
        match self.late {
            Some(late) => now.saturating_duration_since(late) < Duration::from_secs(REST),
            None => false,
        }
    }

    // Whose the file of this path is, where jobs run as their owners. Where the directory of users
    // is late, the files wait.
    fn owned(&mut self, path: &[u8]) -> io::Result<Whose>
        ensures kept { IfOk result (IsKept RunsAs.Owners) }
        ensures faults { self.new.faults ≡ self.old.faults }
    {
        let now = Instant::now(&self.rt)?;
        if self.rests(now) {
            return Err(io::Error::from(ErrorKind::WouldBlock));
        }
        match user_of(&self.rt, path) {
            Ok(user) => Ok(Whose::Shared(user)),
            Err(e) => {
                if is_shortage(&e) {
                    self.late = Some(now);
                }
                Err(e)
            }
        }
    }

    // Whose the file of this path is.
    fn whose(&mut self, path: &[u8]) -> io::Result<Whose>
        ensures kept { IfOk result (IsKept self.old.runs_as) }
        ensures faults { self.new.faults ≡ self.old.faults }
    {
        match self.runs_as {
            RunsAs::Daemon => Ok(Whose::Own),
            RunsAs::Owners => self.owned(path),
        }
    }

    fn put(&mut self, path: &[u8], bytes: &[u8]) -> io::Result<()>
        ensures { self.new.faults ≡ self.old.faults }
    {
        let whose = self.whose(path)?;
        match put_file(&self.rt, &self.folder, path, bytes, whose) {
            Err(e) if !is_passing(&e) => put_lost(&self.rt, &self.folder, path, bytes, whose, &e),
            made => made,
        }
    }
}

impl Outlet for FileOutlet {
    ghost filings = { λ _. None };

    ghost faults = { λ outlet. outlet.faults };

    fn write_file(&mut self, path: &[u8], bytes: &[u8]) -> Result<(), Failed> {
        let made = self.put(path, bytes);
        counted(made, &mut self.faults)
    }
}
