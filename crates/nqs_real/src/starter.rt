//! What starts a job's shepherd, and starts it again until the job's end is known.

use crate::folder::{make_private, make_roots, path_in};
use crate::leftovers::put_shell_mark;
use crate::owners::RunsAs;
use crate::program::{add_words, start_quietly};
use std::fs::OpenOptions;
use std::io::{ErrorKind, Write};
use std::os::unix::fs::OpenOptionsExt;
use std::process::{Child, Command};
use std::rt::HostRuntime;
use std::{fs, io};

/// The shell.
const SHELL: &str = "/bin/sh";

/// What the shell does, by its words: the job's folder, the program, and four words of a shepherd.
/// A folder whose `order` is gone is never run again, so that goes first.
const TURNS: &str = "while [ -d \"$1\" ]; do
    NQS_JOB=$1 setpriv --pdeathsig KILL \"$2\" shepherd \"$3\" \"$4\" \"$5\" \"$6\" &&
        rm -f -- \"$1/order\" && exec rm -rf -- \"$1\"
    sleep 1
done";

/// A job that was launched: its folder, and the words by which its shepherd is told which it is.
#[derive(Drop)]
pub(crate) struct LaunchedJob {
    pub place: String,
    pub request: String,
    pub start: String,
}

// Writes a file of a job's folder, also over what an earlier try has left.
fn write_in(rt: &HostRuntime, place: &str, name: &str, bytes: &[u8]) -> io::Result<()> {
    let path = path_in(rt, place, name)?;
    let mut file = OpenOptions::new()
        .write(true)
        .create(true)
        .truncate(true)
        .mode(0o600)
        .open(rt, &path)?;
    file.write_all(bytes)
}

/// Makes the file that a job's runner looks for: the job is to end. Where its folder is gone, it
/// has ended.
pub(crate) fn write_kill(rt: &HostRuntime, place: &str) -> io::Result<()> {
    match write_in(rt, place, "kill", b"") {
        Err(e) if e.kind() == ErrorKind::NotFound => Ok(()),
        made => made,
    }
}

/// The mode of the folders on the way to a job's script, where its owner is to reach it.
pub(crate) const PASSED: u32 = 0o711;

/// Makes a folder on the way to a job's script, where it isn't there: for this process's user
/// alone, or where jobs run as their owners for all to pass through.
pub(crate) fn make_passed(rt: &HostRuntime, path: &str, runs_as: RunsAs) -> io::Result<bool> {
    match runs_as {
        RunsAs::Daemon => make_private(rt, path),
        RunsAs::Owners => make_roots(rt, path, PASSED),
    }
}

fn write_job(
    rt: &HostRuntime,
    place: &str,
    order: &str,
    script: &[u8],
    runs_as: RunsAs,
) -> io::Result<()> {
    make_passed(rt, place, runs_as)?;
    write_in(rt, place, "script", script)?;
    write_in(rt, place, "order", order.as_bytes())
}

// A job runs by this shell.
fn need_shell(rt: &HostRuntime) -> io::Result<()> {
    if fs::exists(rt, SHELL)? {
        return Ok(());
    }
    Err(io::Error::from(ErrorKind::NotFound))
}

/// Starts a shell for a job, under `setpriv`, which has the system kill it as soon as the daemon
/// ends. The shell starts the job's shepherd likewise, again a second after it ended with another
/// status than 0, until it has ended with 0, and then removes the job's folder.
#[derive(Drop)]
pub(crate) struct Starter {
    pub rt: HostRuntime,
    pub program: String,
    pub dir: String,
    pub host: String,
    pub runs_as: RunsAs,
}

impl Starter {
    fn add_words(&self, command: &mut Command, job: &LaunchedJob) -> io::Result<()> {
        let words = [
            "--pdeathsig",
            "KILL",
            SHELL,
            "-c",
            TURNS,
            "sh",
            job.place.as_str(),
            self.program.as_str(),
            self.dir.as_str(),
            self.host.as_str(),
            job.request.as_str(),
            job.start.as_str(),
        ];
        add_words(command, &words)?;
        Ok(())
    }

    fn start_by(&self, command: &mut Command, job: &LaunchedJob) -> io::Result<Child> {
        self.add_words(command, job)?;
        put_shell_mark(&self.rt, command, &job.place)?;
        start_quietly(&self.rt, command)
    }

    /// Starts the shell of a job whose folder is there.
    pub(crate) fn start(&self, job: &LaunchedJob) -> io::Result<Child> {
        let mut command = Command::new(self.rt.alloc(), "setpriv")?;
        self.start_by(&mut command, job)
    }

    /// Writes what the shepherd of a job reads, whether it is to be killed at once, and starts the
    /// shell.
    pub(crate) fn begin(
        &self,
        job: &LaunchedJob,
        order: &str,
        script: &[u8],
        is_killed: bool,
    ) -> io::Result<Child> {
        need_shell(&self.rt)?;
        write_job(&self.rt, &job.place, order, script, self.runs_as)?;
        if is_killed {
            write_kill(&self.rt, &job.place)?;
        }
        self.start(job)
    }
}
