//! What is left of jobs: processes that live on after their job's shell, its shepherd or its daemon
//! has ended.
//!
//! The shepherd of a job and all that it starts have the variable `NQS_JOB` in the environment that
//! they were started with: the job's folder, as a path from the root without links. So a look
//! through the files `/proc/NUMBER/environ` finds each of them, whatever its parent, group or
//! session. The shell that starts the shepherd has a path below that folder: it is none of the
//! job's, but goes with its host. Trusted: that the system shows its processes there and starts
//! none with another environment than it was given. Not found are a process that took the variable
//! out of its environment or wrote over it, what such a process started, and a process of a user
//! whose files there can't be read.

ghost use Rattle.std.specs.Prelude.{◌≡◌, ◌<◌, ◌≤◌};
ghost use Rattle.nqs_real.specs.Marks.{is_mark, is_marked};

use crate::notices::tell;
use crate::program::end_processes;
use crate::shortage::{Waits, is_shortage};
use nqs_text::read_u64;
use std::alloc::AllocError;
use std::io::ErrorKind;
use std::process::Command;
use std::rt::HostRuntime;
use std::{fs, io, process};

/// The variable that each process of a job has.
const JOB: &str = "NQS_JOB";

/// How many looks there are at most when a daemon starts, and how many are in quick succession when
/// a job ends: in about a second and a half.
const LOOKS: u32 = 20;

/// The wait after the first look, in milliseconds; each is twice the one before.
const FIRST_WAIT: u64 = 1;

/// The longest wait between two of the first looks, in milliseconds.
const QUICK_WAIT: u64 = 100;

/// The longest wait between two later looks, in milliseconds: a minute.
const LAST_WAIT: u64 = 60_000;

/// What the system answers of a process that has ended: ESRCH.
const NO_PROCESS: i32 = 3;

/// An entry of an environment by which processes are known.
#[derive(Drop)]
pub enum Mark {
    /// The entry is this one.
    Is(String),
    /// The entry begins so.
    Begins(String),
}

fn is_mark(entry: &[u8], mark: &Mark) -> bool
    ensures { result ≡ is_mark mark.now entry.now }
{
    match mark {
        Mark::Is(text) => entry == text.as_bytes(),
        Mark::Begins(text) => entry.starts_with(text.as_bytes()),
    }
}

/// Is the mark an entry of this environment, whose entries are parted by NULs?
pub fn is_marked(environ: &[u8], mark: &Mark) -> bool
    ensures { result ≡ is_marked mark.now environ.now }
{
    environ
        .split(|byte| *byte == 0)
        .any(|entry| is_mark(entry, mark))
}

// The number of a process, where the name of a file of `/proc` is one.
fn process_number(name: &str) -> Option<u32> {
    let number = read_u64(name.as_bytes()).ok()?;
    u32::try_from(number).ok()
}

// A process that has ended, or that is another user's.
fn is_passed_over(e: &io::Error) -> bool {
    matches!(e.kind(), ErrorKind::NotFound | ErrorKind::PermissionDenied)
        || e.raw_os_error() == Some(NO_PROCESS)
}

fn read_environ(rt: &HostRuntime, number: u32) -> io::Result<Vec<u8>> {
    let path = format!(in rt.alloc(); "/proc/{number}/environ")?;
    fs::read(rt, &path)
}

// The environment that a process was started with; an empty one of a process that is passed over.
fn environ_of(rt: &HostRuntime, number: u32) -> io::Result<Vec<u8>> {
    match read_environ(rt, number) {
        Err(e) if is_passed_over(&e) => Ok(Vec::new(rt.alloc())),
        read => read,
    }
}

// Adds the number of a process by the name of a file of `/proc`, if it has this mark and is not
// this process.
fn add_marked(
    rt: &HostRuntime,
    name: &str,
    mark: &Mark,
    found: &mut Vec<String>,
) -> io::Result<()> {
    let Some(number) = process_number(name) else {
        return Ok(());
    };
    if number != process::id(rt.process()) && is_marked(&environ_of(rt, number)?, mark) {
        found.push(format!(in rt.alloc(); "{number}")?)?;
    }
    Ok(())
}

// The same for each file of `/proc`.
fn add_each_marked(rt: &HostRuntime, mark: &Mark, found: &mut Vec<String>) -> io::Result<()> {
    for entry in fs::read_dir(rt, "/proc")? {
        add_marked(rt, entry?.file_name(), mark, found)?;
    }
    Ok(())
}

// The numbers of the processes with this mark, but for this process.
fn look(rt: &HostRuntime, mark: &Mark) -> io::Result<Vec<String>> {
    let mut found = Vec::new(rt.alloc());
    add_each_marked(rt, mark, &mut found)?;
    Ok(found)
}

// Sends SIGKILL to these processes. Are there none?
fn end_these(rt: &HostRuntime, found: &[String]) -> io::Result<bool> {
    if found.is_empty() {
        return Ok(true);
    }
    end_processes(rt, found)?;
    Ok(false)
}

// Sends SIGKILL to each process that a look finds. Did it find none? Where the system has a
// shortage it may not have found all.
fn end_found(rt: &HostRuntime, mark: &Mark) -> io::Result<bool> {
    let found = look(rt, mark)?;
    end_these(rt, &found)
}

fn is_calm(made: io::Result<bool>) -> io::Result<bool> {
    match made {
        Err(e) if is_shortage(&e) => Ok(false),
        made => made,
    }
}

// The longest wait after this look.
fn longest_after(look: u32) -> u64
    ensures quick { look < 20 → result ≤ 100 }
    ensures later { 20 ≤ look → result ≡ 60000 }
{
    if look < LOOKS { QUICK_WAIT } else { LAST_WAIT }
}

// Ends each process with this mark, but for this process, by SIGKILL: it looks until two looks in a
// row find none, since a look misses a process that is just between two programs, and one whose
// parent the look ended. The first twenty looks take about a second and a half; later ones are up
// to a minute apart. Where there are some left after so many looks, it fails with `TimedOut`.
fn end_marked(rt: &HostRuntime, mark: &Mark, looks: u32) -> io::Result<()> {
    let mut was_calm = false;
    let mut waits = Waits::new(FIRST_WAIT);
    for look in 0..looks {
        let is_calm = is_calm(end_found(rt, mark))?;
        if is_calm && was_calm {
            return Ok(());
        }
        was_calm = is_calm;
        waits.wait(rt, longest_after(look));
    }
    Err(io::Error::from(ErrorKind::TimedOut))
}

/// Has what a command starts be known as a process of the job with this folder.
pub(crate) fn put_mark(command: &mut Command, place: &str) -> Result<(), AllocError> {
    command.env(JOB, place)?;
    Ok(())
}

/// Has what a command starts be known as the shell of that job, which isn't ended with the job.
pub(crate) fn put_shell_mark(
    rt: &HostRuntime,
    command: &mut Command,
    place: &str,
) -> Result<(), AllocError> {
    command.env(JOB, format!(in rt.alloc(); "{place}/shell")?)?;
    Ok(())
}

/// Ends what is left of the job with this folder, but for this process. It returns when none is
/// left: of one that SIGKILL doesn't end, the looks grow to a minute apart.
pub fn end_job(rt: &HostRuntime, place: &str) -> io::Result<()> {
    let mark = Mark::Is(format!(in rt.alloc(); "{JOB}={place}")?);
    end_marked(rt, &mark, u32::MAX)
}

fn mark_of_jobs(rt: &HostRuntime, jobs: &str) -> io::Result<Mark> {
    Ok(Mark::Begins(format!(in rt.alloc(); "{JOB}={jobs}/")?))
}

/// Ends what is left of each job whose folder is in this one, but for this process. Where there is
/// some left after twenty looks, in about a second and a half, it fails with `TimedOut`.
pub(crate) fn end_jobs(rt: &HostRuntime, jobs: &str) -> io::Result<()> {
    end_marked(rt, &mark_of_jobs(rt, jobs)?, LOOKS)
}

// The name of the folder of a job in `jobs`, of which a process with this environment is.
fn job_of<'a>(environ: &'a str, jobs: &str) -> Option<&'a str> {
    for entry in environ.split('\0') {
        if let Some(rest) = path_of(entry).and_then(|path| path.strip_prefix(jobs)) {
            return rest.strip_prefix("/")?.split('/').next();
        }
    }
    None
}

// The path that is the mark, where the entry is one.
fn path_of(entry: &str) -> Option<&str> {
    entry.strip_prefix(JOB)?.strip_prefix("=")
}

// The request whose job has a folder with this name: SEQ.HOST of SEQ.HOST.START.
fn request_of(name: &str) -> &str {
    match name.rsplit_once('.') {
        Some((request, _)) => request,
        None => name,
    }
}

fn tell_process(rt: &HostRuntime, number: &str, jobs: &str) -> io::Result<()> {
    let command = fs::read_to_string(rt, format!(in rt.alloc(); "/proc/{number}/comm")?)?;
    let environ = fs::read_to_string(rt, format!(in rt.alloc(); "/proc/{number}/environ")?)?;
    let request = request_of(job_of(&environ, jobs).unwrap_or("a job"));
    let command = command.trim();
    let text = format!(in rt.alloc(); "process {number} ({command}) of {request} can't be ended")?;
    tell(rt, &text);
    Ok(())
}

/// Says on standard error which processes of jobs with folders in this one there are: a line each,
/// with its number, its command and its request.
pub(crate) fn tell_left(rt: &HostRuntime, jobs: &str) -> io::Result<()> {
    for number in look(rt, &mark_of_jobs(rt, jobs)?)? {
        let _ = tell_process(rt, &number, jobs);
    }
    Ok(())
}
