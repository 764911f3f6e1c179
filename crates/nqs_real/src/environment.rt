//! The environment of a job: some names of the daemon's own, those that the site's file `jobs.conf`
//! lists, and the job's.

ghost use Rattle.std.specs.Prelude.{◌<◌, IfSome, length};

use crate::directory::Owner;
use crate::folder::path_in;
use std::alloc::AllocError;
use std::env::VarError;
use std::io::ErrorKind;
use std::process::Command;
use std::rt::HostRuntime;
use std::{env, fs, io};

/// What each job has of the daemon's environment.
const NAMES: [&str; 7] = ["PATH", "HOME", "USER", "LOGNAME", "SHELL", "LANG", "TZ"];

/// Where a job that runs as its owner looks for programs.
const PATH: &str = "/usr/local/bin:/usr/bin:/bin";

/// Its shell.
const SHELL: &str = "/bin/sh";

// Adds a variable as this process has it. One that it hasn't, or whose value is no text, is left
// out.
fn add_variable(rt: &HostRuntime, command: &mut Command, name: &str) -> io::Result<()> {
    match env::var(rt, name) {
        Ok(value) => {
            command.env(name, value)?;
            Ok(())
        }
        Err(VarError::OutOfMemory) => Err(io::Error::from(AllocError)),
        Err(_) => Ok(()),
    }
}

/// The name in a line `env=NAME` of the file `jobs.conf`, with or without blanks around it. Any
/// other line, as a comment, has none.
fn listed_name(line: &str) -> Option<&str>
    ensures { IfSome result (λ name. 0 < length name.now) }
{
    let name = line.trim().strip_prefix("env=")?.trim();
    if name.is_empty() { None } else { Some(name) }
}

fn add_listed(rt: &HostRuntime, command: &mut Command, text: &str) -> io::Result<()> {
    for line in text.lines() {
        if let Some(name) = listed_name(line) {
            add_variable(rt, command, name)?;
        }
    }
    Ok(())
}

// The text of the file `jobs.conf`; none where it isn't there.
fn read_listed(rt: &HostRuntime, dir: &str) -> io::Result<String> {
    let path = path_in(rt, dir, "jobs.conf")?;
    match fs::read_to_string(rt, &path) {
        Err(e) if e.kind() == ErrorKind::NotFound => Ok(String::new(rt.alloc())),
        read => read,
    }
}

fn add_names(rt: &HostRuntime, command: &mut Command) -> io::Result<()> {
    for name in NAMES {
        add_variable(rt, command, name)?;
    }
    Ok(())
}

/// Has what a command starts find none of this process's environment but `PATH`, `HOME`, `USER`,
/// `LOGNAME`, `SHELL`, `LANG` and `TZ`, and what the file `jobs.conf` of the site's folder lists.
pub(crate) fn set_environment(
    rt: &HostRuntime,
    command: &mut Command,
    dir: &str,
) -> io::Result<()> {
    command.env_clear();
    add_names(rt, command)?;
    let text = read_listed(rt, dir)?;
    add_listed(rt, command, &text)
}

/// The same for a job that runs as its owner: his `HOME`, `USER` and `LOGNAME`, and `PATH` and
/// `SHELL` as all such jobs have them, whatever the file lists.
pub(crate) fn set_owners_environment(
    rt: &HostRuntime,
    command: &mut Command,
    dir: &str,
    owner: &str,
    user: &Owner,
) -> io::Result<()> {
    set_environment(rt, command, dir)?;
    command.env("PATH", PATH)?;
    command.env("HOME", user.home.as_str())?;
    command.env("USER", owner)?;
    command.env("LOGNAME", owner)?;
    command.env("SHELL", SHELL)?;
    Ok(())
}
