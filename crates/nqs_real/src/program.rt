//! Programs that are started.

use std::alloc::AllocError;
use std::io;
use std::process::{Child, Command, ExitStatus, Stdio};
use std::rt::HostRuntime;

/// Adds words to a command, in order.
pub(crate) fn add_words(command: &mut Command, words: &[&str]) -> Result<(), AllocError> {
    for word in words {
        command.arg(*word)?;
    }
    Ok(())
}

/// Starts a program whose three streams are `/dev/null`.
pub(crate) fn start_quietly(rt: &HostRuntime, command: &mut Command) -> io::Result<Child> {
    command
        .stdin(Stdio::null())
        .stdout(Stdio::null())
        .stderr(Stdio::null())
        .spawn(rt)
}

/// Runs a program whose three streams are `/dev/null` to its end.
pub(crate) fn run_to_its_end(rt: &HostRuntime, command: &mut Command) -> io::Result<ExitStatus> {
    start_quietly(rt, command)?.wait()
}

// The same, with these words. How it ended is not looked at.
fn run_with(rt: &HostRuntime, command: &mut Command, words: &[&str]) -> io::Result<()> {
    add_words(command, words)?;
    run_to_its_end(rt, command)?;
    Ok(())
}

// The same, of the program with this name.
fn run_quietly(rt: &HostRuntime, program: &str, words: &[&str]) -> io::Result<()> {
    let mut command = Command::new(rt.alloc(), program)?;
    run_with(rt, &mut command, words)
}

// The same, of `kill`: SIGKILL to the processes with these numbers.
fn end_by(rt: &HostRuntime, command: &mut Command, numbers: &[String]) -> io::Result<()> {
    add_words(command, &["-KILL", "--"])?;
    for number in numbers {
        command.arg(number.as_str())?;
    }
    run_to_its_end(rt, command)?;
    Ok(())
}

/// Sends SIGKILL to the processes with these numbers. One that has ended is passed over.
pub(crate) fn end_processes(rt: &HostRuntime, numbers: &[String]) -> io::Result<()> {
    let mut command = Command::new(rt.alloc(), "kill")?;
    end_by(rt, &mut command, numbers)
}

/// Ends each process of the session that this process leads, whatever signals it ignores. `kill`
/// ends the leader's group at once, `pkill` then what has a group of its own. A process that began
/// a session of its own is not found: `crate::leftovers` finds it.
pub(crate) fn end_session(rt: &HostRuntime, leader: u32) -> io::Result<()> {
    let group = format!(in rt.alloc(); "-{leader}")?;
    let ended = run_quietly(rt, "kill", &["-KILL", "--", group.as_str()]);
    let session = group.trim_start_matches('-');
    run_quietly(rt, "pkill", &["-KILL", "-s", session])?;
    ended
}
