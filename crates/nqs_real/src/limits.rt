//! The limits of a job, which the system keeps.

use crate::order::JobOrder;
use crate::program::{add_words, run_to_its_end};
use std::io;
use std::process::Command;
use std::rt::HostRuntime;

fn add_limit(rt: &HostRuntime, command: &mut Command, key: &str, limit: u64) -> io::Result<()> {
    let word = format!(in rt.alloc(); "--{key}={limit}:{limit}")?;
    command.arg(&word)?;
    Ok(())
}

/// Adds the words that have the limits of a job hold for its processes.
pub(crate) fn add_limits(
    rt: &HostRuntime,
    command: &mut Command,
    order: &JobOrder,
) -> io::Result<()> {
    if order.cpu.is_none() && order.memory.is_none() {
        return Ok(());
    }
    command.arg("prlimit")?;
    if let Some(seconds) = order.cpu {
        add_limit(rt, command, "cpu", seconds)?;
    }
    if let Some(bytes) = order.memory {
        add_limit(rt, command, "as", bytes)?;
    }
    command.arg("--")?;
    Ok(())
}

fn starts_by(rt: &HostRuntime, command: &mut Command, bytes: u64) -> io::Result<bool> {
    add_limit(rt, command, "as", bytes)?;
    add_words(command, &["--", "/bin/sh", "-c", ":"])?;
    Ok(run_to_its_end(rt, command)?.success())
}

/// Does a shell start with so many bytes of memory? It tries.
pub(crate) fn shell_starts(rt: &HostRuntime, bytes: u64) -> io::Result<bool> {
    let mut command = Command::new(rt.alloc(), "prlimit")?;
    starts_by(rt, &mut command, bytes)
}
