//! The files `out` and `err` of a job.

ghost use Rattle.std.specs.Prelude.{◌≡◌, ◌-◌, ◌++◌, OnOk, length, take};

use crate::folder::path_in;
use nqs_base::Bytes;
use nqs_outside::RunEnd;
use std::fs::{File, OpenOptions};
use std::io::{ErrorKind, Read};
use std::os::unix::fs::OpenOptionsExt;
use std::process::Stdio;
use std::rt::HostRuntime;
use std::{fs, io};

/// How much of each output is kept, in bytes.
const KEPT: usize = 16_384;

/// How long an output may grow before it is cut, in bytes: 1 MiB.
const LONGEST: u64 = 1_048_576;

/// The names of the outputs.
const NAMES: [&str; 2] = ["out", "err"];

/// The output with this name, to be written by a job, which adds at its end: so it may be cut
/// meanwhile.
pub(crate) fn make_output(rt: &HostRuntime, place: &str, name: &str) -> io::Result<Stdio> {
    let path = path_in(rt, place, name)?;
    let file = OpenOptions::new()
        .append(true)
        .create(true)
        .mode(0o600)
        .open(rt, &path)?;
    Ok(Stdio::from(file))
}

fn cut_file(rt: &HostRuntime, path: &str) -> io::Result<()> {
    if fs::metadata(rt, path)?.len() > LONGEST {
        OpenOptions::new()
            .write(true)
            .open(rt, path)?
            .set_len(KEPT as u64)?;
    }
    Ok(())
}

/// Cuts an output that has grown past 1 MiB to what is kept of it.
pub(crate) fn cut_outputs(rt: &HostRuntime, place: &str) -> io::Result<()> {
    for name in NAMES {
        cut_file(rt, &path_in(rt, place, name)?)?;
    }
    Ok(())
}

fn read_file(rt: &HostRuntime, path: &str) -> io::Result<Vec<u8>> {
    let mut bytes = Vec::new(rt.alloc());
    File::open(rt, path)?
        .take(KEPT as u64)
        .read_to_end(&mut bytes)?;
    Ok(bytes)
}

// What is kept of an output: nothing of one that isn't there.
fn read_output(rt: &HostRuntime, place: &str, name: &str) -> io::Result<Vec<u8>> {
    let path = path_in(rt, place, name)?;
    match read_file(rt, &path) {
        Err(e) if e.kind() == ErrorKind::NotFound => Ok(Vec::new(rt.alloc())),
        read => read,
    }
}

// Adds a text, behind as much of what is there as leaves it room.
fn add_text(bytes: &mut Vec<u8>, text: &str) -> io::Result<()>
    ensures { OnOk result (bytes.new.items ≡ take (16384 - length text.now) bytes.old.items ++ text.now) }
{
    bytes.truncate(KEPT.saturating_sub(text.len()));
    bytes.extend_from_slice(text.as_bytes())?;
    Ok(())
}

fn read_both(rt: &HostRuntime, place: &str) -> io::Result<(Vec<u8>, Vec<u8>)> {
    let out = read_output(rt, place, "out")?;
    Ok((out, read_output(rt, place, "err")?))
}

/// How a job in this folder ended: this status, what is kept of its outputs, and, behind its error
/// output, this text.
pub(crate) fn end_with(
    rt: &HostRuntime,
    place: &str,
    status: u8,
    text: &str,
) -> io::Result<RunEnd> {
    let (out, mut err) = read_both(rt, place)?;
    add_text(&mut err, text)?;
    Ok(RunEnd {
        status,
        out: Bytes::from_vec(out),
        err: Bytes::from_vec(err),
    })
}
