//! The files by which a runner keeps how its job ended, until the daemon knows: `started`, made
//! before the job is started, which takes the space that the end needs, and `end`, which it
//! becomes.
//!
//! `end` is whole or not there: a byte with the status, two with the length of the output, the
//! greater first, the output, and the error output (`specs/Ends.antt`).

ghost use Rattle.std.specs.Prelude.{◌≡◌, IfOk};
ghost use Rattle.nqs_real.specs.Ends.{end_text};

use crate::folder::path_in;
use nqs_base::Bytes;
use nqs_outside::RunEnd;
use std::alloc::Global;
use std::fs::OpenOptions;
use std::io::{ErrorKind, Write};
use std::os::unix::fs::OpenOptionsExt;
use std::rt::HostRuntime;
use std::{fs, io};

/// The name of the file that says that the job was started.
const STARTED: &str = "started";

/// The name of the file that says how it ended.
const END: &str = "end";

/// The greatest length of an end, in bytes: that of two outputs of 16,384 bytes.
const LONGEST: usize = 32_771;

/// The bytes of the file `end`. An output of 65,536 bytes or more is an `Err`.
pub(crate) fn end_text(alloc: Global, end: &RunEnd) -> io::Result<Vec<u8>>
    ensures { IfOk result (λ bytes. bytes.items ≡ end_text end.now.status end.now.out end.now.err) }
{
    let Ok(length) = u16::try_from(end.out.len()) else {
        return Err(io::Error::from(ErrorKind::InvalidInput));
    };
    let head = [end.status, (length / 256) as u8, (length % 256) as u8];
    let mut bytes = Vec::from_slice(alloc, &head)?;
    bytes.extend_from_slice(end.out.as_slice())?;
    bytes.extend_from_slice(end.err.as_slice())?;
    Ok(bytes)
}

fn end_of(alloc: Global, status: u8, out: &[u8], err: &[u8]) -> io::Result<RunEnd>
    ensures status { IfOk result (λ end. end.status ≡ status) }
    ensures out { IfOk result (λ end. end.out ≡ out.now) }
    ensures err { IfOk result (λ end. end.err ≡ err.now) }
{
    Ok(RunEnd {
        status,
        out: Bytes::from_vec(Vec::from_slice(alloc, out)?),
        err: Bytes::from_vec(Vec::from_slice(alloc, err)?),
    })
}

/// The end that the bytes of the file `end` tell. Bytes that tell none are an `Err`.
pub(crate) fn read_end(alloc: Global, bytes: &[u8]) -> io::Result<RunEnd>
    ensures { IfOk result (λ end. bytes.now ≡ end_text end.status end.out end.err) }
{
    let [status, high, low, outputs @ ..] = bytes else {
        return Err(io::Error::from(ErrorKind::InvalidData));
    };
    let length = *high as usize * 256 + *low as usize;
    match outputs.split_at_checked(length) {
        Some((out, err)) => end_of(alloc, *status, out, err),
        None => Err(io::Error::from(ErrorKind::InvalidData)),
    }
}

/// The end that is kept in the folder of a job, where it has ended.
pub(crate) fn kept_end(rt: &HostRuntime, place: &str) -> io::Result<Option<RunEnd>> {
    let path = path_in(rt, place, END)?;
    match fs::read(rt, &path) {
        Ok(bytes) => Ok(Some(read_end(rt.alloc(), &bytes)?)),
        Err(e) if e.kind() == ErrorKind::NotFound => Ok(None),
        Err(e) => Err(e),
    }
}

/// Was the job in this folder started, and has no end?
pub(crate) fn has_started(rt: &HostRuntime, place: &str) -> io::Result<bool> {
    let path = path_in(rt, place, STARTED)?;
    fs::exists(rt, &path)
}

fn fill(rt: &HostRuntime, path: &str) -> io::Result<()> {
    let zeros = vec![in rt.alloc(); 0u8; LONGEST]?;
    let mut file = OpenOptions::new()
        .write(true)
        .create(true)
        .mode(0o600)
        .open(rt, path)?;
    file.write_all(&zeros)
}

/// Notes that the job in this folder is started, and takes the space that its end will need. Where
/// it fails nothing is noted.
pub(crate) fn note_start(rt: &HostRuntime, place: &str) -> io::Result<()> {
    let path = path_in(rt, place, STARTED)?;
    let noted = fill(rt, &path);
    if noted.is_err() {
        let _ = fs::remove_file(rt, &path);
    }
    noted
}

/// Notes that the job in this folder wasn't started after all.
pub(crate) fn forget_start(rt: &HostRuntime, place: &str) -> io::Result<()> {
    let path = path_in(rt, place, STARTED)?;
    fs::remove_file(rt, &path)
}

fn write_over(rt: &HostRuntime, path: &str, bytes: &[u8]) -> io::Result<()> {
    let mut file = OpenOptions::new().write(true).open(rt, path)?;
    file.write_all(bytes)?;
    file.set_len(bytes.len() as u64)
}

/// Keeps the end of the job in this folder, whose start was noted, over that note. The folder goes
/// with its host, so nothing of it needs to outlast a stop.
pub(crate) fn keep_end(rt: &HostRuntime, place: &str, end: &RunEnd) -> io::Result<()> {
    let bytes = end_text(rt.alloc(), end)?;
    let started = path_in(rt, place, STARTED)?;
    write_over(rt, &started, &bytes)?;
    let path = path_in(rt, place, END)?;
    fs::rename(rt, &started, &path)
}
