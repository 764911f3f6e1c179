//! Files that are whole or not there: written beside their place, synced, and then put there.

use crate::folder::{make_private, make_roots, path_in, sync_folder};
use std::fs::{OpenOptions, remove_file, rename};
use std::io;
use std::io::{ErrorKind, Write};
use std::os::unix::fs::{OpenOptionsExt, chown};
use std::rt::HostRuntime;

/// The longest path, in bytes.
const LONGEST: usize = 255;

/// What the system answers where the device failed (EIO), and where it has no room for another open
/// file (ENFILE, EMFILE) or for the call (ENOBUFS).
const PASSING: [i32; 4] = [5, 23, 24, 105];

/// Is it a fault that may pass while the path stays as it is: want of space, of memory or of open
/// files, or a device that fails?
pub(crate) fn is_passing(e: &io::Error) -> bool {
    let is_kind = matches!(
        e.kind(),
        ErrorKind::StorageFull
            | ErrorKind::QuotaExceeded
            | ErrorKind::OutOfMemory
            | ErrorKind::WouldBlock
            | ErrorKind::Interrupted
            | ErrorKind::TimedOut
            | ErrorKind::StaleNetworkFileHandle
    );
    is_kind || e.raw_os_error().is_some_and(|code| PASSING.contains(&code))
}

/// Does the path name a file below the folder that it starts from: 1 to 255 bytes that are seen, no
/// `/` in front, and no part `..`?
pub(crate) fn is_below(path: &str) -> bool {
    let fits = !path.is_empty() && path.len() <= LONGEST;
    let is_seen = path.bytes().all(|byte| byte.is_ascii_graphic());
    let climbs = path.split('/').any(|part| part == "..");
    fits && is_seen && !climbs && !path.starts_with('/')
}

/// A path as text, where it names a file below the folder that it starts from.
pub(crate) fn path_text(path: &[u8]) -> io::Result<&str> {
    match str::from_utf8(path) {
        Ok(text) if is_below(text) => Ok(text),
        _ => Err(io::Error::from(ErrorKind::InvalidInput)),
    }
}

/// Whose a file is, and who reaches it.
#[derive(Clone, Copy)]
pub(crate) enum Whose {
    /// This process's user's, below folders that are his alone.
    Own,
    /// Root's, or a user's and a group's by their numbers, below folders of root's that all users
    /// may read.
    Shared(Option<(u32, u32)>),
}

/// The mode of the folders of root's that all users may read.
pub(crate) const SHARED: u32 = 0o755;

/// Makes a folder where it isn't there. Did it? A shared one has to be root's.
pub(crate) fn make_whose(rt: &HostRuntime, path: &str, whose: Whose) -> io::Result<bool> {
    match whose {
        Whose::Own => make_private(rt, path),
        Whose::Shared(_) => make_roots(rt, path, SHARED),
    }
}

// Takes away what a stop left of a file that was being written. Its user may have it open.
fn remove_left(rt: &HostRuntime, path: &str) -> io::Result<()> {
    match remove_file(rt, path) {
        Err(e) if e.kind() == ErrorKind::NotFound => Ok(()),
        made => made,
    }
}

// Writes a file that is new, whatever stood at its path.
fn write_new(rt: &HostRuntime, path: &str, bytes: &[u8], whose: Whose) -> io::Result<()> {
    remove_left(rt, path)?;
    let mut file = OpenOptions::new()
        .write(true)
        .create_new(true)
        .mode(0o600)
        .open(rt, path)?;
    file.write_all(bytes)?;
    if let Whose::Shared(Some((uid, gid))) = whose {
        chown(rt, path, Some(uid), Some(gid))?;
    }
    file.sync_all()
}

// Where a `/` stands at this place of the path, makes the folder before it.
fn make_at(
    rt: &HostRuntime,
    folder: &str,
    path: &str,
    place: usize,
    whose: Whose,
) -> io::Result<()> {
    let Some(front) = folder_at(path, place) else {
        return Ok(());
    };
    make_whose(rt, &path_in(rt, folder, front)?, whose)?;
    Ok(())
}

fn sync_at(rt: &HostRuntime, folder: &str, path: &str, place: usize) -> io::Result<()> {
    match folder_at(path, place) {
        Some(front) => sync_folder(rt, &path_in(rt, folder, front)?),
        None => Ok(()),
    }
}

fn make_folders(rt: &HostRuntime, folder: &str, path: &str, whose: Whose) -> io::Result<()> {
    for end in 0..path.len() {
        make_at(rt, folder, path, end, whose)?;
    }
    Ok(())
}

fn sync_folders(rt: &HostRuntime, folder: &str, path: &str) -> io::Result<()> {
    for end in 0..path.len() {
        sync_at(rt, folder, path, end)?;
    }
    sync_folder(rt, folder)
}

fn folder_at(path: &str, place: usize) -> Option<&str> {
    match path.split_at_checked(place) {
        Some((front, rest)) if rest.starts_with('/') => Some(front),
        _ => None,
    }
}

fn move_in(rt: &HostRuntime, folder: &str, path: &str, new: &str) -> io::Result<()> {
    let place = path_in(rt, folder, path)?;
    rename(rt, new, &place)
}

// Puts a file at the path, which is first written to the new one.
fn put_by(
    rt: &HostRuntime,
    folder: &str,
    path: &str,
    new: &str,
    bytes: &[u8],
    whose: Whose,
) -> io::Result<()> {
    write_new(rt, new, bytes, whose)?;
    make_folders(rt, folder, path, whose)?;
    move_in(rt, folder, path, new)?;
    sync_folders(rt, folder, path)
}

/// Puts a file at a path below the folder, in place of one that was there; folders on its way are
/// made. At Ok it outlasts a stop, and at an `Err` either file may be there, whole. The bytes are
/// first written to the file `FOLDER.new`, which is made anew.
pub(crate) fn put_file(
    rt: &HostRuntime,
    folder: &str,
    path: &[u8],
    bytes: &[u8],
    whose: Whose,
) -> io::Result<()> {
    let path = path_text(path)?;
    let new = format!(in rt.alloc(); "{folder}.new")?;
    put_by(rt, folder, path, &new, bytes, whose)
}
