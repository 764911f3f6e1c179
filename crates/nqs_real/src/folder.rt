//! Folders: what stands in them, that of a host, and the lock of its daemon.

ghost use Rattle.std.specs.Prelude.{◌≡◌, ◌++◌, ◌&&◌, ◌||◌, not, nat_eq, bit_and, IfOk, codes, string_bytes};
ghost use Rattle.nqs_real.specs.Names.{name_at, request_text};

use crate::site::SiteHost;
use nqs_base::Name;
use nqs_types::{HostId, RequestId};
use std::fs::{DirBuilder, File, OpenOptions, Permissions};
use std::io::ErrorKind;
use std::os::unix::fs::{DirBuilderExt, MetadataExt, OpenOptionsExt, PermissionsExt};
use std::rt::HostRuntime;
use std::{fs, io};

/// The bits of a mode that say who may do what, and beside them those that are never set here.
const ALL_MODES: u32 = 0o7777;

/// What others than the owner may not have: to write.
const OF_OTHERS: u32 = 0o022;

/// The bit of a folder in which each may take away his own alone.
const STICKY: u32 = 0o1000;

/// The path of what has this name, or this path, in a folder.
pub(crate) fn path_in(rt: &HostRuntime, folder: &str, name: &str) -> io::Result<String>
    ensures { IfOk result (λ path. string_bytes path ≡ folder.now ++ codes "/" ++ name.now) }
{
    Ok(format!(in rt.alloc(); "{folder}/{name}")?)
}

/// Makes what stands in the folder outlast a stop: that a file is there, and under which name.
pub(crate) fn sync_folder(rt: &HostRuntime, folder: &str) -> io::Result<()> {
    File::open(rt, folder)?.sync_all()
}

/// Makes a folder for its owner alone, where it isn't there. Did it?
pub(crate) fn make_private(rt: &HostRuntime, path: &str) -> io::Result<bool> {
    let mut builder = DirBuilder::new();
    builder.mode(0o700);
    match builder.create(rt, path) {
        Ok(()) => Ok(true),
        Err(e) if e.kind() == ErrorKind::AlreadyExists => Ok(false),
        Err(e) => Err(e),
    }
}

/// Makes a folder of root's where it isn't there, and has it have this mode. Where a link, a file
/// or another user's folder stands in its place it fails, and nothing is changed.
pub(crate) fn make_roots(rt: &HostRuntime, path: &str, mode: u32) -> io::Result<bool> {
    let is_made = make_private(rt, path)?;
    let found = fs::symlink_metadata(rt, path)?;
    if !found.is_dir() || found.uid() != 0 {
        return Err(io::Error::from(ErrorKind::PermissionDenied));
    }
    if found.mode() & ALL_MODES != mode {
        fs::set_permissions(rt, path, Permissions::from_mode(mode))?;
    }
    Ok(is_made)
}

// Can nobody but root put something else in the place of what stands in a folder of this user and
// this mode? In one whose mode has the sticky bit nobody but root can take root's away, so it will
// do for those on the way.
fn keeps_roots(uid: u32, mode: u32, is_last: bool) -> bool
    ensures { result ≡ (nat_eq uid 0 && (nat_eq (bit_and mode 18) 0 || (not (nat_eq (bit_and mode 512) 0) && not is_last))) }
{
    let is_closed = mode & OF_OTHERS == 0;
    let is_sticky = mode & STICKY != 0 && !is_last;
    uid == 0 && (is_closed || is_sticky)
}

fn is_kept_by_root(rt: &HostRuntime, path: &str, is_last: bool) -> io::Result<bool> {
    let found = fs::metadata(rt, path)?;
    Ok(keeps_roots(found.uid(), found.mode(), is_last))
}

// The folder that a path leads to before this place, where a part ends there.
fn front_at(path: &str, place: usize) -> Option<&str> {
    let (front, rest) = path.split_at_checked(place)?;
    match (front.is_empty(), rest.is_empty() || rest.starts_with('/')) {
        (true, _) => Some("/"),
        (false, true) => Some(front),
        (false, false) => None,
    }
}

/// Can nobody but root change what stands in this folder, nor put another one in its place?
pub fn is_roots_alone(rt: &HostRuntime, folder: &str) -> io::Result<bool> {
    let path = fs::canonicalize(rt, folder)?;
    let path = path.as_str();
    for place in 0..=path.len() {
        if let Some(front) = front_at(path, place) {
            if !is_kept_by_root(rt, front, place == path.len())? {
                return Ok(false);
            }
        }
    }
    Ok(true)
}

/// The path of a folder in another. Where it isn't there it is made, and the other is synced.
pub(crate) fn make_folder(rt: &HostRuntime, parent: &str, name: &str) -> io::Result<String> {
    let path = path_in(rt, parent, name)?;
    if make_private(rt, &path)? {
        sync_folder(rt, parent)?;
    }
    Ok(path)
}

/// A name as text: its bytes are letters, digits, `_` and `-`.
pub(crate) fn name_text(name: &Name) -> io::Result<&str>
    ensures { IfOk result (λ text. text.now ≡ name.now) }
{
    match str::from_utf8(name.as_bytes()) {
        Ok(text) => Ok(text),
        Err(_) => Err(io::Error::from(ErrorKind::InvalidData)),
    }
}

/// The name of a host of the site. Another host is an `Err`.
pub(crate) fn host_text(site: &[SiteHost], host: HostId) -> io::Result<&str>
    ensures { IfOk result (λ text. text.now ≡ name_at host.0 site.now) }
{
    match site.get(host.0 as usize) {
        Some(host) => name_text(&host.name),
        None => Err(io::Error::from(ErrorKind::InvalidInput)),
    }
}

/// A request as users write it: `SEQ.HOST`.
pub(crate) fn request_text(rt: &HostRuntime, site: &[SiteHost], id: RequestId) -> io::Result<String>
    ensures { IfOk result (λ text. string_bytes text ≡ request_text id site.now) }
{
    let host = host_text(site, id.host)?;
    Ok(format!(in rt.alloc(); "{}.{host}", id.seq)?)
}

/// The path of the folder `DIR/HOST` of a host of the site, which need not be there.
pub fn host_folder(
    rt: &HostRuntime,
    dir: &str,
    site: &[SiteHost],
    host: HostId,
) -> io::Result<String> {
    path_in(rt, dir, host_text(site, host)?)
}

/// The folder `DIR/HOST` of a host of the site, which is made where it isn't there. All that a host
/// keeps stands below it.
pub fn make_host_folder(
    rt: &HostRuntime,
    dir: &str,
    site: &[SiteHost],
    host: HostId,
) -> io::Result<String> {
    make_folder(rt, dir, host_text(site, host)?)
}

/// The folder `jobs` of a host, below this folder, as a path from the root without links. The
/// host's folder is there; the folder `jobs` need not be.
pub(crate) fn jobs_path(rt: &HostRuntime, folder: &str) -> io::Result<String> {
    let folder = fs::canonicalize(rt, folder)?;
    path_in(rt, folder.as_str(), "jobs")
}

fn open_lock(rt: &HostRuntime, folder: &str) -> io::Result<File> {
    let path = path_in(rt, folder, "lock")?;
    OpenOptions::new()
        .write(true)
        .create(true)
        .mode(0o600)
        .open(rt, &path)
}

/// The lock of a host's folder. The system gives it back when the value is dropped, or the process
/// ends.
#[derive(Drop)]
pub struct HostLock {
    _file: File,
}

impl HostLock {
    /// Locks the file `lock` in the folder of a host. Where another process has the lock it fails
    /// at once, with `WouldBlock`.
    pub fn take(rt: &HostRuntime, folder: &str) -> io::Result<HostLock> {
        let file = open_lock(rt, folder)?;
        file.try_lock()?;
        Ok(HostLock { _file: file })
    }
}

// The number of the process that has a lock on the file with this number, by a line of
// `/proc/locks`: `1: FLOCK  ADVISORY  WRITE 4242 08:01:131090 0 EOF`.
fn holder_in(line: &str, file: &str) -> Option<u64> {
    let mut words = line.split_ascii_whitespace().skip(4);
    let process = words.next()?;
    let place = words.next()?;
    let (_, number) = place.rsplit_once(':')?;
    if number == file {
        process.parse().ok()
    } else {
        None
    }
}

// The process that `/proc/locks` names for this file.
fn holder_of(rt: &HostRuntime, file: u64) -> io::Result<Option<u64>> {
    let file = format!(in rt.alloc(); "{file}")?;
    let locks = fs::read_to_string(rt, "/proc/locks")?;
    Ok(locks.lines().find_map(|line| holder_in(line, &file)))
}

/// The number of the process that has the lock of a host's folder, where the system tells it in
/// `/proc/locks`.
pub fn lock_holder(rt: &HostRuntime, folder: &str) -> Option<u64> {
    let path = path_in(rt, folder, "lock").ok()?;
    let file = fs::metadata(rt, &path).ok()?.ino();
    holder_of(rt, file).ok()?
}
