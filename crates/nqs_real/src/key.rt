//! The file of a site's key, `DIR/key`: its bytes, and how it is kept. What they say is for others
//! to read.

ghost use Rattle.std.specs.Prelude.{◌≡◌, bit_and, nat_eq, ◌||◌};

use crate::folder::path_in;
use std::fs::{File, Metadata};
use std::io::{ErrorKind, Read};
use std::os::unix::fs::MetadataExt;
use std::rt::HostRuntime;
use std::{fs, io};

/// The longest file that is read, in bytes. One that says something is shorter.
const LONGEST: u64 = 128;

/// What none but the file's owner may do, and none but he and its group: write it, read it.
const OF_OTHERS: u32 = 0o027;

/// The file of a site's key.
#[derive(Drop)]
pub struct KeyFile {
    /// Its first bytes, at most 128.
    pub bytes: Vec<u8>,
    /// Its group can't write it, and others than its owner and group can't do anything with it.
    pub is_private: bool,
    /// It belongs to root, or to whom the site's folder belongs.
    pub is_own: bool,
}

/// Why the file of a site's key can't be read.
#[derive(Debug, Drop)]
pub enum KeyStop {
    /// It isn't there.
    Missing,
    /// It is a link, a folder or something else that is no regular file.
    NoFile,
    /// A call of the system failed.
    Call(io::Error),
}

impl From<io::Error> for KeyStop {
    fn from(e: io::Error) -> KeyStop {
        KeyStop::Call(e)
    }
}

// Is a file of this mode its owner's alone to write, and his and its group's alone to read?
fn is_private(mode: u32) -> bool
    ensures { result ≡ nat_eq (bit_and mode 23) 0 }
{
    mode & OF_OTHERS == 0
}

// Does a file of the first user belong where the folder is the second one's?
fn is_own(file: u32, folder: u32) -> bool
    ensures { result ≡ (nat_eq file 0 || nat_eq file folder) }
{
    file == 0 || file == folder
}

// What the system says of the file itself, where a link isn't followed.
fn look_at(rt: &HostRuntime, path: &str) -> Result<Metadata, KeyStop> {
    match fs::symlink_metadata(rt, path) {
        Ok(found) if found.is_file() => Ok(found),
        Ok(_) => Err(KeyStop::NoFile),
        Err(e) if e.kind() == ErrorKind::NotFound => Err(KeyStop::Missing),
        Err(e) => Err(KeyStop::Call(e)),
    }
}

fn bytes_at(rt: &HostRuntime, path: &str) -> io::Result<Vec<u8>> {
    let mut bytes = Vec::new(rt.alloc());
    File::open(rt, path)?.take(LONGEST).read_to_end(&mut bytes)?;
    Ok(bytes)
}

/// The file of the key of the site in this folder. It is looked at before it is opened, so that
/// nothing but a regular file is.
pub fn key_file(rt: &HostRuntime, dir: &str) -> Result<KeyFile, KeyStop> {
    let path = path_in(rt, dir, "key")?;
    let found = look_at(rt, &path)?;
    let folder = fs::metadata(rt, dir)?;
    Ok(KeyFile {
        bytes: bytes_at(rt, &path)?,
        is_private: is_private(found.mode()),
        is_own: is_own(found.uid(), folder.uid()),
    })
}
