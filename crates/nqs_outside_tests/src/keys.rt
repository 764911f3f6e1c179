//! The file of a site's key: what is read of it, and how it is kept.

use crate::real::fresh_folder;
use nqs_real::{KeyStop, key_file};
use std::fs::Permissions;
use std::os::unix::fs::{PermissionsExt, symlink};
use std::rt::HostRuntime;
use std::test::Fail;
use std::{fs, io};

// Makes the file of a key with these bytes and this mode.
fn keep(rt: &HostRuntime, dir: &str, bytes: &[u8], mode: u32) -> io::Result<()> {
    let path = format!(in rt.alloc(); "{dir}/key")?;
    fs::write(rt, &path, bytes)?;
    fs::set_permissions(rt, &path, Permissions::from_mode(mode))
}

// Modes of a file, and whether one of them keeps a key private.
static MODES: [(u32, bool); 10] = [
    (0o600, true),
    (0o640, true),
    (0o400, true),
    (0o740, true),
    (0o660, false),
    (0o620, false),
    (0o604, false),
    (0o602, false),
    (0o601, false),
    (0o666, false),
];

// Is a file of this mode judged so, and read as it is? It is removed, since some modes let nobody
// write it again.
fn is_judged(rt: &HostRuntime, dir: &str, mode: u32, is_private: bool) -> io::Result<bool> {
    keep(rt, dir, b"open\n", mode)?;
    let is_right = match key_file(rt, dir) {
        Ok(file) => {
            file.bytes.as_slice() == b"open\n".as_slice()
                && file.is_own
                && file.is_private == is_private
        }
        Err(_) => false,
    };
    fs::remove_file(rt, &format!(in rt.alloc(); "{dir}/key")?)?;
    Ok(is_right)
}

// The first mode that is judged otherwise.
fn wrong_mode(rt: &HostRuntime, dir: &str) -> Result<Option<u32>, Fail> {
    for (mode, is_private) in &MODES {
        if !is_judged(rt, dir, *mode, *is_private)? {
            return Ok(Some(*mode));
        }
    }
    Ok(None)
}

#[test]
fn modes_are_judged(rt: HostRuntime) -> Result<(), Fail> {
    let dir = fresh_folder(&rt, "modes-of-keys")?;
    let wrong = wrong_mode(&rt, &dir)?;
    fs::remove_dir_all(&rt, &dir)?;
    drop(dir);
    assert_eq!(rt; wrong, None);
    Ok(())
}

fn is_no_file(rt: &HostRuntime, dir: &str) -> bool {
    matches!(key_file(rt, dir), Err(KeyStop::NoFile))
}

// None, a file of 129 bytes, a folder, a link to a file, a link to nothing.
fn kinds_in(rt: &HostRuntime, dir: &str) -> Result<[bool; 5], Fail> {
    let path = format!(in rt.alloc(); "{dir}/key")?;
    let is_missing = matches!(key_file(rt, dir), Err(KeyStop::Missing));
    keep(rt, dir, &[b'0'; 129], 0o600)?;
    let is_cut = match key_file(rt, dir) {
        Ok(file) => file.bytes.as_slice() == [b'0'; 128].as_slice(),
        Err(_) => false,
    };
    fs::remove_file(rt, &path)?;
    fs::create_dir(rt, &path)?;
    let folder = is_no_file(rt, dir);
    fs::remove_dir(rt, &path)?;
    let other = format!(in rt.alloc(); "{dir}/other")?;
    fs::write(rt, &other, b"open\n")?;
    symlink(rt, "other", &path)?;
    let link = is_no_file(rt, dir);
    fs::remove_file(rt, &other)?;
    Ok([is_missing, is_cut, folder, link, is_no_file(rt, dir)])
}

#[test]
fn only_files_are_read(rt: HostRuntime) -> Result<(), Fail> {
    let dir = fresh_folder(&rt, "kinds-of-keys")?;
    let shown = kinds_in(&rt, &dir)?;
    fs::remove_dir_all(&rt, &dir)?;
    drop(dir);
    assert_eq!(rt; shown, [true; 5]);
    Ok(())
}
