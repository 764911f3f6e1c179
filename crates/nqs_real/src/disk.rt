//! Files as disks.

ghost use Rattle.std.specs.Prelude.{◌≡◌, ◌≤◌, ◌+◌, ◌^◌, IfOk, OnOk, length, false, []};
ghost use Rattle.nqs_outside.specs.History.{fresh};
ghost use Rattle.nqs_real.specs.Missing.{has_bytes, first_missing, missing_of};

use crate::counted::counted;
use crate::folder::{path_in, sync_folder};
use nqs_outside::{Disk, Failed};
use nqs_types::Which;
use std::fs::{File, OpenOptions};
use std::io::ErrorKind;
use std::os::unix::fs::{FileExt, OpenOptionsExt};
use std::rt::HostRuntime;
use std::{fs, io};

/// No disk is longer: 2^40 bytes.
const LONGEST: u64 = 1 << 40;

/// A file as a disk. Trusted: that the file's bytes are those that were written, and that a sync
/// which answered Ok left them on the device.
#[derive(Drop)]
pub struct FileDisk {
    file: File,
    faults: u64,
}

impl FileDisk {
    /// Opens the file of this name in a folder. Where it isn't there it is made, for its owner
    /// alone, and the folder synced. The file is synced, so nothing is pending on the disk. A file
    /// longer than 2^40 bytes is refused.
    pub fn open(rt: &HostRuntime, folder: &str, name: &str) -> io::Result<FileDisk>
        ensures { IfOk result (λ disk. disk.faults ≡ 0) }
    {
        let file = open_in(rt, folder, name)?;
        file.sync_all()?;
        let disk = FileDisk { file, faults: 0 };
        disk.length()?;
        Ok(disk)
    }

    // How long it is.
    fn length(&self) -> io::Result<u64>
        ensures { IfOk result (λ n. n ≤ 2 ^ 40) }
    {
        within_longest(self.file.metadata()?.len())
    }

    // Reads until the buffer is full or the file at its end.
    fn fill(&self, place: u64, buf: &mut [u8]) -> io::Result<usize>
        ensures within { IfOk result (λ n. n ≤ length buf.old) }
        ensures same_length { length buf.new ≡ length buf.old }
    {
        let mut filled = 0;
        // Each read but the last brings a byte at least.
        for _ in 0..=buf.len() {
            let Some(here) = place.checked_add(filled as u64) else {
                return Err(io::Error::from(ErrorKind::InvalidInput));
            };
            let count = self.file.read_at(&mut buf[filled..], here)?;
            if count == 0 {
                break;
            }
            filled += count;
        }
        Ok(filled)
    }

    fn put(&self, place: u64, bytes: &[u8]) -> io::Result<()>
        ensures { OnOk result (place + length bytes.now ≤ 2 ^ 40) }
    {
        let Some(end) = place.checked_add(bytes.len() as u64) else {
            return Err(io::Error::from(ErrorKind::FileTooLarge));
        };
        within_longest(end)?;
        self.file.write_all_at(bytes, place)
    }
}

fn within_longest(length: u64) -> io::Result<u64>
    ensures { IfOk result (λ n. (n ≡ length) × (length ≤ 2 ^ 40)) }
{
    if length > LONGEST {
        return Err(io::Error::from(ErrorKind::FileTooLarge));
    }
    Ok(length)
}

fn open_or_make(rt: &HostRuntime, folder: &str, path: &str) -> io::Result<File> {
    let mut options = OpenOptions::new();
    options.read(true).write(true);
    match options.open(rt, path) {
        Ok(file) => Ok(file),
        Err(e) if e.kind() == ErrorKind::NotFound => {
            let file = options.create_new(true).mode(0o600).open(rt, path)?;
            sync_folder(rt, folder)?;
            Ok(file)
        }
        Err(e) => Err(e),
    }
}

fn open_in(rt: &HostRuntime, folder: &str, name: &str) -> io::Result<File> {
    let path = path_in(rt, folder, name)?;
    open_or_make(rt, folder, &path)
}

impl Disk for FileDisk {
    ghost tells = { false };

    ghost history = { λ _. record { start = []; calls = [] } };

    ghost fails = { λ _ _. false };

    ghost ends = { λ _ _. false };

    ghost starved = { λ _. false };

    ghost faults = { λ disk. disk.faults };

    ghost reads = { λ _. 0 };

    fn len(&mut self) -> Result<u64, Failed> {
        let made = self.length();
        counted(made, &mut self.faults)
    }

    fn read_at(&mut self, place: u64, buf: &mut [u8]) -> Result<usize, Failed> {
        let made = self.fill(place, buf);
        counted(made, &mut self.faults)
    }

    fn write_at(&mut self, place: u64, bytes: &[u8]) -> Result<(), Failed> {
        let made = self.put(place, bytes);
        counted(made, &mut self.faults)
    }

    fn sync(&mut self) -> Result<(), Failed> {
        let made = self.file.sync_data();
        counted(made, &mut self.faults)
    }
}

/// The four disks of a host.
#[derive(Drop)]
pub struct HostDisks {
    pub root: FileDisk,
    pub first: FileDisk,
    pub second: FileDisk,
    pub spool: FileDisk,
}

/// Opens the disks in the folder of a host, by `FileDisk::open`: the files `root`, `first`,
/// `second` and `spool`.
pub fn open_disks(rt: &HostRuntime, folder: &str) -> io::Result<HostDisks>
    ensures { IfOk result (λ disks. (disks.root.faults ≡ 0) × (disks.first.faults ≡ 0) × (disks.second.faults ≡ 0) × (disks.spool.faults ≡ 0)) }
{
    Ok(HostDisks {
        root: FileDisk::open(rt, folder, "root")?,
        first: FileDisk::open(rt, folder, "first")?,
        second: FileDisk::open(rt, folder, "second")?,
        spool: FileDisk::open(rt, folder, "spool")?,
    })
}

// How many bytes the file has, where it is there.
fn length_at(rt: &HostRuntime, folder: &str, name: &str) -> io::Result<Option<u64>> {
    match fs::metadata(rt, &path_in(rt, folder, name)?) {
        Ok(data) => Ok(Some(data.len())),
        Err(e) if e.kind() == ErrorKind::NotFound => Ok(None),
        Err(e) => Err(e),
    }
}

// The first one that isn't there.
fn first_missing(
    root: Option<u64>,
    first: Option<u64>,
    second: Option<u64>,
    spool: Option<u64>,
) -> Option<Which>
    ensures { result ≡ first_missing root first second spool }
{
    match (root, first, second, spool) {
        (None, _, _, _) => Some(Which::Root),
        (_, None, _, _) => Some(Which::First),
        (_, _, None, _) => Some(Which::Second),
        (_, _, _, None) => Some(Which::Spool),
        _ => None,
    }
}

fn has_bytes(length: Option<u64>) -> bool
    ensures { result ≡ has_bytes length }
{
    match length {
        Some(length) => length > 0,
        None => false,
    }
}

// The first one that isn't there, where another has bytes: these are the lengths of those that are.
fn missing_of(
    root: Option<u64>,
    first: Option<u64>,
    second: Option<u64>,
    spool: Option<u64>,
) -> Option<Which>
    ensures { result ≡ missing_of root first second spool }
{
    if has_bytes(root) || has_bytes(first) || has_bytes(second) || has_bytes(spool) {
        first_missing(root, first, second, spool)
    } else {
        None
    }
}

/// Which disk of a host isn't there, by the files in its folder, where another one has bytes: the
/// first of `root`, `first`, `second` and `spool`. `open_disks` would make it anew and empty, and
/// the host would be another one. It looks and touches nothing; the folder need not be there.
pub fn missing_disk(rt: &HostRuntime, folder: &str) -> io::Result<Option<Which>> {
    let root = length_at(rt, folder, "root")?;
    let first = length_at(rt, folder, "first")?;
    let second = length_at(rt, folder, "second")?;
    let spool = length_at(rt, folder, "spool")?;
    Ok(missing_of(root, first, second, spool))
}
