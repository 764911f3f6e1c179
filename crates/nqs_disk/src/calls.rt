//! The calls that a disk in memory keeps, and the bytes that they change.
ghost use Rattle.std.specs.Prelude.{◌≡◌, ◌+◌, ◌^◌, ◌≤◌, ◌++◌, [], ◌∷◌, length, vec_len, OnOk, OnErr};
ghost use Rattle.nqs_outside.specs.History.{written, write, sync};

use nqs_base::{Bytes, Memory};

/// The greatest length of a disk.
pub(crate) const MOST: u64 = 1 << 40;

/// A write or a sync, and whether it was answered Ok.
#[derive(Drop)]
pub enum DiskCall {
    Write {
        place: u64,
        bytes: Bytes,
        done: bool,
    },
    Sync {
        done: bool,
    },
}

// Puts bytes over those that are there, and past the end.
pub(crate) fn overwrite(content: &mut Vec<u8>, place: usize, bytes: &[u8]) -> Result<(), Memory>
    requires { place ≤ vec_len content.old }
    ensures ok { OnOk result (content.new.items ≡ written content.old.items place bytes.now) }
    ensures err { OnErr result (content.new.items ≡ content.old.items) }
{
    let kept = bytes.len().min(content.len() - place);
    content.extend_from_slice(&bytes[kept..])?;
    content[place..place + kept].copy_from_slice(&bytes[..kept]);
    Ok(())
}
