//! Outputs that can't be written where they should be: how they are named, and where they go.

ghost use Rattle.std.specs.Prelude.{◌≡◌, ◌+◌, ◌<◌, ◌++◌, IfOk, OnOk, take, string_bytes};
ghost use Rattle.std.specs.List.{flat_map};
ghost use Rattle.nqs_real.specs.Lost.{is_plain, digit, spelled, coded, coded_first, flat_name, longest_name, NamesDiffer};

use crate::folder::path_in;
use crate::notices::tell;
use crate::put::{Whose, make_whose, path_text, put_file};
use std::alloc::Global;
use std::io::ErrorKind;
use std::rt::HostRuntime;
use std::{fs, io};

/// How much of a name is kept, in bytes: a file system takes 255, and a number may stand behind it.
const LONGEST_NAME: usize = 240;

fn is_plain(byte: u8) -> bool
    ensures { result ≡ is_plain byte }
{
    byte > 32 && byte < b'~' && byte != b'%' && byte != b'/'
}

fn digit(number: u8) -> u8
    requires { number < 16 }
    ensures { result ≡ digit number }
{
    if number < 10 {
        b'0' + number
    } else {
        b'A' + (number - 10)
    }
}

fn spell(name: &mut Vec<u8>, byte: u8) -> io::Result<()>
    ensures { OnOk result (name.new.items ≡ name.old.items ++ spelled byte) }
{
    let spelled = [b'%', digit(byte / 16), digit(byte % 16)];
    name.extend_from_slice(&spelled)?;
    Ok(())
}

fn code(name: &mut Vec<u8>, byte: u8) -> io::Result<()>
    ensures { OnOk result (name.new.items ≡ name.old.items ++ coded byte) }
{
    if is_plain(byte) {
        name.push(byte)?;
        Ok(())
    } else {
        spell(name, byte)
    }
}

fn code_first(name: &mut Vec<u8>, byte: u8) -> io::Result<()>
    ensures { OnOk result (name.new.items ≡ name.old.items ++ coded_first byte) }
{
    if byte == b'.' {
        spell(name, byte)
    } else {
        code(name, byte)
    }
}

fn code_all(name: &mut Vec<u8>, bytes: &[u8]) -> io::Result<()>
    ensures { OnOk result (name.new.items ≡ name.old.items ++ flat_map coded bytes.now) }
{
    for byte in bytes {
        code(name, *byte)?;
    }
    Ok(())
}

// A path as a name without folders.
#[tactic(auto, unfolding(crate::specs::Lost::flat_name))]
fn flat_bytes(alloc: Global, path: &[u8]) -> io::Result<Vec<u8>>
    ensures { IfOk result (λ name. name.items ≡ flat_name path.now) }
{
    let mut name = Vec::new(alloc);
    if let Some((first, more)) = path.split_first() {
        code_first(&mut name, *first)?;
        code_all(&mut name, more)?;
    }
    Ok(name)
}

/// The name of an output by its path: letters, digits and most signs stand for themselves, each
/// other byte, and a `.` in front, is `%` and two digits to the base of 16. So `results/` is
/// `results%2F`. It is cut behind 240 bytes.
pub fn lost_name(alloc: Global, path: &[u8]) -> io::Result<String>
    ensures { IfOk result (λ name. string_bytes name ≡ take longest_name (flat_name path.now)) }
{
    let mut bytes = flat_bytes(alloc, path)?;
    bytes.truncate(LONGEST_NAME);
    match str::from_utf8(&bytes) {
        Ok(name) => Ok(String::from_str(alloc, name)?),
        Err(_) => Err(io::Error::from(ErrorKind::InvalidData)),
    }
}

/// Two paths never share a name, but where it is cut: a law for callers, which does nothing.
pub fn names_differ()
    ensures { NamesDiffer }
{}

fn is_there(rt: &HostRuntime, folder: &str, name: &str) -> io::Result<bool> {
    fs::exists(rt, &path_in(rt, folder, name)?)
}

// The name in a folder where nothing is: this one, or with `~` and the first free number from 2 on
// behind it.
fn free_name(rt: &HostRuntime, folder: &str, name: &str) -> io::Result<String> {
    if !is_there(rt, folder, name)? {
        return Ok(String::from_str(rt.alloc(), name)?);
    }
    for number in 2..u32::MAX {
        let numbered = format!(in rt.alloc(); "{name}~{number}")?;
        if !is_there(rt, folder, &numbered)? {
            return Ok(numbered);
        }
    }
    Err(io::Error::from(ErrorKind::AlreadyExists))
}

// Both names, and why.
fn tell_lost(rt: &HostRuntime, path: &[u8], name: &str, cause: &io::Error) -> io::Result<()> {
    let path = path_text(path).unwrap_or(name);
    let text = format!(in rt.alloc();
        "output/{path} can't be written: {cause}; it is output.lost/{name}"
    )?;
    tell(rt, &text);
    Ok(())
}

/// Puts an output that can't be written at its path, for this cause, into the folder
/// `OUTPUT.lost` by a name of its own, and says so on standard error.
pub(crate) fn put_lost(
    rt: &HostRuntime,
    output: &str,
    path: &[u8],
    bytes: &[u8],
    whose: Whose,
    cause: &io::Error,
) -> io::Result<()> {
    let folder = format!(in rt.alloc(); "{output}.lost")?;
    make_whose(rt, &folder, whose)?;
    let name = free_name(rt, &folder, &lost_name(rt.alloc(), path)?)?;
    put_file(rt, &folder, name.as_bytes(), bytes, whose)?;
    let _ = tell_lost(rt, path, &name, cause);
    Ok(())
}
