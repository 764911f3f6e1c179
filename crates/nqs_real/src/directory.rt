//! Users of this machine, as the system's directory of users knows them: who has a name, whose an
//! output is, who started this process. Nothing of a caller's own says who he is.

ghost use Rattle.std.specs.Prelude.{◌≡◌, Some, IfOk, IfSome, MatchOption, string_bytes};
ghost use Rattle.nqs_text.specs.Number.{decimal};
ghost use Rattle.nqs_real.specs.Accounts.{said_in, account_name, IsNumber, Says, SaysNone, SaysUser, IsFound, IsUsable, AreUsers};

use crate::account::{account_name, read_account};
use crate::program::add_words;
use nqs_base::Name;
use nqs_text::read_u64;
use std::alloc::Global;
use std::io::ErrorKind;
use std::os::unix::fs::MetadataExt;
use std::process::{Command, Output, Stdio};
use std::rt::HostRuntime;
use std::{fs, io};

/// The program that asks the directory, by its whole path: no folder of a caller's is looked in.
const GETENT: &str = "/usr/bin/getent";

/// The program that ends it where it takes too long.
const TIMEOUT: &str = "/usr/bin/timeout";

/// How long the directory has to answer to a daemon or a shepherd, in seconds.
const PATIENCE: &str = "2";

/// The status of `getent` where there is no such user.
const UNKNOWN: i32 = 2;

/// The status of `timeout` where its time was up.
const LATE: i32 = 124;

/// Its status where it could start no process.
const UNSTARTED: i32 = 125;

/// Its status where SIGKILL ended what it started, as where the system wants memory.
const KILLED: i32 = 137;

/// The number that stands for none in the system's calls.
const NOBODY: u64 = 4_294_967_295;

/// A user's numbers and home.
#[derive(Drop)]
pub(crate) struct Owner {
    pub uid: u32,
    pub gid: u32,
    pub home: String,
}

/// Who has a name.
#[derive(Drop)]
pub(crate) enum Found {
    User(Owner),
    /// Root, whatever its name.
    Root,
    Nobody,
}

// The number of a user or a group in a line.
fn read_number(word: &[u8]) -> Option<u32>
    ensures { MatchOption result (IsNumber word.now → ⊥) (λ number. IsNumber word.now × (number ≡ decimal word.now)) }
{
    let number = read_u64(word).ok()?;
    if number < NOBODY {
        Some(number as u32)
    } else {
        None
    }
}

// The numbers and the home in a line, where it is of this name.
fn numbers_in<'a>(line: &'a [u8], name: &str) -> Option<(u32, u32, &'a [u8])>
    ensures { MatchOption result (SaysNone name.now (said_in line.now)) (λ found. Says name.now found.0 found.1 found.2.now (said_in line.now)) }
{
    let account = read_account(line)?;
    if account.name != name.as_bytes() {
        return None;
    }
    let uid = read_number(account.uid)?;
    let gid = read_number(account.gid)?;
    Some((uid, gid, account.home))
}

// A user by his numbers and his home, which has to be text.
fn owner_at(alloc: Global, uid: u32, gid: u32, home: &[u8]) -> io::Result<Owner>
    ensures { IfOk result (λ owner. (owner.uid ≡ uid) × (owner.gid ≡ gid) × (string_bytes owner.home ≡ home.now)) }
{
    match str::from_utf8(home) {
        Ok(text) => Ok(Owner {
            uid,
            gid,
            home: String::from_str(alloc, text)?,
        }),
        Err(_) => Err(io::Error::from(ErrorKind::InvalidData)),
    }
}

// Who has this name, by a line of the directory. A line of another name, or in another form, is
// nobody's.
fn found_in(alloc: Global, line: &[u8], name: &str) -> io::Result<Found>
    ensures found { IfOk result (IsFound name.now (said_in line.now)) }
    ensures usable { IfOk result IsUsable }
{
    match numbers_in(line, name) {
        None => Ok(Found::Nobody),
        Some((0, _, _)) => Ok(Found::Root),
        Some((uid, gid, home)) => Ok(Found::User(owner_at(alloc, uid, gid, home)?)),
    }
}

// A user's numbers in a line, where it is of this name and he isn't root.
fn user_in(line: &[u8], name: &str) -> Option<(u32, u32)>
    ensures said { IfSome result (λ numbers. SaysUser name.now numbers.0 numbers.1 (said_in line.now)) }
    ensures users { AreUsers result }
{
    match numbers_in(line, name) {
        Some((uid, gid, _)) if uid > 0 => Some((uid, gid)),
        _ => None,
    }
}

// What a command answers that asks the directory. It finds nothing of this process's environment,
// which would speak to the libraries that read accounts.
fn answered(rt: &HostRuntime, command: &mut Command, words: &[&str]) -> io::Result<Output> {
    command.env_clear();
    add_words(command, words)?;
    command
        .stdin(Stdio::null())
        .stderr(Stdio::null())
        .output(rt)
}

// The first line of an answer; an empty one where the directory knows no such user. An answer that
// didn't come in time, or for want of a process or memory, is a shortage of the system.
fn line_of(answer: &Output) -> io::Result<&[u8]> {
    match answer.status.code() {
        Some(0) => Ok(
            answer
                .stdout
                .split(|byte| *byte == b'\n')
                .next()
                .unwrap_or(b""),
        ),
        Some(UNKNOWN) => Ok(b""),
        Some(LATE | UNSTARTED | KILLED) | None => Err(io::Error::from(ErrorKind::WouldBlock)),
        Some(_) => Err(io::Error::from(ErrorKind::InvalidData)),
    }
}

// What the directory answers of a name within the time that it has.
fn asked(rt: &HostRuntime, name: &str) -> io::Result<Output> {
    let mut command = Command::new(rt.alloc(), TIMEOUT)?;
    answered(rt, &mut command, &[PATIENCE, GETENT, "passwd", name])
}

/// Who has this name, by the directory of users. Where that can't be asked in time it is a shortage
/// of the system.
pub(crate) fn find_owner(rt: &HostRuntime, name: &str) -> io::Result<Found>
    ensures { IfOk result IsUsable }
{
    let answer = asked(rt, name)?;
    found_in(rt.alloc(), line_of(&answer)?, name)
}

// The numbers of the user of this name, likewise. Whatever his home is, he is one.
fn find_user(rt: &HostRuntime, name: &str) -> io::Result<Option<(u32, u32)>>
    ensures { IfOk result AreUsers }
{
    let answer = asked(rt, name)?;
    Ok(user_in(line_of(&answer)?, name))
}

/// The numbers of the user whose a path below the folder of outputs is: its first part's, where
/// that is a user's name and more stands behind it.
pub(crate) fn user_of(rt: &HostRuntime, path: &[u8]) -> io::Result<Option<(u32, u32)>>
    ensures { IfOk result AreUsers }
{
    let Ok(text) = str::from_utf8(path) else {
        return Ok(None);
    };
    match text.split_once('/') {
        Some((name, _)) if Name::read(name.as_bytes()).is_ok() => find_user(rt, name),
        _ => Ok(None),
    }
}

// The number of who started this process, in plain digits. It is that of the process's folder,
// whatever group the program has.
fn caller_number(rt: &HostRuntime) -> io::Result<String> {
    let number = fs::metadata(rt, "/proc/self")?.uid();
    Ok(format!(in rt.alloc(); "{number}")?)
}

// The name in a line, as a text of its own.
fn name_in(alloc: Global, number: &str, line: &[u8]) -> io::Result<Option<String>>
    ensures { IfOk result (λ name. IfSome name (λ name. account_name number.now line.now ≡ Some (string_bytes name))) }
{
    let Some(name) = account_name(number, line) else {
        return Ok(None);
    };
    match str::from_utf8(name) {
        Ok(name) => Ok(Some(String::from_str(alloc, name)?)),
        Err(_) => Ok(None),
    }
}

/// The name of who started this process. None: the directory has none for his number. It has as
/// long to answer as it takes, for nobody but the caller waits.
pub fn caller_name(rt: &HostRuntime) -> io::Result<Option<String>> {
    let number = caller_number(rt)?;
    let mut command = Command::new(rt.alloc(), GETENT)?;
    let answer = answered(rt, &mut command, &["passwd", &number])?;
    name_in(rt.alloc(), &number, line_of(&answer)?)
}
