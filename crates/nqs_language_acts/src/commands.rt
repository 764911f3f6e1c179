//! Words and lines as the commands that they ask for. What can't be read is a command too, whose
//! answer says why; a want of memory is no command. Lines of qmgr and words of qdel are read
//! without any.

ghost use Rattle.std.specs.Prelude.{◌≡◌, IfOk};
ghost use Rattle.nqs_qmgr.specs.Lines.{qmgr_line};
ghost use Rattle.nqs_query.specs.Words.{stat_of, delete_of};
ghost use Rattle.nqs_language_acts.specs.Acts.{of_line, of_words, listed, qsub_command as qsub_asks, named_submission};

use nqs_base::{Bytes, Memory, Name};
use nqs_qmgr::read_qmgr;
use nqs_qsub::{read_qsub, read_qsub_of};
use nqs_query::{read_qdel, read_qstat};
use nqs_types::{Command, Job, Limits, Submission};
use std::alloc::Global;

/// The words of qsub and a script.
pub fn qsub_command(
    alloc: Global,
    user: &Name,
    words: &[Bytes],
    script: &[u8],
) -> Result<Command, Memory>
    ensures { IfOk result (λ command. command ≡ qsub_asks user.now words.now script.now) }
{
    match read_qsub(alloc, user, words, script)? {
        Ok(submission) => Ok(Command::Submit(submission)),
        Err(fault) => Ok(Command::UnreadWords(fault)),
    }
}

/// The same of a script that a submission keeps.
pub fn qsub_command_of(
    alloc: Global,
    user: &Name,
    words: &[Bytes],
    script: Bytes,
) -> Result<Command, Memory>
    ensures { IfOk result (λ command. command ≡ qsub_asks user.now words.now script) }
{
    match read_qsub_of(alloc, user, words, script)? {
        Ok(submission) => Ok(Command::Submit(submission)),
        Err(fault) => Ok(Command::UnreadWords(fault)),
    }
}

/// A submission with this name for the request, and an empty script: that of `-r` and the name.
pub fn submit_command(alloc: Global, user: &Name, name: &Name) -> Command
    ensures { result ≡ named_submission user.now name.now }
{
    // The proof needs that it is one.
    let _bytes = name.as_bytes();
    let job = Job {
        name: *name,
        owner: *user,
        priority: 31,
        earliest: 0,
        rerun: true,
        limits: Limits {
            cpu: None,
            memory: None,
        },
        forms: None,
        out: Bytes::new(alloc),
        err: Bytes::new(alloc),
        join: false,
    };
    Command::Submit(Submission {
        queue: None,
        folder: None,
        job,
        script: Bytes::new(alloc),
    })
}

/// A line of qmgr.
pub fn qmgr_command(line: &[u8]) -> Command
    ensures { result ≡ of_line (qmgr_line line.now) }
{
    match read_qmgr(line) {
        Ok(command) => command,
        Err(fault) => Command::UnreadLine(fault),
    }
}

/// The words of qstat.
pub fn qstat_command(alloc: Global, words: &[Bytes]) -> Result<Command, Memory>
    ensures { IfOk result (λ command. command ≡ of_words (listed (stat_of words.now))) }
{
    match read_qstat(alloc, words)? {
        Ok(command) => Ok(command),
        Err(fault) => Ok(Command::UnreadWords(fault)),
    }
}

/// The words of qdel.
pub fn qdel_command(words: &[Bytes]) -> Command
    ensures { result ≡ of_words (delete_of words.now) }
{
    match read_qdel(words) {
        Ok(command) => command,
        Err(fault) => Command::UnreadWords(fault),
    }
}
