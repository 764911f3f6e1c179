//! What the words, lines and scripts of each of the five commands ask for, also where they are bad.

use nqs_base::{Bytes, Memory, Name};
use nqs_language_acts::{qdel_command, qmgr_command, qstat_command, qsub_command, submit_command};
use nqs_types::Command;
use std::alloc::Global;
use std::rt::HostRuntime;

fn name() -> Name {
    match Name::read(b"ann") {
        Ok(name) => name,
        Err(_) => unreachable!(),
    }
}

fn word(alloc: Global, text: &[u8]) -> Result<Bytes, Memory> {
    Ok(Bytes::from_vec(Vec::from_slice(alloc, text)?))
}

fn words(alloc: Global, texts: &[&[u8]]) -> Result<Vec<Bytes>, Memory> {
    let mut words = Vec::new(alloc);
    for text in texts {
        words.push(word(alloc, text)?)?;
    }
    Ok(words)
}

fn is_submission(command: &Command) -> bool {
    match command {
        Command::Submit(sub) => sub.job.name == name(),
        _ => false,
    }
}

fn is_unread(command: &Command) -> bool {
    match command {
        Command::UnreadWords(_) => true,
        Command::UnreadLine(_) => true,
        _ => false,
    }
}

fn submits(command: Result<Command, Memory>) -> Option<bool> {
    command.as_ref().ok().map(is_submission)
}

fn unread(command: Result<Command, Memory>) -> Option<bool> {
    command.as_ref().ok().map(is_unread)
}

// Whether the two submissions are read, and which of the other commands are not: those that take
// memory, and those that take none.
type Answers = ([Option<bool>; 2], Option<bool>, [bool; 3]);

fn answers(alloc: Global, words: &[Bytes]) -> Answers {
    let submitted = [
        submits(qsub_command(alloc, &name(), words, b"date")),
        Some(is_submission(&submit_command(alloc, &name(), &name()))),
    ];
    let listed = unread(qstat_command(alloc, &[]));
    let others = [
        is_unread(&qmgr_command(b"shutdown")),
        is_unread(&qmgr_command(b"frob")),
        is_unread(&qdel_command(words)),
    ];
    (submitted, listed, others)
}

fn answered(alloc: Global) -> Result<Answers, Memory> {
    let words = words(alloc, &[b"-r", b"ann"])?;
    Ok(answers(alloc, words.as_slice()))
}

#[test]
fn asks_for_what_is_said(rt: HostRuntime) {
    let wanted = ([Some(true); 2], Some(false), [false, true, true]);
    assert_eq!(rt; answered(rt.alloc()), Ok(wanted));
}
