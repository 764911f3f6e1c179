//! Words of qstat and qdel with their first faults, and the texts of replies, refusals and faults.

use nqs_base::{Bytes, Items, Memory, Name};
use nqs_query::{print_reply, read_qdel, read_qstat};
use nqs_types::{
    Command, GrammarFault, HostId, Named, Refusal, Reply, RequestId, WordsCause, WordsFault,
};
use std::alloc::Global;
use std::rt::HostRuntime;

fn name(bytes: &[u8]) -> Name {
    match Name::read(bytes) {
        Ok(name) => name,
        Err(_) => match Name::read(b"bad") {
            Ok(name) => name,
            Err(_) => unreachable!(),
        },
    }
}

// The words of a text, parted by single spaces; the empty text has none.
fn words(alloc: Global, text: &[u8]) -> Result<Vec<Bytes>, Memory> {
    let mut words = Vec::new(alloc);
    if text.is_empty() {
        return Ok(words);
    }
    for word in text.split(|b| *b == b' ') {
        words.push(Bytes::from_vec(Vec::from_slice(alloc, word)?))?;
    }
    Ok(words)
}

// The fault of words and the number of its word, where they have one.
fn fault(answer: Result<Command, WordsFault>) -> Option<(WordsCause, u32)> {
    match answer {
        Ok(_) => None,
        Err(fault) => Some((fault.cause, fault.word)),
    }
}

fn stat_fault(alloc: Global, text: &[u8]) -> Result<Option<(WordsCause, u32)>, Memory> {
    let words = words(alloc, text)?;
    let answer = read_qstat(alloc, words.as_slice())?;
    Ok(fault(answer))
}

fn delete_fault(alloc: Global, text: &[u8]) -> Result<Option<(WordsCause, u32)>, Memory> {
    let words = words(alloc, text)?;
    Ok(fault(read_qdel(words.as_slice())))
}

fn deleted(command: &Command) -> Option<(Named, bool)> {
    match command {
        Command::Delete { id, kill } => Some((*id, *kill)),
        _ => None,
    }
}

// The request and whether it is killed.
fn deletion(answer: Result<Command, WordsFault>) -> Option<(Named, bool)> {
    match answer {
        Ok(command) => deleted(&command),
        Err(_) => None,
    }
}

// The user, and how many queues are asked for.
fn question(answer: Result<Command, WordsFault>) -> Option<(Option<Name>, usize)> {
    match answer {
        Ok(Command::Stat { user, queues }) => Some((user, queues.len())),
        Ok(_) => None,
        Err(_) => None,
    }
}

fn asked(alloc: Global, text: &[u8]) -> Result<Option<(Option<Name>, usize)>, Memory> {
    let words = words(alloc, text)?;
    let answer = read_qstat(alloc, words.as_slice())?;
    Ok(question(answer))
}

#[test]
fn reads_words_of_qstat(rt: HostRuntime) {
    let found = asked(rt.alloc(), b"-u ann batch night");
    assert_eq!(rt; found, Ok(Some((Some(name(b"ann")), 2))));
}

/// Words of `qstat`, and their fault.
static STAT_WORDS: [(&[u8], Option<(WordsCause, u32)>); 5] = [
    (b"", None),
    (b"-u", Some((WordsCause::Missing, 1))),
    (b"-u 9", Some((WordsCause::BadName, 2))),
    (b"batch -u ann", Some((WordsCause::BadName, 2))),
    (b"-u ann batch -x", Some((WordsCause::BadName, 4))),
];

#[test]
fn finds_faults_of_qstat(rt: HostRuntime) {
    for (text, found) in &STAT_WORDS {
        assert_eq!(rt; stat_fault(rt.alloc(), text), Ok(*found));
    }
}

fn deletes(alloc: Global, text: &[u8]) -> Option<(Named, bool)> {
    match words(alloc, text) {
        Ok(words) => deletion(read_qdel(words.as_slice())),
        Err(_) => None,
    }
}

#[test]
fn reads_words_of_qdel(rt: HostRuntime) {
    let id = Named {
        seq: 12,
        host: name(b"alpha"),
    };
    assert_eq!(rt; deletes(rt.alloc(), b"-k 12.alpha"), Some((id, true)));
}

/// Words of `qdel`, and their fault.
static DELETE_WORDS: [(&[u8], WordsCause, u32); 6] = [
    (b"", WordsCause::Missing, 1),
    (b"-k", WordsCause::Missing, 2),
    (b"07.alpha", WordsCause::BadNumber, 1),
    (b"7", WordsCause::BadName, 1),
    (b"-x 1.alpha", WordsCause::BadNumber, 1),
    (b"1.alpha 2.alpha", WordsCause::Unknown, 2),
];

#[test]
fn finds_faults_of_qdel(rt: HostRuntime) {
    for (text, cause, word) in &DELETE_WORDS {
        assert_eq!(rt; delete_fault(rt.alloc(), text), Ok(Some((*cause, *word))));
    }
}

fn prints(alloc: Global, reply: Reply, text: &[u8]) -> bool {
    let site = [name(b"alpha")];
    let mut out = Vec::new(alloc);
    let done = print_reply(alloc, &reply, site.as_slice(), &mut out).is_ok();
    done && out.as_slice() == text
}

fn prints_lines(alloc: Global, line: &[u8], text: &[u8]) -> Result<bool, Memory> {
    let bytes = Bytes::from_vec(Vec::from_slice(alloc, line)?);
    let lines = Items::of(alloc, bytes)?;
    Ok(prints(alloc, Reply::Lines(lines), text))
}

const ID: RequestId = RequestId {
    seq: 12,
    host: HostId(0),
};

fn submitted() -> Reply {
    Reply::Submitted {
        id: ID,
        queue: name(b"batch"),
    }
}

#[test]
fn prints_replies(rt: HostRuntime) {
    let alloc = rt.alloc();
    let queued = b"Request 12.alpha submitted to queue: batch.\n";
    let deleted = b"Request 12.alpha has been deleted.\n";
    let signalled = b"Request 12.alpha has been signalled.\n";
    let printed = [
        prints(alloc, submitted(), queued),
        prints(alloc, Reply::Deleted(ID), deleted),
        prints(alloc, Reply::Signalled(ID), signalled),
        prints(alloc, Reply::Done, b"Done.\n"),
    ];
    assert_eq!(rt; printed, [true; 4]);
    let lines = prints_lines(alloc, b"0 requests.", b"0 requests.\n").ok();
    assert_eq!(rt; lines, Some(true));
}

fn prints_refusal(alloc: Global, refusal: Refusal, text: &[u8]) -> bool {
    prints(alloc, Reply::Refused(refusal), text)
}

#[test]
fn prints_refusals(rt: HostRuntime) {
    let alloc = rt.alloc();
    let queue = Refusal::NoQueue(name(b"nope"));
    let request = Refusal::NoRequest(Named {
        seq: 9,
        host: name(b"alpha"),
    });
    let used = Refusal::QueueInUse(name(b"q"), 3);
    let printed = [
        prints_refusal(alloc, queue, b"Refused 3: no queue nope.\n"),
        prints_refusal(
            alloc,
            Refusal::NotOperator,
            b"Refused 2: not an operator.\n",
        ),
        prints_refusal(alloc, request, b"Refused 6: no request 9.alpha.\n"),
        prints_refusal(alloc, used, b"Refused 26: queue q holds 3 requests.\n"),
    ];
    assert_eq!(rt; printed, [true; 4]);
}

const BAD_WORD: WordsFault = WordsFault {
    cause: WordsCause::BadNumber,
    line: 0,
    word: 2,
};

const BAD_SCRIPT: WordsFault = WordsFault {
    cause: WordsCause::Both,
    line: 3,
    word: 4,
};

#[test]
fn prints_faults(rt: HostRuntime) {
    let alloc = rt.alloc();
    let line = Reply::UnreadLine(GrammarFault::Ambiguous(0));
    let script = b"Bad word 4 in script line 3: both -e and -eo\n";
    let printed = [
        prints(alloc, line, b"Bad line at 0: ambiguous\n"),
        prints(
            alloc,
            Reply::UnreadWords(BAD_WORD),
            b"Bad word 2: bad number\n",
        ),
        prints(alloc, Reply::UnreadWords(BAD_SCRIPT), script),
    ];
    assert_eq!(rt; printed, [true; 3]);
}
