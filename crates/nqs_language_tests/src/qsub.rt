//! Words of qsub and of its script lines: defaults, values, the command's before the script's,
//! paths in a folder, first faults, and a script that is too long.

use nqs_base::{Bytes, Memory, Name};
use nqs_qsub::read_qsub;
use nqs_types::{Submission, WordsCause, WordsFault};
use std::alloc::Global;
use std::rt::HostRuntime;
use std::test::Fail;

fn user() -> Name {
    match Name::read(b"ann") {
        Ok(name) => name,
        Err(_) => unreachable!(),
    }
}

// The words of a text, parted by single spaces.
fn words(alloc: Global, text: &[u8]) -> Result<Vec<Bytes>, Memory> {
    let mut words = Vec::new(alloc);
    for word in text.split(|b| *b == b' ') {
        words.push(Bytes::from_vec(Vec::from_slice(alloc, word)?))?;
    }
    Ok(words)
}

fn read(
    alloc: Global,
    text: &[u8],
    script: &[u8],
) -> Result<Result<Submission, WordsFault>, Memory> {
    let words = words(alloc, text)?;
    read_qsub(alloc, &user(), words.as_slice(), script)
}

// A fault of words or a script, its line and its word.
type Found = Option<(WordsCause, u32, u32)>;

fn fault(alloc: Global, text: &[u8], script: &[u8]) -> Result<Found, Memory> {
    match read(alloc, text, script)? {
        Ok(_) => Ok(None),
        Err(fault) => Ok(Some((fault.cause, fault.line, fault.word))),
    }
}

fn has_defaults(made: &Submission) -> [bool; 7] {
    [
        made.queue.is_none(),
        made.job.name.as_bytes() == b"STDIN".as_slice(),
        made.job.priority == 31,
        made.job.earliest == 0,
        made.job.rerun,
        made.job.out.len() == 0,
        made.script.as_slice() == b"date".as_slice(),
    ]
}

fn defaults(alloc: Global) -> Option<[bool; 7]> {
    match read_qsub(alloc, &user(), &[], b"date") {
        Ok(Ok(made)) => Some(has_defaults(&made)),
        Ok(Err(_)) => None,
        Err(_) => None,
    }
}

#[test]
fn takes_what_is_given_and_defaults(rt: HostRuntime) {
    assert_eq!(rt; defaults(rt.alloc()), Some([true; 7]));
}

fn has_values(made: &Submission) -> [bool; 6] {
    [
        made.job.limits.cpu == Some(5_400),
        made.job.limits.memory == Some(67_108_864),
        !made.job.rerun,
        made.job.earliest == 86_400,
        made.job.out.as_slice() == b"a/b".as_slice(),
        made.job.join,
    ]
}

fn values(alloc: Global, text: &[u8]) -> Option<[bool; 6]> {
    match read(alloc, text, b"") {
        Ok(Ok(made)) => Some(has_values(&made)),
        Ok(Err(_)) => None,
        Err(_) => None,
    }
}

#[test]
fn takes_values(rt: HostRuntime) {
    let text = b"-lT 1:30:00 -lM 64mb -nr -a 1970-01-02T00:00:00 -o a/b -eo";
    assert_eq!(rt; values(rt.alloc(), text), Some([true; 6]));
}

fn is_run(queue: Option<Name>) -> bool {
    match queue {
        Some(name) => name.as_bytes() == b"run".as_slice(),
        None => false,
    }
}

fn has_both(made: &Submission) -> [bool; 4] {
    [
        is_run(made.queue),
        made.job.priority == 6,
        made.job.err.len() == 0,
        made.job.join,
    ]
}

fn both(alloc: Global, text: &[u8], script: &[u8]) -> Option<[bool; 4]> {
    match read(alloc, text, script) {
        Ok(Ok(made)) => Some(has_both(&made)),
        Ok(Err(_)) => None,
        Err(_) => None,
    }
}

#[test]
fn takes_the_command_before_the_script(rt: HostRuntime) {
    let script = b"# a job\n#@$ -q run -p 5\n#@$-e log\n#@$\n#@$ -x\n./flow\n";
    assert_eq!(rt; both(rt.alloc(), b"-p 6 -eo", script), Some([true; 4]));
}

/// Words of a command, their fault, and which of them has it.
static BAD_WORDS: [(&[u8], WordsCause, u32); 13] = [
    (b"-p 64", WordsCause::BadNumber, 2),
    (b"-x", WordsCause::Unknown, 1),
    (b"-p", WordsCause::Missing, 1),
    (b"-p 5 -p", WordsCause::Repeated, 3),
    (b"-eo -e", WordsCause::Both, 2),
    (b"-q -p", WordsCause::BadName, 2),
    (b"-a 2001-02", WordsCause::BadMoment, 2),
    (b"-o ../x", WordsCause::BadPath, 2),
    (b"-do", WordsCause::Missing, 1),
    (b"-do ann -do ann", WordsCause::Repeated, 3),
    (b"-do 9x", WordsCause::BadName, 2),
    (b"-do a/b", WordsCause::BadName, 2),
    (b"-do ..", WordsCause::BadName, 2),
];

#[test]
fn finds_faults_of_the_command(rt: HostRuntime) {
    for (text, cause, word) in &BAD_WORDS {
        assert_eq!(rt; fault(rt.alloc(), text, b""), Ok(Some((*cause, 0, *word))));
    }
}

/// A script behind a command, and its fault, with the line and the word.
static SCRIPTS: [(&[u8], Found); 5] = [
    (b"#@$ -p 64", Some((WordsCause::BadNumber, 1, 2))),
    (
        b"#\n#@$ -q a\n#@$\t-nr -q b\n",
        Some((WordsCause::Repeated, 3, 2)),
    ),
    (b"#@$ -q\n#@$ a\n", Some((WordsCause::Missing, 1, 1))),
    (b"date\n#@$ -x\n", None),
    (b"#@$ \n#@$ -x\n", Some((WordsCause::Unknown, 2, 1))),
];

#[test]
fn finds_faults_of_the_script(rt: HostRuntime) {
    for (script, found) in &SCRIPTS {
        assert_eq!(rt; fault(rt.alloc(), b"-p 5", script), Ok(*found));
    }
}

// So many bytes, of one line.
fn line_of(alloc: Global, count: usize) -> Result<Vec<u8>, Memory> {
    Ok(vec![in alloc; b'x'; count]?)
}

#[test]
fn refuses_a_script_that_is_too_long(rt: HostRuntime) -> Result<(), Fail> {
    let longest = line_of(rt.alloc(), 1_048_576)?;
    let longer = line_of(rt.alloc(), 1_048_577)?;
    let found = [
        fault(rt.alloc(), b"-nr", &longest),
        fault(rt.alloc(), b"-x", &longer),
    ];
    let too_long = Some((WordsCause::ScriptTooLong, 0, 0));
    assert_eq!(rt; found, [Ok(None), Ok(too_long)]);
    Ok(())
}

/// Words of a command, a script behind them, and what the submission has then: the folder, the path
/// of the output and that of the error output.
static PLACED: [(&[u8], &[u8], [&[u8]; 3]); 8] = [
    (b"-do ann", b"", [b"ann", b"", b""]),
    (b"-do ann -o a/b", b"", [b"ann", b"ann/a/b", b""]),
    (b"-e b -do ann", b"", [b"ann", b"", b"ann/b"]),
    (b"-o a -do ann -eo", b"", [b"ann", b"ann/a", b""]),
    (b"-nr", b"#@$ -do bob -o x", [b"bob", b"bob/x", b""]),
    (
        b"-o x",
        b"#@$ -e y\n#@$ -do bob",
        [b"bob", b"bob/x", b"bob/y"],
    ),
    (
        b"-do ann",
        b"#@$ -do bob -o x -e y",
        [b"ann", b"ann/x", b"ann/y"],
    ),
    (b"-o x", b"#@$ -e y", [b"", b"x", b"y"]),
];

fn is_folder(folder: Option<Name>, bytes: &[u8]) -> bool {
    match folder {
        Some(name) => name.as_bytes() == bytes,
        None => bytes.is_empty(),
    }
}

fn is_at(made: &Submission, wanted: &[&[u8]; 3]) -> [bool; 3] {
    [
        is_folder(made.folder, wanted[0]),
        made.job.out.as_slice() == wanted[1],
        made.job.err.as_slice() == wanted[2],
    ]
}

fn placed(alloc: Global, text: &[u8], script: &[u8], wanted: &[&[u8]; 3]) -> Option<[bool; 3]> {
    match read(alloc, text, script) {
        Ok(Ok(made)) => Some(is_at(&made, wanted)),
        Ok(Err(_)) => None,
        Err(_) => None,
    }
}

#[test]
fn puts_paths_into_the_folder(rt: HostRuntime) {
    for (text, script, wanted) in &PLACED {
        assert_eq!(rt; placed(rt.alloc(), text, script, wanted), Some([true; 3]));
    }
}

/// Words of a command and a script behind them, in which each `@` stands for so many bytes, and
/// their fault.
static LONG: [(&[u8], &[u8], usize, Found); 14] = [
    (b"-o @", b"", 255, None),
    (b"-o @", b"", 256, Some((WordsCause::BadPath, 0, 2))),
    (b"-do ann -o @", b"", 251, None),
    (b"-do ann -o @", b"", 252, Some((WordsCause::BadPath, 0, 4))),
    (b"-e @ -do ann", b"", 251, None),
    (b"-e @ -do ann", b"", 252, Some((WordsCause::BadPath, 0, 2))),
    (
        b"-do ann -e @ -o @",
        b"",
        252,
        Some((WordsCause::BadPath, 0, 6)),
    ),
    (b"-do ann", b"#\n#@$ -nr -o @", 251, None),
    (
        b"-do ann",
        b"#\n#@$ -nr -o @",
        252,
        Some((WordsCause::BadPath, 2, 3)),
    ),
    (
        b"-do ann -e @",
        b"#@$ -o @",
        252,
        Some((WordsCause::BadPath, 1, 2)),
    ),
    (
        b"-o @",
        b"#@$ -do ann",
        252,
        Some((WordsCause::BadPath, 0, 2)),
    ),
    (b"-do ann -o x", b"#@$ -o @", 252, None),
    (
        b"-do ann -o @ -x",
        b"",
        252,
        Some((WordsCause::Unknown, 0, 5)),
    ),
    (
        b"-do ann -o @",
        b"#@$ -x",
        252,
        Some((WordsCause::Unknown, 1, 1)),
    ),
];

// The text, with so many bytes in the place of each `@` behind a space.
fn filled(alloc: Global, text: &[u8], count: usize) -> Result<Vec<u8>, Memory> {
    let mut bytes = Vec::new(alloc);
    let mut last = b'x';
    for byte in text {
        if *byte == b'@' && last == b' ' {
            for _ in 0..count {
                bytes.push(b'x')?;
            }
        } else {
            bytes.push(*byte)?;
        }
        last = *byte;
    }
    Ok(bytes)
}

fn long_fault(alloc: Global, text: &[u8], script: &[u8], count: usize) -> Result<Found, Memory> {
    let text = filled(alloc, text, count)?;
    let script = filled(alloc, script, count)?;
    fault(alloc, &text, &script)
}

#[test]
fn looks_at_lengths_in_the_folder(rt: HostRuntime) {
    for (text, script, count, found) in &LONG {
        assert_eq!(rt; long_fault(rt.alloc(), text, script, *count), Ok(*found));
    }
}
