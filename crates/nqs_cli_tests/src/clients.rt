//! A client and a shepherd over a wire in memory, with datagrams as `docs/formats.md` has them.

use nqs_base::{Bytes, Items, Memory, Name};
use nqs_clients::{Errand, NqsStatus, ShepherdEnd, WordsStop, client, read_errand, shepherd};
use nqs_fakes::{Item, Kept, MemRunner, MemWire};
use nqs_outside::{Address, ListSource, MemSink, RunEnd};
use nqs_types::{HostId, RequestId};
use std::alloc::Global;
use std::rt::HostRuntime;
use std::test::Fail;

// An ASK of qstat, from port 9, with the token 5, for ann.
static ASK: [u8; 25] = [
    2, 10, 0, 0, 0, 9, 0, 0, 0, 0, 0, 0, 0, 5, 3, b'a', b'n', b'n', 2, 0, 0, 0, 0, 0, 0,
];

// An ANSWER with the token 5, another with the token 6, and one that refuses.
static ANSWER: [u8; 20] = [
    2, 11, 0, 0, 0, 0, 0, 0, 0, 0, 0, 5, 1, 0, 0, 0, 3, b'o', b'k', 10,
];

static OTHER_ANSWER: [u8; 20] = [
    2, 11, 0, 0, 0, 0, 0, 0, 0, 0, 0, 6, 1, 0, 0, 0, 3, b'n', b'o', 10,
];

static REFUSAL: [u8; 20] = [
    2, 11, 0, 0, 0, 0, 0, 0, 0, 0, 0, 5, 0, 0, 0, 0, 3, b'n', b'o', 10,
];

// An ENDEDACK of the first start of the request 7 of this host, and one of its second.
static ACK: [u8; 11] = [2, 13, 0, 0, 0, 0, 0, 7, 0, 0, 1];

static OTHER_ACK: [u8; 11] = [2, 13, 0, 0, 0, 0, 0, 7, 0, 0, 2];

// The ENDED of the first, with status 3, the output `42` and no error output.
static ENDED: [u8; 24] = [
    2, 12, 0, 0, 0, 9, 0, 0, 0, 7, 0, 0, 1, 3, 0, 0, 0, 2, b'4', b'2', 0, 0, 0, 0,
];

fn alpha() -> Name {
    match Name::read(b"alpha") {
        Ok(name) => name,
        Err(_) => unreachable!(),
    }
}

// Puts a datagram that comes only once there were so many sends.
fn put_reply(
    alloc: Global,
    sends: u64,
    datagram: &[u8],
    script: &mut Items<Item>,
) -> Result<(), Memory> {
    let bytes = Vec::from_slice(alloc, datagram)?;
    script.push(Item::Reply(sends, Bytes::from_vec(bytes)))?;
    Ok(())
}

// A wire to which these come, but nothing before the first send.
fn wire(alloc: Global, datagrams: &[&[u8]]) -> Result<MemWire, Memory> {
    let mut script = Items::new(alloc);
    for datagram in datagrams {
        put_reply(alloc, 1, datagram, &mut script)?;
    }
    Ok(MemWire::new(alloc, script, Vec::new(alloc), Vec::new(alloc)))
}

// A wire to which these come, each behind a send of its own.
fn wire_of_turns(alloc: Global, datagrams: &[&[u8]]) -> Result<MemWire, Memory> {
    let mut script = Items::new(alloc);
    for (turn, datagram) in datagrams.iter().enumerate() {
        put_reply(alloc, turn as u64 + 1, datagram, &mut script)?;
    }
    Ok(MemWire::new(alloc, script, Vec::new(alloc), Vec::new(alloc)))
}

fn words(alloc: Global, words: &[&str]) -> Result<Vec<String>, Memory> {
    let mut list = Vec::new(alloc);
    for word in words {
        list.push(word.to_string(alloc)?)?;
    }
    Ok(list)
}

// Were these bytes to be sent to the host?
fn is_sent(kept: &Kept, bytes: &[u8]) -> bool {
    match kept {
        Kept::Outbound(to, sent) => *to == Address::Host(HostId(0)) && sent.as_slice() == bytes,
        _ => false,
    }
}

// Was it a receive?
fn is_receive(kept: &Kept) -> bool {
    !matches!(kept, Kept::Outbound(_, _))
}

// Was this sent once, and then so many receives made?
fn is_asked(wire: &MemWire, bytes: &[u8], receives: usize) -> bool {
    let Some((ask, more)) = wire.kept().split_first() else {
        return false;
    };
    is_sent(ask, bytes) && more.len() == receives && more.iter().all(is_receive)
}

// Was this sent so often, and a receive made behind each?
fn is_told(wire: &MemWire, bytes: &[u8], turns: u8) -> bool {
    wire.kept().len() == 2 * usize::from(turns)
        && wire.kept().iter().enumerate().all(|(place, kept)| if place % 2 == 0 {
            is_sent(kept, bytes)
        } else {
            is_receive(kept)
        })
}

// The errand of a tool and the words behind it, if they ask for one.
fn errand(alloc: Global, tool: &str, line: &[&str]) -> Result<Option<Errand>, Memory> {
    let words = words(alloc, line)?;
    match read_errand(alloc, tool, &words) {
        Ok(errand) => Ok(Some(errand)),
        Err(WordsStop::BadWords) => Ok(None),
        Err(WordsStop::Memory(memory)) => Err(memory),
    }
}

// Whether the client ends so, and writes this.
fn ends(
    alloc: Global,
    errand: Option<Errand>,
    input: &[u8],
    wire: &mut MemWire,
    end: (NqsStatus, &[u8]),
) -> bool {
    let Some(errand) = errand else {
        return false;
    };
    let mut out = MemSink::new(alloc, 100, Vec::new(alloc));
    let mut input = ListSource::new(input);
    let status = client(alloc, HostId(0), errand, 9, wire, &mut input, &mut out);
    status == end.0 && out.taken() == end.1
}

#[test]
fn writes_the_answer(rt: HostRuntime) -> Result<(), Fail> {
    let alloc = rt.alloc();
    let mut wire = wire(
        alloc,
        &[&[], &OTHER_ANSWER, &ACK, &[2, 11], &ANSWER, &REFUSAL],
    )?;
    let errand = errand(alloc, "qstat", &["ann"])?;
    let ended = ends(alloc, errand, &[], &mut wire, (NqsStatus::Done, b"ok\n"));
    let asked = is_asked(&wire, &ASK, 5);
    drop(wire);
    assert_eq!(rt; [ended, asked], [true; 2]);
    Ok(())
}

// A send that fails ends the wait before it begins.
#[test]
fn fails_with_its_send(rt: HostRuntime) -> Result<(), Fail> {
    let alloc = rt.alloc();
    let sends = Vec::from_slice(alloc, &[1])?;
    let mut wire = MemWire::new(alloc, Items::new(alloc), Vec::new(alloc), sends);
    let errand = errand(alloc, "tick", &["ann"])?;
    let ended = ends(alloc, errand, &[], &mut wire, (NqsStatus::WireFault, b""));
    let silent = wire.kept().len() == 1 && !wire.kept().iter().any(is_receive);
    drop(wire);
    assert_eq!(rt; [ended, silent], [true; 2]);
    Ok(())
}

#[test]
fn writes_a_refusal(rt: HostRuntime) -> Result<(), Fail> {
    let alloc = rt.alloc();
    let mut wire = wire(alloc, &[&REFUSAL])?;
    let errand = errand(alloc, "qdel", &["ann", "7.alpha"])?;
    let ended = ends(alloc, errand, &[], &mut wire, (NqsStatus::Refused, b"no\n"));
    drop(wire);
    assert_eq!(rt; ended, true);
    Ok(())
}

#[test]
fn waits_ten_times(rt: HostRuntime) -> Result<(), Fail> {
    let alloc = rt.alloc();
    let mut wire = wire(alloc, &[])?;
    let errand = errand(alloc, "qstat", &["ann"])?;
    let ended = ends(alloc, errand, &[], &mut wire, (NqsStatus::NoAnswer, b""));
    let asked = is_asked(&wire, &ASK, 10);
    drop(wire);
    assert_eq!(rt; [ended, asked], [true; 2]);
    Ok(())
}

// Whether a submission of a script of so many bytes ends so, and how many calls of the wire there
// were, and receives among them.
fn submits(
    alloc: Global,
    count: usize,
    end: (NqsStatus, &[u8]),
) -> Result<(bool, [usize; 2]), Memory> {
    let script = vec![in alloc; 35u8; count]?;
    let mut wire = wire(alloc, &[&ANSWER])?;
    let errand = errand(alloc, "qsub", &["ann"])?;
    let ended = ends(alloc, errand, &script, &mut wire, end);
    let receives = wire.kept().iter().filter(|kept| is_receive(kept)).count();
    let counts = [wire.kept().len(), receives];
    drop(wire);
    Ok((ended, counts))
}

#[test]
fn refuses_a_long_script(rt: HostRuntime) -> Result<(), Fail> {
    let alloc = rt.alloc();
    let text = b"Bad word 0: script too long\n";
    let whole = submits(alloc, 49_127, (NqsStatus::Done, b"ok\n"))?;
    let two = submits(alloc, 49_128, (NqsStatus::Done, b"ok\n"))?;
    let most = submits(alloc, 1_048_576, (NqsStatus::Done, b"ok\n"))?;
    let refused = submits(alloc, 1_048_577, (NqsStatus::Refused, text))?;
    assert_eq!(rt; [whole, two], [(true, [2, 1]), (true, [3, 1])]);
    assert_eq!(rt; [most, refused], [(true, [23, 1]), (true, [0, 0])]);
    Ok(())
}

// A failed send of a piece ends the client, and no further piece is sent.
#[test]
fn fails_with_a_piece(rt: HostRuntime) -> Result<(), Fail> {
    let alloc = rt.alloc();
    let script = vec![in alloc; 35u8; 100_000]?;
    let mut counts = [0usize; 3];
    for (place, count) in counts.iter_mut().enumerate() {
        let sends = Vec::from_slice(alloc, &[place as u64 + 1])?;
        let mut wire = MemWire::new(alloc, Items::new(alloc), Vec::new(alloc), sends);
        let errand = errand(alloc, "qsub", &["ann"])?;
        let end = (NqsStatus::WireFault, b"".as_slice());
        let ended = ends(alloc, errand, &script, &mut wire, end);
        assert!(rt; ended);
        *count = wire.kept().len();
    }
    assert_eq!(rt; counts, [1, 2, 3]);
    Ok(())
}

// Whether the words ask for nothing.
fn is_bad(alloc: Global, tool: &str, line: &[&str]) -> Result<bool, Memory> {
    Ok(errand(alloc, tool, line)?.is_none())
}

// The 4,000 bytes that a tool's words may have hold 3,996 of one word.
#[test]
fn refuses_bad_words(rt: HostRuntime) -> Result<(), Fail> {
    let alloc = rt.alloc();
    let mut long = String::new(alloc);
    for _ in 0..3_996 {
        long.push_str("x")?;
    }
    let fits = is_bad(alloc, "qdel", &["ann", &long])?;
    long.push_str("x")?;
    let bad = [
        is_bad(alloc, "qstat", &[])?,
        is_bad(alloc, "qcat", &["ann"])?,
        is_bad(alloc, "qstat", &["9"])?,
        is_bad(alloc, "tick", &["ann", "now"])?,
        is_bad(alloc, "qdel", &["ann", &long])?,
    ];
    assert_eq!(rt; (fits, bad), (false, [true; 5]));
    Ok(())
}

const JOB: RequestId = RequestId {
    seq: 7,
    host: HostId(0),
};

fn runner(alloc: Global) -> Result<MemRunner, Memory> {
    let out = Bytes::from_vec(Vec::from_slice(alloc, b"42")?);
    let end = RunEnd {
        status: 3,
        out,
        err: Bytes::new(alloc),
    };
    Ok(MemRunner::new(alloc, Items::of(alloc, end)?, Vec::new(alloc)))
}

fn tell(alloc: Global, runner: &mut MemRunner, wire: &mut MemWire) -> ShepherdEnd {
    shepherd(alloc, &[alpha()], HostId(0), JOB, 1, 9, runner, wire)
}

#[test]
fn tells_the_end(rt: HostRuntime) -> Result<(), Fail> {
    let alloc = rt.alloc();
    let mut wire = wire_of_turns(alloc, &[&OTHER_ACK, &ACK])?;
    let mut runner = runner(alloc)?;
    let ended = tell(alloc, &mut runner, &mut wire) == ShepherdEnd::Told;
    let told = is_told(&wire, &ENDED, 2) && runner.kept().len() == 1;
    drop(wire);
    drop(runner);
    assert_eq!(rt; [ended, told], [true; 2]);
    Ok(())
}

#[test]
fn tells_ten_times(rt: HostRuntime) -> Result<(), Fail> {
    let alloc = rt.alloc();
    let mut wire = wire(alloc, &[])?;
    let mut runner = runner(alloc)?;
    let ended = tell(alloc, &mut runner, &mut wire) == ShepherdEnd::NoAnswer;
    let told = is_told(&wire, &ENDED, 10);
    drop(wire);
    drop(runner);
    assert_eq!(rt; [ended, told], [true; 2]);
    Ok(())
}
