//! What is done for callers, over a machine in memory.

use crate::machine::MemMachine;
use nqs_base::{Bytes, Items, Memory};
use nqs_cli::run_as;
use nqs_fakes::Item;
use nqs_outside::{ListSource, MemSink};
use std::alloc::Global;
use std::rt::HostRuntime;
use std::test::Fail;

// An ANSWER with the token 5 and the text `ok`.
static ANSWER: [u8; 20] = [
    2, 11, 0, 0, 0, 0, 0, 0, 0, 0, 0, 5, 1, 0, 0, 0, 3, b'o', b'k', 10,
];

fn words_of(alloc: Global, line: &str) -> Result<Vec<String>, Memory> {
    let mut words = Vec::new(alloc);
    for word in line.split(' ') {
        words.push(word.to_string(alloc)?)?;
    }
    Ok(words)
}

// A machine to whose wires an answer comes.
fn answering(alloc: Global) -> Result<MemMachine, Memory> {
    let mut arrivals = Items::new(alloc);
    let bytes = Vec::from_slice(alloc, &ANSWER)?;
    arrivals.push(Item::Datagram(Bytes::from_vec(bytes)))?;
    Ok(MemMachine::new(alloc, arrivals, 0))
}

// The status with which a caller of this name ends, who types this line at a site with a key or
// without one, what was written, and how much the machine lent.
fn ends_at(
    alloc: Global,
    is_sealed: bool,
    name: &str,
    line: &str,
) -> Result<(u8, usize, usize), Memory> {
    let words = words_of(alloc, line)?;
    let mut machine = answering(alloc)?;
    let mut out = MemSink::new(alloc, 100, Vec::new(alloc));
    let mut input = ListSource::new(b"");
    let status = run_as(
        alloc,
        is_sealed,
        name,
        &words,
        &mut machine,
        &mut input,
        &mut out,
    );
    Ok((status.number(), out.taken().len(), machine.lent().len()))
}

// The same at a site without a key.
fn ends(alloc: Global, name: &str, line: &str) -> Result<(u8, usize, usize), Memory> {
    ends_at(alloc, false, name, line)
}

// Callers ask by the four tools.
#[test]
fn callers_ask(rt: HostRuntime) -> Result<(), Fail> {
    let alloc = rt.alloc();
    let shown = [
        ends(alloc, "ann", "qsub D alpha")?,
        ends(alloc, "ann", "qstat D alpha")?,
        ends(alloc, "ann", "qdel D alpha 1.alpha")?,
        ends(alloc, "ann", "qmgr D alpha shutdown")?,
    ];
    assert_eq!(rt; shown, [(0, 3, 2); 4]);
    Ok(())
}

// Nothing else is done for them, and without a name of NQS nothing is.
#[test]
fn callers_do_nothing_else(rt: HostRuntime) -> Result<(), Fail> {
    let alloc = rt.alloc();
    let shown = [
        ends(alloc, "ann", "format D alpha")?,
        ends(alloc, "ann", "daemon D alpha 9")?,
        ends(alloc, "ann", "shepherd D alpha 7.alpha 1")?,
        ends(alloc, "ann", "tick D alpha")?,
        ends(alloc, "ann", "qstat D")?,
        ends(alloc, "a.name", "qstat D alpha")?,
        ends(alloc, "", "qstat D alpha")?,
    ];
    assert_eq!(rt; shown, [(2, 0, 0); 7]);
    Ok(())
}

// Under a key they ask too, but name no folder of outputs.
#[test]
fn callers_name_no_folder_under_a_key(rt: HostRuntime) -> Result<(), Fail> {
    let alloc = rt.alloc();
    let shown = [
        ends_at(alloc, true, "ann", "qsub D alpha")?,
        ends_at(alloc, true, "ann", "qstat D alpha")?,
        ends_at(alloc, true, "ann", "qsub D alpha -do ann")?,
        ends_at(alloc, false, "ann", "qsub D alpha -do ann")?,
    ];
    assert_eq!(rt; shown, [(0, 3, 2), (0, 3, 2), (2, 0, 0), (0, 3, 2)]);
    Ok(())
}
