//! The words of callers, with their names put in.

use nqs_base::Memory;
use nqs_seal::asked_as;
use std::alloc::Global;
use std::rt::HostRuntime;
use std::test::Fail;

fn words(alloc: Global, words: &[&str]) -> Result<Vec<String>, Memory> {
    let mut list = Vec::new(alloc);
    for word in words {
        list.push(word.to_string(alloc)?)?;
    }
    Ok(list)
}

// Does ann ask so, where she types this at a site with a key or without one?
fn asks_at(alloc: Global, is_sealed: bool, typed: &[&str], asked: &[&str]) -> Result<bool, Memory> {
    let typed = words(alloc, typed)?;
    let wanted = words(alloc, asked)?;
    match asked_as(alloc, is_sealed, "ann", &typed)? {
        Some(asked) => Ok(asked == wanted),
        None => Ok(false),
    }
}

fn asks(alloc: Global, typed: &[&str], asked: &[&str]) -> Result<bool, Memory> {
    asks_at(alloc, false, typed, asked)
}

// Are these no words of a caller, at a site with a key or without one?
fn is_refused_at(alloc: Global, is_sealed: bool, typed: &[&str]) -> Result<bool, Memory> {
    let typed = words(alloc, typed)?;
    Ok(asked_as(alloc, is_sealed, "ann", &typed)?.is_none())
}

fn is_refused(alloc: Global, typed: &[&str]) -> Result<bool, Memory> {
    is_refused_at(alloc, false, typed)
}

// Whatever name is typed, it is a word behind the caller's own.
#[test]
fn callers_ask_in_their_own_names(rt: HostRuntime) -> Result<(), Fail> {
    let alloc = rt.alloc();
    let shown = [
        asks(
            alloc,
            &["qsub", "/site", "alpha", "job"],
            &["qsub", "/site", "alpha", "ann", "job"],
        )?,
        asks(
            alloc,
            &["qstat", "/site", "alpha"],
            &["qstat", "/site", "alpha", "ann"],
        )?,
        asks(
            alloc,
            &["qdel", "/site", "alpha", "bob", "1.alpha"],
            &["qdel", "/site", "alpha", "ann", "bob", "1.alpha"],
        )?,
        asks(
            alloc,
            &["qmgr", "/site", "alpha", "root"],
            &["qmgr", "/site", "alpha", "ann", "root"],
        )?,
    ];
    assert_eq!(rt; shown, [true; 4]);
    Ok(())
}

#[test]
fn other_words_are_no_callers(rt: HostRuntime) -> Result<(), Fail> {
    let alloc = rt.alloc();
    let shown = [
        is_refused(alloc, &[])?,
        is_refused(alloc, &["qsub", "/site"])?,
        is_refused(alloc, &["tick", "/site", "alpha"])?,
        is_refused(alloc, &["daemon", "/site", "alpha", "9"])?,
        is_refused(alloc, &["shepherd", "/site", "alpha", "1.alpha", "1"])?,
        is_refused(alloc, &["format", "/site", "alpha"])?,
        is_refused(alloc, &["Qsub", "/site", "alpha"])?,
        is_refused(alloc, &["", "/site", "alpha"])?,
    ];
    assert_eq!(rt; shown, [true; 8]);
    Ok(())
}

// Under a key the name is the folder of what is submitted, and of nothing else.
#[test]
fn submissions_get_their_folder(rt: HostRuntime) -> Result<(), Fail> {
    let alloc = rt.alloc();
    let shown = [
        asks_at(
            alloc,
            true,
            &["qsub", "/site", "alpha"],
            &["qsub", "/site", "alpha", "ann", "-do", "ann"],
        )?,
        asks_at(
            alloc,
            true,
            &["qsub", "/site", "alpha", "-o", "x/-do"],
            &["qsub", "/site", "alpha", "ann", "-o", "x/-do", "-do", "ann"],
        )?,
        asks_at(
            alloc,
            true,
            &["qdel", "/site", "alpha", "-do"],
            &["qdel", "/site", "alpha", "ann", "-do"],
        )?,
        asks_at(
            alloc,
            false,
            &["qsub", "/site", "alpha", "-do", "bob"],
            &["qsub", "/site", "alpha", "ann", "-do", "bob"],
        )?,
    ];
    assert_eq!(rt; shown, [true; 4]);
    Ok(())
}

#[test]
fn callers_name_no_folder_under_a_key(rt: HostRuntime) -> Result<(), Fail> {
    let alloc = rt.alloc();
    let shown = [
        is_refused_at(alloc, true, &["qsub", "/site", "alpha", "-do", "ann"])?,
        is_refused_at(
            alloc,
            true,
            &["qsub", "/site", "alpha", "-nr", "-do", "bob"],
        )?,
        is_refused_at(alloc, true, &["qsub", "/site", "alpha", "-o", "-do"])?,
        is_refused_at(alloc, true, &["daemon", "/site", "alpha", "9"])?,
    ];
    assert_eq!(rt; shown, [true; 4]);
    Ok(())
}
