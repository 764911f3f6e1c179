//! The programs `nqs` and `nqs_ask`, but for their `main`.

ghost use Rattle.std.specs.Prelude.{◌≢◌, None, IfOk, string_bytes};
ghost use Rattle.nqs_words.specs.Values.{name_of};

use crate::caller::run_as;
use crate::dispatch::run;
use crate::machine::status_of_end;
use crate::real::RealMachine;
use crate::told::{CALLER_FORMS, FORMS, tell_forms, tell_no_name};
use nqs_base::Memory;
use nqs_clients::NqsStatus;
use nqs_real::{Reading, Writing, caller_name, fill_streams, tell_part};
use nqs_seal::has_folders;
use nqs_words::name_of;
use std::process::ExitCode;
use std::rt::HostRuntime;
use std::{env, io};

// Words that can't be had are in no form, but where memory was wanting.
fn status_of_error(rt: &HostRuntime, forms: &str, e: &io::Error) -> NqsStatus {
    match Memory::of_error(e) {
        Some(memory) => NqsStatus::Memory(memory),
        None => {
            tell_forms(rt, forms);
            NqsStatus::BadWords
        }
    }
}

// The words of the command line, or the status where they can't be had.
fn words_of(rt: &HostRuntime, forms: &str) -> Result<Vec<String>, NqsStatus> {
    let mut words = Vec::new(rt.alloc());
    let given = match env::args(rt) {
        Ok(given) => given,
        Err(e) => return Err(status_of_error(rt, forms, &e)),
    };
    for word in given.skip(1) {
        if let Err(refused) = words.push(word) {
            return Err(NqsStatus::Memory(refused.into()));
        }
    }
    Ok(words)
}

fn status_of(rt: &HostRuntime) -> NqsStatus {
    if fill_streams(rt).is_err() {
        return NqsStatus::MachineFault;
    }
    let words = match words_of(rt, FORMS) {
        Ok(words) => words,
        Err(status) => return status,
    };
    let mut machine = RealMachine::new(*rt, FORMS);
    let mut input = Reading::new(rt.reader());
    let mut output = Writing::new(io::writer(rt));
    run(rt.alloc(), &words, &mut machine, &mut input, &mut output)
}

/// Does what the words of the command line ask for, over the real machine and the standard streams.
/// The code is the status's number.
pub fn program(rt: &HostRuntime) -> ExitCode {
    ExitCode::from(status_of(rt).number())
}

// A name that can't be had: want of memory has its status.
fn status_of_nameless(rt: &HostRuntime, e: &io::Error) -> NqsStatus {
    match Memory::of_error(e) {
        Some(memory) => NqsStatus::Memory(memory),
        None => {
            tell_part(rt, "the caller's account", e);
            NqsStatus::MachineFault
        }
    }
}

// The name of who started this process, which is one of NQS, or the status where he has none.
fn caller_of(rt: &HostRuntime) -> Result<String, NqsStatus>
    ensures { IfOk result (λ name. name_of (string_bytes name) ≢ None) }
{
    match caller_name(rt) {
        Ok(Some(name)) if name_of(name.as_bytes()).is_some() => Ok(name),
        Ok(name) => {
            let _ = tell_no_name(rt, name.as_deref());
            Err(NqsStatus::MachineFault)
        }
        Err(e) => Err(status_of_nameless(rt, &e)),
    }
}

// Whether the words are those of a tool whose outputs stand in folders under a key, and the site
// has one; other words aren't looked at further here.
fn is_placed(machine: &mut RealMachine, words: &[String]) -> Result<bool, NqsStatus> {
    let [tool, dir, ..] = words else {
        return Ok(false);
    };
    if !has_folders(true, tool) {
        return Ok(false);
    }
    match machine.is_sealed(dir) {
        Ok(is_sealed) => Ok(is_sealed),
        Err(end) => Err(status_of_end(end)),
    }
}

// The caller's name is had before anything of the site is read.
fn status_of_caller(rt: &HostRuntime) -> NqsStatus {
    if fill_streams(rt).is_err() {
        return NqsStatus::MachineFault;
    }
    let words = match words_of(rt, CALLER_FORMS) {
        Ok(words) => words,
        Err(status) => return status,
    };
    let name = match caller_of(rt) {
        Ok(name) => name,
        Err(status) => return status,
    };
    let mut machine = RealMachine::new(*rt, CALLER_FORMS);
    let is_sealed = match is_placed(&mut machine, &words) {
        Ok(is_sealed) => is_sealed,
        Err(status) => return status,
    };
    let mut input = Reading::new(rt.reader());
    let mut output = Writing::new(io::writer(rt));
    run_as(
        rt.alloc(),
        is_sealed,
        &name,
        &words,
        &mut machine,
        &mut input,
        &mut output,
    )
}

/// Asks a host's daemon what the words of the command line ask for, in the name of who started this
/// process, as the system has it. The code is the status's number.
pub fn ask_program(rt: &HostRuntime) -> ExitCode {
    ExitCode::from(status_of_caller(rt).number())
}
