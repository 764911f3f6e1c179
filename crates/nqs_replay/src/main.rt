//! Runs a schedule, read from standard input or generated, on hosts in memory, and writes to
//! standard output what is seen of each event, or a summary. A function of its words and its input:
//! the same give the same text.
#![tactic(auto)]

ghost use Rattle.std.specs.Prelude.{◌≡◌, ℕ, IfOk, drop, map, string_bytes};
ghost use Rattle.std.specs.Process.{exit_status};
ghost use Rattle.nqs_outside.specs.Streams.{sunk, fed};
ghost use Rattle.nqs_network_runs.specs.Numbers.{number_of};
ghost use Rattle.nqs_replay.specs.Exits.{Exits};

use nqs_base::Memory;
use nqs_network_runs::replay::replay;
use nqs_network_runs::status::Status;
use nqs_outside::{Sink, Source};
use nqs_real::{Reading, Writing};
use std::alloc::Global;
use std::env::Args;
use std::process::ExitCode;
use std::{env, io};

// What is printed where the words are in no form.
const USAGE: &str = "usage: nqs_replay [--summary] [--generate SEED --hosts N --events M]";

// Words that can't be had are in no form, but where memory was wanting.
fn status_of_error(error: &io::Error) -> Status {
    match Memory::of_error(error) {
        Some(memory) => Status::Memory(memory),
        None => Status::BadWords,
    }
}

// The words behind the first of these, which is the program's name.
fn after_the_name(alloc: Global, given: Args) -> Result<Vec<String>, Memory>
    ensures { IfOk result (λ words. words.items ≡ drop 1 given.rest.items) }
{
    let mut given = given;
    let _name = given.next();
    let mut words = Vec::new(alloc);
    for word in given {
        words.push(word)?;
    }
    Ok(words)
}

// The words of the command line, or the status where they can't be had.
fn words_of(rt: &HostRuntime) -> Result<Vec<String>, Status> {
    match env::args(rt) {
        Err(error) => Err(status_of_error(&error)),
        Ok(given) => match after_the_name(rt.alloc(), given) {
            Ok(words) => Ok(words),
            Err(memory) => Err(Status::Memory(memory)),
        },
    }
}

// The code with which the program exits. Bad words get the usage on standard error; where that
// fails too, the number tells.
fn exit_code(rt: &HostRuntime, status: Status) -> ExitCode
    ensures { exit_status result ≡ number_of status }
{
    if matches!(status, Status::BadWords) {
        let _ = rt.eprintln(USAGE);
    }
    ExitCode::from(status.number())
}

// Runs what the words ask for: the code is the number of how it ended.
fn replay_over<S: Source, K: Sink>(
    rt: &HostRuntime,
    words: &[String],
    source: &mut S,
    sink: &mut K,
) -> ExitCode
    ensures { Exits (map (λ s. string_bytes s) words.now) (fed S.left S.faults source.old source.new) (sunk K.taken K.faults K.stalls sink.old sink.new)
        (exit_status result) }
{
    let mut left = Vec::new(rt.alloc());
    let status = replay(rt.alloc(), words, source, sink, &mut left);
    exit_code(rt, status)
}

fn main(rt: HostRuntime) -> ExitCode {
    let words = match words_of(&rt) {
        Ok(words) => words,
        Err(status) => return exit_code(&rt, status),
    };
    let mut source = Reading::new(rt.reader());
    let mut sink = Writing::new(io::writer(&rt));
    replay_over(&rt, &words, &mut source, &mut sink)
}
