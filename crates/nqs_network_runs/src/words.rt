//! The words of the command line, which `clap` reads: `--summary`, and `--generate SEED --hosts N
//! --events M`, the three options all there or none of them. specs/Words.antt says what they ask
//! for.

ghost use Rattle.std.specs.Prelude.{◌≡◌, IfOk, map, false, option_map, string_bytes};
ghost use Rattle.clap.specs.Words.{app_of, rule_of, found_of, kind_of};
ghost use Rattle.nqs_words.specs.Values.{number_of};
ghost use Rattle.nqs_network_runs.specs.Words.{bare_app, replay_app, option_rule, flag_rule, generated, generation_of, is_true, asked_of, ReadsWords, StopsBy};
ghost use Rattle.nqs_network_runs.specs.Words.{GivenBy};

use crate::unparsed::Unparsed;
use clap::error::ErrorKind;
use clap::{Arg, ArgAction, ArgMatches, Command, Error};
use nqs_base::Memory;
use nqs_words::number_of;
use std::alloc::{AllocError, Global};

/// The schedule that is to be generated.
#[derive(Clone, Copy)]
pub struct Generation {
    pub seed: u64,
    /// 1 to 16.
    pub hosts: u8,
    /// How many events are drawn, at most 100,000.
    pub events: u32,
}

/// What the words ask for.
#[derive(Clone, Copy)]
pub struct Ask {
    /// The summary in place of the transcript.
    pub summary: bool,
    /// None: the schedule is read.
    pub generation: Option<Generation>,
}

/// Why the words ask for nothing.
#[derive(Drop)]
pub enum WordsStop {
    BadWords,
    Memory(Memory),
    Unparsed(Unparsed),
}

fn option<'a>(alloc: Global, name: &'a str) -> Arg<'a>
    ensures rule { rule_of result ≡ option_rule name.entry.now }
    ensures local { result.global ≡ false }
{
    Arg::new(alloc, name).long(name).action(ArgAction::Set)
}

fn flag<'a>(alloc: Global, name: &'a str) -> Arg<'a>
    ensures rule { rule_of result ≡ flag_rule name.entry.now }
    ensures local { result.global ≡ false }
{
    Arg::new(alloc, name).long(name).action(ArgAction::SetTrue)
}

// The command without its options.
fn bare_command<'a>(alloc: Global) -> Command<'a>
    ensures { app_of result ≡ bare_app }
{
    Command::new(alloc, "nqs_replay")
        .no_binary_name(true)
        .disable_help_flag(true)
}

fn command<'a>(alloc: Global) -> Result<Command<'a>, AllocError>
    ensures { IfOk result (λ c. app_of c ≡ replay_app) }
{
    let with_summary = bare_command(alloc).arg(flag(alloc, "summary"))?;
    let with_seed = with_summary.arg(option(alloc, "generate"))?;
    let with_hosts = with_seed.arg(option(alloc, "hosts"))?;
    let with_events = with_hosts.arg(option(alloc, "events"))?;
    Ok(with_events)
}

// What is to be generated, by the values of the three options.
fn generated(seed: &str, hosts: &str, events: &str) -> Option<Option<Generation>>
    ensures { result ≡ generated (number_of 0 18446744073709551615 seed.now) (number_of 1 16 hosts.now) (number_of 0 100000 events.now) }
{
    let seed = number_of(0, u64::MAX, seed.as_bytes())?;
    let hosts = number_of(1, 16, hosts.as_bytes())?;
    let events = number_of(0, 100_000, events.as_bytes())?;
    Some(Some(Generation {
        seed,
        hosts: hosts as u8,
        events: events as u32,
    }))
}

// The same, where the three are all there; and nothing, where none is.
#[tactic(auto, unfolding(crate::specs::Words::generation_of))]
fn generation_of(
    seed: Option<&str>,
    hosts: Option<&str>,
    events: Option<&str>,
) -> Option<Option<Generation>>
    ensures { result ≡ generation_of (option_map (λ s. s.now) seed.entry) (option_map (λ s. s.now) hosts.entry) (option_map (λ s. s.now) events.entry) }
{
    match (seed, hosts, events) {
        (None, None, None) => Some(None),
        (Some(seed), Some(hosts), Some(events)) => generated(seed, hosts, events),
        _ => None,
    }
}

fn is_true(text: Option<&str>) -> bool
    ensures { result ≡ is_true (option_map (λ s. s.now) text.entry) }
{
    match text {
        Some(text) => text == "true",
        None => false,
    }
}

// What the values of the options ask for.
#[tactic(auto, unfolding(crate::specs::Words::asked_of))]
fn asked_of(
    summary: Option<&str>,
    seed: Option<&str>,
    hosts: Option<&str>,
    events: Option<&str>,
) -> Option<Ask>
    ensures { result ≡ asked_of (option_map (λ s. s.now) summary.entry) (option_map (λ s. s.now) seed.entry) (option_map (λ s. s.now) hosts.entry)
        (option_map (λ s. s.now) events.entry) }
{
    match generation_of(seed, hosts, events) {
        Some(generation) => Some(Ask {
            summary: is_true(summary),
            generation,
        }),
        None => None,
    }
}

// What the matches ask for.
fn given_by(matches: &ArgMatches) -> Result<Ask, WordsStop>
    ensures { GivenBy (found_of matches.now) result }
{
    match asked_of(
        matches.get_str("summary"),
        matches.get_str("generate"),
        matches.get_str("hosts"),
        matches.get_str("events"),
    ) {
        Some(ask) => Ok(ask),
        None => Err(WordsStop::BadWords),
    }
}

// What an error of `clap` says of the words.
fn stop_of(error: Error) -> WordsStop
    ensures { StopsBy (kind_of error) result }
{
    match error.kind() {
        ErrorKind::OutOfMemory => WordsStop::Unparsed(Unparsed::of_error(error)),
        _ => WordsStop::BadWords,
    }
}

/// What the words ask for, or that they are in no form.
pub(crate) fn read_words(alloc: Global, words: &[String]) -> Result<Ask, WordsStop>
    ensures { ReadsWords (map (λ s. string_bytes s) words.now) result }
{
    match command(alloc) {
        Err(refused) => Err(WordsStop::Memory(refused.into())),
        Ok(command) => match command.try_get_matches_from(words) {
            Ok(matches) => given_by(&matches),
            Err(error) => Err(stop_of(error)),
        },
    }
}
