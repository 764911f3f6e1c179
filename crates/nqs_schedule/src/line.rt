//! What a line says: nothing, the hosts of the site, or an event.

ghost use Rattle.std.specs.Prelude.{◌≡◌};
ghost use Rattle.nqs_schedule.specs.declared.line.ReadError.TheVariants.{Memory};
ghost use Rattle.nqs_schedule.specs.Says.{further_host, hosts_of, hosts_say, Answers, is_remark, is_hosts, event_says, verb_says, words_say, line_says};
ghost use Rattle.nqs_words.specs.Values.{name_of};
ghost use Rattle.nqs_base.specs.Want.{want};

use crate::cause::Cause;
use crate::event::event_of;
use crate::plan::{Verb, plan_of, verb_of};
use crate::values::text_there;
use crate::words::{LineWords, line_words};
use nqs_base::{Memory, Name, NameList, has_name};
use nqs_types::WorldEvent;
use nqs_words::name_of;
use std::alloc::{AllocFailed, Global};

/// What a line says.
#[derive(Drop)]
pub enum Says {
    Nothing,
    /// The hosts of the site.
    Hosts(NameList),
    Event(WorldEvent),
}

/// Why nothing was read.
#[derive(Drop)]
pub enum ReadError {
    Bad(Cause),
    Memory(Memory),
}

impl<T: Drop> From<AllocFailed<T>> for ReadError {
    ghost from_gives = { λ _ e. e ≡ Memory want };

    fn from(refused: AllocFailed<T>) -> ReadError {
        ReadError::Memory(refused.into())
    }
}

// A further host of a site.
fn further_host(site: &[Name], text: &[u8]) -> Result<Name, Cause>
    ensures { result ≡ further_host site.now (name_of text.now) }
{
    let Some(name) = name_of(text) else {
        return Err(Cause::BadName);
    };
    if has_name(site, &name) {
        return Err(Cause::HostTwice);
    }
    if site.len() >= 16 {
        return Err(Cause::TooManyHosts);
    }
    Ok(name)
}

// The hosts of a line of hosts.
fn hosts_of(alloc: Global, words: &LineWords) -> Result<NameList, ReadError>
    ensures { Answers result (hosts_of words.now) }
{
    if let Err(cause) = text_there(words, 1) {
        return Err(ReadError::Bad(cause));
    }
    let mut site: Vec<Name> = Vec::new(alloc);
    let all = words.words.as_slice();
    for i in 1..all.len() {
        match further_host(site.as_slice(), all[i].text.as_slice()) {
            Ok(name) => site.push(name)?,
            Err(cause) => return Err(ReadError::Bad(cause)),
        }
    }
    if words.bad {
        return Err(ReadError::Bad(Cause::BadQuote));
    }
    Ok(NameList::from_vec(site))
}

fn is_remark(line: &[u8]) -> bool
    ensures { result ≡ is_remark line.now }
{
    match line.split_first() {
        Some((byte, _)) => *byte == b'#',
        None => true,
    }
}

fn is_hosts(verb: Verb) -> bool
    ensures { result ≡ is_hosts verb }
{
    match verb {
        Verb::Hosts => true,
        _ => false,
    }
}

// The event of the line of a verb.
fn event_says(
    alloc: Global,
    site: &[Name],
    line: &[u8],
    words: &LineWords,
    verb: Verb,
) -> Result<Says, ReadError>
    ensures { Answers result (event_says site.now line.now words.now verb) }
{
    match plan_of(site, words, verb) {
        Ok(plan) => match event_of(alloc, line, words, plan) {
            Ok(event) => Ok(Says::Event(event)),
            Err(memory) => Err(ReadError::Memory(memory)),
        },
        Err(cause) => Err(ReadError::Bad(cause)),
    }
}

fn hosts_say(alloc: Global, words: &LineWords) -> Result<Says, ReadError>
    ensures { Answers result (hosts_say words.now) }
{
    match hosts_of(alloc, words) {
        Ok(hosts) => Ok(Says::Hosts(hosts)),
        Err(error) => Err(error),
    }
}

// What the line of a verb says.
#[tactic(auto, unfolding(crate::specs::Says::verb_says))]
fn verb_says(
    alloc: Global,
    site: &[Name],
    is_open: bool,
    line: &[u8],
    words: &LineWords,
    verb: Verb,
) -> Result<Says, ReadError>
    ensures { Answers result (verb_says site.now is_open line.now words.now verb) }
{
    if is_hosts(verb) && is_open {
        return hosts_say(alloc, words);
    }
    event_says(alloc, site, line, words, verb)
}

// What a line with these words says.
#[tactic(auto, unfolding(crate::specs::Says::words_say))]
fn words_say(
    alloc: Global,
    site: &[Name],
    is_open: bool,
    line: &[u8],
    words: &LineWords,
) -> Result<Says, ReadError>
    ensures { Answers result (words_say site.now is_open line.now words.now) }
{
    let Some(word) = words.words.as_slice().first() else {
        if words.bad {
            return Err(ReadError::Bad(Cause::BadQuote));
        }
        return Ok(Says::Nothing);
    };
    match verb_of(word.text.as_slice()) {
        Some(verb) => verb_says(alloc, site, is_open, line, words, verb),
        None => Err(ReadError::Bad(Cause::UnknownWord)),
    }
}

/// What a line says on a site of at most 16 hosts; `is_open` says that no line before it said
/// anything, so that it may still name the hosts.
#[tactic(auto, unfolding(crate::specs::Says::line_says))]
pub(crate) fn line_says(
    alloc: Global,
    site: &[Name],
    is_open: bool,
    line: &[u8],
) -> Result<Says, ReadError>
    ensures { Answers result (line_says site.now is_open line.now) }
{
    if is_remark(line) {
        return Ok(Says::Nothing);
    }
    match line_words(alloc, line) {
        Ok(words) => words_say(alloc, site, is_open, line, &words),
        Err(memory) => Err(ReadError::Memory(memory)),
    }
}
