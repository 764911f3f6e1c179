//! What the words of a line say, by their places from 0, with the first cause why not. No call
//! takes memory.

ghost use Rattle.std.specs.Prelude.{◌≡◌, ◌≤◌, Some, IfOk, codes, take, drop};
ghost use Rattle.nqs_base.specs.Same.{name_eq};
ghost use Rattle.nqs_schedule.specs.Words.{no_word, text_there, name_at, number_at, host_of, host_at, request_at, disk_of, disk_at, mixed_of, as_mixed};
ghost use Rattle.nqs_schedule.specs.Words.{tear_of, tear_at, output_at, nothing_at, all_good};

use crate::cause::Cause;
use crate::words::LineWords;
use nqs_base::{Name, Tear, place_of};
use nqs_types::{HostId, RequestId, Which};
use nqs_words::{name_of, named_of, number_of};

// Why there is no further word.
fn no_word(words: &LineWords) -> Cause
    ensures { result ≡ no_word words.now.bad }
{
    if words.bad {
        return Cause::BadQuote;
    }
    Cause::MissingWord
}

/// That a word stands there.
#[tactic(auto, unfolding(crate::specs::Words::text_there, crate::specs::Words::text_at))]
pub(crate) fn text_there(words: &LineWords, place: usize) -> Result<(), Cause>
    ensures { result ≡ text_there words.now place }
{
    match words.words.as_slice().get(place) {
        Some(_) => Ok(()),
        None => Err(no_word(words)),
    }
}

/// The word as a name.
#[tactic(auto, unfolding(crate::specs::Words::name_at, crate::specs::Words::text_at))]
pub(crate) fn name_at(words: &LineWords, place: usize) -> Result<Name, Cause>
    ensures { result ≡ name_at words.now place }
{
    match words.words.as_slice().get(place) {
        Some(word) => match name_of(word.text.as_slice()) {
            Some(name) => Ok(name),
            None => Err(Cause::BadName),
        },
        None => Err(no_word(words)),
    }
}

/// The word as a number between these two.
#[tactic(auto, unfolding(crate::specs::Words::number_at, crate::specs::Words::text_at))]
pub(crate) fn number_at(low: u64, high: u64, words: &LineWords, place: usize) -> Result<u64, Cause>
    ensures number { result ≡ number_at low high words.now place }
    ensures bound { IfOk result (λ n. n ≤ high) }
{
    match words.words.as_slice().get(place) {
        Some(word) => match number_of(low, high, word.text.as_slice()) {
            Some(number) => Ok(number),
            None => Err(Cause::BadNumber),
        },
        None => Err(no_word(words)),
    }
}

// The host of this name.
#[tactic(auto, unfolding(crate::specs::Words::host_of))]
fn host_of(site: &[Name], name: &Name) -> Result<HostId, Cause>
    ensures { result ≡ host_of site.now name.now }
{
    let Some(place) = place_of(site, name) else {
        return Err(Cause::NoSuchHost);
    };
    if place < 16 {
        return Ok(HostId(place as u8));
    }
    Err(Cause::NoSuchHost)
}

/// The word as a host of the site.
#[tactic(auto, unfolding(crate::specs::Words::host_at))]
pub(crate) fn host_at(site: &[Name], words: &LineWords, place: usize) -> Result<HostId, Cause>
    ensures { result ≡ host_at site.now words.now place }
{
    let name = name_at(words, place)?;
    host_of(site, &name)
}

/// The word as a request, `SEQ.HOST`.
#[tactic(auto, unfolding(crate::specs::Words::request_at, crate::specs::Words::text_at))]
pub(crate) fn request_at(site: &[Name], words: &LineWords, place: usize) -> Result<RequestId, Cause>
    ensures { result ≡ request_at site.now words.now place }
{
    let Some(word) = words.words.as_slice().get(place) else {
        return Err(no_word(words));
    };
    let Ok(id) = named_of(word.text.as_slice()) else {
        return Err(Cause::BadRequest);
    };
    let host = host_of(site, &id.host)?;
    Ok(RequestId { seq: id.seq, host })
}

#[tactic(auto, unfolding(crate::specs::Words::disk_of))]
fn disk_of(text: &[u8]) -> Option<Which>
    ensures { result ≡ disk_of text.now }
{
    if b"root".as_slice() == text {
        return Some(Which::Root);
    }
    if b"first".as_slice() == text {
        return Some(Which::First);
    }
    if b"second".as_slice() == text {
        return Some(Which::Second);
    }
    if b"spool".as_slice() == text {
        return Some(Which::Spool);
    }
    None
}

/// The word as a disk.
#[tactic(auto, unfolding(crate::specs::Words::disk_at, crate::specs::Words::text_at))]
pub(crate) fn disk_at(words: &LineWords, place: usize) -> Result<Which, Cause>
    ensures { result ≡ disk_at words.now place }
{
    match words.words.as_slice().get(place) {
        Some(word) => match disk_of(word.text.as_slice()) {
            Some(disk) => Ok(disk),
            None => Err(Cause::UnknownWord),
        },
        None => Err(no_word(words)),
    }
}

// Does the text begin with `mixed:`?
fn is_mixed(text: &[u8]) -> bool
    ensures { result ≡ name_eq (codes "mixed:") (take 6 text.now) }
{
    b"mixed:".as_slice() == &text[..text.len().min(6)]
}

fn mixed_tear(number: &[u8]) -> Result<Tear, Cause>
    ensures { result ≡ as_mixed (Some number.now) }
{
    match number_of(0, u64::MAX, number) {
        Some(number) => Ok(Tear::Mixed(number)),
        None => Err(Cause::BadNumber),
    }
}

fn behind_mixed(text: &[u8]) -> &[u8]
    ensures { result.now ≡ drop 6 text.now }
{
    &text[text.len().min(6)..]
}

#[tactic(auto, unfolding(crate::specs::Words::tear_of, crate::specs::Words::mixed_of))]
fn tear_of(text: &[u8]) -> Result<Tear, Cause>
    ensures { result ≡ tear_of text.now }
{
    if b"old".as_slice() == text {
        return Ok(Tear::Old);
    }
    if b"new".as_slice() == text {
        return Ok(Tear::New);
    }
    if !is_mixed(text) {
        return Err(Cause::UnknownWord);
    }
    mixed_tear(behind_mixed(text))
}

/// The word as what a stop leaves.
#[tactic(auto, unfolding(crate::specs::Words::tear_at, crate::specs::Words::text_at))]
pub(crate) fn tear_at(words: &LineWords, place: usize) -> Result<Tear, Cause>
    ensures { result ≡ tear_at words.now place }
{
    match words.words.as_slice().get(place) {
        Some(word) => tear_of(word.text.as_slice()),
        None => Err(no_word(words)),
    }
}

/// That the word, where there is one, is no longer than an output may be.
#[tactic(auto, unfolding(crate::specs::Words::output_at, crate::specs::Words::all_good))]
pub(crate) fn output_at(words: &LineWords, place: usize) -> Result<(), Cause>
    ensures { result ≡ output_at words.now place }
{
    let Some(word) = words.words.as_slice().get(place) else {
        return all_good(words);
    };
    if word.text.len() > 16_384 {
        return Err(Cause::OutputTooLong);
    }
    Ok(())
}

/// That no word stands there, not even a badly quoted one.
#[tactic(auto, unfolding(crate::specs::Words::nothing_at))]
pub(crate) fn nothing_at(words: &LineWords, place: usize) -> Result<(), Cause>
    ensures { result ≡ nothing_at words.now place }
{
    if words.words.as_slice().get(place).is_some() {
        return Err(Cause::ExtraWord);
    }
    if words.bad {
        return Err(Cause::ExtraWord);
    }
    Ok(())
}

/// That no word is quoted badly.
#[tactic(auto, unfolding(crate::specs::Words::all_good))]
pub(crate) fn all_good(words: &LineWords) -> Result<(), Cause>
    ensures { result ≡ all_good words.now }
{
    if words.bad {
        return Err(Cause::BadQuote);
    }
    Ok(())
}
