//! Words, keywords and values at a place of a line. Places are in bytes from 0.

ghost use Rattle.std.specs.Prelude.{◌≡◌, ◌≤◌, ◌<◌, length, IfOk};
ghost use Rattle.nqs_words.specs.Words.{Fits};
ghost use Rattle.nqs_words.specs.Values.{name_of, number_of, dest_of};
ghost use Rattle.nqs_types.specs.declared.fault.GrammarFault.TheVariants as fault;
ghost use Rattle.nqs_qmgr.specs.Heads.{word_at, name_at, request_at, nothing_after, last_name, stem_of, head_of, head_at, bare, value_at, valued, limit_of};
ghost use Rattle.nqs_qmgr.specs.Heads.{FitsLine};

use crate::value::{Amount, limit_of};
use nqs_base::Name;
use nqs_types::{GrammarFault, Named, NamedDest};
use nqs_words::{
    Gaps, Keyword, NoKeyword, NotNamed, Word, dest_of, keyword_of, name_of, named_of, next_word,
    number_of, place_of,
};

/// A word with its keyword, and the place where its stem ends: that of its first `=`, or the word's
/// end.
#[derive(Clone, Copy)]
pub struct Head {
    pub keyword: Keyword,
    pub word: Word,
    pub stem: usize,
}

#[tactic(auto, unfolding(crate::specs::Heads::word_at))]
fn word_at(line: &[u8], place: usize) -> Result<Word, GrammarFault>
    requires { place ≤ length line.now }
    ensures word { result ≡ word_at line.now place }
    ensures fits { IfOk result (Fits line.now) }
{
    match next_word(Gaps::SpacesAndTabs, line, place) {
        Some(word) => Ok(word),
        None => Err(GrammarFault::Missing(line.len() as u64)),
    }
}

/// The next word as a name, and the place behind it.
#[tactic(auto, unfolding(crate::specs::Heads::name_at))]
pub(crate) fn name_at(line: &[u8], place: usize) -> Result<(Name, usize), GrammarFault>
    requires { place ≤ length line.now }
    ensures name { result ≡ name_at line.now place }
    ensures fits { IfOk result (λ r. r.1 ≤ length line.now) }
{
    let word = word_at(line, place)?;
    match name_of(&line[word.start..word.end]) {
        Some(name) => Ok((name, word.end)),
        None => Err(GrammarFault::BadName(word.start as u64)),
    }
}

/// The next word as a request, and the place behind it.
#[tactic(auto, unfolding(crate::specs::Heads::request_at))]
pub(crate) fn request_at(line: &[u8], place: usize) -> Result<(Named, usize), GrammarFault>
    requires { place ≤ length line.now }
    ensures request { result ≡ request_at line.now place }
    ensures fits { IfOk result (λ r. r.1 ≤ length line.now) }
{
    let word = word_at(line, place)?;
    match named_of(&line[word.start..word.end]) {
        Ok(id) => Ok((id, word.end)),
        Err(NotNamed::BadNumber) => Err(GrammarFault::BadNumber(word.start as u64)),
        Err(NotNamed::BadName) => Err(GrammarFault::BadName(word.start as u64)),
    }
}

/// That no word is left.
#[tactic(auto, unfolding(crate::specs::Heads::nothing_after))]
pub(crate) fn nothing_after(line: &[u8], place: usize) -> Result<(), GrammarFault>
    requires { place ≤ length line.now }
    ensures { result ≡ nothing_after line.now place }
{
    match next_word(Gaps::SpacesAndTabs, line, place) {
        Some(word) => Err(GrammarFault::Extra(word.start as u64)),
        None => Ok(()),
    }
}

/// The last word, as a name.
#[tactic(auto, unfolding(crate::specs::Heads::last_name))]
pub(crate) fn last_name(line: &[u8], place: usize) -> Result<Name, GrammarFault>
    requires { place ≤ length line.now }
    ensures { result ≡ last_name line.now place }
{
    let (name, after) = name_at(line, place)?;
    nothing_after(line, after)?;
    Ok(name)
}

#[tactic(auto, unfolding(crate::specs::Heads::stem_of))]
fn stem_of(line: &[u8], word: Word) -> usize
    requires { Fits line.now word }
    ensures stem { result ≡ stem_of line.now word }
    ensures above { word.start ≤ result }
    ensures below { result ≤ word.end }
{
    match place_of(b'=', &line[word.start..word.end]) {
        Some(place) => word.start + place,
        None => word.end,
    }
}

/// The keyword that a word names among these.
#[tactic(auto, unfolding(crate::specs::Heads::head_of))]
pub(crate) fn head_of(keywords: &[Keyword], line: &[u8], word: Word) -> Result<Head, GrammarFault>
    requires { Fits line.now word }
    ensures head { result ≡ head_of keywords.now line.now word }
    ensures fits { IfOk result (FitsLine line.now) }
{
    let stem = stem_of(line, word);
    match keyword_of(keywords, &line[word.start..stem]) {
        Ok(keyword) => Ok(Head {
            keyword,
            word,
            stem,
        }),
        Err(NoKeyword::Unknown) => Err(GrammarFault::UnknownWord(word.start as u64)),
        Err(NoKeyword::Ambiguous) => Err(GrammarFault::Ambiguous(word.start as u64)),
    }
}

/// The next word, as one of these keywords.
#[tactic(auto, unfolding(crate::specs::Heads::head_at))]
pub(crate) fn head_at(keywords: &[Keyword], line: &[u8], place: usize) -> Result<Head, GrammarFault>
    requires { place ≤ length line.now }
    ensures head { result ≡ head_at keywords.now line.now place }
    ensures fits { IfOk result (FitsLine line.now) }
{
    let word = word_at(line, place)?;
    head_of(keywords, line, word)
}

/// The place behind a keyword that takes no value.
#[tactic(auto, unfolding(crate::specs::Heads::bare))]
pub(crate) fn bare(line: &[u8], head: Head) -> Result<usize, GrammarFault>
    requires { FitsLine line.now head }
    ensures place { result ≡ bare head }
    ensures fits { IfOk result (λ place. place ≤ length line.now) }
{
    if head.stem < head.word.end {
        return Err(GrammarFault::Extra(head.word.start as u64));
    }
    Ok(head.word.end)
}

#[tactic(auto, unfolding(crate::specs::Heads::value_at))]
fn value_at(head: Head) -> Result<usize, GrammarFault>
    ensures place { result ≡ value_at head }
    ensures fits { IfOk result (λ place. place ≤ head.word.end) }
{
    if head.stem < head.word.end {
        return Ok(head.stem + 1);
    }
    Err(GrammarFault::Missing(head.word.end as u64))
}

/// The keyword's value as a number between these two.
#[tactic(auto, unfolding(crate::specs::Heads::valued))]
pub(crate) fn number_in(line: &[u8], head: Head, low: u64, high: u64) -> Result<u64, GrammarFault>
    requires { FitsLine line.now head }
    ensures { result ≡ valued (number_of low high) fault.BadNumber line.now head }
{
    let place = value_at(head)?;
    match number_of(low, high, &line[place..head.word.end]) {
        Some(number) => Ok(number),
        None => Err(GrammarFault::BadNumber(place as u64)),
    }
}

/// The keyword's value as a limit.
#[tactic(auto, unfolding(crate::specs::Heads::valued))]
pub(crate) fn limit_in(line: &[u8], head: Head, amount: Amount) -> Result<Option<u64>, GrammarFault>
    requires { FitsLine line.now head }
    ensures { result ≡ valued (limit_of amount) fault.BadNumber line.now head }
{
    let place = value_at(head)?;
    match limit_of(amount, &line[place..head.word.end]) {
        Some(limit) => Ok(limit),
        None => Err(GrammarFault::BadNumber(place as u64)),
    }
}

/// The keyword's value as a name.
#[tactic(auto, unfolding(crate::specs::Heads::valued))]
pub(crate) fn name_in(line: &[u8], head: Head) -> Result<Name, GrammarFault>
    requires { FitsLine line.now head }
    ensures { result ≡ valued name_of fault.BadName line.now head }
{
    let place = value_at(head)?;
    match name_of(&line[place..head.word.end]) {
        Some(name) => Ok(name),
        None => Err(GrammarFault::BadName(place as u64)),
    }
}

/// The keyword's value as a destination.
#[tactic(auto, unfolding(crate::specs::Heads::valued))]
pub(crate) fn dest_in(line: &[u8], head: Head) -> Result<NamedDest, GrammarFault>
    requires { FitsLine line.now head }
    ensures { result ≡ valued dest_of fault.BadName line.now head }
{
    let place = value_at(head)?;
    match dest_of(&line[place..head.word.end]) {
        Some(dest) => Ok(dest),
        None => Err(GrammarFault::BadName(place as u64)),
    }
}
