//! Words of the command and of a script's line, one after another. A word is named by its place, so
//! that no list of words is made.

ghost use Rattle.std.specs.Prelude.{◌≡◌, []};
ghost use Rattle.nqs_qsub.specs.declared.token.Source.TheVariants.{Command, Script};
ghost use Rattle.nqs_qsub.specs.declared.token.Place.TheVariants.{InCommand, InScript};
ghost use Rattle.nqs_qsub.specs.Tokens.{fault_at, next_token, text_of};

use nqs_base::Bytes;
use nqs_types::{WordsCause, WordsFault};
use nqs_words::{Gaps, Word, next_word};

/// Where words come from.
#[derive(Clone, Copy)]
pub enum Source {
    /// The command's own words.
    Command,
    /// A line of the script.
    Script,
}

/// Where a word stands.
#[derive(Clone, Copy)]
pub enum Place {
    /// Its place among the command's words, from 0.
    InCommand(usize),
    /// Its bytes in the script.
    InScript(Word),
}

/// A word, and the place from which the next one is sought.
#[derive(Clone, Copy)]
pub struct Token {
    pub at: Place,
    pub after: usize,
}

/// A word that states a value: where it stands, and where a fault of it is told.
#[derive(Clone, Copy)]
pub struct Stated {
    pub at: Place,
    /// The line of the script, or 0 for the command.
    pub line: u32,
    /// The number of the word in it.
    pub number: u32,
}

/// A fault of a word, by the script's line, 0 for the command, and the word's number.
pub(crate) fn fault_at(line: u32, number: u32, cause: WordsCause) -> WordsFault
    ensures { result ≡ fault_at line number cause }
{
    WordsFault {
        cause,
        line,
        word: number,
    }
}

/// The next word from a place on: of the command's words, or of the front of a script up to a
/// line's end.
#[tactic(auto, unfolding(crate::specs::Tokens::next_token))]
pub(crate) fn next_token(
    source: Source,
    words: &[Bytes],
    text: &[u8],
    place: usize,
) -> Option<Token>
    ensures { result ≡ next_token source words.now text.now place }
{
    match source {
        Source::Command => next_of_command(words, place),
        Source::Script => next_of_script(text, place),
    }
}

#[tactic(auto, unfolding(crate::specs::Tokens::next_token))]
fn next_of_command(words: &[Bytes], place: usize) -> Option<Token>
    ensures { result ≡ next_token Command words.now [] place }
{
    if place < words.len() {
        return Some(Token {
            at: Place::InCommand(place),
            after: place + 1,
        });
    }
    None
}

#[tactic(auto, unfolding(crate::specs::Tokens::next_token))]
fn next_of_script(text: &[u8], place: usize) -> Option<Token>
    ensures { result ≡ next_token Script [] text.now place }
{
    if place <= text.len() {
        let word = next_word(Gaps::SpacesAndTabs, text, place)?;
        return Some(Token {
            at: Place::InScript(word),
            after: word.end,
        });
    }
    None
}

/// The bytes of a word.
#[tactic(auto, unfolding(crate::specs::Tokens::text_of))]
pub(crate) fn text_of<'a>(words: &'a [Bytes], script: &'a [u8], at: Place) -> &'a [u8]
    ensures { result.now ≡ text_of words.now script.now at }
{
    match at {
        Place::InCommand(place) => text_of_command(words, place),
        Place::InScript(word) => text_of_script(script, word),
    }
}

#[tactic(auto, unfolding(crate::specs::Tokens::text_of))]
fn text_of_command(words: &[Bytes], place: usize) -> &[u8]
    ensures { result.now ≡ text_of words.now [] (InCommand place) }
{
    match words.get(place) {
        Some(word) => word.as_slice(),
        None => &[],
    }
}

#[tactic(auto, unfolding(crate::specs::Tokens::text_of))]
fn text_of_script(script: &[u8], word: Word) -> &[u8]
    ensures { result.now ≡ text_of [] script.now (InScript word) }
{
    if word.start <= word.end && word.end <= script.len() {
        return &script[word.start..word.end];
    }
    &[]
}
