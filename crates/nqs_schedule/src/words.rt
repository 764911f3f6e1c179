//! Splits a line into its words. A word that begins with a quote ends at the next quote that isn't
//! escaped and stands for its bytes; a space or the line's end must follow it. What comes behind a
//! bad quote isn't read, since the words before it may be at fault first.

ghost use Rattle.std.specs.Prelude.{◌≡◌, ◌+◌, ◌≤◌, length, IfOk};
ghost use Rattle.nqs_words.specs.Words.{Fits};
ghost use Rattle.nqs_schedule.specs.Lines.{is_over, begins_with_quote, quoted_word, word_there, next_of, line_words, NextFits};

use nqs_base::{Bytes, Items, Memory};
use nqs_words::{Gaps, QuoteFault, Word, next_word, read_quoted};
use std::alloc::Global;

/// A word: the bytes that it stands for, and the place behind it in its line.
#[derive(Drop)]
pub struct LineWord {
    pub text: Bytes,
    pub end: usize,
}

/// The words of a line, up to a bad quote where there is one.
#[derive(Drop)]
pub struct LineWords {
    pub words: Items<LineWord>,
    pub bad: bool,
}

/// What stands next in a line.
#[derive(Drop)]
pub enum Next {
    End,
    BadQuote,
    Found(LineWord),
}

fn is_over(rest: &[u8]) -> bool
    ensures { result ≡ is_over rest.now }
{
    match rest.split_first() {
        Some((byte, _)) => *byte == b' ',
        None => true,
    }
}

fn begins_with_quote(rest: &[u8]) -> bool
    ensures { result ≡ begins_with_quote rest.now }
{
    match rest.split_first() {
        Some((byte, _)) => *byte == b'"',
        None => false,
    }
}

// The word that begins with the quote there.
fn quoted_word(alloc: Global, line: &[u8], start: usize) -> Result<Next, Memory>
    requires { start + 1 ≤ length line.now }
    ensures next { IfOk result (λ next. next ≡ quoted_word line.now start) }
    ensures fits { IfOk result (NextFits line.now) }
{
    match read_quoted(alloc, &line[start + 1..]) {
        Ok((text, taken)) => {
            let end = start + 1 + taken;
            if is_over(&line[end..]) {
                return Ok(Next::Found(LineWord {
                    text: Bytes::from_vec(text),
                    end,
                }));
            }
            Ok(Next::BadQuote)
        }
        Err(QuoteFault::BadQuote) => Ok(Next::BadQuote),
        Err(QuoteFault::Memory(memory)) => Err(memory),
    }
}

#[tactic(auto, unfolding(crate::specs::Lines::word_there))]
fn word_there(alloc: Global, line: &[u8], word: Word) -> Result<Next, Memory>
    requires { Fits line.now word }
    ensures next { IfOk result (λ next. next ≡ word_there line.now word) }
    ensures fits { IfOk result (NextFits line.now) }
{
    if begins_with_quote(&line[word.start..]) {
        return quoted_word(alloc, line, word.start);
    }
    let text = Vec::from_slice(alloc, &line[word.start..word.end])?;
    Ok(Next::Found(LineWord {
        text: Bytes::from_vec(text),
        end: word.end,
    }))
}

#[tactic(auto, unfolding(crate::specs::Lines::next_of))]
fn next_of(alloc: Global, line: &[u8], place: usize) -> Result<Next, Memory>
    requires { place ≤ length line.now }
    ensures next { IfOk result (λ next. next ≡ next_of line.now place) }
    ensures fits { IfOk result (NextFits line.now) }
{
    match next_word(Gaps::Spaces, line, place) {
        None => Ok(Next::End),
        Some(word) => word_there(alloc, line, word),
    }
}

/// The words of a line.
pub(crate) fn line_words(alloc: Global, line: &[u8]) -> Result<LineWords, Memory>
    ensures { IfOk result (λ words. words ≡ line_words line.now) }
{
    let mut words = Items::new(alloc);
    let mut place = 0usize;
    for _ in 0..line.len() {
        match next_of(alloc, line, place)? {
            Next::End => return Ok(LineWords { words, bad: false }),
            Next::BadQuote => return Ok(LineWords { words, bad: true }),
            Next::Found(word) => {
                place = word.end;
                words.push(word)?;
            }
        }
    }
    Ok(LineWords { words, bad: false })
}
