//! Which keyword a word names. Upper case is read as lower case. A keyword may be shortened to two
//! letters or more that no other keyword of the same place begins with; a whole keyword wins over
//! longer ones.

ghost use Rattle.std.specs.Prelude.{◌≡◌, count_by, find};
ghost use Rattle.nqs_words.specs.Keywords.{lower, begins, shortens, is_whole, shortened, keyword_of};

use crate::keyword::{Keyword, spelling};

/// Why a word names no keyword.
#[derive(Clone, Copy, PartialEq, Eq)]
pub enum NoKeyword {
    /// It fits none.
    Unknown,
    /// It fits several, and is none of them whole.
    Ambiguous,
}

fn lower(byte: u8) -> u8
    ensures { result ≡ lower byte }
{
    if byte >= b'A' && byte <= b'Z' {
        byte + 32
    } else {
        byte
    }
}

fn begins(word: &[u8], text: &[u8]) -> bool
    ensures { result ≡ begins word.now text.now }
{
    let Some((byte, more)) = word.split_first() else {
        return true;
    };
    let Some((wanted, rest)) = text.split_first() else {
        return false;
    };
    if lower(*byte) == *wanted {
        begins(more, rest)
    } else {
        false
    }
}

fn shortens(word: &[u8], keyword: Keyword) -> bool
    ensures { result ≡ shortens word.now keyword }
{
    begins(word, spelling(keyword))
}

fn is_whole(word: &[u8], keyword: Keyword) -> bool
    ensures { result ≡ is_whole word.now keyword }
{
    word.len() == spelling(keyword).len() && shortens(word, keyword)
}

fn count(keywords: &[Keyword], word: &[u8]) -> usize
    ensures { result ≡ count_by (shortens word.now) keywords.now }
{
    keywords.iter().filter(|k| shortens(word, **k)).count()
}

fn first_whole(keywords: &[Keyword], word: &[u8]) -> Option<Keyword>
    ensures { result ≡ find (is_whole word.now) keywords.now }
{
    keywords.iter().copied().find(|k| is_whole(word, *k))
}

fn first_shortened(keywords: &[Keyword], word: &[u8]) -> Option<Keyword>
    ensures { result ≡ find (shortens word.now) keywords.now }
{
    keywords.iter().copied().find(|k| shortens(word, *k))
}

fn shortened(keywords: &[Keyword], word: &[u8]) -> Result<Keyword, NoKeyword>
    ensures { result ≡ shortened keywords.now word.now }
{
    if word.len() < 2 {
        return Err(NoKeyword::Unknown);
    }
    let found = count(keywords, word);
    if found == 0 {
        return Err(NoKeyword::Unknown);
    }
    if found == 1 {
        return match first_shortened(keywords, word) {
            Some(keyword) => Ok(keyword),
            None => Err(NoKeyword::Unknown),
        };
    }
    Err(NoKeyword::Ambiguous)
}

/// The keyword that a word names among these, which are those of its place in a line.
#[tactic(auto, unfolding(crate::specs::Keywords::keyword_of))]
pub fn keyword_of(keywords: &[Keyword], word: &[u8]) -> Result<Keyword, NoKeyword>
    ensures { result ≡ keyword_of keywords.now word.now }
{
    match first_whole(keywords, word) {
        Some(keyword) => Ok(keyword),
        None => shortened(keywords, word),
    }
}
