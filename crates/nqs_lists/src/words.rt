//! Words, and lines of them.
ghost use Rattle.std.specs.Prelude.{◌≡◌, ◌++◌, ◌∷◌, [], flat_map, IfOk};
ghost use Rattle.nqs_rules.specs.Handover.{name_at};
ghost use Rattle.nqs_rules.specs.Text.{id_text, words, either};
ghost use Rattle.nqs_lists.specs.Lists.{spaced};

use nqs_base::{Bytes, ListOf, Memory, Name};
use nqs_types::RequestId;
use std::alloc::Global;

/// The name of the host at a place of the site, and nothing where there is none.
fn name_at(site: &[Name], place: usize) -> &[u8]
    ensures { result.now ≡ name_at place site.now }
{
    match site.get(place) {
        Some(name) => name.as_bytes(),
        None => &[],
    }
}

/// A request, as SEQ.HOST.
pub(crate) fn id_text(alloc: Global, site: &[Name], id: RequestId) -> Result<Bytes, Memory>
    ensures { IfOk result (λ text. text ≡ id_text site.now id) }
{
    let seq = id.seq;
    let mut text = format!(in alloc; "{seq}.")?.into_bytes();
    text.extend_from_slice(name_at(site, id.host.0 as usize))?;
    Ok(ListOf::from_vec(text))
}

/// One of two words.
pub(crate) fn either(choice: bool, yes: &'static [u8], no: &'static [u8]) -> &'static [u8]
    ensures { result.now ≡ either choice yes.now no.now }
{
    if choice { yes } else { no }
}

/// The line, and behind it a word with a space in front.
pub(crate) fn with_word(line: Bytes, word: &[u8]) -> Result<Bytes, Memory>
    ensures { IfOk result (λ more. more ≡ line ++ spaced word.now) }
{
    let mut line = line.into_vec();
    line.push(b' ')?;
    line.extend_from_slice(word)?;
    Ok(ListOf::from_vec(line))
}

/// A line of six words.
pub(crate) fn six_words(
    first: Bytes,
    second: &[u8],
    third: &[u8],
    fourth: &[u8],
    fifth: &[u8],
    sixth: &[u8],
) -> Result<Bytes, Memory>
    ensures { IfOk result (λ line. line ≡ words (first ∷ second.now ∷ third.now ∷ fourth.now ∷ fifth.now ∷ sixth.now ∷ [])) }
{
    let line = with_word(first, second)?;
    let line = with_word(line, third)?;
    let line = with_word(line, fourth)?;
    let line = with_word(line, fifth)?;
    with_word(line, sixth)
}

/// The line, and behind it each name with a space in front.
pub(crate) fn with_names(line: Bytes, names: &[Name]) -> Result<Bytes, Memory>
    ensures { IfOk result (λ more. more ≡ line ++ flat_map spaced names.now) }
{
    let mut line = line;
    for name in names {
        line = with_word(line, name.as_bytes())?;
    }
    Ok(line)
}

/// One text and then the other.
pub(crate) fn joined(alloc: Global, first: &[u8], second: &[u8]) -> Result<Bytes, Memory>
    ensures { IfOk result (λ text. text ≡ first.now ++ second.now) }
{
    let mut text = Vec::from_slice(alloc, first)?;
    text.extend_from_slice(second)?;
    Ok(ListOf::from_vec(text))
}
