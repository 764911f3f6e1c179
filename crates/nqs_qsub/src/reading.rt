//! Options in order, from a place on.

ghost use Rattle.std.specs.Prelude.{◌≡◌, ◌+◌, ◌*◌, ◌≤◌, IfOk};
ghost use Rattle.nqs_qsub.specs.Tokens.{fault_at, located, stated};
ghost use Rattle.nqs_qsub.specs.Options.{fresh, valued, takes_value, with_value, with_flag, one_option, read_words};

use crate::options::{Flag, Options, flag_of, fresh, marked, takes_value, valued};
use crate::token::{Source, Stated, Token, fault_at, next_token, text_of};
use nqs_base::Bytes;
use nqs_types::{WordsCause, WordsFault};

/// What was read up to a place.
#[derive(Clone, Copy)]
pub struct Progress {
    pub options: Options,
    /// The number of the word that comes next.
    pub number: u32,
    pub place: usize,
}

fn fresh_at(options: &Options, flag: Flag, line: u32, number: u32) -> Result<(), WordsFault>
    ensures { result ≡ located line number (fresh options.now flag) }
{
    match fresh(options, flag) {
        Ok(()) => Ok(()),
        Err(cause) => Err(fault_at(line, number, cause)),
    }
}

fn valued_at(
    options: Options,
    flag: Flag,
    text: &[u8],
    value: Token,
    line: u32,
    number: u32,
) -> Result<Options, WordsFault>
    ensures { result ≡ located line number (valued options flag text.now (stated value.at line number)) }
{
    let at = Stated {
        at: value.at,
        line,
        number,
    };
    match valued(options, flag, text, at) {
        Ok(more) => Ok(more),
        Err(cause) => Err(fault_at(line, number, cause)),
    }
}

// The options with one that takes a value: the word of this number, and the next one.
#[tactic(auto, unfolding(crate::specs::Options::with_value))]
fn with_value(
    source: Source,
    words: &[Bytes],
    text: &[u8],
    line: u32,
    number: u32,
    token: Token,
    options: Options,
    flag: Flag,
) -> Result<Progress, WordsFault>
    requires { number ≤ 100 }
    ensures progress { result ≡ with_value source words.now text.now line number token options flag }
    ensures few { IfOk result (λ p. p.number ≤ number + 2) }
{
    let Some(value) = next_token(source, words, text, token.after) else {
        return Err(fault_at(line, number, WordsCause::Missing));
    };
    let bytes = text_of(words, text, value.at);
    let more = valued_at(options, flag, bytes, value, line, number + 1)?;
    Ok(Progress {
        options: more,
        number: number + 2,
        place: value.after,
    })
}

fn with_flag(
    source: Source,
    words: &[Bytes],
    text: &[u8],
    line: u32,
    number: u32,
    token: Token,
    options: Options,
    flag: Flag,
) -> Result<Progress, WordsFault>
    requires { number ≤ 100 }
    ensures progress { result ≡ with_flag (takes_value flag) source words.now text.now line number token options flag }
    ensures few { IfOk result (λ p. p.number ≤ number + 2) }
{
    if takes_value(flag) {
        return with_value(source, words, text, line, number, token, options, flag);
    }
    Ok(Progress {
        options: marked(options, flag),
        number: number + 1,
        place: token.after,
    })
}

// The options with the one that a word names.
#[tactic(auto, unfolding(crate::specs::Options::one_option))]
fn one_option(
    source: Source,
    words: &[Bytes],
    text: &[u8],
    line: u32,
    number: u32,
    token: Token,
    options: Options,
) -> Result<Progress, WordsFault>
    requires { number ≤ 100 }
    ensures progress { result ≡ one_option source words.now text.now line number token options }
    ensures few { IfOk result (λ p. p.number ≤ number + 2) }
{
    let Some(flag) = flag_of(text_of(words, text, token.at)) else {
        return Err(fault_at(line, number, WordsCause::Unknown));
    };
    fresh_at(&options, flag, line, number)?;
    with_flag(source, words, text, line, number, token, options, flag)
}

/// The options from a place on, with those that were given before; at most `left` of them. The word
/// there has the number `number`, and the line of the script, 0 for the command, is `line`.
#[tactic(auto, unfolding(crate::specs::Options::read_words))]
pub(crate) fn read_words(
    left: u8,
    source: Source,
    words: &[Bytes],
    text: &[u8],
    line: u32,
    number: u32,
    place: usize,
    options: Options,
) -> Result<Options, WordsFault>
    requires { number + 2 * left ≤ 100 }
    ensures { result ≡ read_words left source words.now text.now line number place options }
{
    if left == 0 {
        return Err(fault_at(line, number, WordsCause::Unknown));
    }
    let Some(token) = next_token(source, words, text, place) else {
        return Ok(options);
    };
    let step = one_option(source, words, text, line, number, token, options)?;
    read_words(
        left - 1,
        source,
        words,
        text,
        line,
        step.number,
        step.place,
        step.options,
    )
}
