//! The lines of a script that hold options: from the first line on while lines begin with `#`. A
//! line that begins with `#@$` and is longer holds words, `#@$` alone ends the reading, and other
//! lines are remarks.

ghost use Rattle.std.specs.Prelude.{◌≡◌, ◌+◌, ◌≤◌, [], length, take, drop};
ghost use Rattle.nqs_types.specs.Scripts.{longest_script};
ghost use Rattle.nqs_qsub.specs.declared.token.Source.TheVariants.{Script};
ghost use Rattle.nqs_qsub.specs.Script.{has_mark, has_hash, ends_line, line_kind, line_end, next_line, line_options, script_options};
ghost use Rattle.nqs_qsub.specs.Options.{no_options, read_words};

use crate::options::{Options, no_options};
use crate::reading::read_words;
use crate::token::Source;
use nqs_types::WordsFault;
use nqs_words::place_of;

/// What a line of a script is to the reader of options.
#[derive(Clone, Copy)]
pub enum LineKind {
    /// No option stands in it or behind it.
    Last,
    Remark,
    Words,
}

fn has_mark(rest: &[u8]) -> bool
    ensures { result ≡ has_mark rest.now }
{
    let Some((first, more)) = rest.split_first() else {
        return false;
    };
    let Some((second, others)) = more.split_first() else {
        return false;
    };
    let Some((third, _)) = others.split_first() else {
        return false;
    };
    *first == b'#' && *second == b'@' && *third == b'$'
}

fn has_hash(rest: &[u8]) -> bool
    ensures { result ≡ has_hash rest.now }
{
    match rest.split_first() {
        Some((byte, _)) => *byte == b'#',
        None => false,
    }
}

fn ends_line(rest: &[u8]) -> bool
    ensures { result ≡ ends_line rest.now }
{
    match rest.split_first() {
        Some((byte, _)) => *byte == b'\n',
        None => true,
    }
}

fn behind_mark(rest: &[u8]) -> &[u8]
    ensures { result.now ≡ drop 3 rest.now }
{
    if rest.len() < 3 {
        return &[];
    }
    &rest[3..]
}

#[tactic(auto, unfolding(crate::specs::Script::line_kind))]
fn line_kind(rest: &[u8]) -> LineKind
    ensures { result ≡ line_kind rest.now }
{
    if has_mark(rest) {
        if ends_line(behind_mark(rest)) {
            return LineKind::Last;
        }
        return LineKind::Words;
    }
    if has_hash(rest) {
        return LineKind::Remark;
    }
    LineKind::Last
}

#[tactic(auto, unfolding(crate::specs::Script::line_end))]
fn line_end(script: &[u8], place: usize) -> usize
    requires { place ≤ length script.now }
    ensures end { result ≡ line_end script.now place }
    ensures fits { result ≤ length script.now }
{
    match place_of(b'\n', &script[place..]) {
        Some(run) => place + run,
        None => script.len(),
    }
}

#[tactic(auto, unfolding(crate::specs::Script::next_line))]
fn next_line(script: &[u8], place: usize) -> usize
    requires { place ≤ length script.now }
    ensures next { result ≡ next_line script.now place }
    ensures fits { result ≤ length script.now }
{
    let end = line_end(script, place);
    if end < script.len() {
        return end + 1;
    }
    script.len()
}

// The options with those of the line's words.
fn words_of_line(
    script: &[u8],
    line: u32,
    place: usize,
    options: Options,
) -> Result<Options, WordsFault>
    requires { place ≤ length script.now }
    ensures { result ≡ read_words 13 Script [] (take (line_end script.now place) script.now) line 1 (place + 3) options }
{
    let end = line_end(script, place);
    let from = place.saturating_add(3);
    read_words(
        13,
        Source::Script,
        &[],
        &script[..end],
        line,
        1,
        from,
        options,
    )
}

// The options with those of the line, and whether the reading goes on.
#[tactic(auto, unfolding(crate::specs::Script::line_options))]
fn line_options(
    script: &[u8],
    line: u32,
    place: usize,
    options: Options,
) -> Result<(Options, bool), WordsFault>
    requires { place ≤ length script.now }
    ensures { result ≡ line_options (line_kind (drop place script.now)) script.now line place options }
{
    match line_kind(&script[place..]) {
        LineKind::Last => Ok((options, false)),
        LineKind::Remark => Ok((options, true)),
        LineKind::Words => {
            let more = words_of_line(script, line, place, options)?;
            Ok((more, true))
        }
    }
}

/// The options of a script of at most 1,048,576 bytes, or the first fault with its line and word.
pub(crate) fn script_options(script: &[u8]) -> Result<Options, WordsFault>
    requires { length script.now ≤ longest_script }
    ensures { result ≡ script_options (length script.now) script.now 1 0 no_options }
{
    let mut options = no_options();
    let mut place = 0usize;
    let mut line = 1u32;
    for _ in 0..script.len() {
        let (more, goes_on) = line_options(script, line, place, options)?;
        options = more;
        if !goes_on {
            return Ok(options);
        }
        place = next_line(script, place);
        line += 1;
    }
    Ok(options)
}
