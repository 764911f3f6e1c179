//! The shapes of lines, from their second keyword on.

ghost use Rattle.std.specs.Prelude.{◌≡◌, ◌≤◌, length};
ghost use Rattle.nqs_words.specs.Values.{name_of, number_of, dest_of};
ghost use Rattle.nqs_types.specs.declared.fault.GrammarFault.TheVariants as fault;
ghost use Rattle.nqs_words.specs.declared.keyword.Keyword.TheVariants as k;
ghost use Rattle.nqs_qmgr.specs.Heads.{FitsLine, limit_of};
ghost use Rattle.nqs_qmgr.specs.Lines.{read_alone, read_one_name, read_value, read_value_and_name, last_value, read_one_request, read_request_and_name};
ghost use Rattle.nqs_qmgr.specs.Lines.{read_request_and_priority, read_name_and_forms, read_made_queue};

use crate::head::{
    Head, bare, dest_in, head_at, last_name, limit_in, name_at, name_in, nothing_after, number_in,
    request_at,
};
use crate::options::{Settings, no_settings, options};
use crate::value::Amount;
use nqs_base::Name;
use nqs_types::{GrammarFault, Named, NamedDest};
use nqs_words::Keyword;

/// `KEYWORD`
#[tactic(auto, unfolding(crate::specs::Lines::read_alone))]
pub(crate) fn read_alone(line: &[u8], head: Head) -> Result<(), GrammarFault>
    requires { FitsLine line.now head }
    ensures { result ≡ read_alone line.now head }
{
    let place = bare(line, head)?;
    nothing_after(line, place)
}

/// `KEYWORD Q`
#[tactic(auto, unfolding(crate::specs::Lines::read_one_name))]
pub(crate) fn read_one_name(line: &[u8], head: Head) -> Result<Name, GrammarFault>
    requires { FitsLine line.now head }
    ensures { result ≡ read_one_name line.now head }
{
    let place = bare(line, head)?;
    last_name(line, place)
}

/// `KEYWORD=N`
#[tactic(auto, unfolding(crate::specs::Lines::read_value))]
pub(crate) fn read_number(line: &[u8], head: Head, low: u64, high: u64) -> Result<u64, GrammarFault>
    requires { FitsLine line.now head }
    ensures { result ≡ read_value (number_of low high) fault.BadNumber line.now head }
{
    let number = number_in(line, head, low, high)?;
    nothing_after(line, head.word.end)?;
    Ok(number)
}

/// `KEYWORD=P`
#[tactic(auto, unfolding(crate::specs::Lines::read_value))]
pub(crate) fn read_name_value(line: &[u8], head: Head) -> Result<Name, GrammarFault>
    requires { FitsLine line.now head }
    ensures { result ≡ read_value name_of fault.BadName line.now head }
{
    let name = name_in(line, head)?;
    nothing_after(line, head.word.end)?;
    Ok(name)
}

/// `KEYWORD=N Q`
#[tactic(auto, unfolding(crate::specs::Lines::read_value_and_name))]
pub(crate) fn read_number_and_name(
    line: &[u8],
    head: Head,
    low: u64,
    high: u64,
) -> Result<(u64, Name), GrammarFault>
    requires { FitsLine line.now head }
    ensures { result ≡ read_value_and_name (number_of low high) fault.BadNumber line.now head }
{
    let number = number_in(line, head, low, high)?;
    let name = last_name(line, head.word.end)?;
    Ok((number, name))
}

/// `KEYWORD=N Q`, or `none` in place of the amount
#[tactic(auto, unfolding(crate::specs::Lines::read_value_and_name))]
pub(crate) fn read_limit_and_name(
    line: &[u8],
    head: Head,
    amount: Amount,
) -> Result<(Option<u64>, Name), GrammarFault>
    requires { FitsLine line.now head }
    ensures { result ≡ read_value_and_name (limit_of amount) fault.BadNumber line.now head }
{
    let limit = limit_in(line, head, amount)?;
    let name = last_name(line, head.word.end)?;
    Ok((limit, name))
}

/// `KEYWORD=P Q`
#[tactic(auto, unfolding(crate::specs::Lines::read_value_and_name))]
pub(crate) fn read_two_names(line: &[u8], head: Head) -> Result<(Name, Name), GrammarFault>
    requires { FitsLine line.now head }
    ensures { result ≡ read_value_and_name name_of fault.BadName line.now head }
{
    let first = name_in(line, head)?;
    let name = last_name(line, head.word.end)?;
    Ok((first, name))
}

/// `KEYWORD=Q@H P`
#[tactic(auto, unfolding(crate::specs::Lines::read_value_and_name))]
pub(crate) fn read_dest_and_name(line: &[u8], head: Head) -> Result<(NamedDest, Name), GrammarFault>
    requires { FitsLine line.now head }
    ensures { result ≡ read_value_and_name dest_of fault.BadName line.now head }
{
    let dest = dest_in(line, head)?;
    let name = last_name(line, head.word.end)?;
    Ok((dest, name))
}

/// `KEYWORD SEQ.HOST`
#[tactic(auto, unfolding(crate::specs::Lines::read_one_request))]
pub(crate) fn read_one_request(line: &[u8], head: Head) -> Result<Named, GrammarFault>
    requires { FitsLine line.now head }
    ensures { result ≡ read_one_request line.now head }
{
    let place = bare(line, head)?;
    let (request, after) = request_at(line, place)?;
    nothing_after(line, after)?;
    Ok(request)
}

/// `KEYWORD SEQ.HOST Q`
#[tactic(auto, unfolding(crate::specs::Lines::read_request_and_name))]
pub(crate) fn read_request_and_name(line: &[u8], head: Head) -> Result<(Named, Name), GrammarFault>
    requires { FitsLine line.now head }
    ensures { result ≡ read_request_and_name line.now head }
{
    let place = bare(line, head)?;
    let (request, after) = request_at(line, place)?;
    let name = last_name(line, after)?;
    Ok((request, name))
}

static PRIORITY: [Keyword; 1] = [Keyword::Priority];

static FORMS: [Keyword; 1] = [Keyword::Forms];

// `priority=N` as the last word.
#[tactic(auto, unfolding(crate::specs::Lines::last_value))]
fn last_priority(line: &[u8], place: usize) -> Result<u64, GrammarFault>
    requires { place ≤ length line.now }
    ensures { result ≡ last_value (number_of 0 63) fault.BadNumber k.Priority line.now place }
{
    let head = head_at(PRIORITY.as_slice(), line, place)?;
    read_number(line, head, 0, 63)
}

// `forms=F` as the last word.
#[tactic(auto, unfolding(crate::specs::Lines::last_value))]
fn last_forms(line: &[u8], place: usize) -> Result<Name, GrammarFault>
    requires { place ≤ length line.now }
    ensures { result ≡ last_value name_of fault.BadName k.Forms line.now place }
{
    let head = head_at(FORMS.as_slice(), line, place)?;
    read_name_value(line, head)
}

/// `KEYWORD SEQ.HOST priority=N`
#[tactic(auto, unfolding(crate::specs::Lines::read_request_and_priority))]
pub(crate) fn read_request_and_priority(
    line: &[u8],
    head: Head,
) -> Result<(Named, u64), GrammarFault>
    requires { FitsLine line.now head }
    ensures { result ≡ read_request_and_priority line.now head }
{
    let place = bare(line, head)?;
    let (request, after) = request_at(line, place)?;
    let priority = last_priority(line, after)?;
    Ok((request, priority))
}

/// `KEYWORD D forms=F`
#[tactic(auto, unfolding(crate::specs::Lines::read_name_and_forms))]
pub(crate) fn read_name_and_forms(line: &[u8], head: Head) -> Result<(Name, Name), GrammarFault>
    requires { FitsLine line.now head }
    ensures { result ≡ read_name_and_forms line.now head }
{
    let place = bare(line, head)?;
    let (name, after) = name_at(line, place)?;
    let forms = last_forms(line, after)?;
    Ok((name, forms))
}

/// `KEYWORD Q` with options of these keywords
#[tactic(auto, unfolding(crate::specs::Lines::read_made_queue))]
pub(crate) fn read_made_queue(
    line: &[u8],
    head: Head,
    keywords: &[Keyword],
) -> Result<(Name, Settings), GrammarFault>
    requires { FitsLine line.now head }
    ensures { result ≡ read_made_queue keywords.now line.now head }
{
    let place = bare(line, head)?;
    let (name, after) = name_at(line, place)?;
    let settings = options(5, keywords, line, after, no_settings())?;
    Ok((name, settings))
}
