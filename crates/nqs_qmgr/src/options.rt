//! What stands in brackets behind a queue that is made: options in any order, each at most once.

ghost use Rattle.std.specs.Prelude.{◌≡◌, ◌≤◌, length};
ghost use Rattle.nqs_qmgr.specs.Heads.{FitsLine};
ghost use Rattle.nqs_qmgr.specs.Options.{once, with_priority, with_run_limit, with_pipe_only, with_destination, with_option, options, no_settings};

use crate::head::{Head, bare, dest_in, head_of, number_in};
use nqs_types::{GrammarFault, NamedDest};
use nqs_words::{Gaps, Keyword, next_word};

/// The options of a queue that is made.
#[derive(Clone, Copy)]
pub struct Settings {
    pub priority: Option<u64>,
    pub run_limit: Option<u64>,
    pub pipe_only: bool,
    pub destination: Option<NamedDest>,
}

/// No option.
pub(crate) fn no_settings() -> Settings
    ensures { result ≡ no_settings }
{
    Settings {
        priority: None,
        run_limit: None,
        pipe_only: false,
        destination: None,
    }
}

#[tactic(auto, unfolding(crate::specs::Options::once))]
fn once(given: bool, head: Head) -> Result<(), GrammarFault>
    ensures { result ≡ once given head }
{
    if given {
        return Err(GrammarFault::Extra(head.word.start as u64));
    }
    Ok(())
}

#[tactic(auto, unfolding(crate::specs::Options::with_priority))]
fn with_priority(line: &[u8], head: Head, settings: Settings) -> Result<Settings, GrammarFault>
    requires { FitsLine line.now head }
    ensures { result ≡ with_priority line.now head settings }
{
    once(settings.priority.is_some(), head)?;
    let priority = number_in(line, head, 0, 63)?;
    let mut more = settings;
    more.priority = Some(priority);
    Ok(more)
}

#[tactic(auto, unfolding(crate::specs::Options::with_run_limit))]
fn with_run_limit(line: &[u8], head: Head, settings: Settings) -> Result<Settings, GrammarFault>
    requires { FitsLine line.now head }
    ensures { result ≡ with_run_limit line.now head settings }
{
    once(settings.run_limit.is_some(), head)?;
    let limit = number_in(line, head, 0, 10_000)?;
    let mut more = settings;
    more.run_limit = Some(limit);
    Ok(more)
}

#[tactic(auto, unfolding(crate::specs::Options::with_pipe_only))]
fn with_pipe_only(line: &[u8], head: Head, settings: Settings) -> Result<Settings, GrammarFault>
    requires { FitsLine line.now head }
    ensures { result ≡ with_pipe_only head settings }
{
    once(settings.pipe_only, head)?;
    bare(line, head)?;
    let mut more = settings;
    more.pipe_only = true;
    Ok(more)
}

#[tactic(auto, unfolding(crate::specs::Options::with_destination))]
fn with_destination(line: &[u8], head: Head, settings: Settings) -> Result<Settings, GrammarFault>
    requires { FitsLine line.now head }
    ensures { result ≡ with_destination line.now head settings }
{
    once(settings.destination.is_some(), head)?;
    let dest = dest_in(line, head)?;
    let mut more = settings;
    more.destination = Some(dest);
    Ok(more)
}

#[tactic(auto, unfolding(crate::specs::Options::with_option))]
fn with_option(line: &[u8], head: Head, settings: Settings) -> Result<Settings, GrammarFault>
    requires { FitsLine line.now head }
    ensures { result ≡ with_option line.now head settings head.keyword }
{
    match head.keyword {
        Keyword::Priority => with_priority(line, head, settings),
        Keyword::RunLimit => with_run_limit(line, head, settings),
        Keyword::PipeOnly => with_pipe_only(line, head, settings),
        Keyword::Destination => with_destination(line, head, settings),
        _ => Err(GrammarFault::UnknownWord(head.word.start as u64)),
    }
}

/// The options from a place up to the line's end, behind those that were read already; at most
/// `left` words.
#[tactic(auto, unfolding(crate::specs::Options::options))]
pub(crate) fn options(
    left: u8,
    keywords: &[Keyword],
    line: &[u8],
    place: usize,
    settings: Settings,
) -> Result<Settings, GrammarFault>
    requires { place ≤ length line.now }
    ensures { result ≡ options left keywords.now line.now place settings }
{
    if left == 0 {
        return Err(GrammarFault::Extra(place as u64));
    }
    let Some(word) = next_word(Gaps::SpacesAndTabs, line, place) else {
        return Ok(settings);
    };
    let head = head_of(keywords, line, word)?;
    let more = with_option(line, head, settings)?;
    options(left - 1, keywords, line, word.end, more)
}
