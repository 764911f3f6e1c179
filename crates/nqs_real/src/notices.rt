//! What a host's programs tell its operator on standard error, a line each: the moment in UTC,
//! `nqs:` and what happened, as `2026-03-01T12:00:00Z nqs: 12.alpha wasn't launched: ..`. Nothing
//! rests on these lines: one that can't be written isn't.

ghost use Rattle.std.specs.Prelude.{◌≡◌, ◌++◌, IfOk, codes, string_bytes};
ghost use Rattle.nqs_text.specs.Dates.{date_text};
ghost use Rattle.nqs_real.specs.Names.{request_text};

use crate::clock::seconds;
use crate::folder::{name_text, request_text};
use crate::site::SiteHost;
use nqs_base::Name;
use nqs_moments::print_moment;
use nqs_types::{Output, RequestId};
use std::alloc::Global;
use std::io;
use std::io::ErrorKind;
use std::rt::HostRuntime;

// The line that says a text at a moment, in seconds since 1970. There is none of a moment past the
// year 9999.
fn line_of(alloc: Global, moment: u64, text: &str) -> io::Result<String>
    ensures { IfOk result (λ line. string_bytes line ≡ date_text moment ++ codes "Z nqs: " ++ text.now) }
{
    let mut when = Vec::new(alloc);
    if print_moment(alloc, moment, &mut when).is_err() {
        return Err(io::Error::from(ErrorKind::InvalidInput));
    }
    match str::from_utf8(when.as_slice()) {
        Ok(when) => Ok(format!(in alloc; "{when}Z nqs: {text}")?),
        Err(_) => Err(io::Error::from(ErrorKind::InvalidData)),
    }
}

/// Says a text of one line, with the moment.
pub fn tell(rt: &HostRuntime, text: &str) {
    if let Ok(line) = line_of(rt.alloc(), seconds(rt).unwrap_or(0), text) {
        let _ = eprintln!(rt; "{line}");
    }
}

fn text_of(rt: &HostRuntime, site: &[SiteHost], id: RequestId, what: &str) -> io::Result<String>
    ensures { IfOk result (λ text. string_bytes text ≡ request_text id site.now ++ codes " " ++ what.now) }
{
    let request = request_text(rt, site, id)?;
    Ok(format!(in rt.alloc(); "{request} {what}")?)
}

/// Says of a request what happened, in one line with the moment: `SEQ.HOST` and this text.
pub(crate) fn tell_of(rt: &HostRuntime, site: &[SiteHost], id: RequestId, what: &str) {
    if let Ok(text) = text_of(rt, site, id, what) {
        tell(rt, &text);
    }
}

fn tell_cause(
    rt: &HostRuntime,
    site: &[SiteHost],
    id: RequestId,
    what: &str,
    cause: &io::Error,
) -> io::Result<()> {
    let text = format!(in rt.alloc(); "{what}: {cause}")?;
    tell_of(rt, site, id, &text);
    Ok(())
}

/// Where a call failed, says of its request what wasn't done, and why.
pub(crate) fn tell_failed(
    rt: &HostRuntime,
    site: &[SiteHost],
    id: RequestId,
    what: &str,
    made: &io::Result<()>,
) {
    if let Err(cause) = made {
        let _ = tell_cause(rt, site, id, what, cause);
    }
}

/// Says which part of the machine can't be had, and why.
pub fn tell_part(rt: &HostRuntime, what: &str, cause: &io::Error) {
    if let Ok(text) = format!(in rt.alloc(); "{what}: {cause}") {
        tell(rt, &text);
    }
}

/// Says of a request that a shortage of the system keeps its job back.
pub(crate) fn tell_kept(rt: &HostRuntime, request: &str, cause: &io::Error) {
    if let Ok(text) = format!(in rt.alloc(); "{request} waits to be launched: {cause}") {
        tell(rt, &text);
    }
}

/// Says of a request that the job of this start was launched.
pub(crate) fn tell_launched(rt: &HostRuntime, request: &str, start: &str) {
    if let Ok(text) = format!(in rt.alloc(); "{request} is launched, start {start}") {
        tell(rt, &text);
    }
}

fn tell_request(rt: &HostRuntime, names: &[Name], id: RequestId, what: &str) -> io::Result<()> {
    let Some(name) = names.get(id.host.0 as usize) else {
        return Err(io::Error::from(ErrorKind::InvalidInput));
    };
    let host = name_text(name)?;
    let text = format!(in rt.alloc(); "{}.{host} {what}", id.seq)?;
    tell(rt, &text);
    Ok(())
}

/// Says what a host's boot said of the requests that ran when it stopped. `names` are those of the
/// site's hosts.
pub fn tell_boot(rt: &HostRuntime, names: &[Name], said: &[Output]) {
    for output in said {
        let _ = match output {
            Output::Again(id) => tell_request(rt, names, *id, "starts again: its host had stopped"),
            Output::Lost(id) => tell_request(rt, names, *id, "is lost: its host had stopped"),
            _ => Ok(()),
        };
    }
}
