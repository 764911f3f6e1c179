//! What a line asks for, with the first cause why not. The bytes of long words are taken later, so
//! that no call here takes memory.

ghost use Rattle.std.specs.Prelude.{◌≡◌, ◌≤◌, length};
ghost use Rattle.nqs_schedule.specs.Plans.{verb_of, submit_plan, qsub_plan, qmgr_plan, qstat_plan, qdel_plan, end_plan, one_host, fail_plan, host_and_file};
ghost use Rattle.nqs_schedule.specs.Plans.{deliver_plan, newest_plan, clock_plan, fuse_plan, show_plan, plan_of};

use crate::cause::Cause;
use crate::values::{
    all_good, disk_at, host_at, name_at, nothing_at, number_at, output_at, request_at, tear_at,
    text_there,
};
use crate::words::LineWords;
use nqs_base::Name;
use nqs_types::{HostId, RequestId, WorldEvent};

/// The first word of a line.
#[derive(Clone, Copy)]
pub enum Verb {
    Hosts,
    Submit,
    Qsub,
    Qmgr,
    Qstat,
    Qdel,
    End,
    Finish,
    Fail,
    Written,
    Unwritten,
    Deliver,
    Newest,
    Tick,
    Clock,
    Fuse,
    Crash,
    Boot,
    Show,
}

/// What a line asks for.
#[derive(Drop)]
pub enum Plan {
    /// This event.
    Ready(WorldEvent),
    /// A submission, with the script and the words from the fourth word on.
    Qsub {
        host: HostId,
        user: Name,
    },
    /// A line of qmgr, with what stands behind the user.
    Qmgr {
        host: HostId,
        user: Name,
    },
    /// A list, with the words behind the user.
    Qstat {
        host: HostId,
        user: Name,
    },
    /// A deletion, with the words behind the user.
    Qdel {
        host: HostId,
        user: Name,
    },
    /// The end of a job, with the outputs behind the status.
    End {
        host: HostId,
        id: RequestId,
        start: u16,
        status: u8,
    },
}

/// What the first word of a line stands for.
#[tactic(auto, unfolding(crate::specs::Plans::verb_of))]
pub(crate) fn verb_of(text: &[u8]) -> Option<Verb>
    ensures { result ≡ verb_of text.now }
{
    if b"hosts".as_slice() == text {
        return Some(Verb::Hosts);
    }
    if b"submit".as_slice() == text {
        return Some(Verb::Submit);
    }
    if b"qsub".as_slice() == text {
        return Some(Verb::Qsub);
    }
    if b"qmgr".as_slice() == text {
        return Some(Verb::Qmgr);
    }
    if b"qstat".as_slice() == text {
        return Some(Verb::Qstat);
    }
    if b"qdel".as_slice() == text {
        return Some(Verb::Qdel);
    }
    if b"end".as_slice() == text {
        return Some(Verb::End);
    }
    if b"finish".as_slice() == text {
        return Some(Verb::Finish);
    }
    if b"fail".as_slice() == text {
        return Some(Verb::Fail);
    }
    if b"written".as_slice() == text {
        return Some(Verb::Written);
    }
    if b"unwritten".as_slice() == text {
        return Some(Verb::Unwritten);
    }
    if b"deliver".as_slice() == text {
        return Some(Verb::Deliver);
    }
    if b"newest".as_slice() == text {
        return Some(Verb::Newest);
    }
    if b"tick".as_slice() == text {
        return Some(Verb::Tick);
    }
    if b"clock".as_slice() == text {
        return Some(Verb::Clock);
    }
    if b"fuse".as_slice() == text {
        return Some(Verb::Fuse);
    }
    if b"crash".as_slice() == text {
        return Some(Verb::Crash);
    }
    if b"boot".as_slice() == text {
        return Some(Verb::Boot);
    }
    if b"show".as_slice() == text {
        return Some(Verb::Show);
    }
    None
}

#[tactic(auto, unfolding(crate::specs::Plans::submit_plan))]
fn submit_plan(words: &LineWords) -> Result<Plan, Cause>
    ensures { result ≡ submit_plan words.now }
{
    let user = name_at(words, 1)?;
    let name = name_at(words, 2)?;
    nothing_at(words, 3)?;
    Ok(Plan::Ready(WorldEvent::Submit { user, name }))
}

#[tactic(auto, unfolding(crate::specs::Plans::qsub_plan))]
fn qsub_plan(site: &[Name], words: &LineWords) -> Result<Plan, Cause>
    ensures { result ≡ qsub_plan site.now words.now }
{
    let host = host_at(site, words, 1)?;
    let user = name_at(words, 2)?;
    text_there(words, 3)?;
    all_good(words)?;
    Ok(Plan::Qsub { host, user })
}

#[tactic(auto, unfolding(crate::specs::Plans::qmgr_plan))]
fn qmgr_plan(site: &[Name], words: &LineWords) -> Result<Plan, Cause>
    ensures { result ≡ qmgr_plan site.now words.now }
{
    let host = host_at(site, words, 1)?;
    let user = name_at(words, 2)?;
    Ok(Plan::Qmgr { host, user })
}

#[tactic(auto, unfolding(crate::specs::Plans::qstat_plan))]
fn qstat_plan(site: &[Name], words: &LineWords) -> Result<Plan, Cause>
    ensures { result ≡ qstat_plan site.now words.now }
{
    let host = host_at(site, words, 1)?;
    let user = name_at(words, 2)?;
    all_good(words)?;
    Ok(Plan::Qstat { host, user })
}

#[tactic(auto, unfolding(crate::specs::Plans::qdel_plan))]
fn qdel_plan(site: &[Name], words: &LineWords) -> Result<Plan, Cause>
    ensures { result ≡ qdel_plan site.now words.now }
{
    let host = host_at(site, words, 1)?;
    let user = name_at(words, 2)?;
    all_good(words)?;
    Ok(Plan::Qdel { host, user })
}

#[tactic(auto, unfolding(crate::specs::Plans::end_plan))]
fn end_plan(site: &[Name], words: &LineWords) -> Result<Plan, Cause>
    ensures { result ≡ end_plan site.now words.now }
{
    let host = host_at(site, words, 1)?;
    let id = request_at(site, words, 2)?;
    let start = number_at(0, 65_535, words, 3)?;
    let status = number_at(0, 255, words, 4)?;
    output_at(words, 5)?;
    output_at(words, 6)?;
    nothing_at(words, 7)?;
    Ok(Plan::End {
        host,
        id,
        start: start as u16,
        status: status as u8,
    })
}

// A host, and nothing else.
#[tactic(auto, unfolding(crate::specs::Plans::one_host))]
fn one_host(site: &[Name], words: &LineWords) -> Result<HostId, Cause>
    ensures { result ≡ one_host site.now words.now }
{
    let host = host_at(site, words, 1)?;
    nothing_at(words, 2)?;
    Ok(host)
}

#[tactic(auto, unfolding(crate::specs::Plans::fail_plan))]
fn fail_plan(site: &[Name], words: &LineWords) -> Result<Plan, Cause>
    ensures { result ≡ fail_plan site.now words.now }
{
    let host = host_at(site, words, 1)?;
    let id = request_at(site, words, 2)?;
    let start = number_at(0, 65_535, words, 3)?;
    nothing_at(words, 4)?;
    Ok(Plan::Ready(WorldEvent::Fail {
        host,
        id,
        start: start as u16,
    }))
}

// A host and a file.
#[tactic(auto, unfolding(crate::specs::Plans::host_and_file))]
fn host_and_file(site: &[Name], words: &LineWords) -> Result<(HostId, u64), Cause>
    ensures { result ≡ host_and_file site.now words.now }
{
    let host = host_at(site, words, 1)?;
    let file = number_at(0, u64::MAX, words, 2)?;
    nothing_at(words, 3)?;
    Ok((host, file))
}

#[tactic(auto, unfolding(crate::specs::Plans::deliver_plan))]
fn deliver_plan(words: &LineWords) -> Result<Plan, Cause>
    ensures { result ≡ deliver_plan words.now }
{
    let packet = number_at(1, u64::MAX, words, 1)?;
    nothing_at(words, 2)?;
    Ok(Plan::Ready(WorldEvent::Deliver { packet }))
}

#[tactic(auto, unfolding(crate::specs::Plans::newest_plan))]
fn newest_plan(site: &[Name], words: &LineWords) -> Result<Plan, Cause>
    ensures { result ≡ newest_plan site.now words.now }
{
    let one = host_at(site, words, 1)?;
    let other = host_at(site, words, 2)?;
    nothing_at(words, 3)?;
    Ok(Plan::Ready(WorldEvent::Newest { one, other }))
}

#[tactic(auto, unfolding(crate::specs::Plans::clock_plan))]
fn clock_plan(words: &LineWords) -> Result<Plan, Cause>
    ensures { result ≡ clock_plan words.now }
{
    let moment = number_at(0, u64::MAX, words, 1)?;
    nothing_at(words, 2)?;
    Ok(Plan::Ready(WorldEvent::Clock { moment }))
}

#[tactic(auto, unfolding(crate::specs::Plans::fuse_plan))]
fn fuse_plan(site: &[Name], words: &LineWords) -> Result<Plan, Cause>
    ensures { result ≡ fuse_plan site.now words.now }
{
    let host = host_at(site, words, 1)?;
    let disk = disk_at(words, 2)?;
    let calls = number_at(0, u64::MAX, words, 3)?;
    let tear = tear_at(words, 4)?;
    nothing_at(words, 5)?;
    Ok(Plan::Ready(WorldEvent::Fuse {
        host,
        disk,
        calls,
        tear,
    }))
}

#[tactic(auto, unfolding(crate::specs::Plans::show_plan))]
fn show_plan(words: &LineWords) -> Result<Plan, Cause>
    ensures { result ≡ show_plan words.now }
{
    nothing_at(words, 1)?;
    Ok(Plan::Ready(WorldEvent::Show))
}

/// What the line of a verb asks for, or the first cause why it is bad. A line of hosts is no event.
#[tactic(auto, unfolding(crate::specs::Plans::plan_of))]
pub(crate) fn plan_of(site: &[Name], words: &LineWords, verb: Verb) -> Result<Plan, Cause>
    ensures { result ≡ plan_of site.now words.now verb }
{
    match verb {
        Verb::Hosts => Err(Cause::LateHosts),
        Verb::Submit => submit_plan(words),
        Verb::Qsub => qsub_plan(site, words),
        Verb::Qmgr => qmgr_plan(site, words),
        Verb::Qstat => qstat_plan(site, words),
        Verb::Qdel => qdel_plan(site, words),
        Verb::End => end_plan(site, words),
        Verb::Finish => {
            let host = one_host(site, words)?;
            Ok(Plan::Ready(WorldEvent::Finish { host }))
        }
        Verb::Fail => fail_plan(site, words),
        Verb::Written => {
            let (host, file) = host_and_file(site, words)?;
            Ok(Plan::Ready(WorldEvent::Written { host, file }))
        }
        Verb::Unwritten => {
            let (host, file) = host_and_file(site, words)?;
            Ok(Plan::Ready(WorldEvent::Unwritten { host, file }))
        }
        Verb::Deliver => deliver_plan(words),
        Verb::Newest => newest_plan(site, words),
        Verb::Tick => {
            let host = one_host(site, words)?;
            Ok(Plan::Ready(WorldEvent::Tick { host }))
        }
        Verb::Clock => clock_plan(words),
        Verb::Fuse => fuse_plan(site, words),
        Verb::Crash => {
            let host = one_host(site, words)?;
            Ok(Plan::Ready(WorldEvent::Crash { host }))
        }
        Verb::Boot => {
            let host = one_host(site, words)?;
            Ok(Plan::Ready(WorldEvent::Boot { host }))
        }
        Verb::Show => show_plan(words),
    }
}
