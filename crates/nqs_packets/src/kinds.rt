//! What each kind of datagram says, read from a place of the bytes.

ghost use Rattle.std.specs.Prelude.{◌≡◌};
ghost use Rattle.nqs_records.specs.Reading.{Answers};
ghost use Rattle.nqs_packets.specs.Bodies.{offer_at, ready_at, refused_at, commit_at, done_at, inquire_at, abort_at, stage_at, staged_at, ask_at, answer_at};
ghost use Rattle.nqs_packets.specs.Bodies.{ended_at, ended_ack_at};

use crate::part::{read_bytes, read_cause, read_number, read_short_bytes, read_tool, read_words};
use nqs_records::{
    RecordFault, read_bool, read_carried, read_id, read_low, read_name, read_path, read_u8,
    read_u16, read_u64,
};
use nqs_types::{Body, LONGEST_SCRIPT};
use std::alloc::Global;

#[tactic(auto, unfolding(crate::specs::Bodies::offer_at))]
pub(crate) fn read_offer(
    alloc: Global,
    bytes: &[u8],
    place: u64,
) -> Result<(Body, u64), RecordFault>
    ensures { Answers (offer_at bytes.now place) result }
{
    let (number, place) = read_number(bytes, place)?;
    let (low, place) = read_low(bytes, place, number)?;
    let (queue, place) = read_name(bytes, place)?;
    let (carried, place) = read_carried(alloc, bytes, place)?;
    let (script, place) = read_short_bytes(alloc, bytes, place, LONGEST_SCRIPT)?;
    let body = Body::Offer {
        number,
        low,
        queue,
        carried,
        script,
    };
    Ok((body, place))
}

#[tactic(auto, unfolding(crate::specs::Bodies::ready_at))]
pub(crate) fn read_ready(bytes: &[u8], place: u64) -> Result<(Body, u64), RecordFault>
    ensures { result ≡ ready_at bytes.now place }
{
    let (number, place) = read_number(bytes, place)?;
    Ok((Body::Ready { number }, place))
}

#[tactic(auto, unfolding(crate::specs::Bodies::refused_at))]
pub(crate) fn read_refused(bytes: &[u8], place: u64) -> Result<(Body, u64), RecordFault>
    ensures { result ≡ refused_at bytes.now place }
{
    let (number, place) = read_number(bytes, place)?;
    let (cause, place) = read_cause(bytes, place)?;
    Ok((Body::Refused { number, cause }, place))
}

#[tactic(auto, unfolding(crate::specs::Bodies::commit_at))]
pub(crate) fn read_commit(bytes: &[u8], place: u64) -> Result<(Body, u64), RecordFault>
    ensures { result ≡ commit_at bytes.now place }
{
    let (number, place) = read_number(bytes, place)?;
    Ok((Body::Commit { number }, place))
}

#[tactic(auto, unfolding(crate::specs::Bodies::done_at))]
pub(crate) fn read_done(bytes: &[u8], place: u64) -> Result<(Body, u64), RecordFault>
    ensures { result ≡ done_at bytes.now place }
{
    let (number, place) = read_number(bytes, place)?;
    Ok((Body::Done { number }, place))
}

#[tactic(auto, unfolding(crate::specs::Bodies::inquire_at))]
pub(crate) fn read_inquire(bytes: &[u8], place: u64) -> Result<(Body, u64), RecordFault>
    ensures { result ≡ inquire_at bytes.now place }
{
    let (number, place) = read_number(bytes, place)?;
    Ok((Body::Inquire { number }, place))
}

#[tactic(auto, unfolding(crate::specs::Bodies::abort_at))]
pub(crate) fn read_abort(bytes: &[u8], place: u64) -> Result<(Body, u64), RecordFault>
    ensures { result ≡ abort_at bytes.now place }
{
    let (number, place) = read_number(bytes, place)?;
    Ok((Body::Abort { number }, place))
}

#[tactic(auto, unfolding(crate::specs::Bodies::stage_at))]
pub(crate) fn read_stage(
    alloc: Global,
    bytes: &[u8],
    place: u64,
) -> Result<(Body, u64), RecordFault>
    ensures { Answers (stage_at bytes.now place) result }
{
    let (number, place) = read_number(bytes, place)?;
    let (path, place) = read_path(alloc, bytes, place)?;
    let (output, place) = read_short_bytes(alloc, bytes, place, 32_768)?;
    let body = Body::Stage {
        number,
        path,
        bytes: output,
    };
    Ok((body, place))
}

#[tactic(auto, unfolding(crate::specs::Bodies::staged_at))]
pub(crate) fn read_staged(bytes: &[u8], place: u64) -> Result<(Body, u64), RecordFault>
    ensures { result ≡ staged_at bytes.now place }
{
    let (number, place) = read_number(bytes, place)?;
    Ok((Body::Staged { number }, place))
}

#[tactic(auto, unfolding(crate::specs::Bodies::ask_at))]
pub(crate) fn read_ask(alloc: Global, bytes: &[u8], place: u64) -> Result<(Body, u64), RecordFault>
    ensures { Answers (ask_at bytes.now place) result }
{
    let (port, place) = read_u16(bytes, place)?;
    let (token, place) = read_u64(bytes, place)?;
    let (user, place) = read_name(bytes, place)?;
    let (tool, place) = read_tool(bytes, place)?;
    let (words, place) = read_words(alloc, bytes, place, tool)?;
    let (script, place) = read_short_bytes(alloc, bytes, place, LONGEST_SCRIPT)?;
    let body = Body::Ask {
        port,
        token,
        user,
        tool,
        words,
        script,
    };
    Ok((body, place))
}

#[tactic(auto, unfolding(crate::specs::Bodies::answer_at))]
pub(crate) fn read_answer(
    alloc: Global,
    bytes: &[u8],
    place: u64,
) -> Result<(Body, u64), RecordFault>
    ensures { Answers (answer_at bytes.now place) result }
{
    let (token, place) = read_u64(bytes, place)?;
    let (ok, place) = read_bool(bytes, place)?;
    let (text, place) = read_bytes(alloc, bytes, place)?;
    Ok((Body::Answer { token, ok, text }, place))
}

#[tactic(auto, unfolding(crate::specs::Bodies::ended_at))]
pub(crate) fn read_ended(
    alloc: Global,
    bytes: &[u8],
    place: u64,
) -> Result<(Body, u64), RecordFault>
    ensures { Answers (ended_at bytes.now place) result }
{
    let (port, place) = read_u16(bytes, place)?;
    let (id, place) = read_id(bytes, place)?;
    let (start, place) = read_u16(bytes, place)?;
    let (status, place) = read_u8(bytes, place)?;
    let (out, place) = read_short_bytes(alloc, bytes, place, 16_384)?;
    let (err, place) = read_short_bytes(alloc, bytes, place, 16_384)?;
    let body = Body::Ended {
        port,
        id,
        start,
        status,
        out,
        err,
    };
    Ok((body, place))
}

#[tactic(auto, unfolding(crate::specs::Bodies::ended_ack_at))]
pub(crate) fn read_ended_ack(bytes: &[u8], place: u64) -> Result<(Body, u64), RecordFault>
    ensures { result ≡ ended_ack_at bytes.now place }
{
    let (id, place) = read_id(bytes, place)?;
    let (start, place) = read_u16(bytes, place)?;
    Ok((Body::EndedAck { id, start }, place))
}
