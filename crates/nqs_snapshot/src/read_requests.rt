//! Requests, read at a place of bytes.

ghost use Rattle.std.specs.Prelude.{◌≡◌};
ghost use Rattle.nqs_records.specs.Reading.{Answers};
ghost use Rattle.nqs_snapshot.specs.Readings.{row_state_of, row_state_at, hold_of, hold_at, refused_at, course_at, row_at};

use crate::lists::{InSnapshot, read_list};
use crate::read_queues::read_dest;
use nqs_base::Name;
use nqs_records::{
    Read, RecordFault, read_bool, read_id, read_job, read_name, read_opt_name, read_script,
    read_u8, read_u8_at_most, read_u16, read_u64,
};
use nqs_types::{Hold, Refused, Row, RowState};
use std::alloc::Global;

// Where a request stands.
#[derive(Clone, Copy)]
pub(crate) struct Course {
    queue: Name,
    state: RowState,
    hold: Hold,
    arrival: u64,
    doomed: bool,
    starts: u16,
    lost: u16,
    hops: u8,
    device: Option<Name>,
}

fn row_state_of(number: u8) -> RowState
    ensures { result ≡ row_state_of number }
{
    match number {
        0 => RowState::Queued,
        1 => RowState::Routing,
        _ => RowState::Running,
    }
}

fn hold_of(number: u8) -> Hold
    ensures { result ≡ hold_of number }
{
    match number {
        0 => Hold::No,
        1 => Hold::User,
        _ => Hold::System,
    }
}

#[tactic(auto, unfolding(crate::specs::Readings::row_state_at))]
fn read_row_state(bytes: &[u8], place: u64) -> Result<(RowState, u64), RecordFault>
    ensures { result ≡ row_state_at bytes.now place }
{
    let (number, next) = read_u8_at_most(bytes, place, 2)?;
    Ok((row_state_of(number), next))
}

#[tactic(auto, unfolding(crate::specs::Readings::hold_at))]
fn read_hold(bytes: &[u8], place: u64) -> Result<(Hold, u64), RecordFault>
    ensures { result ≡ hold_at bytes.now place }
{
    let (number, next) = read_u8_at_most(bytes, place, 2)?;
    Ok((hold_of(number), next))
}

impl Read<InSnapshot> for Refused {
    ghost at = { refused_at };

    #[tactic(auto, unfolding(crate::specs::Readings::refused_at))]
    fn read(_alloc: Global, bytes: &[u8], place: u64) -> Result<(Refused, u64), RecordFault> {
        let (dest, next) = read_dest(bytes, place)?;
        let (cause, end) = read_u8(bytes, next)?;
        Ok((Refused { dest, cause }, end))
    }
}

#[tactic(auto, unfolding(crate::specs::Readings::course_at))]
fn read_course(bytes: &[u8], place: u64) -> Result<(Course, u64), RecordFault>
    ensures { result ≡ course_at bytes.now place }
{
    let (queue, place) = read_name(bytes, place)?;
    let (state, place) = read_row_state(bytes, place)?;
    let (hold, place) = read_hold(bytes, place)?;
    let (arrival, place) = read_u64(bytes, place)?;
    let (doomed, place) = read_bool(bytes, place)?;
    let (starts, place) = read_u16(bytes, place)?;
    let (lost, place) = read_u16(bytes, place)?;
    let (hops, place) = read_u8_at_most(bytes, place, 32)?;
    let (device, place) = read_opt_name(bytes, place)?;
    let course = Course {
        queue,
        state,
        hold,
        arrival,
        doomed,
        starts,
        lost,
        hops,
        device,
    };
    Ok((course, place))
}

impl Read<InSnapshot> for Row {
    ghost at = { row_at };

    #[tactic(auto, unfolding(crate::specs::Readings::row_at))]
    fn read(alloc: Global, bytes: &[u8], place: u64) -> Result<(Row, u64), RecordFault> {
        let (id, place) = read_id(bytes, place)?;
        let (job, place) = read_job(alloc, bytes, place)?;
        let (course, place) = read_course(bytes, place)?;
        let (refused, place) = read_list(alloc, bytes, place)?;
        let (script, place) = read_script(bytes, place)?;
        let row = Row {
            id,
            job,
            queue: course.queue,
            state: course.state,
            hold: course.hold,
            arrival: course.arrival,
            doomed: course.doomed,
            starts: course.starts,
            lost: course.lost,
            hops: course.hops,
            device: course.device,
            refused,
            script,
        };
        Ok((row, place))
    }
}
