//! Dealings with other hosts, and files, read at a place of bytes.

ghost use Rattle.std.specs.Prelude.{◌≡◌, IfOk};
ghost use Rattle.nqs_records.specs.Fields.{u64_at};
ghost use Rattle.nqs_records.specs.Reading.{Answers};
ghost use Rattle.nqs_snapshot.specs.Readings.{phase_of, phase_at, hand_at, promise_at, peer_at, old_peer_at, stage_at, file_at};
ghost use Rattle.nqs_snapshot.specs.Values.{alone_above};

use crate::lists::{InOldSnapshot, InSnapshot, read_list};
use nqs_base::ListOf;
use nqs_records::{
    Read, RecordFault, read_host, read_id, read_name, read_output, read_path, read_u8_at_most,
    read_u64,
};
use nqs_types::{FileOut, Hand, NumberList, Peer, Phase, Promise, Row, Stage};
use std::alloc::{AllocError, Global};

fn phase_of(number: u8) -> Phase
    ensures { result ≡ phase_of number }
{
    match number {
        0 => Phase::Offered,
        _ => Phase::Committed,
    }
}

#[tactic(auto, unfolding(crate::specs::Readings::phase_at))]
fn read_phase(bytes: &[u8], place: u64) -> Result<(Phase, u64), RecordFault>
    ensures { result ≡ phase_at bytes.now place }
{
    let (number, next) = read_u8_at_most(bytes, place, 1)?;
    Ok((phase_of(number), next))
}

impl Read<InSnapshot> for Hand {
    ghost at = { hand_at };

    #[tactic(auto, unfolding(crate::specs::Readings::hand_at))]
    fn read(_alloc: Global, bytes: &[u8], place: u64) -> Result<(Hand, u64), RecordFault> {
        let (peer, place) = read_host(bytes, place)?;
        let (number, place) = read_u64(bytes, place)?;
        let (id, place) = read_id(bytes, place)?;
        let (queue, place) = read_name(bytes, place)?;
        let (since, place) = read_u64(bytes, place)?;
        let (phase, place) = read_phase(bytes, place)?;
        let hand = Hand {
            peer,
            number,
            id,
            queue,
            since,
            phase,
        };
        Ok((hand, place))
    }
}

impl Read<InSnapshot> for Promise {
    ghost at = { promise_at };

    #[tactic(auto, unfolding(crate::specs::Readings::promise_at))]
    fn read(alloc: Global, bytes: &[u8], place: u64) -> Result<(Promise, u64), RecordFault> {
        let (peer, place) = read_host(bytes, place)?;
        let (number, place) = read_u64(bytes, place)?;
        let (row, place) = Row::read(alloc, bytes, place)?;
        Ok((Promise { peer, number, row }, place))
    }
}

impl Read<InSnapshot> for u64 {
    ghost at = { u64_at };

    fn read(_alloc: Global, bytes: &[u8], place: u64) -> Result<(u64, u64), RecordFault> {
        read_u64(bytes, place)
    }
}

impl Read<InSnapshot> for Peer {
    ghost at = { peer_at };

    #[tactic(auto, unfolding(crate::specs::Readings::peer_at))]
    fn read(alloc: Global, bytes: &[u8], place: u64) -> Result<(Peer, u64), RecordFault> {
        let (next, place) = read_u64(bytes, place)?;
        let (floor, place) = read_u64(bytes, place)?;
        let (closed, place) = read_list(alloc, bytes, place)?;
        let (wait, place) = read_u64(bytes, place)?;
        let (stage_next, place) = read_u64(bytes, place)?;
        let (stage_got, place) = read_u64(bytes, place)?;
        let peer = Peer {
            next,
            floor,
            closed,
            wait,
            stage_next,
            stage_got,
        };
        Ok((peer, place))
    }
}

// The number alone, or nothing where it is 0.
fn alone_above(alloc: Global, number: u64) -> Result<NumberList, AllocError>
    ensures { IfOk result (λ numbers. numbers ≡ alone_above number) }
{
    let mut numbers = Vec::new(alloc);
    if number == 0 {
        return Ok(ListOf::from_vec(numbers));
    }
    numbers.push(number)?;
    Ok(ListOf::from_vec(numbers))
}

/// The peers of version 1, which have one closed number each.
impl Read<InOldSnapshot> for Peer {
    ghost at = { old_peer_at };

    #[tactic(auto, unfolding(crate::specs::Readings::old_peer_at))]
    fn read(alloc: Global, bytes: &[u8], place: u64) -> Result<(Peer, u64), RecordFault> {
        let (next, place) = read_u64(bytes, place)?;
        let (number, place) = read_u64(bytes, place)?;
        let (wait, place) = read_u64(bytes, place)?;
        let (stage_next, place) = read_u64(bytes, place)?;
        let (stage_got, place) = read_u64(bytes, place)?;
        let closed = alone_above(alloc, number)?;
        let peer = Peer {
            next,
            floor: number.saturating_sub(1),
            closed,
            wait,
            stage_next,
            stage_got,
        };
        Ok((peer, place))
    }
}

impl Read<InSnapshot> for Stage {
    ghost at = { stage_at };

    #[tactic(auto, unfolding(crate::specs::Readings::stage_at))]
    fn read(alloc: Global, bytes: &[u8], place: u64) -> Result<(Stage, u64), RecordFault> {
        let (peer, place) = read_host(bytes, place)?;
        let (number, place) = read_u64(bytes, place)?;
        let (path, place) = read_path(alloc, bytes, place)?;
        let (extent, place) = read_output(bytes, place)?;
        let stage = Stage {
            peer,
            number,
            path,
            bytes: extent,
        };
        Ok((stage, place))
    }
}

impl Read<InSnapshot> for FileOut {
    ghost at = { file_at };

    #[tactic(auto, unfolding(crate::specs::Readings::file_at))]
    fn read(alloc: Global, bytes: &[u8], place: u64) -> Result<(FileOut, u64), RecordFault> {
        let (number, place) = read_u64(bytes, place)?;
        let (path, place) = read_path(alloc, bytes, place)?;
        let (extent, place) = read_output(bytes, place)?;
        let file = FileOut {
            number,
            path,
            bytes: extent,
        };
        Ok((file, place))
    }
}
