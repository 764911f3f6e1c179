//! The parts of a whole state, read at a place of bytes.

ghost use Rattle.nqs_records.specs.Reading.{Answers};
ghost use Rattle.nqs_snapshot.specs.Readings.{many_at, peer_at, old_peer_at};
ghost use Rattle.nqs_snapshot.specs.Reading.{site_at, requests_at, dealings_at, counters_at, parts_at};

use crate::lists::{InOldSnapshot, InSnapshot, read_list, read_many};
use crate::parts::{CounterPart, DealingPart, Parts, RequestPart, SitePart};
use nqs_records::{
    Read, RecordFault, read_host, read_opt_name, read_u16, read_u32, read_u64, repeat,
};
use nqs_state::PeerList;
use nqs_types::Peer;
use std::alloc::Global;

#[tactic(auto, unfolding(crate::specs::Reading::site_at))]
fn read_site(alloc: Global, bytes: &[u8], place: u64) -> Result<(SitePart, u64), RecordFault>
    ensures { Answers (site_at bytes.now place) result }
{
    let (me, place) = read_host(bytes, place)?;
    let (site, place) = read_list(alloc, bytes, place)?;
    let (queues, place) = read_many(alloc, bytes, place)?;
    let (complexes, place) = read_many(alloc, bytes, place)?;
    let (devices, place) = read_many(alloc, bytes, place)?;
    let part = SitePart {
        me,
        site,
        queues,
        complexes,
        devices,
    };
    Ok((part, place))
}

#[tactic(auto, unfolding(crate::specs::Reading::requests_at))]
fn read_requests(alloc: Global, bytes: &[u8], place: u64) -> Result<(RequestPart, u64), RecordFault>
    ensures { Answers (requests_at bytes.now place) result }
{
    let (rows, place) = read_many(alloc, bytes, place)?;
    let (hands, place) = read_many(alloc, bytes, place)?;
    let (promises, place) = read_many(alloc, bytes, place)?;
    let part = RequestPart {
        rows,
        hands,
        promises,
    };
    Ok((part, place))
}

#[tactic(auto, unfolding(crate::specs::Reading::dealings_at))]
fn read_dealings(alloc: Global, bytes: &[u8], place: u64) -> Result<(DealingPart, u64), RecordFault>
    ensures { Answers (dealings_at bytes.now place) result }
{
    let (stages, place) = read_many(alloc, bytes, place)?;
    let (files, place) = read_many(alloc, bytes, place)?;
    let (managers, place) = read_list(alloc, bytes, place)?;
    let (operators, place) = read_list(alloc, bytes, place)?;
    let part = DealingPart {
        stages,
        files,
        managers,
        operators,
    };
    Ok((part, place))
}

#[tactic(auto, unfolding(crate::specs::Reading::counters_at))]
fn read_counters(bytes: &[u8], place: u64) -> Result<(CounterPart, u64), RecordFault>
    ensures { Answers (counters_at bytes.now place) result }
{
    let (default_queue, place) = read_opt_name(bytes, place)?;
    let (global_limit, place) = read_u16(bytes, place)?;
    let (patience, place) = read_u64(bytes, place)?;
    let (retry_wait, place) = read_u64(bytes, place)?;
    let (seq, place) = read_u32(bytes, place)?;
    let (arrivals, place) = read_u64(bytes, place)?;
    let (file_next, place) = read_u64(bytes, place)?;
    let part = CounterPart {
        default_queue,
        global_limit,
        patience,
        retry_wait,
        seq,
        arrivals,
        file_next,
    };
    Ok((part, place))
}

impl Read<InSnapshot> for Parts {
    ghost at = { parts_at peer_at };

    #[tactic(auto, unfolding(crate::specs::Reading::parts_at))]
    fn read(alloc: Global, bytes: &[u8], place: u64) -> Result<(Parts, u64), RecordFault> {
        let (site, place) = read_site(alloc, bytes, place)?;
        let (requests, place) = read_requests(alloc, bytes, place)?;
        let (peers, place) = read_many(alloc, bytes, place)?;
        let (dealings, place) = read_dealings(alloc, bytes, place)?;
        let (counters, place) = read_counters(bytes, place)?;
        let parts = Parts {
            site,
            requests,
            peers,
            dealings,
            counters,
        };
        Ok((parts, place))
    }
}

fn read_old_peers(alloc: Global, bytes: &[u8], place: u64) -> Result<(PeerList, u64), RecordFault>
    ensures { Answers (many_at old_peer_at bytes.now place) result }
{
    let (count, next) = read_u64(bytes, place)?;
    repeat::<InOldSnapshot, Peer>(alloc, bytes, next, count)
}

impl Read<InOldSnapshot> for Parts {
    ghost at = { parts_at old_peer_at };

    #[tactic(auto, unfolding(crate::specs::Reading::parts_at))]
    fn read(alloc: Global, bytes: &[u8], place: u64) -> Result<(Parts, u64), RecordFault> {
        let (site, place) = read_site(alloc, bytes, place)?;
        let (requests, place) = read_requests(alloc, bytes, place)?;
        let (peers, place) = read_old_peers(alloc, bytes, place)?;
        let (dealings, place) = read_dealings(alloc, bytes, place)?;
        let (counters, place) = read_counters(bytes, place)?;
        let parts = Parts {
            site,
            requests,
            peers,
            dealings,
            counters,
        };
        Ok((parts, place))
    }
}
