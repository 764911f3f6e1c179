//! The parts of `nqs` that talk to a daemon: its clients, and the shepherd of a job.

ghost use Rattle.std.specs.Prelude.{◌≡◌, ◌⊎◌, length, true};
ghost use Rattle.nqs_rules.specs.Sane.{is_of_site, is_sane_id};
ghost use Rattle.nqs_outside.specs.Streams.{fed, sunk};
ghost use Rattle.nqs_cli.specs.Runs.{Uses, DoesClient, DoesShepherd, Wants, IsWanting, no_parts, place_at, seen, status_of_shepherd};

use crate::machine::{Machine, status_of_end};
use crate::parts::ShepherdParts;
use crate::station::Station;
use nqs_clients::{Errand, NqsStatus, ShepherdEnd, client, shepherd};
use nqs_outside::{Sink, Source};
use nqs_types::RequestId;

/// Asks a daemon, and writes its answer.
pub(crate) fn ask<M: Machine, S: Source, K: Sink>(
    station: &Station<'_>,
    errand: Errand,
    machine: &mut M,
    input: &mut S,
    out: &mut K,
) -> NqsStatus
    ensures { Uses (M.told machine.old) (M.told machine.new)
        (λ parts. DoesClient (place_at station.now) errand (fed S.left S.faults input.old input.new) (sunk K.taken K.faults K.stalls out.old out.new)
        parts result
        ⊎ Wants (seen M.D.tells (M.told machine.old) (M.told machine.new) (fed S.left S.faults input.old input.new)
        (sunk K.taken K.faults K.stalls out.old out.new)) parts result) }
{
    match machine.client(station.dir) {
        Err(end) => status_of_end(end),
        Ok((mut wire, port)) => {
            let status = client(
                station.alloc,
                station.me,
                errand,
                port,
                &mut wire,
                input,
                out,
            );
            machine.client_back(wire);
            status
        }
    }
}

fn status_of_shepherd(end: ShepherdEnd) -> NqsStatus
    ensures { result ≡ status_of_shepherd end }
{
    match end {
        ShepherdEnd::Told => NqsStatus::Done,
        ShepherdEnd::NoAnswer => NqsStatus::NoAnswer,
        ShepherdEnd::WireFault => NqsStatus::WireFault,
        ShepherdEnd::Unread(unread) => NqsStatus::Unread(unread),
        ShepherdEnd::Memory(memory) => NqsStatus::Memory(memory),
    }
}

/// Runs the job of a start, and tells the daemon its end.
pub(crate) fn tend<M: Machine>(
    station: &Station<'_>,
    machine: &mut M,
    id: RequestId,
    start: u16,
) -> NqsStatus
    requires id { is_sane_id id ≡ true }
    requires origin { is_of_site (length station.now.names.now) id.host ≡ true }
    ensures { Uses (M.told machine.old) (M.told machine.new)
        (λ parts. DoesShepherd (place_at station.now) id start parts result
        ⊎ (IsWanting (M.told machine.old).faults (M.told machine.new).faults result × (parts ≡ no_parts))) }
{
    match machine.shepherd(station.dir, station.me) {
        Err(end) => status_of_end(end),
        Ok(
            ShepherdParts {
                mut runner,
                mut wire,
                port,
            },
        ) => {
            let end = shepherd(
                station.alloc,
                station.names,
                station.me,
                id,
                start,
                port,
                &mut runner,
                &mut wire,
            );
            machine.shepherd_back(runner, wire);
            status_of_shepherd(end)
        }
    }
}
