//! Queues, complexes and devices, read at a place of bytes.

ghost use Rattle.std.specs.Prelude.{◌≡◌};
ghost use Rattle.nqs_records.specs.Reading.{Answers};
ghost use Rattle.nqs_records.specs.Fields.{u16_at, name_at, opt_at};
ghost use Rattle.nqs_snapshot.specs.Readings.{many_at, kind_of, kind_at, access_at, limits_at, dest_at, settings_at, queue_at, complex_at, device_at};

use crate::lists::{InSnapshot, read_list};
use nqs_base::Name;
use nqs_records::{
    Read, RecordFault, read_bool, read_host, read_name, read_opt_u64, read_u8_at_most, read_u16,
};
use nqs_types::{Access, ComplexDef, Dest, DeviceDef, Kind, Limits, QueueDef};
use std::alloc::Global;

// A queue, but for its lists.
#[derive(Clone, Copy)]
pub(crate) struct Settings {
    name: Name,
    kind: Kind,
    enabled: bool,
    started: bool,
    pipe_only: bool,
    priority: u8,
    run_limit: u16,
    user_limit: Option<u16>,
    limits: Limits,
}

fn kind_of(number: u8) -> Kind
    ensures { result ≡ kind_of number }
{
    match number {
        0 => Kind::Batch,
        1 => Kind::Device,
        _ => Kind::Pipe,
    }
}

#[tactic(auto, unfolding(crate::specs::Readings::kind_at))]
fn read_kind(bytes: &[u8], place: u64) -> Result<(Kind, u64), RecordFault>
    ensures { result ≡ kind_at bytes.now place }
{
    let (number, next) = read_u8_at_most(bytes, place, 2)?;
    Ok((kind_of(number), next))
}

#[tactic(auto, using(crate::proofs::Opt::opt_is))]
fn read_opt_u16(bytes: &[u8], place: u64) -> Result<(Option<u16>, u64), RecordFault>
    ensures { result ≡ opt_at u16_at bytes.now place }
{
    let (is_there, next) = read_bool(bytes, place)?;
    if !is_there {
        return Ok((None, next));
    }
    let (value, end) = read_u16(bytes, next)?;
    Ok((Some(value), end))
}

#[tactic(auto, unfolding(crate::specs::Readings::limits_at))]
fn read_limits(bytes: &[u8], place: u64) -> Result<(Limits, u64), RecordFault>
    ensures { result ≡ limits_at bytes.now place }
{
    let (cpu, next) = read_opt_u64(bytes, place)?;
    let (memory, end) = read_opt_u64(bytes, next)?;
    Ok((Limits { cpu, memory }, end))
}

#[tactic(auto, using(crate::proofs::Opt::opt_is), unfolding(crate::specs::Readings::access_at))]
fn read_access(alloc: Global, bytes: &[u8], place: u64) -> Result<(Access, u64), RecordFault>
    ensures { Answers (access_at bytes.now place) result }
{
    let (is_there, next) = read_bool(bytes, place)?;
    if !is_there {
        return Ok((Access::All, next));
    }
    let (users, end) = read_list(alloc, bytes, next)?;
    Ok((Access::Users(users), end))
}

#[tactic(auto, unfolding(crate::specs::Readings::settings_at))]
fn read_settings(bytes: &[u8], place: u64) -> Result<(Settings, u64), RecordFault>
    ensures { result ≡ settings_at bytes.now place }
{
    let (name, place) = read_name(bytes, place)?;
    let (kind, place) = read_kind(bytes, place)?;
    let (enabled, place) = read_bool(bytes, place)?;
    let (started, place) = read_bool(bytes, place)?;
    let (pipe_only, place) = read_bool(bytes, place)?;
    let (priority, place) = read_u8_at_most(bytes, place, 63)?;
    let (run_limit, place) = read_u16(bytes, place)?;
    let (user_limit, place) = read_opt_u16(bytes, place)?;
    let (limits, place) = read_limits(bytes, place)?;
    let settings = Settings {
        name,
        kind,
        enabled,
        started,
        pipe_only,
        priority,
        run_limit,
        user_limit,
        limits,
    };
    Ok((settings, place))
}

impl Read<InSnapshot> for Name {
    ghost at = { name_at };

    fn read(_alloc: Global, bytes: &[u8], place: u64) -> Result<(Name, u64), RecordFault> {
        read_name(bytes, place)
    }
}

#[tactic(auto, unfolding(crate::specs::Readings::dest_at))]
pub(crate) fn read_dest(bytes: &[u8], place: u64) -> Result<(Dest, u64), RecordFault>
    ensures { result ≡ dest_at bytes.now place }
{
    let (queue, next) = read_name(bytes, place)?;
    let (host, end) = read_host(bytes, next)?;
    Ok((Dest { queue, host }, end))
}

impl Read<InSnapshot> for Dest {
    ghost at = { dest_at };

    fn read(_alloc: Global, bytes: &[u8], place: u64) -> Result<(Dest, u64), RecordFault> {
        read_dest(bytes, place)
    }
}

impl Read<InSnapshot> for QueueDef {
    ghost at = { queue_at };

    #[tactic(auto, unfolding(crate::specs::Readings::queue_at))]
    fn read(alloc: Global, bytes: &[u8], place: u64) -> Result<(QueueDef, u64), RecordFault> {
        let (settings, place) = read_settings(bytes, place)?;
        let (access, place) = read_access(alloc, bytes, place)?;
        let (dests, place) = read_list(alloc, bytes, place)?;
        let (devices, place) = read_list(alloc, bytes, place)?;
        let queue = QueueDef {
            name: settings.name,
            kind: settings.kind,
            enabled: settings.enabled,
            started: settings.started,
            pipe_only: settings.pipe_only,
            priority: settings.priority,
            run_limit: settings.run_limit,
            user_limit: settings.user_limit,
            limits: settings.limits,
            access,
            dests,
            devices,
        };
        Ok((queue, place))
    }
}

impl Read<InSnapshot> for ComplexDef {
    ghost at = { complex_at };

    #[tactic(auto, unfolding(crate::specs::Readings::complex_at))]
    fn read(alloc: Global, bytes: &[u8], place: u64) -> Result<(ComplexDef, u64), RecordFault> {
        let (name, place) = read_name(bytes, place)?;
        let (limit, place) = read_u16(bytes, place)?;
        let (queues, place) = read_list(alloc, bytes, place)?;
        let complex = ComplexDef {
            name,
            limit,
            queues,
        };
        Ok((complex, place))
    }
}

impl Read<InSnapshot> for DeviceDef {
    ghost at = { device_at };

    #[tactic(auto, unfolding(crate::specs::Readings::device_at))]
    fn read(_alloc: Global, bytes: &[u8], place: u64) -> Result<(DeviceDef, u64), RecordFault> {
        let (name, place) = read_name(bytes, place)?;
        let (forms, place) = read_name(bytes, place)?;
        let (enabled, place) = read_bool(bytes, place)?;
        let device = DeviceDef {
            name,
            forms,
            enabled,
        };
        Ok((device, place))
    }
}
