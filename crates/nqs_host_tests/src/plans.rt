//! Each call that takes memory, once.

use nqs_base::{Bytes, Extent, Items, ListOf, Memory, Name, copy_bytes};
use nqs_base_tables::Table;
use nqs_builders::{add, job, text};
use nqs_plans::{add_kept, change_storing, copy_carried, copy_job, fold_each, no_extent, says};
use nqs_types::{Carried, Change, DeviceDef, HostId, Job, Output, Plan, PlanRead, RequestId};
use std::alloc::Global;
use std::rt::HostRuntime;

const REQUEST: RequestId = RequestId {
    seq: 1,
    host: HostId(0),
};

fn plot() -> Name {
    match Name::read(b"plot") {
        Ok(name) => name,
        Err(_) => unreachable!(),
    }
}

fn plain() -> Name {
    match Name::read(b"plain") {
        Ok(name) => name,
        Err(_) => unreachable!(),
    }
}

fn first(items: &Items<Bytes>) -> &[u8] {
    match items.as_slice().first() {
        Some(bytes) => bytes.as_slice(),
        None => &[],
    }
}

fn carried(job: Job) -> Carried {
    Carried {
        id: REQUEST,
        job,
        starts: 2,
        lost: 1,
        hops: 3,
    }
}

fn set_paths(alloc: Global, job: &mut Job) -> Result<(), Memory> {
    job.out = text(alloc, b"o.1")?;
    job.err = text(alloc, b"e.1")?;
    Ok(())
}

fn job_with_paths(alloc: Global) -> Result<Job, Memory> {
    let mut job = job(alloc, plain());
    job.name = plot();
    set_paths(alloc, &mut job)?;
    Ok(job)
}

// Whether the copy of a job has its paths, of which the first is copied once more.
fn keeps_paths(job: &Job) -> Result<[bool; 2], Memory> {
    let copy = copy_job(job)?;
    let path = copy_bytes(&copy.out)?;
    Ok([
        path.as_slice() == b"o.1".as_slice(),
        copy.err.as_slice() == b"e.1".as_slice(),
    ])
}

// The counts of the copy of what is carried, and whether its job has its paths.
fn copied(carried: &Carried) -> Result<((u16, u16, u8), [bool; 2]), Memory> {
    let copy = copy_carried(carried)?;
    let paths = keeps_paths(&copy.job)?;
    Ok(((copy.starts, copy.lost, copy.hops), paths))
}

fn copied_once(alloc: Global) -> Result<((u16, u16, u8), [bool; 2]), Memory> {
    let carried = carried(job_with_paths(alloc)?);
    copied(&carried)
}

#[test]
fn copies_are_the_same(rt: HostRuntime) {
    let copied = copied_once(rt.alloc());
    assert_eq!(rt; copied, Ok(((2, 1, 3), [true, true])));
}

const EXTENT: Extent = Extent {
    place: 7,
    length: 3,
};

// How many outputs the plan has, and whether all that it reads is the second one's extent.
fn kept_place(plan: &Plan) -> (usize, bool) {
    let read = PlanRead {
        output: 1,
        extent: EXTENT,
    };
    let reads = plan.reads.as_slice() == [read].as_slice();
    (plan.outputs.len(), reads)
}

fn two_outputs(alloc: Global) -> Result<(usize, bool), Memory> {
    let plan = says(alloc, Output::Again(REQUEST))?;
    let plan = add_kept(plan, Output::Lost(REQUEST), EXTENT)?;
    Ok(kept_place(&plan))
}

#[test]
fn outputs_keep_their_places(rt: HostRuntime) {
    let kept = two_outputs(rt.alloc());
    assert_eq!(rt; kept, Ok((2, true)));
}

fn got(alloc: Global) -> Change {
    Change::StageGot {
        peer: HostId(1),
        number: 5,
        path: ListOf::new(alloc),
        bytes: no_extent(),
    }
}

// Whether the plan stores these bytes first, with the change of a stage that came.
fn stores(plan: &Plan) -> [bool; 2] {
    let change = matches!(plan.change, Some(Change::StageGot { number: 5, .. }));
    [first(&plan.puts) == b"date".as_slice(), change]
}

fn stored(alloc: Global) -> Result<[bool; 2], Memory> {
    let bytes = text(alloc, b"date")?;
    let plan = change_storing(alloc, got(alloc), bytes)?;
    Ok(stores(&plan))
}

#[test]
fn bytes_are_stored(rt: HostRuntime) {
    let stored = stored(rt.alloc());
    assert_eq!(rt; stored, Ok([true, true]));
}

fn device(name: Name) -> DeviceDef {
    DeviceDef {
        name,
        forms: plain(),
        enabled: true,
    }
}

fn add_name(text: Bytes, device: &DeviceDef) -> Result<Bytes, Memory> {
    let mut text = text.into_vec();
    text.extend_from_slice(device.name.as_bytes())?;
    Ok(ListOf::from_vec(text))
}

fn names(alloc: Global, devices: &mut Table<Name, DeviceDef>) -> Result<Bytes, Memory> {
    add(devices, device(plot()))?;
    add(devices, device(plain()))?;
    fold_each(
        ListOf::new(alloc),
        devices,
        |text: Bytes, device: &DeviceDef| add_name(text, device),
    )
}

fn two_names(alloc: Global) -> Result<Bytes, Memory> {
    let mut devices = Table::new(alloc);
    names(alloc, &mut devices)
}

#[test]
fn values_come_in_order(rt: HostRuntime) -> Result<(), Memory> {
    let names = two_names(rt.alloc())?;
    assert_eq!(rt; names.as_slice(), b"plotplain".as_slice());
    Ok(())
}
