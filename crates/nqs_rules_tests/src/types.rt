//! The containers and the room of a host's state, each call once.

use nqs_base::{Items, ListOf, Memory, Name, NameFault, Spare};
use nqs_base_tables::Table;
use nqs_builders::{NOTHING, add, host, job};
use nqs_state::HostState;
use nqs_types::{Change, DeviceDef};
use std::alloc::Global;
use std::test::Fail;

fn name(bytes: &[u8]) -> Result<Name, NameFault> {
    Name::read(bytes)
}

fn device(bytes: &[u8], enabled: bool) -> Result<DeviceDef, NameFault> {
    Ok(DeviceDef {
        name: name(bytes)?,
        forms: name(b"plain")?,
        enabled,
    })
}

fn names_of(alloc: Global, table: &Table<Name, DeviceDef>) -> Result<Vec<u8>, Memory> {
    let mut text = Vec::new(alloc);
    for place in 0..table.len() {
        if let Some(def) = table.get_at(place) {
            text.extend_from_slice(def.name.as_bytes())?;
            text.push(b' ')?;
        }
    }
    Ok(text)
}

// Bytes, and why they are no name, if they are none.
static NAMES: [(&[u8], Option<NameFault>); 6] = [
    (b"a", None),
    (b"abcdefghij-1_45", None),
    (b"", Some(NameFault::Empty)),
    (b"abcdefghijklmnop", Some(NameFault::Long)),
    (b"9x", Some(NameFault::BadByte(0))),
    (b"x.y", Some(NameFault::BadByte(1))),
];

#[test]
fn names(rt: HostRuntime) {
    for (bytes, fault) in &NAMES {
        assert_eq!(rt; Name::read(bytes).err(), *fault);
    }
}

fn fill(devices: &mut Table<Name, DeviceDef>) -> Result<(), Fail> {
    for bytes in [b"d1".as_slice(), b"d2", b"d3"] {
        add(devices, device(bytes, false)?)?;
    }
    Ok(())
}

// The names of three devices, of which the first is removed.
fn without_first(alloc: Global, devices: &mut Table<Name, DeviceDef>) -> Result<Vec<u8>, Fail> {
    fill(devices)?;
    devices.remove_key(&name(b"d1")?);
    Ok(names_of(alloc, devices)?)
}

fn kept_names(alloc: Global) -> Result<Vec<u8>, Fail> {
    let mut devices = Table::new(alloc);
    without_first(alloc, &mut devices)
}

#[test]
fn removal_keeps_the_order(rt: HostRuntime) -> Result<(), Fail> {
    let alloc = rt.alloc();
    let kept = kept_names(alloc)?;
    assert_eq!(rt; kept.as_slice(), b"d2 d3 ".as_slice());
    Ok(())
}

// Five devices, of which the second left.
fn without_second(devices: &mut Table<Name, DeviceDef>) -> Result<(), Fail> {
    for bytes in [b"d1".as_slice(), b"d2", b"d3", b"d4", b"d5"] {
        add(devices, device(bytes, false)?)?;
    }
    devices.remove_key(&name(b"d2")?);
    Ok(())
}

// The places of the first, the second and the last.
fn three_places(devices: &Table<Name, DeviceDef>) -> Result<[Option<usize>; 3], NameFault> {
    let first = name(b"d1")?;
    let second = name(b"d2")?;
    let last = name(b"d5")?;
    Ok([
        devices.place(&first),
        devices.place(&second),
        devices.place(&last),
    ])
}

fn places_left(alloc: Global) -> Result<[Option<usize>; 3], Fail> {
    let mut devices = Table::new(alloc);
    without_second(&mut devices)?;
    Ok(three_places(&devices)?)
}

#[test]
fn what_left_has_no_place(rt: HostRuntime) -> Result<(), Fail> {
    let places = places_left(rt.alloc())?;
    assert_eq!(rt; places, [Some(0), None, Some(3)]);
    Ok(())
}

// The names once the second is there again, and the first left by its place.
fn returned(alloc: Global, devices: &mut Table<Name, DeviceDef>) -> Result<Vec<u8>, Fail> {
    without_second(devices)?;
    add(devices, device(b"d2", true)?)?;
    if devices.len() == 5 {
        let _first = devices.remove(0);
    }
    Ok(names_of(alloc, devices)?)
}

fn names_returned(alloc: Global) -> Result<Vec<u8>, Fail> {
    let mut devices = Table::new(alloc);
    returned(alloc, &mut devices)
}

#[test]
fn what_returns_is_last(rt: HostRuntime) -> Result<(), Fail> {
    let names = names_returned(rt.alloc())?;
    assert_eq!(rt; names.as_slice(), b"d3 d4 d5 d2 ".as_slice());
    Ok(())
}

// Puts 3 behind two items, in memory that was kept.
fn grow(spare: &mut Spare<u8>, list: &mut ListOf<u8>) -> Result<(), Memory> {
    spare.reserve(2)?;
    if list.len() == 2 {
        *list = spare.grown(list.as_slice(), 3);
    }
    Ok(())
}

// Takes each 2 out, and puts 9 in the second place.
fn thin(list: &mut ListOf<u8>) {
    list.keep(|item| *item != 2);
    if list.len() > 1 {
        list.replace(1, 9);
    }
}

fn is_copied(list: &ListOf<u8>, wanted: &[u8]) -> Result<bool, Memory> {
    let copy = list.clone()?;
    Ok(copy.as_slice() == wanted)
}

// Whether a list is as it should be once it is grown, and a copy of it once it is thinned.
fn changed(spare: &mut Spare<u8>, list: &mut ListOf<u8>) -> Result<[bool; 2], Memory> {
    grow(spare, list)?;
    let grown = list.as_slice() == [1, 2, 3].as_slice();
    thin(list);
    Ok([grown, is_copied(list, [1, 9].as_slice())?])
}

fn changed_list(alloc: Global) -> Result<[bool; 2], Memory> {
    let mut list = ListOf::from_vec([1, 2].to_vec(alloc)?);
    let mut spare = Spare::new(alloc);
    changed(&mut spare, &mut list)
}

#[test]
fn lists(rt: HostRuntime) {
    let changed = changed_list(rt.alloc());
    assert_eq!(rt; changed, Ok([true, true]));
}

// How many lists a copy has, and how long the first is.
fn counted(alloc: Global, items: &mut Items<ListOf<u8>>) -> Result<(usize, Option<usize>), Memory> {
    items.push(ListOf::new(alloc))?;
    let copies = items.clone()?.len();
    Ok((copies, items.as_slice().first().map(|first| first.len())))
}

fn list_of_lists(alloc: Global) -> Result<(usize, Option<usize>), Memory> {
    let mut items = Items::of(alloc, ListOf::of(alloc, 5)?)?;
    counted(alloc, &mut items)
}

#[test]
fn lists_of_lists(rt: HostRuntime) {
    let counts = list_of_lists(rt.alloc());
    assert_eq!(rt; counts, Ok((2, Some(1))));
}

fn submission(alloc: Global, queue: Name, owner: Name) -> Change {
    Change::Submitted {
        queue,
        job: job(alloc, owner),
        script: NOTHING,
    }
}

// Whether there is room for a change, and how many requests the host has then.
fn room(state: &mut HostState, change: &Change) -> (Result<(), Memory>, usize) {
    (state.make_room(change), state.rows.len())
}

fn room_for(alloc: Global, change: Change) -> (Result<(), Memory>, usize) {
    let mut state = host(alloc);
    let made = room(&mut state, &change);
    drop(state);
    made
}

#[test]
fn room_is_made(rt: HostRuntime) -> Result<(), Fail> {
    let alloc = rt.alloc();
    let (batch, ann) = (name(b"batch")?, name(b"ann")?);
    let made = room_for(alloc, submission(alloc, batch, ann));
    assert_eq!(rt; made, (Ok(()), 0));
    Ok(())
}
