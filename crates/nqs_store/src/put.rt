//! The bytes of a change, put into the spool before its record is written.

ghost use Rattle.std.specs.Prelude.{◌≡◌, drop, length, vec_capacity};
ghost use Rattle.nqs_spool.specs.Spooled.{room_of};
ghost use Rattle.nqs_records.specs.Changes.{MayStand};
ghost use Rattle.nqs_records.specs.Extents.{first_or, parts_with, with_extents};
ghost use Rattle.nqs_store.specs.PutCalls.{MayPut, MayPutFor, PutsAll, PutsFor, Prepares};

use crate::fault::StoreFault;
use crate::formatting::{read_back, written};
use nqs_base::{Bytes, Extent, Items};
use nqs_outside::{Disk, Failed};
use nqs_records::put_extents;
use nqs_spool::Spool;
use nqs_types::{Change, OutPart};
use std::alloc::Global;

/// Puts each list of bytes, no more than a script may have, and adds its extent. Room was made for
/// them in the spool and in the list. After a fault the spool is to be closed.
pub(crate) fn put_all<D: Disk>(
    spool: &mut Spool<D>,
    puts: &[Bytes],
    extents: &mut Vec<Extent>,
) -> Result<(), Failed>
    requires { MayPut (room_of spool.old) (length extents.old.items) (vec_capacity extents.old) puts.now }
    ensures { PutsAll spool.old spool.new puts.now extents.old.items extents.new.items result }
{
    let Some((put, later)) = puts.split_first() else {
        return Ok(());
    };
    match spool.put(put.as_slice()) {
        Err(_) => Err(Failed),
        Ok(extent) => {
            extents.push(extent).unwrap();
            put_all(spool, later, extents)
        }
    }
}

// The extent at the place of the list, and this one where there is none.
fn nth_or(extent: Extent, extents: &[Extent], place: usize) -> Extent
    ensures { result ≡ first_or extent (drop place extents.now) }
{
    match extents.get(place) {
        Some(found) => *found,
        None => extent,
    }
}

// The extents of the parts of a job's output.
fn set_part_extents(parts: &mut [OutPart], extents: &[Extent])
    ensures { parts.new ≡ parts_with parts.old extents.now }
{
    for place in 0..parts.len() {
        parts[place].bytes = nth_or(parts[place].bytes, extents, place);
    }
}

/// Sets the extents of a change, in order. It takes no memory.
pub(crate) fn set_extents(alloc: Global, change: &mut Change, extents: &[Extent])
    ensures { change.new ≡ with_extents change.old extents.now }
{
    match change {
        Change::Submitted { script, .. } => *script = nth_or(*script, extents, 0),
        Change::Ended { outputs, .. } => {
            let mut parts = std::mem::replace(outputs, Items::new(alloc)).into_vec();
            set_part_extents(parts.as_mut_slice(), extents);
            *outputs = Items::from_vec(parts);
        }
        Change::OldPromised { script, .. } => *script = nth_or(*script, extents, 0),
        Change::Promised { script, .. } => *script = nth_or(*script, extents, 0),
        Change::StageGot { bytes, .. } => *bytes = nth_or(*bytes, extents, 0),
        _ => {}
    }
}

/// The change's record, and memory for all that is put. It makes no call of a disk.
pub(crate) fn prepared<D: Disk>(
    alloc: Global,
    spool: &mut Spool<D>,
    change: &Change,
    puts: &[Bytes],
) -> Result<(Vec<u8>, Vec<Extent>), StoreFault>
    requires { MayStand change.now }
    ensures { Prepares spool.old spool.new change.now puts.now result }
{
    let text = written(alloc, change)?;
    spool.make_room(puts.len() as u64)?;
    let extents = Vec::with_capacity(alloc, puts.len())?;
    Ok((text, extents))
}

/// Puts the bytes into the spool, and their extents into the change and its record. After a fault
/// the spool is to be closed.
pub(crate) fn put_bytes<D: Disk>(
    alloc: Global,
    spool: &mut Spool<D>,
    change: &mut Change,
    puts: &[Bytes],
    extents: &mut Vec<Extent>,
    text: &mut Vec<u8>,
) -> Result<(), Failed>
    requires { MayPutFor (room_of spool.old) extents.old.items (vec_capacity extents.old) text.old.items change.old puts.now }
    ensures { PutsFor spool.old spool.new change.old change.new puts.now text.old.items text.new.items result }
{
    put_all(spool, puts, extents)?;
    set_extents(alloc, change, extents);
    put_extents(change, text);
    read_back(text, change);
    Ok(())
}
