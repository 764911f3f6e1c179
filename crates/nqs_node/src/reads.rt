//! The bytes of outputs are read from the spool, before anything is kept.

ghost use Rattle.std.specs.Prelude.{◌≡◌, length};
ghost use Rattle.nqs_rules.specs.Edits.{change_at};
ghost use Rattle.nqs_rules.specs.Stepped.{sent_with, with_bytes};
ghost use Rattle.nqs_store.specs.Reads.{of_spool};
ghost use Rattle.nqs_store.specs.Stores.{AsksAtMost};
ghost use Rattle.nqs_node.specs.Fills.{FillsOne, Fills, ReadsSpool};

use nqs_base::Bytes;
use nqs_outside::Disk;
use nqs_store::{Store, StoreFault};
use nqs_types::{Body, Output, PlanRead};
use std::alloc::Global;

fn send_with(body: &mut Body, read: Bytes)
    ensures { body.new ≡ sent_with read body.old }
{
    match body {
        Body::Offer { script, .. } => *script = read,
        Body::Stage { bytes, .. } => *bytes = read,
        _ => {}
    }
}

fn fill(output: &mut Output, read: Bytes)
    ensures { output.new ≡ with_bytes read output.old }
{
    match output {
        Output::Launch { script, .. } => *script = read,
        Output::Print { script, .. } => *script = read,
        Output::File { bytes, .. } => *bytes = read,
        Output::Send(message) => send_with(&mut message.body, read),
        _ => {}
    }
}

// Gives the output of a place its bytes.
fn fill_at(outputs: &mut Vec<Output>, place: usize, read: Bytes)
    ensures filled { outputs.new.items ≡ change_at place (with_bytes read) outputs.old.items }
    ensures as_many { length outputs.new.items ≡ length outputs.old.items }
{
    if place < outputs.len() {
        let output = &mut outputs[place];
        fill(output, read);
    }
}

// Reads the bytes of one output.
fn read_one<D: Disk>(
    alloc: Global,
    store: &mut Store<D>,
    read: &PlanRead,
    outputs: &mut Vec<Output>,
) -> Result<(), StoreFault>
    ensures spool { ReadsSpool store.old store.new result }
    ensures fills { FillsOne store.old read.now outputs.old.items outputs.new.items result }
    ensures once { AsksAtMost store.old store.new (of_spool 1) }
{
    let mut bytes = Vec::new(alloc);
    match store.script(&read.extent, &mut bytes) {
        Err(fault) => Err(fault),
        Ok(()) => {
            fill_at(outputs, read.output, Bytes::from_vec(bytes));
            Ok(())
        }
    }
}

/// Reads the bytes of outputs, each at its place. It makes no call that is counted, and keeps
/// nothing.
pub(crate) fn read_all<D: Disk>(
    alloc: Global,
    store: &mut Store<D>,
    reads: &[PlanRead],
    outputs: &mut Vec<Output>,
) -> Result<(), StoreFault>
    ensures spool { ReadsSpool store.old store.new result }
    ensures fills { Fills store.old reads.now outputs.old.items outputs.new.items result }
    // The spool is asked once for each, and no other disk.
    ensures asks { AsksAtMost store.old store.new (of_spool (length reads.now)) }
{
    for read in reads {
        read_one(alloc, store, read, outputs)?;
    }
    Ok(())
}
