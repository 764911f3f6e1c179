//! What of a job's outputs is kept.
ghost use Rattle.std.specs.Prelude.{◌≡◌, ◌+◌, ◌++◌, ◌≤◌, length, IfOk, OnOk};
ghost use Rattle.nqs_rules.specs.Tests.{last_u64};
ghost use Rattle.nqs_rules.specs.Stage.{part_to, parts_of, numbered};

use nqs_base::{Bytes, ListOf, Memory, copy_bytes};
use nqs_types::Job;
use std::alloc::Global;
use std::marker::Model;

/// One output of a job: the path that it goes to, and its bytes. Contracts see it as a part with
/// its bytes.
#[derive(Drop)]
pub(crate) struct Part {
    pub(crate) path: Bytes,
    pub(crate) bytes: Bytes,
}

impl Model for Part {
    ghost use Rattle.nqs_rules.specs.Stage.{Part as KeptPart};

    ghost Value = { KeptPart };

    ghost view = { λ p. record { path = p.path; bytes = p.bytes } };
}

// An output, only where it has bytes.
fn add_part(parts: &mut Vec<Part>, path: &Bytes, bytes: Bytes) -> Result<(), Memory>
    ensures { OnOk result (parts.new.items ≡ parts.old.items ++ part_to path.now bytes) }
{
    if bytes.as_slice().is_empty() {
        return Ok(());
    }
    let path = copy_bytes(path)?;
    parts.push(Part { path, bytes })?;
    Ok(())
}

// The bytes of one list and then of the other.
fn joined(alloc: Global, first: &Bytes, second: &Bytes) -> Result<Bytes, Memory>
    ensures { IfOk result (λ bytes. bytes ≡ first.now ++ second.now) }
{
    let mut bytes = Vec::from_slice(alloc, first.as_slice())?;
    bytes.extend_from_slice(second.as_slice())?;
    Ok(ListOf::from_vec(bytes))
}

/// The outputs of an ended job: one of both, the output first, or one of each. An output without
/// bytes is none.
pub(crate) fn parts_of(
    alloc: Global,
    job: &Job,
    out: &Bytes,
    err: &Bytes,
) -> Result<Vec<Part>, Memory>
    ensures { IfOk result (λ parts. parts.items ≡ parts_of job.now out.now err.now) }
{
    let mut parts = Vec::new(alloc);
    if job.join {
        add_part(&mut parts, &job.out, joined(alloc, out, err)?)?;
        return Ok(parts);
    }
    add_part(&mut parts, &job.out, copy_bytes(out)?)?;
    add_part(&mut parts, &job.err, copy_bytes(err)?)?;
    Ok(parts)
}

/// Drops the outputs that no number is left for, where the first gets the counter's number.
pub(crate) fn keep_numbered(parts: &mut Vec<Part>, counter: u64)
    ensures parts { parts.new.items ≡ numbered counter 0 parts.old.items }
    ensures few { counter + length parts.new.items ≤ last_u64 }
{
    let left = u64::MAX - counter;
    parts.truncate(left as usize);
}
