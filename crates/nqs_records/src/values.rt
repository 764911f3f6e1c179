//! What its type says of a value of a record: names are names, and numbers fit. The functions read
//! the values and do nothing else: a caller cites one by calling it.

ghost use Rattle.std.specs.Prelude.{IsTrue};
ghost use Rattle.nqs_base.specs.Name.{IsName};
ghost use Rattle.nqs_rules.specs.Sane.{is_sane_job};
ghost use Rattle.nqs_records.specs.Values.{IsU8, IsU16, IsU32, IsU64, IsOpt, IsJob};

use nqs_base::{Name, name_stands};
use nqs_types::Job;

/// A byte.
pub fn byte_stands(byte: u8)
    ensures { IsU8 byte }
{}

/// A number of 16 bits.
pub fn short_number_stands(number: u16)
    ensures { IsU16 number }
{}

/// A number of 32 bits.
pub fn middle_number_stands(number: u32)
    ensures { IsU32 number }
{}

/// A number of 64 bits.
pub fn number_stands(number: u64)
    ensures { IsU64 number }
{}

/// A number of 64 bits that may be left out.
pub fn maybe_number_stands(number: &Option<u64>)
    ensures { IsOpt IsU64 number.now }
{
    match number {
        Some(number) => number_stands(*number),
        None => {}
    }
}

/// A name that may be left out.
pub fn maybe_name_stands(name: &Option<Name>)
    ensures { IsOpt IsName name.now }
{
    match name {
        Some(name) => name_stands(name),
        None => {}
    }
}

/// A job: one that the rules call sane has fields.
pub fn job_stands(job: &Job)
    ensures { IsTrue (is_sane_job job.now) → IsJob job.now }
{
    name_stands(&job.name);
    name_stands(&job.owner);
    number_stands(job.earliest);
    maybe_number_stands(&job.limits.cpu);
    maybe_number_stands(&job.limits.memory);
    maybe_name_stands(&job.forms);
}
