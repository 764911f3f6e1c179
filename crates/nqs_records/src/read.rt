//! A whole record, read as a change.

ghost use Rattle.std.specs.Prelude.{◌≡◌, ◌≢◌, IfOk, IfErr};
ghost use Rattle.nqs_records.specs.Reading.{Answers};
ghost use Rattle.nqs_records.specs.Kinds.{change_at, record_of};
ghost use Rattle.nqs_records.specs.Changes.{ReadsTheSpelling, IsSpelledBy, SpellsNone, WhatMayStandIsSane};
ghost use Rattle.nqs_records.specs.Faults.{FirstFaults};
ghost use Rattle.nqs_records.specs.declared.fault.RecordFault.TheVariants.{Memory};
ghost use Rattle.nqs_base.specs.Want.{want};

use crate::fault::RecordFault;
use crate::field::read_u8;
use crate::lists::{InRecord, Read, read_alone};
use crate::request_kinds::read_kind;
use nqs_types::Change;
use std::alloc::Global;

impl Read<InRecord> for Change {
    ghost at = { change_at };

    #[tactic(auto, unfolding(crate::specs::Kinds::change_at))]
    fn read(alloc: Global, bytes: &[u8], place: u64) -> Result<(Change, u64), RecordFault> {
        let (kind, place) = read_u8(bytes, place)?;
        read_kind(alloc, kind, bytes, place)
    }
}

#[tactic(auto, unfolding(crate::specs::Kinds::record_of))]
fn read_record(alloc: Global, bytes: &[u8]) -> Result<Change, RecordFault>
    ensures { Answers (record_of bytes.now) result }
{
    read_alone::<InRecord, Change>(alloc, bytes, 0)
}

/// Reads the whole list as one record. A fault other than `Memory` is the first from the left, as
/// `record_of` says it.
pub fn read_change(alloc: Global, bytes: &[u8]) -> Result<Change, RecordFault>
    ensures answer { Answers (record_of bytes.now) result }
    ensures ok { IfOk result (IsSpelledBy bytes.now) }
    ensures none { IfErr result (λ fault. fault ≢ Memory want → SpellsNone bytes.now) }
{
    read_record(alloc, bytes)
}

/// Bytes are read as a change exactly where they are its spelling and its values are within their
/// limits: a law, which callers call for its contract.
pub fn reads_the_spelling()
    ensures { ReadsTheSpelling }
{}

/// Which bytes have which first fault, apart from how they are read. A fault other than that they
/// are short is one whatever follows them, so that with no bytes behind them are they a change; and
/// a change that is cut off is short: a law.
pub fn first_faults()
    ensures { FirstFaults }
{}

/// A change that may stand in a record is one that the rules call sane: a law, which callers call
/// for its contract.
pub fn what_may_stand_is_sane()
    ensures { WhatMayStandIsSane }
{}
