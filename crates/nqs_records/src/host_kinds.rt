//! Kinds of record that change the host itself and its files, and the edits.

ghost use Rattle.std.specs.Prelude.{◌≡◌};
ghost use Rattle.nqs_records.specs.Reading.{Answers};
ghost use Rattle.nqs_records.specs.Edits.{edit_at};
ghost use Rattle.nqs_records.specs.Tables.{by_code};
ghost use Rattle.nqs_records.specs.KindFields.{value_at};
ghost use Rattle.nqs_records.specs.KindTable.{host_kinds};
ghost use Rattle.nqs_records.specs.Kinds.{no_kind};

use crate::edit_kinds::read_edit_of;
use crate::fault::RecordFault;
use crate::field::{read_u8, read_u64};
use crate::lists::read_site_names;
use crate::part::read_host;
use nqs_types::{Change, Edit};
use std::alloc::Global;

#[tactic(auto, unfolding(crate::specs::KindTable::host_kinds, crate::specs::Tables::values_at))]
fn read_site(alloc: Global, bytes: &[u8], place: u64) -> Result<(Change, u64), RecordFault>
    ensures { Answers (by_code value_at host_kinds 1 no_kind bytes.now place) result }
{
    let (me, place) = read_host(bytes, place)?;
    let (site, place) = read_site_names(alloc, bytes, place, me)?;
    Ok((Change::Site { me, site }, place))
}

#[tactic(auto, unfolding(crate::specs::Edits::edit_at))]
fn read_edit(bytes: &[u8], place: u64) -> Result<(Edit, u64), RecordFault>
    ensures { result ≡ edit_at bytes.now place }
{
    let (code, next) = read_u8(bytes, place)?;
    read_edit_of(code, bytes, next, place)
}

#[tactic(auto, unfolding(crate::specs::KindTable::host_kinds, crate::specs::Tables::values_at))]
pub(crate) fn read_host_kind(
    alloc: Global,
    kind: u8,
    bytes: &[u8],
    place: u64,
) -> Result<(Change, u64), RecordFault>
    ensures { Answers (by_code value_at host_kinds kind no_kind bytes.now place) result }
{
    match kind {
        1 => read_site(alloc, bytes, place),
        8 => Ok((Change::Boot, place)),
        9 => {
            let (edit, place) = read_edit(bytes, place)?;
            Ok((Change::Edited(edit), place))
        }
        23 => {
            let (file, place) = read_u64(bytes, place)?;
            Ok((Change::FileGone { file }, place))
        }
        _ => Err(RecordFault::Kind(0)),
    }
}
