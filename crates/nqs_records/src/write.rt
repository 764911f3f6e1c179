//! A change, written as a record.

ghost use Rattle.nqs_codec.specs.Puts.{Puts};
ghost use Rattle.nqs_records.specs.Adds.{Adds};
ghost use Rattle.nqs_records.specs.Changes.{MayStand, spelling};
ghost use Rattle.nqs_types.specs.declared.change.Change.TheVariants.{Boot, Edited, FileGone};

use crate::put_edits::put_edit;
use crate::put_kinds::{
    put_ended, put_hand_opened, put_hand_refused, put_hands_silent, put_moved_local,
    put_old_promised, put_promised, put_refused_local, put_site, put_stage_got, put_started,
    put_submitted, put_with_hand, put_with_id,
};
use nqs_base::Memory;
use nqs_codec::{put_u8, put_u64};
use nqs_types::{Change, Edit};
use std::alloc::Global;

#[tactic(auto, using(crate::proofs::Joined::joined), unfolding(crate::specs::Changes::spelling))]
fn put_edited(edit: Edit, out: &mut Vec<u8>) -> Result<(), Memory>
    ensures { Adds out.old.items (spelling (Edited edit)) result out.new.items }
{
    put_u8(9, out)?;
    put_edit(edit, out)
}

#[tactic(auto, using(crate::proofs::Joined::joined), unfolding(crate::specs::Changes::spelling))]
fn put_file_gone(file: u64, out: &mut Vec<u8>) -> Result<(), Memory>
    ensures { Adds out.old.items (spelling (FileGone file)) result out.new.items }
{
    put_u8(23, out)?;
    put_u64(file, out)
}

#[tactic(auto, using(crate::proofs::Joined::joined), unfolding(crate::specs::Changes::spelling))]
fn put_boot(out: &mut Vec<u8>) -> Result<(), Memory>
    ensures { Adds out.old.items (spelling Boot) result out.new.items }
{
    put_u8(8, out)
}

// The longer half of the kinds are handed to functions of their own.
#[tactic(auto, unfolding(crate::specs::Changes::spelling))]
fn put_change(change: &Change, out: &mut Vec<u8>) -> Result<(), Memory>
    requires { MayStand change.now }
    ensures { Adds out.old.items (spelling change.now) result out.new.items }
{
    match change {
        Change::Site { me, site } => put_site(*me, site.as_slice(), out),
        Change::Submitted { queue, job, script } => put_submitted(queue, job, *script, out),
        Change::Deleted(id) => put_with_id(3, *id, out),
        Change::Doomed(id) => put_with_id(4, *id, out),
        Change::Started { id, device } => put_started(*id, device, out),
        Change::Ended { id, outputs } => put_ended(*id, outputs.as_slice(), out),
        Change::Unlaunched(id) => put_with_id(7, *id, out),
        Change::Boot => put_boot(out),
        Change::Edited(edit) => put_edited(*edit, out),
        Change::HandOpened {
            peer,
            number,
            id,
            queue,
            since,
        } => put_hand_opened(*peer, *number, *id, queue, *since, out),
        Change::HandCommitted { peer, number } => put_with_hand(11, *peer, *number, out),
        Change::HandRefused {
            peer,
            number,
            cause,
        } => put_hand_refused(*peer, *number, *cause, out),
        Change::HandsSilent { until, hands } => put_hands_silent(*until, hands.as_slice(), out),
        Change::HandDone { peer, number } => put_with_hand(14, *peer, *number, out),
        Change::OldPromised {
            peer,
            number,
            queue,
            carried,
            script,
        } => put_old_promised(*peer, *number, queue, carried, *script, out),
        Change::Promised {
            peer,
            number,
            low,
            queue,
            carried,
            script,
        } => put_promised(*peer, *number, *low, queue, carried, *script, out),
        Change::Accepted { peer, number } => put_with_hand(16, *peer, *number, out),
        Change::Dropped { peer, number } => put_with_hand(17, *peer, *number, out),
        Change::MovedLocal { id, queue } => put_moved_local(*id, queue, out),
        Change::RefusedLocal { id, queue, cause } => put_refused_local(*id, queue, *cause, out),
        Change::HeldFar(id) => put_with_id(20, *id, out),
        Change::StageGot {
            peer,
            number,
            path,
            bytes,
        } => put_stage_got(*peer, *number, path.as_slice(), *bytes, out),
        Change::StageGone { peer, number } => put_with_hand(22, *peer, *number, out),
        Change::FileGone { file } => put_file_gone(*file, out),
    }
}

/// Adds the one spelling of a change whose values are within their limits. `Memory` leaves the list
/// as it was.
pub fn write_change(alloc: Global, change: &Change, out: &mut Vec<u8>) -> Result<(), Memory>
    requires { MayStand change.now }
    ensures { Puts out.old.items (spelling change.now) result out.new.items }
{
    let mut record = Vec::new(alloc);
    put_change(change, &mut record)?;
    out.extend_from_slice(record.as_slice())?;
    Ok(())
}
