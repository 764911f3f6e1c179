//! What records are made of, put at the end of a list. After `Memory` a part of it may stand there.

ghost use Rattle.std.specs.Prelude.{◌≡◌, ◌∷◌, []};
ghost use Rattle.nqs_codec.specs.Fields.{u8_field, u16_field, u64_field, short_field, bool_field};
ghost use Rattle.nqs_records.specs.Adds.{Adds};
ghost use Rattle.nqs_records.specs.Spelling.{fields, opt_field, id_field, extent_field, job_field, carried_field, part_field, hand_field};
ghost use Rattle.nqs_records.specs.Values.{IsJob, IsCarried, IsPart};

use nqs_base::{Extent, Memory, Name};
use nqs_codec::{put_bool, put_name, put_path, put_u8, put_u16, put_u32, put_u64};
use nqs_types::{Carried, Job, OutPart, PeerNumber, RequestId};

/// Puts a number of eight bytes that may be left out.
#[tactic(auto, using(crate::proofs::Joined::joined))]
pub fn put_opt_u64(value: &Option<u64>, out: &mut Vec<u8>) -> Result<(), Memory>
    ensures { Adds out.old.items (opt_field u64_field value.now) result out.new.items }
{
    let Some(value) = value else {
        put_bool(false, out)?;
        return Ok(());
    };
    put_bool(true, out)?;
    put_u64(*value, out)
}

/// Puts a name that may be left out.
#[tactic(auto, using(crate::proofs::Joined::joined))]
pub fn put_opt_name(value: &Option<Name>, out: &mut Vec<u8>) -> Result<(), Memory>
    ensures { Adds out.old.items (opt_field short_field value.now) result out.new.items }
{
    let Some(value) = value else {
        put_bool(false, out)?;
        return Ok(());
    };
    put_bool(true, out)?;
    put_name(value, out)
}

/// Puts the name of a request.
#[tactic(auto, using(crate::proofs::Joined::joined), unfolding(crate::specs::Spelling::id_field))]
pub fn put_id(id: RequestId, out: &mut Vec<u8>) -> Result<(), Memory>
    ensures { Adds out.old.items (id_field id) result out.new.items }
{
    put_u32(id.seq, out)?;
    put_u8(id.host.0, out)
}

/// Puts a range of a spool.
#[tactic(auto, using(crate::proofs::Joined::joined), unfolding(crate::specs::Spelling::extent_field))]
pub fn put_extent(extent: Extent, out: &mut Vec<u8>) -> Result<(), Memory>
    ensures { Adds out.old.items (extent_field extent) result out.new.items }
{
    put_u64(extent.place, out)?;
    put_u32(extent.length, out)
}

#[tactic(auto, using(crate::proofs::Joined::joined), unfolding(crate::specs::Spelling::hand_field))]
pub(crate) fn put_hand(hand: PeerNumber, out: &mut Vec<u8>) -> Result<(), Memory>
    ensures { Adds out.old.items (hand_field hand) result out.new.items }
{
    put_u8(hand.peer.0, out)?;
    put_u64(hand.number, out)
}

#[tactic(auto, using(crate::proofs::Joined::joined), unfolding(crate::specs::Spelling::part_field))]
pub(crate) fn put_part(part: &OutPart, out: &mut Vec<u8>) -> Result<(), Memory>
    requires { IsPart part.now }
    ensures { Adds out.old.items (part_field part.now) result out.new.items }
{
    put_path(part.path.as_slice(), out)?;
    put_extent(part.bytes, out)
}

#[tactic(auto, using(crate::proofs::Joined::joined))]
fn put_job_head(job: &Job, out: &mut Vec<u8>) -> Result<(), Memory>
    ensures { Adds out.old.items (fields (short_field job.now.name ∷ short_field job.now.owner ∷ u8_field job.now.priority ∷ u64_field job.now.earliest
        ∷ bool_field job.now.rerun ∷ [])) result out.new.items }
{
    put_name(&job.name, out)?;
    put_name(&job.owner, out)?;
    put_u8(job.priority, out)?;
    put_u64(job.earliest, out)?;
    put_bool(job.rerun, out)
}

#[tactic(auto, using(crate::proofs::Joined::joined))]
fn put_job_tail(job: &Job, out: &mut Vec<u8>) -> Result<(), Memory>
    requires { IsJob job.now }
    ensures { Adds out.old.items (fields (opt_field u64_field job.now.limits.cpu ∷ opt_field u64_field job.now.limits.memory
        ∷ opt_field short_field job.now.forms ∷ short_field job.now.out ∷ short_field job.now.err ∷ bool_field job.now.join ∷ [])) result out.new.items }
{
    put_opt_u64(&job.limits.cpu, out)?;
    put_opt_u64(&job.limits.memory, out)?;
    put_opt_name(&job.forms, out)?;
    put_path(job.out.as_slice(), out)?;
    put_path(job.err.as_slice(), out)?;
    put_bool(job.join, out)
}

/// Puts a job.
#[tactic(auto, using(crate::proofs::Joined::joined), unfolding(crate::specs::Spelling::job_field))]
pub fn put_job(job: &Job, out: &mut Vec<u8>) -> Result<(), Memory>
    requires { IsJob job.now }
    ensures { Adds out.old.items (job_field job.now) result out.new.items }
{
    put_job_head(job, out)?;
    put_job_tail(job, out)
}

/// Puts a request on its way.
#[tactic(auto, using(crate::proofs::Joined::joined), unfolding(crate::specs::Spelling::carried_field))]
pub fn put_carried(carried: &Carried, out: &mut Vec<u8>) -> Result<(), Memory>
    requires { IsCarried carried.now }
    ensures { Adds out.old.items (carried_field carried.now) result out.new.items }
{
    put_id(carried.id, out)?;
    put_job(&carried.job, out)?;
    put_u16(carried.starts, out)?;
    put_u16(carried.lost, out)?;
    put_u8(carried.hops, out)
}
