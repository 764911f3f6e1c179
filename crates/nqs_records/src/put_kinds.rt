//! Kinds of record, put at the end of a list: the kind's number and its fields. After `Memory` a
//! part may stand there.

ghost use Rattle.std.specs.Prelude.{◌≡◌, ◌∷◌, ◌++◌, []};
ghost use Rattle.std.specs.Prelude.{◌<◌, length, IsTrue};
ghost use Rattle.std.specs.List.{AllByRecursion};
ghost use Rattle.nqs_base.specs.Path.{IsPath};
ghost use Rattle.nqs_codec.specs.Fields.{u8_field, u64_field};
ghost use Rattle.nqs_types.specs.declared.change.Change.TheVariants.{Site, Submitted, Started, Ended, HandOpened, HandRefused, HandsSilent, OldPromised};
ghost use Rattle.nqs_types.specs.declared.change.Change.TheVariants.{Promised};
ghost use Rattle.nqs_types.specs.declared.change.Change.TheVariants.{MovedLocal, RefusedLocal, StageGot};
ghost use Rattle.nqs_records.specs.Adds.{Adds};
ghost use Rattle.nqs_records.specs.Changes.{spelling};
ghost use Rattle.nqs_records.specs.Spelling.{fields, id_field};
ghost use Rattle.nqs_records.specs.Values.{IsJob, IsCarried, IsPart};

use crate::put_lists::put_list;
use crate::put_parts::{put_carried, put_extent, put_id, put_job, put_opt_name};
use nqs_base::{Extent, Memory, Name};
use nqs_codec::{put_name, put_path, put_u8, put_u64};
use nqs_types::{Carried, HostId, Job, OutPart, PeerNumber, RequestId};

#[tactic(auto, using(crate::proofs::Joined::joined))]
pub(crate) fn put_with_id(kind: u8, id: RequestId, out: &mut Vec<u8>) -> Result<(), Memory>
    ensures { Adds out.old.items (fields (u8_field kind ∷ id_field id ∷ [])) result out.new.items }
{
    put_u8(kind, out)?;
    put_id(id, out)
}

#[tactic(auto, using(crate::proofs::Joined::joined))]
pub(crate) fn put_with_hand(
    kind: u8,
    peer: HostId,
    number: u64,
    out: &mut Vec<u8>,
) -> Result<(), Memory>
    ensures { Adds out.old.items (fields (u8_field kind ∷ u8_field peer.0 ∷ u64_field number ∷ [])) result out.new.items }
{
    put_u8(kind, out)?;
    put_u8(peer.0, out)?;
    put_u64(number, out)
}

#[tactic(auto, using(crate::proofs::Joined::joined), unfolding(crate::specs::Changes::spelling))]
pub(crate) fn put_site(me: HostId, site: &[Name], out: &mut Vec<u8>) -> Result<(), Memory>
    requires { length site.now < 256 }
    ensures { Adds out.old.items (spelling (Site me site.now)) result out.new.items }
{
    put_u8(1, out)?;
    put_u8(me.0, out)?;
    put_list(site, out)
}

#[tactic(auto, using(crate::proofs::Joined::joined), unfolding(crate::specs::Changes::spelling))]
pub(crate) fn put_submitted(
    queue: &Name,
    job: &Job,
    script: Extent,
    out: &mut Vec<u8>,
) -> Result<(), Memory>
    requires { IsJob job.now }
    ensures { Adds out.old.items (spelling (Submitted queue.now job.now script)) result out.new.items }
{
    put_u8(2, out)?;
    put_name(queue, out)?;
    put_job(job, out)?;
    put_extent(script, out)
}

#[tactic(auto, using(crate::proofs::Joined::joined), unfolding(crate::specs::Changes::spelling))]
pub(crate) fn put_started(
    id: RequestId,
    device: &Option<Name>,
    out: &mut Vec<u8>,
) -> Result<(), Memory>
    ensures { Adds out.old.items (spelling (Started id device.now)) result out.new.items }
{
    put_u8(5, out)?;
    put_id(id, out)?;
    put_opt_name(device, out)
}

#[tactic(auto, using(crate::proofs::Joined::joined), unfolding(crate::specs::Changes::spelling))]
pub(crate) fn put_ended(id: RequestId, outputs: &[OutPart], out: &mut Vec<u8>) -> Result<(), Memory>
    requires all { AllByRecursion IsPart outputs.now }
    requires few { length outputs.now < 256 }
    ensures { Adds out.old.items (spelling (Ended id outputs.now)) result out.new.items }
{
    put_u8(6, out)?;
    put_id(id, out)?;
    put_list(outputs, out)
}

#[tactic(auto, using(crate::proofs::Joined::joined), unfolding(crate::specs::Changes::spelling))]
pub(crate) fn put_hand_opened(
    peer: HostId,
    number: u64,
    id: RequestId,
    queue: &Name,
    since: u64,
    out: &mut Vec<u8>,
) -> Result<(), Memory>
    ensures { Adds out.old.items (spelling (HandOpened peer number id queue.now since)) result out.new.items }
{
    put_u8(10, out)?;
    put_u8(peer.0, out)?;
    put_u64(number, out)?;
    put_id(id, out)?;
    put_name(queue, out)?;
    put_u64(since, out)
}

#[tactic(auto, using(crate::proofs::Joined::joined), unfolding(crate::specs::Changes::spelling))]
pub(crate) fn put_hand_refused(
    peer: HostId,
    number: u64,
    cause: u8,
    out: &mut Vec<u8>,
) -> Result<(), Memory>
    ensures { Adds out.old.items (spelling (HandRefused peer number cause)) result out.new.items }
{
    put_u8(12, out)?;
    put_u8(peer.0, out)?;
    put_u64(number, out)?;
    put_u8(cause, out)
}

#[tactic(auto, using(crate::proofs::Joined::joined), unfolding(crate::specs::Changes::spelling))]
pub(crate) fn put_hands_silent(
    until: u64,
    hands: &[PeerNumber],
    out: &mut Vec<u8>,
) -> Result<(), Memory>
    requires { length hands.now < 256 }
    ensures { Adds out.old.items (spelling (HandsSilent until hands.now)) result out.new.items }
{
    put_u8(13, out)?;
    put_u64(until, out)?;
    put_list(hands, out)
}

#[tactic(auto, using(crate::proofs::Joined::joined), unfolding(crate::specs::Changes::spelling))]
pub(crate) fn put_old_promised(
    peer: HostId,
    number: u64,
    queue: &Name,
    carried: &Carried,
    script: Extent,
    out: &mut Vec<u8>,
) -> Result<(), Memory>
    requires { IsCarried carried.now }
    ensures { Adds out.old.items (spelling (OldPromised peer number queue.now carried.now script)) result out.new.items }
{
    put_u8(15, out)?;
    put_u8(peer.0, out)?;
    put_u64(number, out)?;
    put_name(queue, out)?;
    put_carried(carried, out)?;
    put_extent(script, out)
}

#[tactic(auto, using(crate::proofs::Joined::joined))]
fn put_with_low(number: u64, low: u64, out: &mut Vec<u8>) -> Result<(), Memory>
    ensures { Adds out.old.items (u64_field number ++ u64_field low) result out.new.items }
{
    put_u64(number, out)?;
    put_u64(low, out)
}

#[tactic(auto, using(crate::proofs::Joined::joined), unfolding(crate::specs::Changes::spelling))]
pub(crate) fn put_promised(
    peer: HostId,
    number: u64,
    low: u64,
    queue: &Name,
    carried: &Carried,
    script: Extent,
    out: &mut Vec<u8>,
) -> Result<(), Memory>
    requires { IsCarried carried.now }
    ensures { Adds out.old.items (spelling (Promised peer number low queue.now carried.now script)) result out.new.items }
{
    put_u8(24, out)?;
    put_u8(peer.0, out)?;
    put_with_low(number, low, out)?;
    put_name(queue, out)?;
    put_carried(carried, out)?;
    put_extent(script, out)
}

#[tactic(auto, using(crate::proofs::Joined::joined), unfolding(crate::specs::Changes::spelling))]
pub(crate) fn put_moved_local(id: RequestId, queue: &Name, out: &mut Vec<u8>) -> Result<(), Memory>
    ensures { Adds out.old.items (spelling (MovedLocal id queue.now)) result out.new.items }
{
    put_u8(18, out)?;
    put_id(id, out)?;
    put_name(queue, out)
}

#[tactic(auto, using(crate::proofs::Joined::joined), unfolding(crate::specs::Changes::spelling))]
pub(crate) fn put_refused_local(
    id: RequestId,
    queue: &Name,
    cause: u8,
    out: &mut Vec<u8>,
) -> Result<(), Memory>
    ensures { Adds out.old.items (spelling (RefusedLocal id queue.now cause)) result out.new.items }
{
    put_u8(19, out)?;
    put_id(id, out)?;
    put_name(queue, out)?;
    put_u8(cause, out)
}

#[tactic(auto, using(crate::proofs::Joined::joined), unfolding(crate::specs::Changes::spelling))]
pub(crate) fn put_stage_got(
    peer: HostId,
    number: u64,
    path: &[u8],
    bytes: Extent,
    out: &mut Vec<u8>,
) -> Result<(), Memory>
    requires { IsPath path.now }
    ensures { Adds out.old.items (spelling (StageGot peer number path.now bytes)) result out.new.items }
{
    put_u8(21, out)?;
    put_u8(peer.0, out)?;
    put_u64(number, out)?;
    put_path(path, out)?;
    put_extent(bytes, out)
}
