//! Requests, put at the end of a list. After `Memory` a part may stand there.

ghost use Rattle.std.specs.Prelude.{⊤, ◌≡◌, ◌∷◌, [], IsTrue};
ghost use Rattle.nqs_codec.specs.Fields.{u8_field, u16_field, u64_field, short_field, bool_field};
ghost use Rattle.nqs_records.specs.Adds.{Adds};
ghost use Rattle.nqs_records.specs.Spelling.{fields, opt_field, job_field};
ghost use Rattle.nqs_records.specs.Values.{IsJob, IsOpt, IsU64};
ghost use Rattle.nqs_rules.specs.Sane.{is_sane_job};
ghost use Rattle.nqs_base.specs.Name.{IsName};
ghost use Rattle.nqs_snapshot.specs.Spelling.{state_number, hold_number, refused_field, course_field, row_field};

use crate::field::put_list;
use crate::lists::InSnapshot;
use crate::put_queues::put_dest;
use nqs_base::{Memory, Name};
use nqs_codec::{put_bool, put_name, put_u8, put_u16, put_u64};
use nqs_records::{Put, job_stands, put_extent, put_id, put_job, put_opt_name};
use nqs_types::{Hold, Job, Refused, Row, RowState};

fn state_number(state: RowState) -> u8
    ensures { result ≡ state_number state }
{
    match state {
        RowState::Queued => 0,
        RowState::Routing => 1,
        RowState::Running => 2,
    }
}

fn hold_number(hold: Hold) -> u8
    ensures { result ≡ hold_number hold }
{
    match hold {
        Hold::No => 0,
        Hold::User => 1,
        Hold::System => 2,
    }
}

fn put_sane_job(job: &Job, out: &mut Vec<u8>) -> Result<(), Memory>
    requires { IsTrue (is_sane_job job.now) }
    ensures { Adds out.old.items (job_field job.now) result out.new.items }
{
    job_stands(job);
    put_job(job, out)
}

impl Put<InSnapshot> for Refused {
    ghost field = { refused_field };

    ghost IsPut = { λ _. ⊤ };

    #[tactic(auto, using(crate::proofs::Joined::joined), unfolding(crate::specs::Spelling::refused_field))]
    fn put(&self, out: &mut Vec<u8>) -> Result<(), Memory> {
        put_dest(self.dest, out)?;
        put_u8(self.cause, out)
    }
}

#[tactic(auto, using(crate::proofs::Joined::joined))]
fn put_standing(row: &Row, out: &mut Vec<u8>) -> Result<(), Memory>
    ensures { Adds out.old.items (fields (short_field row.now.queue ∷ u8_field (state_number row.now.state) ∷ u8_field (hold_number row.now.hold)
        ∷ u64_field row.now.arrival ∷ bool_field row.now.doomed ∷ [])) result out.new.items }
{
    put_name(&row.queue, out)?;
    put_u8(state_number(row.state), out)?;
    put_u8(hold_number(row.hold), out)?;
    put_u64(row.arrival, out)?;
    put_bool(row.doomed, out)
}

#[tactic(auto, using(crate::proofs::Joined::joined))]
fn put_counts(row: &Row, out: &mut Vec<u8>) -> Result<(), Memory>
    ensures { Adds out.old.items (fields (u16_field row.now.starts ∷ u16_field row.now.lost ∷ u8_field row.now.hops
        ∷ opt_field short_field row.now.device ∷ [])) result out.new.items }
{
    put_u16(row.starts, out)?;
    put_u16(row.lost, out)?;
    put_u8(row.hops, out)?;
    put_opt_name(&row.device, out)
}

#[tactic(auto, using(crate::proofs::Joined::joined), unfolding(crate::specs::Spelling::course_field))]
fn put_course(row: &Row, out: &mut Vec<u8>) -> Result<(), Memory>
    ensures { Adds out.old.items (course_field row.now) result out.new.items }
{
    put_standing(row, out)?;
    put_counts(row, out)
}

impl Put<InSnapshot> for Row {
    ghost field = { row_field };

    ghost IsPut = { λ r. IsTrue (is_sane_job r.job) };

    #[tactic(auto, using(crate::proofs::Joined::joined), unfolding(crate::specs::Spelling::row_field))]
    fn put(&self, out: &mut Vec<u8>) -> Result<(), Memory> {
        put_id(self.id, out)?;
        put_sane_job(&self.job, out)?;
        put_course(self, out)?;
        put_list(self.refused.as_slice(), out)?;
        put_extent(self.script, out)
    }
}
