//! Queues, complexes and devices, put at the end of a list. After `Memory` a part may stand there.

ghost use Rattle.std.specs.Prelude.{⊤, ◌≡◌, ◌∷◌, []};
ghost use Rattle.nqs_codec.specs.Fields.{u8_field, u16_field, short_field, bool_field};
ghost use Rattle.nqs_records.specs.Adds.{Adds};
ghost use Rattle.nqs_records.specs.Spelling.{fields, opt_field};
ghost use Rattle.nqs_snapshot.specs.Spelling.{kind_number, access_field, limits_field, dest_field, settings_field, queue_field, complex_field, device_field};

use crate::field::put_list;
use crate::lists::InSnapshot;
use nqs_base::{Memory, Name};
use nqs_codec::{put_bool, put_name, put_u8, put_u16};
use nqs_records::{Put, put_opt_u64};
use nqs_types::{Access, ComplexDef, Dest, DeviceDef, Kind, Limits, QueueDef};

fn kind_number(kind: Kind) -> u8
    ensures { result ≡ kind_number kind }
{
    match kind {
        Kind::Batch => 0,
        Kind::Device => 1,
        Kind::Pipe => 2,
    }
}

#[tactic(auto, using(crate::proofs::Joined::joined))]
fn put_opt_u16(value: Option<u16>, out: &mut Vec<u8>) -> Result<(), Memory>
    ensures { Adds out.old.items (opt_field u16_field value) result out.new.items }
{
    let Some(value) = value else {
        put_bool(false, out)?;
        return Ok(());
    };
    put_bool(true, out)?;
    put_u16(value, out)
}

#[tactic(auto, using(crate::proofs::Joined::joined), unfolding(crate::specs::Spelling::limits_field))]
fn put_limits(limits: &Limits, out: &mut Vec<u8>) -> Result<(), Memory>
    ensures { Adds out.old.items (limits_field limits.now) result out.new.items }
{
    put_opt_u64(&limits.cpu, out)?;
    put_opt_u64(&limits.memory, out)
}

#[tactic(auto, using(crate::proofs::Joined::joined), unfolding(crate::specs::Spelling::dest_field))]
pub(crate) fn put_dest(dest: Dest, out: &mut Vec<u8>) -> Result<(), Memory>
    ensures { Adds out.old.items (dest_field dest) result out.new.items }
{
    put_name(&dest.queue, out)?;
    put_u8(dest.host.0, out)
}

#[tactic(auto, using(crate::proofs::Joined::joined), unfolding(crate::specs::Spelling::access_field))]
fn put_access(access: &Access, out: &mut Vec<u8>) -> Result<(), Memory>
    ensures { Adds out.old.items (access_field access.now) result out.new.items }
{
    match access {
        Access::All => {
            put_u8(0, out)?;
            Ok(())
        }
        Access::Users(users) => {
            put_u8(1, out)?;
            put_list(users.as_slice(), out)
        }
    }
}

#[tactic(auto, using(crate::proofs::Joined::joined))]
fn put_switches(def: &QueueDef, out: &mut Vec<u8>) -> Result<(), Memory>
    ensures { Adds out.old.items (fields (short_field def.now.name ∷ u8_field (kind_number def.now.kind) ∷ bool_field def.now.enabled
        ∷ bool_field def.now.started ∷ bool_field def.now.pipe_only ∷ [])) result out.new.items }
{
    put_name(&def.name, out)?;
    put_u8(kind_number(def.kind), out)?;
    put_bool(def.enabled, out)?;
    put_bool(def.started, out)?;
    put_bool(def.pipe_only, out)
}

#[tactic(auto, using(crate::proofs::Joined::joined))]
fn put_bounds(def: &QueueDef, out: &mut Vec<u8>) -> Result<(), Memory>
    ensures { Adds out.old.items (fields (u8_field def.now.priority ∷ u16_field def.now.run_limit ∷ opt_field u16_field def.now.user_limit
        ∷ limits_field def.now.limits ∷ [])) result out.new.items }
{
    put_u8(def.priority, out)?;
    put_u16(def.run_limit, out)?;
    put_opt_u16(def.user_limit, out)?;
    put_limits(&def.limits, out)
}

#[tactic(auto, using(crate::proofs::Joined::joined), unfolding(crate::specs::Spelling::settings_field))]
fn put_settings(def: &QueueDef, out: &mut Vec<u8>) -> Result<(), Memory>
    ensures { Adds out.old.items (settings_field def.now) result out.new.items }
{
    put_switches(def, out)?;
    put_bounds(def, out)
}

impl Put<InSnapshot> for Name {
    ghost field = { short_field };

    ghost IsPut = { λ _. ⊤ };

    fn put(&self, out: &mut Vec<u8>) -> Result<(), Memory> {
        put_name(self, out)?;
        Ok(())
    }
}

impl Put<InSnapshot> for Dest {
    ghost field = { dest_field };

    ghost IsPut = { λ _. ⊤ };

    fn put(&self, out: &mut Vec<u8>) -> Result<(), Memory> {
        put_dest(*self, out)
    }
}

impl Put<InSnapshot> for QueueDef {
    ghost field = { queue_field };

    ghost IsPut = { λ _. ⊤ };

    #[tactic(auto, using(crate::proofs::Joined::joined), unfolding(crate::specs::Spelling::queue_field))]
    fn put(&self, out: &mut Vec<u8>) -> Result<(), Memory> {
        put_settings(self, out)?;
        put_access(&self.access, out)?;
        put_list(self.dests.as_slice(), out)?;
        put_list(self.devices.as_slice(), out)
    }
}

impl Put<InSnapshot> for ComplexDef {
    ghost field = { complex_field };

    ghost IsPut = { λ _. ⊤ };

    #[tactic(auto, using(crate::proofs::Joined::joined), unfolding(crate::specs::Spelling::complex_field))]
    fn put(&self, out: &mut Vec<u8>) -> Result<(), Memory> {
        put_name(&self.name, out)?;
        put_u16(self.limit, out)?;
        put_list(self.queues.as_slice(), out)
    }
}

impl Put<InSnapshot> for DeviceDef {
    ghost field = { device_field };

    ghost IsPut = { λ _. ⊤ };

    #[tactic(auto, using(crate::proofs::Joined::joined), unfolding(crate::specs::Spelling::device_field))]
    fn put(&self, out: &mut Vec<u8>) -> Result<(), Memory> {
        put_name(&self.name, out)?;
        put_name(&self.forms, out)?;
        put_bool(self.enabled, out)
    }
}
