//! Edits, put at the end of a list: a code and the arguments. After `Memory` a part of it may stand
//! there.

ghost use Rattle.std.specs.Prelude.{◌≡◌, ◌∷◌, []};
ghost use Rattle.nqs_codec.specs.Fields.{u8_field, u64_field, short_field};
ghost use Rattle.nqs_records.specs.Adds.{Adds};
ghost use Rattle.nqs_records.specs.Spelling.{fields, opt_field, flag_field, dest_field, named_field};

use crate::put_parts::put_opt_u64;
use nqs_base::{Memory, Name};
use nqs_codec::{put_bool, put_name, put_u8, put_u32, put_u64};
use nqs_types::{Named, NamedDest};

// A flag: the number 1, or nothing.
#[tactic(auto, unfolding(crate::specs::Spelling::flag_field))]
fn put_flag(is_set: bool, out: &mut Vec<u8>) -> Result<(), Memory>
    ensures { Adds out.old.items (flag_field is_set) result out.new.items }
{
    let number = if is_set { Some(1) } else { None };
    put_opt_u64(&number, out)
}

#[tactic(auto, using(crate::proofs::Joined::joined), unfolding(crate::specs::Spelling::dest_field))]
fn put_dest(dest: NamedDest, out: &mut Vec<u8>) -> Result<(), Memory>
    ensures { Adds out.old.items (dest_field dest) result out.new.items }
{
    put_name(&dest.queue, out)?;
    put_name(&dest.host, out)
}

#[tactic(auto, using(crate::proofs::Joined::joined), unfolding(crate::specs::Spelling::named_field))]
fn put_named(named: Named, out: &mut Vec<u8>) -> Result<(), Memory>
    ensures { Adds out.old.items (named_field named) result out.new.items }
{
    put_u32(named.seq, out)?;
    put_name(&named.host, out)
}

#[tactic(auto, using(crate::proofs::Joined::joined))]
fn put_opt_dest(value: Option<NamedDest>, out: &mut Vec<u8>) -> Result<(), Memory>
    ensures { Adds out.old.items (opt_field dest_field value) result out.new.items }
{
    let Some(value) = value else {
        put_bool(false, out)?;
        return Ok(());
    };
    put_bool(true, out)?;
    put_dest(value, out)
}

#[tactic(auto, using(crate::proofs::Joined::joined))]
pub(crate) fn put_code(code: u8, out: &mut Vec<u8>) -> Result<(), Memory>
    ensures { Adds out.old.items (fields (u8_field code ∷ [])) result out.new.items }
{
    put_u8(code, out)
}

#[tactic(auto, using(crate::proofs::Joined::joined))]
pub(crate) fn put_with_name(code: u8, name: Name, out: &mut Vec<u8>) -> Result<(), Memory>
    ensures { Adds out.old.items (fields (u8_field code ∷ short_field name ∷ [])) result out.new.items }
{
    put_u8(code, out)?;
    put_name(&name, out)
}

#[tactic(auto, using(crate::proofs::Joined::joined))]
pub(crate) fn put_with_names(
    code: u8,
    first: Name,
    second: Name,
    out: &mut Vec<u8>,
) -> Result<(), Memory>
    ensures { Adds out.old.items (fields (u8_field code ∷ short_field first ∷ short_field second ∷ [])) result out.new.items }
{
    put_u8(code, out)?;
    put_name(&first, out)?;
    put_name(&second, out)
}

#[tactic(auto, using(crate::proofs::Joined::joined))]
pub(crate) fn put_with_number(code: u8, number: u64, out: &mut Vec<u8>) -> Result<(), Memory>
    ensures { Adds out.old.items (fields (u8_field code ∷ u64_field number ∷ [])) result out.new.items }
{
    put_u8(code, out)?;
    put_u64(number, out)
}

#[tactic(auto, using(crate::proofs::Joined::joined))]
pub(crate) fn put_with_number_and_name(
    code: u8,
    number: u64,
    name: Name,
    out: &mut Vec<u8>,
) -> Result<(), Memory>
    ensures { Adds out.old.items (fields (u8_field code ∷ u64_field number ∷ short_field name ∷ [])) result out.new.items }
{
    put_u8(code, out)?;
    put_u64(number, out)?;
    put_name(&name, out)
}

#[tactic(auto, using(crate::proofs::Joined::joined))]
pub(crate) fn put_with_limit(
    code: u8,
    limit: Option<u64>,
    queue: Name,
    out: &mut Vec<u8>,
) -> Result<(), Memory>
    ensures { Adds out.old.items (fields (u8_field code ∷ opt_field u64_field limit ∷ short_field queue ∷ [])) result out.new.items }
{
    put_u8(code, out)?;
    put_opt_u64(&limit, out)?;
    put_name(&queue, out)
}

#[tactic(auto, using(crate::proofs::Joined::joined))]
pub(crate) fn put_with_dest(
    code: u8,
    dest: NamedDest,
    queue: Name,
    out: &mut Vec<u8>,
) -> Result<(), Memory>
    ensures { Adds out.old.items (fields (u8_field code ∷ dest_field dest ∷ short_field queue ∷ [])) result out.new.items }
{
    put_u8(code, out)?;
    put_dest(dest, out)?;
    put_name(&queue, out)
}

#[tactic(auto, using(crate::proofs::Joined::joined))]
pub(crate) fn put_with_request(code: u8, request: Named, out: &mut Vec<u8>) -> Result<(), Memory>
    ensures { Adds out.old.items (fields (u8_field code ∷ named_field request ∷ [])) result out.new.items }
{
    put_u8(code, out)?;
    put_named(request, out)
}

#[tactic(auto, using(crate::proofs::Joined::joined))]
pub(crate) fn put_with_request_and_name(
    code: u8,
    request: Named,
    queue: Name,
    out: &mut Vec<u8>,
) -> Result<(), Memory>
    ensures { Adds out.old.items (fields (u8_field code ∷ named_field request ∷ short_field queue ∷ [])) result out.new.items }
{
    put_u8(code, out)?;
    put_named(request, out)?;
    put_name(&queue, out)
}

#[tactic(auto, using(crate::proofs::Joined::joined))]
pub(crate) fn put_with_request_and_number(
    code: u8,
    request: Named,
    number: u64,
    out: &mut Vec<u8>,
) -> Result<(), Memory>
    ensures { Adds out.old.items (fields (u8_field code ∷ named_field request ∷ u64_field number ∷ [])) result out.new.items }
{
    put_u8(code, out)?;
    put_named(request, out)?;
    put_u64(number, out)
}

#[tactic(auto, using(crate::proofs::Joined::joined))]
pub(crate) fn put_created(
    code: u8,
    queue: Name,
    priority: Option<u64>,
    run_limit: Option<u64>,
    pipe_only: bool,
    out: &mut Vec<u8>,
) -> Result<(), Memory>
    ensures { Adds out.old.items (fields (u8_field code ∷ short_field queue ∷ opt_field u64_field priority ∷ opt_field u64_field run_limit
        ∷ flag_field pipe_only ∷ [])) result out.new.items }
{
    put_u8(code, out)?;
    put_name(&queue, out)?;
    put_opt_u64(&priority, out)?;
    put_opt_u64(&run_limit, out)?;
    put_flag(pipe_only, out)
}

#[tactic(auto, using(crate::proofs::Joined::joined))]
pub(crate) fn put_pipe_created(
    queue: Name,
    priority: Option<u64>,
    run_limit: Option<u64>,
    pipe_only: bool,
    destination: Option<NamedDest>,
    out: &mut Vec<u8>,
) -> Result<(), Memory>
    ensures { Adds out.old.items (fields (u8_field 3 ∷ short_field queue ∷ opt_field u64_field priority ∷ opt_field u64_field run_limit ∷ flag_field pipe_only
        ∷ opt_field dest_field destination ∷ [])) result out.new.items }
{
    put_u8(3, out)?;
    put_name(&queue, out)?;
    put_opt_u64(&priority, out)?;
    put_opt_u64(&run_limit, out)?;
    put_flag(pipe_only, out)?;
    put_opt_dest(destination, out)
}
