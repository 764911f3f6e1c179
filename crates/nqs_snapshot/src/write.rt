//! A whole state, written at the end of a list.

ghost use Rattle.std.specs.Prelude.{◌≡◌, IsTrue, Ok, OnOk};
ghost use Rattle.std.specs.List.{AllByRecursion};
ghost use Rattle.nqs_codec.specs.Puts.{Puts};
ghost use Rattle.nqs_records.specs.Adds.{Adds};
ghost use Rattle.nqs_rules.specs.InOrder.{IsInOrder, IsConsistent};
ghost use Rattle.nqs_rules.specs.Sane.{is_sane_job};
ghost use Rattle.nqs_base.specs.Path.{is_path};
ghost use Rattle.nqs_state.specs.State.{content};
ghost use Rattle.nqs_snapshot.specs.Spelling.{site_part, request_part, dealing_part, counter_part, state_field};
ghost use Rattle.nqs_snapshot.specs.Values.{MayStand};
ghost use Rattle.nqs_snapshot.specs.Reading.{snapshot_of};
ghost use Rattle.nqs_snapshot.specs.Sound.{HasShortParts};

use crate::field::{put_list, put_table};
use crate::typed::state_stands;
use nqs_base::Memory;
use nqs_codec::{put_u8, put_u16, put_u32, put_u64};
use nqs_records::put_opt_name;
use nqs_state::HostState;
use std::alloc::Global;

#[tactic(auto, using(crate::proofs::Joined::joined), unfolding(crate::specs::Spelling::site_part))]
fn put_site(state: &HostState, out: &mut Vec<u8>) -> Result<(), Memory>
    ensures { Adds out.old.items (site_part (content state.now)) result out.new.items }
{
    put_u8(state.me.0, out)?;
    put_list(state.site.as_slice(), out)?;
    put_table(&state.queues, out)?;
    put_table(&state.complexes, out)?;
    put_table(&state.devices, out)
}

#[tactic(auto, using(crate::proofs::Joined::joined), unfolding(crate::specs::Spelling::request_part))]
fn put_requests(state: &HostState, out: &mut Vec<u8>) -> Result<(), Memory>
    requires rows { AllByRecursion (λ r. IsTrue (is_sane_job r.job)) state.now.rows.items }
    requires promises { AllByRecursion (λ p. IsTrue (is_sane_job p.row.job)) state.now.promises.items }
    ensures { Adds out.old.items (request_part (content state.now)) result out.new.items }
{
    put_table(state.rows.table(), out)?;
    put_table(&state.hands, out)?;
    put_table(&state.promises, out)
}

#[tactic(auto, using(crate::proofs::Joined::joined), unfolding(crate::specs::Spelling::dealing_part))]
fn put_dealings(state: &HostState, out: &mut Vec<u8>) -> Result<(), Memory>
    requires stages { AllByRecursion (λ t. IsTrue (is_path t.path)) state.now.stages.items }
    requires files { AllByRecursion (λ f. IsTrue (is_path f.path)) state.now.files.items }
    ensures { Adds out.old.items (dealing_part (content state.now)) result out.new.items }
{
    put_table(&state.stages, out)?;
    put_table(&state.files, out)?;
    put_list(state.managers.as_slice(), out)?;
    put_list(state.operators.as_slice(), out)
}

#[tactic(auto, using(crate::proofs::Joined::joined), unfolding(crate::specs::Spelling::counter_part))]
fn put_counters(state: &HostState, out: &mut Vec<u8>) -> Result<(), Memory>
    ensures { Adds out.old.items (counter_part (content state.now)) result out.new.items }
{
    put_opt_name(&state.default_queue, out)?;
    put_u16(state.global_limit, out)?;
    put_u64(state.patience, out)?;
    put_u64(state.retry_wait, out)?;
    put_u32(state.seq, out)?;
    put_u64(state.arrivals, out)?;
    put_u64(state.file_next, out)
}

#[tactic(auto, using(crate::proofs::Joined::joined), unfolding(crate::specs::Spelling::state_by))]
fn put_state(state: &HostState, out: &mut Vec<u8>) -> Result<(), Memory>
    requires { IsInOrder (content state.now) }
    ensures { Adds out.old.items (state_field (content state.now)) result out.new.items }
{
    put_site(state, out)?;
    put_requests(state, out)?;
    put_list(state.peers.as_slice(), out)?;
    put_dealings(state, out)?;
    put_counters(state, out)
}

// What was written of a state from which a host goes on is read as it.
fn spelling_reads_back(state: &HostState, spelling: &[u8])
    requires order { IsInOrder (content state.now) }
    requires stands { HasShortParts (content state.now) → MayStand (content state.now) }
    requires written { spelling.now ≡ state_field (content state.now) }
    ensures { IsConsistent (content state.now) → HasShortParts (content state.now)
        → snapshot_of (state_field (content state.now)) ≡ Ok (content state.now) }
{}

/// Adds the one spelling of a state in order. `Memory` leaves the list as it was. What is written
/// of a consistent state with short scripts and outputs reads back as it.
pub fn write_state(alloc: Global, state: &HostState, out: &mut Vec<u8>) -> Result<(), Memory>
    requires { IsInOrder (content state.now) }
    ensures written { Puts out.old.items (state_field (content state.now)) result out.new.items }
    ensures stands { HasShortParts (content state.now) → MayStand (content state.now) }
    ensures reads_back { OnOk result (IsConsistent (content state.now) → HasShortParts (content state.now)
        → snapshot_of (state_field (content state.now)) ≡ Ok (content state.now)) }
{
    state_stands(state);
    let mut spelling = Vec::new(alloc);
    put_state(state, &mut spelling)?;
    spelling_reads_back(state, spelling.as_slice());
    out.extend_from_slice(spelling.as_slice())?;
    Ok(())
}
