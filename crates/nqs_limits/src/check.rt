//! Why an edit of limits or complexes is refused.
ghost use Rattle.std.specs.Prelude.{◌≡◌, ◌∷◌, [], not};
ghost use Rattle.nqs_state.specs.State.{content};
ghost use Rattle.nqs_types.specs.declared.edit.LimitsEdit.{LimitsEdit};
ghost use Rattle.nqs_types.specs.declared.refusal.Refusal.TheVariants as refusal;
ghost use Rattle.nqs_rules.specs.Causes.{cause, first_refusal};
ghost use Rattle.nqs_rules.specs.Limits.{complex_causes, is_batch_queue, limits_causes, lists_queue};

use nqs_access::known_queue;
use nqs_base::{Name, has_name};
use nqs_state::HostState;
use nqs_types::{ComplexDef, Kind, LimitsEdit, QueueDef, Refusal};

fn known_complex(state: &HostState, complex: &Name) -> Result<(), Refusal>
    ensures { result ≡ first_refusal (complex_causes complex.now (content state.now)) }
{
    if !state.complexes.has(complex) {
        return Err(Refusal::NoComplex(*complex));
    }
    Ok(())
}

fn check_create(state: &HostState, complex: &Name) -> Result<(), Refusal>
    ensures { result ≡ first_refusal (limits_causes (LimitsEdit.CreateComplex complex.now) (content state.now)) }
{
    if state.complexes.has(complex) {
        return Err(Refusal::ComplexExists(*complex));
    }
    if state.complexes.len() >= 64 {
        return Err(Refusal::TooMany);
    }
    Ok(())
}

fn is_batch_queue(def: &QueueDef) -> bool
    ensures { result ≡ is_batch_queue def.now }
{
    match def.kind {
        Kind::Batch => true,
        Kind::Device => false,
        Kind::Pipe => false,
    }
}

fn lists_queue(complex: &ComplexDef, queue: &Name) -> bool
    ensures { result ≡ lists_queue queue.now complex.now }
{
    has_name(complex.queues.as_slice(), queue)
}

// Why the queue isn't added to the complex.
fn check_new_member(complex: &ComplexDef, def: &QueueDef, queue: &Name) -> Result<(), Refusal>
    ensures { result ≡ first_refusal (cause (not (is_batch_queue def.now)) refusal.WrongKind ∷ cause (lists_queue queue.now complex.now) refusal.IsMember
        ∷ []) }
{
    if !is_batch_queue(def) {
        return Err(Refusal::WrongKind);
    }
    if lists_queue(complex, queue) {
        return Err(Refusal::IsMember);
    }
    Ok(())
}

// Why the queue isn't taken out of the complex.
fn check_member(complex: &ComplexDef, queue: &Name) -> Result<(), Refusal>
    ensures { result ≡ first_refusal (cause (not (lists_queue queue.now complex.now)) refusal.NotMember ∷ []) }
{
    if !lists_queue(complex, queue) {
        return Err(Refusal::NotMember);
    }
    Ok(())
}

fn check_add_queue(state: &HostState, queue: &Name, complex: &Name) -> Result<(), Refusal>
    ensures { result ≡ first_refusal (limits_causes (LimitsEdit.AddQueue queue.now complex.now) (content state.now)) }
{
    match state.complexes.get(complex) {
        None => Err(Refusal::NoComplex(*complex)),
        Some(members) => match state.queues.get(queue) {
            None => Err(Refusal::NoQueue(*queue)),
            Some(def) => check_new_member(members, def, queue),
        },
    }
}

fn check_remove_queue(state: &HostState, queue: &Name, complex: &Name) -> Result<(), Refusal>
    ensures { result ≡ first_refusal (limits_causes (LimitsEdit.RemoveQueue queue.now complex.now) (content state.now)) }
{
    match state.complexes.get(complex) {
        None => Err(Refusal::NoComplex(*complex)),
        Some(members) => check_member(members, queue),
    }
}

/// Whether the edit may be made: `Ok`, or the first of these that holds. A limit of a queue:
/// `NoQueue`. A complex that is created: `ComplexExists`, `TooMany` at 64; one that is named:
/// `NoComplex`. A queue that is added to it: then `NoQueue`, `WrongKind` for all but batch queues,
/// `IsMember`; one that is removed: `NotMember`. The global limit is never refused.
pub fn check_limits(state: &HostState, edit: &LimitsEdit) -> Result<(), Refusal>
    ensures { result ≡ first_refusal (limits_causes edit.now (content state.now)) }
{
    match edit {
        LimitsEdit::SetUserLimit { queue, .. } => known_queue(state, queue),
        LimitsEdit::SetCpuLimit { queue, .. } => known_queue(state, queue),
        LimitsEdit::SetMemoryLimit { queue, .. } => known_queue(state, queue),
        LimitsEdit::CreateComplex { complex } => check_create(state, complex),
        LimitsEdit::DeleteComplex { complex } => known_complex(state, complex),
        LimitsEdit::AddQueue { queue, complex } => check_add_queue(state, queue, complex),
        LimitsEdit::RemoveQueue { queue, complex } => check_remove_queue(state, queue, complex),
        LimitsEdit::SetComplexLimit { complex, .. } => known_complex(state, complex),
        LimitsEdit::SetGlobalLimit { .. } => Ok(()),
    }
}
