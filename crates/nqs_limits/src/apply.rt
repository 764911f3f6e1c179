//! What an edit of limits or complexes makes of a host's state.
ghost use Rattle.std.specs.Prelude.{◌≡◌, ◌<◌, false, IsTrue, Ok};
ghost use Rattle.nqs_state.specs.Room.{HasRoomForLimits};
ghost use Rattle.nqs_state.specs.State.{content};
ghost use Rattle.nqs_types.specs.declared.edit.LimitsEdit.{LimitsEdit};
ghost use Rattle.nqs_rules.specs.Causes.{first_refusal};
ghost use Rattle.nqs_rules.specs.Conf.{at_most};
ghost use Rattle.nqs_rules.specs.Edits.{change_queue};
ghost use Rattle.nqs_rules.specs.Find.{has_complex};
ghost use Rattle.nqs_rules.specs.Limits.{is_limits_within, limits_applied, limits_causes, limits_edited, new_complex};

use nqs_access::drop_name;
use nqs_base::{ListOf, Name};
use nqs_state::HostState;
use nqs_types::{ComplexDef, LimitsEdit, QueueDef};

fn user_limit_of(typed: Option<u64>) -> Option<u16>
    requires { IsTrue (at_most 10000 typed) }
    ensures { result ≡ typed }
{
    match typed {
        None => None,
        Some(limit) => Some(limit as u16),
    }
}

// What an edit makes of its queue.
fn limits_edited(def: &mut QueueDef, edit: &LimitsEdit)
    requires { IsTrue (is_limits_within edit.now) }
    ensures { def.new ≡ limits_edited edit.now def.old }
{
    match edit {
        LimitsEdit::SetUserLimit { limit, .. } => def.user_limit = user_limit_of(*limit),
        LimitsEdit::SetCpuLimit { limit, .. } => def.limits.cpu = *limit,
        LimitsEdit::SetMemoryLimit { limit, .. } => def.limits.memory = *limit,
        _ => {}
    }
}

fn edit_queue(state: &mut HostState, queue: &Name, edit: &LimitsEdit)
    requires { IsTrue (is_limits_within edit.now) }
    ensures { content state.new ≡ change_queue queue.now (limits_edited edit.now) (content state.old) }
{
    state
        .queues
        .change(queue, |def: &mut QueueDef| limits_edited(def, edit));
}

fn create_complex(state: &mut HostState, complex: Name)
    requires room { 0 < state.old.complexes.spare }
    requires absent { has_complex complex (content state.old) ≡ false }
    ensures { content state.new ≡ limits_applied (LimitsEdit.CreateComplex complex) (content state.old) }
{
    let queues = ListOf::new(state.complexes.allocator());
    state.complexes.push(ComplexDef {
        name: complex,
        limit: 1,
        queues,
    });
}

fn add_queue(state: &mut HostState, queue: Name, complex: &Name)
    requires room { HasRoomForLimits (LimitsEdit.AddQueue queue complex.now) state.old }
    ensures { content state.new ≡ limits_applied (LimitsEdit.AddQueue queue complex.now) (content state.old) }
{
    let queues = match state.complexes.get(complex) {
        Some(members) => state.spare_names.grown(members.queues.as_slice(), queue),
        None => return,
    };
    state.complexes.change(complex, |members: &mut ComplexDef| members.queues = queues);
}

fn remove_queue(state: &mut HostState, queue: &Name, complex: &Name)
    ensures { content state.new ≡ limits_applied (LimitsEdit.RemoveQueue queue.now complex.now) (content state.old) }
{
    state.complexes.change(
        complex,
        |members: &mut ComplexDef| drop_name(&mut members.queues, queue),
    );
}

fn set_complex_limit(state: &mut HostState, limit: u16, complex: &Name)
    ensures { content state.new ≡ limits_applied (LimitsEdit.SetComplexLimit limit complex.now) (content state.old) }
{
    state
        .complexes
        .change(complex, |members: &mut ComplexDef| members.limit = limit);
}

/// Makes an edit that `check_limits` lets through, after `HostState::make_room` made room for it.
/// It takes no memory and can't fail. `within`: the limit of a user, of a complex and the global
/// one are at most 10,000 requests; those of a processor, in seconds, and of memory, in bytes, are
/// any.
pub fn apply_limits(state: &mut HostState, edit: LimitsEdit)
    requires check { first_refusal (limits_causes edit (content state.old)) ≡ Ok tt }
    requires within { IsTrue (is_limits_within edit) }
    requires room { HasRoomForLimits edit state.old }
    ensures { content state.new ≡ limits_applied edit (content state.old) }
{
    match edit {
        LimitsEdit::SetUserLimit { queue, .. } => edit_queue(state, &queue, &edit),
        LimitsEdit::SetCpuLimit { queue, .. } => edit_queue(state, &queue, &edit),
        LimitsEdit::SetMemoryLimit { queue, .. } => edit_queue(state, &queue, &edit),
        LimitsEdit::CreateComplex { complex } => create_complex(state, complex),
        LimitsEdit::DeleteComplex { complex } => state.complexes.remove_key(&complex),
        LimitsEdit::AddQueue { queue, complex } => add_queue(state, queue, &complex),
        LimitsEdit::RemoveQueue { queue, complex } => remove_queue(state, &queue, &complex),
        LimitsEdit::SetComplexLimit { limit, complex } => {
            set_complex_limit(state, limit as u16, &complex)
        }
        LimitsEdit::SetGlobalLimit { limit } => state.global_limit = limit as u16,
    }
}
