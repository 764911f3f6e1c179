//! Why an edit of users is refused.
ghost use Rattle.std.specs.Prelude.{◌≡◌, ◌∷◌, [], ◌&&◌, not};
ghost use Rattle.nqs_state.specs.State.{content};
ghost use Rattle.nqs_types.specs.declared.edit.AccessEdit.{AccessEdit};
ghost use Rattle.nqs_types.specs.declared.refusal.Refusal.TheVariants as refusal;
ghost use Rattle.nqs_rules.specs.Access.{access_causes, add_name_causes, lists_user, may_remove, has_full_list, is_full, lists_all, is_root};
ghost use Rattle.nqs_rules.specs.Causes.{cause, first_refusal};
ghost use Rattle.nqs_rules.specs.Find.{has_name};

use crate::names::known_queue;
use crate::way::admits;
use nqs_base::{Name, has_name};
use nqs_state::HostState;
use nqs_types::{Access, AccessEdit, QueueDef, Refusal};

fn is_full(access: &Access) -> bool
    ensures { result ≡ is_full access.now }
{
    match access {
        Access::All => false,
        Access::Users(users) => users.len() >= 256,
    }
}

fn lists_all(access: &Access) -> bool
    ensures { result ≡ lists_all access.now }
{
    match access {
        Access::All => true,
        Access::Users(_) => false,
    }
}

// Why the user isn't added to the queue's list.
fn check_new_user(def: &QueueDef, user: &Name) -> Result<(), Refusal>
    ensures { result ≡ first_refusal (cause (lists_user user.now def.now) refusal.IsMember ∷ cause (has_full_list def.now) refusal.TooMany ∷ []) }
{
    if admits(&def.access, user) {
        return Err(Refusal::IsMember);
    }
    if is_full(&def.access) {
        return Err(Refusal::TooMany);
    }
    Ok(())
}

// Why the user isn't taken out of the queue's list.
fn check_listed_user(def: &QueueDef, user: &Name) -> Result<(), Refusal>
    ensures { result ≡ first_refusal (cause (not (may_remove user.now def.now)) refusal.NotMember ∷ []) }
{
    if lists_all(&def.access) {
        return Err(Refusal::NotMember);
    }
    if !admits(&def.access, user) {
        return Err(Refusal::NotMember);
    }
    Ok(())
}

fn check_add_user(state: &HostState, user: &Name, queue: &Name) -> Result<(), Refusal>
    ensures { result ≡ first_refusal (access_causes (AccessEdit.AddUser user.now queue.now) (content state.now)) }
{
    match state.queues.get(queue) {
        None => Err(Refusal::NoQueue(*queue)),
        Some(def) => check_new_user(def, user),
    }
}

fn check_remove_user(state: &HostState, user: &Name, queue: &Name) -> Result<(), Refusal>
    ensures { result ≡ first_refusal (access_causes (AccessEdit.RemoveUser user.now queue.now) (content state.now)) }
{
    match state.queues.get(queue) {
        None => Err(Refusal::NoQueue(*queue)),
        Some(def) => check_listed_user(def, user),
    }
}

// Why a name isn't added to the managers or to the operators.
fn check_new_name(names: &[Name], user: &Name) -> Result<(), Refusal>
    ensures { result ≡ first_refusal (add_name_causes names.now user.now) }
{
    if has_name(names, user) {
        return Err(Refusal::IsMember);
    }
    if names.len() >= 256 {
        return Err(Refusal::TooMany);
    }
    Ok(())
}

// Why a name isn't taken out of a list.
fn check_listed_name(names: &[Name], user: &Name) -> Result<(), Refusal>
    ensures { result ≡ first_refusal (cause (not (has_name names.now user.now)) refusal.NotMember ∷ []) }
{
    if !has_name(names, user) {
        return Err(Refusal::NotMember);
    }
    Ok(())
}

fn is_root(user: &Name) -> bool
    ensures { result ≡ is_root user.now }
{
    let root: &[u8] = b"root";
    root == user.as_bytes()
}

fn check_remove_manager(state: &HostState, user: &Name) -> Result<(), Refusal>
    ensures { result ≡ first_refusal (access_causes (AccessEdit.RemoveManager user.now) (content state.now)) }
{
    check_listed_name(state.managers.as_slice(), user)?;
    if is_root(user) {
        return Err(Refusal::KeepRoot);
    }
    Ok(())
}

/// Whether the edit may be made: `Ok`, or the first of these that holds. Of a queue's list:
/// `NoQueue`; a user who is added: `IsMember` (each is one of a queue that is open to all),
/// `TooMany` where the list has 256 names; one who is removed: `NotMember`, also where the queue is
/// open to all. Of managers and operators: the same without `NoQueue`, and `KeepRoot`, since root
/// stays a manager. Who gives the edit isn't looked at: `may_command` is.
pub fn check_access(state: &HostState, edit: &AccessEdit) -> Result<(), Refusal>
    ensures { result ≡ first_refusal (access_causes edit.now (content state.now)) }
{
    match edit {
        AccessEdit::SetUnrestrictedAccess { queue } => known_queue(state, queue),
        AccessEdit::SetNoAccess { queue } => known_queue(state, queue),
        AccessEdit::AddUser { user, queue } => check_add_user(state, user, queue),
        AccessEdit::RemoveUser { user, queue } => check_remove_user(state, user, queue),
        AccessEdit::AddManager { user } => check_new_name(state.managers.as_slice(), user),
        AccessEdit::RemoveManager { user } => check_remove_manager(state, user),
        AccessEdit::AddOperator { user } => check_new_name(state.operators.as_slice(), user),
        AccessEdit::RemoveOperator { user } => check_listed_name(state.operators.as_slice(), user),
    }
}
