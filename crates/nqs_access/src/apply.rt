//! What an edit of users makes of a host's state.
ghost use Rattle.std.specs.Prelude.{◌≡◌, ◌<◌, ◌∷◌, ◌++◌, [], length, Some};
ghost use Rattle.nqs_state.specs.Room.{HasRoomForAccess};
ghost use Rattle.nqs_state.specs.State.{content};
ghost use Rattle.nqs_types.specs.declared.edit.AccessEdit.{AccessEdit};
ghost use Rattle.nqs_types.specs.declared.queue.QueueDef.{QueueDef};
ghost use Rattle.nqs_rules.specs.Access.{without_user};
ghost use Rattle.nqs_rules.specs.Applied.{access_applied};
ghost use Rattle.nqs_rules.specs.Edits.{change_queue};
ghost use Rattle.nqs_rules.specs.Find.{find_queue};

use crate::names::drop_name;
use nqs_base::{ListOf, Name, NameList, Spare};
use nqs_state::HostState;
use nqs_types::{Access, AccessEdit, QueueDef};

// The queue has another access: what any edit does that gives it that access.
fn set_access(state: &mut HostState, queue: &Name, access: Access)
    ensures { (g : QueueDef → QueueDef) → ((d : QueueDef) → find_queue queue.now (content state.old) ≡ Some d → g d ≡ record d { access = access })
        → content state.new ≡ change_queue queue.now g (content state.old) }
{
    state
        .queues
        .change(queue, |def: &mut QueueDef| def.access = access);
}

fn set_no_access(state: &mut HostState, queue: &Name)
    ensures { content state.new ≡ access_applied (AccessEdit.SetNoAccess queue.now) (content state.old) }
{
    let nobody = ListOf::new(state.queues.allocator());
    set_access(state, queue, Access::Users(nobody));
}

fn add_user(state: &mut HostState, user: Name, queue: &Name)
    requires room { HasRoomForAccess (AccessEdit.AddUser user queue.now) state.old }
    ensures { content state.new ≡ access_applied (AccessEdit.AddUser user queue.now) (content state.old) }
{
    let users = match state.queues.get(queue) {
        Some(def) => match &def.access {
            Access::All => return,
            Access::Users(users) => state.spare_names.grown(users.as_slice(), user),
        },
        None => return,
    };
    set_access(state, queue, Access::Users(users));
}

fn drop_user(access: &mut Access, user: &Name)
    ensures { access.new ≡ without_user user.now access.old }
{
    match access {
        Access::All => {}
        Access::Users(users) => drop_name(users, user),
    }
}

fn remove_user(state: &mut HostState, user: &Name, queue: &Name)
    ensures { content state.new ≡ access_applied (AccessEdit.RemoveUser user.now queue.now) (content state.old) }
{
    state.queues.change(queue, |def: &mut QueueDef| drop_user(&mut def.access, user));
}

fn add_name(spare: &mut Spare<Name>, names: &mut NameList, name: Name)
    requires { length names.old < spare.old }
    ensures { names.new ≡ names.old ++ name ∷ [] }
{
    *names = spare.grown(names.as_slice(), name);
}

/// Makes the edit, after `HostState::make_room` made room for it. It takes no memory and can't
/// fail. It is made as the rules say also where its check refuses it: the caller asks
/// `check_access` first.
pub fn apply_access(state: &mut HostState, edit: AccessEdit)
    requires room { HasRoomForAccess edit state.old }
    ensures { content state.new ≡ access_applied edit (content state.old) }
{
    match edit {
        AccessEdit::SetUnrestrictedAccess { queue } => set_access(state, &queue, Access::All),
        AccessEdit::SetNoAccess { queue } => set_no_access(state, &queue),
        AccessEdit::AddUser { user, queue } => add_user(state, user, &queue),
        AccessEdit::RemoveUser { user, queue } => remove_user(state, &user, &queue),
        AccessEdit::AddManager { user } => {
            add_name(&mut state.spare_names, &mut state.managers, user)
        }
        AccessEdit::RemoveManager { user } => drop_name(&mut state.managers, &user),
        AccessEdit::AddOperator { user } => {
            add_name(&mut state.spare_names, &mut state.operators, user)
        }
        AccessEdit::RemoveOperator { user } => drop_name(&mut state.operators, &user),
    }
}
