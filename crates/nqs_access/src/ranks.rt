//! Ranks of users, and which commands each rank may give.
ghost use Rattle.std.specs.Prelude.{◌≡◌};
ghost use Rattle.nqs_state.specs.State.{content};
ghost use Rattle.nqs_rules.specs.Access.{rank, is_conf_of_operators, is_device_edit_of_operators, is_of_operators, rank_causes, may_command};
ghost use Rattle.nqs_rules.specs.Causes.{first_refusal};

use nqs_base::{Name, has_name};
use nqs_state::HostState;
use nqs_types::{Command, ConfEdit, DevicesEdit, Edit, Rank, Refusal};

/// The rank of a user at this host. A manager who is an operator too is a manager.
pub fn rank(state: &HostState, user: &Name) -> Rank
    ensures { result ≡ rank user.now (content state.now) }
{
    if has_name(state.managers.as_slice(), user) {
        return Rank::Manager;
    }
    if has_name(state.operators.as_slice(), user) {
        return Rank::Operator;
    }
    Rank::User
}

fn is_conf_of_operators(edit: &ConfEdit) -> bool
    ensures { result ≡ is_conf_of_operators edit.now }
{
    match edit {
        ConfEdit::EnableQueue { .. } => true,
        ConfEdit::DisableQueue { .. } => true,
        ConfEdit::StartQueue { .. } => true,
        ConfEdit::StopQueue { .. } => true,
        ConfEdit::PurgeQueue { .. } => true,
        _ => false,
    }
}

fn is_device_edit_of_operators(edit: &DevicesEdit) -> bool
    ensures { result ≡ is_device_edit_of_operators edit.now }
{
    match edit {
        DevicesEdit::EnableDevice { .. } => true,
        DevicesEdit::DisableDevice { .. } => true,
        DevicesEdit::SetForms { .. } => true,
        _ => false,
    }
}

// Whether operators may make the edit; if not, it is of managers alone.
fn is_of_operators(edit: &Edit) -> bool
    ensures { result ≡ is_of_operators edit.now }
{
    match edit {
        Edit::Conf(edit) => is_conf_of_operators(edit),
        Edit::Limits(_) => false,
        Edit::Access(_) => false,
        Edit::Devices(edit) => is_device_edit_of_operators(edit),
        Edit::Rows(_) => true,
    }
}

fn check_rank(of_operators: bool, rank: Rank) -> Result<(), Refusal>
    ensures { result ≡ first_refusal (rank_causes of_operators rank) }
{
    match rank {
        Rank::Manager => Ok(()),
        Rank::Operator => {
            if of_operators {
                Ok(())
            } else {
                Err(Refusal::NotManager)
            }
        }
        Rank::User => {
            if of_operators {
                Err(Refusal::NotOperator)
            } else {
                Err(Refusal::NotManager)
            }
        }
    }
}

/// Whether a user of this rank may give the command: `NotOperator` or `NotManager` where it takes a
/// higher rank.
pub fn may_command(rank: Rank, command: &Command) -> Result<(), Refusal>
    ensures { result ≡ may_command rank command.now }
{
    match command {
        Command::Edit(edit) => check_rank(is_of_operators(edit), rank),
        Command::Shutdown => check_rank(false, rank),
        _ => Ok(()),
    }
}
