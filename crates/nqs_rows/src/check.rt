//! Whether a deletion or an edit of requests is refused.

ghost use Rattle.std.specs.Prelude.{◌≡◌, ◌≤◌, ◌∷◌, ◌++◌, [], length};
ghost use Rattle.nqs_state.specs.State.{content};
ghost use Rattle.nqs_rules.specs.Causes.{cause, first_refusal};
ghost use Rattle.nqs_rules.specs.Find.{meant_row};
ghost use Rattle.nqs_rules.specs.Access.{rank, is_plain_user};
ghost use Rattle.nqs_rules.specs.Rows.{arrivals_used, delete_row_causes, delete_causes, named_causes, idle_causes, hold_causes, release_causes};
ghost use Rattle.nqs_rules.specs.Rows.{move_entry_causes, move_causes, rows_causes};
ghost use Rattle.nqs_rules.specs.Conf.{is_pipe_queue};
ghost use Rattle.nqs_rows.specs.OneRow.{row_causes};

use crate::entry::check_job;
use crate::meant::meant_row;
use crate::room::check_arrivals;
use nqs_access::rank;
use nqs_base::Name;
use nqs_state::HostState;
use nqs_types::{Entry, Hold, Kind, Named, QueueDef, Rank, Refusal, Row, RowState, RowsEdit};

fn is_plain_user(state: &HostState, user: &Name) -> bool
    ensures { result ≡ is_plain_user (rank user.now (content state.now)) }
{
    rank(state, user) == Rank::User
}

fn check_delete_row(
    state: &HostState,
    user: &Name,
    id: &Named,
    kill: bool,
    row: &Row,
) -> Result<(), Refusal>
    ensures { result ≡ first_refusal (delete_row_causes user.now id.now kill (content state.now) row.now) }
{
    if *user != row.job.owner && is_plain_user(state, user) {
        return Err(Refusal::NotOwner);
    }
    if row.state == RowState::Running && !kill {
        return Err(Refusal::RequestRunning(*id));
    }
    Ok(())
}

/// Whether a user may delete a request: `Ok`, or the first of these that holds: `NoRequest`;
/// `NotOwner` for one who is neither its owner, a manager nor an operator; `RequestRunning`, unless
/// `kill` is set. One that is on its way may be deleted. `site` holds of each state in order: at
/// most 16 hosts.
pub fn check_delete(state: &HostState, user: &Name, id: &Named, kill: bool) -> Result<(), Refusal>
    requires site { length state.now.site ≤ 16 }
    ensures { result ≡ first_refusal (delete_causes user.now id.now kill (content state.now)) }
{
    match meant_row(state, id) {
        Some(row) => check_delete_row(state, user, id, kill, row),
        None => Err(Refusal::NoRequest(*id)),
    }
}

fn check_idle(row: &Row, id: &Named) -> Result<(), Refusal>
    ensures { result ≡ first_refusal (idle_causes id.now row.now) }
{
    match row.state {
        RowState::Queued => Ok(()),
        RowState::Routing => Err(Refusal::RequestRouting(*id)),
        RowState::Running => Err(Refusal::RequestRunning(*id)),
    }
}

fn check_hold(row: &Row, id: &Named) -> Result<(), Refusal>
    ensures { result ≡ first_refusal (hold_causes id.now row.now) }
{
    check_idle(row, id)?;
    if row.hold != Hold::No {
        return Err(Refusal::IsHeld(*id));
    }
    Ok(())
}

fn check_release(row: &Row, id: &Named) -> Result<(), Refusal>
    ensures { result ≡ first_refusal (release_causes id.now row.now) }
{
    if row.hold == Hold::No {
        return Err(Refusal::NotHeld(*id));
    }
    Ok(())
}

// A move into this queue.
fn check_move_to(state: &HostState, id: &Named, row: &Row, queue: &QueueDef) -> Result<(), Refusal>
    ensures { result ≡ first_refusal (idle_causes id.now row.now ++ move_entry_causes row.now queue.now
        ++ cause (arrivals_used (content state.now)) Refusal.NumbersUsed ∷ []) }
{
    check_idle(row, id)?;
    check_job(queue, &row.job, Entry::FromPipe)?;
    check_arrivals(state)
}

fn check_move(state: &HostState, id: &Named, queue: &Name, row: &Row) -> Result<(), Refusal>
    ensures { result ≡ first_refusal (move_causes id.now queue.now (content state.now) row.now) }
{
    match state.queues.get(queue) {
        Some(def) => check_move_to(state, id, row, def),
        None => Err(Refusal::NoQueue(*queue)),
    }
}

fn check_row(state: &HostState, edit: &RowsEdit, row: &Row) -> Result<(), Refusal>
    ensures { result ≡ first_refusal (row_causes edit.now (content state.now) row.now) }
{
    match edit {
        RowsEdit::AbortQueue { .. } => Ok(()),
        RowsEdit::HoldRequest { request } => check_hold(row, request),
        RowsEdit::ReleaseRequest { request } => check_release(row, request),
        RowsEdit::MoveRequest { request, queue } => check_move(state, request, queue, row),
        RowsEdit::ModifyRequest { request, .. } => check_idle(row, request),
    }
}

// An edit of this request.
fn check_named(state: &HostState, request: &Named, edit: &RowsEdit) -> Result<(), Refusal>
    requires { length state.now.site ≤ 16 }
    ensures { result ≡ first_refusal (named_causes request.now (row_causes edit.now (content state.now)) (meant_row request.now (content state.now))) }
{
    match meant_row(state, request) {
        Some(row) => check_row(state, edit, row),
        None => Err(Refusal::NoRequest(*request)),
    }
}

fn check_kind(queue: &QueueDef) -> Result<(), Refusal>
    ensures { result ≡ first_refusal (cause (is_pipe_queue queue.now) Refusal.WrongKind ∷ []) }
{
    if queue.kind == Kind::Pipe {
        return Err(Refusal::WrongKind);
    }
    Ok(())
}

fn check_abort(state: &HostState, queue: &Name) -> Result<(), Refusal>
    ensures { result ≡ first_refusal (rows_causes (RowsEdit.AbortQueue queue.now) (content state.now)) }
{
    match state.queues.get(queue) {
        Some(def) => check_kind(def),
        None => Err(Refusal::NoQueue(*queue)),
    }
}

/// Whether an edit of requests may be made: `Ok`, or the first of these that holds. An abort:
/// `NoQueue`, `WrongKind` for a pipe queue. The others: `NoRequest`, and then a hold:
/// `RequestRouting`, `RequestRunning`, `IsHeld`; a release: `NotHeld`; a move: `NoQueue`,
/// `RequestRouting`, `RequestRunning`, the way of its owner and of its limits into that queue as
/// from a pipe queue, `NumbersUsed`; a new priority: `RequestRouting`, `RequestRunning`. `site`
/// holds of each state in order: at most 16 hosts.
pub fn check_rows(state: &HostState, edit: &RowsEdit) -> Result<(), Refusal>
    requires site { length state.now.site ≤ 16 }
    ensures { result ≡ first_refusal (rows_causes edit.now (content state.now)) }
{
    match edit {
        RowsEdit::AbortQueue { queue } => check_abort(state, queue),
        RowsEdit::HoldRequest { request } => check_named(state, request, edit),
        RowsEdit::ReleaseRequest { request } => check_named(state, request, edit),
        RowsEdit::MoveRequest { request, .. } => check_named(state, request, edit),
        RowsEdit::ModifyRequest { request, .. } => check_named(state, request, edit),
    }
}
