//! What an edit of requests makes of a state.

ghost use Rattle.std.specs.Prelude.{◌≡◌, ◌+◌, ◌<◌, ◌≤◌, ◌^◌, length, is_ok, IsTrue};
ghost use Rattle.nqs_state.specs.State.{content};
ghost use Rattle.nqs_rules.specs.Causes.{first_refusal};
ghost use Rattle.nqs_rules.specs.Find.{meant_request};
ghost use Rattle.nqs_rules.specs.Rows.{doomed_in, change_meant, rows_causes, rows_applied, is_rows_within};
ghost use Rattle.nqs_rows.specs.OneRow.{row_edited};

use crate::meant::meant_request;
use nqs_base::{ListOf, Name};
use nqs_state::HostState;
use nqs_types::{Hold, Named, RequestId, Row, RowState, RowsEdit};
use std::alloc::Global;

// What an edit makes of its request's row.
fn edit_row(row: &mut Row, edit: &RowsEdit, arrival: u64, alloc: Global)
    requires { IsTrue (is_rows_within edit.now) }
    ensures { row.new ≡ row_edited edit.now arrival row.old }
{
    match edit {
        RowsEdit::AbortQueue { .. } => {}
        RowsEdit::HoldRequest { .. } => row.hold = Hold::User,
        RowsEdit::ReleaseRequest { .. } => {
            row.hold = Hold::No;
            row.refused = ListOf::new(alloc);
            row.hops = 0;
        }
        RowsEdit::MoveRequest { queue, .. } => {
            row.queue = *queue;
            row.arrival = arrival;
            row.hops = 0;
            row.refused = ListOf::new(alloc);
        }
        RowsEdit::ModifyRequest { priority, .. } => row.job.priority = *priority as u8,
    }
}

fn edit_request(state: &mut HostState, request: &Named, edit: &RowsEdit)
    requires site { length state.old.site ≤ 16 }
    requires within { IsTrue (is_rows_within edit.now) }
    ensures { content state.new ≡ change_meant (meant_request request.now (content state.old)) (row_edited edit.now state.old.arrivals) (content state.old) }
{
    let Some(id) = meant_request(state, request) else {
        return;
    };
    let arrival = state.arrivals;
    let alloc = state.rows.allocator();
    state
        .rows
        .change(&id, |row: &mut Row| edit_row(row, edit, arrival, alloc));
}

fn move_request(state: &mut HostState, request: &Named, edit: &RowsEdit)
    requires site { length state.old.site ≤ 16 }
    requires within { IsTrue (is_rows_within edit.now) }
    requires number { state.old.arrivals + 1 < 2 ^ 64 }
    ensures { content state.new ≡ change_meant (meant_request request.now (content state.old)) (row_edited edit.now (state.old.arrivals + 1))
        (record (content state.old) { arrivals = state.old.arrivals + 1 }) }
{
    state.arrivals += 1;
    edit_request(state, request, edit);
}

fn doom_in(row: &mut Row, queue: &Name)
    ensures { row.new ≡ doomed_in queue.now row.old }
{
    if row.state == RowState::Running && *queue == row.queue {
        row.doomed = true;
    }
}

fn abort_queue(state: &mut HostState, queue: &Name)
    ensures { content state.new ≡ rows_applied (RowsEdit.AbortQueue queue.now) (content state.old) }
{
    state.rows.revise(|_id: &RequestId, row: &mut Row| {
        doom_in(row, queue);
        true
    });
}

/// Makes an edit of requests that `check_rows` lets through. It needs no memory and can't fail. A
/// moved request keeps its hold, and a released one may be tried by every destination again.
/// `within`: a priority is at most 63. `site` holds of each state in order: at most 16 hosts.
pub fn apply_rows(state: &mut HostState, edit: RowsEdit)
    requires site { length state.old.site ≤ 16 }
    requires check { IsTrue (is_ok (first_refusal (rows_causes edit (content state.old)))) }
    requires within { IsTrue (is_rows_within edit) }
    ensures { content state.new ≡ rows_applied edit (content state.old) }
{
    match &edit {
        RowsEdit::AbortQueue { queue } => abort_queue(state, queue),
        RowsEdit::HoldRequest { request } => edit_request(state, request, &edit),
        RowsEdit::ReleaseRequest { request } => edit_request(state, request, &edit),
        RowsEdit::MoveRequest { request, .. } => move_request(state, request, &edit),
        RowsEdit::ModifyRequest { request, .. } => edit_request(state, request, &edit),
    }
}
