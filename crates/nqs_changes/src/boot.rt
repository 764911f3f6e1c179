//! The change of a boot.

ghost use Rattle.std.specs.Prelude.{◌≡◌, ◌+◌, ◌<◌, ◌^◌, if◌then◌else◌, Some, None, IsTrue};
ghost use Rattle.std.specs.List.{filter_map};
ghost use Rattle.nqs_state.specs.State.{content};
ghost use Rattle.nqs_rules.specs.InOrder.{IsInOrder};
ghost use Rattle.nqs_rules.specs.Fits.{row_passes};
ghost use Rattle.nqs_rules.specs.Applied.{may_start_again, lost_row, booted_row, applied};
ghost use Rattle.nqs_changes.specs.Running.{runs_only, request_booted};
ghost use Rattle.nqs_types.specs.declared.change.Change.TheVariants as change;

use crate::rows::row_runs;
use nqs_state::HostState;
use nqs_types::{RequestId, Row, RowState};

/// Whether a request that ran as its host stopped may start again.
pub fn may_start_again(row: &Row) -> bool
    ensures { result ≡ may_start_again row.now }
{
    row.job.rerun && !row.doomed && row.starts < u16::MAX
}

// A request that ran as its host stopped waits in its queue again.
fn lose(row: &mut Row)
    ensures lost { row.old.lost + 1 < 2 ^ 16 → row.new ≡ lost_row row.old }
    ensures id { row.new.id ≡ row.old.id }
{
    row.state = RowState::Queued;
    row.device = None;
    row.lost = row.lost.saturating_add(1);
}

// What the boot makes of a row. The answer is false where the row goes.
fn boot_row(row: &mut Row) -> bool
    ensures booted { row.old.lost + 1 < 2 ^ 16 → booted_row row.old ≡ (if result then Some row.new else None) }
    ensures id { row.new.id ≡ row.old.id }
{
    if row.state != RowState::Running {
        return true;
    }
    if !may_start_again(row) {
        return false;
    }
    lose(row);
    true
}

/// The host starts again after a stop: the running requests are queued again where they may, and
/// else go.
pub fn booted(state: &mut HostState)
    requires order { IsInOrder (content state.old) }
    ensures { content state.new ≡ record (content state.old) { rows = filter_map booted_row state.old.rows.items } }
{
    state
        .rows
        .revise(|_id: &RequestId, row: &mut Row| boot_row(row));
}

fn row_may_start_again(state: &HostState, id: &RequestId) -> bool
    ensures { result ≡ row_passes may_start_again id.now (content state.now) }
{
    match state.rows.get(id) {
        Some(row) => may_start_again(row),
        None => false,
    }
}

// What the boot makes of one request.
fn boot_request(state: &mut HostState, id: &RequestId)
    requires order { IsInOrder (content state.old) }
    ensures { content state.new ≡ request_booted id.now (content state.old) }
{
    if !row_runs(state, id) {
        return;
    }
    if row_may_start_again(state, id) {
        state.rows.change(id, |row: &mut Row| lose(row));
    } else {
        state.rows.remove_key(id);
    }
}

/// The same as `apply` makes of `Change::Boot`, where no other requests run than these. It looks at
/// these alone.
pub fn boot_running(state: &mut HostState, running: &[RequestId])
    requires order { IsInOrder (content state.old) }
    requires only { IsTrue (runs_only running.now (content state.old)) }
    ensures { content state.new ≡ applied change.Boot (content state.old) }
{
    for id in running {
        boot_request(state, id);
    }
}
