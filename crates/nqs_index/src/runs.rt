//! The running requests of a host.

ghost use Rattle.std.specs.Prelude.{◌≡◌, ◌<◌, ◌+◌, ◌^◌, find, true, false, OnOk};
ghost use Rattle.std.specs.List.{list_any};
ghost use Rattle.nqs_types.specs.Ids.{id_eq};
ghost use Rattle.nqs_index.specs.Numbers.{IsMore, number};
ghost use Rattle.nqs_index.specs.Runs.{ids_of, is_less_id, is_run, is_single, least_of, with_more, with_fewer};

use nqs_base::{Keyed, Memory};
use nqs_base_tables::Table;
use nqs_types::RequestId;

/// A request that runs.
#[derive(Drop)]
pub struct Run {
    id: RequestId,
    // How many rows of it run beside one. A host has one row of each request.
    more: usize,
}

impl Keyed<RequestId> for Run {
    ghost key_of = { λ r. r.id };

    fn key(&self) -> RequestId {
        self.id
    }
}

/// The requests that run, in no order.
pub type Runs = Table<RequestId, Run>;

fn count_more(run: &mut Run)
    ensures id { run.new.id ≡ run.old.id }
    ensures more { run.old.more + 1 < 2 ^ 64 → run.new ≡ with_more run.old }
{
    run.more = run.more.saturating_add(1);
}

fn count_fewer(run: &mut Run)
    ensures { run.new ≡ with_fewer run.old }
{
    run.more = run.more.saturating_sub(1);
}

// A request of which no row runs comes in.
fn add(runs: &mut Runs, id: &RequestId) -> Result<(), Memory>
    requires { list_any (is_run id.now) runs.old.items ≡ false }
    ensures { OnOk result (IsMore id.now (ids_of runs.old.items) (ids_of runs.new.items)) }
{
    runs.reserve(1)?;
    runs.push(Run { id: *id, more: 0 });
    Ok(())
}

/// One more row of a request runs.
pub(crate) fn start(runs: &mut Runs, id: &RequestId) -> Result<(), Memory>
    ensures { number (id_eq id.now) (ids_of runs.old.items) + 1 < 2 ^ 64
        → OnOk result (IsMore id.now (ids_of runs.old.items) (ids_of runs.new.items)) }
{
    if !runs.has(id) {
        return add(runs, id);
    }
    runs.change(id, |run: &mut Run| count_more(run));
    Ok(())
}

// Whether a request has one row that runs, if any.
fn is_single(runs: &Runs, id: &RequestId) -> bool
    ensures { result ≡ is_single (find (is_run id.now) runs.now.items) }
{
    match runs.get(id) {
        Some(run) => run.more == 0,
        None => true,
    }
}

/// A row of a request that runs does so no more.
pub(crate) fn end(runs: &mut Runs, id: &RequestId)
    ensures { 0 < number (id_eq id.now) (ids_of runs.old.items) → IsMore id.now (ids_of runs.new.items) (ids_of runs.old.items) }
{
    if is_single(runs, id) {
        runs.remove_key(id);
        return;
    }
    runs.change(id, |run: &mut Run| count_fewer(run));
}

/// Whether a request is less than another, by the host of its submission and then by its number.
pub fn is_less(one: &RequestId, other: &RequestId) -> bool
    ensures { result ≡ is_less_id one.now other.now }
{
    one.host.0 < other.host.0 || (one.host.0 == other.host.0 && one.seq < other.seq)
}

/// The least of the requests that run.
pub(crate) fn least(runs: &Runs) -> Option<RequestId>
    ensures { result ≡ least_of runs.now.items }
{
    let least = runs.best(
        |_: &Run| true,
        |one: &Run, other: &Run| is_less(&one.id, &other.id),
    );
    match least {
        Some((_, run)) => Some(run.id),
        None => None,
    }
}
