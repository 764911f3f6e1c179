//! What tests of handovers are about: the request that alpha offers, one that it promised, and one
//! that is offered to it.

ghost use Rattle.std.specs.Prelude.{◌≡◌, OnOk, IsTrue};
ghost use Rattle.nqs_state.specs.State.{content};
ghost use Rattle.nqs_handover.specs.Opened.{may_count_hops};

use nqs_base::Memory;
use nqs_builders::{job, row};
use nqs_state::{HostState, Rows};
use nqs_types::{Carried, HostId, Promise, RequestId, Row, batch};
use std::alloc::Global;

fn offered_row(alloc: Global) -> Row
    ensures { result.hops ≡ 0 }
{
    let mut row = row(alloc, 1, batch(), batch());
    row.hops = 0;
    row
}

/// The host's one request is then the one that it offers.
pub(crate) fn fill_rows(alloc: Global, state: &mut HostState) -> Result<(), Memory>
    ensures { OnOk result (IsTrue (may_count_hops (content state.new))) }
{
    let mut rows = Rows::new(alloc);
    rows.reserve(1)?;
    rows.push(offered_row(alloc));
    state.rows = rows;
    Ok(())
}

/// A promise to beta.
pub(crate) fn promise(alloc: Global, number: u64) -> Promise {
    Promise {
        peer: HostId(1),
        number,
        row: row(alloc, 2, batch(), batch()),
    }
}

/// A request of beta's, as an offer carries it.
pub(crate) fn carried(alloc: Global) -> Carried {
    Carried {
        id: RequestId {
            seq: 5,
            host: HostId(1),
        },
        job: job(alloc, batch()),
        starts: 0,
        lost: 0,
        hops: 1,
    }
}
