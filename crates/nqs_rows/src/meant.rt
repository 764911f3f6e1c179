//! The request that is typed as `SEQ.HOST`.

ghost use Rattle.std.specs.Prelude.{◌≡◌, ◌<◌, ◌≤◌, length};
ghost use Rattle.std.specs.Option.{option_copied};
ghost use Rattle.nqs_state.specs.State.{content};
ghost use Rattle.nqs_rules.specs.Find.{meant_request, meant_row};

use nqs_base::place_of;
use nqs_state::HostState;
use nqs_types::{HostId, Named, RequestId, Row};

// The request, where its host is of the site.
pub(crate) fn meant_request(state: &HostState, request: &Named) -> Option<RequestId>
    requires { length state.now.site ≤ 16 }
    ensures { result ≡ meant_request request.now (content state.now) }
{
    match place_of(state.site.as_slice(), &request.host) {
        Some(place) => Some(RequestId {
            seq: request.seq,
            host: HostId(place as u8),
        }),
        None => None,
    }
}

/// The row of the request that is typed so, if its host is of the site and it lies here.
/// `requires`: at most 16 hosts, as each state in order has.
pub fn meant_row<'a>(state: &'a HostState, request: &Named) -> Option<&'a Row>
    requires { length state.now.site ≤ 16 }
    ensures { option_copied result ≡ meant_row request.now (content state.now) }
{
    match meant_request(state, request) {
        Some(id) => state.rows.get(&id),
        None => None,
    }
}
