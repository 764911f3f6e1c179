//! Whether queues, complexes and devices are as the rules ask of a host in order.

ghost use Rattle.std.specs.Prelude.{◌≡◌};
ghost use Rattle.std.specs.List.{list_all};
ghost use Rattle.nqs_base.specs.Same.{name_eq};
ghost use Rattle.nqs_state.specs.State.{content};
ghost use Rattle.nqs_rules.specs.Conf.{at_most};
ghost use Rattle.nqs_rules.specs.Find.{has_queue, has_device};
ghost use Rattle.nqs_rules.specs.InOrder.{are_distinct, is_user_list_short, is_dest_right, is_queue_right, is_complex_right};

use crate::order::{Right, is_site_host};
use nqs_base::{Name, has_name};
use nqs_state::HostState;
use nqs_types::{Access, ComplexDef, Dest, QueueDef};

// Whether no two names are one: of a short list.
fn differ(names: &[Name]) -> bool
    ensures { result ≡ are_distinct name_eq names.now }
{
    let mut rest = names;
    while let Some((name, more)) = rest.split_first() {
        if has_name(more, name) {
            return false;
        }
        rest = more;
    }
    true
}

fn is_user_list_short(access: &Access) -> bool
    ensures { result ≡ is_user_list_short access.now }
{
    match access {
        Access::All => true,
        Access::Users(users) => users.len() <= 256,
    }
}

fn is_user_limit_right(limit: Option<u16>) -> bool
    ensures { result ≡ at_most 10000 limit }
{
    match limit {
        Some(limit) => limit <= 10_000,
        None => true,
    }
}

fn are_dests_right(dests: &[Dest], state: &HostState) -> bool
    ensures { result ≡ list_all (is_dest_right (content state.now)) dests.now }
{
    dests
        .iter()
        .all(|dest: &Dest| is_site_host(state, dest.host))
}

fn are_devices_there(names: &[Name], state: &HostState) -> bool
    ensures { result ≡ list_all (λ n. has_device n (content state.now)) names.now }
{
    names.iter().all(|name: &Name| state.devices.has(name))
}

fn are_queues_there(names: &[Name], state: &HostState) -> bool
    ensures { result ≡ list_all (λ q. has_queue q (content state.now)) names.now }
{
    names.iter().all(|name: &Name| state.queues.has(name))
}

impl Right for QueueDef {
    ghost right = { is_queue_right };

    fn is_right(&self, state: &HostState) -> bool {
        self.priority <= 63
            && self.run_limit <= 10_000
            && is_user_limit_right(self.user_limit)
            && is_user_list_short(&self.access)
            && self.dests.len() <= 16
            && are_dests_right(self.dests.as_slice(), state)
            && self.devices.len() <= 64
            && are_devices_there(self.devices.as_slice(), state)
            && differ(self.devices.as_slice())
    }
}

impl Right for ComplexDef {
    ghost right = { is_complex_right };

    fn is_right(&self, state: &HostState) -> bool {
        self.limit <= 10_000 && are_queues_there(self.queues.as_slice(), state)
    }
}
