//! For whom the program runs.

ghost use Rattle.std.specs.Prelude.{◌≡◌, ◌≤◌, ◌<◌, length, true};
ghost use Rattle.nqs_rules.specs.Sane.{is_of_site};

use nqs_base::Name;
use nqs_types::HostId;
use std::alloc::Global;

/// For whom the program runs: the site's folder, the names of its hosts, and one of them.
#[derive(Clone, Copy)]
pub(crate) struct Station<'a> {
    pub(crate) alloc: Global,
    pub(crate) dir: &'a str,
    pub(crate) names: &'a [Name],
    pub(crate) me: HostId,
    ghost few: { length names.now ≤ 16 },
    ghost within: { me.0 < length names.now },
    ghost there: { is_of_site (length names.now) me ≡ true },
}
