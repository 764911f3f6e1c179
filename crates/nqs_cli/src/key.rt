//! Whom a site hears: what the file of its key says, where it is kept well.

ghost use Rattle.std.specs.Prelude.{◌≤◌, ◌<◌, All, MatchOption};
ghost use Rattle.nqs_cli.specs.Keys.{Hears};

use nqs_real::{KeyFile, SiteHost};
use nqs_seal::{SiteKey, read_key};

/// The first port that any user of a machine can have.
const OPEN_PORT: u16 = 1024;

/// Why the file of a site's key says nobody.
#[derive(Debug, PartialEq, Eq, Drop)]
pub(crate) enum KeyFault {
    /// It says neither the word nor a key.
    NoForm,
    /// It says a key, and others may read or write it.
    Shared,
    /// It says a key, and belongs to someone else than root and the owner of the site's folder.
    Foreign,
}

/// Whom the file says are heard. The word `open` is no secret, so how it is kept isn't looked at.
pub(crate) fn heard_by(file: &KeyFile) -> Result<SiteKey, KeyFault>
    ensures { Hears file.now result }
{
    match read_key(&file.bytes) {
        None => Err(KeyFault::NoForm),
        Some(SiteKey::Open) => Ok(SiteKey::Open),
        Some(SiteKey::Sealed(_)) if !file.is_private => Err(KeyFault::Shared),
        Some(SiteKey::Sealed(_)) if !file.is_own => Err(KeyFault::Foreign),
        Some(SiteKey::Sealed(key)) => Ok(SiteKey::Sealed(key)),
    }
}

/// The first host whose port any user of its machine can have while its daemon is down.
pub(crate) fn open_host(site: &[SiteHost]) -> Option<&SiteHost>
    ensures { MatchOption result (All (λ host. host.port < 1024) site.now) (λ host. 1024 ≤ host.now.port) }
{
    site.iter().find(|host| host.port >= OPEN_PORT)
}
