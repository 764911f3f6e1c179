//! The names that a formatted host has.

ghost use Rattle.std.specs.Prelude.{◌≡◌, codes};

use nqs_base::Name;

/// That of its queue.
pub fn batch() -> Name
    ensures { result ≡ codes "batch" }
{
    match Name::read(b"batch") {
        Ok(name) => name,
        Err(_) => unreachable!(),
    }
}

/// That of its manager.
pub fn root() -> Name
    ensures { result ≡ codes "root" }
{
    match Name::read(b"root") {
        Ok(name) => name,
        Err(_) => unreachable!(),
    }
}
