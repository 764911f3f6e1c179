//! What finds a value among others.

ghost use Rattle.std.specs.Prelude.{◌≡◌, true};

use crate::name::Name;
use std::hash::Hash;

/// What names a value among others.
pub trait Key: Eq + Hash + Copy + Drop {
    /// A copy of the key.
    fn copy(&self) -> Self
        ensures { result ≡ self.now };

    /// Keys that compare alike are one.
    ghost exact: { (a b : Self) → Self.eq a b ≡ true → a ≡ b };
}

/// A value that has a key.
pub trait Keyed<K: Key> {
    ghost key_of: { Self → K };

    /// Its key.
    fn key(&self) -> K
        ensures { result ≡ key_of self.now };
}

impl Key for Name {
    ghost use Rattle.nqs_base.specs.Same.{name_exact};

    ghost exact = { name_exact };

    fn copy(&self) -> Self {
        *self
    }
}

impl Key for u64 {
    ghost use Rattle.nqs_base.specs.Same.{number_exact};

    ghost exact = { number_exact };

    fn copy(&self) -> Self {
        *self
    }
}
