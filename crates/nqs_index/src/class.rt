//! Classes of waiting requests: what requests of one queue have in common that is asked of all of
//! them at once.

ghost use Rattle.std.specs.Prelude.{◌≡◌, true};
ghost use Rattle.nqs_index.specs.Classes.{class_of};

use nqs_base::{Key, Name};
use nqs_types::Row;

/// What a scheduler asks of a waiting request beside its queue. Requests of one queue that have all
/// of it in common may all start, or none of them may, as far as that is told without one.
#[derive(Clone, Copy, PartialEq, Eq, Hash)]
pub struct Class {
    pub owner: Name,
    /// The forms that its device must have.
    pub forms: Option<Name>,
    /// The earliest start, in seconds since 1970.
    pub earliest: u64,
    /// Whether it was moved by pipe queues as often as it may be.
    pub far: bool,
}

impl Key for Class {
    ghost use Rattle.nqs_index.specs.Classes.{class_exact};

    ghost exact = { class_exact };

    fn copy(&self) -> Self {
        *self
    }
}

impl Class {
    /// The class of a row.
    pub fn of(row: &Row) -> Class
        ensures { result ≡ class_of row.now }
    {
        Class {
            owner: row.job.owner,
            forms: row.job.forms,
            earliest: row.job.earliest,
            far: row.hops == 32,
        }
    }

    /// Whether it is this class.
    pub(crate) fn is(&self, other: &Class) -> bool
        ensures is { result ≡ true → self.now ≡ other.now }
        ensures same { self.now ≡ other.now → result ≡ true }
    {
        *self == *other
    }
}
