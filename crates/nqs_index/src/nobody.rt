//! The lines of a queue where nobody waits.

ghost use Rattle.std.specs.Prelude.{◌≡◌, []};

use crate::classes::Classes;
use nqs_base_tables::Table;
use std::alloc::Global;

/// A queue without classes, which stays so.
#[derive(Drop)]
pub struct Nobody {
    classes: Classes,
    ghost none: { classes.items ≡ [] },
}

impl Nobody {
    /// It takes no memory.
    pub(crate) fn new(alloc: Global) -> Nobody {
        Nobody {
            classes: Table::new(alloc),
        }
    }

    /// No classes.
    pub(crate) fn classes(&self) -> &Classes
        ensures { result.now.items ≡ [] }
    {
        &self.classes
    }
}
