//! Why an event was cut off.

use nqs_base::Memory;
use nqs_types::Which;

/// Why an event was cut off.
#[derive(Debug, PartialEq, Eq, Drop)]
pub(crate) enum Cut {
    /// A call of this disk failed.
    Disk(Which),
    Memory(Memory),
}
