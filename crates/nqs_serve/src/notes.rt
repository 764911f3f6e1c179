//! What a daemon notes for its operator while it serves, beside all that its host does. No clause
//! speaks of it.

use crate::sort::IgnoreCause;
use nqs_types::RequestId;

/// What a daemon notes for its operator. A note is made once what it tells of is done, and changes
/// nothing of what the daemon does.
pub trait Notes {
    /// A datagram was passed over, for this cause.
    fn ignored(&mut self, cause: &IgnoreCause);

    /// The end of a job came: of this start of its request, with this status. It may come more than
    /// once.
    fn ended(&mut self, id: RequestId, start: u16, status: u8);
}

/// Notes nothing.
#[derive(Drop)]
pub(crate) struct Unnoted {}

impl Notes for Unnoted {
    fn ignored(&mut self, _cause: &IgnoreCause) {}

    fn ended(&mut self, _id: RequestId, _start: u16, _status: u8) {}
}
