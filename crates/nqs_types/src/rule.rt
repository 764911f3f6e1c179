//! Words of the rules: ranks, ways into a queue, and what is started next.

/// The rank of a user of qmgr.
#[derive(Clone, Copy, Debug, PartialEq, Eq)]
pub enum Rank {
    Manager,
    Operator,
    User,
}

/// How a request comes into a queue.
#[derive(Clone, Copy, Debug, PartialEq, Eq)]
pub enum Entry {
    /// By a submission.
    Direct,
    FromPipe,
}

/// What is started next. The first number is the place of the row among the host's rows, from 0.
#[derive(Clone, Copy, Debug, PartialEq, Eq)]
pub enum Choice {
    Launch(usize),
    /// With the place of the device in the queue's list.
    Print(usize, usize),
    /// It has been moved too often.
    TooFar(usize),
    /// To a queue of this host, with the place of the destination in the queue's list.
    Local(usize, usize),
    /// To another host, with the place of the destination in the queue's list.
    Hand(usize, usize),
}
