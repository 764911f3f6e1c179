//! How a run of the program ends.

use crate::datagram::Unread;
use nqs_base::Memory;

/// How a run of the program ends. Each status has a number, with which the program exits.
#[derive(Debug, PartialEq, Eq, Drop)]
pub enum NqsStatus {
    /// It did what it was asked, and wrote the whole text of the answer where there is one.
    Done,
    /// The host refused, or the script is too long, and the whole text that says so was written.
    Refused,
    /// The words are in no form. Nothing was read, sent or written.
    BadWords,
    /// A disk isn't one of a host, or is another host's.
    NotNqs,
    /// The source failed. Nothing was sent or written.
    ReadFault,
    /// The sink failed, or took nothing of a piece. A front of the text was written.
    WriteFault,
    /// Memory ran out. Nothing was written, and no client or shepherd has received anything.
    Memory(Memory),
    /// There was no memory to read what came last. Nothing was written.
    Unread(Unread),
    /// No answer came.
    NoAnswer,
    /// The wire failed.
    WireFault,
    /// A disk failed.
    DiskFault,
    /// The daemon has made as many receives as it was to make.
    TurnsUsed,
    /// The machine failed to hand over a part.
    MachineFault,
    /// There are disks already.
    Exists,
}

impl NqsStatus {
    ghost use Rattle.std.specs.Prelude.{◌≡◌};
    ghost use Rattle.nqs_clients.specs.Numbers.{number_of};

    /// The number with which the program exits.
    pub fn number(&self) -> u8
        ensures { result ≡ number_of self.now }
    {
        match self {
            NqsStatus::Done => 0,
            NqsStatus::Refused => 1,
            NqsStatus::BadWords => 2,
            NqsStatus::NotNqs => 3,
            NqsStatus::ReadFault => 4,
            NqsStatus::WriteFault => 5,
            NqsStatus::Memory(_) | NqsStatus::Unread(_) => 6,
            NqsStatus::NoAnswer => 7,
            NqsStatus::WireFault => 8,
            NqsStatus::DiskFault => 9,
            NqsStatus::TurnsUsed => 10,
            NqsStatus::MachineFault => 11,
            NqsStatus::Exists => 12,
        }
    }
}
