//! How a run of the program ends.

use crate::unparsed::Unparsed;
use nqs_base::Memory;
use nqs_disk::Full;

/// How a run of the program ends. Each status has a number, with which the program exits.
///
/// They are decided in this order: words, reading, length, schedule, writing. `Memory` may come at
/// any place, and `DiskFull` in a run. The text is the transcript of the run, or its summary; disks
/// are left at `Done` alone.
#[derive(Drop)]
pub enum Status {
    /// The schedule was read to its end, or generated, and run, and the whole text was written.
    Done,
    /// The words of the command line are in no form. Nothing was read or written.
    BadWords,
    /// The line that names the first bad line was written, and nothing else.
    BadSchedule,
    /// The source failed. Nothing was written.
    ReadFault,
    /// The sink failed, or took nothing of a piece. A front of the text was written.
    WriteFault,
    /// Memory ran out. A front of the text was written.
    Memory(Memory),
    /// The schedule has more than 16,777,216 bytes. One more than that were read, and nothing was
    /// written.
    TooLong,
    /// A disk of a host would have more than 2^40 bytes. A front of the text was written.
    DiskFull(Full),
    /// Memory ran out while the words were read. Nothing was read or written.
    Unparsed(Unparsed),
}

impl Status {
    ghost use Rattle.std.specs.Prelude.{◌≡◌};
    ghost use Rattle.nqs_network_runs.specs.Numbers.{number_of};

    /// The number with which the program exits.
    pub fn number(self) -> u8
        ensures { result ≡ number_of self }
    {
        match self {
            Status::Done => 0,
            Status::BadWords => 2,
            Status::BadSchedule => 3,
            Status::ReadFault => 4,
            Status::WriteFault => 5,
            Status::Memory(_) => 6,
            Status::TooLong => 7,
            Status::DiskFull(_) => 8,
            Status::Unparsed(_) => 6,
        }
    }
}
