//! The payloads that the bytes of a disk stand for.
ghost use Rattle.std.specs.Prelude.{[], ◌≡◌, ◌+◌, ◌<◌, ◌≤◌, ◌^◌, ◌++◌, ℕ, List, IsTrue, IsErrOf, OnOk, OnErr, IfOk, IfErr, length, vec_len, MatchResult};
ghost use Rattle.nqs_outside.specs.Reads.{FailedToRead, OnlyReads};
ghost use Rattle.nqs_outside.specs.History.{content, moment, IsWhole};
ghost use Rattle.nqs_journal.specs.Text.{header, header_by, records, StandsAfter, StandsFor};
ghost use Rattle.nqs_journal.specs.Faults.{IsDiskFault, IsLoadFault, IsReadingFault};

use crate::JournalFault;
use crate::read::{Reading, read_text};
use nqs_base::Bytes;
use nqs_outside::{Disk, Failed};
use std::alloc::Global;

impl From<Failed> for JournalFault {
    ghost use Rattle.nqs_journal.specs.declared.fault.JournalFault.TheVariants.{Disk};

    ghost from_gives = { λ _ e. e ≡ Disk };

    fn from(_: Failed) -> Self {
        JournalFault::Disk
    }
}

// All the bytes.
pub(crate) fn read_disk<D: Disk>(alloc: Global, disk: &mut D) -> Result<Vec<u8>, JournalFault>
    ensures bytes { IsTrue D.tells → IfOk result (λ bytes. bytes.items ≡ content (D.history disk.old)) }
    ensures small { IfOk result (λ bytes. vec_len bytes ≤ 2 ^ 40) }
    ensures fault { IfErr result IsDiskFault }
    ensures failed { IsErrOf result JournalFault.Disk → FailedToRead D.Disk disk.old disk.new }
    // Ok only where no call has ended the disk.
    ensures whole { IsTrue D.tells → OnOk result (IsWhole (D.ends disk.old) (moment (D.history disk.old))) }
    ensures reads { OnlyReads D.Disk disk.old disk.new }
    // Its length and its bytes are asked for once, and at Ok neither call failed.
    ensures twice { IsTrue D.tells → D.reads disk.new ≤ D.reads disk.old + 2 }
    ensures faultless { OnOk result (D.faults disk.new ≡ D.faults disk.old) }
{
    let length = disk.len()?;
    let mut bytes = vec![in alloc; 0; length as usize]?;
    let count = disk.read_at(0, &mut bytes)?;
    bytes.truncate(count);
    Ok(bytes)
}

// What the bytes stand for, and whether the header is old.
pub(crate) fn read_journal<D: Disk>(
    alloc: Global,
    disk: &mut D,
) -> Result<(Reading, bool), JournalFault>
    ensures stands { IsTrue D.tells → IfOk result (λ found. StandsAfter (header_by found.1) (content (D.history disk.old)) found.0.payloads.items) }
    ensures gate { IfOk result (λ found. found.0.gate ≡ length (header_by found.1 ++ records found.0.payloads.items)) }
    ensures small { IfOk result (λ found. found.0.gate ≤ 2 ^ 40) }
    ensures fault { IsTrue D.tells → IfErr result (IsLoadFault (content (D.history disk.old))) }
    ensures only { IfErr result IsReadingFault }
    ensures failed { IsErrOf result JournalFault.Disk → FailedToRead D.Disk disk.old disk.new }
    // Ok only where no call has ended the disk.
    ensures whole { IsTrue D.tells → OnOk result (IsWhole (D.ends disk.old) (moment (D.history disk.old))) }
    ensures reads { OnlyReads D.Disk disk.old disk.new }
    // Its length and its bytes are asked for once, and at Ok neither call failed.
    ensures twice { IsTrue D.tells → D.reads disk.new ≤ D.reads disk.old + 2 }
    ensures faultless { OnOk result (D.faults disk.new ≡ D.faults disk.old) }
{
    let bytes = read_disk(alloc, disk)?;
    read_text(alloc, &bytes)
}

/// Adds the payloads that a read finds now. It writes nothing. An `Err` changes nothing.
pub fn read_payloads<D: Disk>(
    alloc: Global,
    disk: &mut D,
    found: &mut Vec<Bytes>,
) -> Result<(), JournalFault>
    ensures found { IsTrue D.tells → OnOk result ((payloads : List (List ℕ)) × StandsFor (content (D.history disk.old)) payloads
        × (found.new.items ≡ found.old.items ++ payloads)) }
    ensures small { OnOk result ((payloads : List (List ℕ)) × (found.new.items ≡ found.old.items ++ payloads)
        × (length (header ++ records payloads) ≤ 2 ^ 40)) }
    ensures unchanged { OnErr result (found.new.items ≡ found.old.items) }
    ensures fault { IsTrue D.tells → IfErr result (IsLoadFault (content (D.history disk.old))) }
    ensures only { IfErr result IsReadingFault }
    ensures failed { IsErrOf result JournalFault.Disk → FailedToRead D.Disk disk.old disk.new }
    // Ok only where no call has ended the disk.
    ensures whole { IsTrue D.tells → OnOk result (IsWhole (D.ends disk.old) (moment (D.history disk.old))) }
    ensures reads { OnlyReads D.Disk disk.old disk.new }
    // Its length and its bytes are asked for once, and at Ok neither call failed.
    ensures twice { IsTrue D.tells → D.reads disk.new ≤ D.reads disk.old + 2 }
    ensures faultless { OnOk result (D.faults disk.new ≡ D.faults disk.old) }
{
    let (mut reading, _) = read_journal(alloc, disk)?;
    found.append(&mut reading.payloads)?;
    Ok(())
}
