//! The snapshot and the payloads that the bytes of a disk stand for, by any form of a journal.
ghost use Rattle.std.specs.Prelude.{◌≡◌, ◌+◌, ◌<◌, ◌≤◌, ◌^◌, ◌++◌, ℕ, List, IsTrue, IsErrOf, OnOk, OnErr, IfOk, IfErr, length};
ghost use Rattle.nqs_outside.specs.Reads.{FailedToRead, OnlyReads};
ghost use Rattle.nqs_outside.specs.History.{content, moment, IsWhole};
ghost use Rattle.nqs_journal.specs.Text.{records};
ghost use Rattle.nqs_journal.specs.Either.{front_of, version_of, is_old_form, IsSnapshot, StandsBy};
ghost use Rattle.nqs_journal.specs.Faults.{IsEitherLoadFault, IsEitherReadFault, IsReadingFault};

use crate::JournalFault;
use crate::front::read_front;
use crate::load::read_disk;
use crate::read::read_records;
use nqs_base::Bytes;
use nqs_outside::Disk;
use std::alloc::Global;

/// What was read.
#[derive(Clone, Copy)]
pub(crate) struct Found {
    /// The form's number.
    pub form: u8,
    /// The place of the closed gate behind the records.
    pub gate: u64,
    /// How many payloads stand before it.
    pub count: u64,
}

// Adds the snapshot and the payloads that the bytes stand for.
pub(crate) fn add_text(
    alloc: Global,
    bytes: &[u8],
    snapshot: &mut Vec<u8>,
    found: &mut Vec<Bytes>,
) -> Result<Found, JournalFault>
    ensures added { IfOk result (λ told. (front : List ℕ) × (payloads : List (List ℕ)) × StandsBy bytes.now told.form front payloads
        × (snapshot.new.items ≡ snapshot.old.items ++ front) × (found.new.items ≡ found.old.items ++ payloads)
        × (told.gate ≡ length (front_of told.form front ++ records payloads))) }
    ensures within { IfOk result (λ told. told.gate < length bytes.now) }
    ensures counted { IfOk result (λ told. length found.new.items ≡ length found.old.items + told.count) }
    ensures few { IfOk result (λ told. told.count ≤ told.gate) }
    ensures unchanged { OnErr result ((snapshot.new.items ≡ snapshot.old.items) × (found.new.items ≡ found.old.items)) }
    ensures fault { IfErr result (IsEitherReadFault bytes.now) }
{
    let front = match read_front(bytes) {
        Ok(front) => front,
        Err(place) => return Err(JournalFault::NotJournal(place as u64)),
    };
    let mut reading = read_records(alloc, bytes, front.length)?;
    let count = reading.payloads.len() as u64;
    snapshot.reserve(front.snapshot.len())?;
    found.append(&mut reading.payloads)?;
    snapshot.extend_from_slice(front.snapshot).unwrap();
    Ok(Found {
        form: front.form,
        gate: reading.gate,
        count,
    })
}

// Adds what a read of the disk finds.
pub(crate) fn add_journal<D: Disk>(
    alloc: Global,
    disk: &mut D,
    snapshot: &mut Vec<u8>,
    found: &mut Vec<Bytes>,
) -> Result<Found, JournalFault>
    ensures added { IsTrue D.tells → IfOk result (λ told. (front : List ℕ) × (payloads : List (List ℕ))
        × StandsBy (content (D.history disk.old)) told.form front payloads
        × (snapshot.new.items ≡ snapshot.old.items ++ front) × (found.new.items ≡ found.old.items ++ payloads)
        × (told.gate ≡ length (front_of told.form front ++ records payloads))
        × (told.gate < length (content (D.history disk.old)))) }
    ensures small { IfOk result (λ told. (front : List ℕ) × (payloads : List (List ℕ)) × IsSnapshot told.form front
        × (snapshot.new.items ≡ snapshot.old.items ++ front) × (found.new.items ≡ found.old.items ++ payloads)
        × (told.gate ≡ length (front_of told.form front ++ records payloads)) × (told.gate ≤ 2 ^ 40)) }
    ensures counted { IfOk result (λ told. length found.new.items ≡ length found.old.items + told.count) }
    ensures few { IfOk result (λ told. told.count ≤ told.gate) }
    ensures unchanged { OnErr result ((snapshot.new.items ≡ snapshot.old.items) × (found.new.items ≡ found.old.items)) }
    ensures fault { IsTrue D.tells → IfErr result (IsEitherLoadFault (content (D.history disk.old))) }
    ensures only { IfErr result IsReadingFault }
    ensures failed { IsErrOf result JournalFault.Disk → FailedToRead D.Disk disk.old disk.new }
    // Ok only where no call has ended the disk.
    ensures whole { IsTrue D.tells → OnOk result (IsWhole (D.ends disk.old) (moment (D.history disk.old))) }
    ensures reads { OnlyReads D.Disk disk.old disk.new }
    // Its length and its bytes are asked for once, and at Ok neither call failed.
    ensures twice { IsTrue D.tells → D.reads disk.new ≤ D.reads disk.old + 2 }
    ensures faultless { OnOk result (D.faults disk.new ≡ D.faults disk.old) }
{
    let bytes = read_disk(alloc, disk)?;
    add_text(alloc, &bytes, snapshot, found)
}

// Whether a text of the form is old.
pub(crate) fn is_form_old(form: u8) -> bool
    ensures { result ≡ is_old_form form }
{
    form == 1 || form == 3
}

// The version of the snapshot's header, 0 where there is no snapshot.
pub(crate) fn version_by(form: u8) -> u8
    ensures { result ≡ version_of form }
{
    if form == 3 { 0 } else { form }
}

/// Adds the snapshot's bytes, where there is one, and the payloads that a read finds now, by any
/// form of a journal. The answer is 0 where there is no snapshot, else the version of its header,
/// 1 or 2. It writes nothing. `NotJournal` tells the first byte at which none of the headers goes
/// on, 16 where the snapshot or its length runs past the end, or the gate at which the bytes end or
/// behind which no record stands. An `Err` changes nothing.
pub fn read_either<D: Disk>(
    alloc: Global,
    disk: &mut D,
    snapshot: &mut Vec<u8>,
    found: &mut Vec<Bytes>,
) -> Result<u8, JournalFault>
    ensures found { IsTrue D.tells → IfOk result (λ version. (form : ℕ) × (front : List ℕ) × (payloads : List (List ℕ))
        × (version ≡ version_of form) × StandsBy (content (D.history disk.old)) form front payloads
        × (snapshot.new.items ≡ snapshot.old.items ++ front) × (found.new.items ≡ found.old.items ++ payloads)) }
    ensures small { IfOk result (λ version. (front : List ℕ) × (payloads : List (List ℕ)) × IsSnapshot version front
        × (snapshot.new.items ≡ snapshot.old.items ++ front) × (found.new.items ≡ found.old.items ++ payloads)
        × (length (front_of version front ++ records payloads) ≤ 2 ^ 40)) }
    ensures unchanged { OnErr result ((snapshot.new.items ≡ snapshot.old.items) × (found.new.items ≡ found.old.items)) }
    ensures fault { IsTrue D.tells → IfErr result (IsEitherLoadFault (content (D.history disk.old))) }
    ensures only { IfErr result IsReadingFault }
    ensures failed { IsErrOf result JournalFault.Disk → FailedToRead D.Disk disk.old disk.new }
    // Ok only where no call has ended the disk.
    ensures whole { IsTrue D.tells → OnOk result (IsWhole (D.ends disk.old) (moment (D.history disk.old))) }
    ensures reads { OnlyReads D.Disk disk.old disk.new }
    // Its length and its bytes are asked for once, and at Ok neither call failed.
    ensures twice { IsTrue D.tells → D.reads disk.new ≤ D.reads disk.old + 2 }
    ensures faultless { OnOk result (D.faults disk.new ≡ D.faults disk.old) }
{
    match add_journal(alloc, disk, snapshot, found) {
        Ok(told) => Ok(version_by(told.form)),
        Err(fault) => Err(fault),
    }
}
