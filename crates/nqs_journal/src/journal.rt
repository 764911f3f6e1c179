//! An open journal: payloads are appended by four calls of its disk, the gate's byte last.
ghost use Rattle.std.specs.Prelude.{◌≡◌, ◌-◌, max, nat_le, IfOk, IfErr, ◌⊎◌, ◌↔◌, ◌+◌, ◌<◌, ◌≤◌, ◌^◌, ◌++◌, [], ◌∷◌, List, ℕ, IsTrue, Bool, IsErrOf, OnOk};
ghost use Rattle.std.specs.Prelude.{OnErr, MatchResult, true, false, length, vec_capacity};
ghost use Rattle.nqs_outside.specs.Causes.{Rose};
ghost use Rattle.nqs_outside.specs.Reads.{FailedToRead, OnlyReads};
ghost use Rattle.nqs_outside.specs.History.{Call, content, IsQuiet, extended, moment, state_at, MayLeave, EachSince, StopsShort, IsExact, IsWhole};
ghost use Rattle.nqs_journal.specs.Text.{header, header_by, records, snapshot_front, StandsAfter, StandsFor};
ghost use Rattle.nqs_journal.specs.Either.{front_of, version_of, is_old_form, IsSnapshot, IsSnapshotText, StandsBy};
ghost use Rattle.nqs_journal.specs.Plan.{append_calls, begin_calls, format_calls, front_calls};
ghost use Rattle.nqs_journal.specs.Faults.{IsAppendFault, IsEitherLoadFault, IsLoadFault, IsReadingFault, MatchBegin};
ghost use Rattle.nqs_journal.specs.Opened.{IsCounted, IsOpen};
ghost use Rattle.nqs_journal.specs.Gate.{IsAtGate};
ghost use Rattle.nqs_base.specs.Want.{want};

use crate::JournalFault;
use crate::begin::{snapshot_text, write_begin};
use crate::either::{add_journal, is_form_old, read_either, version_by};
use crate::load::{read_journal, read_payloads};
use crate::write::{fill, write_behind};
use nqs_base::Bytes;
use nqs_outside::{Disk, Failed, Fused};
use std::alloc::Global;

pub(crate) const LONGEST: usize = 65_536;

/// A length, the longest payload and a gate.
const ROOM: usize = 65_541;

/// An open journal over a disk, as `load`, `load_either` and `begin` give it. Payloads of at most
/// 65,536 bytes are appended. After an append that ended with `Disk` it is stopped and appends
/// nothing more; `close` gives the disk back, which may be loaded anew.
#[derive(Drop)]
pub struct Journal<D: Disk> {
    disk: D,
    /// The place of the next record's gate.
    gate: u64,
    /// How many payloads stand before it.
    count: u64,
    /// Whether its header is that of the version before.
    is_old: bool,
    buffer: Vec<u8>,
    stopped: bool,
    ghost small: { gate ≤ 2 ^ 40 },
    ghost within: { IsTrue D.tells → stopped ≡ false → gate < length (content (D.history disk)) },
    ghost room: { 65541 ≤ vec_capacity buffer },
    ghost few: { count ≤ gate },
    ghost counted: { IsTrue D.tells → stopped ≡ false → ∥ IsCounted (D.history disk) gate count is_old ∥₁ },
}

impl<D: Disk> Journal<D> {
    ghost use Rattle.nqs_journal.specs.Open.{disk_of, gate_of, count_of, is_old, is_stopped, history_of, Tells, BeforeOrAfter};

    /// Adds a payload. It is on the disk before the answer. After `Disk` the journal is stopped.
    pub fn append(&mut self, payload: &[u8]) -> Result<(), JournalFault>
        ensures too_long { IsErrOf result JournalFault.TooLong ↔ (65536 < length payload.now) }
        ensures stopped { IsErrOf result JournalFault.Stopped ↔ ((length payload.now ≤ 65536) × IsTrue (is_stopped self.old)) }
        ensures only { IfErr result IsAppendFault }
        ensures disk { IsErrOf result JournalFault.Disk → Rose (D.faults (disk_of self.old)) (D.faults (disk_of self.new)) }
        ensures stops { IsTrue (is_stopped self.new) ↔ (IsTrue (is_stopped self.old) ⊎ IsErrOf result JournalFault.Disk) }
        ensures running { OnOk result (is_stopped self.new ≡ false) }
        ensures counted { MatchResult result (λ _. count_of self.new ≡ count_of self.old + 1) (λ _. count_of self.new ≡ count_of self.old) }
        ensures old { is_old self.new ≡ is_old self.old }
        ensures later { D.faults (disk_of self.old) ≤ D.faults (disk_of self.new) }
        // At Ok no call failed, and the disk isn't read.
        ensures faultless { OnOk result (D.faults (disk_of self.new) ≡ D.faults (disk_of self.old)) }
        ensures unread { IsTrue D.tells → D.reads (disk_of self.new) ≡ D.reads (disk_of self.old) }

        // The calls that it makes: all four, or the first of them, of which only the last may have
        // failed.
        ensures made { IsTrue D.tells → OnOk result (history_of self.new ≡ extended (history_of self.old) (append_calls (gate_of self.old) payload.now)) }
        ensures broken { IsTrue D.tells → OnErr result ((calls : List Call) × (history_of self.new ≡ extended (history_of self.old) calls)
            × StopsShort (append_calls (gate_of self.old) payload.now) calls) }

        // Which of them fails is the disk's to say, unless it is starved.
        ensures exact { IsTrue D.tells → length payload.now ≤ 65536 → is_stopped self.old ≡ false
            → IsExact (D.fails (disk_of self.old)) (D.starved (disk_of self.old)) (D.starved (disk_of self.new)) (history_of self.old) (history_of self.new)
            (append_calls (gate_of self.old) payload.now) }
        // At Ok none of them was to fail.
        ensures due { IsTrue D.tells → OnOk result ((i : ℕ) → i < 4 → D.fails (disk_of self.old) (moment (history_of self.old) + i) ≡ false) }
        ensures fuse { IsTrue D.tells → (i : ℕ) → D.fails (disk_of self.new) i ≡ D.fails (disk_of self.old) i }
        ensures ends { IsTrue D.tells → (i : ℕ) → D.ends (disk_of self.new) i ≡ D.ends (disk_of self.old) i }

        // Each image of each moment of the call has the payloads from before it, with the new one
        // or without.
        ensures any_moment { IsTrue D.tells → (front : List ℕ) (payloads : List (List ℕ)) → Tells self.old front payloads
            → EachSince (moment (history_of self.old)) (history_of self.new) (BeforeOrAfter front payloads payload.now) }

        // At Ok it is there.
        ensures acknowledged { IsTrue D.tells → OnOk result ((front : List ℕ) (payloads : List (List ℕ))
            → Tells self.old front payloads → Tells self.new front (payloads ++ payload.now ∷ [])) }

        // Before the third call it isn't.
        ensures until_third { IsTrue D.tells → (front : List ℕ) (payloads : List (List ℕ)) → Tells self.old front payloads
            → (t : ℕ) (image : List ℕ) → moment (history_of self.old) ≤ t
            → t ≤ moment (history_of self.old) + 2 → t ≤ moment (history_of self.new)
            → MayLeave (history_of self.new) t image → StandsAfter front image payloads }

        // From the third on, until the fourth is answered Ok, the gate's byte decides.
        ensures at_the_gate { IsTrue D.tells → (front : List ℕ) (payloads : List (List ℕ)) → Tells self.old front payloads
            → (t : ℕ) → moment (history_of self.old) + 3 ≤ t → t ≤ moment (history_of self.new)
            → OnOk result (t ≡ moment (history_of self.old) + 3)
            → IsAtGate (state_at (history_of self.new) t) (gate_of self.old) (λ image. StandsAfter front image payloads)
            (λ image. StandsAfter front image (payloads ++ payload.now ∷ [])) }

        ensures refused { (result ≡ Err JournalFault.TooLong) ⊎ (result ≡ Err JournalFault.Stopped) → self.new ≡ self.old }
    {
        if payload.len() > LONGEST {
            return Err(JournalFault::TooLong);
        }
        if self.stopped {
            return Err(JournalFault::Stopped);
        }
        fill(&mut self.buffer, payload);
        match write_behind(&mut self.disk, self.gate, &self.buffer) {
            Ok(()) => {
                self.gate += 5 + payload.len() as u64;
                self.count += 1;
                Ok(())
            }
            Err(Failed) => {
                self.stopped = true;
                Err(JournalFault::Disk)
            }
        }
    }
}

// The text of a journal without records.
const EMPTY: [u8; 17] = *b"NQS-JOURNAL-v2\n\n\0";

/// Makes an empty disk a journal.
pub fn format<D: Disk>(disk: &mut D) -> Result<(), JournalFault>
    requires { IsTrue D.tells → IsQuiet (D.history disk.old) × (content (D.history disk.old) ≡ []) }
    ensures disk { OnErr result (Rose (D.faults disk.old) (D.faults disk.new)) }
    ensures fault { IfErr result (λ fault. fault ≡ JournalFault.Disk) }
    ensures later { D.faults disk.old ≤ D.faults disk.new }
    // At Ok no call failed, and the disk isn't read.
    ensures faultless { OnOk result (D.faults disk.new ≡ D.faults disk.old) }
    ensures unread { IsTrue D.tells → D.reads disk.new ≡ D.reads disk.old }
    ensures made { IsTrue D.tells → OnOk result (D.history disk.new ≡ extended (D.history disk.old) format_calls) }
    ensures broken { IsTrue D.tells → OnErr result ((calls : List Call) × (D.history disk.new ≡ extended (D.history disk.old) calls)
        × StopsShort format_calls calls) }
    ensures formatted { IsTrue D.tells → OnOk result (IsOpen (D.history disk.new) header 16 []) }
{
    disk.write_at(0, &EMPTY)?;
    disk.sync()?;
    Ok(())
}

impl<D: Disk> Journal<D> {
    ghost use Rattle.nqs_journal.specs.Open.{disk_of, gate_of, count_of, is_old, is_stopped, history_of, Tells};

    /// Opens a journal and adds its payloads to those found. On a refusal these are as before.
    pub fn load(
        alloc: Global,
        disk: D,
        found: &mut Vec<Bytes>,
    ) -> Result<Journal<D>, (JournalFault, D)>
        requires { IsTrue D.tells → IsQuiet (D.history disk) }
        ensures tells { IsTrue D.tells → IfOk result (λ journal. (payloads : List (List ℕ)) × Tells journal (header_by (is_old journal)) payloads
            × (found.new.items ≡ found.old.items ++ payloads)) }
        ensures small { OnOk result ((payloads : List (List ℕ)) × (found.new.items ≡ found.old.items ++ payloads)
            × (length (header ++ records payloads) ≤ 2 ^ 40)) }
        ensures running { IfOk result (λ journal. is_stopped journal ≡ false) }
        ensures counted { IfOk result (λ journal. length found.new.items ≡ length found.old.items + count_of journal) }
        ensures unchanged { OnErr result (found.new.items ≡ found.old.items) }
        ensures fault { IsTrue D.tells → IfErr result (λ e. IsLoadFault (content (D.history disk)) e.0) }
        ensures only { IfErr result (λ e. IsReadingFault e.0) }
        ensures failed { IfErr result (λ e. e.0 ≡ JournalFault.Disk → FailedToRead D.Disk disk e.1) }
        // Ok only where no call has ended the disk.
        ensures whole { IsTrue D.tells → OnOk result (IsWhole (D.ends disk) (moment (D.history disk))) }
        ensures reads { MatchResult result (λ journal. OnlyReads D.Disk disk (disk_of journal)) (λ e. OnlyReads D.Disk disk e.1) }
        // Its length and its bytes are asked for once, and at Ok neither call failed.
        ensures twice { IsTrue D.tells → MatchResult result (λ journal. D.reads (disk_of journal) ≤ D.reads disk + 2) (λ e. D.reads e.1 ≤ D.reads disk + 2) }
        ensures faultless { IfOk result (λ journal. D.faults (disk_of journal) ≡ D.faults disk) }
    {
        let mut disk = disk;
        let buffer = match Vec::with_capacity(alloc, ROOM) {
            Ok(buffer) => buffer,
            Err(refused) => return Err((refused.into(), disk)),
        };
        let (mut reading, is_old) = match read_journal(alloc, &mut disk) {
            Ok(read) => read,
            Err(fault) => return Err((fault, disk)),
        };
        let count = reading.payloads.len() as u64;
        if let Err(refused) = found.append(&mut reading.payloads) {
            return Err((refused.into(), disk));
        }
        Ok(Journal {
            disk,
            gate: reading.gate,
            count,
            is_old,
            buffer,
            stopped: false,
        })
    }

    /// Opens a journal of any form, adds the snapshot's bytes to those handed in, where there is
    /// one, and the payloads to those found. Beside the journal stands 0 where there is no
    /// snapshot, else the version of its header, 1 or 2. `NotJournal` tells the place that
    /// `read_either` tells. On a refusal both lists are as before.
    pub fn load_either(
        alloc: Global,
        disk: D,
        snapshot: &mut Vec<u8>,
        found: &mut Vec<Bytes>,
    ) -> Result<(Journal<D>, u8), (JournalFault, D)>
        requires { IsTrue D.tells → IsQuiet (D.history disk) }
        ensures tells { IsTrue D.tells → IfOk result (λ told. (form : ℕ) × (front : List ℕ) × (payloads : List (List ℕ))
            × (told.1 ≡ version_of form) × (is_old told.0 ≡ is_old_form form) × IsSnapshot form front × Tells told.0 (front_of form front) payloads
            × (snapshot.new.items ≡ snapshot.old.items ++ front) × (found.new.items ≡ found.old.items ++ payloads)) }
        ensures small { IfOk result (λ told. (front : List ℕ) × (payloads : List (List ℕ)) × IsSnapshot told.1 front
            × (snapshot.new.items ≡ snapshot.old.items ++ front) × (found.new.items ≡ found.old.items ++ payloads)
            × (length (front_of told.1 front ++ records payloads) ≤ 2 ^ 40)) }
        ensures running { IfOk result (λ told. is_stopped told.0 ≡ false) }
        ensures counted { IfOk result (λ told. length found.new.items ≡ length found.old.items + count_of told.0) }
        ensures unchanged { OnErr result ((snapshot.new.items ≡ snapshot.old.items) × (found.new.items ≡ found.old.items)) }
        ensures fault { IsTrue D.tells → IfErr result (λ e. IsEitherLoadFault (content (D.history disk)) e.0) }
        ensures only { IfErr result (λ e. IsReadingFault e.0) }
        ensures failed { IfErr result (λ e. e.0 ≡ JournalFault.Disk → FailedToRead D.Disk disk e.1) }
        // Ok only where no call has ended the disk.
        ensures whole { IsTrue D.tells → OnOk result (IsWhole (D.ends disk) (moment (D.history disk))) }
        ensures reads { MatchResult result (λ told. OnlyReads D.Disk disk (disk_of told.0)) (λ e. OnlyReads D.Disk disk e.1) }
        // Its length and its bytes are asked for once, and at Ok neither call failed.
        ensures twice { IsTrue D.tells → MatchResult result (λ told. D.reads (disk_of told.0) ≤ D.reads disk + 2) (λ e. D.reads e.1 ≤ D.reads disk + 2) }
        ensures faultless { IfOk result (λ told. D.faults (disk_of told.0) ≡ D.faults disk) }
    {
        let mut disk = disk;
        let buffer = match Vec::with_capacity(alloc, ROOM) {
            Ok(buffer) => buffer,
            Err(refused) => return Err((refused.into(), disk)),
        };
        let told = match add_journal(alloc, &mut disk, snapshot, found) {
            Ok(told) => told,
            Err(fault) => return Err((fault, disk)),
        };
        let journal = Journal {
            disk,
            gate: told.gate,
            count: told.count,
            is_old: is_form_old(told.form),
            buffer,
            stopped: false,
        };
        Ok((journal, version_by(told.form)))
    }

    /// Makes a disk the journal of a snapshot, whatever stood there.
    pub fn begin(alloc: Global, disk: D, snapshot: &[u8]) -> Result<Journal<D>, (JournalFault, D)>
        ensures tells { IsTrue D.tells → IfOk result (λ journal. Tells journal (snapshot_front snapshot.now) []) }
        ensures made { IsTrue D.tells → IfOk result (λ journal. history_of journal ≡ extended (D.history disk) (front_calls (snapshot_front snapshot.now))) }
        ensures broken { IsTrue D.tells → IfErr result (λ e. MatchBegin e.0 (D.history disk) (D.history e.1) (front_calls (snapshot_front snapshot.now))) }
        ensures failed { IfErr result (λ e. e.0 ≡ JournalFault.Disk → Rose (D.faults disk) (D.faults e.1)) }
        // Memory comes before the first call of the disk, reads included.
        ensures only { IfErr result (λ e. (e.0 ≡ JournalFault.Disk) ⊎ ((e.0 ≡ JournalFault.Memory want) × (e.1 ≡ disk))) }
        // Which of the two fails is the disk's to say, unless it is starved.
        ensures exact { IsTrue D.tells → MatchResult result
            (λ journal. IsExact (D.fails disk) (D.starved disk) (D.starved (disk_of journal)) (D.history disk) (history_of journal)
            (front_calls (snapshot_front snapshot.now)))
            (λ e. e.0 ≡ JournalFault.Disk → IsExact (D.fails disk) (D.starved disk) (D.starved e.1) (D.history disk) (D.history e.1)
            (front_calls (snapshot_front snapshot.now))) }
        // At Ok none of them was to fail.
        ensures due { IsTrue D.tells → OnOk result ((i : ℕ) → i < 2 → D.fails disk (moment (D.history disk) + i) ≡ false) }
        ensures running { IfOk result (λ journal. is_stopped journal ≡ false) }
        ensures counted { IfOk result (λ journal. count_of journal ≡ 0) }
        ensures new { IfOk result (λ journal. is_old journal ≡ false) }
        ensures fuse { IsTrue D.tells → (i : ℕ) → MatchResult result (λ journal. D.fails (disk_of journal) i ≡ D.fails disk i)
            (λ e. D.fails e.1 i ≡ D.fails disk i) }
        ensures ends { IsTrue D.tells → (i : ℕ) → MatchResult result (λ journal. D.ends (disk_of journal) i ≡ D.ends disk i)
            (λ e. D.ends e.1 i ≡ D.ends disk i) }
        ensures later { MatchResult result (λ journal. D.faults disk ≤ D.faults (disk_of journal)) (λ e. D.faults disk ≤ D.faults e.1) }
        // At Ok no call failed, and the disk isn't read.
        ensures faultless { IfOk result (λ journal. D.faults (disk_of journal) ≡ D.faults disk) }
        ensures unread { IsTrue D.tells → MatchResult result (λ journal. D.reads (disk_of journal) ≡ D.reads disk) (λ e. D.reads e.1 ≡ D.reads disk) }
    {
        let mut disk = disk;
        let buffer = match Vec::with_capacity(alloc, ROOM) {
            Ok(buffer) => buffer,
            Err(refused) => return Err((refused.into(), disk)),
        };
        let text = match snapshot_text(alloc, snapshot) {
            Ok(text) => text,
            Err(refused) => return Err((JournalFault::Memory(refused), disk)),
        };
        match write_begin(&mut disk, &text) {
            Ok(()) => Ok(Journal {
                disk,
                gate: text.len() as u64 - 1,
                count: 0,
                is_old: false,
                buffer,
                stopped: false,
            }),
            Err(Failed) => Err((JournalFault::Disk, disk)),
        }
    }

    /// The journal of a disk that isn't used: it is stopped, so that nothing is appended until it
    /// is begun anew. It makes no call of the disk, and a refusal gives the disk back.
    pub fn rest(alloc: Global, disk: D) -> Result<Journal<D>, (JournalFault, D)>
        ensures disk { MatchResult result (λ journal. disk_of journal ≡ disk) (λ e. e.1 ≡ disk) }
        ensures only { IfErr result (λ e. e.0 ≡ JournalFault.Memory want) }
        ensures stopped { IfOk result (λ journal. is_stopped journal ≡ true) }
        ensures counted { IfOk result (λ journal. count_of journal ≡ 0) }
        ensures new { IfOk result (λ journal. is_old journal ≡ false) }
    {
        match Vec::with_capacity(alloc, ROOM) {
            Ok(buffer) => Ok(Journal {
                disk,
                gate: 0,
                count: 0,
                is_old: false,
                buffer,
                stopped: true,
            }),
            Err(refused) => Err((refused.into(), disk)),
        }
    }

    /// Makes its disk the journal of the snapshot whose text `snapshot_text` gave, whatever stood
    /// there and whatever the journal was. It takes no memory. After an error the journal is
    /// stopped.
    pub fn begin_anew(&mut self, text: &[u8]) -> Result<(), Failed>
        requires { IsSnapshotText text.now }
        ensures running { OnOk result (is_stopped self.new ≡ false) }
        ensures stops { OnErr result (is_stopped self.new ≡ true) }
        ensures counted { MatchResult result (λ _. count_of self.new ≡ 0) (λ _. count_of self.new ≡ count_of self.old) }
        ensures new { MatchResult result (λ _. is_old self.new ≡ false) (λ _. is_old self.new ≡ is_old self.old) }
        ensures gate { OnErr result (gate_of self.new ≡ gate_of self.old) }
        ensures tells { IsTrue D.tells → OnOk result ((snapshot : List ℕ) → text.now ≡ snapshot_front snapshot ++ 0 ∷ []
            → Tells self.new (snapshot_front snapshot) []) }
        ensures made { IsTrue D.tells → OnOk result (history_of self.new ≡ extended (history_of self.old) (begin_calls text.now)) }
        ensures broken { IsTrue D.tells → OnErr result ((calls : List Call) × (history_of self.new ≡ extended (history_of self.old) calls)
            × StopsShort (begin_calls text.now) calls) }
        // Which of the two fails is the disk's to say, unless it is starved.
        ensures exact { IsTrue D.tells → IsExact (D.fails (disk_of self.old)) (D.starved (disk_of self.old)) (D.starved (disk_of self.new))
            (history_of self.old) (history_of self.new) (begin_calls text.now) }
        // At Ok none of them was to fail.
        ensures due { IsTrue D.tells → OnOk result ((i : ℕ) → i < 2 → D.fails (disk_of self.old) (moment (history_of self.old) + i) ≡ false) }
        ensures fuse { IsTrue D.tells → (i : ℕ) → D.fails (disk_of self.new) i ≡ D.fails (disk_of self.old) i }
        ensures ends { IsTrue D.tells → (i : ℕ) → D.ends (disk_of self.new) i ≡ D.ends (disk_of self.old) i }
        ensures later { D.faults (disk_of self.old) ≤ D.faults (disk_of self.new) }
        ensures failed { OnErr result (Rose (D.faults (disk_of self.old)) (D.faults (disk_of self.new))) }
        // At Ok no call failed, and the disk isn't read.
        ensures faultless { OnOk result (D.faults (disk_of self.new) ≡ D.faults (disk_of self.old)) }
        ensures unread { IsTrue D.tells → D.reads (disk_of self.new) ≡ D.reads (disk_of self.old) }
    {
        self.stopped = true;
        write_begin(&mut self.disk, text)?;
        self.gate = text.len() as u64 - 1;
        self.count = 0;
        self.is_old = false;
        self.stopped = false;
        Ok(())
    }

    /// How many payloads it has. Of a stopped journal it counts those before the append that
    /// failed.
    pub fn count(&self) -> u64
        ensures counted { result ≡ count_of self.now }
        ensures told { IsTrue D.tells → is_stopped self.now ≡ false → (form : ℕ) (snapshot : List ℕ) (payloads : List (List ℕ))
            → IsSnapshot form snapshot → Tells self.now (front_of form snapshot) payloads → result ≡ length payloads }
    {
        self.count
    }

    /// Whether its text is old: its header is of the version before, with a snapshot or without. A
    /// journal at rest isn't, and a stopped one is what it was before. It takes no memory.
    pub fn is_old(&self) -> bool
        ensures kept { result ≡ is_old self.now }
        ensures told { IsTrue D.tells → is_stopped self.now ≡ false → (form : ℕ) (snapshot : List ℕ) (payloads : List (List ℕ))
            → IsSnapshot form snapshot → Tells self.now (front_of form snapshot) payloads → result ≡ is_old_form form }
    {
        self.is_old
    }

    /// Hands the disk back.
    pub fn close(self) -> D
        ensures { result ≡ disk_of self }
    {
        let Journal {
            disk,
            gate: _,
            count: _,
            is_old: _,
            buffer: _,
            stopped: _,
        } = self;
        disk
    }

    /// Adds the payloads that a read of the disk finds now, whatever the journal told before. It
    /// writes nothing, and the journal stays as it is. `NotJournal` tells the first byte at fault;
    /// an `Err` adds nothing.
    pub fn reread(&mut self, alloc: Global, found: &mut Vec<Bytes>) -> Result<(), JournalFault>
        ensures stands { IsTrue D.tells → OnOk result ((payloads : List (List ℕ)) × StandsFor (content (history_of self.old)) payloads
            × (found.new.items ≡ found.old.items ++ payloads)) }
        ensures found { IsTrue D.tells → OnOk result ((is_old : Bool) (payloads : List (List ℕ)) → Tells self.old (header_by is_old) payloads
            → found.new.items ≡ found.old.items ++ payloads) }
        ensures small { OnOk result ((payloads : List (List ℕ)) × (found.new.items ≡ found.old.items ++ payloads)
            × (length (header ++ records payloads) ≤ 2 ^ 40)) }
        ensures unchanged { OnErr result (found.new.items ≡ found.old.items) }
        ensures tells { IsTrue D.tells → (front : List ℕ) (payloads : List (List ℕ)) → Tells self.old front payloads → Tells self.new front payloads }
        ensures fault { IsTrue D.tells → IfErr result (IsLoadFault (content (history_of self.old))) }
        ensures only { IfErr result IsReadingFault }
        ensures failed { IsErrOf result JournalFault.Disk → FailedToRead D.Disk (disk_of self.old) (disk_of self.new) }
        // Ok only where no call has ended the disk.
        ensures whole { IsTrue D.tells → OnOk result (IsWhole (D.ends (disk_of self.old)) (moment (history_of self.old))) }
        ensures reads { OnlyReads D.Disk (disk_of self.old) (disk_of self.new) }
        // Its length and its bytes are asked for once, and at Ok neither call failed.
        ensures twice { IsTrue D.tells → D.reads (disk_of self.new) ≤ D.reads (disk_of self.old) + 2 }
        ensures faultless { OnOk result (D.faults (disk_of self.new) ≡ D.faults (disk_of self.old)) }
        ensures stays { (gate_of self.new ≡ gate_of self.old) × (is_stopped self.new ≡ is_stopped self.old) }
        ensures counted { count_of self.new ≡ count_of self.old }
        ensures old { is_old self.new ≡ is_old self.old }
    {
        read_payloads(alloc, &mut self.disk, found)
    }

    /// Adds what `read_either` finds on the disk now, whatever the journal told before. It writes
    /// nothing, and the journal stays as it is. An `Err` adds nothing.
    pub fn reread_either(
        &mut self,
        alloc: Global,
        snapshot: &mut Vec<u8>,
        found: &mut Vec<Bytes>,
    ) -> Result<u8, JournalFault>
        ensures stands { IsTrue D.tells → IfOk result (λ version. (form : ℕ) × (front : List ℕ) × (payloads : List (List ℕ))
            × (version ≡ version_of form) × StandsBy (content (history_of self.old)) form front payloads
            × (snapshot.new.items ≡ snapshot.old.items ++ front) × (found.new.items ≡ found.old.items ++ payloads)) }
        ensures found { IsTrue D.tells → IfOk result (λ version. (form : ℕ) (front : List ℕ) (payloads : List (List ℕ)) → IsSnapshot form front
            → Tells self.old (front_of form front) payloads
            → (version ≡ version_of form) × (snapshot.new.items ≡ snapshot.old.items ++ front) × (found.new.items ≡ found.old.items ++ payloads)) }
        ensures small { IfOk result (λ version. (front : List ℕ) × (payloads : List (List ℕ)) × IsSnapshot version front
            × (snapshot.new.items ≡ snapshot.old.items ++ front) × (found.new.items ≡ found.old.items ++ payloads)
            × (length (front_of version front ++ records payloads) ≤ 2 ^ 40)) }
        ensures unchanged { OnErr result ((snapshot.new.items ≡ snapshot.old.items) × (found.new.items ≡ found.old.items)) }
        ensures tells { IsTrue D.tells → (front : List ℕ) (payloads : List (List ℕ)) → Tells self.old front payloads → Tells self.new front payloads }
        ensures fault { IsTrue D.tells → IfErr result (IsEitherLoadFault (content (history_of self.old))) }
        ensures only { IfErr result IsReadingFault }
        ensures failed { IsErrOf result JournalFault.Disk → FailedToRead D.Disk (disk_of self.old) (disk_of self.new) }
        // Ok only where no call has ended the disk.
        ensures whole { IsTrue D.tells → OnOk result (IsWhole (D.ends (disk_of self.old)) (moment (history_of self.old))) }
        ensures reads { OnlyReads D.Disk (disk_of self.old) (disk_of self.new) }
        // Its length and its bytes are asked for once, and at Ok neither call failed.
        ensures twice { IsTrue D.tells → D.reads (disk_of self.new) ≤ D.reads (disk_of self.old) + 2 }
        ensures faultless { OnOk result (D.faults (disk_of self.new) ≡ D.faults (disk_of self.old)) }
        ensures stays { (gate_of self.new ≡ gate_of self.old) × (is_stopped self.new ≡ is_stopped self.old) }
        ensures counted { count_of self.new ≡ count_of self.old }
        ensures old { is_old self.new ≡ is_old self.old }
    {
        read_either(alloc, &mut self.disk, snapshot, found)
    }
}

impl<D: Fused> Journal<D> {
    ghost use Rattle.nqs_journal.specs.Open.{disk_of, gate_of, count_of, is_old, is_stopped, history_of};

    /// Makes the calls-th write or sync from here of the disk fail, and each later call, and no
    /// other. Where a call was made from which on each one is to fail, that stays so.
    pub fn fuse(&mut self, calls: u64)
        ensures same { D.history (disk_of self.new) ≡ D.history (disk_of self.old) }
        ensures set { IsTrue D.tells → ((i : ℕ) → i < moment (history_of self.old) → D.fails (disk_of self.old) i ≡ false)
            → (i : ℕ) → D.fails (disk_of self.new) i ≡ nat_le (moment (history_of self.old) + (max calls 1 - 1)) i }
        ensures later { IsTrue D.tells → IsWhole (D.ends (disk_of self.old)) (moment (history_of self.old))
            → (i : ℕ) → D.fails (disk_of self.new) i ≡ nat_le (moment (history_of self.old) + (max calls 1 - 1)) i }
        ensures stays { IsTrue D.tells → (i : ℕ) → i < moment (history_of self.old) → IsTrue (D.ends (disk_of self.old) i)
            → (j : ℕ) → D.ends (disk_of self.new) j ≡ D.ends (disk_of self.old) j }
        ensures onward { IsTrue D.tells → (i : ℕ) → IsTrue (D.fails (disk_of self.new) i)
            → (j : ℕ) → i ≤ j → IsTrue (D.fails (disk_of self.new) j) }
        ensures alike { IsTrue D.tells → (i : ℕ) → D.ends (disk_of self.new) i ≡ D.fails (disk_of self.new) i }
        ensures starved { D.starved (disk_of self.new) ≡ D.starved (disk_of self.old) }
        ensures gate { gate_of self.new ≡ gate_of self.old }
        ensures counted { count_of self.new ≡ count_of self.old }
        ensures old { is_old self.new ≡ is_old self.old }
        ensures stopped { is_stopped self.new ≡ is_stopped self.old }
        ensures faults { D.faults (disk_of self.new) ≡ D.faults (disk_of self.old) }
        ensures unread { D.reads (disk_of self.new) ≡ D.reads (disk_of self.old) }
    {
        self.disk.fuse(calls);
    }
}
