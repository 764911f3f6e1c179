//! Journals of all forms: texts by hand, whole, cut short at every byte, and with one byte wrong;
//! a journal that was begun by a snapshot; a disk whose reads fail.
ghost use Rattle.std.specs.Prelude.{◌≡◌, false, [], IsErr, IfOk, OnOk};
ghost use Rattle.nqs_outside.specs.Causes.{HasCause};
ghost use Rattle.nqs_outside.specs.History.{IsQuiet};
ghost use Rattle.nqs_disk.specs.MemDisk.{history_of};

use crate::journal::{disk_of, has};
use nqs_base::{Bytes, Tear};
use nqs_disk::MemDisk;
use nqs_journal::{Journal, JournalFault, read_either};
use nqs_outside::{Disk, Failed};
use std::alloc::Global;
use std::test::Fail;

/// What comes before the records.
struct Form {
    /// 0 where there is no snapshot.
    version: u8,
    is_old: bool,
    header: &'static [u8],
    snapshot: &'static [u8],
}

const LONG: [u8; 300] = [7; 300];

/// By the header of each version, without a snapshot and with snapshots of 0, 1 and 300 bytes.
static FORMS: [Form; 8] = [
    Form {
        version: 0,
        is_old: true,
        header: b"NQS-JOURNAL-v1\n\n",
        snapshot: b"",
    },
    Form {
        version: 0,
        is_old: false,
        header: b"NQS-JOURNAL-v2\n\n",
        snapshot: b"",
    },
    Form {
        version: 1,
        is_old: true,
        header: b"NQS-SNAPSHOT-v1\n\0\0\0\0\0\0\0\0",
        snapshot: b"",
    },
    Form {
        version: 1,
        is_old: true,
        header: b"NQS-SNAPSHOT-v1\n\0\0\0\0\0\0\0\x01",
        snapshot: b"x",
    },
    Form {
        version: 1,
        is_old: true,
        header: b"NQS-SNAPSHOT-v1\n\0\0\0\0\0\0\x01\x2c",
        snapshot: &LONG,
    },
    Form {
        version: 2,
        is_old: false,
        header: b"NQS-SNAPSHOT-v2\n\0\0\0\0\0\0\0\0",
        snapshot: b"",
    },
    Form {
        version: 2,
        is_old: false,
        header: b"NQS-SNAPSHOT-v2\n\0\0\0\0\0\0\0\x01",
        snapshot: b"x",
    },
    Form {
        version: 2,
        is_old: false,
        header: b"NQS-SNAPSHOT-v2\n\0\0\0\0\0\0\x01\x2c",
        snapshot: &LONG,
    },
];

static PAYLOADS: [&[u8]; 2] = [b"first", b"second"];

/// Records of none, the first, and both payloads, with the closed gate.
static RECORDS: [&[u8]; 3] = [
    b"\0",
    b"\x01\0\0\0\x05first\0",
    b"\x01\0\0\0\x05first\x01\0\0\0\x06second\0",
];

fn text_of(alloc: Global, form: &Form, records: &[u8]) -> Result<Vec<u8>, Fail> {
    let mut text = form.header.to_vec(alloc)?;
    text.extend_from_slice(form.snapshot)?;
    text.extend_from_slice(records)?;
    Ok(text)
}

// Whether the bytes are read as that snapshot and these payloads, which stand behind what the list
// of the snapshot had.
fn reads_as(alloc: Global, bytes: &[u8], form: &Form, payloads: &[&[u8]]) -> Result<bool, Fail> {
    let mut disk = disk_of(alloc, bytes)?;
    let mut snapshot = vec![in alloc; 9u8; 1]?;
    let mut found = Vec::new(alloc);
    let version = read_either(alloc, &mut disk, &mut snapshot, &mut found)?;
    let told = version == form.version && snapshot[0] == 9;
    Ok(told && &snapshot[1..] == form.snapshot && has(&found, payloads))
}

// Whether a journal of a disk that was stopped is told to be old as the form is.
fn ages_as(alloc: Global, bytes: &[u8], form: &Form) -> Result<bool, Fail> {
    let disk = disk_of(alloc, bytes)?.crash(Tear::New)?;
    let mut snapshot = Vec::new(alloc);
    let mut found = Vec::new(alloc);
    let Ok((journal, version)) = Journal::load_either(alloc, disk, &mut snapshot, &mut found) else {
        return Err("load")?;
    };
    Ok(version == form.version && journal.is_old() == form.is_old)
}

#[test]
fn tells_old_texts(rt: HostRuntime) -> Result<(), Fail> {
    let alloc = rt.alloc();
    for form in &FORMS {
        let text = text_of(alloc, form, RECORDS[2])?;
        let told = ages_as(alloc, &text, form)?;
        assert!(rt; told);
    }
    Ok(())
}

#[test]
fn reads_each_form(rt: HostRuntime) -> Result<(), Fail> {
    let alloc = rt.alloc();
    for form in &FORMS {
        for count in 0..3 {
            let text = text_of(alloc, form, RECORDS[count])?;
            let reads = reads_as(alloc, &text, form, &PAYLOADS[..count])?;
            assert!(rt; reads);
        }
    }
    Ok(())
}

// The place at which the bytes are refused, which leaves both lists as they were; none where they
// are read.
fn refused_at(alloc: Global, bytes: &[u8]) -> Result<Option<u64>, Fail> {
    let mut disk = disk_of(alloc, bytes)?;
    let mut snapshot = vec![in alloc; 9u8; 1]?;
    let mut found = Vec::new(alloc);
    let answer = read_either(alloc, &mut disk, &mut snapshot, &mut found);
    let same = snapshot.len() == 1 && found.is_empty();
    match answer {
        Ok(_) => Ok(None),
        Err(JournalFault::NotJournal(place)) if same => Ok(Some(place)),
        Err(_) => Err("read")?,
    }
}

// Where a front of a text is refused, which has so many bytes, or those before the records: within
// the header at its end, within the snapshot at 16, and then at the last gate.
fn end_of(length: usize, front: usize) -> usize {
    if length < 16 {
        return length;
    }
    if length < front {
        return 16;
    }
    // Behind the front the gates stand at 0, 10 and 21.
    let behind = length - front;
    if behind < 10 {
        return front;
    }
    if behind < 21 {
        return front + 10;
    }
    front + 21
}

// Whether each front of a text is refused at its place, and the text isn't.
fn is_cut(alloc: Global, text: &[u8], front: usize) -> Result<bool, Fail> {
    for length in 0..text.len() {
        if refused_at(alloc, &text[..length])? != Some(end_of(length, front) as u64) {
            return Ok(false);
        }
    }
    Ok(refused_at(alloc, text)?.is_none())
}

#[test]
fn refuses_what_is_cut_short(rt: HostRuntime) -> Result<(), Fail> {
    let alloc = rt.alloc();
    for form in &FORMS {
        let front = form.header.len() + form.snapshot.len();
        for records in &RECORDS {
            let text = text_of(alloc, form, *records)?;
            let cut = is_cut(alloc, &text, front)?;
            assert!(rt; cut);
        }
    }
    Ok(())
}

/// Bytes that stand for nothing, and the place at which they are refused.
static REFUSED: [(&[u8], u64); 23] = [
    (b"nQS-JOURNAL-v1\n\n\0", 0),
    (b"nQS-SNAPSHOT-v1\n\0\0\0\0\0\0\0\0\0", 0),
    // The fifth byte tells the headers apart.
    (b"NQS-XOURNAL-v1\n\n\0", 4),
    (b"NQS-XNAPSHOT-v1\n\0\0\0\0\0\0\0\0\0", 4),
    (b"NQS-SOURNAL-v1\n\n\0", 5),
    (b"NQS-JNAPSHOT-v1\n\0\0\0\0\0\0\0\0\0", 5),
    (b"NQS-JOURNAL-v1\n.\0", 15),
    (b"NQS-SNAPSHOT-v1.\0\0\0\0\0\0\0\0\0", 15),
    // A snapshot that takes the last byte, and one that would take a byte more.
    (b"NQS-SNAPSHOT-v1\n\0\0\0\0\0\0\0\x02x\0", 26),
    (b"NQS-SNAPSHOT-v1\n\0\0\0\0\0\0\0\x03x\0", 16),
    // 2^63 and 2^64 - 1 bytes.
    (b"NQS-SNAPSHOT-v1\n\x80\0\0\0\0\0\0\0x\0", 16),
    (b"NQS-SNAPSHOT-v1\n\xff\xff\xff\xff\xff\xff\xff\xffx\0", 16),
    // The fifteenth byte tells the versions of snapshots apart.
    (b"NQS-SNAPSHOT-v0\n\0\0\0\0\0\0\0\0\0", 14),
    (b"NQS-SNAPSHOT-v3\n\0\0\0\0\0\0\0\0\0", 14),
    (b"NQS-JOURNAL-v0\n\n\0", 13),
    (b"NQS-JOURNAL-v3\n\n\0", 13),
    (b"NQS-JOURNAL-v2\n.\0", 15),
    // A snapshot's line, and one of the journal without a snapshot.
    (b"NQS-JOURNAL-v2\n\0\0\0\0\0\0\0\0\0", 15),
    (b"NQS-SNAPSHOT-v2.\0\0\0\0\0\0\0\0\0", 15),
    // A second line's end, as the journal without a snapshot has it.
    (b"NQS-SNAPSHOT-v2\n\n\0\0\0\0\0\0\0\0", 16),
    // The same lengths behind the second version's header.
    (b"NQS-SNAPSHOT-v2\n\0\0\0\0\0\0\0\x02x\0", 26),
    (b"NQS-SNAPSHOT-v2\n\0\0\0\0\0\0\0\x03x\0", 16),
    (b"NQS-SNAPSHOT-v2\n\xff\xff\xff\xff\xff\xff\xff\xffx\0", 16),
];

#[test]
fn refuses_wrong_bytes(rt: HostRuntime) -> Result<(), Fail> {
    for (bytes, place) in &REFUSED {
        let found = refused_at(rt.alloc(), *bytes)?;
        assert_eq!(rt; found, Some(*place));
    }
    Ok(())
}

const STATE: &[u8] = b"state";

// A disk with the journal of a snapshot and the first payload.
fn begun(alloc: Global) -> Result<MemDisk, Fail>
    ensures { IfOk result (λ disk. IsQuiet (history_of disk)) }
{
    let Ok(mut journal) = Journal::begin(alloc, MemDisk::new(alloc), STATE) else {
        return Err("begin")?;
    };
    journal.append(PAYLOADS[0])?;
    Ok(journal.close().crash(Tear::Old)?)
}

// Whether a load of it finds these, and a further reading finds the next payload too.
fn goes_on(alloc: Global, disk: MemDisk) -> Result<[bool; 2], Fail>
    requires { IsQuiet (history_of disk) }
{
    let mut snapshot = Vec::new(alloc);
    let mut found = Vec::new(alloc);
    let Ok((mut journal, 2)) = Journal::load_either(alloc, disk, &mut snapshot, &mut found) else {
        return Err("load")?;
    };
    let loaded = journal.count() == 1
        && snapshot.as_slice() == STATE
        && has(&found, &PAYLOADS[..1]);
    journal.append(PAYLOADS[1])?;
    snapshot.clear();
    found.clear();
    let told = journal.reread_either(alloc, &mut snapshot, &mut found)?;
    Ok([
        loaded,
        told == 2 && journal.count() == 2 && snapshot.as_slice() == STATE && has(&found, &PAYLOADS),
    ])
}

#[test]
fn goes_on_from_a_snapshot(rt: HostRuntime) -> Result<(), Fail> {
    let alloc = rt.alloc();
    let disk = begun(alloc)?;
    let found = goes_on(alloc, disk)?;
    assert_eq!(rt; found, [true, true]);
    Ok(())
}

/// A disk that gives these bytes, until one of its reads fails.
#[derive(Drop)]
struct Failing {
    bytes: &'static [u8],
    /// How many reads are made before that one.
    left: u64,
    faults: u64,
}

impl Failing {
    // Before each read.
    fn count(&mut self) -> Result<(), Failed>
        ensures cause { HasCause self.old.faults self.new.faults result }
        ensures faultless { OnOk result (self.new.faults ≡ self.old.faults) }
    {
        if self.left == 0 {
            return self.fail();
        }
        self.left -= 1;
        Ok(())
    }

    fn fail(&mut self) -> Result<(), Failed>
        ensures err { IsErr result }
        ensures faultless { OnOk result (self.new.faults ≡ self.old.faults) }
        ensures cause { HasCause self.old.faults self.new.faults result }
    {
        self.faults = self.faults.saturating_add(1);
        Err(Failed)
    }
}

impl Disk for Failing {
    ghost tells = { false };

    ghost history = { λ _. record { start = []; calls = [] } };

    ghost fails = { λ _ _. false };

    ghost ends = { λ _ _. false };

    ghost starved = { λ _. false };

    ghost faults = { λ disk. disk.faults };

    ghost reads = { λ _. 0 };

    fn len(&mut self) -> Result<u64, Failed> {
        self.count()?;
        Ok((self.bytes.len() as u64).min(1 << 40))
    }

    fn read_at(&mut self, place: u64, buf: &mut [u8]) -> Result<usize, Failed> {
        self.count()?;
        let Some(rest) = self.bytes.get(place as usize..) else {
            return Ok(0);
        };
        let count = rest.len().min(buf.len());
        buf[..count].copy_from_slice(&rest[..count]);
        Ok(count)
    }

    fn write_at(&mut self, _: u64, _: &[u8]) -> Result<(), Failed> {
        self.fail()
    }

    fn sync(&mut self) -> Result<(), Failed> {
        self.fail()
    }
}

/// The snapshot `x`, of the first version, and the first payload.
const WHOLE: &[u8] = b"NQS-SNAPSHOT-v1\n\0\0\0\0\0\0\0\x01x\x01\0\0\0\x05first\0";

// Whether a load, and a reading again after it, find the snapshot and the payload. Where they
// don't, since the disk failed, the lists are as they were.
fn loads(alloc: Global, left: u64) -> Result<[bool; 2], Fail> {
    let mut snapshot = Vec::new(alloc);
    let mut found = Vec::new(alloc);
    let disk = Failing {
        bytes: WHOLE,
        left,
        faults: 0,
    };
    let mut journal = match Journal::load_either(alloc, disk, &mut snapshot, &mut found) {
        Ok((journal, 1)) if snapshot.as_slice() == b"x".as_slice() && has(&found, &PAYLOADS[..1]) =>
            journal,
        Err((JournalFault::Disk, _)) if snapshot.is_empty() && found.is_empty() => {
            return Ok([false, false]);
        }
        _ => return Err("load")?,
    };
    match journal.reread_either(alloc, &mut snapshot, &mut found) {
        Ok(1) if snapshot.len() == 2 && found.len() == 2 => Ok([true, true]),
        Err(JournalFault::Disk) if snapshot.len() == 1 && found.len() == 1 => Ok([true, false]),
        _ => Err("reread")?,
    }
}

/// What is found where the first, second, third, fourth and no read fails: each reading makes two.
static FOUND: [[bool; 2]; 5] = [
    [false, false],
    [false, false],
    [true, false],
    [true, false],
    [true, true],
];

#[test]
fn tells_a_failed_read(rt: HostRuntime) -> Result<(), Fail> {
    for left in 0..FOUND.len() {
        let found = loads(rt.alloc(), left as u64)?;
        assert_eq!(rt; found, FOUND[left]);
    }
    Ok(())
}
