//! Lines of qmgr: the command of each kind of line, their values, and the first faults of bad ones.

use nqs_base::Name;
use nqs_qmgr::read_qmgr;
use nqs_types::{
    AccessEdit, Command, ConfEdit, DevicesEdit, Edit, GrammarFault, LimitsEdit, Named, NamedDest,
    RowsEdit,
};
use std::rt::HostRuntime;

fn conf_code(edit: ConfEdit) -> u8 {
    match edit {
        ConfEdit::CreateBatchQueue { .. } => 1,
        ConfEdit::CreateDeviceQueue { .. } => 2,
        ConfEdit::CreatePipeQueue { .. } => 3,
        ConfEdit::DeleteQueue { .. } => 4,
        ConfEdit::EnableQueue { .. } => 5,
        ConfEdit::DisableQueue { .. } => 6,
        ConfEdit::StartQueue { .. } => 7,
        ConfEdit::StopQueue { .. } => 8,
        ConfEdit::PurgeQueue { .. } => 9,
        ConfEdit::SetPriority { .. } => 11,
        ConfEdit::SetRunLimit { .. } => 12,
        ConfEdit::AddDestination { .. } => 16,
        ConfEdit::RemoveDestination { .. } => 17,
        ConfEdit::SetDefaultQueue { .. } => 39,
        ConfEdit::SetNoDefaultQueue => 40,
        ConfEdit::SetPatience { .. } => 41,
        ConfEdit::SetRetryWait { .. } => 42,
        ConfEdit::FirstDestination { .. } => 54,
    }
}

fn limits_code(edit: LimitsEdit) -> u8 {
    match edit {
        LimitsEdit::SetUserLimit { .. } => 13,
        LimitsEdit::SetCpuLimit { .. } => 14,
        LimitsEdit::SetMemoryLimit { .. } => 15,
        LimitsEdit::CreateComplex { .. } => 18,
        LimitsEdit::DeleteComplex { .. } => 19,
        LimitsEdit::AddQueue { .. } => 20,
        LimitsEdit::RemoveQueue { .. } => 21,
        LimitsEdit::SetComplexLimit { .. } => 22,
        LimitsEdit::SetGlobalLimit { .. } => 23,
    }
}

fn access_code(edit: AccessEdit) -> u8 {
    match edit {
        AccessEdit::SetUnrestrictedAccess { .. } => 31,
        AccessEdit::SetNoAccess { .. } => 32,
        AccessEdit::AddUser { .. } => 33,
        AccessEdit::RemoveUser { .. } => 34,
        AccessEdit::AddManager { .. } => 35,
        AccessEdit::RemoveManager { .. } => 36,
        AccessEdit::AddOperator { .. } => 37,
        AccessEdit::RemoveOperator { .. } => 38,
    }
}

fn devices_code(edit: DevicesEdit) -> u8 {
    match edit {
        DevicesEdit::CreateDevice { .. } => 24,
        DevicesEdit::DeleteDevice { .. } => 25,
        DevicesEdit::EnableDevice { .. } => 26,
        DevicesEdit::DisableDevice { .. } => 27,
        DevicesEdit::SetForms { .. } => 28,
        DevicesEdit::AddDevice { .. } => 29,
        DevicesEdit::RemoveDevice { .. } => 30,
    }
}

fn rows_code(edit: RowsEdit) -> u8 {
    match edit {
        RowsEdit::AbortQueue { .. } => 10,
        RowsEdit::HoldRequest { .. } => 43,
        RowsEdit::ReleaseRequest { .. } => 44,
        RowsEdit::MoveRequest { .. } => 45,
        RowsEdit::ModifyRequest { .. } => 46,
    }
}

fn edit_code(edit: Edit) -> u8 {
    match edit {
        Edit::Conf(edit) => conf_code(edit),
        Edit::Limits(edit) => limits_code(edit),
        Edit::Access(edit) => access_code(edit),
        Edit::Devices(edit) => devices_code(edit),
        Edit::Rows(edit) => rows_code(edit),
    }
}

fn command_code(command: &Command) -> u8 {
    match command {
        Command::Edit(edit) => edit_code(*edit),
        Command::Delete { kill, .. } => { if *kill { 47 } else { 0 } }
        Command::Show(code) => *code,
        Command::Shutdown => 53,
        Command::Why(_) => 55,
        _ => 0,
    }
}

// The number of the line in the table of docs/commands.md; 0 where it is none.
fn code(line: &[u8]) -> u8 {
    match read_qmgr(line) {
        Ok(command) => command_code(&command),
        Err(_) => 0,
    }
}

fn edit_of(command: &Command) -> Option<Edit> {
    match command {
        Command::Edit(edit) => Some(*edit),
        _ => None,
    }
}

fn edit(line: &[u8]) -> Option<Edit> {
    match read_qmgr(line) {
        Ok(command) => edit_of(&command),
        Err(_) => None,
    }
}

fn fault(line: &[u8]) -> Option<GrammarFault> {
    match read_qmgr(line) {
        Ok(_) => None,
        Err(fault) => Some(fault),
    }
}

/// A line of each kind, and its number.
static LINES: [(&[u8], u8); 57] = [
    (b"create batch_queue q priority=5 run_limit=3 pipeonly", 1),
    (b"create device_queue q", 2),
    (b"create pipe_queue q destination=a@b", 3),
    (b"delete queue q", 4),
    (b"enable queue q", 5),
    (b"disable queue q", 6),
    (b"STA QU batch", 7),
    (b"stop queue q", 8),
    (b"purge queue q", 9),
    (b"abort queue q", 10),
    (b"set priority=63 q", 11),
    (b"set run_limit=10000 q", 12),
    (b"set user_limit=none q", 13),
    (b"set cpu_limit=1:30:00 q", 14),
    (b"set memory_limit=64mb q", 15),
    (b"add destination=a@b q", 16),
    (b"remove destination=a@b q", 17),
    (b"create complex c", 18),
    (b"delete complex c", 19),
    (b"add queue=q c", 20),
    (b"remove queue=q c", 21),
    (b"set complex_limit=1 c", 22),
    (b"set global_limit=0", 23),
    (b"create device d forms=f", 24),
    (b"delete device d", 25),
    (b"enable device d", 26),
    (b"disable device d", 27),
    (b"set forms=f d", 28),
    (b"add device=d q", 29),
    (b"remove device=d q", 30),
    (b"set unrestricted_access q", 31),
    (b"set no_access q", 32),
    (b"add user=u q", 33),
    (b"remove user=u q", 34),
    (b"add manager=u", 35),
    (b"remove manager=u", 36),
    (b"add operator=u", 37),
    (b"remove operator=u", 38),
    (b"set default_queue=q", 39),
    (b"set no_default_queue", 40),
    (b"set patience=1", 41),
    (b"set retry_wait=86400", 42),
    (b"hold request 1.a", 43),
    (b"release request 1.a", 44),
    (b"move request 1.a q", 45),
    (b"modify request 1.a priority=0", 46),
    (b"delete request 1.a", 47),
    (b"show queues", 48),
    (b"show devices", 49),
    (b"show complexes", 50),
    (b"show managers", 51),
    (b"show parameters", 52),
    (b"\tshutdown ", 53),
    (b"first destination=a@b q", 54),
    (b"FI\tDe=a@b q", 54),
    (b"show why 1.a", 55),
    (b"SHO\tWh  1.a ", 55),
];

#[test]
fn reads_lines(rt: HostRuntime) {
    for (line, number) in &LINES {
        assert_eq!(rt; code(line), *number);
    }
}

// Whether it creates this batch queue, for pipe queues alone, of priority 5 and for 3 requests at a
// time.
fn creates(edit: &ConfEdit, name: &Name) -> bool {
    match edit {
        ConfEdit::CreateBatchQueue {
            queue,
            priority: Some(5),
            run_limit: Some(3),
            pipe_only: true,
        } => queue == name,
        _ => false,
    }
}

// Whether it sets this queue's limit of processor time to 5400 seconds.
fn sets_cpu(edit: &LimitsEdit, name: &Name) -> bool {
    match edit {
        LimitsEdit::SetCpuLimit {
            limit: Some(5400),
            queue,
        } => queue == name,
        _ => false,
    }
}

// Whether it takes this queue's limit of memory away.
fn frees_memory(edit: &LimitsEdit, name: &Name) -> bool {
    match edit {
        LimitsEdit::SetMemoryLimit { limit: None, queue } => queue == name,
        _ => false,
    }
}

fn creates_by(line: &[u8], name: &Name) -> bool {
    match edit(line) {
        Some(Edit::Conf(edit)) => creates(&edit, name),
        _ => false,
    }
}

fn sets_cpu_by(line: &[u8], name: &Name) -> bool {
    match edit(line) {
        Some(Edit::Limits(edit)) => sets_cpu(&edit, name),
        _ => false,
    }
}

fn frees_memory_by(line: &[u8], name: &Name) -> bool {
    match edit(line) {
        Some(Edit::Limits(edit)) => frees_memory(&edit, name),
        _ => false,
    }
}

// Whether it puts this destination first of this queue.
fn puts_first(edit: &ConfEdit, destination: &NamedDest, name: &Name) -> bool {
    match edit {
        ConfEdit::FirstDestination {
            destination: put,
            queue,
        } => put == destination && queue == name,
        _ => false,
    }
}

fn puts_first_by(line: &[u8], destination: &NamedDest, name: &Name) -> bool {
    match edit(line) {
        Some(Edit::Conf(edit)) => puts_first(&edit, destination, name),
        _ => false,
    }
}

// The request of which it is asked why it waits.
fn asked_of(command: &Command) -> Option<Named> {
    match command {
        Command::Why(id) => Some(*id),
        _ => None,
    }
}

fn asked(line: &[u8]) -> Option<Named> {
    match read_qmgr(line) {
        Ok(command) => asked_of(&command),
        Err(_) => None,
    }
}

// Whether that is the one of number 12 of this host.
fn asks_by(line: &[u8], host: &Name) -> bool {
    match asked(line) {
        Some(id) => id.seq == 12 && id.host == *host,
        None => false,
    }
}

// Whether lines are read with their values.
fn values(q: Name) -> [bool; 4] {
    [
        creates_by(b"Cr\tbatch q PIP prio=5 run=3", &q),
        sets_cpu_by(b"set cpu=1:30:00 q", &q),
        frees_memory_by(b"set mem=none q", &q),
        asks_by(b"show why 12.q", &q),
    ]
}

#[test]
fn reads_values(rt: HostRuntime) {
    assert_eq!(rt; Name::read(b"q").map(values).ok(), Some([true; 4]));
}

fn name(bytes: &[u8]) -> Name {
    match Name::read(bytes) {
        Ok(name) => name,
        Err(_) => match Name::read(b"bad") {
            Ok(name) => name,
            Err(_) => unreachable!(),
        },
    }
}

// Which queue of which host comes first in which pipe queue.
fn firsts() -> [bool; 4] {
    let p = name(b"p");
    let destination = NamedDest {
        queue: name(b"q"),
        host: name(b"h"),
    };
    let turned = NamedDest {
        queue: name(b"h"),
        host: name(b"q"),
    };
    [
        puts_first_by(b"first destination=q@h p", &destination, &p),
        puts_first_by(b"first destination=h@q p", &turned, &p),
        puts_first_by(b"first destination=q@h p", &turned, &p),
        puts_first_by(b"first destination=q@h q", &destination, &p),
    ]
}

#[test]
fn reads_who_comes_first(rt: HostRuntime) {
    assert_eq!(rt; firsts(), [true, true, false, false]);
}

/// A line, and its fault.
static BAD: [(&[u8], GrammarFault); 46] = [
    (b"st queue batch", GrammarFault::Ambiguous(0)),
    (b"frob x", GrammarFault::UnknownWord(0)),
    (b"s", GrammarFault::UnknownWord(0)),
    (b"create dev x forms=a", GrammarFault::Ambiguous(7)),
    (b"set no=5 q", GrammarFault::Ambiguous(4)),
    (
        b"create batch_queue q dest=a@b",
        GrammarFault::UnknownWord(21),
    ),
    (b"set =5 q", GrammarFault::UnknownWord(4)),
    (b"", GrammarFault::Missing(0)),
    (b"delete queue", GrammarFault::Missing(12)),
    (b"delete queue  ", GrammarFault::Missing(14)),
    (b"set priority q", GrammarFault::Missing(12)),
    (b"enable queue batch now", GrammarFault::Extra(19)),
    (b"start queue=x", GrammarFault::Extra(6)),
    (b"set no_access=1 q", GrammarFault::Extra(4)),
    (b"create batch_queue q pri=1 pri", GrammarFault::Extra(27)),
    (b"modify request 1.a priority=1 x", GrammarFault::Extra(30)),
    (b"create batch_queue 9x", GrammarFault::BadName(19)),
    (b"set pri=64 batch", GrammarFault::BadNumber(8)),
    (b"set priority=", GrammarFault::BadNumber(13)),
    (b"set patience=0", GrammarFault::BadNumber(13)),
    (b"set user_limit=NONE q", GrammarFault::BadNumber(15)),
    (b"add destination=a@b@c q", GrammarFault::BadName(16)),
    (b"hold request 07.a", GrammarFault::BadNumber(13)),
    (b"hold request 7.9", GrammarFault::BadName(13)),
    (b"show", GrammarFault::Missing(4)),
    (b"show why", GrammarFault::Missing(8)),
    (b"show why 1.a b", GrammarFault::Extra(13)),
    (b"sh why 1.a", GrammarFault::Ambiguous(0)),
    (b"show w 1.a", GrammarFault::UnknownWord(5)),
    (b"show whys 1.a", GrammarFault::UnknownWord(5)),
    (b"show why=1.a", GrammarFault::Extra(5)),
    (b"show why 01.a", GrammarFault::BadNumber(9)),
    (b"show why 1.9", GrammarFault::BadName(9)),
    (b"first", GrammarFault::Missing(5)),
    (b"first out destination=a@b", GrammarFault::UnknownWord(6)),
    (b"first queue=q p", GrammarFault::UnknownWord(6)),
    (b"first destination p", GrammarFault::Missing(17)),
    (b"first destination= p", GrammarFault::BadName(18)),
    (b"first destination=q p", GrammarFault::BadName(18)),
    (b"first destination=q@9 p", GrammarFault::BadName(18)),
    (b"first destination=q@h", GrammarFault::Missing(21)),
    (b"first destination=q@h 9", GrammarFault::BadName(22)),
    (b"first destination=q@h p q", GrammarFault::Extra(24)),
    (b"first=q@h destination p", GrammarFault::Extra(0)),
    (b"destination=q@h first p", GrammarFault::UnknownWord(0)),
    (b"f destination=q@h p", GrammarFault::UnknownWord(0)),
];

#[test]
fn finds_faults(rt: HostRuntime) {
    for (line, found) in &BAD {
        assert_eq!(rt; fault(line), Some(*found));
    }
}
