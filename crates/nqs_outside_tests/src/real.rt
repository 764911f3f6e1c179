//! The adapters over the real system: files, a socket on loopback, shells.

ghost use Rattle.std.specs.Prelude.{◌<◌, length};

use nqs_base::Name;
use nqs_outside::{
    Address, Clock, Disk, Failed, Launcher, Outlet, Printer, Received, RunEnd, Runner, Wire,
};
use nqs_real::{
    FileDisk, FileOutlet, FilePrinter, HostLock, LastSender, RunsAs, ShellRunner, ShepherdLauncher,
    SiteFault, SiteHost, SystemClock, UdpWire, fill_streams, lock_holder, lost_name,
    make_host_folder, missing_disk, names_differ, names_of, open_disks, own_program, read_site,
};
use nqs_types::{HostId, LaunchOrder, Limits, RequestId, Which};
use std::os::unix::fs::PermissionsExt;
use std::rt::HostRuntime;
use std::test::Fail;
use std::{fs, io, process};

/// The first host of the tests' sites.
pub(crate) const HOST: HostId = HostId(0);

/// A folder that is this test's alone, below the one where it runs.
pub(crate) fn fresh_folder(rt: &HostRuntime, name: &str) -> io::Result<String> {
    let dir = format!(in rt.alloc(); "real-{name}-{}", process::id(rt.process()))?;
    let _ = fs::remove_dir_all(rt, &dir);
    fs::create_dir(rt, &dir)?;
    Ok(dir)
}

fn has_text(rt: &HostRuntime, folder: &str, path: &str, text: &str) -> io::Result<bool> {
    let path = format!(in rt.alloc(); "{folder}/{path}")?;
    Ok(fs::read_to_string(rt, &path)?.as_str() == text)
}

/// A site of the host alpha, at a port that was free just now.
pub(crate) fn site_of_alpha(rt: &HostRuntime) -> Result<Vec<SiteHost>, Fail> {
    let port = UdpWire::of_client(*rt, &[], 1)?.1;
    let text = format!(in rt.alloc(); "alpha 127.0.0.1 {port}\n")?;
    Ok(read_site(rt.alloc(), text.as_bytes())?)
}

// Site files, and how many hosts they have, or which line is wrong.
static SITES: [(&[u8], Result<u64, u64>); 17] = [
    (b"alpha 127.0.0.1 7001\n", Ok(1)),
    (b"alpha 10.0.0.1 1\nbeta-2 255.255.255.255 65535\n", Ok(2)),
    (b"", Err(1)),
    (b"\n", Err(1)),
    (b"alpha 127.0.0.1 7001", Err(1)),
    (b"alpha 127.0.0.1 7001\nbeta 127.0.0.1 7002", Err(2)),
    (b"alpha 127.0.0.1 7001\n\n", Err(2)),
    (b"alpha 127.0.0.1\n", Err(1)),
    (b"alpha 127.0.0.1 7001 x\n", Err(1)),
    (b"alpha  127.0.0.1 7001\n", Err(1)),
    (b"alpha 127.0.0 7001\n", Err(1)),
    (b"alpha localhost 7001\n", Err(1)),
    (b"alpha 127.0.0.1 0\n", Err(1)),
    (b"alpha 127.0.0.1 65536\n", Err(1)),
    (b"a 127.0.0.1 1\nb 127.0.0.1 2\n1c 127.0.0.1 3\n", Err(3)),
    (b"1alpha 127.0.0.1 7001\n", Err(1)),
    (b"a 127.0.0.1 1\na 127.0.0.1 2\n", Err(2)),
];

fn hosts_of(rt: &HostRuntime, text: &[u8]) -> Result<u64, u64> {
    match read_site(rt.alloc(), text) {
        Ok(site) => Ok(names_of(rt.alloc(), &site).map_or(0, |names| names.len() as u64)),
        Err(SiteFault::Line(line)) => Err(line),
        Err(SiteFault::Memory(_)) => Ok(0),
    }
}

#[test]
fn sites(rt: HostRuntime) {
    for row in &SITES {
        assert_eq!(rt; hosts_of(&rt, row.0), row.1);
    }
}

fn write_disk(rt: &HostRuntime, folder: &str) -> io::Result<[bool; 4]> {
    let mut disks = open_disks(rt, folder)?;
    Ok([
        disks.first.write_at(0, b"0123456789").is_ok(),
        disks.first.write_at(8, b"ab").is_ok(),
        disks.first.sync().is_ok(),
        disks.first.write_at((1 << 40) - 1, b"ab").is_err(),
    ])
}

fn read_disk(rt: &HostRuntime, folder: &str) -> io::Result<[bool; 4]> {
    let mut disk = FileDisk::open(rt, folder, "first")?;
    let mut buf = [0u8; 6];
    let count = disk.read_at(6, &mut buf);
    Ok([
        count == Ok(4),
        buf == *b"67ab\0\0",
        disk.read_at(u64::MAX, &mut buf).is_err(),
        disk.len() == Ok(10),
    ])
}

// A lock that is taken can't be taken, and one that was given back can.
fn locks(rt: &HostRuntime, folder: &str) -> io::Result<[bool; 2]> {
    let first = HostLock::take(rt, folder)?;
    let is_refused = HostLock::take(rt, folder).is_err();
    drop(first);
    Ok([is_refused, HostLock::take(rt, folder).is_ok()])
}

fn try_disk(rt: &HostRuntime, folder: &str) -> io::Result<([bool; 4], [bool; 4], [bool; 2])> {
    let written = write_disk(rt, folder)?;
    let read = read_disk(rt, folder)?;
    Ok((written, read, locks(rt, folder)?))
}

#[test]
fn a_disk_keeps_its_bytes(rt: HostRuntime) -> Result<(), Fail> {
    let folder = fresh_folder(&rt, "disk")?;
    let tried = try_disk(&rt, &folder);
    fs::remove_dir_all(&rt, &folder)?;
    drop(folder);
    assert_eq!(rt; tried?, ([true; 4], [true; 4], [true; 2]));
    Ok(())
}

fn order_of(seq: u32, cpu: Option<u64>, memory: Option<u64>) -> Result<LaunchOrder, Fail> {
    Ok(LaunchOrder {
        id: RequestId { seq, host: HOST },
        start: 1,
        name: Name::read(b"STDIN")?,
        owner: Name::read(b"ann")?,
        queue: Name::read(b"batch")?,
        limits: Limits { cpu, memory },
    })
}

fn put_outputs(rt: &HostRuntime, folder: &str) -> io::Result<[bool; 8]> {
    let mut outlet = FileOutlet::open(*rt, folder, RunsAs::Daemon)?;
    // What a stop left of a file that was being written.
    let new = format!(in rt.alloc(); "{folder}/output.new")?;
    fs::write(rt, &new, b"the front of a longer text".as_slice())?;
    Ok([
        outlet.write_file(b"short", b"42\n").is_ok(),
        outlet.write_file(b"a/b/c", b"an older text").is_ok(),
        outlet.write_file(b"a/b/c", b"42\n").is_ok(),
        outlet.write_file(b"STDIN.o1", b"").is_ok(),
        outlet.write_file(b"a/../b", b"above").is_ok(),
        outlet.write_file(b"/a", b"root").is_ok(),
        outlet.write_file(b"a/", b"folder").is_ok(),
        outlet.write_file(b"a/", b"once more").is_ok(),
    ])
}

// Outputs that can't be written at their path, by the names that they have.
fn has_lost(rt: &HostRuntime, folder: &str) -> io::Result<[bool; 4]> {
    Ok([
        has_text(rt, folder, "output.lost/a%2F..%2Fb", "above")?,
        has_text(rt, folder, "output.lost/%2Fa", "root")?,
        has_text(rt, folder, "output.lost/a%2F", "folder")?,
        has_text(rt, folder, "output.lost/a%2F~2", "once more")?,
    ])
}

fn print_page(rt: &HostRuntime, folder: &str) -> Result<bool, Fail> {
    let order = order_of(2, None, None)?;
    let device = Name::read(b"laser")?;
    let site = site_of_alpha(rt)?;
    let mut printer = FilePrinter::open(*rt, folder, &site)?;
    Ok(printer.print(&device, &order, b"page").is_ok())
}

fn put_and_print(
    rt: &HostRuntime,
    folder: &str,
) -> Result<([bool; 8], [bool; 4], [bool; 4]), Fail> {
    let put = put_outputs(rt, folder)?;
    let is_printed = print_page(rt, folder)?;
    let has_output = has_text(rt, folder, "output/a/b/c", "42\n")?;
    let is_short = has_text(rt, folder, "output/short", "42\n")?;
    let has_page = has_text(rt, folder, "printed/laser/2.alpha.1", "page")?;
    let lost = has_lost(rt, folder)?;
    Ok((put, lost, [is_printed, has_output, is_short, has_page]))
}

#[test]
fn files_come_whole(rt: HostRuntime) -> Result<(), Fail> {
    let folder = fresh_folder(&rt, "files")?;
    let found = put_and_print(&rt, &folder)?;
    fs::remove_dir_all(&rt, &folder)?;
    drop(folder);
    assert_eq!(rt; found, ([true; 8], [true; 4], [true; 4]));
    Ok(())
}

// The mode of a file.
fn mode_at(rt: &HostRuntime, folder: &str, path: &str) -> io::Result<u32> {
    let path = format!(in rt.alloc(); "{folder}/{path}")?;
    Ok(fs::metadata(rt, &path)?.permissions().mode() % 0o1000)
}

// Flat names of paths, by hand.
static NAMES: [(&[u8], &str); 7] = [
    (b"STDIN.o1", "STDIN.o1"),
    (b"results/", "results%2F"),
    (b".", "%2E"),
    (b"./a.b", "%2E%2Fa.b"),
    (b"100%~", "100%25%7E"),
    (b"a b\xff", "a%20b%FF"),
    (b"", ""),
];

fn is_named(rt: &HostRuntime, path: &[u8], name: &str) -> io::Result<bool> {
    Ok(lost_name(rt.alloc(), path)?.as_str() == name)
}

#[test]
fn lost_outputs_have_names(rt: HostRuntime) -> Result<(), Fail> {
    for row in &NAMES {
        assert!(rt; is_named(&rt, row.0, row.1)?);
    }
    let long = [b'/'; 255];
    assert_eq!(rt; lost_name(rt.alloc(), &long)?.len(), 240);
    names_differ();
    Ok(())
}

// Which disk is missing in an empty folder, beside empty ones, beside one with bytes, and where all
// are there.
fn find_missing(rt: &HostRuntime, folder: &str) -> io::Result<[Option<Which>; 4]> {
    let none = missing_disk(rt, folder)?;
    let root = format!(in rt.alloc(); "{folder}/root")?;
    let spool = format!(in rt.alloc(); "{folder}/spool")?;
    fs::write(rt, &spool, b"".as_slice())?;
    let empty = missing_disk(rt, folder)?;
    fs::write(rt, &spool, b"a byte".as_slice())?;
    let first = missing_disk(rt, folder)?;
    drop(open_disks(rt, folder)?);
    let all = missing_disk(rt, folder)?;
    fs::remove_file(rt, &root)?;
    Ok([none, empty.or(all), first, missing_disk(rt, folder)?])
}

#[test]
fn a_missing_disk_is_found(rt: HostRuntime) -> Result<(), Fail> {
    let folder = fresh_folder(&rt, "missing")?;
    let found = find_missing(&rt, &folder)?;
    fs::remove_dir_all(&rt, &folder)?;
    drop(folder);
    assert_eq!(rt; found, [None, None, Some(Which::Root), Some(Which::Root)]);
    Ok(())
}

// Who has a lock is this process, while it has it.
#[test]
fn a_lock_has_a_holder(rt: HostRuntime) -> Result<(), Fail> {
    let folder = fresh_folder(&rt, "holder")?;
    let lock = HostLock::take(&rt, &folder)?;
    let holder = lock_holder(&rt, &folder);
    drop(lock);
    let nobody = lock_holder(&rt, &folder);
    fs::remove_dir_all(&rt, &folder)?;
    drop(folder);
    let own = u64::from(process::id(rt.process()));
    assert!(rt; holder.is_none() || holder == Some(own));
    assert_eq!(rt; nobody, None);
    Ok(())
}

// Paths below the folder of a host, and their modes: nobody but the owner has rights.
static MODES: [(&str, u32); 9] = [
    ("lock", 0o600),
    ("first", 0o600),
    ("spool", 0o600),
    ("output", 0o700),
    ("output/a", 0o700),
    ("output/a/b", 0o600),
    ("jobs", 0o700),
    ("jobs/3.alpha.1", 0o700),
    ("jobs/3.alpha.1/script", 0o600),
];

fn make_disks(rt: &HostRuntime, folder: &str) -> io::Result<()> {
    drop(HostLock::take(rt, folder)?);
    drop(open_disks(rt, folder)?);
    let mut outlet = FileOutlet::open(*rt, folder, RunsAs::Daemon)?;
    let _ = outlet.write_file(b"a/b", b"");
    Ok(())
}

fn make_job(rt: &HostRuntime, dir: &str, site: &[SiteHost], order: &LaunchOrder) -> io::Result<()> {
    let mut launcher = ShepherdLauncher::open(*rt, "/bin/false", dir, site, HOST, RunsAs::Daemon)?;
    let _ = launcher.launch(order, b"");
    Ok(())
}

// The first path whose mode is another.
fn wrong_mode(rt: &HostRuntime, folder: &str) -> io::Result<Option<usize>> {
    for (place, row) in MODES.iter().enumerate() {
        if mode_at(rt, folder, row.0)? != row.1 {
            return Ok(Some(place));
        }
    }
    Ok(None)
}

fn wrong_mode_in(rt: &HostRuntime, dir: &str) -> Result<Option<usize>, Fail> {
    let order = order_of(3, None, None)?;
    let site = site_of_alpha(rt)?;
    let folder = make_host_folder(rt, dir, &site, HOST)?;
    make_disks(rt, &folder)?;
    make_job(rt, dir, &site, &order)?;
    Ok(wrong_mode(rt, &folder)?)
}

#[test]
fn files_are_private(rt: HostRuntime) -> Result<(), Fail> {
    let dir = fresh_folder(&rt, "modes")?;
    let wrong = wrong_mode_in(&rt, &dir)?;
    fs::remove_dir_all(&rt, &dir)?;
    drop(dir);
    assert_eq!(rt; wrong, None);
    Ok(())
}

#[test]
fn the_process_is_there(rt: HostRuntime) -> Result<(), Fail> {
    fill_streams(&rt)?;
    assert!(rt; own_program(&rt)?.starts_with('/'));
    assert!(rt; SystemClock::new(rt).now() > 1_700_000_000);
    Ok(())
}

fn ask(client: &mut UdpWire, port: u16, daemon: &mut UdpWire, buf: &mut [u8]) -> [bool; 8]
    requires { 49152 < length buf.old }
{
    [
        client.send(Address::Host(HOST), b"ask") == Ok(()),
        client.send(Address::Host(HostId(1)), b"ask") == Err(Failed),
        daemon.receive(buf) == Ok(Received::Datagram(3)),
        buf.starts_with(b"ask\0"),
        daemon.send(Address::Client(port), b"answers") == Ok(()),
        client.receive(buf) == Ok(Received::Datagram(7)),
        buf.starts_with(b"answers\0"),
        client.receive(buf) == Ok(Received::Quiet),
    ]
}

// Also where there is always something to receive.
fn gets_quiet(wire: &mut UdpWire, buf: &mut [u8]) -> bool
    requires { 49152 < length buf.old }
{
    for _ in 0..1_000_000 {
        let _ = wire.send(Address::Host(HOST), b"to itself");
        if wire.receive(buf) == Ok(Received::Quiet) {
            return true;
        }
    }
    false
}

fn talk(rt: &HostRuntime) -> Result<([bool; 8], bool), Fail> {
    let site = site_of_alpha(rt)?;
    let mut daemon = UdpWire::of_daemon(*rt, &site, HOST, 200, LastSender::unnoted())?;
    let (mut client, port) = UdpWire::of_client(*rt, &site, 200)?;
    let mut buf = vec![in rt.alloc(); 0u8; 49_153]?;
    let asked = ask(&mut client, port, &mut daemon, &mut buf);
    Ok((asked, gets_quiet(&mut daemon, &mut buf)))
}

#[test]
fn datagrams_come_and_go(rt: HostRuntime) -> Result<(), Fail> {
    assert_eq!(rt; talk(&rt)?, ([true; 8], true));
    Ok(())
}

// A script, whether it is to be killed, how it ends, and what it writes.
struct Script {
    text: &'static [u8],
    kills: bool,
    status: u8,
    out: &'static [u8],
}

static SCRIPTS: [Script; 9] = [
    Script {
        text: b"echo 42; echo $NQS_REQUEST $NQS_START $NQS_HOST $NQS_QUEUE $NQS_USER; exit 3",
        kills: false,
        status: 3,
        out: b"42\n1.alpha 1 alpha batch ann\n",
    },
    Script {
        text: b"sleep 60",
        kills: true,
        status: 137,
        out: b"",
    },
    // It is killed while it sleeps.
    Script {
        text: b"touch ../jobs/$NQS_REQUEST.$NQS_START/kill; sleep 60",
        kills: false,
        status: 137,
        out: b"",
    },
    Script {
        text: b"umask; kill -9 $$",
        kills: false,
        status: 137,
        out: b"0077\n",
    },
    // Its processor time is a second.
    Script {
        text: b"ulimit -v; while :; do :; done",
        kills: false,
        status: 137,
        out: b"976562\n",
    },
    // It leaves a process in a group of its own, which ignores what it can.
    Script {
        text: b"set -m; (trap '' TERM HUP; exec sleep 60) & echo $! > left; exit 0",
        kills: false,
        status: 0,
        out: b"",
    },
    Script {
        text: b"cat /proc/$(cat left)/cmdline; exit 4",
        kills: false,
        status: 4,
        out: b"",
    },
    // It leaves a process in a session of its own.
    Script {
        text: b"setsid sh -c 'echo $$ > other; exec sleep 60' & while [ ! -s other ]; do sleep 0.01; done",
        kills: false,
        status: 0,
        out: b"",
    },
    Script {
        text: b"cat /proc/$(cat other)/cmdline; exit 4",
        kills: false,
        status: 4,
        out: b"",
    },
];

fn launch_job(launcher: &mut ShepherdLauncher, order: &LaunchOrder, script: &Script) -> bool {
    let is_launched = launcher.launch(order, script.text).is_ok();
    // The second start is not there, which is no fault.
    let start = if script.kills { 1 } else { 2 };
    is_launched && launcher.kill(order.id, start).is_ok()
}

fn run_job(
    rt: &HostRuntime,
    dir: &str,
    site: &[SiteHost],
    order: &LaunchOrder,
) -> io::Result<Result<RunEnd, Failed>> {
    let mut runner = ShellRunner::open(*rt, dir, site, HOST, RunsAs::Daemon)?;
    Ok(runner.run(order.id, order.start))
}

fn ends_so(end: Result<RunEnd, Failed>, script: &Script) -> bool {
    match end {
        Ok(end) => end.status == script.status && end.out.as_slice() == script.out,
        Err(_) => false,
    }
}

// How many scripts end as they are to, before the first that doesn't.
fn run_scripts(rt: &HostRuntime, dir: &str, site: &[SiteHost]) -> Result<u32, Fail> {
    let mut launcher = ShepherdLauncher::open(*rt, "/bin/false", dir, site, HOST, RunsAs::Daemon)?;
    let mut ended = 0u32;
    for script in &SCRIPTS {
        let seq = ended.saturating_add(1);
        let order = order_of(seq, Some(1), Some(1_000_000_000))?;
        let is_launched = launch_job(&mut launcher, &order, script);
        let end = run_job(rt, dir, site, &order)?;
        if !ends_so(end, script) || !is_launched {
            return Ok(ended);
        }
        ended = seq;
    }
    Ok(ended)
}

fn run_in_folder(rt: &HostRuntime, dir: &str) -> Result<u32, Fail> {
    let site = site_of_alpha(rt)?;
    drop(make_host_folder(rt, dir, &site, HOST)?);
    run_scripts(rt, dir, &site)
}

#[test]
fn jobs_end(rt: HostRuntime) -> Result<(), Fail> {
    let dir = fresh_folder(&rt, "jobs")?;
    let ended = run_in_folder(&rt, &dir)?;
    fs::remove_dir_all(&rt, &dir)?;
    drop(dir);
    assert_eq!(rt; ended, 9);
    Ok(())
}
