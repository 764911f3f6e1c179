//! Each fake once: none is starved, and the calls fail that are to fail.

ghost use Rattle.std.specs.Prelude.{◌≡◌, ◌<◌, length};

use nqs_base::{Bytes, Items, ListOf, Memory, Name};
use nqs_fakes::{Item, Kept, ListClock, MemLauncher, MemOutlet, MemPrinter, MemRunner, MemWire};
use nqs_outside::{Address, Clock, Launcher, Outlet, Printer, Received, RunEnd, Runner, Wire};
use nqs_types::{HostId, LaunchOrder, Limits, RequestId};
use std::alloc::Global;
use std::rt::HostRuntime;
use std::test::Fail;

fn bytes(alloc: Global, bytes: &[u8]) -> Result<Bytes, Memory> {
    Ok(Bytes::from_vec(Vec::from_slice(alloc, bytes)?))
}

fn wire(alloc: Global) -> Result<MemWire, Memory> {
    let mut script = Items::new(alloc);
    script.push(Item::Datagram(bytes(alloc, b"abcd")?))?;
    script.push(Item::Quiet)?;
    let receives = Vec::from_slice(alloc, &[2])?;
    let sends = Vec::from_slice(alloc, &[1])?;
    Ok(MemWire::new(alloc, script, receives, sends))
}

// What a receive brings into a buffer of one byte more than the longest datagram has.
fn receive(wire: &mut MemWire, buf: &mut [u8]) -> Option<Received>
    requires { 49152 < length buf.old }
    ensures { length buf.new ≡ length buf.old }
{
    match wire.receive(buf) {
        Ok(received) => Some(received),
        Err(_) => None,
    }
}

#[test]
fn receives_what_the_script_has(rt: HostRuntime) -> Result<(), Fail> {
    let mut buf = vec![in rt.alloc(); 0u8; 49_153]?;
    let mut wire = wire(rt.alloc())?;
    let first = receive(&mut wire, &mut buf) == Some(Received::Datagram(4))
        && buf.starts_with(b"abcd");
    let second = receive(&mut wire, &mut buf).is_none() && wire.script().len() == 1;
    let third = receive(&mut wire, &mut buf) == Some(Received::Quiet);
    let fourth = receive(&mut wire, &mut buf) == Some(Received::Quiet);
    let kept = wire.kept().len() == 3 && !wire.is_starved();
    drop(wire);
    assert_eq!(rt; [first, second, third, fourth, kept], [true; 5]);
    Ok(())
}

// A reply comes once there were as many sends as it waits for, and is the first item until then.
#[test]
fn replies_to_what_was_sent(rt: HostRuntime) -> Result<(), Fail> {
    let alloc = rt.alloc();
    let mut buf = vec![in alloc; 0u8; 49_153]?;
    let script = Items::of(alloc, Item::Reply(1, bytes(alloc, b"so")?))?;
    let mut wire = MemWire::new(alloc, script, Vec::new(alloc), Vec::new(alloc));
    let early = receive(&mut wire, &mut buf) == Some(Received::Quiet) && wire.script().len() == 1;
    let sent = wire.send(Address::Client(9), b"a").is_ok();
    let due = receive(&mut wire, &mut buf) == Some(Received::Datagram(2)) && buf.starts_with(b"so");
    let order = matches!(
        wire.kept(),
        [Kept::Nothing, Kept::Outbound(_, _), Kept::Inbound(_)]
    );
    drop(wire);
    assert_eq!(rt; [early, sent, due, order], [true; 4]);
    Ok(())
}

fn has_sent(wire: &MemWire) -> bool {
    match wire.kept() {
        [Kept::Outbound(to, first), Kept::Outbound(other, second)] => {
            *to == Address::Client(9)
                && first.as_slice() == b"a".as_slice()
                && *other == Address::Host(HostId(1))
                && second.len() == 0
        }
        _ => false,
    }
}

#[test]
fn keeps_what_was_to_be_sent(rt: HostRuntime) -> Result<(), Fail> {
    let mut wire = wire(rt.alloc())?;
    let first = wire.send(Address::Client(9), b"a").is_err();
    let second = wire.send(Address::Host(HostId(1)), b"").is_ok();
    let kept = has_sent(&wire) && !wire.is_starved();
    drop(wire);
    assert_eq!(rt; [first, second, kept], [true; 3]);
    Ok(())
}

const ID: RequestId = RequestId {
    seq: 7,
    host: HostId(0),
};

fn order(name: Name) -> LaunchOrder {
    LaunchOrder {
        id: ID,
        start: 1,
        name,
        owner: name,
        queue: name,
        limits: Limits {
            cpu: None,
            memory: None,
        },
    }
}

fn launches(alloc: Global, name: Name) -> Result<bool, Memory> {
    let mut launcher = MemLauncher::new(alloc, Vec::from_slice(alloc, &[2])?);
    let is_right = launcher.launch(&order(name), b"date").is_ok()
        && launcher.kill(ID, 1).is_err()
        && launcher.kept().len() == 2
        && !launcher.is_starved();
    drop(launcher);
    Ok(is_right)
}

fn prints(alloc: Global, name: Name) -> Result<bool, Memory> {
    let mut printer = MemPrinter::new(alloc, Vec::from_slice(alloc, &[1])?);
    let is_right = printer.print(&name, &order(name), b"text").is_err()
        && printer.print(&name, &order(name), b"text").is_ok()
        && printer.kept().len() == 2
        && !printer.is_starved();
    drop(printer);
    Ok(is_right)
}

fn writes(alloc: Global) -> bool {
    let mut outlet = MemOutlet::new(alloc, Vec::new(alloc));
    let is_right = outlet.write_file(b"a/b", b"text").is_ok()
        && outlet.kept().len() == 1
        && !outlet.is_starved();
    drop(outlet);
    is_right
}

#[test]
fn keeps_jobs_prints_and_files(rt: HostRuntime) -> Result<(), Fail> {
    let alloc = rt.alloc();
    let name = Name::read(b"laser")?;
    let are_right = [launches(alloc, name)?, prints(alloc, name)?, writes(alloc)];
    assert_eq!(rt; are_right, [true; 3]);
    Ok(())
}

fn status_of(runner: &mut MemRunner) -> Option<u8> {
    match runner.run(ID, 1) {
        Ok(end) => Some(end.status),
        Err(_) => None,
    }
}

#[test]
fn answers_its_ends(rt: HostRuntime) -> Result<(), Fail> {
    let alloc = rt.alloc();
    let end = RunEnd {
        status: 3,
        out: bytes(alloc, b"42")?,
        err: Bytes::new(alloc),
    };
    let ends = Items::of(alloc, end)?;
    let mut runner = MemRunner::new(alloc, ends, Vec::from_slice(alloc, &[1])?);
    let statuses = [
        status_of(&mut runner),
        status_of(&mut runner),
        status_of(&mut runner),
    ];
    let kept = runner.kept().len() == 3 && !runner.is_starved();
    drop(runner);
    assert_eq!(rt; (statuses, kept), ([None, Some(3), None], true));
    Ok(())
}

#[test]
fn gives_its_moments(rt: HostRuntime) -> Result<(), Fail> {
    let alloc = rt.alloc();
    let moments = ListOf::from_vec(Vec::from_slice(alloc, &[5, 4])?);
    if moments.len() == 0 {
        return Ok(());
    }
    let mut clock = ListClock::new(alloc, moments);
    let given = [clock.now(), clock.now(), clock.now()];
    let kept = clock.given().len() == 3 && !clock.is_starved();
    drop(clock);
    assert_eq!(rt; (given, kept), ([5, 4, 4], true));
    Ok(())
}
