//! Puts and frees on a disk in memory, and what stops leave.
ghost use Rattle.std.specs.Prelude.{◌≡◌, ◌≤◌, IsTrue, IfOk, length};
ghost use Rattle.nqs_disk.specs.MemDisk.{history_of};
ghost use Rattle.nqs_outside.specs.History.{content, IsQuiet};
ghost use Rattle.nqs_spool.specs.Extents.{extent_at};

use nqs_base::{Extent, Memory, Tear};
use nqs_disk::MemDisk;
use nqs_outside::Disk;
use nqs_spool::{ExtentFault, LiveExtents, Spool, SpoolFault};
use std::alloc::Global;
use std::test::Fail;

type Put = Result<Extent, SpoolFault>;

fn opened(alloc: Global) -> Option<Spool<MemDisk>> {
    let disk = MemDisk::new(alloc);
    Spool::load(alloc, disk, &[]).ok()
}

fn let_go(spool: Spool<MemDisk>) {}

fn holds(alloc: Global, spool: &mut Spool<MemDisk>, extent: &Extent, bytes: &[u8]) -> bool {
    let mut read = Vec::new(alloc);
    let done = spool.get(extent, &mut read).is_ok();
    done && read.as_slice() == bytes
}

fn at(place: u64, length: u32) -> Extent
    ensures { result ≡ extent_at place length }
{
    Extent { place, length }
}

fn puts_side_by_side(spool: &mut Spool<MemDisk>) -> [Put; 3] {
    [spool.put(b"abc"), spool.put(b"fives"), spool.put(b"de")]
}

// `fives` is freed. Behind `four` one byte is free, at 7, which is too few for `fg`.
fn puts_over_freed(spool: &mut Spool<MemDisk>) -> [Put; 3] {
    spool.free(&at(3, 5));
    [spool.put(b"four"), spool.put(b"fg"), spool.put(b"h")]
}

fn lengths_and_bytes(alloc: Global, spool: &mut Spool<MemDisk>) -> (Option<u64>, bool, bool) {
    let length = spool.length().ok();
    let four = holds(alloc, spool, &at(3, 4), b"four");
    let all = holds(alloc, spool, &at(0, 12), b"abcfourhdefg");
    (length, four, all)
}

fn least(alloc: Global) -> Option<(bool, [Put; 3], [Put; 3], (Option<u64>, bool, bool))> {
    let mut spool = opened(alloc)?;
    let room = spool.make_room(4).is_ok();
    let first = puts_side_by_side(&mut spool);
    let second = puts_over_freed(&mut spool);
    let found = lengths_and_bytes(alloc, &mut spool);
    let_go(spool);
    Some((room, first, second, found))
}

#[test]
fn least_places(rt: HostRuntime) {
    let first = [Ok(at(0, 3)), Ok(at(3, 5)), Ok(at(8, 2))];
    let second = [Ok(at(3, 4)), Ok(at(10, 2)), Ok(at(7, 1))];
    let found = (Some(12), true, true);
    assert_eq!(rt; least(rt.alloc()), Some((true, first, second, found)));
}

fn puts_of_lengths(spool: &mut Spool<MemDisk>, longer: &[u8], longest: &[u8]) -> [Put; 5] {
    let empty = spool.put(&[]);
    let refused = spool.put(longer);
    let long = spool.put(longest);
    let other = spool.put(&[]);
    spool.free(&at(0, 0));
    [empty, refused, long, other, spool.put(b"x")]
}

fn of_lengths(alloc: Global, longer: &[u8], longest: &[u8]) -> Option<([Put; 5], bool)> {
    let mut spool = opened(alloc)?;
    let puts = puts_of_lengths(&mut spool, longer, longest);
    let empty = holds(alloc, &mut spool, &at(0, 0), &[]);
    let_go(spool);
    Some((puts, empty))
}

fn bytes_of(alloc: Global, count: usize) -> Result<Vec<u8>, Memory> {
    Ok(vec![in alloc; 5u8; count]?)
}

#[test]
fn lengths(rt: HostRuntime) -> Result<(), Fail> {
    let longer = bytes_of(rt.alloc(), 1_048_577)?;
    let longest = bytes_of(rt.alloc(), 1_048_576)?;
    let found = of_lengths(rt.alloc(), &longer, &longest);
    let puts = [
        Ok(at(0, 0)),
        Err(SpoolFault::TooLong),
        Ok(at(0, 1_048_576)),
        Ok(at(0, 0)),
        Ok(at(1_048_576, 1)),
    ];
    assert_eq!(rt; found, Some((puts, true)));
    Ok(())
}

// Puts so many bytes, one by one: is each behind the one before?
fn puts_bytes(spool: &mut Spool<MemDisk>, count: u64) -> bool {
    for place in 0..count {
        if spool.put(b"x") != Ok(at(place, 1)) {
            return false;
        }
    }
    true
}

fn frees_bytes(spool: &mut Spool<MemDisk>, count: u64) {
    for place in 0..count {
        spool.free(&at(place, 1));
    }
}

fn grows_and_shrinks(alloc: Global) -> Option<([bool; 3], Put)> {
    let mut spool = opened(alloc)?;
    let is_put = puts_bytes(&mut spool, 1_000);
    let is_low = spool.height() <= 14;
    frees_bytes(&mut spool, 500);
    let is_lower = spool.height() <= 12;
    let next = spool.put(b"x");
    let_go(spool);
    Some(([is_put, is_low, is_lower], next))
}

// A tree of 1,000 slots whose sides differ by at most one is no higher than 14, and one of 500 than
// 12.
#[test]
fn stays_low(rt: HostRuntime) {
    assert_eq!(rt;
        grows_and_shrinks(rt.alloc()),
        Some(([true; 3], Ok(at(0, 1))))
    );
}

/// A tear, what it leaves of `gone` and `live` where a put of `new` over `gone` fails, in its write
/// or in its sync, and what of `live` where a put of `more` behind it does.
static LEFT: [(Tear, &[u8], &[u8]); 4] = [
    (Tear::Old, b"gonelive", b"live"),
    (Tear::New, b"newelive", b"livemore"),
    // Each pending byte is the old one, and so is the length.
    (Tear::Mixed(0), b"gonelive", b"live"),
    // The pending bytes are 255, 7, the new one and the old one, which is 0 past the end.
    (Tear::Mixed(0x1B), b"\xFF\x07welive", b"live\xFF\x07r\0"),
];

// Whether these are the bytes of a short disk.
fn is_left(disk: &mut MemDisk, bytes: &[u8]) -> bool
    ensures { history_of disk.new ≡ history_of disk.old }
{
    let mut found = [0u8; 16];
    match disk.read_at(0, &mut found) {
        Ok(count) => &found[..count] == bytes,
        Err(_) => false,
    }
}

fn has_eight_bytes(disk: &mut MemDisk) -> bool
    ensures same { history_of disk.new ≡ history_of disk.old }
    ensures long { IsTrue result → 8 ≤ length (content (history_of disk.old)) }
{
    match disk.len() {
        Ok(length) => length >= 8,
        Err(_) => false,
    }
}

// A stop didn't leave what is looked for.
#[derive(Drop)]
struct Otherwise;

// What a stop leaves, where it leaves these bytes.
fn crashed(disk: MemDisk, tear: Tear, left: &[u8]) -> Result<MemDisk, Otherwise>
    ensures quiet { IfOk result (λ disk. IsQuiet (history_of disk)) }
    ensures long { IfOk result (λ disk. 8 ≤ length (content (history_of disk))) }
{
    let Ok(mut disk) = disk.crash(tear) else {
        return Err(Otherwise);
    };
    if !is_left(&mut disk, left) {
        return Err(Otherwise);
    }
    if !has_eight_bytes(&mut disk) {
        return Err(Otherwise);
    }
    Ok(disk)
}

fn reopened(
    alloc: Global,
    stopped: MemDisk,
    tear: Tear,
    left: &[u8],
) -> Result<Spool<MemDisk>, Otherwise> {
    let disk = crashed(stopped, tear, left)?;
    match Spool::load(alloc, disk, &[at(0, 0), at(4, 4)]) {
        Ok(spool) => Ok(spool),
        Err(_) => Err(Otherwise),
    }
}

// A live extent, one that was freed, and a put over the freed bytes that fails at a call.
fn puts_over(spool: &mut Spool<MemDisk>, calls: u64) -> [Put; 3] {
    let gone = spool.put(b"gone");
    let live = spool.put(b"live");
    spool.free(&at(0, 4));
    spool.fuse(calls);
    [gone, live, spool.put(b"new")]
}

// The next put, and whether the live extent has its bytes.
fn next_put(alloc: Global, mut spool: Spool<MemDisk>) -> (Put, bool) {
    let next = spool.put(b"four");
    let lives = holds(alloc, &mut spool, &at(4, 4), b"live");
    let_go(spool);
    (next, lives)
}

fn left_over(alloc: Global, calls: u64, tear: Tear, left: &[u8]) -> Option<([Put; 3], Put, bool)> {
    let mut spool = opened(alloc)?;
    let puts = puts_over(&mut spool, calls);
    let spool = reopened(alloc, spool.close(), tear, left).ok()?;
    let (next, lives) = next_put(alloc, spool);
    Some((puts, next, lives))
}

// A put behind a live extent that fails at a call, after which nothing is read.
fn calls_behind(alloc: Global, spool: &mut Spool<MemDisk>, calls: u64) -> [Option<SpoolFault>; 4] {
    let live = spool.put(b"live").err();
    spool.fuse(calls);
    let more = spool.put(b"more").err();
    let mut bytes = Vec::new(alloc);
    let read = spool.get(&at(0, 4), &mut bytes).err();
    [live, more, read, spool.length().err()]
}

// Whether a stop leaves these bytes.
fn leaves(disk: MemDisk, tear: Tear, left: &[u8]) -> bool {
    match disk.crash(tear) {
        Ok(mut disk) => is_left(&mut disk, left),
        Err(_) => false,
    }
}

fn left_behind(
    alloc: Global,
    calls: u64,
    tear: Tear,
    left: &[u8],
) -> Option<([Option<SpoolFault>; 4], bool)> {
    let mut spool = opened(alloc)?;
    let faults = calls_behind(alloc, &mut spool, calls);
    Some((faults, leaves(spool.close(), tear, left)))
}

// What is seen of a put that fails over freed bytes.
fn over_wanted() -> ([Put; 3], Put, bool) {
    let puts = [Ok(at(0, 4)), Ok(at(4, 4)), Err(SpoolFault::Disk)];
    (puts, Ok(at(0, 4)), true)
}

fn disk_failed() -> Option<SpoolFault> {
    Some(SpoolFault::Disk)
}

// What is seen of a put that fails behind a live extent.
fn behind_wanted() -> ([Option<SpoolFault>; 4], bool) {
    ([None, disk_failed(), disk_failed(), disk_failed()], true)
}

#[test]
fn stops(rt: HostRuntime) {
    let alloc = rt.alloc();
    for (tear, over, behind) in &LEFT {
        for calls in 1..3 {
            let found = left_over(alloc, calls, *tear, *over);
            assert_eq!(rt; found, Some(over_wanted()));
            let found = left_behind(alloc, calls, *tear, *behind);
            assert_eq!(rt; found, Some(behind_wanted()));
        }
    }
}

/// The bytes of a disk, the places and lengths of extents on it, and the place of the first that it
/// can't have.
const EXTENTS: [(u64, [(u64, u32); 3], Option<u64>); 9] = [
    (0, [(0, 0), (0, 0), (0, 0)], None),
    (10, [(4, 2), (0, 4), (6, 4)], None),
    (9, [(4, 2), (0, 4), (6, 4)], Some(6)),
    // By one byte: before, behind, within and around.
    (20, [(4, 4), (1, 4), (4, 4)], Some(1)),
    (20, [(4, 4), (0, 4), (7, 2)], Some(7)),
    (20, [(4, 4), (8, 4), (5, 1)], Some(5)),
    (20, [(4, 4), (9, 4), (3, 10)], Some(3)),
    // An empty one meets none, and is within the disk.
    (8, [(0, 8), (3, 0), (8, 0)], None),
    (8, [(0, 8), (9, 0), (0, 1)], Some(9)),
];

// The place of the first extent that a disk of so many bytes can't have, if memory is there.
fn bad_extent(alloc: Global, extents: &[Extent], size: u64) -> Option<Option<u64>> {
    match LiveExtents::load_sound(alloc, extents, size) {
        Ok(_) => Some(None),
        Err(ExtentFault::Bad(place)) => Some(Some(place)),
        Err(ExtentFault::Memory(_)) => None,
    }
}

#[test]
fn first_bad_extent(rt: HostRuntime) {
    for (size, [first, second, third], bad) in &EXTENTS {
        let extents = [
            at(first.0, first.1),
            at(second.0, second.1),
            at(third.0, third.1),
        ];
        assert_eq!(rt; bad_extent(rt.alloc(), &extents, *size), Some(*bad));
    }
}
