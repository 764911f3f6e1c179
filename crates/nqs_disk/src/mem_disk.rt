//! A disk in memory. It keeps its calls, so each image of each moment is a function of what it
//! stores.
ghost use Rattle.std.specs.Prelude.{◌≡◌, ◌≤◌, ◌<◌, ◌+◌, ◌-◌, ◌^◌, ℕ, true, false, IsTrue, IfOk, OnOk, OnErr, IfSome, MatchResult, ◌||◌, is_err, is_some, Some};
ghost use Rattle.std.specs.Prelude.{None, [], ◌==◌, length, max, vec_len};
ghost use Rattle.nqs_outside.specs.Causes.{Rose};
ghost use Rattle.nqs_outside.specs.History.{after, fresh, is_sound, state, content, moment, IsImage};
ghost use Rattle.nqs_disk.specs.Calls.{calls_of};
ghost use Rattle.nqs_disk.specs.Lack.{newest};

use crate::fuse::{is_blown, is_done};
use crate::kept::{keep_sync, keep_write};
use crate::torn::torn_bytes;
use crate::{DiskCall, Fuse, Lack};
use nqs_base::Tear;
use nqs_outside::{Disk, Failed, Fused};
use std::alloc::Global;

/// A disk in memory, of at most 2^40 bytes. A fuse has one of its calls fail, and each later one.
/// Beside it one call may be set to fail alone.
pub struct MemDisk {
    alloc: Global,
    start: Vec<u8>,
    content: Vec<u8>,
    calls: Vec<DiskCall>,
    fuse: Option<Fuse>,
    once: Option<Fuse>,
    faults: u64,
    reads: u64,
    lack: Option<Lack>,
    ghost replayed: { (after (fresh start.items) (calls_of calls.items)).content ≡ content.items },
    ghost sound: { IsTrue (is_sound start.items (calls_of calls.items)) },
    ghost small: { length content.items ≤ 2 ^ 40 },
}

// Written out, so that it is let go by a call, and not field by field in each function that owns
// one.
impl Drop for MemDisk {
    fn drop(self) {
        let MemDisk {
            alloc: _,
            start: _,
            content: _,
            calls: _,
            fuse: _,
            once: _,
            faults: _,
            reads: _,
            lack: _,
        } = self;
    }
}

impl MemDisk {
    ghost use Rattle.nqs_disk.specs.MemDisk.{history_of, faults_of, reads_of, lack_of, is_starved, fuse_of, once_of, fails_of, ends_of};
    ghost use Rattle.nqs_disk.specs.Torn.{torn};

    /// An empty disk of which no call is to fail.
    pub fn new(alloc: Global) -> MemDisk
        ensures history { history_of result ≡ record { start = []; calls = [] } }
        ensures faults { faults_of result ≡ 0 }
        ensures reads { reads_of result ≡ 0 }
        ensures starved { is_starved result ≡ false }
        ensures fuse { fuse_of result ≡ None }
        ensures once { once_of result ≡ None }
    {
        MemDisk {
            alloc,
            start: Vec::new(alloc),
            content: Vec::new(alloc),
            calls: Vec::new(alloc),
            fuse: None,
            once: None,
            faults: 0,
            reads: 0,
            lack: None,
        }
    }

    /// What a stop leaves. A disk that lacked something for a call gives that back.
    pub fn crash(self, tear: Tear) -> Result<MemDisk, Lack>
        ensures history { IfOk result (λ disk. history_of disk ≡ record { start = torn tear (state (history_of self)); calls = [] }) }
        ensures image { IfOk result (λ disk. IsImage (state (history_of self)) (content (history_of disk))) }
        ensures faults { IfOk result (λ disk. faults_of disk ≡ 0) }
        ensures reads { IfOk result (λ disk. reads_of disk ≡ 0) }
        ensures starved { IfOk result (λ disk. is_starved disk ≡ false) }
        ensures fuse { IfOk result (λ disk. fuse_of disk ≡ None) }
        ensures once { IfOk result (λ disk. once_of disk ≡ None) }
        ensures fed { IfOk result (λ _. is_starved self ≡ false) }
        ensures lack { IfSome (lack_of self) (λ lack. result ≡ Err lack) }
    {
        let MemDisk {
            alloc,
            start,
            content,
            calls,
            fuse: _,
            once: _,
            faults: _,
            reads: _,
            lack,
        } = self;
        if let Some(lack) = lack {
            return Err(lack);
        }
        let content = torn_bytes(alloc, &start, content, &calls, tear)?;
        Ok(MemDisk {
            alloc,
            start: content.to_vec(alloc)?,
            content,
            calls: Vec::new(alloc),
            fuse: None,
            once: None,
            faults: 0,
            reads: 0,
            lack: None,
        })
    }

    /// Makes the call-th write or sync from here fail, beside those that the fuse has fail. The
    /// later ones go on, and reads too. It takes the place of a call that was set so before.
    pub fn fail_once(&mut self, call: u64)
        ensures history { history_of self.new ≡ history_of self.old }
        ensures faults { faults_of self.new ≡ faults_of self.old }
        ensures reads { reads_of self.new ≡ reads_of self.old }
        ensures lack { lack_of self.new ≡ lack_of self.old }
        ensures fuse { fuse_of self.new ≡ fuse_of self.old }
        ensures set { (i : ℕ) → fails_of self.new i ≡ ((moment (history_of self.old) + (max call 1 - 1)) == i || ends_of self.old i) }
    {
        self.once = Some(Fuse {
            set_at: self.calls.len(),
            after: call.max(1) - 1,
        });
    }

    /// Whether a failed call was a refused growth, or a write past the greatest length.
    pub fn starved(&self) -> bool
        ensures { result ≡ is_starved self.now }
    {
        self.lack.is_some()
    }

    /// What the newest call lacked that was not kept, if one was not. The disk is let go.
    pub fn lack(self) -> Option<Lack>
        ensures some { is_some result ≡ is_starved self }
        ensures lack { result ≡ lack_of self }
    {
        let MemDisk {
            alloc: _,
            start: _,
            content: _,
            calls: _,
            fuse: _,
            once: _,
            faults: _,
            reads: _,
            lack,
        } = self;
        lack
    }
}

// The answer to a call, by whether it was kept and whether it was to be done. What it lacked
// stays with the disk.
fn answer(
    kept: Result<(), Lack>,
    done: bool,
    faults: &mut u64,
    lack: &mut Option<Lack>,
) -> Result<(), Failed>
    ensures ok { OnOk result ((kept ≡ Ok tt) × (done ≡ true)) }
    ensures err { OnErr result (MatchResult kept (λ _. done ≡ false) (λ _. Unit {0})) }
    ensures later { faults.old ≤ faults.new }
    ensures failed { OnErr result (Rose faults.old faults.new) }
    ensures faultless { OnOk result (faults.new ≡ faults.old) }
    ensures lack { lack.new ≡ newest kept lack.old }
    ensures starved { is_some lack.new ≡ (is_some lack.old || is_err kept) }
{
    let is_kept = kept.is_ok();
    if let Err(newest) = kept {
        *lack = Some(newest);
    }
    if !is_kept || !done {
        *faults = faults.saturating_add(1);
        return Err(Failed);
    }
    Ok(())
}

impl Disk for MemDisk {
    ghost use Rattle.nqs_disk.specs.MemDisk.{history_of, fails_of, ends_of, is_starved, reads_of};

    ghost tells = { true };

    ghost history = { history_of };

    ghost fails = { fails_of };

    ghost ends = { ends_of };

    ghost starved = { is_starved };

    ghost faults = { λ disk. disk.faults };

    ghost reads = { reads_of };

    fn len(&mut self) -> Result<u64, Failed> {
        self.reads = self.reads.saturating_add(1);
        if is_blown(self.fuse, self.calls.len()) {
            self.faults = self.faults.saturating_add(1);
            return Err(Failed);
        }
        Ok(self.content.len() as u64)
    }

    fn read_at(&mut self, place: u64, buf: &mut [u8]) -> Result<usize, Failed> {
        self.reads = self.reads.saturating_add(1);
        if is_blown(self.fuse, self.calls.len()) {
            self.faults = self.faults.saturating_add(1);
            return Err(Failed);
        }
        if place >= self.content.len() as u64 {
            return Ok(0);
        }
        let found = &self.content[place as usize..];
        let count = buf.len().min(found.len());
        buf[..count].copy_from_slice(&found[..count]);
        Ok(count)
    }

    fn write_at(&mut self, place: u64, bytes: &[u8]) -> Result<(), Failed> {
        let done = is_done(self.fuse, self.once, self.calls.len());
        let kept = keep_write(
            self.alloc,
            &mut self.content,
            &mut self.calls,
            place,
            bytes,
            done,
        );
        answer(kept, done, &mut self.faults, &mut self.lack)
    }

    fn sync(&mut self) -> Result<(), Failed> {
        let done = is_done(self.fuse, self.once, self.calls.len());
        let kept = keep_sync(&mut self.calls, done);
        answer(kept, done, &mut self.faults, &mut self.lack)
    }
}

impl Fused for MemDisk {
    fn fuse(&mut self, calls: u64) {
        let made = self.calls.len();
        self.once = None;
        if !is_blown(self.fuse, made) {
            self.fuse = Some(Fuse {
                set_at: made,
                after: calls.max(1) - 1,
            });
        }
    }
}
