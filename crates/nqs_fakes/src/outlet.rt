//! An outlet in memory, which keeps each file that it was to write.

ghost use Rattle.std.specs.Prelude.{◌≡◌, ◌∷◌, [], Some, false, map, is_ok, IfOk};
ghost use Rattle.nqs_outside.specs.Causes.{HasCause};
ghost use Rattle.nqs_outside.specs.Told.{Extends};
ghost use Rattle.nqs_outside.specs.Asked.{filed};
ghost use Rattle.nqs_fakes.specs.Failures.{GoesAsListed};
ghost use Rattle.nqs_fakes.specs.Outlet.{filing_of};

use crate::failures::Failures;
use nqs_base::{Bytes, Items};
use nqs_outside::{Failed, Outlet};
use std::alloc::{AllocError, Global};

/// A file that was to be written, and whether it was.
#[derive(Drop)]
pub struct FileWritten {
    pub path: Bytes,
    pub bytes: Bytes,
    pub ok: bool,
}

fn file_of(alloc: Global, path: &[u8], bytes: &[u8], ok: bool) -> Result<FileWritten, AllocError>
    ensures { IfOk result (λ f. filing_of f ≡ filed path.now bytes.now ok) }
{
    let path = Bytes::from_vec(Vec::from_slice(alloc, path)?);
    let bytes = Bytes::from_vec(Vec::from_slice(alloc, bytes)?);
    Ok(FileWritten { path, bytes, ok })
}

/// An outlet that keeps the files that it was to write, those that are written in place of others
/// too.
pub struct MemOutlet {
    alloc: Global,
    kept: Items<FileWritten>,
    calls: Failures,
    starved: bool,
}

// Written out, so that it is let go by a call, and not field by field in each function that owns
// one.
impl Drop for MemOutlet {
    fn drop(self) {
        let MemOutlet {
            alloc: _,
            kept: _,
            calls: _,
            starved: _,
        } = self;
    }
}

impl MemOutlet {
    ghost use Rattle.nqs_fakes.specs.Outlet.{filings_of};

    /// An outlet whose calls of these numbers fail, from 1 on.
    pub fn new(alloc: Global, failing: Vec<u64>) -> MemOutlet
        ensures filings { filings_of result ≡ Some [] }
        ensures numbers { result.calls.numbers.items ≡ failing.items }
        ensures calls { result.calls.calls ≡ 0 }
        ensures faults { result.calls.faults ≡ 0 }
    {
        MemOutlet {
            alloc,
            kept: Items::new(alloc),
            calls: Failures::new(failing),
            starved: false,
        }
    }

    /// The files that were to be written.
    pub fn kept(&self) -> &[FileWritten]
        ensures { result.now ≡ self.now.kept }
    {
        self.kept.as_slice()
    }

    /// Whether memory for what it keeps was refused. Where it wasn't, the outlet tells all that it
    /// keeps.
    pub fn is_starved(&self) -> bool
        ensures starved { result ≡ self.now.starved }
        ensures filings { result ≡ false → filings_of self.now ≡ Some (map filing_of self.now.kept) }
    {
        self.starved
    }

    fn keep(&mut self, path: &[u8], bytes: &[u8], ok: bool)
        ensures filings { Extends (filings_of self.old) (filings_of self.new) (filed path.now bytes.now ok ∷ []) }
        ensures calls { self.new.calls ≡ self.old.calls }
    {
        let Ok(file) = file_of(self.alloc, path, bytes, ok) else {
            self.starved = true;
            return;
        };
        if self.kept.push(file).is_err() {
            self.starved = true;
        }
    }
}

impl Outlet for MemOutlet {
    ghost use Rattle.nqs_fakes.specs.Outlet.{filings_of};

    ghost filings = { filings_of };

    ghost faults = { λ o. o.calls.faults };

    fn write_file(&mut self, path: &[u8], bytes: &[u8]) -> Result<(), Failed>
        ensures filings { Extends (filings_of self.old) (filings_of self.new) (filed path.now bytes.now (is_ok result) ∷ []) }
        ensures cause { HasCause self.old.calls.faults self.new.calls.faults result }
        ensures listed { GoesAsListed self.old.calls self.new.calls result }
    {
        let answer = self.calls.count();
        self.keep(path, bytes, answer.is_ok());
        answer
    }
}
