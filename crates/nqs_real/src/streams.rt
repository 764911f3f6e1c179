//! Standard input and output as a source and a sink, with their faults counted; and streams that
//! are closed at the start.

ghost use Rattle.std.specs.Prelude.{◌≡◌};

use crate::counted::counted;
use nqs_outside::{Failed, Sink, Source};
use std::fs::File;
use std::io;
use std::io::{Read, Write};
use std::os::fd::{AsRawFd, IntoRawFd};
use std::rt::HostRuntime;

/// A source over a reader. Each `Err` of the reader counts as a fault.
#[derive(Drop)]
pub struct Reading<R: Read + Drop> {
    inner: R,
    faults: u64,
}

impl<R: Read + Drop> Reading<R> {
    /// A source over the reader, without faults so far.
    pub fn new(inner: R) -> Reading<R>
        ensures faults { result.faults ≡ 0 }
        ensures reader { result.inner ≡ inner }
    {
        Reading { inner, faults: 0 }
    }
}

impl<R: Read + Drop> Source for Reading<R> {
    ghost left = { λ s. R.remaining s.inner };

    ghost faults = { λ s. s.faults };

    fn read(&mut self, buf: &mut [u8]) -> Result<usize, Failed> {
        match self.inner.read(buf) {
            Ok(count) => Ok(count),
            Err(_) => {
                self.faults = self.faults.saturating_add(1);
                Err(Failed)
            }
        }
    }
}

/// A sink over a writer. Each `Err` of the writer counts as a fault, and each Ok of 0 as a stall.
#[derive(Drop)]
pub struct Writing<W: Write + Drop> {
    inner: W,
    faults: u64,
    stalls: u64,
}

impl<W: Write + Drop> Writing<W> {
    /// A sink over the writer, without faults and stalls so far.
    pub fn new(inner: W) -> Writing<W>
        ensures faults { result.faults ≡ 0 }
        ensures stalls { result.stalls ≡ 0 }
        ensures writer { result.inner ≡ inner }
    {
        Writing {
            inner,
            faults: 0,
            stalls: 0,
        }
    }
}

impl<W: Write + Drop> Sink for Writing<W> {
    ghost taken = { λ s. W.contents s.inner };

    ghost faults = { λ s. s.faults };

    ghost stalls = { λ s. s.stalls };

    fn write(&mut self, bytes: &[u8]) -> Result<usize, Failed> {
        match self.inner.write(bytes) {
            Ok(count) => {
                if count == 0 {
                    self.stalls = self.stalls.saturating_add(1);
                }
                Ok(count)
            }
            Err(_) => {
                self.faults = self.faults.saturating_add(1);
                Err(Failed)
            }
        }
    }
}

/// Fills standard input, output and error, where they are closed, with `/dev/null`: else the next
/// file or socket would take the number of one and get what is written to it. To be called before
/// anything is opened.
pub fn fill_streams(rt: &HostRuntime) -> io::Result<()> {
    for _ in 0..3 {
        let file = File::open(rt, "/dev/null")?;
        if file.as_raw_fd() > 2 {
            return Ok(());
        }
        let _kept = file.into_raw_fd();
    }
    Ok(())
}
