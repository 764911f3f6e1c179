//! Which calls of a disk are to fail.
ghost use Rattle.std.specs.Prelude.{◌≡◌, ◌+◌, IsTrue, nat_lt, not, false, Option};
ghost use Rattle.nqs_disk.specs.Fuse.{fails_at, fails_alone, is_due, has_blown};

/// A call to come. As a fuse it and each later one is to fail, as a single failure it alone.
#[derive(Clone, Copy, Debug, PartialEq, Eq)]
pub struct Fuse {
    /// How many calls there were when it was set.
    pub set_at: usize,
    /// How many are done after that.
    pub after: u64,
}

// Whether the fuse has the next call fail.
fn is_fused(fuse: Option<Fuse>, made: usize) -> bool
    ensures { result ≡ fails_at fuse made }
{
    match fuse {
        None => false,
        Some(fuse) => fuse.set_at <= made && fuse.after <= (made - fuse.set_at) as u64,
    }
}

// Whether the next call is to fail alone.
fn is_alone(once: Option<Fuse>, made: usize) -> bool
    ensures { result ≡ fails_alone once made }
{
    match once {
        None => false,
        Some(once) => once.set_at <= made && once.after == (made - once.set_at) as u64,
    }
}

// Whether the next call is done.
pub(crate) fn is_done(fuse: Option<Fuse>, once: Option<Fuse>, made: usize) -> bool
    ensures due { result ≡ not (is_due fuse once made) }
    ensures whole { IsTrue result → fails_at fuse made ≡ false }
{
    let fused = is_fused(fuse, made);
    let alone = is_alone(once, made);
    !(alone || fused)
}

// Whether a call was made from which on each one is to fail.
pub(crate) fn is_blown(fuse: Option<Fuse>, made: usize) -> bool
    ensures { result ≡ has_blown fuse made }
{
    match fuse {
        None => false,
        Some(fuse) => fuse.set_at < made && fuse.after < (made - fuse.set_at) as u64,
    }
}
