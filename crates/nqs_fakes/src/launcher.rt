//! A launcher in memory, which starts nothing.

ghost use Rattle.std.specs.Prelude.{◌≡◌, ◌≤◌, ◌+◌, ◌-◌, ◌^◌, ◌∷◌, [], Some, false, map, min, is_ok};
ghost use Rattle.nqs_outside.specs.Causes.{HasCause};
ghost use Rattle.nqs_outside.specs.Told.{Extends};
ghost use Rattle.nqs_outside.specs.Asked.{launched, killed};
ghost use Rattle.nqs_fakes.specs.Failures.{GoesAsListed};
ghost use Rattle.nqs_fakes.specs.Launcher.{ask_of};

use crate::failures::Failures;
use nqs_base::{Bytes, Items};
use nqs_outside::{Failed, Launcher};
use nqs_types::{LaunchOrder, RequestId};
use std::alloc::Global;

/// What a launcher was asked, and whether it did it.
#[derive(Drop)]
pub enum LauncherCall {
    Launch {
        order: LaunchOrder,
        script: Bytes,
        ok: bool,
    },
    Kill {
        id: RequestId,
        start: u16,
        ok: bool,
    },
}

/// A launcher that keeps what it was asked.
pub struct MemLauncher {
    alloc: Global,
    kept: Items<LauncherCall>,
    calls: Failures,
    tended: u64,
    starved: bool,
}

// Written out, so that it is let go by a call, and not field by field in each function that owns
// one.
impl Drop for MemLauncher {
    fn drop(self) {
        let MemLauncher {
            alloc: _,
            kept: _,
            calls: _,
            tended: _,
            starved: _,
        } = self;
    }
}

impl MemLauncher {
    ghost use Rattle.nqs_fakes.specs.Launcher.{asked_of};

    /// A launcher whose calls of these numbers fail, from 1 on.
    pub fn new(alloc: Global, failing: Vec<u64>) -> MemLauncher
        ensures asked { asked_of result ≡ Some [] }
        ensures numbers { result.calls.numbers.items ≡ failing.items }
        ensures calls { result.calls.calls ≡ 0 }
        ensures faults { result.calls.faults ≡ 0 }
        ensures tended { result.tended ≡ 0 }
    {
        MemLauncher {
            alloc,
            kept: Items::new(alloc),
            calls: Failures::new(failing),
            tended: 0,
            starved: false,
        }
    }

    /// How often it was tended.
    pub fn tended(&self) -> u64
        ensures { result ≡ self.now.tended }
    {
        self.tended
    }

    /// What it was asked.
    pub fn kept(&self) -> &[LauncherCall]
        ensures { result.now ≡ self.now.kept }
    {
        self.kept.as_slice()
    }

    /// Whether memory for what it keeps was refused. Where it wasn't, the launcher tells all that
    /// it keeps.
    pub fn is_starved(&self) -> bool
        ensures starved { result ≡ self.now.starved }
        ensures asked { result ≡ false → asked_of self.now ≡ Some (map ask_of self.now.kept) }
    {
        self.starved
    }

    fn keep(&mut self, call: LauncherCall)
        ensures asked { Extends (asked_of self.old) (asked_of self.new) (ask_of call ∷ []) }
        ensures calls { self.new.calls ≡ self.old.calls }
    {
        if self.kept.push(call).is_err() {
            self.starved = true;
        }
    }

    fn keep_launch(&mut self, order: &LaunchOrder, script: &[u8], ok: bool)
        ensures asked { Extends (asked_of self.old) (asked_of self.new) (launched order.now script.now ok ∷ []) }
        ensures calls { self.new.calls ≡ self.old.calls }
    {
        match Vec::from_slice(self.alloc, script) {
            Ok(script) => self.keep(LauncherCall::Launch {
                order: *order,
                script: Bytes::from_vec(script),
                ok,
            }),
            Err(_) => self.starved = true,
        }
    }
}

impl Launcher for MemLauncher {
    ghost use Rattle.nqs_fakes.specs.Launcher.{asked_of};

    ghost asked = { asked_of };

    ghost faults = { λ l. l.calls.faults };

    fn launch(&mut self, order: &LaunchOrder, script: &[u8]) -> Result<(), Failed>
        ensures asked { Extends (asked_of self.old) (asked_of self.new) (launched order.now script.now (is_ok result) ∷ []) }
        ensures cause { HasCause self.old.calls.faults self.new.calls.faults result }
        ensures listed { GoesAsListed self.old.calls self.new.calls result }
    {
        let answer = self.calls.count();
        self.keep_launch(order, script, answer.is_ok());
        answer
    }

    fn kill(&mut self, id: RequestId, start: u16) -> Result<(), Failed>
        ensures asked { Extends (asked_of self.old) (asked_of self.new) (killed id start (is_ok result) ∷ []) }
        ensures cause { HasCause self.old.calls.faults self.new.calls.faults result }
        ensures listed { GoesAsListed self.old.calls self.new.calls result }
    {
        let answer = self.calls.count();
        self.keep(LauncherCall::Kill {
            id,
            start,
            ok: answer.is_ok(),
        });
        answer
    }

    fn tend(&mut self)
        ensures asked { Extends (asked_of self.old) (asked_of self.new) [] }
        ensures calls { self.new.calls ≡ self.old.calls }
        ensures later { self.old.calls.faults ≤ self.new.calls.faults }
        ensures kept { self.new.kept ≡ self.old.kept }
        ensures tended { self.new.tended ≡ min (self.old.tended + 1) (2 ^ 64 - 1) }
    {
        self.tended = self.tended.saturating_add(1);
    }
}
