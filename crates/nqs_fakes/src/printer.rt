//! A printer in memory, which feeds no device.

ghost use Rattle.std.specs.Prelude.{◌≡◌, ◌∷◌, [], Some, false, map, is_ok};
ghost use Rattle.nqs_outside.specs.Causes.{HasCause};
ghost use Rattle.nqs_outside.specs.Told.{Extends};
ghost use Rattle.nqs_outside.specs.Asked.{printed};
ghost use Rattle.nqs_fakes.specs.Failures.{GoesAsListed};
ghost use Rattle.nqs_fakes.specs.Printer.{print_of};

use crate::failures::Failures;
use nqs_base::{Bytes, Items, Name};
use nqs_outside::{Failed, Printer};
use nqs_types::LaunchOrder;
use std::alloc::Global;

/// What was to be printed, and whether it was.
#[derive(Drop)]
pub struct Printed {
    pub device: Name,
    pub order: LaunchOrder,
    pub bytes: Bytes,
    pub ok: bool,
}

/// A printer that keeps what it was to print.
pub struct MemPrinter {
    alloc: Global,
    kept: Items<Printed>,
    calls: Failures,
    starved: bool,
}

// Written out, so that it is let go by a call, and not field by field in each function that owns
// one.
impl Drop for MemPrinter {
    fn drop(self) {
        let MemPrinter {
            alloc: _,
            kept: _,
            calls: _,
            starved: _,
        } = self;
    }
}

impl MemPrinter {
    ghost use Rattle.nqs_fakes.specs.Printer.{prints_of};

    /// A printer whose calls of these numbers fail, from 1 on.
    pub fn new(alloc: Global, failing: Vec<u64>) -> MemPrinter
        ensures prints { prints_of result ≡ Some [] }
        ensures numbers { result.calls.numbers.items ≡ failing.items }
        ensures calls { result.calls.calls ≡ 0 }
        ensures faults { result.calls.faults ≡ 0 }
    {
        MemPrinter {
            alloc,
            kept: Items::new(alloc),
            calls: Failures::new(failing),
            starved: false,
        }
    }

    /// What was to be printed.
    pub fn kept(&self) -> &[Printed]
        ensures { result.now ≡ self.now.kept }
    {
        self.kept.as_slice()
    }

    /// Whether memory for what it keeps was refused. Where it wasn't, the printer tells all that it
    /// keeps.
    pub fn is_starved(&self) -> bool
        ensures starved { result ≡ self.now.starved }
        ensures prints { result ≡ false → prints_of self.now ≡ Some (map print_of self.now.kept) }
    {
        self.starved
    }

    fn keep(&mut self, device: &Name, order: &LaunchOrder, bytes: &[u8], ok: bool)
        ensures prints { Extends (prints_of self.old) (prints_of self.new) (printed device.now order.now bytes.now ok ∷ []) }
        ensures calls { self.new.calls ≡ self.old.calls }
    {
        let Ok(bytes) = Vec::from_slice(self.alloc, bytes) else {
            self.starved = true;
            return;
        };
        let print = Printed {
            device: *device,
            order: *order,
            bytes: Bytes::from_vec(bytes),
            ok,
        };
        if self.kept.push(print).is_err() {
            self.starved = true;
        }
    }
}

impl Printer for MemPrinter {
    ghost use Rattle.nqs_fakes.specs.Printer.{prints_of};

    ghost prints = { prints_of };

    ghost faults = { λ p. p.calls.faults };

    fn print(&mut self, device: &Name, order: &LaunchOrder, bytes: &[u8]) -> Result<(), Failed>
        ensures prints { Extends (prints_of self.old) (prints_of self.new) (printed device.now order.now bytes.now (is_ok result) ∷ []) }
        ensures cause { HasCause self.old.calls.faults self.new.calls.faults result }
        ensures listed { GoesAsListed self.old.calls self.new.calls result }
    {
        let answer = self.calls.count();
        self.keep(device, order, bytes, answer.is_ok());
        answer
    }
}
