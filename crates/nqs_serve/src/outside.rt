//! The outside of a daemon in one piece: it is borrowed once, and tells in one word.

ghost use Rattle.std.specs.Prelude.{◌≡◌, ◌<◌, [], ◌∷◌, ℕ, List, IfOk, OnErr, OnOk, length};
ghost use Rattle.nqs_outside.specs.Causes.{Rose};

use crate::notes::Notes;
use crate::sort::IgnoreCause;
use nqs_base::Name;
use nqs_outside::{Address, Clock, Failed, Launcher, Outlet, Printer, Received, Wire};
use nqs_types::{LaunchOrder, RequestId};

/// All that a daemon asks, beside its disks. Whether a send failed is not answered: it is a loss.
pub(crate) trait Outside {
    ghost use Rattle.nqs_outside.specs.Asked.{arrival, inbound, IsWithin, outbound, packet, launched, killed, printed, filed};
    ghost use Rattle.nqs_serve.specs.Tellings.{Telling, AddsNone, Passes, Does, Gives};

    /// What it tells of what it was asked.
    ghost told: { Self → Telling };

    /// How often a receive has failed.
    ghost receive_faults: { Self → ℕ };

    /// Which borrows it has: they stay.
    ghost borrows: { Self → List ℕ };

    /// A datagram at the front of the buffer, which has room for one more byte than the longest
    /// has, or that nothing came.
    fn receive(&mut self, buf: &mut [u8]) -> Result<Received, Failed>
        requires room { 49152 < length buf.old }
        ensures within { IfOk result (λ r. IsWithin r (length buf.new)) }
        ensures same_length { length buf.new ≡ length buf.old }
        ensures came { IfOk result (λ r. Passes (told self.old) (told self.new) (inbound (arrival r buf.new) ∷ [])) }
        ensures lost { OnErr result (AddsNone (told self.old) (told self.new)) }
        ensures failed { OnErr result (Rose (receive_faults self.old) (receive_faults self.new)) }
        ensures heard { OnOk result (receive_faults self.new ≡ receive_faults self.old) }
        ensures borrows { borrows self.new ≡ borrows self.old };

    /// Sends a datagram.
    fn send(&mut self, to: Address, bytes: &[u8])
        ensures sends { Passes (told self.old) (told self.new) (outbound (packet to bytes.now) ∷ []) }
        ensures heard { receive_faults self.new ≡ receive_faults self.old }
        ensures borrows { borrows self.new ≡ borrows self.old };

    /// Starts a job with this script. Answers whether it did.
    fn launch(&mut self, order: &LaunchOrder, script: &[u8]) -> bool
        ensures asked { Does (told self.old) (told self.new) (launched order.now script.now result ∷ []) [] [] }
        ensures heard { receive_faults self.new ≡ receive_faults self.old }
        ensures borrows { borrows self.new ≡ borrows self.old };

    /// Tells the job of this start to end. Answers whether it did.
    fn kill(&mut self, id: RequestId, start: u16) -> bool
        ensures asked { Does (told self.old) (told self.new) (killed id start result ∷ []) [] [] }
        ensures heard { receive_faults self.new ≡ receive_faults self.old }
        ensures borrows { borrows self.new ≡ borrows self.old };

    /// Tries once more what a shortage has kept back.
    fn tend(&mut self)
        ensures asked { AddsNone (told self.old) (told self.new) }
        ensures heard { receive_faults self.new ≡ receive_faults self.old }
        ensures borrows { borrows self.new ≡ borrows self.old };

    /// Prints the bytes of a request on a device. Answers whether it did.
    fn print(&mut self, device: &Name, order: &LaunchOrder, bytes: &[u8]) -> bool
        ensures prints { Does (told self.old) (told self.new) [] (printed device.now order.now bytes.now result ∷ []) [] }
        ensures heard { receive_faults self.new ≡ receive_faults self.old }
        ensures borrows { borrows self.new ≡ borrows self.old };

    /// Writes a file. Answers whether it did.
    fn write_file(&mut self, path: &[u8], bytes: &[u8]) -> bool
        ensures filings { Does (told self.old) (told self.new) [] [] (filed path.now bytes.now result ∷ []) }
        ensures heard { receive_faults self.new ≡ receive_faults self.old }
        ensures borrows { borrows self.new ≡ borrows self.old };

    /// Notes that a datagram was passed over, for this cause.
    fn ignored(&mut self, cause: &IgnoreCause)
        ensures asked { AddsNone (told self.old) (told self.new) }
        ensures heard { receive_faults self.new ≡ receive_faults self.old }
        ensures borrows { borrows self.new ≡ borrows self.old };

    /// Notes that the end of a job came.
    fn ended(&mut self, id: RequestId, start: u16, status: u8)
        ensures asked { AddsNone (told self.old) (told self.new) }
        ensures heard { receive_faults self.new ≡ receive_faults self.old }
        ensures borrows { borrows self.new ≡ borrows self.old };

    /// The moment.
    fn now(&mut self) -> u64
        ensures given { Gives (told self.old) (told self.new) (result ∷ []) }
        ensures heard { receive_faults self.new ≡ receive_faults self.old }
        ensures borrows { borrows self.new ≡ borrows self.old };
}

/// The parts that `serve` is lent, each for a time of its own.
#[derive(Drop)]
pub(crate) struct Lent<
    'w,
    'l,
    'p,
    'o,
    'c,
    'n,
    W: Wire,
    L: Launcher,
    P: Printer,
    O: Outlet,
    C: Clock,
    N: Notes,
> {
    pub(crate) wire: &'w mut W,
    pub(crate) launcher: &'l mut L,
    pub(crate) printer: &'p mut P,
    pub(crate) outlet: &'o mut O,
    pub(crate) clock: &'c mut C,
    pub(crate) notes: &'n mut N,
}

#[tactic(auto, using(nqs_outside::proofs::Told::extends_none))]
impl<W: Wire, L: Launcher, P: Printer, O: Outlet, C: Clock, N: Notes> Outside
    for Lent<'_, '_, '_, '_, '_, '_, W, L, P, O, C, N> {
    ghost use Rattle.nqs_serve.specs.Tellings.{telling};

    ghost told = { λ o. telling (W.traffic o.wire.now) (L.asked o.launcher.now) (P.prints o.printer.now) (O.filings o.outlet.now) (C.given o.clock.now) };

    ghost receive_faults = { λ o. W.receive_faults o.wire.now };

    ghost borrows = { λ o. o.wire.ghost_name ∷ o.launcher.ghost_name ∷ o.printer.ghost_name ∷ o.outlet.ghost_name ∷ o.clock.ghost_name ∷ [] };

    fn receive(&mut self, buf: &mut [u8]) -> Result<Received, Failed> {
        self.wire.receive(buf)
    }

    fn send(&mut self, to: Address, bytes: &[u8]) {
        let _ = self.wire.send(to, bytes);
    }

    fn launch(&mut self, order: &LaunchOrder, script: &[u8]) -> bool {
        self.launcher.launch(order, script).is_ok()
    }

    fn kill(&mut self, id: RequestId, start: u16) -> bool {
        self.launcher.kill(id, start).is_ok()
    }

    fn tend(&mut self) {
        self.launcher.tend();
    }

    fn print(&mut self, device: &Name, order: &LaunchOrder, bytes: &[u8]) -> bool {
        self.printer.print(device, order, bytes).is_ok()
    }

    fn write_file(&mut self, path: &[u8], bytes: &[u8]) -> bool {
        self.outlet.write_file(path, bytes).is_ok()
    }

    fn ignored(&mut self, cause: &IgnoreCause) {
        self.notes.ignored(cause);
    }

    fn ended(&mut self, id: RequestId, start: u16, status: u8) {
        self.notes.ended(id, start, status);
    }

    fn now(&mut self) -> u64 {
        self.clock.now()
    }
}
