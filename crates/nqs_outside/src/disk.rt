//! A disk as the crates above see it.
ghost use Rattle.std.specs.Prelude.{◌≡◌, ◌⊎◌, ◌+◌, ◌-◌, ◌<◌, ◌≤◌, ◌^◌, ◌++◌, [], ◌∷◌, ℕ, Bool, true, false, IsTrue, min, max, nat_le, length, take, drop, IfOk};
ghost use Rattle.std.specs.Prelude.{OnOk, OnErr};
ghost use Rattle.nqs_outside.specs.Causes.{Rose, one_more};
ghost use Rattle.nqs_outside.specs.History.{History, Call, write, sync, content, extended, moment, IsBroken, IsWhole};

use crate::source::Failed;

/// Bytes that are written at their places. A stop keeps what was written before a sync that
/// answered Ok; in place of what was written since it may leave any bytes.
pub trait Disk {
    /// Whether disks of this kind tell their history. A real one doesn't.
    ghost tells: { Bool };

    /// Its writes and syncs with their answers, and the bytes before them.
    ghost history: { Self → History };

    /// Whether the call at this place of the list is to fail.
    ghost fails: { Self → ℕ → Bool };

    /// Whether each call from that at this place on is to fail, and each read behind it.
    ghost ends: { Self → ℕ → Bool };

    /// Whether a failed call wasn't made.
    ghost starved: { Self → Bool };

    /// How often a call has failed.
    ghost faults: { Self → ℕ };

    /// How often it was asked for bytes or for its length.
    ghost reads: { Self → ℕ };

    /// How many bytes there are.
    fn len(&mut self) -> Result<u64, Failed>
        ensures small { IfOk result (λ n. n ≤ 2 ^ 40) }
        ensures length { IsTrue tells → IfOk result (λ n. n ≡ length (content (history self.old))) }
        ensures same { IsTrue tells → history self.new ≡ history self.old }
        ensures fuse { IsTrue tells → (i : ℕ) → fails self.new i ≡ fails self.old i }
        ensures ends { IsTrue tells → (i : ℕ) → ends self.new i ≡ ends self.old i }
        ensures starved { IsTrue tells → starved self.new ≡ starved self.old }
        // An error exactly behind a call from which on each one is to fail.
        ensures whole { IsTrue tells → OnOk result (IsWhole (ends self.old) (moment (history self.old))) }
        ensures ended { IsTrue tells → OnErr result ((i : ℕ) × (i < moment (history self.old)) × IsTrue (ends self.old i)) }
        ensures cause { IsTrue tells → OnErr result ((i : ℕ) × (i < moment (history self.old)) × IsTrue (fails self.old i)) }
        ensures later { faults self.old ≤ faults self.new }
        ensures counted { IsTrue tells → reads self.new ≡ one_more (reads self.old) }
        ensures failed { OnErr result (Rose (faults self.old) (faults self.new)) }
        ensures faultless { OnOk result (faults self.new ≡ faults self.old) };

    /// Reads from a place on, up to the end.
    fn read_at(&mut self, place: u64, buf: &mut [u8]) -> Result<usize, Failed>
        ensures within { IfOk result (λ n. n ≤ length buf.old) }
        ensures count { IsTrue tells → IfOk result (λ n. n ≡ min (length buf.old) (length (content (history self.old)) - place)) }
        ensures bytes { IsTrue tells → IfOk result (λ n. buf.new ≡ take n (drop place (content (history self.old))) ++ drop n buf.old) }
        ensures same { IsTrue tells → history self.new ≡ history self.old }
        ensures fuse { IsTrue tells → (i : ℕ) → fails self.new i ≡ fails self.old i }
        ensures ends { IsTrue tells → (i : ℕ) → ends self.new i ≡ ends self.old i }
        ensures starved { IsTrue tells → starved self.new ≡ starved self.old }
        // An error exactly behind a call from which on each one is to fail.
        ensures whole { IsTrue tells → OnOk result (IsWhole (ends self.old) (moment (history self.old))) }
        ensures ended { IsTrue tells → OnErr result ((i : ℕ) × (i < moment (history self.old)) × IsTrue (ends self.old i)) }
        ensures cause { IsTrue tells → OnErr result ((i : ℕ) × (i < moment (history self.old)) × IsTrue (fails self.old i)) }
        ensures later { faults self.old ≤ faults self.new }
        ensures counted { IsTrue tells → reads self.new ≡ one_more (reads self.old) }
        ensures failed { OnErr result (Rose (faults self.old) (faults self.new)) }
        ensures faultless { OnOk result (faults self.new ≡ faults self.old) };

    /// Writes over what is there, and past the end.
    fn write_at(&mut self, place: u64, bytes: &[u8]) -> Result<(), Failed>
        requires { IsTrue tells → place ≤ length (content (history self.old)) }
        ensures small { OnOk result (place + length bytes.now ≤ 2 ^ 40) }
        ensures made { IsTrue tells → OnOk result (history self.new ≡ extended (history self.old) (write place bytes.now true ∷ [])) }
        ensures due { IsTrue tells → OnOk result (fails self.old (moment (history self.old)) ≡ false) }
        ensures whole { IsTrue tells → OnOk result (IsWhole (ends self.old) (moment (history self.old))) }
        // A refused growth isn't in the list.
        ensures broken { IsTrue tells → OnErr result (IsBroken (history self.old) (history self.new) (write place bytes.now false)
            (fails self.old (moment (history self.old))) (starved self.old) (starved self.new)) }
        ensures fuse { IsTrue tells → (i : ℕ) → fails self.new i ≡ fails self.old i }
        ensures ends { IsTrue tells → (i : ℕ) → ends self.new i ≡ ends self.old i }
        ensures starved { IsTrue tells → OnOk result (starved self.new ≡ starved self.old) }
        ensures later { faults self.old ≤ faults self.new }
        ensures unread { IsTrue tells → reads self.new ≡ reads self.old }
        ensures failed { OnErr result (Rose (faults self.old) (faults self.new)) }
        ensures faultless { OnOk result (faults self.new ≡ faults self.old) };

    /// After it a stop leaves what a read gives.
    fn sync(&mut self) -> Result<(), Failed>
        ensures made { IsTrue tells → OnOk result (history self.new ≡ extended (history self.old) (sync true ∷ [])) }
        ensures due { IsTrue tells → OnOk result (fails self.old (moment (history self.old)) ≡ false) }
        ensures whole { IsTrue tells → OnOk result (IsWhole (ends self.old) (moment (history self.old))) }
        ensures broken { IsTrue tells → OnErr result (IsBroken (history self.old) (history self.new) (sync false)
            (fails self.old (moment (history self.old))) (starved self.old) (starved self.new)) }
        ensures fuse { IsTrue tells → (i : ℕ) → fails self.new i ≡ fails self.old i }
        ensures ends { IsTrue tells → (i : ℕ) → ends self.new i ≡ ends self.old i }
        ensures starved { IsTrue tells → OnOk result (starved self.new ≡ starved self.old) }
        ensures later { faults self.old ≤ faults self.new }
        ensures unread { IsTrue tells → reads self.new ≡ reads self.old }
        ensures failed { OnErr result (Rose (faults self.old) (faults self.new)) }
        ensures faultless { OnOk result (faults self.new ≡ faults self.old) };
}

/// A disk that can be set to fail.
pub trait Fused: Disk {
    /// Makes the calls-th write or sync from here fail, and each later call, and no other. Where a
    /// call was made from which on each one is to fail, that stays so.
    fn fuse(&mut self, calls: u64)
        ensures same { Self.history self.new ≡ Self.history self.old }
        ensures starved { Self.starved self.new ≡ Self.starved self.old }
        ensures faults { Self.faults self.new ≡ Self.faults self.old }
        ensures unread { Self.reads self.new ≡ Self.reads self.old }
        // If none was to fail before.
        ensures set { IsTrue Self.tells → ((i : ℕ) → i < moment (Self.history self.old) → Self.fails self.old i ≡ false)
            → (i : ℕ) → Self.fails self.new i ≡ nat_le (moment (Self.history self.old) + (max calls 1 - 1)) i }
        // If one may have failed alone.
        ensures later { IsTrue Self.tells → IsWhole (Self.ends self.old) (moment (Self.history self.old))
            → (i : ℕ) → Self.fails self.new i ≡ nat_le (moment (Self.history self.old) + (max calls 1 - 1)) i }
        ensures stays { IsTrue Self.tells → (i : ℕ) → i < moment (Self.history self.old) → IsTrue (Self.ends self.old i)
            → (j : ℕ) → Self.ends self.new j ≡ Self.ends self.old j }
        // Each call behind one that is to fail is to fail.
        ensures onward { IsTrue Self.tells → (i : ℕ) → IsTrue (Self.fails self.new i) → (j : ℕ) → i ≤ j → IsTrue (Self.fails self.new j) }
        ensures alike { IsTrue Self.tells → (i : ℕ) → Self.ends self.new i ≡ Self.fails self.new i };
}
