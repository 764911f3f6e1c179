//! The writes and reads of a spool.
ghost use Rattle.std.specs.Prelude.{◌≡◌, ◌⊎◌, ℕ, ◌+◌, ◌<◌, ◌≤◌, ◌^◌, ◌++◌, [], ◌∷◌, List, false, IsTrue, IsErrOf, OnOk, OnErr, IfErr, length, take, drop};
ghost use Rattle.std.specs.Prelude.{vec_capacity};
ghost use Rattle.nqs_outside.specs.Causes.{Rose};
ghost use Rattle.nqs_outside.specs.Reads.{FailedToRead, OnlyReads};
ghost use Rattle.nqs_outside.specs.History.{Call, content, extended, moment, StopsShort, IsExact};
ghost use Rattle.nqs_spool.specs.Puts.{written_through};
ghost use Rattle.nqs_base.specs.Want.{want};

use crate::SpoolFault;
use nqs_outside::{Disk, Failed};

// Bytes at a place, on the disk before the answer.
pub(crate) fn write_through<D: Disk>(disk: &mut D, place: u64, bytes: &[u8]) -> Result<(), Failed>
    requires { IsTrue D.tells → place ≤ length (content (D.history disk.old)) }
    ensures small { OnOk result (place + length bytes.now ≤ 2 ^ 40) }
    ensures made { IsTrue D.tells → OnOk result (D.history disk.new ≡ extended (D.history disk.old) (written_through place bytes.now)) }
    ensures broken { IsTrue D.tells → OnErr result ((calls : List Call) × (D.history disk.new ≡ extended (D.history disk.old) calls)
        × StopsShort (written_through place bytes.now) calls) }
    ensures exact { IsTrue D.tells → IsExact (D.fails disk.old) (D.starved disk.old) (D.starved disk.new)
        (D.history disk.old) (D.history disk.new) (written_through place bytes.now) }
    // Neither call was to fail.
    ensures due { IsTrue D.tells → OnOk result ((i : ℕ) → i < 2 → D.fails disk.old (moment (D.history disk.old) + i) ≡ false) }
    ensures fuse { IsTrue D.tells → (i : ℕ) → D.fails disk.new i ≡ D.fails disk.old i }
    ensures later { D.faults disk.old ≤ D.faults disk.new }
    ensures failed { OnErr result (Rose (D.faults disk.old) (D.faults disk.new)) }
    ensures faultless { OnOk result (D.faults disk.new ≡ D.faults disk.old) }
    ensures unread { IsTrue D.tells → D.reads disk.new ≡ D.reads disk.old }
{
    disk.write_at(place, bytes)?;
    disk.sync()
}

// Adds so many bytes from a place on, or those up to the disk's end.
pub(crate) fn append_read<D: Disk>(
    disk: &mut D,
    place: u64,
    count: u32,
    out: &mut Vec<u8>,
) -> Result<(), SpoolFault>
    ensures bytes { IsTrue D.tells → OnOk result (out.new.items ≡ out.old.items ++ take count (drop place (content (D.history disk.old)))) }
    ensures unchanged { OnErr result (out.new.items ≡ out.old.items) }
    ensures few { length out.new.items ≤ length out.old.items + count }
    ensures memory { IsErrOf result (SpoolFault.Memory want) → vec_capacity out.old < length out.old.items + count }
    ensures fault { IfErr result (λ e. (e ≡ SpoolFault.Disk) ⊎ (e ≡ SpoolFault.Memory want)) }
    ensures failed { IsErrOf result SpoolFault.Disk → FailedToRead D.Disk disk.old disk.new }
    ensures reads { OnlyReads D.Disk disk.old disk.new }
    ensures once { IsTrue D.tells → D.reads disk.new ≤ D.reads disk.old + 1 }
    ensures faultless { OnOk result (D.faults disk.new ≡ D.faults disk.old) }
{
    let start = out.len();
    out.resize(start + count as usize, 0)?;
    match disk.read_at(place, &mut out[start..]) {
        Ok(read) => {
            out.truncate(start + read);
            Ok(())
        }
        Err(Failed) => {
            out.truncate(start);
            Err(SpoolFault::Disk)
        }
    }
}
