//! Lists, put at the end of a list of bytes. After `Memory` a part of it may stand there.

ghost use Rattle.std.specs.Prelude.{⊤, ◌<◌, ℕ, List, length, flat_map};
ghost use Rattle.std.specs.List.{AllByRecursion};
ghost use Rattle.nqs_codec.specs.Fields.{short_field};
ghost use Rattle.nqs_records.specs.Adds.{Adds};
ghost use Rattle.nqs_records.specs.Spelling.{list_field, part_field, hand_field};
ghost use Rattle.nqs_records.specs.Values.{IsPart};

use crate::lists::InRecord;
use crate::put_parts::{put_hand, put_part};
use nqs_base::{Memory, Name};
use nqs_codec::{put_name, put_u8};
use nqs_types::{OutPart, PeerNumber};

/// A value that is put at the end of a list of bytes. After `Memory` a part of it may stand there.
/// It may have several forms.
pub trait Put<F> {
    ghost field: { Self → List ℕ };

    ghost IsPut: { Self → Type 0 };

    /// Puts the value.
    fn put(&self, out: &mut Vec<u8>) -> Result<(), Memory>
        requires { IsPut self.now }
        ensures { Adds out.old.items (field self.now) result out.new.items };
}

impl Put<InRecord> for Name {
    ghost field = { short_field };

    ghost IsPut = { λ _. ⊤ };

    fn put(&self, out: &mut Vec<u8>) -> Result<(), Memory> {
        put_name(self, out)?;
        Ok(())
    }
}

impl Put<InRecord> for OutPart {
    ghost field = { part_field };

    ghost IsPut = { IsPart };

    fn put(&self, out: &mut Vec<u8>) -> Result<(), Memory> {
        put_part(self, out)
    }
}

impl Put<InRecord> for PeerNumber {
    ghost field = { hand_field };

    ghost IsPut = { λ _. ⊤ };

    fn put(&self, out: &mut Vec<u8>) -> Result<(), Memory> {
        put_hand(*self, out)
    }
}

/// Puts the items, one behind the other.
pub fn put_each<F, T: Put<F>>(items: &[T], out: &mut Vec<u8>) -> Result<(), Memory>
    requires { AllByRecursion T.IsPut items.now }
    ensures { Adds out.old.items (flat_map T.field items.now) result out.new.items }
{
    let mut rest = items;
    while let Some((item, more)) = rest.split_first() {
        item.put(out)?;
        rest = more;
    }
    Ok(())
}

// Puts a count of one byte and the items.
#[tactic(auto, using(crate::proofs::Joined::joined), unfolding(crate::specs::Spelling::list_field))]
pub(crate) fn put_list<T: Put<InRecord>>(items: &[T], out: &mut Vec<u8>) -> Result<(), Memory>
    requires all { AllByRecursion T.IsPut items.now }
    requires few { length items.now < 256 }
    ensures { Adds out.old.items (list_field T.field items.now) result out.new.items }
{
    put_u8(items.len() as u8, out)?;
    put_each::<InRecord, T>(items, out)
}
