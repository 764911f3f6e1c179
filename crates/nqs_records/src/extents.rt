//! The extents of a change, put into its record once they are known.

ghost use Rattle.std.specs.Prelude.{◌≡◌, ◌+◌, ◌≤◌, ◌++◌, ℕ, List, length, flat_map};
ghost use Rattle.nqs_base.specs.declared.extent.Extent.{Extent};
ghost use Rattle.nqs_records.specs.Spelling.{extent_field, part_field};
ghost use Rattle.nqs_records.specs.Changes.{spelling};
ghost use Rattle.nqs_records.specs.Extents.{parts_with, with_extents};

use nqs_base::Extent;
use nqs_types::{Change, OutPart};

/// Bytes of an extent.
const EXTENT: usize = 12;

#[tactic(auto, unfolding(crate::specs::Spelling::extent_field))]
fn spelled(extent: Extent) -> [u8; EXTENT]
    ensures { result ≡ extent_field extent }
{
    let [a, b, c, d, e, f, g, h] = extent.place.to_be_bytes();
    let [i, j, k, l] = extent.length.to_be_bytes();
    [a, b, c, d, e, f, g, h, i, j, k, l]
}

// An extent in place of the one that ends so many bytes before the end.
fn put_extent(text: &mut [u8], behind: usize, extent: Extent)
    requires { behind + 12 ≤ length text.old }
    ensures length { length text.new ≡ length text.old }
    ensures put { (front back : List ℕ) (old : Extent) → text.old ≡ front ++ extent_field old ++ back → length back ≡ behind
        → text.new ≡ front ++ extent_field extent ++ back }
{
    let end = text.len() - behind;
    text[end - EXTENT..end].copy_from_slice(&spelled(extent));
}

// The extents of the last parts of a record. The answer is how many bytes these parts have.
fn put_part_extents(parts: &[OutPart], text: &mut [u8]) -> usize
    requires { length (flat_map part_field parts.now) ≤ length text.old }
    ensures behind { result ≡ length (flat_map part_field parts.now) }
    ensures length { length text.new ≡ length text.old }
    ensures put { (front : List ℕ) (xs : List Extent) → text.old ≡ front ++ flat_map part_field (parts_with parts.now xs)
        → text.new ≡ front ++ flat_map part_field parts.now }
{
    match parts.split_first() {
        None => 0,
        Some((part, later)) => {
            let behind = put_part_extents(later, text);
            put_extent(text, behind, part.bytes);
            behind + EXTENT + 1 + part.path.len()
        }
    }
}

/// Puts the extents of a change into a record that was written of the change with others. It takes
/// no memory.
pub fn put_extents(change: &Change, text: &mut [u8])
    requires { length text.old ≡ length (spelling change.now) }
    ensures { (others : List Extent) → text.old ≡ spelling (with_extents change.now others) → text.new ≡ spelling change.now }
{
    match change {
        Change::Submitted { script, .. } => put_extent(text, 0, *script),
        Change::Ended { outputs, .. } => {
            let _count = put_part_extents(outputs.as_slice(), text);
        }
        Change::OldPromised { script, .. } => put_extent(text, 0, *script),
        Change::Promised { script, .. } => put_extent(text, 0, *script),
        Change::StageGot { bytes, .. } => put_extent(text, 0, *bytes),
        _ => {}
    }
}
