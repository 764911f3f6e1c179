//! Fields that are put at the end of a list.
//!
//! Numbers go with their highest byte first, bytes behind a length of four bytes, names and paths
//! behind one of a byte. `Memory` leaves the list as it was.

ghost use Rattle.std.specs.Prelude.{◌≡◌, ◌+◌, ◌<◌, ◌≤◌, ◌^◌, length, OnErr, vec_len, vec_capacity};
ghost use Rattle.nqs_codec.specs.Fields.{u8_field, u16_field, u32_field, u64_field, bytes_field, short_field, bool_field};
ghost use Rattle.nqs_codec.specs.Puts.{Puts};

use nqs_base::{Memory, Name};

// Puts a field that is written out.
fn put(field: &[u8], out: &mut Vec<u8>) -> Result<(), Memory>
    ensures puts { Puts out.old.items field.now result out.new.items }
    ensures full { OnErr result (vec_capacity out.old < vec_len out.old + length field.now) }
{
    out.extend_from_slice(field)?;
    Ok(())
}

/// Puts a number of one byte.
#[tactic(auto, unfolding(crate::specs::Fields::u8_field))]
pub fn put_u8(value: u8, out: &mut Vec<u8>) -> Result<(), Memory>
    ensures puts { Puts out.old.items (u8_field value) result out.new.items }
    ensures full { OnErr result (vec_capacity out.old < vec_len out.old + 1) }
{
    put(&[value], out)
}

/// Puts a number of two bytes.
#[tactic(auto, unfolding(crate::specs::Fields::u16_field))]
pub fn put_u16(value: u16, out: &mut Vec<u8>) -> Result<(), Memory>
    ensures puts { Puts out.old.items (u16_field value) result out.new.items }
    ensures full { OnErr result (vec_capacity out.old < vec_len out.old + 2) }
{
    put(&value.to_be_bytes(), out)
}

/// Puts a number of four bytes.
#[tactic(auto, unfolding(crate::specs::Fields::u32_field))]
pub fn put_u32(value: u32, out: &mut Vec<u8>) -> Result<(), Memory>
    ensures puts { Puts out.old.items (u32_field value) result out.new.items }
    ensures full { OnErr result (vec_capacity out.old < vec_len out.old + 4) }
{
    put(&value.to_be_bytes(), out)
}

/// Puts a number of eight bytes.
#[tactic(auto, unfolding(crate::specs::Fields::u64_field))]
pub fn put_u64(value: u64, out: &mut Vec<u8>) -> Result<(), Memory>
    ensures puts { Puts out.old.items (u64_field value) result out.new.items }
    ensures full { OnErr result (vec_capacity out.old < vec_len out.old + 8) }
{
    put(&value.to_be_bytes(), out)
}

/// Puts bytes behind a length of four bytes.
#[tactic(auto, unfolding(crate::specs::Fields::bytes_field, crate::specs::Fields::u32_field))]
pub fn put_bytes(bytes: &[u8], out: &mut Vec<u8>) -> Result<(), Memory>
    requires { length bytes.now < 2 ^ 32 }
    ensures puts { Puts out.old.items (bytes_field bytes.now) result out.new.items }
    ensures full { OnErr result (vec_capacity out.old < vec_len out.old + (4 + length bytes.now)) }
{
    out.reserve(4 + bytes.len())?;
    out.extend_from_slice(&(bytes.len() as u32).to_be_bytes())
        .unwrap();
    out.extend_from_slice(bytes).unwrap();
    Ok(())
}

// Puts bytes behind a length of one byte.
#[tactic(auto, unfolding(crate::specs::Fields::short_field))]
fn put_short(bytes: &[u8], out: &mut Vec<u8>) -> Result<(), Memory>
    requires { length bytes.now ≤ 255 }
    ensures puts { Puts out.old.items (short_field bytes.now) result out.new.items }
    ensures full { OnErr result (vec_capacity out.old < vec_len out.old + (1 + length bytes.now)) }
{
    out.reserve(1 + bytes.len())?;
    out.push(bytes.len() as u8).unwrap();
    out.extend_from_slice(bytes).unwrap();
    Ok(())
}

/// Puts a name behind its length.
pub fn put_name(name: &Name, out: &mut Vec<u8>) -> Result<(), Memory>
    ensures puts { Puts out.old.items (short_field name.now) result out.new.items }
    ensures full { OnErr result (vec_capacity out.old < vec_len out.old + (1 + length name.now)) }
{
    put_short(name.as_bytes(), out)
}

/// Puts a path of at most 255 bytes behind its length.
pub fn put_path(path: &[u8], out: &mut Vec<u8>) -> Result<(), Memory>
    requires { length path.now ≤ 255 }
    ensures puts { Puts out.old.items (short_field path.now) result out.new.items }
    ensures full { OnErr result (vec_capacity out.old < vec_len out.old + (1 + length path.now)) }
{
    put_short(path, out)
}

/// Puts 1 for yes and 0 for no.
#[tactic(auto, unfolding(crate::specs::Fields::bool_field))]
pub fn put_bool(value: bool, out: &mut Vec<u8>) -> Result<(), Memory>
    ensures puts { Puts out.old.items (bool_field value) result out.new.items }
    ensures full { OnErr result (vec_capacity out.old < vec_len out.old + 1) }
{
    put(&[u8::from(value)], out)
}

/// Puts the tag that says whether something follows: 1 if so, else 0.
pub fn put_opt_tag(is_some: bool, out: &mut Vec<u8>) -> Result<(), Memory>
    ensures puts { Puts out.old.items (bool_field is_some) result out.new.items }
    ensures full { OnErr result (vec_capacity out.old < vec_len out.old + 1) }
{
    put_bool(is_some, out)
}
