//! The parts.

ghost use Rattle.std.specs.Prelude.{◌≡◌, ◌+◌, ◌<◌, ◌++◌, ◌∷◌, [], codes, length, OnOk, OnErr, vec_capacity, vec_len};
ghost use Rattle.std.specs.Fmt.{decimal};
ghost use Rattle.nqs_rules.specs.Text.{id_text, named_text};
ghost use Rattle.nqs_rules.specs.Transcript.{host_text};
ghost use Rattle.nqs_put.specs.Puts.{IsFrontPut};

use nqs_base::{Memory, Name};
use nqs_types::{HostId, Named, RequestId};
use std::alloc::Global;

/// Appends bytes.
pub fn put_text(text: &[u8], out: &mut Vec<u8>) -> Result<(), Memory>
    ensures put { OnOk result (out.new.items ≡ out.old.items ++ text.now) }
    ensures front { OnErr result (IsFrontPut out.old.items text.now out.new.items) }
    ensures full { OnErr result (vec_capacity out.old < vec_len out.old + length text.now) }
{
    out.extend_from_slice(text)?;
    Ok(())
}

/// Appends a name between two texts.
pub fn put_about(before: &[u8], name: &Name, after: &[u8], out: &mut Vec<u8>) -> Result<(), Memory>
    ensures put { OnOk result (out.new.items ≡ out.old.items ++ (before.now ++ name.now ++ after.now)) }
    ensures front { OnErr result (IsFrontPut out.old.items (before.now ++ name.now ++ after.now) out.new.items) }
{
    put_text(before, out)?;
    put_text(name.as_bytes(), out)?;
    put_text(after, out)
}

/// Appends a space and bytes.
pub fn put_word(text: &[u8], out: &mut Vec<u8>) -> Result<(), Memory>
    ensures put { OnOk result (out.new.items ≡ out.old.items ++ (codes " " ++ text.now)) }
    ensures front { OnErr result (IsFrontPut out.old.items (codes " " ++ text.now) out.new.items) }
    ensures full { OnErr result (vec_capacity out.old < vec_len out.old + 1 + length text.now) }
{
    out.push(b' ')?;
    out.extend_from_slice(text)?;
    Ok(())
}

/// Appends a line feed.
pub fn put_line_end(out: &mut Vec<u8>) -> Result<(), Memory>
    ensures put { OnOk result (out.new.items ≡ out.old.items ++ 10 ∷ []) }
    ensures front { OnErr result (IsFrontPut out.old.items (10 ∷ []) out.new.items) }
    ensures full { OnErr result (vec_capacity out.old < vec_len out.old + 1) }
{
    out.push(b'\n')?;
    Ok(())
}

/// Appends a number in decimal digits.
pub fn put_decimal(alloc: Global, number: u64, out: &mut Vec<u8>) -> Result<(), Memory>
    ensures put { OnOk result (out.new.items ≡ out.old.items ++ decimal number) }
    ensures front { OnErr result (IsFrontPut out.old.items (decimal number) out.new.items) }
{
    let text = number.to_string(alloc)?;
    out.extend_from_slice(text.as_bytes())?;
    Ok(())
}

/// Appends the name of a host; none where the site has no such host.
pub fn put_host(site: &[Name], host: HostId, out: &mut Vec<u8>) -> Result<(), Memory>
    ensures put { OnOk result (out.new.items ≡ out.old.items ++ host_text site.now host) }
    ensures front { OnErr result (IsFrontPut out.old.items (host_text site.now host) out.new.items) }
    ensures full { OnErr result (vec_capacity out.old < vec_len out.old + length (host_text site.now host)) }
{
    if let Some(name) = site.get(host.0 as usize) {
        out.extend_from_slice(name.as_bytes())?;
    }
    Ok(())
}

/// Appends a request, as `SEQ.HOST`.
pub fn put_id(alloc: Global, site: &[Name], id: RequestId, out: &mut Vec<u8>) -> Result<(), Memory>
    ensures put { OnOk result (out.new.items ≡ out.old.items ++ id_text site.now id) }
    ensures front { OnErr result (IsFrontPut out.old.items (id_text site.now id) out.new.items) }
{
    put_decimal(alloc, u64::from(id.seq), out)?;
    out.push(b'.')?;
    put_host(site, id.host, out)
}

/// Appends a request as it was typed.
pub fn put_named(alloc: Global, id: &Named, out: &mut Vec<u8>) -> Result<(), Memory>
    ensures put { OnOk result (out.new.items ≡ out.old.items ++ named_text id.now) }
    ensures front { OnErr result (IsFrontPut out.old.items (named_text id.now) out.new.items) }
{
    put_decimal(alloc, u64::from(id.seq), out)?;
    out.push(b'.')?;
    out.extend_from_slice(id.host.as_bytes())?;
    Ok(())
}
