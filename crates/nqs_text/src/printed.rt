//! Numbers as they are printed.

ghost use Rattle.std.specs.Prelude.{◌≡◌, IfOk};
ghost use Rattle.std.specs.Fmt.{decimal};

use nqs_base::{Bytes, ListOf, Memory};
use std::alloc::Global;

/// The decimal digits of a number.
pub fn digits(alloc: Global, number: u64) -> Result<Bytes, Memory>
    ensures { IfOk result (λ text. text ≡ decimal number) }
{
    let text = format!(in alloc; "{number}")?;
    Ok(ListOf::from_vec(text.into_bytes()))
}
