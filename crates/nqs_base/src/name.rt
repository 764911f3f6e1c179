//! Names of hosts, users, queues, complexes, devices, forms and jobs.
//!
//! A name is 1 to 15 bytes: a letter, then letters, digits, `_` and `-`. Names are compared by
//! bytes.

ghost use Rattle.std.specs.Prelude.{◌≡◌, ◌<◌, ℕ, List, length, take, nat_eq, position, IfSome};
ghost use Rattle.std.specs.List.{list_any, AllByRecursion};
ghost use Rattle.std.specs.Cmp.{partial_equiv_from_equiv};
ghost use Rattle.std.specs.Cmp.Lexicographic.{pointwise, nat_list_eq_equiv};
ghost use Rattle.std.specs.Cmp.Rules.{hashing};
ghost use Rattle.std.specs.Hash as fed;
ghost use Rattle.std.proofs.Common.{rules};
ghost use Rattle.nqs_base.specs.Name.{IsName, padded, allowed_at};
ghost use Rattle.nqs_base.specs.Same.{name_eq};

use crate::list::ListOf;
use std::hash::{Hash, Hasher};
use std::marker::Model;

/// A name, kept in place. Contracts see the list of its bytes.
#[derive(Clone, Copy, Debug)]
pub struct Name {
    bytes: [u8; 15],
    len: u8,
}

impl Model for Name {
    ghost Value = { List ℕ };

    ghost view = { λ n. take n.len n.bytes };

    // The unused bytes are 0.
    ghost invariant = { λ n. IsName (take n.len n.bytes) × (n.len ≡ length (take n.len n.bytes)) × (n.bytes ≡ padded (take n.len n.bytes)) };

    ghost inverse = { λ bytes. record { bytes = padded bytes; len = length bytes } };
}

/// A list of names.
pub type NameList = ListOf<Name>;

/// Why bytes are no name.
#[derive(Clone, Copy, Debug, PartialEq, Eq)]
pub enum NameFault {
    /// There are no bytes.
    Empty,
    /// There are more than 15.
    Long,
    /// The place, from 0, of the first byte that may not stand there.
    BadByte(u64),
}

fn is_letter(byte: u8) -> bool
    ensures { result ≡ allowed_at 0 byte }
{
    byte.is_ascii_alphabetic()
}

fn is_name_byte(byte: u8) -> bool
    ensures { result ≡ allowed_at 1 byte }
{
    byte.is_ascii_alphanumeric() || byte == b'_' || byte == b'-'
}

impl Name {
    ghost use Rattle.nqs_base.specs.NameRead.{ReadsName};

    /// The bytes as a name. It takes no memory.
    pub fn read(bytes: &[u8]) -> Result<Name, NameFault>
        ensures { ReadsName bytes.now result }
    {
        if bytes.is_empty() {
            return Err(NameFault::Empty);
        }
        if bytes.len() > 15 {
            return Err(NameFault::Long);
        }
        let mut kept = [0u8; 15];
        for (i, byte) in bytes.iter().enumerate() {
            let allowed = if i == 0 {
                is_letter(*byte)
            } else {
                is_name_byte(*byte)
            };
            if !allowed {
                return Err(NameFault::BadByte(i as u64));
            }
            kept[i] = *byte;
        }
        Ok(Name {
            bytes: kept,
            len: bytes.len() as u8,
        })
    }

    /// The bytes of the name.
    pub fn as_bytes(&self) -> &[u8]
        ensures bytes { result.now ≡ self.now }
        ensures name { IsName self.now }
    {
        &self.bytes[..self.len as usize]
    }
}

impl PartialEq for Name {
    ghost eq = { pointwise nat_eq };

    ghost laws = { partial_equiv_from_equiv nat_list_eq_equiv };

    fn eq(&self, other: &Name) -> bool {
        self.as_bytes() == other.as_bytes()
    }
}

impl Eq for Name {
    ghost laws = { nat_list_eq_equiv };
}

impl Hash for Name {
    ghost hash_input = { fed.slice fed.u8 };

    ghost respects_eq = { Prim.search (hashing, rules) };

    fn hash<H: Hasher>(&self, state: &mut H) {
        self.as_bytes().hash(state);
    }
}

/// Whether the name is one of the list.
pub fn has_name(names: &[Name], wanted: &Name) -> bool
    ensures { result ≡ list_any (name_eq wanted.now) names.now }
{
    names.iter().any(|name| *wanted == *name)
}

/// The place of the name in the list, from 0: the first, if it stands there more than once.
pub fn place_of(names: &[Name], wanted: &Name) -> Option<usize>
    ensures place { result ≡ position (name_eq wanted.now) names.now }
    ensures within { IfSome result (λ place. place < length names.now) }
{
    names.iter().position(|name| *wanted == *name)
}

/// Reads the name, whose type says that it is one: for callers that need its contract.
pub fn name_stands(name: &Name)
    ensures { IsName name.now }
{
    let _ = name.as_bytes();
}

/// The same of each name of a list.
pub fn names_stand(names: &[Name])
    ensures { AllByRecursion IsName names.now }
{
    for name in names {
        name_stands(name);
    }
}
