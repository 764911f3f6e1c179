//! The wire of a site, which is open or sealed with its key, and the file of the key.

ghost use Rattle.std.specs.Prelude.{◌≡◌, IfOk, IfSome, IfNone, Ok, List, ℕ, false};
ghost use Rattle.std.specs.Char.{is_ascii_uppercase};
ghost use Rattle.std.specs.List.{list_any};
ghost use Rattle.hex.specs.Hex.{decode_sized};
ghost use Rattle.nqs_seal.specs.Keys.{ReadsKey};

use crate::sealed::{Key, SealedWire};
use hex::FromHex;
use nqs_base::Memory;
use nqs_outside::{Address, Failed, Received, Wire};
use std::alloc::Global;

/// What the file of a site's key says.
#[derive(Drop)]
pub enum SiteKey {
    /// Everyone is believed.
    Open,
    /// Who has this key is believed.
    Sealed(Key),
}

// Is one of the digits a capital letter?
fn has_capital(digits: &[u8]) -> bool
    ensures { result ≡ list_any is_ascii_uppercase digits.now }
{
    digits.iter().any(|digit| digit.is_ascii_uppercase())
}

// The key of these digits, of which none is a capital letter.
fn key_of(digits: &[u8]) -> Option<Key>
    ensures small { IfSome result (λ _. list_any is_ascii_uppercase digits.now ≡ false) }
    ensures key { IfSome result (λ key. decode_sized digits.now 32 ≡ Ok key.bytes) }
    ensures none { IfNone result ((bytes : List ℕ) → list_any is_ascii_uppercase digits.now ≡ false → decode_sized digits.now 32 ≡ Ok bytes → ⊥) }
{
    if has_capital(digits) {
        return None;
    }
    match <[u8; 32] as FromHex>::from_hex(digits) {
        Ok(bytes) => Some(Key::new(bytes)),
        Err(_) => None,
    }
}

/// What the file says: the word `open`, or the 64 hex digits of a key, and a line feed. Letters
/// among the digits are small, so that a key has one file. None: it says neither.
pub fn read_key(bytes: &[u8]) -> Option<SiteKey>
    ensures { ReadsKey bytes.now result }
{
    let Some((b'\n', line)) = bytes.split_last() else {
        return None;
    };
    if line == b"open".as_slice() {
        return Some(SiteKey::Open);
    }
    match key_of(line) {
        Some(key) => Some(SiteKey::Sealed(key)),
        None => None,
    }
}

/// The wire of a site.
#[derive(Drop)]
pub enum SiteWire<W: Wire + Drop> {
    /// As it is: whoever can send a datagram is believed.
    Open(W),
    /// Under the site's key.
    Sealed(SealedWire<W>),
}

impl<W: Wire + Drop> SiteWire<W> {
    ghost use Rattle.nqs_seal.specs.Wires.{IsUnder};

    /// The wire of a site over this one, as the file of its key says.
    pub fn new(alloc: Global, inner: W, key: SiteKey) -> Result<SiteWire<W>, Memory>
        ensures { IfOk result (λ wire. IsUnder key inner wire) }
    {
        match key {
            SiteKey::Open => Ok(SiteWire::Open(inner)),
            SiteKey::Sealed(key) => Ok(SiteWire::Sealed(SealedWire::new(alloc, inner, key)?)),
        }
    }
}

impl<W: Wire + Drop> Wire for SiteWire<W> {
    ghost use Rattle.nqs_seal.specs.Wires.{site_traffic, site_receives, site_sends};

    ghost traffic = { site_traffic };

    ghost receive_faults = { site_receives };

    ghost send_faults = { site_sends };

    fn receive(&mut self, buf: &mut [u8]) -> Result<Received, Failed> {
        match self {
            SiteWire::Open(wire) => wire.receive(buf),
            SiteWire::Sealed(wire) => wire.receive(buf),
        }
    }

    fn send(&mut self, to: Address, bytes: &[u8]) -> Result<(), Failed> {
        match self {
            SiteWire::Open(wire) => wire.send(to, bytes),
            SiteWire::Sealed(wire) => wire.send(to, bytes),
        }
    }
}
