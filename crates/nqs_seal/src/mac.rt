//! HMAC-SHA-256: the tag of a message under a key. `specs/Hmac.antt` says what it is.

ghost use Rattle.std.specs.Prelude.{◌≡◌, ◌≤◌, ◌++◌, length};
ghost use Rattle.sha2.specs.Sha256.{sha256};
ghost use Rattle.nqs_seal.specs.Hmac.{block_of, filled, hmac, padded};

use sha2::{Digest, Sha256};

// The bytes, and zeros up to a block.
fn filled(bytes: &[u8]) -> [u8; 64]
    requires { length bytes.now ≤ 64 }
    ensures { result ≡ filled bytes.now }
{
    let mut block = [0u8; 64];
    block[..bytes.len()].copy_from_slice(bytes);
    block
}

// The key as a block.
fn block_of(key: &[u8]) -> [u8; 64]
    ensures { result ≡ block_of key.now }
{
    if key.len() <= 64 {
        return filled(key);
    }
    filled(&Sha256::digest(key))
}

// The block with each byte xored with this one.
fn padded(byte: u8, block: &[u8; 64]) -> [u8; 64]
    ensures { result ≡ padded byte block.now }
{
    let mut out = [0u8; 64];
    for i in 0..64 {
        out[i] = block[i] ^ byte;
    }
    out
}

fn digest_of_parts(first: &[u8], second: &[u8]) -> [u8; 32]
    ensures { result ≡ sha256 (first.now ++ second.now) }
{
    let mut hasher = Sha256::new();
    hasher.update(first);
    hasher.update(second);
    hasher.finalize()
}

/// The tag of a message under a key.
#[tactic(auto, unfolding(crate::specs::Hmac::hmac))]
pub fn hmac(key: &[u8], message: &[u8]) -> [u8; 32]
    ensures { result ≡ hmac key.now message.now }
{
    let block = block_of(key);
    let inner = digest_of_parts(&padded(0x36, &block), message);
    digest_of_parts(&padded(0x5c, &block), &inner)
}
