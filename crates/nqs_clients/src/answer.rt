//! The answer of a host to a client.

use nqs_base::Bytes;

/// The answer of a host: whether it did what it was asked, and its text.
#[derive(Drop)]
pub struct Answer {
    pub ok: bool,
    pub text: Bytes,
}
