//! Quoted words. A word that begins with a quote ends at the next quote that isn't escaped; within
//! it `\n`, `\"` and `\\` stand for a line feed, a quote and a backslash, and no other byte may
//! follow a backslash.

ghost use Rattle.std.specs.Prelude.{◌≡◌, ◌≤◌, length, IfOk};
ghost use Rattle.nqs_words.specs.Quoted.{step_of, escape_of, ReadsQuoted};
ghost use Rattle.nqs_words.specs.declared.quoted.QuoteFault.TheVariants.{Memory};
ghost use Rattle.nqs_base.specs.Want.{want};

use nqs_base::Memory;
use std::alloc::{AllocFailed, Global};

/// What stands first within quotes.
#[derive(Clone, Copy)]
pub enum Step {
    End,
    Bad,
    /// A byte, and how many bytes write it.
    Byte(u8, usize),
}

/// Why there is no quoted word.
#[derive(PartialEq, Eq, Drop)]
pub enum QuoteFault {
    /// It doesn't end, or has another escape.
    BadQuote,
    Memory(Memory),
}

impl<T: Drop> From<AllocFailed<T>> for QuoteFault {
    ghost from_gives = { λ _ e. e ≡ Memory want };

    fn from(refused: AllocFailed<T>) -> QuoteFault {
        QuoteFault::Memory(refused.into())
    }
}

fn escape_of(bytes: &[u8]) -> Step
    ensures step { result ≡ escape_of bytes.now }
{
    let Some((byte, _)) = bytes.split_first() else {
        return Step::Bad;
    };
    if *byte == b'n' {
        return Step::Byte(b'\n', 2);
    }
    if *byte == b'"' {
        return Step::Byte(b'"', 2);
    }
    if *byte == b'\\' {
        return Step::Byte(b'\\', 2);
    }
    Step::Bad
}

#[tactic(auto, unfolding(crate::specs::Quoted::step_of))]
fn step_of(bytes: &[u8]) -> Step
    ensures { result ≡ step_of bytes.now }
{
    let Some((byte, more)) = bytes.split_first() else {
        return Step::Bad;
    };
    if *byte == b'"' {
        return Step::End;
    }
    if *byte == b'\\' {
        return escape_of(more);
    }
    Step::Byte(*byte, 1)
}

/// The bytes of a quoted word, from the one after its quote on, and the place after its end.
pub fn read_quoted(alloc: Global, bytes: &[u8]) -> Result<(Vec<u8>, usize), QuoteFault>
    ensures word { ReadsQuoted bytes.now result }
    ensures inside { IfOk result (λ p. p.1 ≤ length bytes.now) }
{
    let mut word = Vec::new(alloc);
    let mut place = 0usize;
    for _ in 0..bytes.len() {
        match step_of(&bytes[place..]) {
            Step::Bad => return Err(QuoteFault::BadQuote),
            Step::End => return Ok((word, place + 1)),
            Step::Byte(byte, taken) => {
                word.push(byte)?;
                place += taken;
            }
        }
    }
    Err(QuoteFault::BadQuote)
}
