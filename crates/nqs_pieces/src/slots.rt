//! The bytes of a message by the index of their pieces. `specs/Gathering.antt` says what they are.

ghost use Rattle.std.specs.Prelude.{◌≡◌, ◌+◌, ◌<◌, ◌≤◌, ◌++◌, ℕ, List, None, length, replicate, vec_len, vec_capacity, IfOk, min};
ghost use Rattle.nqs_pieces.specs.Gathering.{bytes_at, is_whole, message_of, with_bytes};

use nqs_base::{Bytes, Memory};
use std::alloc::Global;
use std::marker::Model;

/// What has come of a message, by index. Contracts see a list of what each index has, if anything.
#[derive(Drop)]
pub struct Slots {
    slots: Vec<Option<Bytes>>,
}

impl Model for Slots {
    ghost use Rattle.std.specs.Prelude.{List, Option, ℕ};

    ghost Value = { List (Option (List ℕ)) };

    ghost view = { λ s. s.slots.items };
}

// Whether bytes are there in each place.
fn all_there(slots: &[Option<Bytes>]) -> bool
    ensures { result ≡ is_whole slots.now }
{
    slots.iter().all(|slot| slot.is_some())
}

// The bytes that are there, or none.
fn bytes_in(slot: &Option<Bytes>) -> &[u8]
    ensures { result.now ≡ bytes_at slot.now }
{
    match slot {
        Some(bytes) => bytes.as_slice(),
        None => &[],
    }
}

impl Slots {
    /// So many places, with nothing in them.
    pub(crate) fn new(alloc: Global, count: u8) -> Result<Slots, Memory>
        ensures { IfOk result (λ s. s ≡ replicate count None) }
    {
        let mut slots = Vec::new(alloc);
        slots.reserve(usize::from(count))?;
        for _ in 0..count {
            slots.push(None)?;
        }
        Ok(Slots { slots })
    }

    /// How many places there are.
    pub(crate) fn len(&self) -> usize
        ensures { result ≡ length self.now }
    {
        self.slots.len()
    }

    /// Puts bytes in a place, unless some are there.
    pub(crate) fn put(&mut self, index: usize, bytes: Bytes)
        requires { index < length self.old }
        ensures { self.new ≡ with_bytes index bytes self.old }
    {
        if self.slots[index].is_none() {
            self.slots[index] = Some(bytes);
        }
    }

    /// Whether each place but perhaps this one has its bytes.
    pub(crate) fn lacks_only(&self, index: usize) -> bool
        requires { index < length self.now }
        ensures { (bytes : List ℕ) → result ≡ is_whole (with_bytes index bytes self.now) }
    {
        if !all_there(&self.slots[..index]) {
            return false;
        }
        all_there(&self.slots[index + 1..])
    }

    /// How many bytes there are in all, or the largest number where that is less.
    pub(crate) fn total(&self) -> usize
        ensures { result ≡ min (length (message_of self.now)) usize.MAX }
    {
        let mut total: usize = 0;
        for slot in &self.slots {
            total = total.saturating_add(bytes_in(slot).len());
        }
        total
    }

    /// Appends all bytes in order of index, for which there is room.
    pub(crate) fn append_to(&self, whole: &mut Vec<u8>)
        requires { vec_len whole.old + length (message_of self.now) ≤ vec_capacity whole.old }
        ensures { whole.new.items ≡ whole.old.items ++ message_of self.now }
    {
        for slot in &self.slots {
            whole.extend_from_slice(bytes_in(slot)).unwrap();
        }
    }
}
