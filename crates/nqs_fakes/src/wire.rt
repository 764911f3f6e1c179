//! A wire in memory: a script of what comes, and a list of what passed, call by call.

ghost use Rattle.std.specs.Prelude.{◌≡◌, ◌≤◌, ◌<◌, ◌∷◌, [], ℕ, Some, None, false, length, map, IfOk, OnOk, OnErr};
ghost use Rattle.nqs_outside.specs.Causes.{HasCause};
ghost use Rattle.nqs_outside.specs.Told.{Extends};
ghost use Rattle.nqs_outside.specs.Asked.{arrival, inbound, IsWithin, outbound, packet};
ghost use Rattle.nqs_fakes.specs.Failures.{GoesAsListed};
ghost use Rattle.nqs_fakes.specs.Wire.{cut_to, first_of, is_early, rest_of, traffic_in};

use crate::failures::Failures;
use crate::first::take_first;
use nqs_base::{Bytes, Items};
use nqs_outside::{Address, Failed, Received, Wire};
use std::alloc::{AllocError, Global};
use std::collections::VecDeque;

/// What comes.
#[derive(Drop)]
pub enum Item {
    Datagram(Bytes),
    /// A datagram that comes once there were so many sends. Until then nothing does.
    Reply(u64, Bytes),
    Quiet,
}

/// What passed the wire in a call.
#[derive(Drop)]
pub enum Kept {
    /// A receive brought these bytes.
    Inbound(Bytes),
    /// A receive brought nothing.
    Nothing,
    /// These bytes were to be sent there, whether or not the send failed.
    Outbound(Address, Bytes),
}

/// A wire in memory. The items of its script come in order, and then nothing.
pub struct MemWire {
    alloc: Global,
    script: VecDeque<Item>,
    kept: Items<Kept>,
    receives: Failures,
    sends: Failures,
    starved: bool,
}

// Written out, so that it is let go by a call, and not field by field in each function that owns
// one.
impl Drop for MemWire {
    fn drop(self) {
        let MemWire {
            alloc: _,
            script: _,
            kept: _,
            receives: _,
            sends: _,
            starved: _,
        } = self;
    }
}

// Fills the front of the buffer.
fn fill(bytes: &Bytes, buf: &mut [u8]) -> Received
    ensures within { IsWithin result (length buf.new) }
    ensures came { arrival result buf.new ≡ cut_to (length buf.old) (Item.Datagram bytes.now) }
    ensures same_length { length buf.new ≡ length buf.old }
{
    let count = bytes.len().min(buf.len());
    buf[..count].copy_from_slice(&bytes.as_slice()[..count]);
    Received::Datagram(count)
}

// What the item brings, at the front of the buffer.
fn answer_of(item: &Item, buf: &mut [u8]) -> Received
    ensures within { IsWithin result (length buf.new) }
    ensures came { arrival result buf.new ≡ cut_to (length buf.old) item.now }
    ensures same_length { length buf.new ≡ length buf.old }
{
    match item {
        Item::Quiet => Received::Quiet,
        Item::Datagram(bytes) => fill(bytes, buf),
        Item::Reply(_, bytes) => fill(bytes, buf),
    }
}

// What is kept of a receive.
fn kept_of(alloc: Global, answer: Received, buf: &[u8]) -> Result<Kept, AllocError>
    requires { IsWithin answer (length buf.now) }
    ensures { IfOk result (λ kept. traffic_in kept ≡ inbound (arrival answer buf.now)) }
{
    match answer {
        Received::Quiet => Ok(Kept::Nothing),
        Received::Datagram(count) => {
            let bytes = Bytes::from_vec(Vec::from_slice(alloc, &buf[..count])?);
            Ok(Kept::Inbound(bytes))
        }
    }
}

// Does the first item wait for more sends?
fn is_early(script: &VecDeque<Item>, sends: u64) -> bool
    ensures { result ≡ is_early sends script.now.items }
{
    match script.front() {
        Some(Item::Reply(least, _)) => sends < *least,
        _ => false,
    }
}

// The first item of a script behind so many sends, and that nothing comes where there is none, or
// where it is early.
fn take_item(script: &mut VecDeque<Item>, sends: u64) -> Item
    ensures item { (room : ℕ) → cut_to room result ≡ first_of sends room script.old.items }
    ensures rest { script.new.items ≡ rest_of sends script.old.items }
{
    if is_early(script, sends) {
        return Item::Quiet;
    }
    match take_first(script) {
        Some(item) => item,
        None => Item::Quiet,
    }
}

impl MemWire {
    ghost use Rattle.nqs_fakes.specs.Wire.{traffic_of};

    /// A wire to which these items come. The receives and the sends of these numbers fail, from 1
    /// on.
    pub fn new(
        alloc: Global,
        script: Items<Item>,
        failing_receives: Vec<u64>,
        failing_sends: Vec<u64>,
    ) -> MemWire
        ensures traffic { traffic_of result ≡ Some [] }
        ensures script { result.script.items ≡ script }
        ensures receives { result.receives.numbers.items ≡ failing_receives.items }
        ensures sends { result.sends.numbers.items ≡ failing_sends.items }
        ensures calls { (result.receives.calls ≡ 0) × (result.sends.calls ≡ 0) }
        ensures faults { (result.receives.faults ≡ 0) × (result.sends.faults ≡ 0) }
    {
        MemWire {
            alloc,
            script: VecDeque::from(script.into_vec()),
            kept: Items::new(alloc),
            receives: Failures::new(failing_receives),
            sends: Failures::new(failing_sends),
            starved: false,
        }
    }

    /// What is still to come.
    pub fn script(&self) -> &VecDeque<Item>
        ensures { result.now ≡ self.now.script }
    {
        &self.script
    }

    /// What came and what was to be sent, whether or not the send failed, in the order of the
    /// calls.
    pub fn kept(&self) -> &[Kept]
        ensures { result.now ≡ self.now.kept }
    {
        self.kept.as_slice()
    }

    /// Whether memory for what it keeps was refused. Where it wasn't, the wire tells all that it
    /// keeps.
    pub fn is_starved(&self) -> bool
        ensures starved { result ≡ self.now.starved }
        ensures traffic { result ≡ false → traffic_of self.now ≡ Some (map traffic_in self.now.kept) }
    {
        self.starved
    }

    fn keep(&mut self, kept: Result<Kept, AllocError>)
        ensures traffic { IfOk kept (λ k. Extends (traffic_of self.old) (traffic_of self.new) (traffic_in k ∷ [])) }
        ensures starved { OnErr kept (traffic_of self.new ≡ None) }
        ensures others { (self.new.script ≡ self.old.script) × (self.new.receives ≡ self.old.receives) × (self.new.sends ≡ self.old.sends) }
    {
        match kept {
            Ok(kept) => {
                if self.kept.push(kept).is_err() {
                    self.starved = true;
                }
            }
            Err(_) => self.starved = true,
        }
    }

    fn keep_sent(&mut self, to: Address, bytes: &[u8])
        ensures traffic { Extends (traffic_of self.old) (traffic_of self.new) (outbound (packet to bytes.now) ∷ []) }
        ensures others { (self.new.script ≡ self.old.script) × (self.new.receives ≡ self.old.receives) × (self.new.sends ≡ self.old.sends) }
    {
        let kept = match Vec::from_slice(self.alloc, bytes) {
            Ok(bytes) => Ok(Kept::Outbound(to, Bytes::from_vec(bytes))),
            Err(refused) => Err(refused),
        };
        self.keep(kept);
    }
}

impl Wire for MemWire {
    ghost use Rattle.nqs_fakes.specs.Wire.{traffic_of};

    ghost traffic = { traffic_of };

    ghost receive_faults = { λ w. w.receives.faults };

    ghost send_faults = { λ w. w.sends.faults };

    fn receive(&mut self, buf: &mut [u8]) -> Result<Received, Failed>
        requires room { 49152 < length buf.old }
        ensures within { IfOk result (λ r. IsWithin r (length buf.new)) }
        ensures same_length { length buf.new ≡ length buf.old }
        ensures came { IfOk result (λ r. Extends (traffic_of self.old) (traffic_of self.new) (inbound (arrival r buf.new) ∷ [])) }
        ensures lost { OnErr result (Extends (traffic_of self.old) (traffic_of self.new) []) }
        ensures cause { HasCause self.old.receives.faults self.new.receives.faults result }
        ensures uncounted { OnOk result (self.new.receives.faults ≡ self.old.receives.faults) }
        ensures send_faults { self.new.sends.faults ≡ self.old.sends.faults }
        ensures first { IfOk result (λ r. arrival r buf.new ≡ first_of self.old.sends.calls (length buf.old) self.old.script.items) }
        ensures rest { OnOk result (self.new.script.items ≡ rest_of self.old.sends.calls self.old.script.items) }
        ensures left { OnErr result (self.new.script ≡ self.old.script) }
        ensures listed { GoesAsListed self.old.receives self.new.receives result }
        ensures unsent { self.new.sends ≡ self.old.sends }
    {
        self.receives.count()?;
        let item = take_item(&mut self.script, self.sends.calls());
        let answer = answer_of(&item, buf);
        self.keep(kept_of(self.alloc, answer, buf));
        Ok(answer)
    }

    fn send(&mut self, to: Address, bytes: &[u8]) -> Result<(), Failed>
        ensures sends { Extends (traffic_of self.old) (traffic_of self.new) (outbound (packet to bytes.now) ∷ []) }
        ensures cause { HasCause self.old.sends.faults self.new.sends.faults result }
        ensures uncounted { OnOk result (self.new.sends.faults ≡ self.old.sends.faults) }
        ensures receive_faults { self.new.receives.faults ≡ self.old.receives.faults }
        ensures listed { GoesAsListed self.old.sends self.new.sends result }
        ensures unreceived { self.new.receives ≡ self.old.receives }
        ensures left { self.new.script ≡ self.old.script }
    {
        self.keep_sent(to, bytes);
        self.sends.count()
    }
}
