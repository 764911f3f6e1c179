//! A balanced tree of slots, which knows the widest gap below each node.
ghost use Rattle.std.specs.Prelude.{◌≡◌, ◌<◌, ◌+◌, ◌^◌, Some, [], ◌∷◌, ◌++◌, MatchOption};
ghost use Rattle.nqs_spool.specs.Slots.{widest_of, first_fit, lies_between, is_free, inserted, ended, begun_at, begun_if_empty, removed, left_by, IsSomeRow};
ghost use Rattle.nqs_spool.specs.Nodes.{slots_of, IsMeasured};

use crate::slot::Slot;
use std::alloc::{AllocError, Global};
use std::marker::Model;
use std::mem;

/// Seen as its slots in order. The heights of two sides differ by at most one, which isn't proved.
#[cycle(tree)]
#[derive(Drop)]
pub(crate) struct Tree {
    node: Node,
}

#[cycle(tree)]
#[derive(Drop)]
enum Node {
    Leaf,
    // Left, slot, the widest gap of all, height, right.
    Fork(Box<Tree>, Slot, u64, u8, Box<Tree>),
}

impl Model for Tree {
    ghost use Rattle.std.specs.Prelude.{List, length};
    ghost use Rattle.nqs_spool.specs.declared.slot.Slot.{Slot};

    ghost Value = { List Slot };

    ghost use Rattle.nqs_spool.specs.Nodes.{slots_of, IsMeasured};

    ghost view = { λ a. slots_of a.node };

    ghost invariant = { λ a. IsMeasured a.node };

    ghost size = { length };

    ghost use Rattle.std.proofs.Common.{arith, length-append};

    ghost size_decreases = { λ a h. Prim.grind (arith, length-append) };
}

/// The memory of one slot: two places for its sides.
#[derive(Drop)]
pub(crate) struct Room {
    left: Box<Tree>,
    right: Box<Tree>,
    ghost empty: { (left.value ≡ []) × (right.value ≡ []) },
}

impl Room {
    /// Room for one slot. An `Err` is want of memory.
    pub(crate) fn new(alloc: Global) -> Result<Room, AllocError> {
        let left = Box::new(alloc, Tree::new())?;
        let right = Box::new(alloc, Tree::new())?;
        Ok(Room { left, right })
    }
}

/// What a slot that was taken out leaves: its memory, and where the free bytes behind all others
/// begin, if it was the last.
#[derive(Drop)]
pub(crate) struct Freed {
    pub room: Option<Room>,
    pub from: Option<u64>,
}

impl Tree {
    /// The tree without slots.
    pub(crate) fn new() -> Tree
        ensures { result ≡ [] }
    {
        Tree { node: Node::Leaf }
    }

    fn widest(&self) -> u64
        ensures { result ≡ widest_of self.now }
    {
        match &self.node {
            Node::Leaf => 0,
            Node::Fork(_, _, widest, _, _) => *widest,
        }
    }

    /// How many slots stand one below the other at most.
    pub(crate) fn height(&self) -> u8 {
        match &self.node {
            Node::Leaf => 0,
            Node::Fork(_, _, _, height, _) => *height,
        }
    }

    // What stood there, which leaves it empty.
    fn take(&mut self) -> Node
        ensures slots { slots_of result ≡ self.old }
        ensures measured { IsMeasured result }
        ensures empty { self.new ≡ [] }
    {
        mem::replace(self, Tree::new()).node
    }

    fn close(node: Node) -> Tree
        requires { IsMeasured node }
        ensures { result ≡ slots_of node }
    {
        Tree { node }
    }

    /// Where the first free bytes begin that are so many.
    pub(crate) fn first_fit(&self, count: u64, end: u64) -> u64
        requires { 0 < count }
        ensures { result ≡ first_fit count end self.now }
    {
        match &self.node {
            Node::Leaf => end,
            Node::Fork(left, slot, _, _, right) => {
                if count <= left.widest() {
                    return left.first_fit(count, end);
                }
                if count <= slot.gap() {
                    return slot.from;
                }
                right.first_fit(count, end)
            }
        }
    }

    /// Whether the bytes from the place on to `past` are free, where those behind all slots are
    /// from `end` to `limit`.
    pub(crate) fn is_free(&self, place: u64, past: u64, end: u64, limit: u64) -> bool
        requires { IsSomeRow self.now }
        ensures { result ≡ is_free place past end limit self.now }
    {
        match &self.node {
            Node::Leaf => lies_between(place, past, end, limit),
            Node::Fork(left, slot, _, _, right) => {
                if place < slot.place {
                    return left.is_free(place, past, slot.from, slot.place);
                }
                right.is_free(place, past, end, limit)
            }
        }
    }
}

// Whether the bytes from the place on to `past` lie between these two ends.
fn lies_between(place: u64, past: u64, from: u64, to: u64) -> bool
    ensures { result ≡ lies_between place past from to }
{
    if place < from {
        return false;
    }
    past <= to
}

impl Tree {
    /// One extent more. Answers where it ends, if it is the last.
    pub(crate) fn insert(&mut self, room: Room, end: u64, place: u64, length: u32) -> Option<u64>
        requires row { IsSomeRow self.old }
        requires small { place + length < 2 ^ 64 }
        ensures slots { self.new ≡ inserted place length end self.old }
        ensures last { result ≡ ended place length self.old }
    {
        match self.take() {
            Node::Leaf => {
                let Room { left, right } = room;
                let from = end;
                *self = Tree::close(fork(
                    left,
                    Slot {
                        from,
                        place,
                        length,
                    },
                    right,
                ));
                Some(place + u64::from(length))
            }
            Node::Fork(mut left, slot, _, _, mut right) => {
                if place < slot.place {
                    let behind = left.insert(room, slot.from, place, length);
                    *self = Tree::close(balanced(left, slot.set_from(behind), right));
                    return None;
                }
                let last = right.insert(room, end, place, length);
                *self = Tree::close(balanced(left, slot, right));
                last
            }
        }
    }

    /// Takes the extent at the place out, if there is one. The free bytes before it join those
    /// behind it.
    pub(crate) fn remove(&mut self, place: u64) -> Freed
        requires { IsSomeRow self.old }
        ensures slots { self.new ≡ removed place self.old }
        ensures from { result.from ≡ left_by place self.old }
    {
        match self.take() {
            Node::Leaf => Freed {
                room: None,
                from: None,
            },
            Node::Fork(mut left, slot, _, _, mut right) => {
                if place < slot.place {
                    let freed = left.remove(place);
                    *self = Tree::close(balanced(left, slot.set_from(freed.from), right));
                    return Freed {
                        room: freed.room,
                        from: None,
                    };
                }
                if slot.place < place {
                    let freed = right.remove(place);
                    *self = Tree::close(balanced(left, slot, right));
                    return freed;
                }
                self.join(left, slot.from, right)
            }
        }
    }

    // Both sides, without what stood between them, whose free bytes began at `from`.
    fn join(&mut self, mut left: Box<Tree>, from: u64, mut right: Box<Tree>) -> Freed
        ensures slots { self.new ≡ left.value ++ begun_at from right.value }
        ensures from { result.from ≡ begun_if_empty from right.value }
    {
        match right.pop_first() {
            None => {
                *self = Tree::close(left.take());
                Freed {
                    room: Some(Room { left, right }),
                    from: Some(from),
                }
            }
            Some((next, room)) => {
                *self = Tree::close(balanced(left, next.set_from(Some(from)), right));
                Freed {
                    room: Some(room),
                    from: None,
                }
            }
        }
    }

    // Takes the first slot out.
    fn pop_first(&mut self) -> Option<(Slot, Room)>
        ensures { MatchOption result ((self.old ≡ []) × (self.new ≡ [])) (λ first. self.old ≡ first.0 ∷ self.new) }
    {
        match self.take() {
            Node::Leaf => None,
            Node::Fork(mut left, slot, _, _, mut right) => {
                let Some((first, room)) = left.pop_first() else {
                    *self = Tree::close(right.take());
                    return Some((slot, Room { left, right }));
                };
                *self = Tree::close(balanced(left, slot, right));
                Some((first, room))
            }
        }
    }
}

fn fork(left: Box<Tree>, slot: Slot, right: Box<Tree>) -> Node
    ensures measured { IsMeasured result }
    ensures slots { slots_of result ≡ left.value ++ slot ∷ right.value }
{
    let widest = left.widest().max(slot.gap()).max(right.widest());
    let height = left.height().max(right.height()).saturating_add(1);
    Node::Fork(left, slot, widest, height, right)
}

// The same slots, where one side may be two higher.
fn balanced(left: Box<Tree>, slot: Slot, right: Box<Tree>) -> Node
    ensures measured { IsMeasured result }
    ensures slots { slots_of result ≡ left.value ++ slot ∷ right.value }
{
    let (high, low) = (left.height(), right.height());
    if high > low.saturating_add(1) {
        return lean_right(left, slot, right);
    }
    if low > high.saturating_add(1) {
        return lean_left(left, slot, right);
    }
    fork(left, slot, right)
}

// The left side's root, or its right side's, goes up.
fn lean_right(mut left: Box<Tree>, slot: Slot, right: Box<Tree>) -> Node
    ensures measured { IsMeasured result }
    ensures slots { slots_of result ≡ left.value ++ slot ∷ right.value }
{
    let Node::Fork(outer, first, _, _, mut inner) = left.take() else {
        return fork(left, slot, right);
    };
    if outer.height() >= inner.height() {
        *left = Tree::close(fork(inner, slot, right));
        return fork(outer, first, left);
    }
    let Node::Fork(near, middle, _, _, far) = inner.take() else {
        *left = Tree::close(fork(inner, slot, right));
        return fork(outer, first, left);
    };
    *inner = Tree::close(fork(outer, first, near));
    *left = Tree::close(fork(far, slot, right));
    fork(inner, middle, left)
}

// The right side's root, or its left side's, goes up.
fn lean_left(left: Box<Tree>, slot: Slot, mut right: Box<Tree>) -> Node
    ensures measured { IsMeasured result }
    ensures slots { slots_of result ≡ left.value ++ slot ∷ right.value }
{
    let Node::Fork(mut inner, last, _, _, outer) = right.take() else {
        return fork(left, slot, right);
    };
    if outer.height() >= inner.height() {
        *right = Tree::close(fork(left, slot, inner));
        return fork(right, last, outer);
    }
    let Node::Fork(far, middle, _, _, near) = inner.take() else {
        *right = Tree::close(fork(left, slot, inner));
        return fork(right, last, outer);
    };
    *inner = Tree::close(fork(near, last, outer));
    *right = Tree::close(fork(left, slot, far));
    fork(right, middle, inner)
}
