//! A host over its disks: the rules of one host, each change kept before anything of it goes out.
//!
//! A call plans what is to happen, keeps the change on the disks, makes it, and only then says what
//! goes out. So after each `Ok` whatever images the disks may leave tell the node's state, and at
//! each moment of a call they tell the state before its change or the one after it. After a failed
//! call of a disk the node is stopped, and to be closed.
#![tactic(auto)]

mod boot;
mod carry;
mod keep;
mod node;
mod perform;
mod reads;

pub use node::Node;
