//! A host of a world: a node that is up, or the disks of one that is down.

ghost use Rattle.std.specs.Prelude.{◌≡◌, [], false};
ghost use Rattle.nqs_types.specs.declared.world.Which.{Which};
ghost use Rattle.nqs_disk.specs.MemDisk as mem;
ghost use Rattle.nqs_node.specs.Nodes.{content_of, is_stopped};
ghost use Rattle.nqs_store.specs.Disks.{histories_of};
ghost use Rattle.nqs_store.specs.Sound.{IsSoundHost, IsSoundHost-prop};

use nqs_disk::MemDisk;
use nqs_node::Node;
use nqs_store::Disks;

/// A node that wasn't stopped, whose host is in order. In a box, so that a move of the host is one
/// of an address.
#[derive(Drop)]
pub struct UpHost {
    pub node: Box<Node<MemDisk>>,
    ghost sound: { IsSoundHost (content_of node.value) } by { IsSoundHost-prop (content_of node.value) },
    ghost running: { is_stopped node.value ≡ false },
}

/// The disks of a host that is down. No call was made of them since it stopped.
#[derive(Drop)]
pub struct DownHost {
    pub disks: Box<Disks<MemDisk>>,
    ghost rests: { (which : Which) → (histories_of mem.history_of disks.value which).calls ≡ [] },
}

/// A host that runs, or the disks of one that doesn't.
#[derive(Drop)]
pub enum Slot {
    Up(UpHost),
    Down(DownHost),
}
