//! A network of hosts in memory, as the events of a schedule make it: commands, ends of jobs,
//! packets that arrive, and stops within any call of a device.
//!
//! `nqs_language_acts` says what each event asks for, `specs/Worlds.antt` what a world stands for:
//! the pure machine of `nqs_rules`, in which there is no byte of a disk.
#![tactic(auto)]

mod deed;
mod emit;
mod event;
mod fuses;
mod host;
mod left;
mod meaning;
mod new;
mod packets;
mod places;
mod shown;
mod slot;
mod stop;
mod turn;
mod world;

pub use new::empty_disks;
pub use slot::{DownHost, Slot, UpHost};
pub use world::World;
