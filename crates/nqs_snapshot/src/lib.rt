//! A host's whole state as bytes, from which a second journal goes on: one spelling of each state
//! in order, both ways.
//!
//! A state is its fields one behind the other (`specs/Spelling.antt`), in the forms that journal
//! records have. A list is a number of eight bytes that counts it, and its values; what may be one
//! of several is its number in one byte, from 0, and its fields.
//!
//! Fields are read in order, and the first fault is the answer: as in records, a value that is not
//! all there is `Short`, one past its limits (`specs/Values.antt`) is `BadField` at its first byte,
//! and what stands behind a whole state is `Trailing`. A state that reads and from which no host
//! may go on, since it isn't in order or isn't consistent (`specs/Sound.antt`), is `BadField(0)`.
//!
//! Snapshots of version 1 have peers with one closed number (`old_peer_field`). They are read and no
//! longer written: `read_old_state` makes of each such peer one with a floor (`renewed`).
//!
//! Keys are looked for in the tables that are filled, and so are arrivals, promises and offers:
//! what a read costs grows with the length of the bytes, and not with its square.
#![tactic(auto)]

mod consistent;
mod differ;
mod few;
mod field;
mod laws;
mod lists;
mod order;
mod order_queues;
mod order_requests;
mod parts;
mod put_dealings;
mod put_queues;
mod put_requests;
mod read;
mod read_dealings;
mod read_parts;
mod read_queues;
mod read_requests;
mod sound;
mod tables;
mod typed;
mod write;

pub use laws::{
    first_faults, formatted_host, old_peers_become, reads_the_spelling, sound_is_in_order,
    spells_one, what_stands_is_short,
};
pub use read::{read_old_state, read_state};
pub use write::write_state;
