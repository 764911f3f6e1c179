//! The journal records of a host: each change of its state has exactly one spelling as bytes.
//!
//! A record is its kind's byte and its fields, and nothing else (`specs/KindTable.antt` has the
//! fields of each kind). Numbers go with their highest byte first. A name or a path is a byte of
//! length and its bytes; yes and no are 1 and 0; what may be left out is 0, or 1 and the value; a
//! list is a byte that counts it, and its values. A request is its sequence number (4 bytes) and
//! its host (1); an extent its place (8) and its length (4). An edit is its code's byte and its
//! arguments (`specs/EditTable.antt`); that a new queue is for pipe queues alone is the number 1
//! (8 bytes), which may be left out.
//!
//! Each table has a row for each code: the fields behind it, and what their values make. How it is
//! read, spelled and bounded, and how long it is at most, follows from its fields
//! (`specs/EditFields.antt`, `KindFields.antt`, `Tables.antt`; `proofs/ShortTables.antt`). Codes
//! are looked up, so that some may be left out. A new edit is
//!
//! - a row of `specs/EditTable.antt`, and the line of `conf_entry` or its like that spells it;
//! - an arm in `src/edit_kinds.rt` or `src/edit_others.rt`, beside those of its part of the table;
//! - an arm in `src/put_edits.rt`.
//!
//! A new kind is a row of `specs/KindTable.antt` and its line of `kind_entry`, an arm in
//! `src/request_kinds.rt`, `src/hand_kinds.rt` or `src/host_kinds.rt`, beside those of its part of
//! the table, and one in `src/write.rt`. Rows and arms are held to one another by the contracts,
//! rows and entries by the laws (`proofs/EditLaws.antt`, `proofs/KindLaws.antt`). Fields that stood
//! behind no code together before have a reader and a writer (`src/edit_shapes.rt`,
//! `src/put_shapes.rt`), and a limit of the rules has its line in `proofs/SaneLaws.antt`.
//!
//! Fields are read in order, and the first fault is the answer. A value that is not all there is
//! `Short`; one that is there and is past its limits (`specs/Values.antt`, `specs/EditValues.antt`)
//! is `BadField` at its first byte.
//!
//! The fields that datagrams and snapshots share with records are read and put by the same calls,
//! and so is what stands one behind the other (`Read`, `Put`).
#![tactic(auto)]

mod edit_kinds;
mod edit_others;
mod edit_parts;
mod edit_shapes;
mod extents;
mod fault;
mod field;
mod hand_kinds;
mod host_kinds;
mod job;
mod lists;
mod part;
mod put_edits;
mod put_kinds;
mod put_lists;
mod put_parts;
mod put_shapes;
mod read;
mod request_kinds;
mod values;
mod write;

pub use extents::put_extents;
pub use fault::RecordFault;
pub use field::{read_bool, read_name, read_u8, read_u16, read_u32, read_u64};
pub use job::{read_carried, read_job, read_u8_at_most};
pub use lists::{InRecord, Read, read_alone, repeat, repeat_small};
pub use part::{
    read_host, read_id, read_low, read_opt_name, read_opt_u64, read_output, read_path, read_script,
};
pub use put_lists::{Put, put_each};
pub use put_parts::{put_carried, put_extent, put_id, put_job, put_opt_name, put_opt_u64};
pub use read::{first_faults, read_change, reads_the_spelling, what_may_stand_is_sane};
pub use values::{
    byte_stands, job_stands, maybe_name_stands, maybe_number_stands, middle_number_stands,
    number_stands, short_number_stands,
};
pub use write::write_change;
