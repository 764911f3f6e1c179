//! The fields of journal records and packets.
#![tactic(auto)]

mod fault;
mod laws;
mod put;
mod take;
mod tested;

pub use fault::{FieldFault, Short};
pub use laws::{
    bool_is_read_back, bytes_are_read_in_place, name_is_read_back, path_is_read_in_place,
    u8_is_read_back, u16_is_read_back, u32_is_read_back, u64_is_read_back,
};
pub use put::{
    put_bool, put_bytes, put_name, put_opt_tag, put_path, put_u8, put_u16, put_u32, put_u64,
};
pub use take::{rest_at, take_bytes, take_u8, take_u16, take_u32, take_u64};
pub use tested::{take_bool, take_name, take_opt_tag, take_path};
