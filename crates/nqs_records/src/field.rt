//! Single fields, read from a place of the bytes, with the place behind them.

ghost use Rattle.std.specs.Prelude.{◌≡◌};
ghost use Rattle.nqs_records.specs.Fields.{u8_at, u16_at, u32_at, u64_at, bool_at, name_at, as_fault};

use crate::fault::RecordFault;
use nqs_base::Name;
use nqs_codec::{FieldFault, Short, take_bool, take_name, take_u8, take_u16, take_u32, take_u64};

pub(crate) fn as_fault(fault: FieldFault) -> RecordFault
    ensures { result ≡ as_fault fault }
{
    match fault {
        FieldFault::Short(end) => RecordFault::Short(end),
        FieldFault::Bad(place) => RecordFault::BadField(place),
    }
}

/// The number of one byte at the place.
pub fn read_u8(bytes: &[u8], place: u64) -> Result<(u8, u64), RecordFault>
    ensures { result ≡ u8_at bytes.now place }
{
    match take_u8(bytes, place) {
        Ok(taken) => Ok(taken),
        Err(Short(end)) => Err(RecordFault::Short(end)),
    }
}

/// The number of two bytes at the place.
pub fn read_u16(bytes: &[u8], place: u64) -> Result<(u16, u64), RecordFault>
    ensures { result ≡ u16_at bytes.now place }
{
    match take_u16(bytes, place) {
        Ok(taken) => Ok(taken),
        Err(Short(end)) => Err(RecordFault::Short(end)),
    }
}

/// The number of four bytes at the place.
pub fn read_u32(bytes: &[u8], place: u64) -> Result<(u32, u64), RecordFault>
    ensures { result ≡ u32_at bytes.now place }
{
    match take_u32(bytes, place) {
        Ok(taken) => Ok(taken),
        Err(Short(end)) => Err(RecordFault::Short(end)),
    }
}

/// The number of eight bytes at the place.
pub fn read_u64(bytes: &[u8], place: u64) -> Result<(u64, u64), RecordFault>
    ensures { result ≡ u64_at bytes.now place }
{
    match take_u64(bytes, place) {
        Ok(taken) => Ok(taken),
        Err(Short(end)) => Err(RecordFault::Short(end)),
    }
}

/// The yes or no at the place.
pub fn read_bool(bytes: &[u8], place: u64) -> Result<(bool, u64), RecordFault>
    ensures { result ≡ bool_at bytes.now place }
{
    match take_bool(bytes, place) {
        Ok(taken) => Ok(taken),
        Err(fault) => Err(as_fault(fault)),
    }
}

/// The name at the place.
pub fn read_name(bytes: &[u8], place: u64) -> Result<(Name, u64), RecordFault>
    ensures { result ≡ name_at bytes.now place }
{
    match take_name(bytes, place) {
        Ok(taken) => Ok(taken),
        Err(fault) => Err(as_fault(fault)),
    }
}
