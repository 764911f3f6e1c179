//! Laws for callers: a field that was put is taken again, and what a take refuses stands nowhere.
//!
//! A caller calls the function for its contract; it does nothing.

ghost use Rattle.std.specs.Prelude.{◌^◌, ◌<◌, ⊤};
ghost use Rattle.nqs_base.specs.Name.{IsName};
ghost use Rattle.nqs_base.specs.Path.{IsPath};
ghost use Rattle.nqs_codec.specs.Fields.{u8_field, u16_field, u32_field, u64_field, bytes_field, short_field, bool_field};
ghost use Rattle.nqs_codec.specs.Takes.{TakesNumber, TakesBytes, TakesBool, TakesName, TakesPath, IsLong};
ghost use Rattle.nqs_codec.specs.Laws.{IsReadBack, IsReadInPlace};

/// Numbers of one byte.
pub fn u8_is_read_back()
    ensures { IsReadBack (λ n. n < 2 ^ 8) u8_field (TakesNumber (2 ^ 8) u8_field) }
{}

/// Numbers of two bytes.
pub fn u16_is_read_back()
    ensures { IsReadBack (λ n. n < 2 ^ 16) u16_field (TakesNumber (2 ^ 16) u16_field) }
{}

/// Numbers of four bytes.
pub fn u32_is_read_back()
    ensures { IsReadBack (λ n. n < 2 ^ 32) u32_field (TakesNumber (2 ^ 32) u32_field) }
{}

/// Numbers of eight bytes.
pub fn u64_is_read_back()
    ensures { IsReadBack (λ n. n < 2 ^ 64) u64_field (TakesNumber (2 ^ 64) u64_field) }
{}

/// Yes and no, and the tag before what may be there or not.
pub fn bool_is_read_back()
    ensures { IsReadBack (λ _. ⊤) bool_field TakesBool }
{}

/// Names.
pub fn name_is_read_back()
    ensures { IsReadBack IsName short_field TakesName }
{}

/// Bytes behind a length of four bytes.
pub fn bytes_are_read_in_place()
    ensures { IsReadInPlace 4 IsLong bytes_field TakesBytes }
{}

/// Paths.
pub fn path_is_read_in_place()
    ensures { IsReadInPlace 1 IsPath short_field TakesPath }
{}
