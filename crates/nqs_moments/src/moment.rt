//! Moments: seconds since the first of 1970 in UTC, written `YYYY-MM-DDTHH:MM:SS`.
//!
//! The dates are those of jiff_core, the core of jiff; the seconds of the day are counted here.
//! There are no leap seconds.

ghost use Rattle.std.specs.Prelude.{◌≡◌, ◌+◌, ◌^◌, ◌<◌, ◌≤◌, ◌≤ℤ◌, ◌++◌, ℕ, length, pos, None, MatchOption, OnOk};
ghost use Rattle.std.specs.Prelude.{◌%◌};
ghost use Rattle.jiff_core.specs.Date.{epoch_day};
ghost use Rattle.nqs_text.specs.Dates.{moment_text, date_text};
ghost use Rattle.nqs_moments.specs.Moment.{misfit, suits, moment_misfit, ReadsMoment, IsSecond, PrintsMoment};
ghost use Rattle.nqs_moments.specs.Parts.{part, IsNamed};

use jiff_core::civil::Date;
use nqs_base::Memory;
use nqs_text::decimal;
use std::alloc::Global;

/// Why bytes are no moment.
#[derive(Clone, Copy, Debug, PartialEq, Eq)]
pub enum MomentFault {
    /// The first place, from 0, where the bytes leave the form: their length where they are too
    /// short, 19 where they are too long.
    Form(u64),
    /// There is no such date and time from 1970 on.
    Range,
}

fn suits(wanted: u8, byte: u8) -> bool
    ensures { result ≡ suits wanted byte }
{
    if wanted.is_ascii_digit() {
        byte.is_ascii_digit()
    } else {
        byte == wanted
    }
}

#[tactic(auto, unfolding(crate::specs::Moment::misfit))]
fn misfit(form: &[u8], place: u64, bytes: &[u8]) -> Option<u64>
    requires { place + length bytes.now < 2 ^ 64 }
    ensures { result ≡ misfit form.now place bytes.now }
{
    let Some((wanted, forms)) = form.split_first() else {
        if bytes.is_empty() {
            return None;
        }
        return Some(place);
    };
    let Some((byte, more)) = bytes.split_first() else {
        return Some(place);
    };
    if suits(*wanted, *byte) {
        misfit(forms, place + 1, more)
    } else {
        Some(place)
    }
}

// The second of a civil date and time, where there is one.
fn second_of(year: u64, month: u64, day: u64, hour: u64, minute: u64, second: u64) -> Option<u64>
    ensures { MatchOption result ((moment : ℕ) → IsSecond year month day hour minute second moment → ⊥) (IsSecond year month day hour minute second) }
{
    if year > 9999 || month > 12 || day > 31 {
        return None;
    }
    if hour >= 24 || minute >= 60 || second >= 60 {
        return None;
    }
    let Ok(date) = Date::new(year as i16, month as i8, day as i8) else {
        return None;
    };
    let days = date.to_unix_epoch_day();
    if days < 0 {
        return None;
    }
    Some(days as u64 * 86_400 + hour * 3600 + minute * 60 + second)
}

// The number at a place of the text.
#[tactic(auto, unfolding(crate::specs::Parts::part))]
fn part(bytes: &[u8], place: usize, width: usize) -> Option<u64>
    requires { place + width ≤ length bytes.now }
    ensures { MatchOption result (2 ^ 64 ≤ part bytes.now place width) (λ n. n ≡ part bytes.now place width) }
{
    decimal(&bytes[place..place + width])
}

// The second that a text of the form names.
fn named(bytes: &[u8]) -> Option<u64>
    requires { length bytes.now ≡ 19 }
    ensures { MatchOption result ((moment : ℕ) → IsNamed bytes.now moment → ⊥) (IsNamed bytes.now) }
{
    let year = part(bytes, 0, 4)?;
    let month = part(bytes, 5, 2)?;
    let day = part(bytes, 8, 2)?;
    let hour = part(bytes, 11, 2)?;
    let minute = part(bytes, 14, 2)?;
    let second = part(bytes, 17, 2)?;
    second_of(year, month, day, hour, minute, second)
}

/// The moment that the bytes write, from 1970 to 9999. It takes no memory.
pub fn read_moment(bytes: &[u8]) -> Result<u64, MomentFault>
    ensures { ReadsMoment bytes.now result }
{
    if let Some(place) = misfit(b"0000-00-00T00:00:00", 0, bytes) {
        return Err(MomentFault::Form(place));
    }
    match named(bytes) {
        Some(moment) => Ok(moment),
        None => Err(MomentFault::Range),
    }
}

/// Why a moment was not printed. Nothing was appended.
#[derive(Debug, PartialEq, Eq, Drop)]
pub enum PrintFault {
    /// The moment is past 253,402,214,400, the first second of 9999-12-31.
    Range,
    /// An allocation was refused.
    Memory(Memory),
}

fn digit(number: u64) -> u8
    ensures { result ≡ 48 + number % 10 }
{
    b'0' + (number % 10) as u8
}

// The text of a civil date and time.
#[tactic(auto, unfolding(nqs_text::specs::Dates::moment_text, nqs_text::specs::Dates::two, nqs_text::specs::Dates::four))]
fn text_of(year: u64, month: u64, day: u64, hour: u64, minute: u64, second: u64) -> [u8; 19]
    ensures { result ≡ moment_text year month day hour minute second }
{
    [
        digit(year / 1000),
        digit(year / 100),
        digit(year / 10),
        digit(year),
        b'-',
        digit(month / 10),
        digit(month),
        b'-',
        digit(day / 10),
        digit(day),
        b'T',
        digit(hour / 10),
        digit(hour),
        b':',
        digit(minute / 10),
        digit(minute),
        b':',
        digit(second / 10),
        digit(second),
    ]
}

// The date with that day number.
fn date_of(days: u64) -> Date
    requires { days ≤ 2932896 }
    ensures day { epoch_day result ≡ pos days }
    ensures year { (pos 1970 ≤ℤ result.year) × (result.year ≤ℤ pos 9999) }
{
    match Date::from_unix_epoch_day(days as i64) {
        Ok(date) => date,
        Err(_) => unreachable!(),
    }
}

/// Appends the text of the moment.
pub fn print_moment(_: Global, moment: u64, out: &mut Vec<u8>) -> Result<(), PrintFault>
    ensures printed { PrintsMoment out.old.items moment result out.new.items }
    ensures date { OnOk result (out.new.items ≡ out.old.items ++ date_text moment) }
{
    if moment > 253_402_214_400 {
        return Err(PrintFault::Range);
    }
    let date = date_of(moment / 86_400);
    let second = moment % 86_400;
    let text = text_of(
        u64::from(date.year.unsigned_abs()),
        u64::from(date.month),
        u64::from(date.day),
        second / 3600,
        second / 60 % 60,
        second % 60,
    );
    match out.extend_from_slice(&text) {
        Ok(_) => Ok(()),
        Err(refused) => Err(PrintFault::Memory(refused.into())),
    }
}
