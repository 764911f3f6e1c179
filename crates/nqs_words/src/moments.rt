//! Moments, as a number or none.

ghost use Rattle.std.specs.Prelude.{◌≡◌};
ghost use Rattle.nqs_words.specs.Moments.{moment_of};

use nqs_moments::read_moment;

/// The moment that the bytes write as `YYYY-MM-DDTHH:MM:SS`, in seconds since 1970.
pub fn moment_of(bytes: &[u8]) -> Option<u64>
    ensures { result ≡ moment_of bytes.now }
{
    match read_moment(bytes) {
        Ok(moment) => Some(moment),
        Err(_) => None,
    }
}
