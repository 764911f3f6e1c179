//! The text of an answer, which fits a datagram.

ghost use Rattle.std.specs.Prelude.{◌≡◌, ◌≤◌, OnOk, take, length};
ghost use Rattle.nqs_serve.specs.Letters.{whole_lines, cut_text};

use nqs_base::Memory;

/// The longest text of an answer that isn't cut.
const LONGEST: usize = 48_000;

// How many of the bytes are whole lines.
fn lines_end(text: &[u8]) -> usize
    ensures lines { take result text.now ≡ whole_lines text.now }
    ensures within { result ≤ length text.now }
{
    let mut end = text.len();
    while end > 0 && text[end - 1] != b'\n' {
        end -= 1;
    }
    end
}

/// Cuts a text above 48,000 bytes behind its last whole line within them, and says so.
pub(crate) fn cut_text(text: &mut Vec<u8>) -> Result<(), Memory>
    ensures text { OnOk result (text.new.items ≡ cut_text text.old.items) }
    ensures short { OnOk result (length text.new.items ≤ 48_006) }
{
    if text.len() <= LONGEST {
        return Ok(());
    }
    text.truncate(LONGEST);
    let end = lines_end(text.as_slice());
    text.truncate(end);
    text.extend_from_slice(b"(cut)\n")?;
    Ok(())
}
