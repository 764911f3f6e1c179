//! Words of a line. A word is what stands between gaps; it is named by its place and the place
//! after it, in bytes from 0, so that no list of words is made.

ghost use Rattle.std.specs.Prelude.{not, ◌≡◌, ◌≤◌, ◌<◌, length, IfSome};
ghost use Rattle.std.specs.List.{position};
ghost use Rattle.nqs_words.specs.Words.{next_word, is_gap, end_of, Fits};

/// A word's place in its line, and the place after it.
#[derive(Clone, Copy, PartialEq, Eq)]
pub struct Word {
    pub start: usize,
    pub end: usize,
}

/// Which bytes part words.
#[derive(Clone, Copy)]
pub enum Gaps {
    Spaces,
    SpacesAndTabs,
}

/// Does the byte part words?
pub fn is_gap(gaps: Gaps, byte: u8) -> bool
    ensures { result ≡ is_gap gaps byte }
{
    match gaps {
        Gaps::Spaces => byte == b' ',
        Gaps::SpacesAndTabs => byte == b' ' || byte == b'\t',
    }
}

fn gap_place(gaps: Gaps, bytes: &[u8]) -> Option<usize>
    ensures place { result ≡ position (is_gap gaps) bytes.now }
    ensures bound { IfSome result (λ place. place < length bytes.now) }
{
    bytes.iter().position(|b| is_gap(gaps, *b))
}

fn word_place(gaps: Gaps, bytes: &[u8]) -> Option<usize>
    ensures place { result ≡ position (λ b. not (is_gap gaps b)) bytes.now }
    ensures bound { IfSome result (λ place. place < length bytes.now) }
{
    bytes.iter().position(|b| !is_gap(gaps, *b))
}

/// Where a word that starts there ends.
#[tactic(auto, unfolding(crate::specs::Words::end_of))]
pub fn end_of(gaps: Gaps, line: &[u8], start: usize) -> usize
    requires { start ≤ length line.now }
    ensures end { result ≡ end_of gaps line.now start }
    ensures fits { result ≤ length line.now }
    ensures above { start ≤ result }
{
    match gap_place(gaps, &line[start..]) {
        Some(run) => start + run,
        None => line.len(),
    }
}

/// The first word from a place on.
#[tactic(auto, unfolding(crate::specs::Words::next_word))]
pub fn next_word(gaps: Gaps, line: &[u8], place: usize) -> Option<Word>
    requires { place ≤ length line.now }
    ensures word { result ≡ next_word gaps line.now place }
    ensures fits { IfSome result (Fits line.now) }
{
    let gap = word_place(gaps, &line[place..])?;
    Some(Word {
        start: place + gap,
        end: end_of(gaps, line, place + gap),
    })
}
