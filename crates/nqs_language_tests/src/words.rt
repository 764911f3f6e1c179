//! Words of a line and what they may say: keywords, numbers, requests, destinations, quoted words.

use nqs_words::{
    Gaps, Keyword, NoKeyword, NotNamed, QuoteFault, Word, dest_of, keyword_of, moment_of, named_of,
    next_word, number_of, read_quoted, seq_of, size_of, time_of,
};
use std::alloc::Global;
use std::rt::HostRuntime;

#[test]
fn finds_words(rt: HostRuntime) {
    let word = Some(Word { start: 2, end: 5 });
    let shorter = Some(Word { start: 2, end: 3 });
    let found = [
        next_word(Gaps::Spaces, b"  a\tb c", 0) == word,
        next_word(Gaps::SpacesAndTabs, b"  a\tb c", 0) == shorter,
        next_word(Gaps::Spaces, b"a  ", 1).is_none(),
    ];
    assert_eq!(rt; found, [true; 3]);
}

#[test]
fn names_keywords(rt: HostRuntime) {
    let words = [Keyword::Device, Keyword::DeviceQueue, Keyword::Set];
    let named = [
        keyword_of(words.as_slice(), b"DEVICE") == Ok(Keyword::Device),
        keyword_of(words.as_slice(), b"device_") == Ok(Keyword::DeviceQueue),
        keyword_of(words.as_slice(), b"dev") == Err(NoKeyword::Ambiguous),
        keyword_of(words.as_slice(), b"s") == Err(NoKeyword::Unknown),
        keyword_of(words.as_slice(), b"sets") == Err(NoKeyword::Unknown),
    ];
    assert_eq!(rt; named, [true; 5]);
}

#[test]
fn reads_numbers(rt: HostRuntime) {
    let numbers = [
        number_of(0, 63, b"063") == Some(63),
        number_of(0, 63, b"64").is_none(),
        seq_of(b"4294967294") == Some(4_294_967_294),
        seq_of(b"4294967295").is_none(),
        seq_of(b"07").is_none(),
    ];
    let amounts = [
        time_of(b"1:30:00") == Some(5_400),
        size_of(b"64mb") == Some(67_108_864),
        moment_of(b"2000-01-01T00:00:00") == Some(946_684_800),
        moment_of(b"2001-02-29T00:00:00").is_none(),
    ];
    assert_eq!(rt; (numbers, amounts), ([true; 5], [true; 4]));
}

#[test]
fn reads_requests_and_destinations(rt: HostRuntime) {
    let read = [
        named_of(b"12.alpha").is_ok(),
        named_of(b"x.alpha") == Err(NotNamed::BadNumber),
        named_of(b"12") == Err(NotNamed::BadName),
        named_of(b"12.") == Err(NotNamed::BadName),
        dest_of(b"batch@beta").is_some(),
        dest_of(b"a@b@c").is_none(),
    ];
    assert_eq!(rt; read, [true; 6]);
}

// Whether the quoted word has these bytes, and how many it takes.
fn quoted(alloc: Global, text: &[u8], bytes: &[u8]) -> Option<(bool, usize)> {
    match read_quoted(alloc, text) {
        Ok((word, taken)) => Some((word.as_slice() == bytes, taken)),
        Err(_) => None,
    }
}

fn is_badly_quoted(alloc: Global, text: &[u8]) -> bool {
    read_quoted(alloc, text).is_err_and(|e| e == QuoteFault::BadQuote)
}

#[test]
fn reads_quoted_words(rt: HostRuntime) {
    let alloc = rt.alloc();
    let word = quoted(alloc, b"a\\n\\\"\\\\\" x", b"a\n\"\\");
    let bad = [
        is_badly_quoted(alloc, b"a"),
        is_badly_quoted(alloc, b"\\t\""),
    ];
    assert_eq!(rt; (word, bad), (Some((true, 8)), [true; 2]));
}
