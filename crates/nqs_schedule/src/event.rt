//! The event of a line, with the bytes of its long words.

ghost use Rattle.std.specs.Prelude.{◌≡◌, ◌≤◌, map, drop, length, IfOk};
ghost use Rattle.nqs_schedule.specs.Events.{bytes_at, words_behind, text_of_word, without_spaces, qmgr_text, event_of};

use crate::plan::Plan;
use crate::words::{LineWord, LineWords};
use nqs_base::{Bytes, Items, Memory, bytes_of};
use nqs_types::WorldEvent;
use std::alloc::Global;

fn bytes_at(alloc: Global, words: &LineWords, place: usize) -> Result<Bytes, Memory>
    ensures { IfOk result (λ bytes. bytes ≡ bytes_at words.now place) }
{
    match words.words.as_slice().get(place) {
        Some(word) => bytes_of(alloc, word.text.as_slice()),
        None => Ok(Bytes::new(alloc)),
    }
}

fn texts(alloc: Global, words: &[LineWord]) -> Result<Items<Bytes>, Memory>
    ensures { IfOk result (λ texts. texts ≡ map text_of_word words.now) }
{
    let mut texts = Items::new(alloc);
    for i in 0..words.len() {
        texts.push(bytes_of(alloc, words[i].text.as_slice())?)?;
    }
    Ok(texts)
}

fn words_behind(alloc: Global, words: &LineWords, place: usize) -> Result<Items<Bytes>, Memory>
    ensures { IfOk result (λ texts. texts ≡ words_behind words.now place) }
{
    let all = words.words.as_slice();
    texts(alloc, &all[place.min(all.len())..])
}

fn without_spaces(bytes: &[u8]) -> &[u8]
    ensures { result.now ≡ without_spaces bytes.now }
{
    let mut rest = bytes;
    while let Some((byte, more)) = rest.split_first() {
        if *byte != b' ' {
            return rest;
        }
        rest = more;
    }
    rest
}

fn qmgr_text(alloc: Global, line: &[u8], words: &LineWords) -> Result<Bytes, Memory>
    ensures { IfOk result (λ text. text ≡ qmgr_text line.now words.now) }
{
    match words.words.as_slice().get(2) {
        Some(word) => {
            let end = word.end.min(line.len());
            bytes_of(alloc, without_spaces(&line[end..]))
        }
        None => Ok(Bytes::new(alloc)),
    }
}

/// The event that a plan stands for, by its line and the line's words.
pub(crate) fn event_of(
    alloc: Global,
    line: &[u8],
    words: &LineWords,
    plan: Plan,
) -> Result<WorldEvent, Memory>
    ensures { IfOk result (λ event. event ≡ event_of line.now words.now plan) }
{
    match plan {
        Plan::Ready(event) => Ok(event),
        Plan::Qsub { host, user } => {
            let script = bytes_at(alloc, words, 3)?;
            let words = words_behind(alloc, words, 4)?;
            Ok(WorldEvent::Qsub {
                host,
                user,
                script,
                words,
            })
        }
        Plan::Qmgr { host, user } => {
            let text = qmgr_text(alloc, line, words)?;
            Ok(WorldEvent::Qmgr { host, user, text })
        }
        Plan::Qstat { host, user } => {
            let words = words_behind(alloc, words, 3)?;
            Ok(WorldEvent::Qstat { host, user, words })
        }
        Plan::Qdel { host, user } => {
            let words = words_behind(alloc, words, 3)?;
            Ok(WorldEvent::Qdel { host, user, words })
        }
        Plan::End {
            host,
            id,
            start,
            status,
        } => {
            let out = bytes_at(alloc, words, 5)?;
            let err = bytes_at(alloc, words, 6)?;
            Ok(WorldEvent::End {
                host,
                id,
                start,
                status,
                out,
                err,
            })
        }
    }
}
