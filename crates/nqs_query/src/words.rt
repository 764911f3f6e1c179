//! The words of qstat and qdel.
//!
//! `qstat [-u USER] [QUEUE]..` and `qdel [-k] SEQ.HOST`: the option comes first. specs/Words.antt
//! has the definitions.

ghost use Rattle.std.specs.Prelude.{◌≡◌, ◌+◌, ◌≤◌, [], drop, length, IfOk};
ghost use Rattle.nqs_words.specs.Values.{named_of};
ghost use Rattle.nqs_query.specs.declared.words.NotNames.TheVariants.{Memory};
ghost use Rattle.nqs_query.specs.Words.{word_number, fault_at, ReadsNames, ReadsQueues, user_word, of_user, of_all, is_user_option, Stats, ReadsStat};
ghost use Rattle.nqs_query.specs.Words.{named_or_fault, nothing_more, request_from, is_kill_option, delete_of};
ghost use Rattle.nqs_base.specs.Want.{want};

use nqs_base::{Bytes, Memory, Name, NameList};
use nqs_types::{Command, Named, WordsCause, WordsFault};
use nqs_words::{NotNamed, name_of, named_of};
use std::alloc::{AllocFailed, Global};

/// Why words are no list of names.
#[derive(Drop)]
pub enum NotNames {
    /// The place, from 0, of the first word that is no name.
    Bad(usize),
    Memory(Memory),
}

impl<T: Drop> From<AllocFailed<T>> for NotNames {
    ghost from_gives = { λ _ e. e ≡ Memory want };

    fn from(refused: AllocFailed<T>) -> NotNames {
        NotNames::Memory(refused.into())
    }
}

fn names_of(alloc: Global, words: &[Bytes]) -> Result<Vec<Name>, NotNames>
    ensures { ReadsNames words.now result }
{
    let mut names = Vec::new(alloc);
    for i in 0..words.len() {
        let Some(name) = name_of(words[i].as_slice()) else {
            return Err(NotNames::Bad(i));
        };
        names.push(name)?;
    }
    Ok(names)
}

// The number of a word that stands so many words behind the first, which has a number.
fn word_number(first: u32, behind: usize) -> u32
    ensures { result ≡ word_number (first + behind) }
{
    let left = u32::MAX - first;
    if behind <= left as usize {
        return first + behind as u32;
    }
    u32::MAX
}

fn fault_at(first: u32, behind: usize, cause: WordsCause) -> WordsFault
    ensures { result ≡ fault_at (first + behind) cause }
{
    WordsFault {
        cause,
        line: 0,
        word: word_number(first, behind),
    }
}

// Queues, the first of which is the word of this number.
fn queues_from(
    alloc: Global,
    first: u32,
    words: &[Bytes],
) -> Result<Result<NameList, WordsFault>, Memory>
    ensures { IfOk result (λ read. ReadsQueues first words.now read) }
{
    match names_of(alloc, words) {
        Ok(names) => Ok(Ok(NameList::from_vec(names))),
        Err(NotNames::Bad(place)) => Ok(Err(fault_at(first, place, WordsCause::BadName))),
        Err(NotNames::Memory(memory)) => Err(memory),
    }
}

fn is_user_option(words: &[Bytes]) -> bool
    ensures { result ≡ is_user_option words.now }
{
    match words.first() {
        Some(word) => b"-u".as_slice() == word.as_slice(),
        None => false,
    }
}

// The user, who is the second word.
fn user_of(words: &[Bytes]) -> Result<Name, WordsFault>
    ensures { result ≡ user_word words.now }
{
    let Some(word) = words.get(1) else {
        return Err(fault_at(1, 0, WordsCause::Missing));
    };
    match name_of(word.as_slice()) {
        Some(name) => Ok(name),
        None => Err(fault_at(2, 0, WordsCause::BadName)),
    }
}

fn behind_two(words: &[Bytes]) -> &[Bytes]
    ensures { result.now ≡ drop 2 words.now }
{
    if words.len() < 2 {
        return &[];
    }
    &words[2..]
}

fn of_user(alloc: Global, words: &[Bytes]) -> Result<Result<Command, WordsFault>, Memory>
    ensures { IfOk result (λ read. Stats (of_user words.now) read) }
{
    let user = match user_of(words) {
        Ok(user) => user,
        Err(fault) => return Ok(Err(fault)),
    };
    match queues_from(alloc, 3, behind_two(words))? {
        Ok(queues) => Ok(Ok(Command::Stat {
            user: Some(user),
            queues,
        })),
        Err(fault) => Ok(Err(fault)),
    }
}

fn of_all(alloc: Global, words: &[Bytes]) -> Result<Result<Command, WordsFault>, Memory>
    ensures { IfOk result (λ read. Stats (of_all words.now) read) }
{
    match queues_from(alloc, 1, words)? {
        Ok(queues) => Ok(Ok(Command::Stat { user: None, queues })),
        Err(fault) => Ok(Err(fault)),
    }
}

/// What the words of qstat ask for, or the first fault. Memory is taken for the list of queues.
#[tactic(auto, unfolding(crate::specs::Words::stat_of))]
pub fn read_qstat(alloc: Global, words: &[Bytes]) -> Result<Result<Command, WordsFault>, Memory>
    ensures { IfOk result (λ read. ReadsStat words.now read) }
{
    if is_user_option(words) {
        return of_user(alloc, words);
    }
    of_all(alloc, words)
}

fn named_at(number: u32, word: &[u8]) -> Result<Named, WordsFault>
    ensures { result ≡ named_or_fault number (named_of word.now) }
{
    match named_of(word) {
        Ok(id) => Ok(id),
        Err(NotNamed::BadNumber) => Err(fault_at(number, 0, WordsCause::BadNumber)),
        Err(NotNamed::BadName) => Err(fault_at(number, 0, WordsCause::BadName)),
    }
}

fn nothing_more(number: u32, words: &[Bytes]) -> Result<(), WordsFault>
    ensures { result ≡ nothing_more number words.now }
{
    if words.is_empty() {
        return Ok(());
    }
    Err(fault_at(number, 0, WordsCause::Unknown))
}

// One request, whose word has this number.
fn request_from(number: u32, kill: bool, words: &[Bytes]) -> Result<Command, WordsFault>
    requires { number ≤ 2 }
    ensures { result ≡ request_from number kill words.now }
{
    let Some((word, others)) = words.split_first() else {
        return Err(fault_at(number, 0, WordsCause::Missing));
    };
    let id = named_at(number, word.as_slice())?;
    nothing_more(number + 1, others)?;
    Ok(Command::Delete { id, kill })
}

fn is_kill_option(word: &[u8]) -> bool
    ensures { result ≡ is_kill_option word.now }
{
    b"-k".as_slice() == word
}

/// What the words of qdel ask for, or the first fault. It takes no memory.
#[tactic(auto, unfolding(crate::specs::Words::delete_of))]
pub fn read_qdel(words: &[Bytes]) -> Result<Command, WordsFault>
    ensures { result ≡ delete_of words.now }
{
    let Some((word, others)) = words.split_first() else {
        return request_from(1, false, words);
    };
    if is_kill_option(word.as_slice()) {
        return request_from(2, true, others);
    }
    request_from(1, false, words)
}
