//! A submission from its words and its script. The command's word wins over the script's; a
//! command's `-e` or `-eo` sets aside both of the script's. Stated paths get their folder here, and
//! have to fit with it.

ghost use Rattle.std.specs.Prelude.{◌≡◌, ◌≤◌, length, codes, IfOk};
ghost use Rattle.nqs_types.specs.Scripts.{longest_script};
ghost use Rattle.nqs_rules.specs.Step.{within};
ghost use Rattle.nqs_qsub.specs.Tokens.{fault_at};
ghost use Rattle.nqs_qsub.specs.Qsub.{has_error, merged, fits, fitted, both_options, qsub_options, path_text, job, submission};
ghost use Rattle.nqs_qsub.specs.Qsub.{ReadsQsub};
ghost use Rattle.nqs_qsub.specs.Law.{Answers};

use crate::options::{Options, no_options};
use crate::reading::read_words;
use crate::script::script_options;
use crate::token::{Source, Stated, fault_at, text_of};
use nqs_base::{Bytes, Memory, Name};
use nqs_types::{Job, LONGEST_SCRIPT, Limits, Submission, WordsCause, WordsFault};
use std::alloc::Global;

// How many bytes a script has at most.
const LONGEST: usize = LONGEST_SCRIPT as usize;

fn has_error(options: &Options) -> bool
    ensures { result ≡ has_error options.now }
{
    options.error.is_some() || options.join
}

fn error_path(command: &Options, script: &Options) -> Option<Stated>
    ensures { result ≡ (merged command.now script.now).error }
{
    if has_error(command) {
        return command.error;
    }
    script.error
}

fn joins(command: &Options, script: &Options) -> bool
    ensures { result ≡ (merged command.now script.now).join }
{
    if has_error(command) {
        return command.join;
    }
    script.join
}

// The command's options, and the script's where the command has none.
fn merged(command: &Options, script: &Options) -> Options
    ensures { result ≡ merged command.now script.now }
{
    Options {
        queue: command.queue.or(script.queue),
        priority: command.priority.or(script.priority),
        job_name: command.job_name.or(script.job_name),
        earliest: command.earliest.or(script.earliest),
        out: command.out.or(script.out),
        error: error_path(command, script),
        join: joins(command, script),
        no_rerun: command.no_rerun || script.no_rerun,
        cpu: command.cpu.or(script.cpu),
        memory: command.memory.or(script.memory),
        forms: command.forms.or(script.forms),
        folder: command.folder.or(script.folder),
    }
}

// How many bytes a path has in that folder, where there is one.
fn length_within(folder: Option<Name>, path: &[u8]) -> usize
    ensures { result ≡ length (within folder path.now) }
{
    match folder {
        Some(folder) => folder.as_bytes().len() + 1 + path.len(),
        None => path.len(),
    }
}

// That a stated path fits into its folder.
fn fits(
    words: &[Bytes],
    script: &[u8],
    folder: Option<Name>,
    path: Option<Stated>,
) -> Result<(), WordsFault>
    ensures { result ≡ fits words.now script.now folder path }
{
    let Some(path) = path else {
        return Ok(());
    };
    if length_within(folder, text_of(words, script, path.at)) <= 255 {
        return Ok(());
    }
    Err(fault_at(path.line, path.number, WordsCause::BadPath))
}

// The options, where both paths do.
#[tactic(auto, unfolding(crate::specs::Qsub::fitted))]
fn fitted(words: &[Bytes], script: &[u8], options: &Options) -> Result<Options, WordsFault>
    ensures { result ≡ fitted words.now script.now options.now }
{
    fits(words, script, options.folder, options.out)?;
    fits(words, script, options.folder, options.error)?;
    Ok(*options)
}

#[tactic(auto, unfolding(crate::specs::Qsub::both_options))]
fn both_options(words: &[Bytes], script: &[u8]) -> Result<Options, WordsFault>
    requires { length script.now ≤ longest_script }
    ensures { result ≡ both_options words.now script.now }
{
    let command = read_words(13, Source::Command, words, b"", 0, 1, 0, no_options())?;
    let scripted = script_options(script)?;
    let both = merged(&command, &scripted);
    // The proof needs the type of its fields.
    let _folder = both.folder;
    fitted(words, script, &both)
}

#[tactic(auto, unfolding(crate::specs::Qsub::qsub_options))]
fn qsub_options(words: &[Bytes], script: &[u8]) -> Result<Options, WordsFault>
    ensures { result ≡ qsub_options words.now script.now }
{
    if script.len() > LONGEST {
        return Err(fault_at(0, 0, WordsCause::ScriptTooLong));
    }
    both_options(words, script)
}

// The path in that folder, where there is one.
fn within(alloc: Global, folder: Option<Name>, path: &[u8]) -> Result<Vec<u8>, Memory>
    ensures { IfOk result (λ bytes. bytes.items ≡ within folder path.now) }
{
    let Some(folder) = folder else {
        return Ok(Vec::from_slice(alloc, path)?);
    };
    let mut bytes = Vec::from_slice(alloc, folder.as_bytes())?;
    bytes.push(b'/')?;
    bytes.extend_from_slice(path)?;
    Ok(bytes)
}

// A path, in the folder where there is one; none is empty.
fn path_text(
    alloc: Global,
    words: &[Bytes],
    script: &[u8],
    folder: Option<Name>,
    path: Option<Stated>,
) -> Result<Bytes, Memory>
    ensures { IfOk result (λ bytes. bytes ≡ path_text words.now script.now folder path) }
{
    let Some(path) = path else {
        return Ok(Bytes::new(alloc));
    };
    let bytes = within(alloc, folder, text_of(words, script, path.at))?;
    Ok(Bytes::from_vec(bytes))
}

fn job_name() -> Name
    ensures { result ≡ codes "STDIN" }
{
    match Name::read(b"STDIN") {
        Ok(name) => name,
        Err(_) => unreachable!(),
    }
}

fn job(
    alloc: Global,
    user: &Name,
    words: &[Bytes],
    script: &[u8],
    options: &Options,
) -> Result<Job, Memory>
    ensures { IfOk result (λ j. j ≡ job user.now words.now script.now options.now) }
{
    let out = path_text(alloc, words, script, options.folder, options.out)?;
    let err = path_text(alloc, words, script, options.folder, options.error)?;
    Ok(Job {
        name: options.job_name.unwrap_or(job_name()),
        owner: *user,
        priority: options.priority.unwrap_or(31),
        earliest: options.earliest.unwrap_or(0),
        rerun: !options.no_rerun,
        limits: Limits {
            cpu: options.cpu,
            memory: options.memory,
        },
        forms: options.forms,
        out,
        err,
        join: options.join,
    })
}

// The submission, which keeps the script.
fn submission(
    alloc: Global,
    user: &Name,
    words: &[Bytes],
    script: Bytes,
    options: &Options,
) -> Result<Submission, Memory>
    ensures { IfOk result (λ s. s ≡ submission user.now words.now script options.now) }
{
    let job = job(alloc, user, words, script.as_slice(), options)?;
    Ok(Submission {
        queue: options.queue,
        folder: options.folder,
        job,
        script,
    })
}

// The submission, which keeps a copy of the script.
fn copied(
    alloc: Global,
    user: &Name,
    words: &[Bytes],
    script: &[u8],
    options: &Options,
) -> Result<Submission, Memory>
    ensures { IfOk result (λ s. s ≡ submission user.now words.now script.now options.now) }
{
    let kept = Vec::from_slice(alloc, script)?;
    submission(alloc, user, words, Bytes::from_vec(kept), options)
}

fn read_submission(
    alloc: Global,
    user: &Name,
    words: &[Bytes],
    script: &[u8],
) -> Result<Result<Submission, WordsFault>, Memory>
    ensures { IfOk result (λ read. ReadsQsub user.now words.now script.now read) }
{
    let options = match qsub_options(words, script) {
        Ok(options) => options,
        Err(fault) => return Ok(Err(fault)),
    };
    match copied(alloc, user, words, script, &options) {
        Ok(submission) => Ok(Ok(submission)),
        Err(memory) => Err(memory),
    }
}

fn read_keeping(
    alloc: Global,
    user: &Name,
    words: &[Bytes],
    script: Bytes,
) -> Result<Result<Submission, WordsFault>, Memory>
    ensures { IfOk result (λ read. ReadsQsub user.now words.now script read) }
{
    let options = match qsub_options(words, script.as_slice()) {
        Ok(options) => options,
        Err(fault) => return Ok(Err(fault)),
    };
    match submission(alloc, user, words, script, &options) {
        Ok(submission) => Ok(Ok(submission)),
        Err(memory) => Err(memory),
    }
}

/// The submission of this user by these words and this script, or the first fault. A script above
/// 1,048,576 bytes is `ScriptTooLong` at word 0, before all else; then come the command's words, then
/// the script's lines, then paths that have over 255 bytes with the folder before them. Default
/// paths of outputs are empty. Memory is taken for the paths and the script alone, so a fault is
/// found without any.
pub fn read_qsub(
    alloc: Global,
    user: &Name,
    words: &[Bytes],
    script: &[u8],
) -> Result<Result<Submission, WordsFault>, Memory>
    ensures read { IfOk result (λ read. ReadsQsub user.now words.now script.now read) }
    ensures answers { IfOk result (λ read. Answers user.now words.now script.now read) }
{
    read_submission(alloc, user, words, script)
}

/// The same of a script that the submission keeps: memory is taken for the paths alone.
pub fn read_qsub_of(
    alloc: Global,
    user: &Name,
    words: &[Bytes],
    script: Bytes,
) -> Result<Result<Submission, WordsFault>, Memory>
    ensures read { IfOk result (λ read. ReadsQsub user.now words.now script read) }
    ensures answers { IfOk result (λ read. Answers user.now words.now script read) }
{
    read_keeping(alloc, user, words, script)
}
