//! The options of qsub, and what their values say.

ghost use Rattle.std.specs.Prelude.{◌≡◌};
ghost use Rattle.nqs_base.specs.Path.{is_path};
ghost use Rattle.nqs_words.specs.Values.{number_of};
ghost use Rattle.nqs_qsub.specs.declared.token.Place.TheVariants.{InCommand};
ghost use Rattle.nqs_qsub.specs.Tokens.{stated};
ghost use Rattle.nqs_qsub.specs.declared.options.Flag.TheVariants as flag;
ghost use Rattle.nqs_qsub.specs.Options.{flag_of, no_options, is_given, is_both, fresh, takes_value, marked, path_at, valued};

use crate::path::is_path;
use crate::token::Stated;
use nqs_base::Name;
use nqs_types::WordsCause;
use nqs_words::{moment_of, name_of, number_of, size_of, time_of};

/// An option of qsub.
#[derive(Clone, Copy)]
pub enum Flag {
    Queue,
    Priority,
    JobName,
    Earliest,
    Out,
    Error,
    Join,
    NoRerun,
    Cpu,
    Memory,
    Forms,
    Folder,
}

/// The options that were given. A path is named by the word that states it.
#[derive(Clone, Copy)]
pub struct Options {
    pub queue: Option<Name>,
    pub priority: Option<u8>,
    pub job_name: Option<Name>,
    pub earliest: Option<u64>,
    pub out: Option<Stated>,
    pub error: Option<Stated>,
    pub join: bool,
    pub no_rerun: bool,
    pub cpu: Option<u64>,
    pub memory: Option<u64>,
    pub forms: Option<Name>,
    /// The folder in which both paths of outputs stand.
    pub folder: Option<Name>,
}

/// No option.
pub(crate) fn no_options() -> Options
    ensures { result ≡ no_options }
{
    Options {
        queue: None,
        priority: None,
        job_name: None,
        earliest: None,
        out: None,
        error: None,
        join: false,
        no_rerun: false,
        cpu: None,
        memory: None,
        forms: None,
        folder: None,
    }
}

/// The option that a word names.
#[tactic(auto, unfolding(crate::specs::Options::flag_of))]
pub(crate) fn flag_of(bytes: &[u8]) -> Option<Flag>
    ensures { result ≡ flag_of bytes.now }
{
    if b"-q".as_slice() == bytes {
        return Some(Flag::Queue);
    }
    if b"-p".as_slice() == bytes {
        return Some(Flag::Priority);
    }
    if b"-r".as_slice() == bytes {
        return Some(Flag::JobName);
    }
    if b"-a".as_slice() == bytes {
        return Some(Flag::Earliest);
    }
    if b"-o".as_slice() == bytes {
        return Some(Flag::Out);
    }
    if b"-e".as_slice() == bytes {
        return Some(Flag::Error);
    }
    if b"-eo".as_slice() == bytes {
        return Some(Flag::Join);
    }
    if b"-nr".as_slice() == bytes {
        return Some(Flag::NoRerun);
    }
    if b"-lT".as_slice() == bytes {
        return Some(Flag::Cpu);
    }
    if b"-lM".as_slice() == bytes {
        return Some(Flag::Memory);
    }
    if b"-f".as_slice() == bytes {
        return Some(Flag::Forms);
    }
    if b"-do".as_slice() == bytes {
        return Some(Flag::Folder);
    }
    None
}

/// Was the option given?
#[tactic(auto, unfolding(crate::specs::Options::is_given))]
pub(crate) fn is_given(options: &Options, flag: Flag) -> bool
    ensures { result ≡ is_given options.now flag }
{
    match flag {
        Flag::Queue => options.queue.is_some(),
        Flag::Priority => options.priority.is_some(),
        Flag::JobName => options.job_name.is_some(),
        Flag::Earliest => options.earliest.is_some(),
        Flag::Out => options.out.is_some(),
        Flag::Error => options.error.is_some(),
        Flag::Join => options.join,
        Flag::NoRerun => options.no_rerun,
        Flag::Cpu => options.cpu.is_some(),
        Flag::Memory => options.memory.is_some(),
        Flag::Forms => options.forms.is_some(),
        Flag::Folder => options.folder.is_some(),
    }
}

// Is it one of `-e` and `-eo`, and the other was given?
#[tactic(auto, unfolding(crate::specs::Options::is_both))]
fn is_both(options: &Options, flag: Flag) -> bool
    ensures { result ≡ is_both options.now flag }
{
    match flag {
        Flag::Error => options.join,
        Flag::Join => options.error.is_some(),
        _ => false,
    }
}

/// That the option may be given now.
#[tactic(auto, unfolding(crate::specs::Options::fresh))]
pub(crate) fn fresh(options: &Options, flag: Flag) -> Result<(), WordsCause>
    ensures { result ≡ fresh options.now flag }
{
    if is_given(options, flag) {
        return Err(WordsCause::Repeated);
    }
    if is_both(options, flag) {
        return Err(WordsCause::Both);
    }
    Ok(())
}

/// Does the option take a value?
#[tactic(auto, unfolding(crate::specs::Options::takes_value))]
pub(crate) fn takes_value(flag: Flag) -> bool
    ensures { result ≡ takes_value flag }
{
    match flag {
        Flag::Join => false,
        Flag::NoRerun => false,
        _ => true,
    }
}

/// The options with one that takes no value.
#[tactic(auto, unfolding(crate::specs::Options::marked))]
pub(crate) fn marked(options: Options, flag: Flag) -> Options
    ensures { result ≡ marked options flag }
{
    match flag {
        Flag::Join => Options {
            join: true,
            ..options
        },
        Flag::NoRerun => Options {
            no_rerun: true,
            ..options
        },
        _ => options,
    }
}

fn path_at(text: &[u8], at: Stated) -> Option<Stated>
    ensures { result ≡ path_at text.now at }
{
    if is_path(text) { Some(at) } else { None }
}

fn priority_of(text: &[u8]) -> Option<u8>
    ensures { result ≡ number_of 0 63 text.now }
{
    match number_of(0, 63, text) {
        Some(number) => Some(number as u8),
        None => None,
    }
}

#[tactic(auto, unfolding(crate::specs::Options::valued))]
fn with_queue(options: Options, text: &[u8]) -> Result<Options, WordsCause>
    ensures { result ≡ valued options flag.Queue text.now (stated (InCommand 0) 0 0) }
{
    match name_of(text) {
        Some(queue) => Ok(Options {
            queue: Some(queue),
            ..options
        }),
        None => Err(WordsCause::BadName),
    }
}

#[tactic(auto, unfolding(crate::specs::Options::valued))]
fn with_priority(options: Options, text: &[u8]) -> Result<Options, WordsCause>
    ensures { result ≡ valued options flag.Priority text.now (stated (InCommand 0) 0 0) }
{
    match priority_of(text) {
        Some(priority) => Ok(Options {
            priority: Some(priority),
            ..options
        }),
        None => Err(WordsCause::BadNumber),
    }
}

#[tactic(auto, unfolding(crate::specs::Options::valued))]
fn with_job_name(options: Options, text: &[u8]) -> Result<Options, WordsCause>
    ensures { result ≡ valued options flag.JobName text.now (stated (InCommand 0) 0 0) }
{
    match name_of(text) {
        Some(job_name) => Ok(Options {
            job_name: Some(job_name),
            ..options
        }),
        None => Err(WordsCause::BadName),
    }
}

#[tactic(auto, unfolding(crate::specs::Options::valued))]
fn with_earliest(options: Options, text: &[u8]) -> Result<Options, WordsCause>
    ensures { result ≡ valued options flag.Earliest text.now (stated (InCommand 0) 0 0) }
{
    match moment_of(text) {
        Some(earliest) => Ok(Options {
            earliest: Some(earliest),
            ..options
        }),
        None => Err(WordsCause::BadMoment),
    }
}

#[tactic(auto, unfolding(crate::specs::Options::valued))]
fn with_out(options: Options, text: &[u8], at: Stated) -> Result<Options, WordsCause>
    ensures { result ≡ valued options flag.Out text.now at }
{
    match path_at(text, at) {
        Some(out) => Ok(Options {
            out: Some(out),
            ..options
        }),
        None => Err(WordsCause::BadPath),
    }
}

#[tactic(auto, unfolding(crate::specs::Options::valued))]
fn with_error(options: Options, text: &[u8], at: Stated) -> Result<Options, WordsCause>
    ensures { result ≡ valued options flag.Error text.now at }
{
    match path_at(text, at) {
        Some(error) => Ok(Options {
            error: Some(error),
            ..options
        }),
        None => Err(WordsCause::BadPath),
    }
}

#[tactic(auto, unfolding(crate::specs::Options::valued))]
fn with_cpu(options: Options, text: &[u8]) -> Result<Options, WordsCause>
    ensures { result ≡ valued options flag.Cpu text.now (stated (InCommand 0) 0 0) }
{
    match time_of(text) {
        Some(cpu) => Ok(Options {
            cpu: Some(cpu),
            ..options
        }),
        None => Err(WordsCause::BadNumber),
    }
}

#[tactic(auto, unfolding(crate::specs::Options::valued))]
fn with_memory(options: Options, text: &[u8]) -> Result<Options, WordsCause>
    ensures { result ≡ valued options flag.Memory text.now (stated (InCommand 0) 0 0) }
{
    match size_of(text) {
        Some(memory) => Ok(Options {
            memory: Some(memory),
            ..options
        }),
        None => Err(WordsCause::BadNumber),
    }
}

#[tactic(auto, unfolding(crate::specs::Options::valued))]
fn with_forms(options: Options, text: &[u8]) -> Result<Options, WordsCause>
    ensures { result ≡ valued options flag.Forms text.now (stated (InCommand 0) 0 0) }
{
    match name_of(text) {
        Some(forms) => Ok(Options {
            forms: Some(forms),
            ..options
        }),
        None => Err(WordsCause::BadName),
    }
}

#[tactic(auto, unfolding(crate::specs::Options::valued))]
fn with_folder(options: Options, text: &[u8]) -> Result<Options, WordsCause>
    ensures { result ≡ valued options flag.Folder text.now (stated (InCommand 0) 0 0) }
{
    match name_of(text) {
        Some(folder) => Ok(Options {
            folder: Some(folder),
            ..options
        }),
        None => Err(WordsCause::BadName),
    }
}

/// The options with one and the text of its value, which that word states.
#[tactic(auto, unfolding(crate::specs::Options::valued))]
pub(crate) fn valued(
    options: Options,
    flag: Flag,
    text: &[u8],
    at: Stated,
) -> Result<Options, WordsCause>
    ensures { result ≡ valued options flag text.now at }
{
    match flag {
        Flag::Queue => with_queue(options, text),
        Flag::Priority => with_priority(options, text),
        Flag::JobName => with_job_name(options, text),
        Flag::Earliest => with_earliest(options, text),
        Flag::Out => with_out(options, text, at),
        Flag::Error => with_error(options, text, at),
        Flag::Cpu => with_cpu(options, text),
        Flag::Memory => with_memory(options, text),
        Flag::Forms => with_forms(options, text),
        Flag::Folder => with_folder(options, text),
        _ => Ok(options),
    }
}
