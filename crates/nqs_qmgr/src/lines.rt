//! The lines by their keywords: a function for each verb, with an arm for each second keyword that
//! it has. Which these are, and what stands from there on, is the table of specs/Lines.antt.
#![tactic(auto, unfolding(crate::specs::Lines::read_shape, crate::specs::Lines::shape_of, crate::specs::Lines::table))]

ghost use Rattle.std.specs.Prelude.{◌≡◌, length};
ghost use Rattle.nqs_types.specs.declared.event.Command.TheVariants as command;
ghost use Rattle.nqs_words.specs.declared.keyword.Keyword.TheVariants as k;
ghost use Rattle.nqs_qmgr.specs.Heads.{FitsLine};
ghost use Rattle.nqs_qmgr.specs.Shapes.{alone};
ghost use Rattle.nqs_qmgr.specs.Lines.{shape_of, read_shape, after_verb, qmgr_line};
ghost use Rattle.nqs_qmgr.specs.Law.{Answers};

use crate::edits::{of_access, of_conf, of_devices, of_limits, of_rows};
use crate::head::{Head, bare, head_at};
use crate::nouns::{PIPE_WORDS, QUEUE_WORDS, nouns, verbs};
use crate::shape::{
    read_alone, read_dest_and_name, read_limit_and_name, read_made_queue, read_name_and_forms,
    read_name_value, read_number, read_number_and_name, read_one_name, read_one_request,
    read_request_and_name, read_request_and_priority, read_two_names,
};
use crate::value::Amount;
use nqs_types::{AccessEdit, Command, ConfEdit, DevicesEdit, GrammarFault, LimitsEdit, RowsEdit};
use nqs_words::Keyword;

fn create_batch_queue(line: &[u8], head: Head) -> Result<Command, GrammarFault>
    requires { FitsLine line.now head }
    ensures { result ≡ read_shape (shape_of k.Create k.BatchQueue) line.now head }
{
    let (queue, settings) = read_made_queue(line, head, QUEUE_WORDS.as_slice())?;
    Ok(of_conf(ConfEdit::CreateBatchQueue {
        queue,
        priority: settings.priority,
        run_limit: settings.run_limit,
        pipe_only: settings.pipe_only,
    }))
}

fn create_device_queue(line: &[u8], head: Head) -> Result<Command, GrammarFault>
    requires { FitsLine line.now head }
    ensures { result ≡ read_shape (shape_of k.Create k.DeviceQueue) line.now head }
{
    let (queue, settings) = read_made_queue(line, head, QUEUE_WORDS.as_slice())?;
    Ok(of_conf(ConfEdit::CreateDeviceQueue {
        queue,
        priority: settings.priority,
        run_limit: settings.run_limit,
        pipe_only: settings.pipe_only,
    }))
}

fn create_pipe_queue(line: &[u8], head: Head) -> Result<Command, GrammarFault>
    requires { FitsLine line.now head }
    ensures { result ≡ read_shape (shape_of k.Create k.PipeQueue) line.now head }
{
    let (queue, settings) = read_made_queue(line, head, PIPE_WORDS.as_slice())?;
    Ok(of_conf(ConfEdit::CreatePipeQueue {
        queue,
        priority: settings.priority,
        run_limit: settings.run_limit,
        pipe_only: settings.pipe_only,
        destination: settings.destination,
    }))
}

fn create_line(line: &[u8], head: Head) -> Result<Command, GrammarFault>
    requires { FitsLine line.now head }
    ensures { result ≡ read_shape (shape_of k.Create head.keyword) line.now head }
{
    match head.keyword {
        Keyword::BatchQueue => create_batch_queue(line, head),
        Keyword::DeviceQueue => create_device_queue(line, head),
        Keyword::PipeQueue => create_pipe_queue(line, head),
        Keyword::Complex => {
            let complex = read_one_name(line, head)?;
            Ok(of_limits(LimitsEdit::CreateComplex { complex }))
        }
        Keyword::Device => {
            let (device, forms) = read_name_and_forms(line, head)?;
            Ok(of_devices(DevicesEdit::CreateDevice { device, forms }))
        }
        _ => Err(GrammarFault::UnknownWord(head.word.start as u64)),
    }
}

fn delete_line(line: &[u8], head: Head) -> Result<Command, GrammarFault>
    requires { FitsLine line.now head }
    ensures { result ≡ read_shape (shape_of k.Delete head.keyword) line.now head }
{
    match head.keyword {
        Keyword::Queue => {
            let queue = read_one_name(line, head)?;
            Ok(of_conf(ConfEdit::DeleteQueue { queue }))
        }
        Keyword::Complex => {
            let complex = read_one_name(line, head)?;
            Ok(of_limits(LimitsEdit::DeleteComplex { complex }))
        }
        Keyword::Device => {
            let device = read_one_name(line, head)?;
            Ok(of_devices(DevicesEdit::DeleteDevice { device }))
        }
        Keyword::Request => {
            let id = read_one_request(line, head)?;
            Ok(Command::Delete { id, kill: true })
        }
        _ => Err(GrammarFault::UnknownWord(head.word.start as u64)),
    }
}

fn enable_line(line: &[u8], head: Head) -> Result<Command, GrammarFault>
    requires { FitsLine line.now head }
    ensures { result ≡ read_shape (shape_of k.Enable head.keyword) line.now head }
{
    match head.keyword {
        Keyword::Queue => {
            let queue = read_one_name(line, head)?;
            Ok(of_conf(ConfEdit::EnableQueue { queue }))
        }
        Keyword::Device => {
            let device = read_one_name(line, head)?;
            Ok(of_devices(DevicesEdit::EnableDevice { device }))
        }
        _ => Err(GrammarFault::UnknownWord(head.word.start as u64)),
    }
}

fn disable_line(line: &[u8], head: Head) -> Result<Command, GrammarFault>
    requires { FitsLine line.now head }
    ensures { result ≡ read_shape (shape_of k.Disable head.keyword) line.now head }
{
    match head.keyword {
        Keyword::Queue => {
            let queue = read_one_name(line, head)?;
            Ok(of_conf(ConfEdit::DisableQueue { queue }))
        }
        Keyword::Device => {
            let device = read_one_name(line, head)?;
            Ok(of_devices(DevicesEdit::DisableDevice { device }))
        }
        _ => Err(GrammarFault::UnknownWord(head.word.start as u64)),
    }
}

fn set_complex_limit(line: &[u8], head: Head) -> Result<Command, GrammarFault>
    requires { FitsLine line.now head }
    ensures { result ≡ read_shape (shape_of k.Set k.ComplexLimit) line.now head }
{
    let (limit, complex) = read_number_and_name(line, head, 0, 10_000)?;
    Ok(of_limits(LimitsEdit::SetComplexLimit { limit, complex }))
}

fn set_global_limit(line: &[u8], head: Head) -> Result<Command, GrammarFault>
    requires { FitsLine line.now head }
    ensures { result ≡ read_shape (shape_of k.Set k.GlobalLimit) line.now head }
{
    let limit = read_number(line, head, 0, 10_000)?;
    Ok(of_limits(LimitsEdit::SetGlobalLimit { limit }))
}

fn set_forms(line: &[u8], head: Head) -> Result<Command, GrammarFault>
    requires { FitsLine line.now head }
    ensures { result ≡ read_shape (shape_of k.Set k.Forms) line.now head }
{
    let (forms, device) = read_two_names(line, head)?;
    Ok(of_devices(DevicesEdit::SetForms { forms, device }))
}

fn set_unrestricted_access(line: &[u8], head: Head) -> Result<Command, GrammarFault>
    requires { FitsLine line.now head }
    ensures { result ≡ read_shape (shape_of k.Set k.UnrestrictedAccess) line.now head }
{
    let queue = read_one_name(line, head)?;
    Ok(of_access(AccessEdit::SetUnrestrictedAccess { queue }))
}

fn set_no_access(line: &[u8], head: Head) -> Result<Command, GrammarFault>
    requires { FitsLine line.now head }
    ensures { result ≡ read_shape (shape_of k.Set k.NoAccess) line.now head }
{
    let queue = read_one_name(line, head)?;
    Ok(of_access(AccessEdit::SetNoAccess { queue }))
}

fn set_default_queue(line: &[u8], head: Head) -> Result<Command, GrammarFault>
    requires { FitsLine line.now head }
    ensures { result ≡ read_shape (shape_of k.Set k.DefaultQueue) line.now head }
{
    let queue = read_name_value(line, head)?;
    Ok(of_conf(ConfEdit::SetDefaultQueue { queue }))
}

fn set_no_default_queue(line: &[u8], head: Head) -> Result<Command, GrammarFault>
    requires { FitsLine line.now head }
    ensures { result ≡ read_shape (shape_of k.Set k.NoDefaultQueue) line.now head }
{
    read_alone(line, head)?;
    Ok(of_conf(ConfEdit::SetNoDefaultQueue))
}

fn set_patience(line: &[u8], head: Head) -> Result<Command, GrammarFault>
    requires { FitsLine line.now head }
    ensures { result ≡ read_shape (shape_of k.Set k.Patience) line.now head }
{
    let seconds = read_number(line, head, 1, 86_400)?;
    Ok(of_conf(ConfEdit::SetPatience { seconds }))
}

fn set_retry_wait(line: &[u8], head: Head) -> Result<Command, GrammarFault>
    requires { FitsLine line.now head }
    ensures { result ≡ read_shape (shape_of k.Set k.RetryWait) line.now head }
{
    let seconds = read_number(line, head, 1, 86_400)?;
    Ok(of_conf(ConfEdit::SetRetryWait { seconds }))
}

fn set_line(line: &[u8], head: Head) -> Result<Command, GrammarFault>
    requires { FitsLine line.now head }
    ensures { result ≡ read_shape (shape_of k.Set head.keyword) line.now head }
{
    match head.keyword {
        Keyword::Priority => {
            let (priority, queue) = read_number_and_name(line, head, 0, 63)?;
            Ok(of_conf(ConfEdit::SetPriority { priority, queue }))
        }
        Keyword::RunLimit => {
            let (limit, queue) = read_number_and_name(line, head, 0, 10_000)?;
            Ok(of_conf(ConfEdit::SetRunLimit { limit, queue }))
        }
        Keyword::UserLimit => {
            let (limit, queue) = read_limit_and_name(line, head, Amount::Count)?;
            Ok(of_limits(LimitsEdit::SetUserLimit { limit, queue }))
        }
        Keyword::CpuLimit => {
            let (limit, queue) = read_limit_and_name(line, head, Amount::Time)?;
            Ok(of_limits(LimitsEdit::SetCpuLimit { limit, queue }))
        }
        Keyword::MemoryLimit => {
            let (limit, queue) = read_limit_and_name(line, head, Amount::Size)?;
            Ok(of_limits(LimitsEdit::SetMemoryLimit { limit, queue }))
        }
        Keyword::ComplexLimit => set_complex_limit(line, head),
        Keyword::GlobalLimit => set_global_limit(line, head),
        Keyword::Forms => set_forms(line, head),
        Keyword::UnrestrictedAccess => set_unrestricted_access(line, head),
        Keyword::NoAccess => set_no_access(line, head),
        Keyword::DefaultQueue => set_default_queue(line, head),
        Keyword::NoDefaultQueue => set_no_default_queue(line, head),
        Keyword::Patience => set_patience(line, head),
        Keyword::RetryWait => set_retry_wait(line, head),
        _ => Err(GrammarFault::UnknownWord(head.word.start as u64)),
    }
}

fn add_line(line: &[u8], head: Head) -> Result<Command, GrammarFault>
    requires { FitsLine line.now head }
    ensures { result ≡ read_shape (shape_of k.Add head.keyword) line.now head }
{
    match head.keyword {
        Keyword::Destination => {
            let (destination, queue) = read_dest_and_name(line, head)?;
            Ok(of_conf(ConfEdit::AddDestination { destination, queue }))
        }
        Keyword::Queue => {
            let (queue, complex) = read_two_names(line, head)?;
            Ok(of_limits(LimitsEdit::AddQueue { queue, complex }))
        }
        Keyword::Device => {
            let (device, queue) = read_two_names(line, head)?;
            Ok(of_devices(DevicesEdit::AddDevice { device, queue }))
        }
        Keyword::User => {
            let (user, queue) = read_two_names(line, head)?;
            Ok(of_access(AccessEdit::AddUser { user, queue }))
        }
        Keyword::Manager => {
            let user = read_name_value(line, head)?;
            Ok(of_access(AccessEdit::AddManager { user }))
        }
        Keyword::Operator => {
            let user = read_name_value(line, head)?;
            Ok(of_access(AccessEdit::AddOperator { user }))
        }
        _ => Err(GrammarFault::UnknownWord(head.word.start as u64)),
    }
}

fn remove_line(line: &[u8], head: Head) -> Result<Command, GrammarFault>
    requires { FitsLine line.now head }
    ensures { result ≡ read_shape (shape_of k.Remove head.keyword) line.now head }
{
    match head.keyword {
        Keyword::Destination => {
            let (destination, queue) = read_dest_and_name(line, head)?;
            Ok(of_conf(ConfEdit::RemoveDestination { destination, queue }))
        }
        Keyword::Queue => {
            let (queue, complex) = read_two_names(line, head)?;
            Ok(of_limits(LimitsEdit::RemoveQueue { queue, complex }))
        }
        Keyword::Device => {
            let (device, queue) = read_two_names(line, head)?;
            Ok(of_devices(DevicesEdit::RemoveDevice { device, queue }))
        }
        Keyword::User => {
            let (user, queue) = read_two_names(line, head)?;
            Ok(of_access(AccessEdit::RemoveUser { user, queue }))
        }
        Keyword::Manager => {
            let user = read_name_value(line, head)?;
            Ok(of_access(AccessEdit::RemoveManager { user }))
        }
        Keyword::Operator => {
            let user = read_name_value(line, head)?;
            Ok(of_access(AccessEdit::RemoveOperator { user }))
        }
        _ => Err(GrammarFault::UnknownWord(head.word.start as u64)),
    }
}

#[tactic(auto, unfolding(crate::specs::Lines::read_shape))]
fn show_list(line: &[u8], head: Head, code: u8) -> Result<Command, GrammarFault>
    requires { FitsLine line.now head }
    ensures { result ≡ read_shape (alone (command.Show code)) line.now head }
{
    read_alone(line, head)?;
    Ok(Command::Show(code))
}

fn show_line(line: &[u8], head: Head) -> Result<Command, GrammarFault>
    requires { FitsLine line.now head }
    ensures { result ≡ read_shape (shape_of k.Show head.keyword) line.now head }
{
    match head.keyword {
        Keyword::Queues => show_list(line, head, 48),
        Keyword::Devices => show_list(line, head, 49),
        Keyword::Complexes => show_list(line, head, 50),
        Keyword::Managers => show_list(line, head, 51),
        Keyword::Parameters => show_list(line, head, 52),
        Keyword::Why => {
            let id = read_one_request(line, head)?;
            Ok(Command::Why(id))
        }
        _ => Err(GrammarFault::UnknownWord(head.word.start as u64)),
    }
}

fn start_line(line: &[u8], head: Head) -> Result<Command, GrammarFault>
    requires { FitsLine line.now head }
    ensures { result ≡ read_shape (shape_of k.Start head.keyword) line.now head }
{
    match head.keyword {
        Keyword::Queue => {
            let queue = read_one_name(line, head)?;
            Ok(of_conf(ConfEdit::StartQueue { queue }))
        }
        _ => Err(GrammarFault::UnknownWord(head.word.start as u64)),
    }
}

fn stop_line(line: &[u8], head: Head) -> Result<Command, GrammarFault>
    requires { FitsLine line.now head }
    ensures { result ≡ read_shape (shape_of k.Stop head.keyword) line.now head }
{
    match head.keyword {
        Keyword::Queue => {
            let queue = read_one_name(line, head)?;
            Ok(of_conf(ConfEdit::StopQueue { queue }))
        }
        _ => Err(GrammarFault::UnknownWord(head.word.start as u64)),
    }
}

fn purge_line(line: &[u8], head: Head) -> Result<Command, GrammarFault>
    requires { FitsLine line.now head }
    ensures { result ≡ read_shape (shape_of k.Purge head.keyword) line.now head }
{
    match head.keyword {
        Keyword::Queue => {
            let queue = read_one_name(line, head)?;
            Ok(of_conf(ConfEdit::PurgeQueue { queue }))
        }
        _ => Err(GrammarFault::UnknownWord(head.word.start as u64)),
    }
}

fn abort_line(line: &[u8], head: Head) -> Result<Command, GrammarFault>
    requires { FitsLine line.now head }
    ensures { result ≡ read_shape (shape_of k.Abort head.keyword) line.now head }
{
    match head.keyword {
        Keyword::Queue => {
            let queue = read_one_name(line, head)?;
            Ok(of_rows(RowsEdit::AbortQueue { queue }))
        }
        _ => Err(GrammarFault::UnknownWord(head.word.start as u64)),
    }
}

fn first_line(line: &[u8], head: Head) -> Result<Command, GrammarFault>
    requires { FitsLine line.now head }
    ensures { result ≡ read_shape (shape_of k.First head.keyword) line.now head }
{
    match head.keyword {
        Keyword::Destination => {
            let (destination, queue) = read_dest_and_name(line, head)?;
            Ok(of_conf(ConfEdit::FirstDestination { destination, queue }))
        }
        _ => Err(GrammarFault::UnknownWord(head.word.start as u64)),
    }
}

fn hold_line(line: &[u8], head: Head) -> Result<Command, GrammarFault>
    requires { FitsLine line.now head }
    ensures { result ≡ read_shape (shape_of k.Hold head.keyword) line.now head }
{
    match head.keyword {
        Keyword::Request => {
            let request = read_one_request(line, head)?;
            Ok(of_rows(RowsEdit::HoldRequest { request }))
        }
        _ => Err(GrammarFault::UnknownWord(head.word.start as u64)),
    }
}

fn release_line(line: &[u8], head: Head) -> Result<Command, GrammarFault>
    requires { FitsLine line.now head }
    ensures { result ≡ read_shape (shape_of k.Release head.keyword) line.now head }
{
    match head.keyword {
        Keyword::Request => {
            let request = read_one_request(line, head)?;
            Ok(of_rows(RowsEdit::ReleaseRequest { request }))
        }
        _ => Err(GrammarFault::UnknownWord(head.word.start as u64)),
    }
}

fn move_line(line: &[u8], head: Head) -> Result<Command, GrammarFault>
    requires { FitsLine line.now head }
    ensures { result ≡ read_shape (shape_of k.Move head.keyword) line.now head }
{
    match head.keyword {
        Keyword::Request => {
            let (request, queue) = read_request_and_name(line, head)?;
            Ok(of_rows(RowsEdit::MoveRequest { request, queue }))
        }
        _ => Err(GrammarFault::UnknownWord(head.word.start as u64)),
    }
}

fn modify_line(line: &[u8], head: Head) -> Result<Command, GrammarFault>
    requires { FitsLine line.now head }
    ensures { result ≡ read_shape (shape_of k.Modify head.keyword) line.now head }
{
    match head.keyword {
        Keyword::Request => {
            let (request, priority) = read_request_and_priority(line, head)?;
            Ok(of_rows(RowsEdit::ModifyRequest { request, priority }))
        }
        _ => Err(GrammarFault::UnknownWord(head.word.start as u64)),
    }
}

fn line_of(line: &[u8], head: Head, verb: Keyword) -> Result<Command, GrammarFault>
    requires { FitsLine line.now head }
    ensures { result ≡ read_shape (shape_of verb head.keyword) line.now head }
{
    match verb {
        Keyword::Create => create_line(line, head),
        Keyword::Delete => delete_line(line, head),
        Keyword::Enable => enable_line(line, head),
        Keyword::Disable => disable_line(line, head),
        Keyword::Set => set_line(line, head),
        Keyword::Add => add_line(line, head),
        Keyword::Remove => remove_line(line, head),
        Keyword::Show => show_line(line, head),
        Keyword::Start => start_line(line, head),
        Keyword::Stop => stop_line(line, head),
        Keyword::Purge => purge_line(line, head),
        Keyword::Abort => abort_line(line, head),
        Keyword::First => first_line(line, head),
        Keyword::Hold => hold_line(line, head),
        Keyword::Release => release_line(line, head),
        Keyword::Move => move_line(line, head),
        Keyword::Modify => modify_line(line, head),
        _ => Err(GrammarFault::UnknownWord(head.word.start as u64)),
    }
}

#[tactic(auto, unfolding(crate::specs::Lines::after_verb))]
fn after_verb(line: &[u8], verb: Head) -> Result<Command, GrammarFault>
    requires { FitsLine line.now verb }
    ensures { result ≡ after_verb line.now verb verb.keyword }
{
    if verb.keyword == Keyword::Shutdown {
        read_alone(line, verb)?;
        return Ok(Command::Shutdown);
    }
    let place = bare(line, verb)?;
    let head = head_at(nouns(verb.keyword), line, place)?;
    line_of(line, head, verb.keyword)
}

#[tactic(auto, unfolding(crate::specs::Lines::qmgr_line))]
fn read_line(line: &[u8]) -> Result<Command, GrammarFault>
    ensures { result ≡ qmgr_line line.now }
{
    let verb = head_at(verbs(), line, 0)?;
    after_verb(line, verb)
}

/// What a line says, or its first fault from the left, with its place in bytes. It takes no memory.
pub fn read_qmgr(line: &[u8]) -> Result<Command, GrammarFault>
    ensures read { result ≡ qmgr_line line.now }
    ensures answers { Answers line.now result }
{
    read_line(line)
}
