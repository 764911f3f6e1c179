//! The lines of the lists of qmgr.
ghost use Rattle.std.specs.Prelude.{◌≡◌, ◌++◌, ◌∷◌, [], map, find, codes, IfOk, OnOk};
ghost use Rattle.std.specs.Fmt.{decimal};
ghost use Rattle.nqs_state.specs.State.{content};
ghost use Rattle.nqs_rules.specs.Devices.{runs_on};
ghost use Rattle.nqs_rules.specs.Step.{show_lines};
ghost use Rattle.nqs_rules.specs.Text.{kind_text, queue_line, device_line, complex_line, manager_line, operator_line, user_text, default_text, parameter_lines};
ghost use Rattle.nqs_lists.specs.Lists.{spaced};

use crate::words::{either, id_text, joined, six_words, with_names, with_word};
use nqs_base::{Bytes, Items, Memory, Name, bytes_of};
use nqs_devices::runs_on;
use nqs_plans::fold_each;
use nqs_state::HostState;
use nqs_text::digits;
use nqs_types::{ComplexDef, DeviceDef, Kind, QueueDef, Row};
use std::alloc::Global;

fn kind_text(kind: Kind) -> &'static [u8]
    ensures { result.now ≡ kind_text kind }
{
    match kind {
        Kind::Batch => b"batch",
        Kind::Device => b"device",
        Kind::Pipe => b"pipe",
    }
}

fn queue_line(alloc: Global, queue: &QueueDef) -> Result<Bytes, Memory>
    ensures { IfOk result (λ line. line ≡ queue_line queue.now) }
{
    let priority = digits(alloc, u64::from(queue.priority))?;
    let run_limit = digits(alloc, u64::from(queue.run_limit))?;
    six_words(
        bytes_of(alloc, queue.name.as_bytes())?,
        kind_text(queue.kind),
        either(queue.enabled, b"enabled", b"disabled"),
        either(queue.started, b"started", b"stopped"),
        priority.as_slice(),
        run_limit.as_slice(),
    )
}

fn add_queue(alloc: Global, lines: Items<Bytes>, queue: &QueueDef) -> Result<Items<Bytes>, Memory>
    ensures { IfOk result (λ more. more ≡ lines ++ queue_line queue.now ∷ []) }
{
    let mut lines = lines;
    lines.push(queue_line(alloc, queue)?)?;
    Ok(lines)
}

fn queue_lines(alloc: Global, state: &HostState) -> Result<Items<Bytes>, Memory>
    ensures { IfOk result (λ lines. lines ≡ map queue_line state.now.queues.items) }
{
    fold_each(
        Items::new(alloc),
        &state.queues,
        |lines: Items<Bytes>, queue: &QueueDef| add_queue(alloc, lines, queue),
    )
}

// The request that runs on the device, or `free`.
fn user_text(alloc: Global, state: &HostState, device: &Name) -> Result<Bytes, Memory>
    ensures { IfOk result (λ text. text ≡ user_text state.now.site (find (runs_on device.now) state.now.rows.items)) }
{
    let user = state.rows.best(
        |row: &Row| runs_on(row, device),
        |_one: &Row, _other: &Row| false,
    );
    match user {
        Some((_, row)) => id_text(alloc, state.site.as_slice(), row.id),
        None => bytes_of(alloc, b"free"),
    }
}

// A device, and the request that runs on it.
fn device_line(alloc: Global, state: &HostState, device: &DeviceDef) -> Result<Bytes, Memory>
    ensures { IfOk result (λ line. line ≡ device_line (content state.now) device.now) }
{
    let user = user_text(alloc, state, &device.name)?;
    let line = bytes_of(alloc, device.name.as_bytes())?;
    let line = with_word(line, device.forms.as_bytes())?;
    let line = with_word(line, either(device.enabled, b"enabled", b"disabled"))?;
    with_word(line, user.as_slice())
}

fn add_device(
    alloc: Global,
    state: &HostState,
    lines: Items<Bytes>,
    device: &DeviceDef,
) -> Result<Items<Bytes>, Memory>
    ensures { IfOk result (λ more. more ≡ lines ++ device_line (content state.now) device.now ∷ []) }
{
    let mut lines = lines;
    lines.push(device_line(alloc, state, device)?)?;
    Ok(lines)
}

fn device_lines(alloc: Global, state: &HostState) -> Result<Items<Bytes>, Memory>
    ensures { IfOk result (λ lines. lines ≡ map (device_line (content state.now)) state.now.devices.items) }
{
    fold_each(
        Items::new(alloc),
        &state.devices,
        |lines: Items<Bytes>, device: &DeviceDef| add_device(alloc, state, lines, device),
    )
}

// A complex and its limit.
fn complex_head(alloc: Global, complex: &ComplexDef) -> Result<Bytes, Memory>
    ensures { IfOk result (λ line. line ≡ complex.now.name ++ spaced (decimal complex.now.limit)) }
{
    let limit = digits(alloc, u64::from(complex.limit))?;
    with_word(bytes_of(alloc, complex.name.as_bytes())?, limit.as_slice())
}

// A complex, its limit, and its queues.
fn complex_line(alloc: Global, complex: &ComplexDef) -> Result<Bytes, Memory>
    ensures { IfOk result (λ line. line ≡ complex_line complex.now) }
{
    let line = complex_head(alloc, complex)?;
    with_names(line, complex.queues.as_slice())
}

fn add_complex(
    alloc: Global,
    lines: Items<Bytes>,
    complex: &ComplexDef,
) -> Result<Items<Bytes>, Memory>
    ensures { IfOk result (λ more. more ≡ lines ++ complex_line complex.now ∷ []) }
{
    let mut lines = lines;
    lines.push(complex_line(alloc, complex)?)?;
    Ok(lines)
}

fn complex_lines(alloc: Global, state: &HostState) -> Result<Items<Bytes>, Memory>
    ensures { IfOk result (λ lines. lines ≡ map complex_line state.now.complexes.items) }
{
    fold_each(
        Items::new(alloc),
        &state.complexes,
        |lines: Items<Bytes>, complex: &ComplexDef| add_complex(alloc, lines, complex),
    )
}

// The lines, and one for each name, with this ending.
fn add_names(
    alloc: Global,
    lines: &mut Items<Bytes>,
    names: &[Name],
    ending: &[u8],
) -> Result<(), Memory>
    ensures { OnOk result (lines.new ≡ lines.old ++ map (λ name. name ++ ending.now) names.now) }
{
    for name in names {
        lines.push(joined(alloc, name.as_bytes(), ending)?)?;
    }
    Ok(())
}

fn manager_lines(alloc: Global, state: &HostState) -> Result<Items<Bytes>, Memory>
    ensures { IfOk result (λ lines. lines ≡ map manager_line state.now.managers ++ map operator_line state.now.operators) }
{
    let mut lines = Items::new(alloc);
    add_names(alloc, &mut lines, state.managers.as_slice(), b" manager")?;
    add_names(alloc, &mut lines, state.operators.as_slice(), b" operator")?;
    Ok(lines)
}

// A parameter that is a number.
fn number_line(alloc: Global, name: &[u8], number: u64) -> Result<Bytes, Memory>
    ensures { IfOk result (λ line. line ≡ name.now ++ decimal number) }
{
    let number = digits(alloc, number)?;
    joined(alloc, name, number.as_slice())
}

fn default_line(alloc: Global, state: &HostState) -> Result<Bytes, Memory>
    ensures { IfOk result (λ line. line ≡ codes "default_queue " ++ default_text state.now.default_queue) }
{
    match &state.default_queue {
        Some(queue) => joined(alloc, b"default_queue ", queue.as_bytes()),
        None => bytes_of(alloc, b"default_queue none"),
    }
}

fn parameter_lines(alloc: Global, state: &HostState) -> Result<Items<Bytes>, Memory>
    ensures { IfOk result (λ lines. lines ≡ parameter_lines (content state.now)) }
{
    let limit = number_line(alloc, b"global_limit ", u64::from(state.global_limit))?;
    let mut lines = Items::of(alloc, limit)?;
    lines.push(number_line(alloc, b"patience ", state.patience)?)?;
    lines.push(number_line(alloc, b"retry_wait ", state.retry_wait)?)?;
    lines.push(default_line(alloc, state)?)?;
    Ok(lines)
}

/// The lines of a list of qmgr, by the code of its line: 48 queues, 49 devices, 50 complexes, 51
/// managers and operators, 52 parameters. There are none for another code.
pub fn show_lines(alloc: Global, state: &HostState, code: u8) -> Result<Items<Bytes>, Memory>
    ensures { IfOk result (λ lines. lines ≡ show_lines code (content state.now)) }
{
    if code == 48 {
        return queue_lines(alloc, state);
    }
    if code == 49 {
        return device_lines(alloc, state);
    }
    if code == 50 {
        return complex_lines(alloc, state);
    }
    if code == 51 {
        return manager_lines(alloc, state);
    }
    if code == 52 {
        return parameter_lines(alloc, state);
    }
    Ok(Items::new(alloc))
}
