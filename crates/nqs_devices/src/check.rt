//! Whether an edit of devices is refused.

ghost use Rattle.std.specs.Prelude.{◌≡◌, ◌∷◌, [], not, nat_le, length};
ghost use Rattle.nqs_state.specs.State.{content};
ghost use Rattle.nqs_rules.specs.Causes.{cause, first_refusal};
ghost use Rattle.nqs_rules.specs.Find.{has_device};
ghost use Rattle.nqs_rules.specs.Devices.{device_causes, idle_device_causes, devices_causes, is_device_queue, lists_device};

use crate::free::is_busy;
use nqs_base::{Name, has_name};
use nqs_state::HostState;
use nqs_types::{DevicesEdit, Kind, QueueDef, Refusal};

fn check_device(state: &HostState, device: &Name) -> Result<(), Refusal>
    ensures { result ≡ first_refusal (device_causes device.now (content state.now)) }
{
    if !state.devices.has(device) {
        return Err(Refusal::NoDevice(*device));
    }
    Ok(())
}

fn check_idle(state: &HostState, device: &Name) -> Result<(), Refusal>
    ensures { result ≡ first_refusal (idle_device_causes device.now (content state.now)) }
{
    check_device(state, device)?;
    if is_busy(state, device) {
        return Err(Refusal::DeviceBusy(*device));
    }
    Ok(())
}

fn check_create(state: &HostState, device: &Name) -> Result<(), Refusal>
    ensures { result ≡ first_refusal (cause (has_device device.now (content state.now)) (Refusal.DeviceExists device.now)
        ∷ cause (nat_le 64 (length state.now.devices.items)) Refusal.TooMany ∷ []) }
{
    if state.devices.has(device) {
        return Err(Refusal::DeviceExists(*device));
    }
    if state.devices.len() >= 64 {
        return Err(Refusal::TooMany);
    }
    Ok(())
}

// Whether the queue takes one more device.
fn check_kind(queue: &QueueDef, device: &Name) -> Result<(), Refusal>
    ensures { result ≡ first_refusal (cause (not (is_device_queue queue.now)) Refusal.WrongKind ∷ cause (lists_device device.now queue.now) Refusal.IsMember
        ∷ []) }
{
    if queue.kind != Kind::Device {
        return Err(Refusal::WrongKind);
    }
    if has_name(queue.devices.as_slice(), device) {
        return Err(Refusal::IsMember);
    }
    Ok(())
}

fn check_add(state: &HostState, device: &Name, queue: &Name) -> Result<(), Refusal>
    ensures { result ≡ first_refusal (devices_causes (DevicesEdit.AddDevice device.now queue.now) (content state.now)) }
{
    check_device(state, device)?;
    match state.queues.get(queue) {
        Some(def) => check_kind(def, device),
        None => Err(Refusal::NoQueue(*queue)),
    }
}

// Whether the device is one of the queue's.
fn check_member(queue: &QueueDef, device: &Name) -> Result<(), Refusal>
    ensures { result ≡ first_refusal (cause (not (lists_device device.now queue.now)) Refusal.NotMember ∷ []) }
{
    if !has_name(queue.devices.as_slice(), device) {
        return Err(Refusal::NotMember);
    }
    Ok(())
}

fn check_remove(state: &HostState, device: &Name, queue: &Name) -> Result<(), Refusal>
    ensures { result ≡ first_refusal (devices_causes (DevicesEdit.RemoveDevice device.now queue.now) (content state.now)) }
{
    match state.queues.get(queue) {
        Some(def) => check_member(def, device),
        None => Err(Refusal::NoQueue(*queue)),
    }
}

/// Whether an edit of devices may be made: `Ok`, or the first of these that holds. A device that is
/// created: `DeviceExists`, `TooMany` at 64; one that is named: `NoDevice`; one that is deleted or
/// gets other forms: then `DeviceBusy`. A device that is added to a queue: `NoDevice`, `NoQueue`,
/// `WrongKind` for all but device queues, `IsMember`; one that is removed from it: `NoQueue`,
/// `NotMember`. A busy device may be disabled, and removed.
pub fn check_devices(state: &HostState, edit: &DevicesEdit) -> Result<(), Refusal>
    ensures { result ≡ first_refusal (devices_causes edit.now (content state.now)) }
{
    match edit {
        DevicesEdit::CreateDevice { device, .. } => check_create(state, device),
        DevicesEdit::DeleteDevice { device } => check_idle(state, device),
        DevicesEdit::EnableDevice { device } => check_device(state, device),
        DevicesEdit::DisableDevice { device } => check_device(state, device),
        DevicesEdit::SetForms { device, .. } => check_idle(state, device),
        DevicesEdit::AddDevice { device, queue } => check_add(state, device, queue),
        DevicesEdit::RemoveDevice { device, queue } => check_remove(state, device, queue),
    }
}
