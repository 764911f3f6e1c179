//! What an edit of devices makes of a state.

ghost use Rattle.std.specs.Prelude.{◌≡◌, ◌<◌, false, find, is_ok, IsTrue};
ghost use Rattle.std.specs.List.{list_any};
ghost use Rattle.nqs_state.specs.State.{content};
ghost use Rattle.nqs_state.specs.Keys.{is_device, is_queue};
ghost use Rattle.nqs_state.specs.Room.{devices_of, HasRoomForDevices};
ghost use Rattle.nqs_rules.specs.Causes.{first_refusal};
ghost use Rattle.nqs_rules.specs.Edits.{change_device};
ghost use Rattle.nqs_rules.specs.Devices.{devices_causes, device_edited, without_device, devices_applied};

use nqs_access::drop_name;
use nqs_base::Name;
use nqs_state::HostState;
use nqs_types::{DeviceDef, DevicesEdit, QueueDef};

// What an edit makes of its device.
fn edit_device(def: &mut DeviceDef, edit: &DevicesEdit)
    ensures { def.new ≡ device_edited edit.now def.old }
{
    match edit {
        DevicesEdit::EnableDevice { .. } => def.enabled = true,
        DevicesEdit::DisableDevice { .. } => def.enabled = false,
        DevicesEdit::SetForms { forms, .. } => def.forms = *forms,
        _ => {}
    }
}

fn change_device(state: &mut HostState, device: &Name, edit: &DevicesEdit)
    ensures { content state.new ≡ change_device device.now (device_edited edit.now) (content state.old) }
{
    state
        .devices
        .change(device, |def: &mut DeviceDef| edit_device(def, edit));
}

fn create_device(state: &mut HostState, device: Name, forms: Name)
    requires room { 0 < state.old.devices.spare }
    requires new { list_any (is_device device) state.old.devices.items ≡ false }
    ensures { content state.new ≡ devices_applied (DevicesEdit.CreateDevice device forms) (content state.old) }
{
    state.devices.push(DeviceDef {
        name: device,
        forms,
        enabled: false,
    });
}

fn drop_device(queue: &mut QueueDef, device: &Name)
    ensures { queue.new ≡ without_device device.now queue.old }
{
    drop_name(&mut queue.devices, device);
}

fn delete_device(state: &mut HostState, device: &Name)
    ensures { content state.new ≡ devices_applied (DevicesEdit.DeleteDevice device.now) (content state.old) }
{
    state.devices.remove_key(device);
    state.queues.revise(|_name: &Name, queue: &mut QueueDef| {
        drop_device(queue, device);
        true
    });
}

fn add_device(state: &mut HostState, device: Name, queue: &Name)
    requires room { devices_of (find (is_queue queue.now) state.old.queues.items) < state.old.spare_names }
    ensures { content state.new ≡ devices_applied (DevicesEdit.AddDevice device queue.now) (content state.old) }
{
    let devices = match state.queues.get(queue) {
        Some(def) => state.spare_names.grown(def.devices.as_slice(), device),
        None => return,
    };
    state
        .queues
        .change(queue, |def: &mut QueueDef| def.devices = devices);
}

fn remove_device(state: &mut HostState, device: &Name, queue: &Name)
    ensures { content state.new ≡ devices_applied (DevicesEdit.RemoveDevice device.now queue.now) (content state.old) }
{
    state
        .queues
        .change(queue, |def: &mut QueueDef| drop_device(def, device));
}

/// Makes an edit of devices that `check_devices` lets through, after `HostState::make_room` made
/// room for it. It takes no memory and can't fail. A created device is disabled; a deleted one goes
/// out of each queue's list too.
pub fn apply_devices(state: &mut HostState, edit: DevicesEdit)
    requires check { IsTrue (is_ok (first_refusal (devices_causes edit (content state.old)))) }
    requires room { HasRoomForDevices edit state.old }
    ensures { content state.new ≡ devices_applied edit (content state.old) }
{
    match &edit {
        DevicesEdit::CreateDevice { device, forms } => create_device(state, *device, *forms),
        DevicesEdit::DeleteDevice { device } => delete_device(state, device),
        DevicesEdit::EnableDevice { device } => change_device(state, device, &edit),
        DevicesEdit::DisableDevice { device } => change_device(state, device, &edit),
        DevicesEdit::SetForms { device, .. } => change_device(state, device, &edit),
        DevicesEdit::AddDevice { device, queue } => add_device(state, *device, queue),
        DevicesEdit::RemoveDevice { device, queue } => remove_device(state, device, queue),
    }
}
