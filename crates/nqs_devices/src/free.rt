//! Which device is free.

ghost use Rattle.std.specs.Prelude.{◌≡◌};
ghost use Rattle.std.specs.Option.{option_copied};
ghost use Rattle.nqs_state.specs.State.{content};
ghost use Rattle.nqs_rules.specs.Devices.{same_name_as, has_forms, can_serve, runs_on, is_busy, is_free_device, free_device};

use nqs_base::Name;
use nqs_state::HostState;
use nqs_types::{DeviceDef, QueueDef, Row, RowState};

fn same_name_as(name: &Name, other: Option<Name>) -> bool
    ensures { result ≡ same_name_as name.now other }
{
    match other {
        Some(other) => *name == other,
        None => false,
    }
}

fn has_forms(device: &DeviceDef, forms: Option<&Name>) -> bool
    ensures { result ≡ has_forms (option_copied forms.entry) device.now }
{
    match forms {
        Some(forms) => *forms == device.forms,
        None => true,
    }
}

/// Whether the device is enabled and has the forms, where forms are asked for. Whether it is busy
/// isn't asked.
pub fn can_serve(device: &DeviceDef, forms: Option<&Name>) -> bool
    ensures { result ≡ can_serve (option_copied forms.entry) device.now }
{
    device.enabled && has_forms(device, forms)
}

/// Whether the row runs on the device: a request that waits or is on its way is on none.
pub fn runs_on(row: &Row, device: &Name) -> bool
    ensures { result ≡ runs_on device.now row.now }
{
    row.state == RowState::Running && same_name_as(device, row.device)
}

/// Whether a running request is on the device.
pub fn is_busy(state: &HostState, device: &Name) -> bool
    ensures { result ≡ is_busy device.now (content state.now) }
{
    state.rows.any(|row: &Row| runs_on(row, device))
}

fn is_free_device(state: &HostState, forms: Option<&Name>, device: &Name) -> bool
    ensures { result ≡ is_free_device (option_copied forms.entry) (content state.now) device.now }
{
    match state.devices.get(device) {
        Some(def) => can_serve(def, forms) && !is_busy(state, device),
        None => false,
    }
}

/// The first device of the queue's list that is enabled, not busy and has the forms, where forms
/// are asked for. It is given by its place in that list, from 0. A device that is listed and not
/// there serves nobody.
pub fn free_device(state: &HostState, queue: &QueueDef, forms: Option<&Name>) -> Option<usize>
    ensures { result ≡ free_device queue.now (option_copied forms.entry) (content state.now) }
{
    queue
        .devices
        .as_slice()
        .iter()
        .position(|device| is_free_device(state, forms, device))
}
