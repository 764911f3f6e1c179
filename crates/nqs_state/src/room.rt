//! Room for a change, made before the change is written anywhere, so that making it can't fail for
//! want of memory.

ghost use Rattle.std.specs.Prelude.{◌≡◌, ℕ, ◌<◌, ◌≤◌, OnOk, find, slice_get};
ghost use Rattle.nqs_state.specs.State.{content};
ghost use Rattle.nqs_state.specs.Keys.{is_queue, is_complex, is_row, is_hand};
ghost use Rattle.nqs_state.specs.Room.{HasRoom, HasRoomToClose};
ghost use Rattle.nqs_state.specs.Room.{HasRoomForEdit, HasRoomForConf, HasRoomForLimits, HasRoomForAccess, HasRoomForDevices, users_of, dests_of};
ghost use Rattle.nqs_state.specs.Room.{devices_of, members_of, refusals_of, hand_refusals, closed_of};
ghost use Rattle.nqs_types.specs.declared.ids.PeerNumber.{PeerNumber};

use crate::state::HostState;
use nqs_base::{Memory, Name};
use nqs_types::{
    Access, AccessEdit, Change, ConfEdit, DevicesEdit, Edit, HostId, LimitsEdit, PeerNumber,
    RequestId,
};

impl HostState {
    // How many users the queue's list has.
    fn user_count(&self, queue: &Name) -> usize
        ensures { result ≡ users_of (find (is_queue queue.now) self.now.queues.items) }
    {
        match self.queues.get(queue) {
            Some(def) => match &def.access {
                Access::All => 0,
                Access::Users(users) => users.len(),
            },
            None => 0,
        }
    }

    fn dest_count(&self, queue: &Name) -> usize
        ensures { result ≡ dests_of (find (is_queue queue.now) self.now.queues.items) }
    {
        match self.queues.get(queue) {
            Some(def) => def.dests.len(),
            None => 0,
        }
    }

    fn device_count(&self, queue: &Name) -> usize
        ensures { result ≡ devices_of (find (is_queue queue.now) self.now.queues.items) }
    {
        match self.queues.get(queue) {
            Some(def) => def.devices.len(),
            None => 0,
        }
    }

    fn member_count(&self, complex: &Name) -> usize
        ensures { result ≡ members_of (find (is_complex complex.now) self.now.complexes.items) }
    {
        match self.complexes.get(complex) {
            Some(def) => def.queues.len(),
            None => 0,
        }
    }

    // How many refusals the row has.
    fn refusal_count(&self, id: &RequestId) -> usize
        ensures { result ≡ refusals_of (find (is_row id.now) self.now.rows.items) }
    {
        match self.rows.get(id) {
            Some(row) => row.refused.len(),
            None => 0,
        }
    }

    // How many refusals the row of the hand has.
    fn hand_refusal_count(&self, key: &PeerNumber) -> usize
        ensures { result ≡ hand_refusals (find (is_hand key.now) self.now.hands.items) self.now }
    {
        match self.hands.get(key) {
            Some(hand) => self.refusal_count(&hand.id),
            None => 0,
        }
    }

    // How many closed numbers of the peer are kept apart.
    fn closed_count(&self, peer: HostId) -> usize
        ensures { result ≡ closed_of (slice_get self.now.peers peer.0) }
    {
        match self.peers.as_slice().get(peer.0 as usize) {
            Some(known) => known.closed.len(),
            None => 0,
        }
    }

    // Makes room for one closed number more of the peer.
    fn make_room_to_close(&mut self, peer: HostId) -> Result<(), Memory>
        ensures content { content self.new ≡ content self.old }
        ensures rows { self.new.rows ≡ self.old.rows }
        ensures room { OnOk result (HasRoomToClose peer self.new) }
    {
        let count = self.closed_count(peer);
        self.spare_closed.reserve(count)?;
        Ok(())
    }

    fn make_room_for_conf(&mut self, edit: &ConfEdit) -> Result<(), Memory>
        ensures content { content self.new ≡ content self.old }
        ensures room { OnOk result (HasRoomForConf edit.now self.new) }
    {
        match edit {
            ConfEdit::CreateBatchQueue { .. } => self.queues.reserve(1)?,
            ConfEdit::CreateDeviceQueue { .. } => self.queues.reserve(1)?,
            ConfEdit::CreatePipeQueue { .. } => {
                self.queues.reserve(1)?;
                self.spare_dests.reserve(0)?;
            }
            ConfEdit::AddDestination { queue, .. } => {
                let count = self.dest_count(queue);
                self.spare_dests.reserve(count)?;
            }
            _ => {}
        }
        Ok(())
    }

    fn make_room_for_limits(&mut self, edit: &LimitsEdit) -> Result<(), Memory>
        ensures content { content self.new ≡ content self.old }
        ensures room { OnOk result (HasRoomForLimits edit.now self.new) }
    {
        match edit {
            LimitsEdit::CreateComplex { .. } => self.complexes.reserve(1)?,
            LimitsEdit::AddQueue { complex, .. } => {
                let count = self.member_count(complex);
                self.spare_names.reserve(count)?;
            }
            _ => {}
        }
        Ok(())
    }

    fn make_room_for_access(&mut self, edit: &AccessEdit) -> Result<(), Memory>
        ensures content { content self.new ≡ content self.old }
        ensures room { OnOk result (HasRoomForAccess edit.now self.new) }
    {
        match edit {
            AccessEdit::AddUser { queue, .. } => {
                let count = self.user_count(queue);
                self.spare_names.reserve(count)?;
            }
            AccessEdit::AddManager { .. } => {
                let count = self.managers.len();
                self.spare_names.reserve(count)?;
            }
            AccessEdit::AddOperator { .. } => {
                let count = self.operators.len();
                self.spare_names.reserve(count)?;
            }
            _ => {}
        }
        Ok(())
    }

    fn make_room_for_devices(&mut self, edit: &DevicesEdit) -> Result<(), Memory>
        ensures content { content self.new ≡ content self.old }
        ensures room { OnOk result (HasRoomForDevices edit.now self.new) }
    {
        match edit {
            DevicesEdit::CreateDevice { .. } => self.devices.reserve(1)?,
            DevicesEdit::AddDevice { queue, .. } => {
                let count = self.device_count(queue);
                self.spare_names.reserve(count)?;
            }
            _ => {}
        }
        Ok(())
    }

    fn make_room_for_edit(&mut self, edit: &Edit) -> Result<(), Memory>
        ensures content { content self.new ≡ content self.old }
        ensures room { OnOk result (HasRoomForEdit edit.now self.new) }
    {
        match edit {
            Edit::Conf(edit) => self.make_room_for_conf(edit),
            Edit::Limits(edit) => self.make_room_for_limits(edit),
            Edit::Access(edit) => self.make_room_for_access(edit),
            Edit::Devices(edit) => self.make_room_for_devices(edit),
            Edit::Rows(_) => Ok(()),
        }
    }

    /// Makes room for the change. What the state holds stays as it was, also where there is no
    /// memory.
    pub fn make_room(&mut self, change: &Change) -> Result<(), Memory>
        ensures content { content self.new ≡ content self.old }
        ensures room { OnOk result (HasRoom change.now self.new) }
    {
        match change {
            Change::Submitted { .. } => self.rows.reserve(1)?,
            Change::Ended { outputs, .. } => {
                let count = outputs.len();
                self.files.reserve(count)?;
                self.stages.reserve(count)?;
            }
            Change::Edited(edit) => self.make_room_for_edit(edit)?,
            Change::HandOpened { .. } => self.hands.reserve(1)?,
            Change::HandRefused { peer, number, .. } => {
                let key = PeerNumber {
                    peer: *peer,
                    number: *number,
                };
                let count = self.hand_refusal_count(&key);
                self.spare_refused.reserve(count)?;
            }
            Change::OldPromised { .. } => self.promises.reserve(1)?,
            Change::Promised { .. } => self.promises.reserve(1)?,
            Change::Accepted { peer, .. } => {
                self.rows.reserve(1)?;
                self.make_room_to_close(*peer)?;
            }
            Change::Dropped { peer, .. } => self.make_room_to_close(*peer)?,
            Change::RefusedLocal { id, .. } => {
                let count = self.refusal_count(id);
                self.spare_refused.reserve(count)?;
            }
            Change::StageGot { .. } => self.files.reserve(1)?,
            _ => {}
        }
        Ok(())
    }
}
