//! What each change makes of a host's state. No change takes memory: the room was made before.

ghost use Rattle.std.specs.Prelude.{◌≡◌, IsTrue};
ghost use Rattle.nqs_state.specs.State.{content};
ghost use Rattle.nqs_state.specs.Room.{HasRoom, HasRoomForEdit};
ghost use Rattle.nqs_rules.specs.InOrder.{IsInOrder};
ghost use Rattle.nqs_rules.specs.Sane.{is_sane_change, is_sane_edit};
ghost use Rattle.nqs_rules.specs.Fits.{fits, edit_fits};
ghost use Rattle.nqs_rules.specs.Applied.{edit_applied, applied};

use nqs_access::apply_access;
use nqs_changes::{boot, hands, outputs, promises, rows};
use nqs_conf::apply_conf;
use nqs_devices::apply_devices;
use nqs_limits::apply_limits;
use nqs_routing::note_refusal;
use nqs_rows::apply_rows;
use nqs_state::HostState;
use nqs_types::{Change, Dest, Edit, Hand, PeerNumber, Phase};

// Makes an edit that isn't refused.
fn apply_edit(state: &mut HostState, edit: Edit)
    requires order { IsInOrder (content state.old) }
    requires sane { IsTrue (is_sane_edit edit) }
    requires fits { IsTrue (edit_fits edit (content state.old)) }
    requires room { HasRoomForEdit edit state.old }
    ensures { content state.new ≡ edit_applied edit (content state.old) }
{
    match edit {
        Edit::Conf(edit) => apply_conf(state, edit),
        Edit::Limits(edit) => apply_limits(state, edit),
        Edit::Access(edit) => apply_access(state, edit),
        Edit::Devices(edit) => apply_devices(state, edit),
        Edit::Rows(edit) => apply_rows(state, edit),
    }
}

/// Makes a change that fits the state, after room was made for it. It needs no memory: an index for
/// which there is none is given up.
pub fn apply(state: &mut HostState, change: Change)
    requires order { IsInOrder (content state.old) }
    requires sane { IsTrue (is_sane_change change) }
    requires fits { IsTrue (fits change (content state.old)) }
    requires room { HasRoom change state.old }
    ensures { content state.new ≡ applied change (content state.old) }
{
    match change {
        // It is the first change of a journal, and a state starts from it.
        Change::Site { .. } => {}
        Change::Submitted { queue, job, script } => rows::submitted(state, queue, job, script),
        Change::Deleted(id) => rows::deleted(state, id),
        Change::Doomed(id) => rows::doomed(state, id),
        Change::Started { id, device } => rows::started(state, id, device),
        Change::Ended { id, outputs } => outputs::ended(state, id, outputs),
        Change::Unlaunched(id) => rows::dropped(state, id),
        Change::Boot => boot::booted(state),
        Change::Edited(edit) => apply_edit(state, edit),
        Change::HandOpened {
            peer,
            number,
            id,
            queue,
            since,
        } => {
            let phase = Phase::Offered;
            let hand = Hand {
                peer,
                number,
                id,
                queue,
                since,
                phase,
            };
            hands::opened(state, hand)
        }
        Change::HandCommitted { peer, number } => {
            hands::committed(state, &PeerNumber { peer, number })
        }
        Change::HandRefused {
            peer,
            number,
            cause,
        } => hands::refused(state, &PeerNumber { peer, number }, cause),
        Change::HandsSilent { until, hands } => hands::all_silent(state, hands.as_slice(), until),
        Change::HandDone { peer, number } => hands::done(state, &PeerNumber { peer, number }),
        Change::OldPromised {
            peer,
            number,
            queue,
            carried,
            script,
        } => {
            let key = PeerNumber { peer, number };
            promises::promised(state, key, number, queue, carried, script)
        }
        Change::Promised {
            peer,
            number,
            low,
            queue,
            carried,
            script,
        } => {
            let key = PeerNumber { peer, number };
            promises::promised(state, key, low, queue, carried, script)
        }
        Change::Accepted { peer, number } => {
            promises::accepted(state, &PeerNumber { peer, number })
        }
        Change::Dropped { peer, number } => promises::dropped(state, &PeerNumber { peer, number }),
        Change::MovedLocal { id, queue } => rows::moved(state, id, queue),
        Change::RefusedLocal { id, queue, cause } => {
            let host = state.me;
            note_refusal(state, id, Dest { queue, host }, cause)
        }
        Change::HeldFar(id) => rows::held_far(state, id),
        Change::StageGot {
            peer,
            number,
            path,
            bytes,
        } => outputs::stage_got(state, peer, number, path, bytes),
        Change::StageGone { peer, number } => state.stages.remove_key(&PeerNumber { peer, number }),
        Change::FileGone { file } => state.files.remove_key(&file),
    }
}
