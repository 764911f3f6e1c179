//! Changes of outputs: the files of this host, and the stages to others.

ghost use Rattle.std.specs.Prelude.{◌≡◌, ◌+◌, ◌<◌, ◌≤◌, ◌^◌, length, IsTrue};
ghost use Rattle.std.specs.List.{list_all};
ghost use Rattle.nqs_state.specs.State.{content};
ghost use Rattle.nqs_rules.specs.InOrder.{IsInOrder};
ghost use Rattle.nqs_rules.specs.Sane.{has_path};
ghost use Rattle.nqs_rules.specs.Fits.{row_passes};
ghost use Rattle.nqs_rules.specs.Edits.{drop_row};
ghost use Rattle.nqs_rules.specs.Applied.{add_file, add_stage, add_output, add_outputs, stage_counted, stage_got};
ghost use Rattle.nqs_types.specs.declared.change.OutPart.{OutPart};
ghost use Rattle.nqs_state.specs.Least.{runs_now};

use crate::peers::change_peer;
use nqs_base::{Bytes, Extent, Items, Rest};
use nqs_routing::find_peer;
use nqs_state::HostState;
use nqs_types::{FileOut, HostId, OutPart, Peer, RequestId, Stage};

// A file of this host, under the next number if there is one.
fn add_file(state: &mut HostState, part: OutPart)
    requires room { 0 < state.old.files.spare }
    requires order { IsInOrder (content state.old) }
    ensures content { content state.new ≡ add_file part (content state.old) }
    ensures files { state.old.files.spare ≤ state.new.files.spare + 1 }
    ensures stages { state.new.stages ≡ state.old.stages }
{
    let number = state.file_next;
    if number < u64::MAX {
        state.file_next += 1;
        let OutPart { path, bytes } = part;
        state.files.push(FileOut {
            number,
            path,
            bytes,
        });
    }
}

fn next_number(peer: &mut Peer)
    ensures { peer.old.stage_next + 1 < 2 ^ 64 → peer.new ≡ stage_counted peer.old }
{
    peer.stage_next = peer.stage_next.saturating_add(1);
}

// A stage to another host, under the next number if there is one.
fn add_stage(state: &mut HostState, host: HostId, part: OutPart)
    requires room { 0 < state.old.stages.spare }
    requires order { IsInOrder (content state.old) }
    ensures content { content state.new ≡ add_stage host part (content state.old) }
    ensures files { state.new.files ≡ state.old.files }
    ensures stages { state.old.stages.spare ≤ state.new.stages.spare + 1 }
{
    let Some(known) = find_peer(state, host) else {
        return;
    };
    let number = known.stage_next;
    if number < u64::MAX {
        change_peer(state, host, next_number);
        let OutPart { path, bytes } = part;
        state.stages.push(Stage {
            peer: host,
            number,
            path,
            bytes,
        });
    }
}

// An output goes to the host where its request was submitted.
fn add_output(state: &mut HostState, id: RequestId, part: OutPart)
    requires file { 0 < state.old.files.spare }
    requires stage { 0 < state.old.stages.spare }
    requires order { IsInOrder (content state.old) }
    ensures content { content state.new ≡ add_output id part (content state.old) }
    ensures files { state.old.files.spare ≤ state.new.files.spare + 1 }
    ensures stages { state.old.stages.spare ≤ state.new.stages.spare + 1 }
{
    if state.me == id.host {
        add_file(state, part);
    } else {
        add_stage(state, id.host, part);
    }
}

fn add_outputs(state: &mut HostState, id: RequestId, mut parts: Rest<OutPart>)
    requires files { length parts ≤ state.old.files.spare }
    requires stages { length parts ≤ state.old.stages.spare }
    requires order { IsInOrder (content state.old) }
    requires paths { IsTrue (list_all has_path parts) }
    ensures { content state.new ≡ add_outputs id parts (content state.old) }
{
    while let Some(part) = parts.take_first() {
        add_output(state, id, part);
    }
}

/// A running request's job has ended: the request goes, and its outputs go to the host where it was
/// submitted.
pub fn ended(state: &mut HostState, id: RequestId, outputs: Items<OutPart>)
    requires files { length outputs ≤ state.old.files.spare }
    requires stages { length outputs ≤ state.old.stages.spare }
    requires order { IsInOrder (content state.old) }
    requires runs { IsTrue (row_passes runs_now id (content state.old)) }
    requires paths { IsTrue (list_all has_path outputs) }
    ensures { content state.new ≡ add_outputs id outputs (drop_row id (content state.old)) }
{
    state.rows.remove_key(&id);
    add_outputs(state, id, Rest::of(outputs));
}

/// A stage has come from another host, and is a file of this one.
pub fn stage_got(state: &mut HostState, peer: HostId, number: u64, path: Bytes, bytes: Extent)
    requires room { 0 < state.old.files.spare }
    requires order { IsInOrder (content state.old) }
    ensures { content state.new ≡ stage_got peer number (record { path = path; bytes = bytes }) (content state.old) }
{
    change_peer(state, peer, |known: &mut Peer| known.stage_got = number);
    add_file(state, OutPart { path, bytes });
}
