//! What an edit of queues or parameters makes of a host's state.
ghost use Rattle.std.specs.Prelude.{◌≡◌, ◌<◌, ◌≤◌, ◌&&◌, [], false, length, IsTrue, Ok};
ghost use Rattle.nqs_state.specs.Room.{HasRoomForConf};
ghost use Rattle.nqs_state.specs.State.{content};
ghost use Rattle.nqs_types.specs.declared.edit.ConfEdit.{ConfEdit};
ghost use Rattle.nqs_rules.specs.Causes.{first_refusal};
ghost use Rattle.nqs_rules.specs.Conf.{add_queue, at_most, conf_applied, conf_causes, conf_edited, created_dests, default_without, is_conf_within};
ghost use Rattle.nqs_rules.specs.Conf.{is_queued_in, without_member};
ghost use Rattle.nqs_rules.specs.Edits.{change_queue};
ghost use Rattle.nqs_rules.specs.Find.{has_queue};
ghost use Rattle.nqs_rules.specs.Format.{new_queue};

use crate::create::{Created, create_queue};
use crate::dest::{created_dest, dest_list, drop_dest, meant_dest, put_first};
use nqs_access::drop_name;
use nqs_base::{ListOf, Name};
use nqs_state::HostState;
use nqs_types::{ComplexDef, ConfEdit, Kind, NamedDest, QueueDef, Row, RowState};

fn drop_member(complex: &mut ComplexDef, queue: &Name)
    ensures { complex.new ≡ without_member queue.now complex.old }
{
    drop_name(&mut complex.queues, queue);
}

fn default_without(default: Option<Name>, queue: &Name) -> Option<Name>
    ensures { result ≡ default_without queue.now default }
{
    match default {
        None => None,
        Some(name) => { if *queue == name { None } else { Some(name) } }
    }
}

// The queue goes out of its complexes too, and is no default any longer.
fn delete_queue(state: &mut HostState, queue: &Name)
    ensures { content state.new ≡ conf_applied (ConfEdit.DeleteQueue queue.now) (content state.old) }
{
    state.queues.remove_key(queue);
    state
        .complexes
        .revise(|_name: &Name, complex: &mut ComplexDef| {
            drop_member(complex, queue);
            true
        });
    state.default_queue = default_without(state.default_queue, queue);
}

/// Whether the request is queued in this queue, held or not: a purge of the queue takes it away.
pub fn is_queued_in(row: &Row, queue: &Name) -> bool
    ensures { result ≡ is_queued_in queue.now row.now }
{
    row.state == RowState::Queued && *queue == row.queue
}

fn purge_queue(state: &mut HostState, queue: &Name)
    ensures { content state.new ≡ conf_applied (ConfEdit.PurgeQueue queue.now) (content state.old) }
{
    state
        .rows
        .revise(|_id, row: &mut Row| !is_queued_in(row, queue));
}

// What an edit makes of its queue, where it looks at the queue alone.
fn conf_edited(def: &mut QueueDef, edit: &ConfEdit)
    requires { IsTrue (is_conf_within edit.now) }
    ensures { def.new ≡ conf_edited edit.now def.old }
{
    match edit {
        ConfEdit::EnableQueue { .. } => def.enabled = true,
        ConfEdit::DisableQueue { .. } => def.enabled = false,
        ConfEdit::StartQueue { .. } => def.started = true,
        ConfEdit::StopQueue { .. } => def.started = false,
        ConfEdit::SetPriority { priority, .. } => def.priority = *priority as u8,
        ConfEdit::SetRunLimit { limit, .. } => def.run_limit = *limit as u16,
        _ => {}
    }
}

fn edit_queue(state: &mut HostState, queue: &Name, edit: &ConfEdit)
    requires { IsTrue (is_conf_within edit.now) }
    ensures { content state.new ≡ change_queue queue.now (conf_edited edit.now) (content state.old) }
{
    state
        .queues
        .change(queue, |def: &mut QueueDef| conf_edited(def, edit));
}

fn add_destination(state: &mut HostState, destination: &NamedDest, queue: &Name)
    requires site { length state.old.site ≤ 16 }
    requires room { HasRoomForConf (ConfEdit.AddDestination destination.now queue.now) state.old }
    ensures { content state.new ≡ conf_applied (ConfEdit.AddDestination destination.now queue.now) (content state.old) }
{
    let Some(dest) = meant_dest(state, destination) else {
        return;
    };
    let dests = match state.queues.get(queue) {
        Some(def) => state.spare_dests.grown(def.dests.as_slice(), dest),
        None => return,
    };
    state
        .queues
        .change(queue, |def: &mut QueueDef| def.dests = dests);
}

fn remove_destination(state: &mut HostState, destination: &NamedDest, queue: &Name)
    requires site { length state.old.site ≤ 16 }
    ensures { content state.new ≡ conf_applied (ConfEdit.RemoveDestination destination.now queue.now) (content state.old) }
{
    let Some(dest) = meant_dest(state, destination) else {
        return;
    };
    state.queues.change(queue, |def: &mut QueueDef| drop_dest(&mut def.dests, &dest));
}

fn first_destination(state: &mut HostState, destination: &NamedDest, queue: &Name)
    requires site { length state.old.site ≤ 16 }
    requires check { first_refusal (conf_causes (ConfEdit.FirstDestination destination.now queue.now) (content state.old)) ≡ Ok tt }
    ensures { content state.new ≡ conf_applied (ConfEdit.FirstDestination destination.now queue.now) (content state.old) }
{
    let Some(dest) = meant_dest(state, destination) else {
        return;
    };
    let alloc = state.queues.allocator();
    state.queues.change(
        queue,
        |def: &mut QueueDef| put_first(alloc, &mut def.dests, dest),
    );
}

fn create_plain_queue(state: &mut HostState, created: Created)
    requires room { 0 < state.old.queues.spare }
    requires absent { has_queue created.name (content state.old) ≡ false }
    requires priority { IsTrue (at_most 63 created.priority) }
    requires run_limit { IsTrue (at_most 10000 created.run_limit) }
    ensures { content state.new ≡ add_queue (new_queue created.name created.kind created.priority created.run_limit created.pipe_only []) (content state.old) }
{
    let dests = ListOf::new(state.queues.allocator());
    create_queue(state, created, dests);
}

fn create_pipe_queue(state: &mut HostState, created: Created, destination: &Option<NamedDest>)
    requires site { length state.old.site ≤ 16 }
    requires room { (0 < state.old.queues.spare) × (0 < state.old.spare_dests) }
    requires absent { has_queue created.name (content state.old) ≡ false }
    requires priority { IsTrue (at_most 63 created.priority) }
    requires run_limit { IsTrue (at_most 10000 created.run_limit) }
    ensures { content state.new ≡ add_queue (new_queue created.name created.kind created.priority created.run_limit created.pipe_only
        (created_dests destination.now (content state.old))) (content state.old) }
{
    let alloc = state.queues.allocator();
    let dest = created_dest(state, destination);
    let dests = dest_list(alloc, &mut state.spare_dests, dest);
    create_queue(state, created, dests);
}

/// Makes an edit that `check_conf` lets through, after `HostState::make_room` made room for it. It
/// needs no memory and can't fail. `within`: a priority is at most 63, a run limit at most 10,000,
/// a wait 1 to 86,400 seconds; so they fit the numbers of a queue. `site` holds of each state in
/// order: at most 16 hosts.
pub fn apply_conf(state: &mut HostState, edit: ConfEdit)
    requires site { length state.old.site ≤ 16 }
    requires check { first_refusal (conf_causes edit (content state.old)) ≡ Ok tt }
    requires within { IsTrue (is_conf_within edit) }
    requires room { HasRoomForConf edit state.old }
    ensures { content state.new ≡ conf_applied edit (content state.old) }
{
    match edit {
        ConfEdit::CreateBatchQueue {
            queue,
            priority,
            run_limit,
            pipe_only,
        } => {
            let kind = Kind::Batch;
            let name = queue;
            create_plain_queue(
                state,
                Created {
                    name,
                    kind,
                    priority,
                    run_limit,
                    pipe_only,
                },
            )
        }
        ConfEdit::CreateDeviceQueue {
            queue,
            priority,
            run_limit,
            pipe_only,
        } => {
            let kind = Kind::Device;
            let name = queue;
            create_plain_queue(
                state,
                Created {
                    name,
                    kind,
                    priority,
                    run_limit,
                    pipe_only,
                },
            )
        }
        ConfEdit::CreatePipeQueue {
            queue,
            priority,
            run_limit,
            pipe_only,
            destination,
        } => {
            let kind = Kind::Pipe;
            let name = queue;
            create_pipe_queue(
                state,
                Created {
                    name,
                    kind,
                    priority,
                    run_limit,
                    pipe_only,
                },
                &destination,
            )
        }
        ConfEdit::DeleteQueue { queue } => delete_queue(state, &queue),
        ConfEdit::EnableQueue { queue } => edit_queue(state, &queue, &edit),
        ConfEdit::DisableQueue { queue } => edit_queue(state, &queue, &edit),
        ConfEdit::StartQueue { queue } => edit_queue(state, &queue, &edit),
        ConfEdit::StopQueue { queue } => edit_queue(state, &queue, &edit),
        ConfEdit::PurgeQueue { queue } => purge_queue(state, &queue),
        ConfEdit::SetPriority { queue, .. } => edit_queue(state, &queue, &edit),
        ConfEdit::SetRunLimit { queue, .. } => edit_queue(state, &queue, &edit),
        ConfEdit::AddDestination { destination, queue } => {
            add_destination(state, &destination, &queue)
        }
        ConfEdit::RemoveDestination { destination, queue } => {
            remove_destination(state, &destination, &queue)
        }
        ConfEdit::FirstDestination { destination, queue } => {
            first_destination(state, &destination, &queue)
        }
        ConfEdit::SetDefaultQueue { queue } => state.default_queue = Some(queue),
        ConfEdit::SetNoDefaultQueue => state.default_queue = None,
        ConfEdit::SetPatience { seconds } => state.patience = seconds,
        ConfEdit::SetRetryWait { seconds } => state.retry_wait = seconds,
    }
}
