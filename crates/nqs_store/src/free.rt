//! The extents that a change takes away, freed after its record was written.

ghost use Rattle.std.specs.Prelude.{◌≡◌, nat_lt, if◌then◌else◌, Bool, List, [], ◌∷◌, map, filter, find, drop};
ghost use Rattle.std.specs.Option.{option_copied};
ghost use Rattle.std.specs.Fn.{FnReturnsAt};
ghost use Rattle.nqs_state.specs.State.{content};
ghost use Rattle.nqs_base.specs.declared.extent.Extent.{Extent};
ghost use Rattle.nqs_types.specs.declared.request.Row.{Row as RowValue};
ghost use Rattle.nqs_spool.specs.Spooled.{disk_of, Tells};
ghost use Rattle.nqs_state.specs.Keys.{is_stage, is_file};
ghost use Rattle.nqs_rules.specs.Tests.{last_u64};
ghost use Rattle.nqs_rules.specs.Find.{peer_number, find_row, find_hand, find_promise, find_peer};
ghost use Rattle.nqs_rules.specs.Stepped.{part_bytes};
ghost use Rattle.nqs_store.specs.Live.{row_part, promise_part, stage_part, file_part};
ghost use Rattle.nqs_store.specs.Accounts.{Takes};
ghost use Rattle.nqs_store.specs.Calls.{Frees};
ghost use Rattle.nqs_store.specs.Frees.{part_of, goes_at_boot, stages_left, numbers_left, row_of_hand, doubled, outlived, gone};

use nqs_base::{Extent, Key, Keyed};
use nqs_base_tables::Table;
use nqs_changes::boot::may_start_again;
use nqs_conf::is_queued_in;
use nqs_outside::Disk;
use nqs_routing::{find_peer, is_outlived};
use nqs_spool::Spool;
use nqs_state::{HostState, Rows};
use nqs_types::{
    Change, ConfEdit, Edit, FileOut, HostId, OutPart, PeerNumber, Promise, RequestId, Row,
    RowState, Stage,
};

// The extent of a value, if there is one.
fn free_one<D: Disk, V, F: Fn(&V) -> Extent>(spool: &mut Spool<D>, found: Option<&V>, part: F)
    requires { F.IsAlwaysCallable part }
    ensures tells { (g : V → Extent) → ((v : V) (x : Extent) → FnReturnsAt F.Fn part v x → x ≡ g v)
        → (live fewer : List Extent) → Tells spool.old live → Takes live (part_of g (option_copied found.entry)) fewer → Tells spool.new fewer }
    ensures same { disk_of spool.new ≡ disk_of spool.old }
{
    if let Some(value) = found {
        spool.free(&part(value));
    }
}

// The extents of the values that pass the test.
fn free_all<D: Disk, K: Key, V: Keyed<K> + Drop, P: Fn(&V) -> bool, F: Fn(&V) -> Extent>(
    spool: &mut Spool<D>,
    table: &Table<K, V>,
    goes: P,
    part: F,
)
    requires goes { P.IsAlwaysCallable goes }
    requires part { F.IsAlwaysCallable part }
    ensures tells { (p : V → Bool) (g : V → Extent) → ((v : V) (b : Bool) → FnReturnsAt P.Fn goes v b → b ≡ p v)
        → ((v : V) (x : Extent) → FnReturnsAt F.Fn part v x → x ≡ g v)
        → (live fewer : List Extent) → Tells spool.old live → Takes live (map g (filter p table.now.items)) fewer → Tells spool.new fewer }
    ensures same { disk_of spool.new ≡ disk_of spool.old }
{
    for place in 0..table.len() {
        let value = table.at(place);
        if goes(value) {
            spool.free(&part(value));
        }
    }
}

// The scripts of the rows that pass the test.
fn free_rows<D: Disk, P: Fn(&Row) -> bool>(spool: &mut Spool<D>, rows: &Rows, goes: P)
    requires { P.IsAlwaysCallable goes }
    ensures tells { (p : RowValue Extent → Bool) → ((v : RowValue Extent) (b : Bool) → FnReturnsAt P.Fn goes v b → b ≡ p v) → (live fewer : List Extent)
        → Tells spool.old live → Takes live (map row_part (filter p rows.now.items)) fewer → Tells spool.new fewer }
    ensures same { disk_of spool.new ≡ disk_of spool.old }
{
    free_all(spool, rows.table(), goes, |row: &Row| row.script);
}

// The extents of the parts from this place on.
fn free_behind<D: Disk>(spool: &mut Spool<D>, parts: &[OutPart], from: u64)
    ensures { Frees spool.old spool.new (drop from (map part_bytes parts.now)) }
{
    let kept = from.min(parts.len() as u64) as usize;
    let (_numbered, later) = parts.split_at(kept);
    for part in later {
        spool.free(&part.bytes);
    }
}

fn stages_left(state: &HostState, to: HostId) -> u64
    ensures { result ≡ stages_left (find_peer to (content state.now)) }
{
    match find_peer(state, to) {
        Some(peer) => u64::MAX.saturating_sub(peer.stage_next),
        None => 0,
    }
}

// How many more numbers there are for outputs to a host.
fn numbers_left(state: &HostState, to: HostId) -> u64
    ensures { result ≡ numbers_left to (content state.now) }
{
    if state.me == to {
        return u64::MAX - state.file_next;
    }
    stages_left(state, to)
}

fn goes_at_boot(row: &Row) -> bool
    ensures { result ≡ goes_at_boot row.now }
{
    row.state == RowState::Running && !may_start_again(row)
}

fn free_row<D: Disk>(spool: &mut Spool<D>, state: &HostState, id: &RequestId)
    ensures { Frees spool.old spool.new (part_of row_part (find_row id.now (content state.now))) }
{
    free_one(spool, state.rows.get(id), |row: &Row| row.script);
}

// The row of a handover.
fn free_row_of_hand<D: Disk>(spool: &mut Spool<D>, state: &HostState, peer: HostId, number: u64)
    ensures { Frees spool.old spool.new (row_of_hand (content state.now) (find_hand peer number (content state.now))) }
{
    if let Some(hand) = state.hands.get(&PeerNumber { peer, number }) {
        free_row(spool, state, &hand.id);
    }
}

fn free_promise<D: Disk>(spool: &mut Spool<D>, state: &HostState, peer: HostId, number: u64)
    ensures { Frees spool.old spool.new (part_of promise_part (find_promise peer number (content state.now))) }
{
    free_one(
        spool,
        state.promises.get(&PeerNumber { peer, number }),
        |promise: &Promise| promise.row.script,
    );
}

// A promise whose request is a row already.
fn free_doubled<D: Disk>(spool: &mut Spool<D>, state: &HostState, peer: HostId, number: u64)
    ensures { Frees spool.old spool.new (doubled (content state.now) (find_promise peer number (content state.now))) }
{
    if let Some(promise) = state.promises.get(&PeerNumber { peer, number }) {
        if state.rows.has(&promise.row.id) {
            spool.free(&promise.row.script);
        }
    }
}

// The bytes of a stage for which no number of a file is left.
fn free_unnumbered<D: Disk>(spool: &mut Spool<D>, state: &HostState, bytes: &Extent)
    ensures { Frees spool.old spool.new (if nat_lt (content state.now).file_next last_u64 then [] else bytes.now ∷ []) }
{
    if state.file_next < u64::MAX {
        return;
    }
    spool.free(bytes);
}

fn free_stage<D: Disk>(spool: &mut Spool<D>, state: &HostState, peer: HostId, number: u64)
    ensures { Frees spool.old spool.new (part_of stage_part (find (is_stage (peer_number peer number)) (content state.now).stages)) }
{
    free_one(
        spool,
        state.stages.get(&PeerNumber { peer, number }),
        |stage: &Stage| stage.bytes,
    );
}

// The rows of a queue that is purged.
fn free_purged<D: Disk>(spool: &mut Spool<D>, state: &HostState, edit: &ConfEdit)
    ensures { Frees spool.old spool.new (gone (Change.Edited (Edit.Conf edit.now)) (content state.now)) }
{
    match edit {
        ConfEdit::PurgeQueue { queue } => {
            free_rows(spool, &state.rows, |row: &Row| is_queued_in(row, queue));
        }
        _ => {}
    }
}

fn free_edited<D: Disk>(spool: &mut Spool<D>, state: &HostState, edit: &Edit)
    ensures { Frees spool.old spool.new (gone (Change.Edited edit.now) (content state.now)) }
{
    match edit {
        Edit::Conf(edit) => free_purged(spool, state, edit),
        _ => {}
    }
}

// The rows that go at a boot.
fn free_at_boot<D: Disk>(spool: &mut Spool<D>, state: &HostState)
    ensures { Frees spool.old spool.new (map row_part (filter goes_at_boot (content state.now).rows)) }
{
    free_rows(spool, &state.rows, goes_at_boot);
}

// The promises to a host that its low outlives.
fn free_outlived<D: Disk>(spool: &mut Spool<D>, state: &HostState, peer: HostId, low: u64)
    ensures { Frees spool.old spool.new (outlived peer low (content state.now)) }
{
    free_all(
        spool,
        &state.promises,
        |promise: &Promise| is_outlived(promise, peer, low),
        |promise: &Promise| promise.row.script,
    );
}

fn free_file<D: Disk>(spool: &mut Spool<D>, state: &HostState, file: u64)
    ensures { Frees spool.old spool.new (part_of file_part (find (is_file file) (content state.now).files)) }
{
    free_one(spool, state.files.get(&file), |file: &FileOut| file.bytes);
}

/// Frees what a change takes away of the extents of a host, whose state from before the change is
/// given, and what it doesn't take up of its own. It takes no memory.
pub(crate) fn free_gone<D: Disk>(spool: &mut Spool<D>, state: &HostState, change: &Change)
    ensures { Frees spool.old spool.new (gone change.now (content state.now)) }
{
    match change {
        Change::Deleted(id) => free_row(spool, state, id),
        Change::Ended { id, outputs } => {
            free_row(spool, state, id);
            free_behind(spool, outputs.as_slice(), numbers_left(state, id.host));
        }
        Change::Unlaunched(id) => free_row(spool, state, id),
        Change::Boot => free_at_boot(spool, state),
        Change::Edited(edit) => free_edited(spool, state, edit),
        Change::HandCommitted { peer, number } => free_row_of_hand(spool, state, *peer, *number),
        Change::OldPromised { peer, number, .. } => free_outlived(spool, state, *peer, *number),
        Change::Promised { peer, low, .. } => free_outlived(spool, state, *peer, *low),
        Change::Accepted { peer, number } => free_doubled(spool, state, *peer, *number),
        Change::Dropped { peer, number } => free_promise(spool, state, *peer, *number),
        Change::StageGot { bytes, .. } => free_unnumbered(spool, state, bytes),
        Change::StageGone { peer, number } => free_stage(spool, state, *peer, *number),
        Change::FileGone { file } => free_file(spool, state, *file),
        _ => {}
    }
}
