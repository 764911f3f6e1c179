//! The parts of a state, with lists in place of tables, and the state that is built of them: each
//! value stands in its table under its key.

ghost use Rattle.std.specs.Prelude.{◌≡◌, true, false, [], IfOk, IfSome, IfNone};
ghost use Rattle.nqs_state.specs.State.{content};
ghost use Rattle.nqs_rules.specs.InOrder.{are_keys_distinct};
ghost use Rattle.nqs_snapshot.specs.Reading.{state_of};
ghost use Rattle.nqs_snapshot.specs.Blank.{IsBlank, are_names_distinct, are_requests_distinct, are_outputs_distinct, with_site, with_requests, with_dealings};
ghost use Rattle.nqs_snapshot.specs.Blank.{with_peers, with_counters};

use crate::tables::fill;
use nqs_base::{Items, ListOf, Name, NameList, Spare};
use nqs_base_tables::Table;
use nqs_state::{HostState, PeerList, Rows};
use nqs_types::{ComplexDef, DeviceDef, FileOut, Hand, HostId, Promise, QueueDef, Row, Stage};
use std::alloc::{AllocError, Global};

/// Who the host is, and its queues, complexes and devices.
pub(crate) struct SitePart {
    pub me: HostId,
    pub site: NameList,
    pub queues: Items<QueueDef>,
    pub complexes: Items<ComplexDef>,
    pub devices: Items<DeviceDef>,
}

// Written out, as for the other parts, so that a part is let go by a call.
impl Drop for SitePart {
    fn drop(self) {
        let SitePart {
            me: _,
            site: _,
            queues: _,
            complexes: _,
            devices: _,
        } = self;
    }
}

/// Its requests, handovers and promises.
pub(crate) struct RequestPart {
    pub rows: Items<Row>,
    pub hands: Items<Hand>,
    pub promises: Items<Promise>,
}

impl Drop for RequestPart {
    fn drop(self) {
        let RequestPart {
            rows: _,
            hands: _,
            promises: _,
        } = self;
    }
}

/// Its outputs for other hosts, its files, and who may change it.
pub(crate) struct DealingPart {
    pub stages: Items<Stage>,
    pub files: Items<FileOut>,
    pub managers: NameList,
    pub operators: NameList,
}

impl Drop for DealingPart {
    fn drop(self) {
        let DealingPart {
            stages: _,
            files: _,
            managers: _,
            operators: _,
        } = self;
    }
}

/// Its parameters and counters.
#[derive(Clone, Copy)]
pub(crate) struct CounterPart {
    pub default_queue: Option<Name>,
    pub global_limit: u16,
    pub patience: u64,
    pub retry_wait: u64,
    pub seq: u32,
    pub arrivals: u64,
    pub file_next: u64,
}

/// All parts of a state.
pub(crate) struct Parts {
    pub site: SitePart,
    pub requests: RequestPart,
    /// What it knows of each host.
    pub peers: PeerList,
    pub dealings: DealingPart,
    pub counters: CounterPart,
}

impl Drop for Parts {
    fn drop(self) {
        let Parts {
            site: _,
            requests: _,
            peers: _,
            dealings: _,
            counters: _,
        } = self;
    }
}

// A state whose tables are empty.
fn blank(alloc: Global) -> HostState
    ensures { IsBlank (content result) }
{
    HostState {
        me: HostId(0),
        site: ListOf::new(alloc),
        queues: Table::new(alloc),
        complexes: Table::new(alloc),
        devices: Table::new(alloc),
        rows: Rows::new(alloc),
        hands: Table::new(alloc),
        promises: Table::new(alloc),
        peers: Items::new(alloc),
        stages: Table::new(alloc),
        files: Table::new(alloc),
        managers: ListOf::new(alloc),
        operators: ListOf::new(alloc),
        default_queue: None,
        global_limit: 0,
        patience: 0,
        retry_wait: 0,
        seq: 0,
        arrivals: 0,
        file_next: 0,
        spare_names: Spare::new(alloc),
        spare_dests: Spare::new(alloc),
        spare_refused: Spare::new(alloc),
        spare_closed: Spare::new(alloc),
    }
}

impl SitePart {
    // Whether no two queues, complexes or devices have one name.
    fn fill(self, state: &mut HostState) -> Result<bool, AllocError>
        requires queues { state.old.queues.items ≡ [] }
        requires complexes { state.old.complexes.items ≡ [] }
        requires devices { state.old.devices.items ≡ [] }
        ensures distinct { IfOk result (λ filled. filled ≡ are_names_distinct self) }
        ensures filled { IfOk result (λ filled. filled ≡ true → content state.new ≡ with_site self (content state.old)) }
    {
        let SitePart {
            me,
            site,
            queues,
            complexes,
            devices,
        } = self;
        state.me = me;
        state.site = site;
        let queues_differ = fill(&mut state.queues, queues)?;
        let complexes_differ = fill(&mut state.complexes, complexes)?;
        let devices_differ = fill(&mut state.devices, devices)?;
        Ok(queues_differ && complexes_differ && devices_differ)
    }
}

impl RequestPart {
    // Whether no two requests are one, nor two handovers or promises.
    fn fill(self, state: &mut HostState) -> Result<bool, AllocError>
        requires hands { state.old.hands.items ≡ [] }
        requires promises { state.old.promises.items ≡ [] }
        ensures distinct { IfOk result (λ filled. filled ≡ are_requests_distinct self) }
        ensures filled { IfOk result (λ filled. filled ≡ true → content state.new ≡ with_requests self (content state.old)) }
    {
        let RequestPart {
            rows,
            hands,
            promises,
        } = self;
        let mut table = Table::new(state.rows.allocator());
        let rows_differ = fill(&mut table, rows)?;
        state.rows = Rows::from_table(table);
        let hands_differ = fill(&mut state.hands, hands)?;
        let promises_differ = fill(&mut state.promises, promises)?;
        Ok(rows_differ && hands_differ && promises_differ)
    }
}

impl DealingPart {
    // Whether no two stages or files are one.
    fn fill(self, state: &mut HostState) -> Result<bool, AllocError>
        requires stages { state.old.stages.items ≡ [] }
        requires files { state.old.files.items ≡ [] }
        ensures distinct { IfOk result (λ filled. filled ≡ are_outputs_distinct self) }
        ensures filled { IfOk result (λ filled. filled ≡ true → content state.new ≡ with_dealings self (content state.old)) }
    {
        let DealingPart {
            stages,
            files,
            managers,
            operators,
        } = self;
        state.managers = managers;
        state.operators = operators;
        let stages_differ = fill(&mut state.stages, stages)?;
        let files_differ = fill(&mut state.files, files)?;
        Ok(stages_differ && files_differ)
    }
}

fn set_peers(state: &mut HostState, peers: PeerList)
    ensures { content state.new ≡ with_peers peers (content state.old) }
{
    state.peers = peers;
}

fn set_counters(state: &mut HostState, part: CounterPart)
    ensures { content state.new ≡ with_counters part (content state.old) }
{
    state.default_queue = part.default_queue;
    state.global_limit = part.global_limit;
    state.patience = part.patience;
    state.retry_wait = part.retry_wait;
    state.seq = part.seq;
    state.arrivals = part.arrivals;
    state.file_next = part.file_next;
}

impl Parts {
    /// The state of the parts, unless two of a table have one key.
    pub(crate) fn build(self, alloc: Global) -> Result<Option<HostState>, AllocError>
        ensures some { IfOk result (λ built. IfSome built (λ state. content state ≡ state_of self)) }
        ensures distinct { IfOk result (λ built. IfSome built (λ _. are_keys_distinct (state_of self) ≡ true)) }
        ensures none { IfOk result (λ built. IfNone built (are_keys_distinct (state_of self) ≡ false)) }
    {
        let Parts {
            site,
            requests,
            peers,
            dealings,
            counters,
        } = self;
        let mut state = blank(alloc);
        set_counters(&mut state, counters);
        set_peers(&mut state, peers);
        if !site.fill(&mut state)? {
            return Ok(None);
        }
        if !requests.fill(&mut state)? {
            return Ok(None);
        }
        if !dealings.fill(&mut state)? {
            return Ok(None);
        }
        Ok(Some(state))
    }
}
