//! A host at events: a submission, deletions of a running request and of one that waits, and the
//! launch of a job.

ghost use Rattle.std.specs.Prelude.{◌≡◌, ◌∷◌, [], codes, IfOk, OnOk};
ghost use Rattle.nqs_state.specs.State.{content};
ghost use Rattle.nqs_rules.specs.Format.{new_peer};
ghost use Rattle.nqs_rules.specs.InOrder.{IsInOrder};
ghost use Rattle.nqs_host_tests.specs.PlotHost.{plot_queue, plot_job, plot_row, plot_host, blank_host};

use nqs_base::{Bytes, Extent, Items, ListOf, Memory, Name, Spare};
use nqs_base_tables::Table;
use nqs_state::{HostState, Rows};
use nqs_step::start::start;
use nqs_step::step::step;
use nqs_types::{
    Access, Change, Command, Event, Hold, HostId, Job, Kind, LaunchOrder, Limits, Named, Output,
    Peer, Plan, QueueDef, Reply, RequestId, Row, RowState, Submission,
};
use std::alloc::Global;
use std::rt::HostRuntime;

const ALPHA: HostId = HostId(0);

const REQUEST: RequestId = RequestId {
    seq: 12,
    host: ALPHA,
};

const NO_LIMITS: Limits = Limits {
    cpu: None,
    memory: None,
};

// The name of the host, of its queue, and of all else.
fn plot() -> Name
    ensures { result ≡ codes "plot" }
{
    match Name::read(b"plot") {
        Ok(name) => name,
        Err(_) => unreachable!(),
    }
}

fn queue(alloc: Global) -> QueueDef
    ensures { result ≡ plot_queue }
{
    QueueDef {
        name: plot(),
        kind: Kind::Batch,
        enabled: true,
        started: true,
        pipe_only: false,
        priority: 31,
        run_limit: 1,
        user_limit: None,
        limits: NO_LIMITS,
        access: Access::All,
        dests: ListOf::new(alloc),
        devices: ListOf::new(alloc),
    }
}

fn job(out: Bytes, err: Bytes) -> Job
    ensures { result ≡ plot_job out err }
{
    Job {
        name: plot(),
        owner: plot(),
        priority: 31,
        earliest: 0,
        rerun: true,
        limits: NO_LIMITS,
        forms: None,
        out,
        err,
        join: false,
    }
}

fn row_of(alloc: Global, job: Job, state: RowState, lost: u16) -> Row
    ensures { result ≡ plot_row job state lost }
{
    Row {
        id: REQUEST,
        job,
        queue: plot(),
        state,
        hold: Hold::No,
        arrival: 1,
        doomed: false,
        starts: 2,
        lost,
        hops: 0,
        device: None,
        refused: ListOf::new(alloc),
        script: Extent {
            place: 7,
            length: 4,
        },
    }
}

// A request that was started twice.
fn row(alloc: Global, state: RowState, lost: u16) -> Result<Row, Memory>
    ensures { IfOk result (λ row. row ≡ plot_row (plot_job (codes "o") (codes "e")) state lost) }
{
    let out = ListOf::of(alloc, b'o')?;
    let err = ListOf::of(alloc, b'e')?;
    Ok(row_of(alloc, job(out, err), state, lost))
}

// A host with no site, no queue and no request, which has given so many numbers.
fn host(alloc: Global, seq: u32) -> HostState
    ensures { content result ≡ blank_host seq }
{
    HostState {
        me: ALPHA,
        site: ListOf::new(alloc),
        queues: Table::new(alloc),
        complexes: Table::new(alloc),
        devices: Table::new(alloc),
        rows: Rows::new(alloc),
        hands: Table::new(alloc),
        promises: Table::new(alloc),
        peers: Items::new(alloc),
        stages: Table::new(alloc),
        files: Table::new(alloc),
        managers: ListOf::new(alloc),
        operators: ListOf::new(alloc),
        default_queue: Some(plot()),
        global_limit: 64,
        patience: 60,
        retry_wait: 300,
        seq,
        arrivals: u64::from(seq),
        file_next: 1,
        spare_names: Spare::new(alloc),
        spare_dests: Spare::new(alloc),
        spare_refused: Spare::new(alloc),
        spare_closed: Spare::new(alloc),
    }
}

// What is known of a host at first.
fn peer(alloc: Global) -> Peer
    ensures { result ≡ new_peer }
{
    Peer {
        next: 1,
        floor: 0,
        closed: ListOf::new(alloc),
        wait: 0,
        stage_next: 1,
        stage_got: 0,
    }
}

// The site and its queue.
fn fill(alloc: Global, state: &mut HostState) -> Result<(), Memory>
    requires { state.old.queues.items ≡ [] }
    ensures { OnOk result (content state.new ≡ record (content state.old) { site = codes "plot" ∷ []; queues = plot_queue ∷ []; peers = new_peer ∷ [] }) }
{
    state.site = ListOf::of(alloc, plot())?;
    state.peers = Items::of(alloc, peer(alloc))?;
    state.queues.reserve(1)?;
    state.queues.push(queue(alloc));
    Ok(())
}

fn add_row(state: &mut HostState, row: Row) -> Result<(), Memory>
    requires { state.old.rows.items ≡ [] }
    ensures { OnOk result (content state.new ≡ record (content state.old) { rows = row ∷ [] }) }
{
    state.rows.reserve(1)?;
    state.rows.push(row);
    Ok(())
}

// The site, its queue, and a request in this state.
fn fill_with(
    alloc: Global,
    state: &mut HostState,
    standing: RowState,
    lost: u16,
) -> Result<(), Memory>
    requires queues { state.old.queues.items ≡ [] }
    requires rows { state.old.rows.items ≡ [] }
    ensures { OnOk result (content state.new ≡ record (content state.old)
        { site = codes "plot" ∷ []; queues = plot_queue ∷ []; peers = new_peer ∷ []; rows = plot_row (plot_job (codes "o") (codes "e")) standing lost ∷ [] }) }
{
    fill(alloc, state)?;
    let row = row(alloc, standing, lost)?;
    add_row(state, row)
}

fn ask(command: Command) -> Event {
    Event::Ask {
        now: 100,
        port: 1,
        token: 7,
        user: plot(),
        command,
    }
}

fn submission(alloc: Global, folder: Option<Name>, script: Bytes) -> Event {
    ask(Command::Submit(Submission {
        queue: None,
        folder,
        job: job(ListOf::new(alloc), ListOf::new(alloc)),
        script,
    }))
}

// Whether a plan submits its job under these paths.
fn has_paths(plan: &Plan, out: &[u8], err: &[u8]) -> bool {
    match &plan.change {
        Some(Change::Submitted { job, .. }) => {
            job.out.as_slice() == out && job.err.as_slice() == err
        }
        _ => false,
    }
}

// Whether it does so under the paths of number 12, and under those in the folder `plot`.
fn places(plan: &Plan) -> [bool; 2] {
    [
        has_paths(plan, b"plot.o12", b"plot.e12"),
        has_paths(plan, b"plot/plot.o12", b"plot/plot.e12"),
    ]
}

// Whether the first bytes that a plan stores are the script.
fn stores_script(plan: &Plan) -> bool {
    match plan.puts.as_slice().first() {
        Some(bytes) => bytes.as_slice() == b"w".as_slice(),
        None => false,
    }
}

fn replies(plan: &Plan) -> bool {
    matches!(
        plan.outputs.as_slice().first(),
        Some(Output::Reply {
            port: 1,
            token: 7,
            reply: Reply::Submitted { .. }
        })
    )
}

fn submitted(plan: &Plan) -> [bool; 4] {
    let [plain, placed] = places(plan);
    [plain, placed, stores_script(plan), replies(plan)]
}

// What is seen of the plan of a submission, which takes number 12.
fn plan_submission(alloc: Global, state: &HostState, event: &mut Event) -> Option<[bool; 4]>
    requires { IsInOrder (content state.now) }
{
    let plan = step(alloc, state, event);
    plan.as_ref().ok().map(submitted)
}

fn submit_there(
    alloc: Global,
    state: &mut HostState,
    event: &mut Event,
) -> Result<Option<[bool; 4]>, Memory>
    requires { content state.old ≡ blank_host 11 }
{
    fill(alloc, state)?;
    Ok(plan_submission(alloc, state, event))
}

fn submit(alloc: Global, event: &mut Event) -> Result<Option<[bool; 4]>, Memory> {
    let mut state = host(alloc, 11);
    let seen = submit_there(alloc, &mut state, event);
    drop(state);
    seen
}

// What is seen of a submission with this script.
fn submit_script(
    alloc: Global,
    folder: Option<Name>,
    script: Bytes,
) -> Result<Option<[bool; 4]>, Memory> {
    let mut event = submission(alloc, folder, script);
    submit(alloc, &mut event)
}

#[test]
fn request_gets_a_number_and_paths(rt: HostRuntime) -> Result<(), Memory> {
    let alloc = rt.alloc();
    let script = ListOf::of(alloc, b'w')?;
    let seen = submit_script(alloc, None, script);
    assert_eq!(rt; seen, Ok(Some([true, false, true, true])));
    Ok(())
}

#[test]
fn paths_stand_in_the_folder(rt: HostRuntime) -> Result<(), Memory> {
    let alloc = rt.alloc();
    let script = ListOf::of(alloc, b'w')?;
    let seen = submit_script(alloc, Some(plot()), script);
    assert_eq!(rt; seen, Ok(Some([false, true, true, true])));
    Ok(())
}

fn dooms(plan: &Plan) -> bool {
    matches!(plan.change, Some(Change::Doomed(REQUEST)))
}

// Whether the second output of a plan ends the job's second start.
fn kills(plan: &Plan) -> bool {
    matches!(
        plan.outputs.as_slice().get(1),
        Some(Output::Kill {
            id: REQUEST,
            start: 2
        })
    )
}

fn deletes(plan: &Plan) -> bool {
    matches!(plan.change, Some(Change::Deleted(REQUEST)))
}

// What is seen of a plan that deletes: whether it dooms, kills and deletes, and how many outputs it
// has.
type Deletion = (bool, bool, bool, usize);

fn deleted(plan: &Plan) -> Deletion {
    (dooms(plan), kills(plan), deletes(plan), plan.outputs.len())
}

fn deletion() -> Event {
    let id = Named {
        seq: 12,
        host: plot(),
    };
    ask(Command::Delete { id, kill: true })
}

fn plan_deletion(alloc: Global, state: &HostState) -> Option<Deletion>
    requires { IsInOrder (content state.now) }
{
    let mut event = deletion();
    let plan = step(alloc, state, &mut event);
    plan.as_ref().ok().map(deleted)
}

fn delete_there(
    alloc: Global,
    state: &mut HostState,
    standing: RowState,
    lost: u16,
) -> Result<Option<Deletion>, Memory>
    requires blank { content state.old ≡ blank_host 12 }
    requires order { IsInOrder (plot_host 12 (plot_row (plot_job (codes "o") (codes "e")) standing lost ∷ [])) }
{
    fill_with(alloc, state, standing, lost)?;
    Ok(plan_deletion(alloc, state))
}

fn delete_running(alloc: Global) -> Result<Option<Deletion>, Memory> {
    let mut state = host(alloc, 12);
    let seen = delete_there(alloc, &mut state, RowState::Running, 1);
    drop(state);
    seen
}

fn delete_queued(alloc: Global) -> Result<Option<Deletion>, Memory> {
    let mut state = host(alloc, 12);
    let seen = delete_there(alloc, &mut state, RowState::Queued, 2);
    drop(state);
    seen
}

#[test]
fn running_job_is_killed(rt: HostRuntime) {
    let alloc = rt.alloc();
    assert_eq!(rt; delete_running(alloc), Ok(Some((true, true, false, 2))));
    assert_eq!(rt; delete_queued(alloc), Ok(Some((false, false, true, 1))));
}

// What is launched first, and how many outputs wait for bytes of the spool.
type Launched = (Option<LaunchOrder>, usize);

fn launched(plan: &Plan) -> Launched {
    match plan.outputs.as_slice().first() {
        Some(Output::Launch { order, .. }) => (Some(*order), plan.reads.len()),
        _ => (None, plan.reads.len()),
    }
}

fn plan_launch(alloc: Global, state: &HostState) -> Option<Launched>
    requires { IsInOrder (content state.now) }
{
    match start(alloc, state, 100) {
        Ok(Some(plan)) => Some(launched(&plan)),
        _ => None,
    }
}

fn launch_there(alloc: Global, state: &mut HostState) -> Result<Option<Launched>, Memory>
    requires { content state.old ≡ blank_host 12 }
{
    fill_with(alloc, state, RowState::Queued, 2)?;
    Ok(plan_launch(alloc, state))
}

fn launch_queued(alloc: Global) -> Result<Option<Launched>, Memory> {
    let mut state = host(alloc, 12);
    let seen = launch_there(alloc, &mut state);
    drop(state);
    seen
}

#[test]
fn job_is_launched(rt: HostRuntime) {
    let order = LaunchOrder {
        id: REQUEST,
        start: 3,
        name: plot(),
        owner: plot(),
        queue: plot(),
        limits: NO_LIMITS,
    };
    assert_eq!(rt; launch_queued(rt.alloc()), Ok(Some((Some(order), 1))));
}
