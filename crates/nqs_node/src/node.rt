//! A node: a host's state, and the store that keeps it.

ghost use Rattle.std.specs.Prelude.{◌≡◌, ◌≢◌, ◌<◌, ◌≤◌, ◌+◌, ◌-◌, ℕ, IsTrue, IsErrOf, OnOk, IfOk, false, length};
ghost use Rattle.std.specs.Prelude.{max, nat_le, is_some};
ghost use Rattle.std.specs.Option.{option_map};
ghost use Rattle.nqs_state.specs.State.{Plain, content};
ghost use Rattle.nqs_types.specs.declared.world.Which.{Which};
ghost use Rattle.nqs_types.specs.declared.world.Which.TheVariants.{Root};
ghost use Rattle.nqs_outside.specs.History.{moment, content as bytes_now};
ghost use Rattle.nqs_rules.specs.Journals.{is_second};
ghost use Rattle.nqs_rules.specs.Measure.{starts_left};
ghost use Rattle.nqs_rules.specs.Sane.{is_sane_event};
ghost use Rattle.nqs_rules.specs.Start.{start};
ghost use Rattle.nqs_rules.specs.Step.{step};
ghost use Rattle.nqs_rules.specs.Stepped.{plan_of};
ghost use Rattle.nqs_store.specs.Disks.{disk_at};
ghost use Rattle.nqs_store.specs.Reads.{of_spool, of_reading};
ghost use Rattle.nqs_store.specs.Sound.{IsSoundHost};
ghost use Rattle.nqs_store.specs.Stores.{is_stopped as is_store_stopped};
ghost use Rattle.nqs_back.specs.Back.{comebacks, comes_back};
ghost use Rattle.nqs_node.specs.Carried.{started, IsSpelled};
ghost use Rattle.nqs_node.specs.Idle.{is_idle};
ghost use Rattle.nqs_node.specs.Reading.{reads_for};

use nqs_base::Memory;
use nqs_host_laws::laws::{
    few_offers_are_taken_back, outputs_read_live_extents, stored_bytes_are_short,
};
use nqs_outside::{Disk, Fused};
use nqs_rules::laws::step_looks_at_no_bytes;
use nqs_rules::order_laws::{start_fits, step_fits};
use nqs_rules::start_laws::start_looks_at_no_bytes;
use nqs_state::HostState;
use nqs_step::start::start;
use nqs_step::step::step;
use nqs_store::{Disks, LoadFault, Store, StoreFault};
use nqs_types::{Event, Output, Plan, Which};
use std::alloc::Global;

/// A host over its disks.
#[derive(Drop)]
pub struct Node<D: Disk> {
    pub(crate) store: Store<D>,
    pub(crate) state: HostState,
    pub(crate) stopped: bool,
    // The moment, in seconds since 1970, at which a look found nothing to start, if no change was
    // made since.
    pub(crate) idle: Option<u64>,
    ghost running: { stopped ≡ false → is_store_stopped store ≡ false },
    ghost rests: { IsTrue (is_idle idle (content state)) },
}

impl<D: Disk> Node<D> {
    ghost use Rattle.nqs_node.specs.Nodes.{disk_of, history_of, fails_of, active_of, content_of, bare, is_stopped, Tells, OnlyReads};
    ghost use Rattle.nqs_node.specs.Nodes.{FailedToRead, AsksAtMost};
    ghost use Rattle.nqs_node.specs.Leaves.{Leaves, TakesStep};

    /// Takes an event: keeps its change, makes it, and adds to `out` what goes out. Answers whether
    /// the host halts: then it is to stop when all that may start has started. `Memory` and
    /// `Stopped` leave all as it was, but for the event: what is to be stored was moved out of it,
    /// so that it can't be taken once more.
    pub fn take(
        &mut self,
        alloc: Global,
        event: &mut Event,
        out: &mut Vec<Output>,
    ) -> Result<bool, StoreFault>
        requires sound { IsSoundHost (content_of self.old) }
        requires sane { IsTrue (is_sane_event (length (content_of self.old).site) event.old) }
        ensures leaves { Leaves self.old self.new out.old out.new result }
        ensures takes { TakesStep self.old self.new out.old.items out.new.items (step event.old) result }

        // What its commit writes to the journal is the record that spells the change, byte by byte.
        ensures spelled { IsTrue D.tells → (s : Plain) → Tells self.old s
            → OnOk result (IsSpelled (active_of self.old) (history_of self.old) (history_of self.new) (step event.old s).change) }

        // The spool is asked once for each output whose bytes are kept, and no other disk.
        ensures asks { AsksAtMost self.old self.new (of_spool (reads_for (step event.old (bare self.old)).outputs)) }

        // It halts where its step does.
        ensures halts { IfOk result (λ halts. halts ≡ (step event.old (bare self.old)).halts) }

        // After an event that came back no more may start than before, and nothing goes out of
        // which another comes back.
        ensures no_more { IsTrue (comes_back event.old) → OnOk result (starts_left (content_of self.new) ≤ starts_left (content_of self.old)) }
        ensures none_back { IsTrue (comes_back event.old) → OnOk result (comebacks out.new.items ≡ comebacks out.old.items) }
    {
        if self.stopped {
            return Err(StoreFault::Stopped);
        }
        step_looks_at_no_bytes();
        step_fits();
        few_offers_are_taken_back();
        stored_bytes_are_short();
        outputs_read_live_extents();
        match step(alloc, &self.state, event) {
            Err(memory) => Err(StoreFault::Memory(memory)),
            Ok(plan) => self.carry_out(alloc, plan, out),
        }
    }

    // The plan of what is started next. It asks the index for the next start only where it isn't
    // known that nothing may start.
    fn look(&self, alloc: Global, now: u64) -> Result<Option<Plan>, Memory>
        requires { IsSoundHost (content_of self.now) }
        ensures { IfOk result (λ plan. plan ≡ option_map plan_of (start now (content_of self.now))) }
    {
        if self.idle == Some(now) {
            return Ok(None);
        }
        start(alloc, &self.state, now)
    }

    /// Starts the next request, if one may start: `false` where none may. `Memory` and `Stopped`
    /// leave all as it was. Where the last such call at this moment found none, and no change was
    /// made since, it doesn't look again.
    pub fn start_next(
        &mut self,
        alloc: Global,
        now: u64,
        out: &mut Vec<Output>,
    ) -> Result<bool, StoreFault>
        requires sound { IsSoundHost (content_of self.old) }
        ensures leaves { Leaves self.old self.new out.old out.new result }
        ensures takes { TakesStep self.old self.new out.old.items out.new.items (started now) result }

        // What its commit writes to the journal is the record that spells the start.
        ensures spelled { IsTrue D.tells → (s : Plain) → Tells self.old s
            → OnOk result (IsSpelled (active_of self.old) (history_of self.old) (history_of self.new) (started now s).change) }

        // The spool is asked once for each output whose bytes are kept, and no other disk.
        ensures asks { AsksAtMost self.old self.new (of_spool (reads_for (started now (bare self.old)).outputs)) }

        // It is false exactly where none may start.
        ensures more { IfOk result (λ more. more ≡ is_some (start now (content_of self.old))) }

        // A call of a disk fails only where one may.
        ensures due { (which : Which) → IsErrOf result (StoreFault.Disk which) → IsTrue (is_some (start now (content_of self.old))) }

        // Where none may start, nothing happens.
        ensures idle { IfOk result (λ more. more ≡ false → (content_of self.new ≡ content_of self.old) × (out.new.items ≡ out.old.items)) }

        // Each start lowers how many there may still be, and of each at most one event comes back.
        ensures fewer { IfOk result (λ more. IsTrue more → starts_left (content_of self.new) < starts_left (content_of self.old)) }
        ensures one_back { OnOk result (comebacks out.new.items ≤ comebacks out.old.items + 1) }
    {
        if self.stopped {
            return Err(StoreFault::Stopped);
        }
        start_looks_at_no_bytes();
        start_fits();
        few_offers_are_taken_back();
        stored_bytes_are_short();
        outputs_read_live_extents();
        match self.look(alloc, now) {
            Err(memory) => Err(StoreFault::Memory(memory)),
            Ok(None) => {
                self.idle = Some(now);
                Ok(false)
            }
            Ok(Some(plan)) => match self.carry_out(alloc, plan, out) {
                Err(fault) => Err(fault),
                Ok(_) => Ok(true),
            },
        }
    }

    /// The host's state.
    pub fn state(&self) -> &HostState
        ensures { content result.now ≡ content_of self.now }
    {
        &self.state
    }

    /// Whether an earlier `take` or `start_next` was answered `Disk`; a reading stops nothing.
    pub fn is_stopped(&self) -> bool
        ensures { result ≡ is_stopped self.now }
    {
        self.stopped
    }

    /// Hands the disks back. After `Disk` they may have writes pending.
    pub fn close(self) -> Disks<D>
        ensures { (which : Which) → disk_at which result ≡ disk_of which self }
    {
        self.store.close()
    }

    /// Tells the host by what its disks hold now, and writes nothing.
    pub fn reread(&mut self, alloc: Global) -> Result<HostState, LoadFault>
        ensures told { IsTrue D.tells → (s : Plain) → Tells self.old s → IfOk result (λ state. content state ≡ content_of self.old) }
        ensures never { IsTrue D.tells → (s : Plain) → Tells self.old s → (which : Which) (place : ℕ) → IsErrOf result (LoadFault.NotNqs which place) → ⊥ }
        ensures failed { (which : Which) → IsErrOf result (LoadFault.Disk which) → FailedToRead self.old self.new which }
        ensures reads { OnlyReads self.old self.new }
        // The root and the spool are asked once, the journal that is named twice, no other.
        ensures asks { AsksAtMost self.old self.new (of_reading (is_second (bytes_now (history_of self.old Root)))) }
        ensures state { content_of self.new ≡ content_of self.old }
        ensures stays { (is_stopped self.new ≡ is_stopped self.old) × (active_of self.new ≡ active_of self.old) }
        ensures tells { IsTrue D.tells → (s : Plain) → Tells self.old s → Tells self.new s }
    {
        self.store.reread(alloc)
    }
}

impl<D: Fused> Node<D> {
    ghost use Rattle.nqs_node.specs.Nodes.{disk_of, history_of, fails_of, active_of, content_of, is_stopped, Tells};

    /// Makes the calls-th write or sync from here of the disk fail, and each later call of it. It
    /// changes nothing else.
    pub fn fuse(&mut self, which: Which, calls: u64)
        ensures same { (disk : Which) → history_of self.new disk ≡ history_of self.old disk }
        ensures set { IsTrue D.tells → ((i : ℕ) → i < moment (history_of self.old which) → fails_of self.old which i ≡ false)
            → (i : ℕ) → fails_of self.new which i ≡ nat_le (moment (history_of self.old which) + (max calls 1 - 1)) i }
        ensures others { (disk : Which) → disk ≢ which → (i : ℕ) → fails_of self.new disk i ≡ fails_of self.old disk i }
        ensures state { content_of self.new ≡ content_of self.old }
        ensures stopped { (is_stopped self.new ≡ is_stopped self.old) × (active_of self.new ≡ active_of self.old) }
        ensures unread { (disk : Which) → D.reads (disk_of disk self.new) ≡ D.reads (disk_of disk self.old) }
        ensures tells { (s : Plain) → Tells self.old s → Tells self.new s }
    {
        self.store.fuse(which, calls);
    }
}
