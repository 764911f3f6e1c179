//! A node carries out a plan.

ghost use Rattle.std.specs.Prelude.{◌≡◌, false, IsTrue, IfOk, OnOk, length};
ghost use Rattle.nqs_state.specs.State.{Plain};
ghost use Rattle.nqs_store.specs.Reads.{of_spool};
ghost use Rattle.nqs_store.specs.Sound.{IsSoundHost};
ghost use Rattle.nqs_node.specs.Carried.{Kept, IsSpelled};
ghost use Rattle.nqs_node.specs.Leaves.{Leaves, CarriesOut};
ghost use Rattle.nqs_node.specs.Planned.{IsKeptWith, MayBeDone};

use crate::node::Node;
use crate::perform::perform;
use nqs_outside::Disk;
use nqs_store::StoreFault;
use nqs_types::{Output, Plan};
use std::alloc::Global;

impl<D: Disk> Node<D> {
    ghost use Rattle.nqs_node.specs.Nodes.{active_of, content_of, history_of, is_stopped, Tells, AsksAtMost};

    // Carries out a plan of this host: reads, keeps and makes it, and adds to `out` what goes out.
    // Answers whether the plan halts its host.
    pub(crate) fn carry_out(
        &mut self,
        alloc: Global,
        plan: Plan,
        out: &mut Vec<Output>,
    ) -> Result<bool, StoreFault>
        requires sound { IsSoundHost (content_of self.old) }
        requires running { is_stopped self.old ≡ false }
        requires may { MayBeDone (content_of self.old) plan }
        ensures leaves { Leaves self.old self.new out.old out.new result }
        ensures halts { IfOk result (λ halts. halts ≡ plan.halts) }
        ensures carries { CarriesOut self.old self.new out.old.items out.new.items plan result }
        ensures spelled { IsTrue D.tells → (s : Plain) → Tells self.old s → (kept : Kept) → IsKeptWith plan.change plan.puts kept
            → OnOk result (IsSpelled (active_of self.old) (history_of self.old) (history_of self.new) kept) }
        // The spool is asked once for each read, and no other disk.
        ensures asks { AsksAtMost self.old self.new (of_spool (length plan.reads)) }
    {
        match out.reserve(plan.outputs.len()) {
            Err(refused) => Err(StoreFault::Memory(refused.into())),
            Ok(()) => {
                let halts = plan.halts;
                let (change, puts, outputs, reads) = plan.into_parts();
                let mut outputs = outputs.into_vec();
                // What fails from here on leaves the node stopped, but for want of memory.
                self.stopped = true;
                let (store, state, idle) = (&mut self.store, &mut self.state, &mut self.idle);
                match perform(
                    alloc,
                    store,
                    state,
                    idle,
                    change,
                    puts.as_slice(),
                    reads.as_slice(),
                    &mut outputs,
                ) {
                    Err(StoreFault::Memory(memory)) => {
                        self.stopped = false;
                        Err(StoreFault::Memory(memory))
                    }
                    Err(StoreFault::Disk(which)) => Err(StoreFault::Disk(which)),
                    // The store isn't stopped, as the node wasn't.
                    Err(StoreFault::Stopped) => unreachable!(),
                    Ok(()) => {
                        self.stopped = false;
                        out.append(&mut outputs).unwrap();
                        Ok(halts)
                    }
                }
            }
        }
    }
}
