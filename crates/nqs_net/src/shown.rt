//! The table of a world, as the disks of its hosts tell it.
//!
//! A read fails for want of memory alone. A disk fails to read only after a call that was to fail,
//! and such a call stops its host, whose disks then have no fuse.

ghost use Rattle.std.specs.Prelude.{◌≡◌, ℕ, List, IfOk, OnOk, map};
ghost use Rattle.nqs_types.specs.declared.world.Which.{Which};
ghost use Rattle.nqs_disk.specs.MemDisk as mem;
ghost use Rattle.nqs_rules.specs.Net.{table};
ghost use Rattle.nqs_rules.specs.Run.{states_of};
ghost use Rattle.nqs_rules.specs.World.{World as Network, Host};
ghost use Rattle.nqs_laws.specs.Words.{IsInOrderAll};
ghost use Rattle.nqs_rules_table.specs.Standing.{StandsFor};
ghost use Rattle.nqs_store.specs.Disks.{histories_of};
ghost use Rattle.nqs_node.specs.Nodes.{history_of};
ghost use Rattle.nqs_net.specs.Followed.{disks_in};
ghost use Rattle.nqs_net.specs.Worlds.{IsUp, IsDown, IsSlot, IsWorld};

use crate::slot::{DownHost, Slot, UpHost};
use crate::world::World;
use nqs_base::Memory;
use nqs_rules_table::table_of;
use nqs_state::HostState;
use nqs_store::{LoadFault, read_only};
use nqs_types::TableRow;
use std::alloc::Global;

// Why a host wasn't read.
fn unread(fault: LoadFault) -> Memory
    requires whole { (which : Which) → fault ≡ LoadFault.Disk which → ⊥ }
    requires told { (which : Which) (place : ℕ) → fault ≡ LoadFault.NotNqs which place → ⊥ }
{
    match fault {
        LoadFault::Memory(memory) => memory,
        // No call was made that was to fail.
        LoadFault::Disk(_) => unreachable!(),
        // The disks tell the host.
        LoadFault::NotNqs(_, _) => unreachable!(),
    }
}

fn read_up(alloc: Global, up: &mut UpHost) -> Result<HostState, Memory>
    requires { (host : Host) × IsUp up.old.node.value host }
    ensures disks { (which : Which) → history_of up.new.node.value which ≡ history_of up.old.node.value which }
    ensures same { (host : Host) → IsUp up.old.node.value host → IsUp up.new.node.value host }
    ensures state { (host : Host) → IsUp up.old.node.value host → IfOk result (λ state. StandsFor state host.state) }
{
    match up.node.reread(alloc) {
        Ok(state) => Ok(state),
        Err(fault) => Err(unread(fault)),
    }
}

fn read_down(alloc: Global, down: &mut DownHost) -> Result<HostState, Memory>
    requires { (host : Host) × IsDown down.old.disks.value host }
    ensures disks { (which : Which) → histories_of mem.history_of down.new.disks.value which ≡ histories_of mem.history_of down.old.disks.value which }
    ensures same { (host : Host) → IsDown down.old.disks.value host → IsDown down.new.disks.value host }
    ensures state { (host : Host) → IsDown down.old.disks.value host → IfOk result (λ state. StandsFor state host.state) }
{
    match read_only(alloc, &mut *down.disks) {
        Ok(state) => Ok(state),
        Err(fault) => Err(unread(fault)),
    }
}

// The state of a host, as its disks tell it.
fn read(alloc: Global, slot: &mut Slot) -> Result<HostState, Memory>
    requires { (host : Host) × IsSlot slot.old host }
    ensures disks { disks_in slot.new ≡ disks_in slot.old }
    ensures same { (host : Host) → IsSlot slot.old host → IsSlot slot.new host }
    ensures state { (host : Host) → IsSlot slot.old host → IfOk result (λ state. StandsFor state host.state) }
{
    match slot {
        Slot::Up(up) => read_up(alloc, up),
        Slot::Down(down) => read_down(alloc, down),
    }
}

impl World {
    /// The rows of the network's table, by host and then by request, as the disks of the hosts tell
    /// them. No write or sync is made. After an `Err` the world is used no more.
    pub fn table(&mut self, alloc: Global) -> Result<Vec<TableRow>, Memory>
        requires sound { (site : List (List ℕ)) × (network : Network) × IsInOrderAll site network × IsWorld self.old network }
        ensures world { (network : Network) → IsWorld self.old network → OnOk result (IsWorld self.new network) }
        ensures disks { OnOk result (map disks_in self.new.slots.items ≡ map disks_in self.old.slots.items) }
        ensures rows { (network : Network) → IsWorld self.old network → IfOk result (λ rows. rows.items ≡ table (states_of network)) }
    {
        let mut states = Vec::new(alloc);
        for slot in self.slots.iter_mut() {
            states.push(read(alloc, slot)?)?;
        }
        table_of(alloc, &states)
    }
}
