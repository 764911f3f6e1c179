//! A host's state on its disks: opened, read again, and closed.

ghost use Rattle.std.specs.Prelude.{◌≡◌, ◌≤◌, ◌^◌, ℕ, true, false, IsTrue, IsErrOf, IfOk, IfErr, if◌then◌else◌};
ghost use Rattle.nqs_state.specs.State.{Plain, content};
ghost use Rattle.nqs_types.specs.declared.world.Which.{Which};
ghost use Rattle.nqs_outside.specs.History.{IsQuiet, content as bytes_now};
ghost use Rattle.nqs_journal.specs.Open.{is_stopped as is_journal_stopped};
ghost use Rattle.nqs_store.specs.Told.{Host};
ghost use Rattle.nqs_spool.specs.Extents.{AreSound};
ghost use Rattle.nqs_store.specs.Live.{live};
ghost use Rattle.nqs_store.specs.Sound.{IsSoundHost};
ghost use Rattle.nqs_store.specs.Disks.{disk_at, histories_of, contents};
ghost use Rattle.nqs_store.specs.Images.{IsTold, IsToldHost};
ghost use Rattle.nqs_store.specs.Faults.{IsLoadFault};
ghost use Rattle.nqs_store.specs.Reads.{OnlyReads, FailedToRead, AsksAtMost, of_reading};
ghost use Rattle.nqs_rules.specs.Journals.{is_second};

use crate::disks::Disks;
use crate::fault::LoadFault;
use crate::reading::{names_second, open_with, read_host};
use nqs_journal::Journal;
use nqs_outside::Disk;
use nqs_spool::Spool;
use nqs_state::HostState;
use nqs_types::Which;
use std::alloc::Global;

/// The durable state of a host: each change is one record of the active journal, and the scripts
/// and outputs that it names stand in the spool. `root` names the active journal; the other one is
/// at rest until a checkpoint begins it anew.
#[derive(Drop)]
pub struct Store<D: Disk> {
    pub(crate) root: D,
    pub(crate) first: Journal<D>,
    pub(crate) second: Journal<D>,
    pub(crate) spool: Spool<D>,
    /// Whether the active journal is the one on `second`.
    pub(crate) on_second: bool,
    pub(crate) stopped: bool,
    ghost running: { stopped ≡ false → is_journal_stopped (if on_second then second else first) ≡ false },
}

/// Tells the host of these disks, and writes nothing.
#[tactic(none)]
pub fn read_only<D: Disk>(alloc: Global, disks: &mut Disks<D>) -> Result<HostState, LoadFault>
    ensures told { IsTrue D.tells → IfOk result (λ state. IsToldHost (contents (histories_of D.history disks.old)) (content state)) }
    ensures sound { IfOk result (λ state. IsSoundHost (content state)) }
    // Whatever the disks are, its live extents end within 2^40 bytes, and no two meet.
    ensures extents { IfOk result (λ state. (size : ℕ) × (size ≤ 2 ^ 40) × AreSound size (live (content state))) }
    ensures fault { IsTrue D.tells → IfErr result (IsLoadFault (contents (histories_of D.history disks.old))) }
    ensures failed { (which : Which) → IsErrOf result (LoadFault.Disk which)
        → FailedToRead D.Disk (λ at. disk_at at disks.old) (λ at. disk_at at disks.new) which }

    // The host is the one that the bytes tell, and where they tell one they are at fault nowhere.
    ensures host { IsTrue D.tells → (host : Host) → IsToldHost (contents (histories_of D.history disks.old)) host
        → IfOk result (λ state. content state ≡ host) }
    ensures never { IsTrue D.tells → (plain : Plain) → IsTold (contents (histories_of D.history disks.old)) plain
        → (which : Which) (place : ℕ) → IsErrOf result (LoadFault.NotNqs which place) → ⊥ }

    ensures reads { OnlyReads D.Disk (λ at. disk_at at disks.old) (λ at. disk_at at disks.new) }
    // The root and the spool are asked once, the journal that is named twice, the other one never.
    ensures asks { AsksAtMost D.Disk (λ at. disk_at at disks.old) (λ at. disk_at at disks.new)
        (of_reading (is_second (bytes_now (D.history disks.old.root)))) }
{
    let Ok(second) = names_second(&mut disks.root) else {
        return Err(LoadFault::Disk(Which::Root));
    };
    if second {
        read_host(alloc, Which::Second, &mut disks.second, &mut disks.spool)
    } else {
        read_host(alloc, Which::First, &mut disks.first, &mut disks.spool)
    }
}

impl<D: Disk> Store<D> {
    ghost use Rattle.nqs_store.specs.Opens.{OpensOn, Loads};
    ghost use Rattle.nqs_store.specs.Stores.{disk_of, journal_in};

    /// Opens the disks of a host, and tells it. Nothing is pending on them. On a refusal they are
    /// handed back.
    #[tactic(none)]
    pub fn load(
        alloc: Global,
        disks: Disks<D>,
    ) -> Result<(Store<D>, HostState), (LoadFault, Disks<D>)>
        requires { IsTrue D.tells → (which : Which) → IsQuiet (histories_of D.history disks which) }
        ensures { Loads disks result }
    {
        let Disks {
            mut root,
            first,
            second,
            spool,
        } = disks;
        let Ok(on_second) = names_second(&mut root) else {
            let disks = Disks {
                root,
                first,
                second,
                spool,
            };
            return Err((LoadFault::Disk(Which::Root), disks));
        };
        if on_second {
            Self::open_second(alloc, root, first, second, spool)
        } else {
            Self::open_first(alloc, root, first, second, spool)
        }
    }

    // Opens the disks of a host whose root names the journal on `second`.
    #[tactic(none)]
    fn open_second(
        alloc: Global,
        root: D,
        first: D,
        second: D,
        spool: D,
    ) -> Result<(Store<D>, HostState), (LoadFault, Disks<D>)>
        requires { IsTrue D.tells → IsQuiet (D.history second) × IsQuiet (D.history spool) }
        ensures { OpensOn true root second first spool result }
    {
        match open_with(alloc, Which::Second, second, first, spool) {
            Err((fault, second, first, spool)) => {
                let disks = Disks {
                    root,
                    first,
                    second,
                    spool,
                };
                Err((fault, disks))
            }
            Ok((second, first, spool, state)) => {
                let store = Store {
                    root,
                    first,
                    second,
                    spool,
                    on_second: true,
                    stopped: false,
                };
                Ok((store, state))
            }
        }
    }

    // The same where it names that on `first`.
    #[tactic(none)]
    fn open_first(
        alloc: Global,
        root: D,
        first: D,
        second: D,
        spool: D,
    ) -> Result<(Store<D>, HostState), (LoadFault, Disks<D>)>
        requires { IsTrue D.tells → IsQuiet (D.history first) × IsQuiet (D.history spool) }
        ensures { OpensOn false root first second spool result }
    {
        match open_with(alloc, Which::First, first, second, spool) {
            Err((fault, first, second, spool)) => {
                let disks = Disks {
                    root,
                    first,
                    second,
                    spool,
                };
                Err((fault, disks))
            }
            Ok((first, second, spool, state)) => {
                let store = Store {
                    root,
                    first,
                    second,
                    spool,
                    on_second: false,
                    stopped: false,
                };
                Ok((store, state))
            }
        }
    }

    // The active journal.
    pub(crate) fn journal(&self) -> &Journal<D>
        ensures { result.now ≡ journal_in self.now.on_second self.now }
    {
        if self.on_second {
            &self.second
        } else {
            &self.first
        }
    }

    /// Hands the disks back.
    pub fn close(self) -> Disks<D>
        ensures { (which : Which) → disk_at which result ≡ disk_of which self }
    {
        let Store {
            root,
            first,
            second,
            spool,
            on_second: _,
            stopped: _,
        } = self;
        Disks {
            root,
            first: first.close(),
            second: second.close(),
            spool: spool.close(),
        }
    }
}
