//! Laws of changes that mean many requests of a host: each does all that it does to them at once,
//! in any run of 1 to 16 hosts, with stops at any call.
ghost use Rattle.std.specs.Prelude.{◌≡◌, ℕ, true};
ghost use Rattle.nqs_state.specs.State.{Plain};
ghost use Rattle.nqs_types.specs.declared.ids.HostId.{HostId};
ghost use Rattle.nqs_types.specs.declared.event.Event.TheVariants.{Tick};
ghost use Rattle.nqs_rules.specs.Starts.{after_step};
ghost use Rattle.nqs_rules.specs.Step.{step};
ghost use Rattle.nqs_laws.specs.Each.{InEachWorld, InEachHistory};
ghost use Rattle.nqs_laws.specs.Handovers.{IsStateOf};
ghost use Rattle.nqs_laws.specs.AtOnce.{LeavesNone, TakesBackAll, has_no_silence};

/// After a boot that was kept nothing runs on its host; after a purge nothing waits in its queue
/// there; after an abort each request that runs from its queue there is doomed.
pub fn boots_purges_and_aborts_leave_none()
    ensures { InEachHistory LeavesNone }
{}

/// A tick takes back every offer that is silent: none of its host's is so after the change that it
/// keeps, nor where it keeps none.
pub fn ticks_take_back_all()
    ensures kept { InEachHistory TakesBackAll }
    ensures stepped { InEachWorld (λ w. (host : HostId) (s : Plain) → IsStateOf w host s → (now : ℕ)
        → has_no_silence now (after_step (step (Tick now) s) s) ≡ true) }
{}
