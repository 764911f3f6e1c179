//! Laws of order: what a host's state in order is stays so, and whatever a step makes fits it.
ghost use Rattle.std.specs.Prelude.{◌≡◌, ℕ, List, length, ◌<◌, ◌≤◌, IfSome, IsTrue};
ghost use Rattle.nqs_state.specs.State.{State};
ghost use Rattle.nqs_types.specs.declared.change.Change.{Change};
ghost use Rattle.nqs_types.specs.declared.event.Event.{Event};
ghost use Rattle.nqs_base.specs.declared.extent.Extent.{Extent};
ghost use Rattle.nqs_types.specs.declared.ids.HostId.{HostId};
ghost use Rattle.nqs_rules.specs.Applied.{applied};
ghost use Rattle.nqs_rules.specs.Fits.{fits};
ghost use Rattle.nqs_rules.specs.Format.{formatted};
ghost use Rattle.nqs_rules.specs.InOrder.{IsConsistent, IsInOrder};
ghost use Rattle.nqs_rules.specs.Sane.{is_sane_change, is_sane_event};
ghost use Rattle.nqs_rules.specs.Start.{start};
ghost use Rattle.nqs_rules.specs.Step.{step};

/// A host of a site of 1 to 16 hosts is in order as it is formatted, with what besides holds at
/// every moment.
pub fn formatted_is_in_order()
    ensures order { (me : HostId) (site : List (List ℕ)) → me.0 < length site → length site ≤ 16 → IsInOrder (formatted {E = Extent} me site) }
    ensures consistent { (me : HostId) (site : List (List ℕ)) → IsConsistent (formatted {E = Extent} me site) }
{}

/// Whatever change fits a state in order, and is within its limits, leaves it in order.
pub fn order_is_kept()
    ensures { (c : Change Extent) (s : State Extent) → IsInOrder s → IsTrue (is_sane_change c) → IsTrue (fits c s) → IsInOrder (applied c s) }
{}

/// What besides holds of a host at every moment stays so under each change that fits.
pub fn consistent_is_kept()
    ensures { (c : Change Extent) (s : State Extent) → IsInOrder s → IsConsistent s → IsTrue (is_sane_change c) → IsTrue (fits c s)
        → IsConsistent (applied c s) }
{}

/// Whatever change a step makes at a host in order fits the host, and is within its limits, where
/// the event is within its own.
pub fn step_fits()
    ensures { (e : Event) (s : State Extent) → IsInOrder s → IsTrue (is_sane_event (length s.site) e)
        → IfSome (step e s).change (λ c. IsTrue (fits c s) × IsTrue (is_sane_change c)) }
{}

/// Whatever change a start makes of a host in order fits the host, and is within its limits.
pub fn start_fits()
    ensures { (now : ℕ) (s : State Extent) → IsInOrder s → IfSome (start now s) (λ x. IfSome x.change (λ c. IsTrue (fits c s) × IsTrue (is_sane_change c))) }
{}
