//! Laws of changes and steps: a host that keeps extents of its spool does what one that keeps the
//! bytes themselves does.
ghost use Rattle.std.specs.Prelude.{◌≡◌, ℕ, List, map, Some};
ghost use Rattle.nqs_state.specs.State.{State, Plain};
ghost use Rattle.nqs_base.specs.declared.extent.Extent.{Extent};
ghost use Rattle.nqs_types.specs.declared.change.Change.{Change};
ghost use Rattle.nqs_types.specs.declared.event.Event.{Event};
ghost use Rattle.nqs_rules.specs.Applied.{applied};
ghost use Rattle.nqs_rules.specs.Filled.{filled};
ghost use Rattle.nqs_rules.specs.Fits.{fits};
ghost use Rattle.nqs_rules.specs.Shutdowns.{shuts_down};
ghost use Rattle.nqs_rules.specs.Plain.{map_state};
ghost use Rattle.nqs_rules.specs.Step.{step};
ghost use Rattle.nqs_rules.specs.Stepped.{Stepped, plan_of, map_change, map_stepped, no_extent, stored_parts};

/// A change of a state is, on the bytes that its extents name, the same change of the plain state.
pub fn plain_state_follows()
    ensures { (f : Extent → List ℕ) (c : Change Extent) (s : State Extent) → map_state f (applied c s) ≡ applied (map_change f c) (map_state f s) }
{}

/// Whether a change fits a state depends neither on the bytes of the state nor on those of the
/// change.
pub fn fits_looks_at_no_bytes()
    ensures state { (f : Extent → List ℕ) (c : Change (List ℕ)) (s : State Extent) → fits c (map_state f s) ≡ fits c s }
    ensures change { (f : Extent → List ℕ) (c : Change Extent) (s : State (List ℕ)) → fits (map_change f c) s ≡ fits c s }
{}

/// A step hands stored bytes on, and does nothing else by them.
pub fn step_looks_at_no_bytes()
    ensures { (f : Extent → List ℕ) (e : Event) (s : State Extent) → step e (map_state f s) ≡ map_stepped f (step e s) }
{}

/// A step halts its host exactly where it is a shutdown that its user may give.
pub fn only_granted_shutdowns_halt()
    ensures { (e : Event) (s : Plain) → (step e s).halts ≡ shuts_down e s }
{}

/// Whatever extents are put into a planned change: with the bytes that the plan has for it, or with
/// those that its extents read, it is the planned change itself.
pub fn filled_change_is_planned()
    ensures plan { (done : Stepped Extent) (c : Change Extent) → Some (map_change (λ _. no_extent) c) ≡ (plan_of done).change
        → Some (filled c (plan_of done).puts) ≡ done.change }
    ensures filled { (c : Change Extent) (planned : Change (List ℕ)) → map_change (λ _. no_extent) c ≡ map_change (λ _. no_extent) planned
        → filled c (stored_parts planned) ≡ planned }
    ensures read { (c : Change Extent) (planned : Change (List ℕ)) → map_change (λ _. no_extent) c ≡ map_change (λ _. no_extent) planned → (f : Extent → List ℕ)
        → map f (stored_parts c) ≡ stored_parts planned → map_change f c ≡ planned }
{}
