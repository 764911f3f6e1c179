//! The law of causes: which changes an event of a schedule may make, and where.
ghost use Rattle.std.specs.Prelude.{◌≡◌, ◌∷◌, ℕ, List, None};
ghost use Rattle.nqs_types.specs.declared.ids.HostId.{HostId};
ghost use Rattle.nqs_types.specs.declared.change.Change.{Change};
ghost use Rattle.nqs_types.specs.declared.event.Event.{Event};
ghost use Rattle.nqs_types.specs.declared.world.Seen.TheVariants.{Stop};
ghost use Rattle.nqs_rules.specs.Notes.{Why, ByEvent, Note, Saw, Kept};
ghost use Rattle.nqs_rules.specs.World.{World, Act};
ghost use Rattle.nqs_laws.specs.History.{history};
ghost use Rattle.nqs_laws.specs.Caused.{KeepsOwn, KeepsBy, IsCaused};

/// Each event of a run, from any world on, changes one host at most: it keeps one change of its own
/// kind there at most, and then starts, and nothing behind a stop. What has no change to make, as a
/// clock or an event of a host that is down, keeps none.
pub fn events_make_their_own_changes()
    ensures { (acts : List Act) (w : World) → IsCaused acts w (history acts w) }
{}

/// What no event has kept then: two changes for events, one at another host, one behind a stop, or
/// any without a cause.
pub fn no_event_makes_another_change()
    ensures twice { (h : HostId) (own : Why) (d e : Event) (b c : Change (List ℕ)) (ns : List Note)
        → KeepsOwn h own (Kept h (ByEvent d) b ∷ Kept h (ByEvent e) c ∷ ns) → ⊥ }
    ensures elsewhere { (h g : HostId) (own why : Why) (c : Change (List ℕ)) (ns : List Note) → (g ≡ h → ⊥) → KeepsOwn h own (Kept g why c ∷ ns) → ⊥ }
    ensures stopped { (h g i : HostId) (own why : Why) (c : Change (List ℕ)) (ns : List Note) → KeepsOwn h own (Saw (Stop g) ∷ Kept i why c ∷ ns) → ⊥ }
    ensures uncaused { (h : HostId) (why : Why) (c : Change (List ℕ)) (ns : List Note) → KeepsBy None (Kept h why c ∷ ns) → ⊥ }
{}
