//! The time.

ghost use Rattle.std.specs.Prelude.{[], ◌∷◌, List, ℕ};
ghost use Rattle.std.specs.declared.option.Option.{Option};
ghost use Rattle.nqs_outside.specs.Told.{Extends};

/// The time.
pub trait Clock {
    /// The moments that it gave, where it tells them. A real one doesn't.
    ghost given: { Self → Option (List ℕ) };

    /// Whole seconds since 1970 in UTC. It can't fail, and may go back.
    fn now(&mut self) -> u64
        ensures { Extends (given self.old) (given self.new) (result ∷ []) };
}
