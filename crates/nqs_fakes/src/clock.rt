//! A clock in memory, which gives the moments of a list.

ghost use Rattle.std.specs.Prelude.{◌≡◌, ◌<◌, ◌∷◌, [], Some, false, length, slice_index};
ghost use Rattle.nqs_outside.specs.Told.{Extends};

use nqs_base::ListOf;
use nqs_outside::Clock;
use std::alloc::Global;

/// A clock that gives its moments in order, and then the last one again.
#[derive(Drop)]
pub struct ListClock {
    moments: ListOf<u64>,
    at: usize,
    given: ListOf<u64>,
    starved: bool,
    ghost inside: { at < length moments },
}

impl ListClock {
    ghost use Rattle.nqs_fakes.specs.Clock.{given_of};

    /// A clock that is to give these moments.
    pub fn new(alloc: Global, moments: ListOf<u64>) -> ListClock
        requires { 0 < length moments }
        ensures given { given_of result ≡ Some [] }
        ensures moments { result.moments ≡ moments }
        ensures at { result.at ≡ 0 }
    {
        ListClock {
            moments,
            at: 0,
            given: ListOf::new(alloc),
            starved: false,
        }
    }

    /// The moments that it gave.
    pub fn given(&self) -> &[u64]
        ensures { result.now ≡ self.now.given }
    {
        self.given.as_slice()
    }

    /// Whether memory for what it keeps was refused. Where it wasn't, the clock tells all that it
    /// gave.
    pub fn is_starved(&self) -> bool
        ensures starved { result ≡ self.now.starved }
        ensures given { result ≡ false → given_of self.now ≡ Some self.now.given }
    {
        self.starved
    }
}

impl Clock for ListClock {
    ghost use Rattle.nqs_fakes.specs.Clock.{given_of, next_place};

    ghost given = { given_of };

    fn now(&mut self) -> u64
        ensures given { Extends (given_of self.old) (given_of self.new) (result ∷ []) }
        ensures moment { result ≡ slice_index self.old.moments self.old.at }
        ensures moments { self.new.moments ≡ self.old.moments }
        ensures at { self.new.at ≡ next_place self.old.moments self.old.at }
    {
        let moments = self.moments.as_slice();
        let now = moments[self.at];
        if self.at + 1 < moments.len() {
            self.at += 1;
        }
        if self.given.push(now).is_err() {
            self.starved = true;
        }
        now
    }
}
