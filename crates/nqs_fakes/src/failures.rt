//! Which calls fail.

ghost use Rattle.std.specs.Prelude.{◌≡◌, ◌≤◌};
ghost use Rattle.nqs_outside.specs.Memory.{next};

use nqs_outside::Failed;

/// The numbers of the calls that are to fail, from 1 on, how many calls there were, and how many
/// failed.
#[derive(Drop)]
pub struct Failures {
    numbers: Vec<u64>,
    calls: u64,
    faults: u64,
}

impl Failures {
    ghost use Rattle.nqs_fakes.specs.Failures.{GoesAsListed};

    /// Before the first call.
    pub fn new(numbers: Vec<u64>) -> Failures
        ensures numbers { result.numbers.items ≡ numbers.items }
        ensures calls { result.calls ≡ 0 }
        ensures faults { result.faults ≡ 0 }
    {
        Failures {
            numbers,
            calls: 0,
            faults: 0,
        }
    }

    /// Counts a call. It fails where its number is one of the list.
    pub fn count(&mut self) -> Result<(), Failed>
        ensures { GoesAsListed self.old self.new result }
    {
        self.calls = self.calls.saturating_add(1);
        if self.numbers.contains(&self.calls) {
            self.faults = self.faults.saturating_add(1);
            return Err(Failed);
        }
        Ok(())
    }

    /// How many calls there were.
    pub fn calls(&self) -> u64
        ensures { result ≡ self.now.calls }
    {
        self.calls
    }

    /// A failure more, of the call that was counted last.
    pub fn fail(&mut self) -> Failed
        ensures faults { self.new.faults ≡ next self.old.faults }
        ensures later { self.old.faults ≤ self.new.faults }
        ensures others { (self.new.numbers ≡ self.old.numbers) × (self.new.calls ≡ self.old.calls) }
    {
        self.faults = self.faults.saturating_add(1);
        Failed
    }
}
