//! A live extent as the tree keeps it.
ghost use Rattle.std.specs.Prelude.{◌≡◌};
ghost use Rattle.nqs_spool.specs.Slots.{gap_of, set_from};

/// A live extent that isn't empty, and where the free bytes before it begin.
#[derive(Clone, Copy)]
pub(crate) struct Slot {
    pub from: u64,
    pub place: u64,
    pub length: u32,
}

impl Slot {
    /// How many bytes before the extent are free.
    pub(crate) fn gap(&self) -> u64
        ensures { result ≡ gap_of self.now }
    {
        self.place.saturating_sub(self.from)
    }

    /// The same extent, with the free bytes before it from here on.
    pub(crate) fn set_from(self, from: Option<u64>) -> Slot
        ensures { result ≡ set_from from self }
    {
        match from {
            Some(from) => Slot {
                from,
                place: self.place,
                length: self.length,
            },
            None => self,
        }
    }
}
