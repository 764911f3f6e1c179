//! Why a field could not be taken.

ghost use Rattle.std.specs.Prelude.{◌≡◌};
ghost use Rattle.nqs_codec.specs.declared.fault.FieldFault.TheVariants as fault;

/// The bytes end before the field does. The place, from 0, is that of their end.
#[derive(Clone, Copy, Debug, PartialEq, Eq)]
pub struct Short(pub u64);

/// Why no field of the kind stands at the place. The places are counted from 0.
#[derive(Clone, Copy, Debug, PartialEq, Eq)]
pub enum FieldFault {
    /// The bytes end before the field does. The place is that of their end.
    Short(u64),
    /// The place of the first byte that may not stand there.
    Bad(u64),
}

impl From<Short> for FieldFault {
    ghost from_gives = { λ short f. f ≡ fault.Short short.0 };

    fn from(short: Short) -> FieldFault {
        FieldFault::Short(short.0)
    }
}
