//! Laws of how numbers of handovers are closed, for each change that a host keeps in any run of 1
//! to 16 hosts, with stops at any call.
ghost use Rattle.std.specs.Prelude.{◌≡◌, ℕ, true};
ghost use Rattle.nqs_state.specs.State.{Plain};
ghost use Rattle.nqs_types.specs.declared.ids.HostId.{HostId};
ghost use Rattle.nqs_rules.specs.Applied.{applied};
ghost use Rattle.nqs_laws.specs.Handovers.{is_closed_for};
ghost use Rattle.nqs_laws.specs.Closed.{HasState, IsClosedBy, MayClose, ClosesOwn};
ghost use Rattle.nqs_laws.specs.Each.{InEachHistory};

/// A promise that is accepted or dropped closes its number, and no other. A new promise closes numbers
/// below its low alone, and none that has a handover. No other change closes any.
pub fn ends_of_promises_close_their_numbers()
    ensures own { InEachHistory (λ states h why c. (t : Plain) → HasState states h t → ClosesOwn c t) }
    ensures only { InEachHistory (λ states h why c. (t : Plain) → HasState states h t → (from : HostId) (number : ℕ) → IsClosedBy c from number t
        → MayClose c states h from number) }
{}

/// No change opens a number again.
pub fn no_change_opens_a_number()
    ensures { InEachHistory (λ states h why c. (t : Plain) → HasState states h t → (from : HostId) (number : ℕ) → is_closed_for from number t ≡ true
        → is_closed_for from number (applied c t) ≡ true) }
{}
