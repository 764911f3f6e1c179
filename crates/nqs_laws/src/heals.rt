//! Laws of how a handover that is left half done comes to its end, event by event: a tick asks or
//! commits, its receiver answers, and the answer ends it. They hold in every world that a list of
//! events reaches; nothing is promised of packets that are lost.
ghost use Rattle.std.specs.Prelude.{◌≡◌, ◌⊎◌, ℕ, true, false, is_some};
ghost use Rattle.nqs_state.specs.State.{Plain};
ghost use Rattle.nqs_types.specs.declared.ids.HostId.{HostId};
ghost use Rattle.nqs_types.specs.declared.message.Message.{Message};
ghost use Rattle.nqs_types.specs.declared.message.Body.TheVariants.{Commit, Done, Inquire, Abort};
ghost use Rattle.nqs_types.specs.declared.event.Event.TheVariants.{Arrived, Tick};
ghost use Rattle.nqs_rules.specs.Find.{has_promise, find_hand};
ghost use Rattle.nqs_rules.specs.Starts.{after_step};
ghost use Rattle.nqs_rules.specs.Step.{step};
ghost use Rattle.nqs_rules.specs.Net.{is_committed_to};
ghost use Rattle.nqs_laws.specs.Each.{InEachWorld};
ghost use Rattle.nqs_laws.specs.Handovers.{IsStateOf, WasSent};
ghost use Rattle.nqs_laws.specs.Sending.{word, Sends};

/// A tick inquires after each promise, and commits each committed handover again.
pub fn ticks_ask_and_commit()
    ensures asks { InEachWorld (λ w. (host from : HostId) (s : Plain) → IsStateOf w host s → (now number : ℕ) → has_promise from number s ≡ true
        → Sends (step (Tick now) s) (word host from (Inquire number))) }
    ensures commits { InEachWorld (λ w. (host to : HostId) (s : Plain) → IsStateOf w host s → (now number : ℕ) → is_committed_to to number s ≡ true
        → Sends (step (Tick now) s) (word host to (Commit number))) }
{}

/// An inquiry is answered by a commit or an abort of its number, whenever it comes, and a commit is
/// answered as done.
pub fn answers_are_sent()
    ensures inquiry { InEachWorld (λ w. (m : Message) (number : ℕ) → WasSent w m → m.body ≡ Inquire number → (s t : Plain) → IsStateOf w m.from s
        → IsStateOf w m.to t → (now : ℕ) → (Sends (step (Arrived now m) t) (word m.to m.from (Commit number)))
        ⊎ (Sends (step (Arrived now m) t) (word m.to m.from (Abort number)))) }
    ensures commit { InEachWorld (λ w. (m : Message) (number : ℕ) → WasSent w m → m.body ≡ Commit number → (s t : Plain) → IsStateOf w m.from s
        → IsStateOf w m.to t → (now : ℕ) → Sends (step (Arrived now m) t) (word m.to m.from (Done number))) }
{}

/// A commit or an abort leaves no promise of its number, and what is done leaves no handover of its
/// number.
pub fn answers_end_handovers()
    ensures commit { InEachWorld (λ w. (m : Message) (number : ℕ) → m.body ≡ Commit number → (t : Plain) → IsStateOf w m.to t → (now : ℕ)
        → has_promise m.from number (after_step (step (Arrived now m) t) t) ≡ false) }
    ensures abort { InEachWorld (λ w. (m : Message) (number : ℕ) → m.body ≡ Abort number → (t : Plain) → IsStateOf w m.to t → (now : ℕ)
        → has_promise m.from number (after_step (step (Arrived now m) t) t) ≡ false) }
    ensures done { InEachWorld (λ w. (m : Message) (number : ℕ) → WasSent w m → m.body ≡ Done number → (s t : Plain) → IsStateOf w m.from s → IsStateOf w m.to t
        → (now : ℕ) → is_some (find_hand m.from number (after_step (step (Arrived now m) t) t)) ≡ false) }
{}
