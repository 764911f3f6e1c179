//! Laws of how three whole events settle a handover that is left half done: a tick, the arrival of
//! what it asks, and the arrival of the answer, each with the starts behind it. No fuse falls
//! within them; nothing is promised of packets that are lost.
ghost use Rattle.std.specs.Prelude.{◌≡◌, ◌⊎◌, ℕ, Some, None, true, false, is_some};
ghost use Rattle.nqs_state.specs.State.{Plain};
ghost use Rattle.nqs_types.specs.declared.ids.HostId.{HostId};
ghost use Rattle.nqs_types.specs.declared.message.Message.{Message};
ghost use Rattle.nqs_types.specs.declared.message.Body.TheVariants.{Commit, Done, Inquire, Abort};
ghost use Rattle.nqs_rules.specs.Find.{has_promise, find_hand};
ghost use Rattle.nqs_rules.specs.World.{Act, World, Delivers, Ticks, host_of, packet_at};
ghost use Rattle.nqs_rules.specs.Net.{is_committed_to};
ghost use Rattle.nqs_laws.specs.Handovers.{IsStateOf};
ghost use Rattle.nqs_laws.specs.Each.{InEachWorld};
ghost use Rattle.nqs_laws.specs.Sending.{word};
ghost use Rattle.nqs_laws.specs.Whole.{IfUpAfter, IsSafe, after, taker, WasSentBetween, HoldsAt, IsSettledInThree, IsVerdict};

/// Three events settle a promise: a tick of its host, the arrival of the inquiry that this tick
/// sent, and the arrival of the commit or abort that this sent. Then it isn't promised any more.
pub fn promises_are_settled()
    ensures { InEachWorld (λ w. (host from : HostId) (number : ℕ) (s : Plain) → IsStateOf w host s → has_promise from number s ≡ true
        → IsSettledInThree host from (λ m. m ≡ word host from (Inquire number)) (IsVerdict from host number) (λ t. has_promise from number t ≡ false) w) }
{}

/// Three events settle a committed handover: a tick of its host, the arrival of the commit that
/// this tick sent, and the arrival of the answer that this sent. Then it is there no more.
pub fn commitments_are_settled()
    ensures { InEachWorld (λ w. (host to : HostId) (number : ℕ) (s : Plain) → IsStateOf w host s → is_committed_to to number s ≡ true
        → IsSettledInThree host to (λ m. m ≡ word host to (Commit number)) (λ m. m ≡ word to host (Done number))
        (λ t. is_some (find_hand to number t) ≡ false) w) }
{}

/// The first event: a tick adds to the packets an inquiry after each promise, and a commit of each
/// committed handover.
pub fn ticks_add_questions()
    ensures inquiries { InEachWorld (λ w. (host from : HostId) (number : ℕ) (s : Plain) → IsStateOf w host s → has_promise from number s ≡ true
        → IfUpAfter (Ticks host) host w (λ v. WasSentBetween w v (word host from (Inquire number)))) }
    ensures commits { InEachWorld (λ w. (host to : HostId) (number : ℕ) (s : Plain) → IsStateOf w host s → is_committed_to to number s ≡ true
        → IfUpAfter (Ticks host) host w (λ v. WasSentBetween w v (word host to (Commit number)))) }
{}

/// The second event: whenever an inquiry arrives, a commit or an abort of its number is added to
/// the packets, and whenever a commit arrives, the word that it is done.
pub fn arrivals_add_answers()
    ensures inquiry { InEachWorld (λ w. (k : ℕ) (from to : HostId) (number : ℕ) → packet_at k w ≡ Some (word from to (Inquire number))
        → IfUpAfter (Delivers k) to w (λ v. (WasSentBetween w v (word to from (Commit number))) ⊎ (WasSentBetween w v (word to from (Abort number))))) }
    ensures commit { InEachWorld (λ w. (k : ℕ) (from to : HostId) (number : ℕ) → packet_at k w ≡ Some (word from to (Commit number))
        → IfUpAfter (Delivers k) to w (λ v. WasSentBetween w v (word to from (Done number)))) }
{}

/// The third event: whenever a commit or an abort arrives, its number isn't promised any more, and
/// whenever the word arrives that it is done, no handover has its number.
pub fn answers_settle_handovers()
    ensures verdict { InEachWorld (λ w. (k : ℕ) (from to : HostId) (number : ℕ) (m : Message) → packet_at k w ≡ Some m → IsVerdict from to number m
        → IfUpAfter (Delivers k) to w (λ v. HoldsAt v to (λ t. has_promise from number t ≡ false))) }
    ensures done { InEachWorld (λ w. (k : ℕ) (from to : HostId) (number : ℕ) → packet_at k w ≡ Some (word from to (Done number))
        → IfUpAfter (Delivers k) to w (λ v. HoldsAt v to (λ t. is_some (find_hand from number t) ≡ false))) }
{}

/// An event leaves each host as it is but the one that it is for: whether it is up, its state, its
/// fuses.
pub fn events_leave_other_hosts()
    ensures { (act : Act) (w : World) (h : HostId) → (taker act w ≡ Some h → ⊥) → host_of h (after act w) ≡ host_of h w }
{}

/// A host that is up and has no fuse stays so at ticks and arrivals, its own and those of others.
pub fn safe_hosts_stay_up()
    ensures tick { (w : World) (h other : HostId) → IsSafe h w → IsSafe h (after (Ticks other) w) }
    ensures arrival { (w : World) (h : HostId) (k : ℕ) → IsSafe h w → IsSafe h (after (Delivers k) w) }
{}
