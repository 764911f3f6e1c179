//! Laws of handovers from host to host, in every world that a list of events on 1 to 16 hosts
//! reaches, whatever stopped and whichever packets were lost, repeated or late.
ghost use Rattle.std.specs.Prelude.{◌≡◌, ◌||◌, List, ℕ, Some, true, false};
ghost use Rattle.nqs_state.specs.State.{Plain};
ghost use Rattle.nqs_types.specs.declared.ids.HostId.{HostId};
ghost use Rattle.nqs_types.specs.declared.request.Carried.{Carried};
ghost use Rattle.nqs_types.specs.declared.request.Promise.{Promise};
ghost use Rattle.nqs_types.specs.declared.message.Message.{Message};
ghost use Rattle.nqs_types.specs.declared.message.Body.TheVariants.{Offer, Commit};
ghost use Rattle.nqs_rules.specs.Find.{has_row, find_promise};
ghost use Rattle.nqs_rules.specs.Handover.{is_not_given_here};
ghost use Rattle.nqs_laws.specs.Each.{InEachWorld, AsRunsGoOn};
ghost use Rattle.nqs_laws.specs.Between.{InEachPair, OfEachPacket, HasGivenNumber, HandsAreFew, TakenAreNear, PromisesAgree, PromisesAreMeant};
ghost use Rattle.nqs_laws.specs.Handovers.{IsStateOf, WasSent, is_open, is_closed_for, is_taken_for, AreInStep, IsTrueOf};

/// What two hosts have of a handover goes together: an offered number isn't closed at its receiver,
/// a committed one is promised or closed there, and a promised one isn't closed.
pub fn handovers_are_in_step()
    ensures { InEachWorld (λ w. (from to : HostId) (s t : Plain) → IsStateOf w from s → IsStateOf w to t → AreInStep from to s t) }
{}

/// A host has at most eight handovers to another, under different numbers that it gave. The next
/// number is at most 64 above the least of them.
pub fn handovers_are_few()
    ensures { InEachPair HandsAreFew }
{}

/// What a packet said of a handover is true at every later moment.
pub fn messages_stay_true()
    ensures { InEachWorld (λ w. (m : Message) → WasSent w m → (s t : Plain) → IsStateOf w m.from s → IsStateOf w m.to t → IsTrueOf m.body m.from m.to s t) }
{}

/// The number of each packet of a handover was given by its source, once and for all: it is below
/// the next one that the source will give.
pub fn packets_have_given_numbers()
    ensures { OfEachPacket HasGivenNumber }
{}

/// A receiver's floor is below each handover of the source. The numbers that it promised, or closed
/// above the floor, were given by the source, and are at most 64 above the floor. So it keeps at
/// most 64 closed numbers apart, whatever comes. No promised number is closed.
pub fn taken_numbers_are_near()
    ensures { InEachPair TakenAreNear }
{}

/// What is promised is what its handover carries: while that is open, the request with its job,
/// starts, losses and hops, the queue and the script; once it is committed, still the same request
/// for the same queue.
pub fn promises_keep_what_is_handed_over()
    ensures offered { InEachPair PromisesAgree }
    ensures committed { InEachPair PromisesAreMeant }
{}

/// A closed number stays closed, however the run goes on.
pub fn closed_numbers_stay_closed()
    ensures { AsRunsGoOn (λ v w. (from to : HostId) (number : ℕ) (t u : Plain) → IsStateOf v to t → IsStateOf w to u → is_closed_for from number t ≡ true
        → is_closed_for from number u ≡ true) }
{}

/// What was promised stays promised until its number is closed, however the run goes on.
pub fn promises_go_when_closed()
    ensures { AsRunsGoOn (λ v w. (from to : HostId) (number : ℕ) (t u : Plain) → IsStateOf v to t → IsStateOf w to u → is_taken_for from number t ≡ true
        → is_taken_for from number u ≡ true) }
{}

/// While an offer is open, none of its packets finds its request at the receiver: it is never
/// refused because the request exists.
pub fn open_offers_find_no_row()
    ensures { InEachWorld (λ w. (m : Message) (number low : ℕ) (queue : List ℕ) (c : Carried) (script : List ℕ) → WasSent w m
        → m.body ≡ Offer number low queue c script
        → (s t : Plain) → IsStateOf w m.from s → IsStateOf w m.to t → is_open m.to number s ≡ true → (has_row c.id t || is_not_given_here c.id t) ≡ false) }
{}

/// The packet that makes a host accept a promise never finds the promised request among the rows.
pub fn accepted_requests_find_no_row()
    ensures { InEachWorld (λ w. (m : Message) (number : ℕ) (p : Promise (List ℕ)) → WasSent w m → m.body ≡ Commit number → (s t : Plain) → IsStateOf w m.from s
        → IsStateOf w m.to t → find_promise m.from number t ≡ Some p → has_row p.row.id t ≡ false) }
{}
