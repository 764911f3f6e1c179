//! Laws of the numbers of requests, over every list of events on 1 to 16 hosts, with stops at any
//! call.
ghost use Rattle.nqs_laws.specs.Each.{InEachWorld, InEachHistory};
ghost use Rattle.nqs_laws.specs.Numbers.{AreNumbered, NumbersMove, NewAreNumbered};

/// Each request in any row, handover, promise or offer has a number that the host of its submission
/// gave: 1 at least, and the last given at most.
pub fn requests_are_numbered()
    ensures { InEachWorld AreNumbered }
{}

/// The last number that a host gave moves at a submission that the host keeps, by one, and at
/// nothing else. The request that comes in has it, and none comes in otherwise.
pub fn submissions_give_numbers()
    ensures moves { InEachHistory (λ states h why c. NumbersMove states h c) }
    ensures news { InEachHistory (λ states h why c. NewAreNumbered states h c) }
{}
