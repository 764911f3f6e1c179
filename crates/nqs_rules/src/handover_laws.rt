//! Laws of numbers of handovers, and of the order of destinations: what a change of them means.
ghost use Rattle.std.specs.Prelude.{◌≡◌, ◌∷◌, ℕ, List, Some, map, filter, ◌≤◌, ◌==◌, ◌||◌, nat_le, IsTrue};
ghost use Rattle.std.specs.List.{list_all};
ghost use Rattle.nqs_types.specs.declared.ids.Dest.{Dest};
ghost use Rattle.nqs_types.specs.declared.ids.HostId.{HostId};
ghost use Rattle.nqs_types.specs.declared.queue.QueueDef.{QueueDef};
ghost use Rattle.nqs_types.specs.declared.request.Hand.{Hand};
ghost use Rattle.nqs_types.specs.declared.request.Peer.{Peer};
ghost use Rattle.nqs_rules.specs.Conf.{lists_dest, with_dest_first};
ghost use Rattle.nqs_rules.specs.PutFirst.{IsPutFirst};
ghost use Rattle.nqs_rules.specs.Routing.{close, has_number, is_closed, is_hand_to, low, raise_floor};

/// Behind a close a number is closed exactly if it is that one, or was closed. Behind a raised
/// floor it is closed exactly if it is at most that number, or was closed.
pub fn closing_closes_no_more()
    ensures close { (m n : ℕ) (p : Peer) → is_closed m (close n p) ≡ ((m == n) || is_closed m p) }
    ensures raised { (m n : ℕ) (p : Peer) → is_closed m (raise_floor n p) ≡ (nat_le m n || is_closed m p) }
{}

/// A low is at most the next number and the number of each hand to its peer, and is one of these.
pub fn low_is_the_least()
    ensures next { (peer : HostId) (next : ℕ) (hands : List Hand) → low peer next hands ≤ next }
    ensures hands { (peer : HostId) (next : ℕ) (hands : List Hand)
        → IsTrue (list_all (λ h. nat_le (low peer next hands) h.number) (filter (is_hand_to peer) hands)) }
    ensures one { (peer : HostId) (next : ℕ) (hands : List Hand)
        → IsTrue (has_number (low peer next hands) (next ∷ map (λ h. h.number) (filter (is_hand_to peer) hands))) }
{}

/// A queue whose destination is put first has the same destinations: that one first, and the others
/// in the order in which they stood. Nothing else of the queue changes.
pub fn one_destination_is_put_first()
    ensures dests { (dest : Dest) (d : QueueDef) → IsTrue (lists_dest (Some dest) d) → IsPutFirst dest d.dests (with_dest_first (Some dest) d).dests }
    ensures rest { (dest : Dest) (d : QueueDef) → record (with_dest_first (Some dest) d) { dests = d.dests } ≡ d }
{}
