//! What each value of a host is found by.

use crate::ids::{PeerNumber, RequestId};
use crate::queue::{ComplexDef, DeviceDef, QueueDef};
use crate::request::{FileOut, Hand, Promise, Row, Stage};
use nqs_base::{Key, Keyed, Name};

impl Key for RequestId {
    ghost use Rattle.nqs_types.specs.Ids.{id_exact};

    ghost exact = { id_exact };

    fn copy(&self) -> Self {
        *self
    }
}

impl Key for PeerNumber {
    ghost use Rattle.nqs_types.specs.Ids.{peer_number_exact};

    ghost exact = { peer_number_exact };

    fn copy(&self) -> Self {
        *self
    }
}

impl Keyed<Name> for QueueDef {
    ghost key_of = { λ q. q.name };

    fn key(&self) -> Name {
        self.name
    }
}

impl Keyed<Name> for ComplexDef {
    ghost key_of = { λ c. c.name };

    fn key(&self) -> Name {
        self.name
    }
}

impl Keyed<Name> for DeviceDef {
    ghost key_of = { λ d. d.name };

    fn key(&self) -> Name {
        self.name
    }
}

impl<E: Copy + Drop> Keyed<RequestId> for Row<E> {
    ghost key_of = { λ r. r.id };

    fn key(&self) -> RequestId {
        self.id
    }
}

impl Keyed<PeerNumber> for Hand {
    ghost use Rattle.nqs_types.specs.Ids.{hand_key};

    ghost key_of = { hand_key };

    fn key(&self) -> PeerNumber {
        PeerNumber {
            peer: self.peer,
            number: self.number,
        }
    }
}

impl<E: Copy + Drop> Keyed<PeerNumber> for Promise<E> {
    ghost use Rattle.nqs_types.specs.Ids.{promise_key};

    ghost key_of = { promise_key };

    fn key(&self) -> PeerNumber {
        PeerNumber {
            peer: self.peer,
            number: self.number,
        }
    }
}

impl<E: Copy + Drop> Keyed<PeerNumber> for Stage<E> {
    ghost use Rattle.nqs_types.specs.Ids.{stage_key};

    ghost key_of = { stage_key };

    fn key(&self) -> PeerNumber {
        PeerNumber {
            peer: self.peer,
            number: self.number,
        }
    }
}

impl<E: Copy + Drop> Keyed<u64> for FileOut<E> {
    ghost key_of = { λ f. f.number };

    fn key(&self) -> u64 {
        self.number
    }
}
