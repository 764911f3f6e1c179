//! Who sent the last datagram that a daemon's socket gave, for its operator's eyes: the system says
//! it, whoever sends can have it say another place, and nothing that a host does rests on it.

use std::alloc::Global;
use std::cell::Cell;
use std::net::SocketAddr;
use std::rc::Rc;

/// The place from where a socket's last datagram came. A wire notes it, and who shares the note
/// tells it. Where there is no memory for it nothing is noted.
#[derive(Drop)]
pub struct LastSender {
    place: Option<Rc<Cell<Option<SocketAddr>>>>,
}

impl LastSender {
    /// A note that is never made.
    pub fn unnoted() -> LastSender {
        LastSender { place: None }
    }

    /// A note that isn't made yet.
    pub fn new(alloc: Global) -> LastSender {
        match Rc::new(alloc, Cell::new(None)) {
            Ok(place) => LastSender { place: Some(place) },
            Err(_) => LastSender::unnoted(),
        }
    }

    /// The same note, for one more who makes or tells it.
    pub fn shared(&self) -> LastSender {
        match &self.place {
            Some(place) => LastSender {
                place: place.clone().ok(),
            },
            None => LastSender::unnoted(),
        }
    }

    /// Notes from where a datagram came.
    pub(crate) fn note(&self, place: SocketAddr) {
        if let Some(last) = &self.place {
            last.set(Some(place));
        }
    }

    /// From where the last datagram came, where one did.
    pub fn place(&self) -> Option<SocketAddr> {
        match &self.place {
            Some(last) => last.get(),
            None => None,
        }
    }
}
