//! The handover of requests between hosts: what a host says and records when it opens one, when a
//! datagram of one comes, and at a tick.
//!
//! The source has a handover, offered until the receiver says READY and committed from then on; the
//! receiver has a promise until COMMIT comes. `open` opens one, `offer` answers an offer, `source`
//! and `receiver` answer the other datagrams of their side, `tick` says again what may have been
//! lost. Each call is the rule of its name in `nqs_rules` (specs/Handover.antt); `docs/rules.md`
//! says them in words. No call changes the state, and one fails for want of memory alone. `peer` is
//! the other host, and numbers are those of handovers between the two.
#![tactic(auto)]

mod offer;
mod open;
mod receiver;
mod source;
mod tick;

pub use offer::on_offer;
pub use open::{dest_at, offer_row, open_hand};
pub use receiver::{on_abort, on_commit};
pub use source::{on_done, on_inquire, on_ready, on_refused};
pub use tick::on_tick;
