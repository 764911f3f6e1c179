//! Datagrams that carry a tag of the site's key: HMAC-SHA-256 (`mac`), a wire that hands up only
//! what has a true tag and sends nothing without one (`sealed`), the wire of a site and the file of
//! its key (`site`), the words of a caller with his own name put in and, under a key, the folder of
//! his outputs (`caller`), and laws of what a datagram is opened to (`laws`).
#![tactic(auto)]

mod caller;
pub mod laws;
mod mac;
mod sealed;
mod site;

pub use caller::{asked_as, has_folders, leaves_folder};
pub use mac::hmac;
pub use sealed::{Key, SealedWire};
pub use site::{SiteKey, SiteWire, read_key};
