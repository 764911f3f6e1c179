//! A world of 1 to 16 hosts.

use crate::slot::Slot;
use nqs_base::{NameList, Tear};
use nqs_types::Message;

/// A network of hosts: a slot and a tear for each, in the order of the site. The packets are all
/// that were ever sent; `now` is the moment, in seconds since 1970.
#[derive(Drop)]
pub struct World {
    pub site: NameList,
    pub slots: Vec<Slot>,
    pub tears: Vec<Tear>,
    pub packets: Vec<Message>,
    pub now: u64,
}
