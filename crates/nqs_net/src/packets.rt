//! Packets of a world: that of a number, and the newest between two hosts.

ghost use Rattle.std.specs.Prelude.{◌≡◌, IfOk};
ghost use Rattle.nqs_rules.specs.World.{World as Network, packet_at, is_between, newest_between};

use nqs_base::Memory;
use nqs_types::{HostId, Message};

fn copy(message: &Message) -> Result<Message, Memory>
    ensures { IfOk result (λ copy. copy ≡ message.now) }
{
    Ok(message.clone()?)
}

/// The packet of this number, from 1 on.
pub(crate) fn packet_at(packets: &[Message], packet: u64) -> Result<Option<Message>, Memory>
    ensures { (w : Network) → packets.now ≡ w.packets → IfOk result (λ message. message ≡ packet_at packet w) }
{
    let Some(place) = packet.checked_sub(1) else {
        return Ok(None);
    };
    match packets.get(place as usize) {
        Some(message) => Ok(Some(copy(message)?)),
        None => Ok(None),
    }
}

fn is_between(one: HostId, other: HostId, message: &Message) -> bool
    ensures { result ≡ is_between one other message.now }
{
    (one == message.from && other == message.to) || (other == message.from && one == message.to)
}

/// The packet with the greatest number between two hosts, either way.
pub(crate) fn newest_between(
    packets: &[Message],
    one: HostId,
    other: HostId,
) -> Result<Option<Message>, Memory>
    ensures { (w : Network) → packets.now ≡ w.packets → IfOk result (λ message. message ≡ newest_between one other w) }
{
    let mut place = packets.len();
    while place > 0 {
        place -= 1;
        let message = &packets[place];
        if is_between(one, other, message) {
            return Ok(Some(copy(message)?));
        }
    }
    Ok(None)
}
