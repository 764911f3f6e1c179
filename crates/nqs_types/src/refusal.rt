//! Why a command, an offer or a local move is refused.

use crate::ids::Named;
use nqs_base::Name;
use std::fmt;

/// A refusal, one variant a number, from 1 to 33 in this order.
#[derive(Clone, Copy, PartialEq, Eq)]
pub enum Refusal {
    NotManager,
    NotOperator,
    NoQueue(Name),
    NoComplex(Name),
    NoDevice(Name),
    NoRequest(Named),
    NoHost(Name),
    NoDefault,
    QueueExists(Name),
    ComplexExists(Name),
    DeviceExists(Name),
    WrongKind,
    DestExists,
    NoDest,
    NotMember,
    IsMember,
    KeepRoot,
    NotOwner,
    Disabled(Name),
    PipeOnly(Name),
    NoAccess(Name),
    RequestRouting(Named),
    RequestRunning(Named),
    NotHeld(Named),
    IsHeld(Named),
    /// The queue, and how many requests it holds.
    QueueInUse(Name, u64),
    DeviceBusy(Name),
    OverCpu(Name),
    OverMemory(Name),
    TooMany,
    HostFull,
    NumbersUsed,
    RequestExists(Named),
}

impl Refusal {
    // The name of the variant.
    fn name(&self) -> &'static str {
        match self {
            Refusal::NotManager => "NotManager",
            Refusal::NotOperator => "NotOperator",
            Refusal::NoQueue(_) => "NoQueue",
            Refusal::NoComplex(_) => "NoComplex",
            Refusal::NoDevice(_) => "NoDevice",
            Refusal::NoRequest(_) => "NoRequest",
            Refusal::NoHost(_) => "NoHost",
            Refusal::NoDefault => "NoDefault",
            Refusal::QueueExists(_) => "QueueExists",
            Refusal::ComplexExists(_) => "ComplexExists",
            Refusal::DeviceExists(_) => "DeviceExists",
            Refusal::WrongKind => "WrongKind",
            Refusal::DestExists => "DestExists",
            Refusal::NoDest => "NoDest",
            Refusal::NotMember => "NotMember",
            Refusal::IsMember => "IsMember",
            Refusal::KeepRoot => "KeepRoot",
            Refusal::NotOwner => "NotOwner",
            Refusal::Disabled(_) => "Disabled",
            Refusal::PipeOnly(_) => "PipeOnly",
            Refusal::NoAccess(_) => "NoAccess",
            Refusal::RequestRouting(_) => "RequestRouting",
            Refusal::RequestRunning(_) => "RequestRunning",
            Refusal::NotHeld(_) => "NotHeld",
            Refusal::IsHeld(_) => "IsHeld",
            Refusal::QueueInUse(_, _) => "QueueInUse",
            Refusal::DeviceBusy(_) => "DeviceBusy",
            Refusal::OverCpu(_) => "OverCpu",
            Refusal::OverMemory(_) => "OverMemory",
            Refusal::TooMany => "TooMany",
            Refusal::HostFull => "HostFull",
            Refusal::NumbersUsed => "NumbersUsed",
            Refusal::RequestExists(_) => "RequestExists",
        }
    }
}

// By hand: the variant's name, with no call in an arm, and so with no way out there.
impl fmt::Debug for Refusal {
    fn fmt<W: fmt::Write>(&self, f: &mut fmt::Formatter<W>) -> fmt::Result {
        f.write_str(self.name())
    }
}
