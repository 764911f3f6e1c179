//! Numbers of refusals.
ghost use Rattle.std.specs.Prelude.{◌≡◌};
ghost use Rattle.nqs_rules.specs.Causes.{refusal_number};

use nqs_types::Refusal;

/// The number of a refusal, from 1 to 33.
pub fn refusal_number(refusal: &Refusal) -> u8
    ensures { result ≡ refusal_number refusal.now }
{
    match refusal {
        Refusal::NotManager => 1,
        Refusal::NotOperator => 2,
        Refusal::NoQueue(_) => 3,
        Refusal::NoComplex(_) => 4,
        Refusal::NoDevice(_) => 5,
        Refusal::NoRequest(_) => 6,
        Refusal::NoHost(_) => 7,
        Refusal::NoDefault => 8,
        Refusal::QueueExists(_) => 9,
        Refusal::ComplexExists(_) => 10,
        Refusal::DeviceExists(_) => 11,
        Refusal::WrongKind => 12,
        Refusal::DestExists => 13,
        Refusal::NoDest => 14,
        Refusal::NotMember => 15,
        Refusal::IsMember => 16,
        Refusal::KeepRoot => 17,
        Refusal::NotOwner => 18,
        Refusal::Disabled(_) => 19,
        Refusal::PipeOnly(_) => 20,
        Refusal::NoAccess(_) => 21,
        Refusal::RequestRouting(_) => 22,
        Refusal::RequestRunning(_) => 23,
        Refusal::NotHeld(_) => 24,
        Refusal::IsHeld(_) => 25,
        Refusal::QueueInUse(_, _) => 26,
        Refusal::DeviceBusy(_) => 27,
        Refusal::OverCpu(_) => 28,
        Refusal::OverMemory(_) => 29,
        Refusal::TooMany => 30,
        Refusal::HostFull => 31,
        Refusal::NumbersUsed => 32,
        Refusal::RequestExists(_) => 33,
    }
}
