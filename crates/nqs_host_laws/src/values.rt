//! What its type says of each value of a change: names are names, and numbers fit. It reads the
//! values and does nothing else.

ghost use Rattle.std.specs.Prelude.{IsTrue};
ghost use Rattle.std.specs.List.{AllByRecursion};
ghost use Rattle.nqs_rules.specs.Sane.{is_sane_carried};
ghost use Rattle.nqs_records.specs.Values.{IsOpt, IsHost, IsCarried};
ghost use Rattle.nqs_records.specs.EditValues.{IsDest};
ghost use Rattle.nqs_host_laws.specs.Offers.{HasNumber};

use nqs_base::name_stands;
use nqs_records::{job_stands, number_stands};
use nqs_types::{Carried, NamedDest, PeerNumber};

pub(crate) fn dest_stands(dest: &NamedDest)
    ensures { IsDest dest.now }
{
    name_stands(&dest.queue);
    name_stands(&dest.host);
}

pub(crate) fn maybe_dest_stands(dest: &Option<NamedDest>)
    ensures { IsOpt IsDest dest.now }
{
    match dest {
        Some(dest) => dest_stands(dest),
        None => {}
    }
}

pub(crate) fn carried_stands(carried: &Carried)
    requires sane { IsTrue (is_sane_carried carried.now) }
    requires host { IsHost carried.now.id.host }
    ensures { IsCarried carried.now }
{
    job_stands(&carried.job);
}

pub(crate) fn hands_stand(hands: &[PeerNumber])
    ensures { AllByRecursion HasNumber hands.now }
{
    let mut rest = hands;
    while let Some((hand, more)) = rest.split_first() {
        number_stands(hand.number);
        rest = more;
    }
}
