//! Laws of stops: what a tear leaves of a journal's gate, and of a root, as the rules of stops say
//! it.
//!
//! `nqs_rules` tells by `keeps_gate` whether a stop at the gate's call keeps the record, and by
//! `torn_root` what a stop at the root's call leaves of it; `nqs_disk` says by `torn` which bytes a
//! stop leaves, and `nqs_journal` by the gate's byte which records they tell.
#![tactic(auto)]

ghost use Rattle.nqs_storage_tears.specs.Gates.{TearsDecide};
ghost use Rattle.nqs_storage_tears.specs.Roots.{TearsTurn, WritesTurn};

/// While only the gate is pending, a tear leaves 1 there just where the rules say that it keeps the
/// gate.
pub fn gates_are_torn()
    ensures { TearsDecide }
{}

/// The write of a checkpoint to a synced root leaves just its first byte pending, which names the
/// other journal. While it is, a tear leaves of the root what the rules say, whatever its bytes are
/// and also where it has none.
pub fn roots_are_torn()
    ensures written { WritesTurn }
    ensures torn { TearsTurn }
{}
