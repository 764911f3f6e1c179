//! Every command by who may give it: managers, operators, anybody.
ghost use Rattle.std.specs.Prelude.{◌≡◌, codes, [], ◌∷◌, map, replicate, Ok, Err};
ghost use Rattle.nqs_types.specs.declared.rule.Rank.TheVariants.{Manager, Operator, User};
ghost use Rattle.nqs_types.specs.declared.refusal.Refusal.TheVariants.{NotManager, NotOperator};
ghost use Rattle.nqs_types.specs.declared.event.Command.TheVariants.{Shutdown};
ghost use Rattle.nqs_worked_tables.specs.Commands.{answers, edit_answers, edits_of_operators, queue_edits_of_managers, other_edits_of_managers, open_commands};
ghost use Rattle.nqs_worked_tables.specs.Commands.{ranks_of};

/// Operators run queues, devices and requests; all other edits and a shutdown are the managers';
/// anybody may do all else.
pub fn commands_have_ranks()
    ensures operators { map edit_answers edits_of_operators ≡ replicate 13 (Ok tt ∷ Ok tt ∷ Err NotOperator ∷ []) }
    ensures queues { map edit_answers queue_edits_of_managers ≡ replicate 13 (Ok tt ∷ Err NotManager ∷ Err NotManager ∷ []) }
    ensures others { map edit_answers other_edits_of_managers ≡ replicate 21 (Ok tt ∷ Err NotManager ∷ Err NotManager ∷ []) }
    ensures shutdown { answers Shutdown ≡ Ok tt ∷ Err NotManager ∷ Err NotManager ∷ [] }
    ensures anybody { map answers open_commands ≡ replicate 7 (Ok tt ∷ Ok tt ∷ Ok tt ∷ []) }
{}

/// A user whom both lists have is a manager, and whom neither has a user.
pub fn users_have_ranks()
    ensures { ranks_of (codes "root" ∷ codes "mia" ∷ codes "op" ∷ codes "ann" ∷ []) ≡ Manager ∷ Manager ∷ Operator ∷ User ∷ [] }
{}
