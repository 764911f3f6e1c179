//! What is done for a caller: his words, with the name that the system has of him put in, which
//! under a key is the folder of his outputs too.

ghost use Rattle.std.specs.Prelude.{◌≡◌, Some, Bool, true, ℕ, List, map, string_bytes};
ghost use Rattle.nqs_outside.specs.Streams.{fed, sunk};
ghost use Rattle.nqs_seal.specs.Caller.{asked_as};
ghost use Rattle.nqs_cli.specs.Callers.{RunsAs, AsksAs, AsksInFolder};
ghost use Rattle.nqs_cli.specs.Forms.{Words, Ordered, order_of};
ghost use Rattle.nqs_cli.specs.Runs.{Uses, seen};

use crate::dispatch::run;
use crate::machine::Machine;
use nqs_clients::NqsStatus;
use nqs_outside::{Sink, Source};
use nqs_seal::{asked_as, has_folders, leaves_folder};
use std::alloc::Global;

// Says why words are none of a caller.
fn tell_refused<M: Machine>(is_sealed: bool, words: &[String], machine: &M) {
    if let [tool, _, _, more @ ..] = words {
        if !leaves_folder(has_folders(is_sealed, tool), more) {
            machine.names_folder();
            return;
        }
    }
    machine.not_in_form();
}

/// Does all that the program `nqs_ask` does for a caller of this name, at a site with a key or
/// without one. The words are those that he typed: a tool of users, the site's folder, a host of
/// the site, and the tool's own. What `nqs` does with them is done, where the name stands behind
/// the host, and under a key behind qsub's words as the folder of outputs, which they don't name
/// themselves.
pub fn run_as<M: Machine, S: Source, K: Sink>(
    alloc: Global,
    is_sealed: bool,
    name: &str,
    words: &[String],
    machine: &mut M,
    input: &mut S,
    out: &mut K,
) -> NqsStatus
    ensures { Uses (M.told machine.old) (M.told machine.new)
        (λ parts. RunsAs (seen M.D.tells (M.told machine.old) (M.told machine.new) (fed S.left S.faults input.old input.new)
        (sunk K.taken K.faults K.stalls out.old out.new)) is_sealed name.now (map (λ s. string_bytes s) words.now) parts result) }
{
    match asked_as(alloc, is_sealed, name, words) {
        Ok(Some(asked)) => run(alloc, &asked, machine, input, out),
        Ok(None) => {
            tell_refused(is_sealed, words, machine);
            NqsStatus::BadWords
        }
        Err(memory) => NqsStatus::Memory(memory),
    }
}

/// Whatever a caller types, a daemon is asked in his own name and by a tool of users, or nothing is
/// done: he serves no host, tends no job, and ticks nobody. It does nothing; it is called for its
/// contract.
pub fn callers_ask_as_themselves()
    ensures { (sealed : Bool) (name : List ℕ) (words asked : Words) (o : Ordered) → asked_as sealed name words ≡ Some asked → order_of asked ≡ Some o
        → AsksAs name o.form }
{}

/// Whatever a caller types at a site with a key, he submits into the folder that has his name, or
/// doesn't submit. It does nothing; it is called for its contract.
pub fn callers_submit_into_their_folders()
    ensures { (name : List ℕ) (words asked : Words) (o : Ordered) → asked_as true name words ≡ Some asked → order_of asked ≡ Some o
        → AsksInFolder name o.form }
{}
