//! Dealings with other hosts, and files, put at the end of a list. After `Memory` a part may stand
//! there.

ghost use Rattle.std.specs.Prelude.{⊤, ◌≡◌, ◌∷◌, [], ◌≤◌, length, IsTrue};
ghost use Rattle.nqs_codec.specs.Fields.{u64_field, short_field};
ghost use Rattle.nqs_records.specs.Adds.{Adds};
ghost use Rattle.nqs_rules.specs.Sane.{is_sane_job};
ghost use Rattle.nqs_base.specs.Path.{is_path};
ghost use Rattle.nqs_snapshot.specs.Spelling.{phase_number, hand_field, promise_field, peer_field, stage_field, file_field};

use crate::field::put_list;
use crate::lists::InSnapshot;
use nqs_base::{Bytes, Memory};
use nqs_codec::{put_name, put_path, put_u8, put_u64};
use nqs_records::{Put, put_extent, put_id};
use nqs_types::{FileOut, Hand, Peer, Phase, Promise, Stage};

fn phase_number(phase: Phase) -> u8
    ensures { result ≡ phase_number phase }
{
    match phase {
        Phase::Offered => 0,
        Phase::Committed => 1,
    }
}

impl Put<InSnapshot> for Hand {
    ghost field = { hand_field };

    ghost IsPut = { λ _. ⊤ };

    #[tactic(auto, using(crate::proofs::Joined::joined), unfolding(crate::specs::Spelling::hand_field))]
    fn put(&self, out: &mut Vec<u8>) -> Result<(), Memory> {
        put_u8(self.peer.0, out)?;
        put_u64(self.number, out)?;
        put_id(self.id, out)?;
        put_name(&self.queue, out)?;
        put_u64(self.since, out)?;
        put_u8(phase_number(self.phase), out)
    }
}

impl Put<InSnapshot> for Promise {
    ghost field = { promise_field };

    ghost IsPut = { λ p. IsTrue (is_sane_job p.row.job) };

    #[tactic(auto, using(crate::proofs::Joined::joined), unfolding(crate::specs::Spelling::promise_field))]
    fn put(&self, out: &mut Vec<u8>) -> Result<(), Memory> {
        put_u8(self.peer.0, out)?;
        put_u64(self.number, out)?;
        self.row.put(out)
    }
}

impl Put<InSnapshot> for u64 {
    ghost field = { u64_field };

    ghost IsPut = { λ _. ⊤ };

    fn put(&self, out: &mut Vec<u8>) -> Result<(), Memory> {
        put_u64(*self, out)
    }
}

impl Put<InSnapshot> for Peer {
    ghost field = { peer_field };

    ghost IsPut = { λ _. ⊤ };

    #[tactic(auto, using(crate::proofs::Joined::joined), unfolding(crate::specs::Spelling::peer_field))]
    fn put(&self, out: &mut Vec<u8>) -> Result<(), Memory> {
        put_u64(self.next, out)?;
        put_u64(self.floor, out)?;
        put_list(self.closed.as_slice(), out)?;
        put_u64(self.wait, out)?;
        put_u64(self.stage_next, out)?;
        put_u64(self.stage_got, out)
    }
}

// A path as the rules have it.
fn put_right_path(path: &Bytes, out: &mut Vec<u8>) -> Result<(), Memory>
    requires { IsTrue (is_path path.now) }
    ensures { Adds out.old.items (short_field path.now) result out.new.items }
{
    put_path(path.as_slice(), out)?;
    Ok(())
}

impl Put<InSnapshot> for Stage {
    ghost field = { stage_field };

    ghost IsPut = { λ t. IsTrue (is_path t.path) };

    #[tactic(auto, using(crate::proofs::Joined::joined), unfolding(crate::specs::Spelling::stage_field))]
    fn put(&self, out: &mut Vec<u8>) -> Result<(), Memory> {
        put_u8(self.peer.0, out)?;
        put_u64(self.number, out)?;
        put_right_path(&self.path, out)?;
        put_extent(self.bytes, out)
    }
}

impl Put<InSnapshot> for FileOut {
    ghost field = { file_field };

    ghost IsPut = { λ f. IsTrue (is_path f.path) };

    #[tactic(auto, using(crate::proofs::Joined::joined), unfolding(crate::specs::Spelling::file_field))]
    fn put(&self, out: &mut Vec<u8>) -> Result<(), Memory> {
        put_u64(self.number, out)?;
        put_right_path(&self.path, out)?;
        put_extent(self.bytes, out)
    }
}
