ghost use Rattle.std.specs.Prelude.{◌≡◌, ℕ, ◌<◌, length};
ghost use Rattle.half_edges.specs.Halves.{IsArena, count, next_of, twin_of};
ghost use Rattle.face_walks.specs.Linked.{piece_at, reverse_of};
ghost use Rattle.face_walks.specs.Links.{LeadRound, LeadsElsewhere, LeadsRound};
ghost use Rattle.face_walks.specs.Rings.{AreOutgoing, half_at};

use crate::rings::Rings;
use half_edges::{Arena, HalfId};

/// Leads what comes in at each half-edge of the ring on to the next of the ring.
fn link_ring(arena: &mut Arena<(u32, u32)>, ring: &[HalfId])
    requires in_range { (k : ℕ) → k < length ring.now → half_at ring.now k < count arena.old }
    requires once { (i j : ℕ) → i < j → j < length ring.now → ¬ (half_at ring.now i ≡ half_at ring.now j) }
    requires turning { (k : ℕ) → k < length ring.now → next_of arena.old (twin_of (half_at ring.now k)) ≡ half_at ring.now k }
    ensures payloads { arena.new.payloads ≡ arena.old.payloads }
    ensures count { count arena.new ≡ count arena.old }
    ensures ring { LeadsRound arena.new ring.now (length ring.now) }
    ensures others { LeadsElsewhere arena.old arena.new ring.now }
{
    for i in 1..ring.len() {
        let before = arena.twin(ring[i - 1]);
        let after = arena.twin(ring[i]);
        arena.splice(before, after);
    }
}

/// Leads what comes in at a vertex on round its ring.
pub fn link(arena: &mut Arena<(u32, u32)>, rings: &Rings)
    requires is_arena { IsArena arena.old }
    requires outgoing { AreOutgoing arena.old rings.now }
    requires reversed { (h : ℕ) → h < count arena.old → piece_at arena.old (twin_of h) ≡ reverse_of (piece_at arena.old h) }
    requires turning { (h : ℕ) → h < count arena.old → next_of arena.old h ≡ twin_of h }
    ensures payloads { arena.new.payloads ≡ arena.old.payloads }
    ensures as_many { count arena.new ≡ count arena.old }
    ensures round { LeadRound arena.new rings.now (length rings.now) }
{
    for v in 0..rings.len() {
        link_ring(arena, rings.ring(v));
    }
}
