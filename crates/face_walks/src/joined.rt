ghost use Rattle.std.specs.Prelude.{◌≡◌, ℕ, ◌<◌, true, false, length, IfOk, MatchOption, OnOk, Contains};
ghost use Rattle.half_edges.specs.Halves.{count};
ghost use Rattle.face_walks.specs.Linked.{piece_at};
ghost use Rattle.face_walks.specs.Rings.{AreOutgoing, half_at};
ghost use Rattle.face_walks.specs.Searches.{Finds, GoesOn, IsFirstUnreached, IsReachedFrom, IsSearch, is_seen};

use crate::pairs::piece;
use crate::rings::Rings;
use half_edges::{Arena, HalfId};
use std::alloc::{AllocError, Global};

/// The vertices that are found from vertex 0, in the order of finding, and for each vertex whether it's one of them.
#[derive(Drop)]
struct Search {
    found: Vec<u32>,
    seen: Vec<bool>,
}

impl Search {
    fn find(&mut self, vertex: u32) -> Result<(), AllocError>
        requires { vertex < length self.old.seen.items }
        ensures { OnOk result (Finds self.old.found.items self.old.seen.items vertex self.new.found.items self.new.seen.items) }
    {
        if !self.seen[vertex as usize] {
            self.found.push(vertex)?;
            self.seen[vertex as usize] = true;
        }
        Ok(())
    }

    /// Finds the vertices that the half-edges of a ring lead to.
    fn find_neighbours(
        &mut self,
        arena: &Arena<(u32, u32)>,
        ring: &[HalfId],
    ) -> Result<(), AllocError>
        requires search { IsSearch arena.now (length self.old.seen.items) self.old.found.items self.old.seen.items }
        requires in_range { (k : ℕ) → k < length ring.now → half_at ring.now k < count arena.now }
        requires heads { (h : ℕ) → h < count arena.now → (piece_at arena.now h).1 < length self.old.seen.items }
        requires tails { (k : ℕ) → k < length ring.now → IsReachedFrom arena.now 0 (piece_at arena.now (half_at ring.now k)).0 }
        ensures search { OnOk result (IsSearch arena.now (length self.old.seen.items) self.new.found.items self.new.seen.items) }
        ensures goes_on { OnOk result (GoesOn self.old.found.items self.new.found.items) }
        ensures found { OnOk result ((k : ℕ) → k < length ring.now → Contains self.new.found.items (piece_at arena.now (half_at ring.now k)).1) }
    {
        for half in ring {
            let (_, to) = piece(arena, *half);
            self.find(to)?;
        }
        Ok(())
    }
}

/// The first that isn't seen.
fn first_unseen(seen: &[bool]) -> Option<usize>
    ensures { MatchOption result ((v : ℕ) → v < length seen.now → is_seen seen.now v ≡ true)
        (λ first. (first < length seen.now) × (is_seen seen.now first ≡ false) × ((v : ℕ) → v < first → is_seen seen.now v ≡ true)) }
{
    for (vertex, is_seen) in seen.iter().enumerate() {
        if !*is_seen {
            return Some(vertex);
        }
    }
    None
}

/// The least vertex that isn't joined to vertex 0.
pub fn first_parted(
    alloc: Global,
    arena: &Arena<(u32, u32)>,
    rings: &Rings,
) -> Result<Option<usize>, AllocError>
    requires some { 0 < length rings.now }
    requires outgoing { AreOutgoing arena.now rings.now }
    requires heads { (h : ℕ) → h < count arena.now → (piece_at arena.now h).1 < length rings.now }
    ensures { IfOk result (λ parted. MatchOption parted ((v : ℕ) → v < length rings.now → IsReachedFrom arena.now 0 v)
        (IsFirstUnreached arena.now (length rings.now))) }
{
    let mut search = Search {
        found: Vec::new(alloc),
        seen: vec![in alloc; false; rings.len()]?,
    };
    search.find(0)?;
    let mut next = 0;
    while next < search.found.len() {
        let vertex = search.found[next];
        search.find_neighbours(arena, rings.ring(vertex as usize))?;
        next += 1;
    }
    Ok(first_unseen(search.seen.as_slice()))
}
