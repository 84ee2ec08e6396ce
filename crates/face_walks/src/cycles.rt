ghost use Rattle.std.specs.Prelude.{◌≡◌, ℕ, ◌<◌, ◌↔◌, length, replicate, false, [], Contains, IfOk, IsTrue, OnOk, ◌∷◌, ◌++◌, MatchBool};
ghost use Rattle.half_edges.specs.Cycles.{ids};
ghost use Rattle.half_edges.specs.Halves.{count};
ghost use Rattle.face_walks.specs.Found.{AreCycles};
ghost use Rattle.face_walks.specs.Linked.{piece_at};
ghost use Rattle.face_walks.specs.Orders.{AreInOrder, AreMarked, IsWalkFound, corners_of};

use crate::pairs::piece;
use fold_base::List;
use half_edges::{Arena, HalfId};
use scaled_plane::Face;
use std::alloc::{AllocError, Global};

/// The half-edges in the order of their directed pieces.
fn in_order(alloc: Global, arena: &Arena<(u32, u32)>) -> Result<Vec<((u32, u32), u32)>, AllocError>
    ensures { IfOk result (λ halves. AreInOrder arena.now halves.items) }
{
    let mut halves = Vec::with_capacity(alloc, arena.len() as usize)?;
    for half in 0..arena.len() {
        halves.push((piece(arena, HalfId(half)), half))?;
    }
    halves.sort()?;
    Ok(halves)
}

/// The corners that the half-edges of a cycle go out of.
fn face_of(alloc: Global, arena: &Arena<(u32, u32)>, cycle: &[HalfId]) -> Result<Face, AllocError>
    requires { (h : ℕ) → Contains (ids cycle.now) h → h < count arena.now }
    ensures { IfOk result (λ face. face.corners ≡ corners_of arena.now (ids cycle.now)) }
{
    let mut corners = List::with_room(alloc, cycle.len())?;
    for half in cycle {
        let (from, _) = piece(arena, *half);
        corners.push(from)?;
    }
    Ok(Face { corners })
}

fn mark(seen: &mut [bool], cycle: &[HalfId])
    requires { (h : ℕ) → Contains (ids cycle.now) h → h < length seen.old }
    ensures { AreMarked seen.old (ids cycle.now) seen.new }
{
    for half in cycle {
        seen[half.0 as usize] = true;
    }
}

fn holds(cycle: &[HalfId], half: HalfId) -> bool
    ensures { IsTrue result ↔ Contains (ids cycle.now) half.0 }
{
    for other in cycle {
        if other.0 == half.0 {
            return true;
        }
    }
    false
}

/// The face walks that are found, the outer walk, and which half-edges are on them.
#[derive(Drop)]
struct Found {
    faces: List<Face>,
    outer: Face,
    seen: Vec<bool>,
}

impl Found {
    fn none(alloc: Global, count: usize) -> Result<Found, AllocError>
        ensures { IfOk result (λ found. (found.faces ≡ []) × (found.outer.corners ≡ []) × (found.seen.items ≡ replicate count false)) }
    {
        Ok(Found {
            faces: List::new(alloc),
            outer: Face {
                corners: List::new(alloc),
            },
            seen: vec![in alloc; false; count]?,
        })
    }

    fn keep(&mut self, walk: Face, is_outer: bool) -> Result<(), AllocError>
        ensures seen { self.new.seen ≡ self.old.seen }
        ensures walk { OnOk result (MatchBool is_outer
            ((self.new.outer ≡ walk) × (self.new.faces ≡ self.old.faces))
            ((self.new.outer ≡ self.old.outer) × (self.new.faces ≡ self.old.faces ++ walk ∷ []))) }
    {
        if is_outer {
            self.outer = walk;
        } else {
            self.faces.push(walk)?;
        }
        Ok(())
    }

    /// Finds the walk of a half-edge.
    fn find(
        &mut self,
        alloc: Global,
        arena: &Arena<(u32, u32)>,
        half: HalfId,
        outside: HalfId,
    ) -> Result<(), AllocError>
        requires half { half.0 < count arena.now }
        requires as_many { length self.old.seen.items ≡ count arena.now }
        ensures { OnOk result (IsWalkFound arena.now half.0 outside.0 self.old.faces self.old.outer self.old.seen.items
            self.new.faces self.new.outer self.new.seen.items) }
    {
        let _count = arena.len();
        let cycle = arena.walk(alloc, half)?;
        mark(self.seen.as_mut_slice(), cycle.as_slice());
        let face = face_of(alloc, arena, cycle.as_slice())?;
        self.keep(face, holds(cycle.as_slice(), outside))
    }
}

/// The cycles of the arena as walks, each begun at its least directed piece and in the order of these, and apart from them the
/// one of the half-edge outside.
pub fn cycles_of(
    alloc: Global,
    arena: &Arena<(u32, u32)>,
    outside: HalfId,
) -> Result<(List<Face>, Face), AllocError>
    requires outside { outside.0 < count arena.now }
    requires once { (g h : ℕ) → g < count arena.now → h < count arena.now → piece_at arena.now g ≡ piece_at arena.now h → g ≡ h }
    ensures { IfOk result (λ found. AreCycles arena.now outside.0 found.0 found.1.corners) }
{
    let order = in_order(alloc, arena)?;
    let mut found = Found::none(alloc, arena.len() as usize)?;
    for (_, half) in order.as_slice() {
        if !found.seen[*half as usize] {
            found.find(alloc, arena, HalfId(*half), outside)?;
        }
    }
    let Found {
        faces,
        outer,
        seen: _,
    } = found;
    Ok((faces, outer))
}
