ghost use Rattle.std.specs.Prelude.{◌≡◌, ◌↔◌, ◌⊎◌, ◌+◌, ◌<◌, ◌≤◌, ℕ, length, map, true, false, All, IsTrue, IfOk, OnOk, MatchOption};
ghost use Rattle.plane.specs.declared.point.Point.{Point as AnyPoint};
ghost use Rattle.plane.specs.Points.{IsSamePoint};
ghost use Rattle.scaled_plane.specs.Drawn.{IsScaledPoint};
ghost use Rattle.scaled_plane.specs.Pieces.{point_at};
ghost use Rattle.scaled_plane.specs.Scaling.{IsFirstOf};
ghost use Rattle.arrangement.specs.Found.{Has};
ghost use Rattle.sheet_check.specs.Same.{AreSame, HasFrom, IsFirstFrom, IsRepeated};
ghost use Rattle.sheet_check.specs.Passed.{IsFirstPair};

use arrangement::{Vertex, vertex_at};
use exact_number::Whole;
use plane::Point;
use scaled_plane::compare_points;
use std::alloc::{AllocError, Global};
use std::collections::BTreeSet;

/// Whether two vertices stand for one point.
pub fn is_same<W: Whole>(p: Point<W>, q: Point<W>) -> bool
    requires first { IsScaledPoint W.numbers p }
    requires second { IsScaledPoint W.numbers q }
    ensures { IsTrue result ↔ IsSamePoint W.numbers.ring p q }
{
    compare_points(p, q).is_eq()
}

/// Adds a point to a set, and says whether it's new there.
fn add<W: Whole>(found: &mut BTreeSet<Vertex<W>>, point: Point<W>) -> Result<bool, AllocError>
    requires { IsScaledPoint W.numbers point }
    ensures has { OnOk result ((q : AnyPoint W) → Has W.numbers.ring (map (λ v. v.point) found.old.keys) q
        → Has W.numbers.ring (map (λ v. v.point) found.new.keys) q) }
    ensures here { OnOk result (Has W.numbers.ring (map (λ v. v.point) found.new.keys) point) }
    ensures only { OnOk result ((q : AnyPoint W) → Has W.numbers.ring (map (λ v. v.point) found.new.keys) q
        → Has W.numbers.ring (map (λ v. v.point) found.old.keys) q ⊎ IsSamePoint W.numbers.ring q point) }
    ensures is_new { IfOk result (λ new. new ≡ true → ¬ Has W.numbers.ring (map (λ v. v.point) found.old.keys) point) }
    ensures was { IfOk result (λ new. new ≡ false → Has W.numbers.ring (map (λ v. v.point) found.old.keys) point) }
{
    let new = found.insert(vertex_at(point))?;
    Ok(new)
}

/// Puts a vertex before those in the set: its place is the first where one of them is the same, and else it stays as it was.
fn note<W: Whole>(
    later: &mut BTreeSet<Vertex<W>>,
    vertices: &[Point<W>],
    place: usize,
    found: Option<usize>,
) -> Result<Option<usize>, AllocError>
    requires scaled { All (IsScaledPoint W.numbers) vertices.now }
    requires in_range { place < length vertices.now }
    requires later { HasFrom W.numbers.ring vertices.now (place + 1) (map (λ v. v.point) later.old.keys) }
    requires first { IsFirstFrom W.numbers.ring vertices.now (place + 1) found }
    ensures later { OnOk result (HasFrom W.numbers.ring vertices.now place (map (λ v. v.point) later.new.keys)) }
    ensures first { IfOk result (IsFirstFrom W.numbers.ring vertices.now place) }
{
    if add(later, vertices[place])? {
        Ok(found)
    } else {
        Ok(Some(place))
    }
}

/// The first vertex that a later one is the same as.
fn first_repeated<W: Whole>(
    alloc: Global,
    vertices: &[Point<W>],
) -> Result<Option<usize>, AllocError>
    requires { All (IsScaledPoint W.numbers) vertices.now }
    ensures { IfOk result (IsFirstFrom W.numbers.ring vertices.now 0) }
{
    let mut later = BTreeSet::new(alloc);
    let mut found = None;
    let mut place = vertices.len();
    while place > 0 {
        place -= 1;
        found = note(&mut later, vertices, place, found)?;
    }
    Ok(found)
}

/// The first vertex after this one that is the same.
fn next_same<W: Whole>(vertices: &[Point<W>], low: usize) -> usize
    requires scaled { All (IsScaledPoint W.numbers) vertices.now }
    requires repeated { IsRepeated W.numbers.ring vertices.now low }
    ensures { IsFirstOf (AreSame W.numbers.ring vertices.now low) result }
{
    for high in low + 1..vertices.len() {
        if is_same(vertices[low], vertices[high]) {
            return high;
        }
    }
    unreachable!()
}

/// The least two vertices that are the same.
pub fn least_same<W: Whole>(
    alloc: Global,
    vertices: &[Point<W>],
) -> Result<Option<(u32, u32)>, AllocError>
    requires scaled { All (IsScaledPoint W.numbers) vertices.now }
    requires few { length vertices.now ≤ 16384 }
    ensures { IfOk result (λ found. MatchOption found
        ((low high : ℕ) → ¬ AreSame W.numbers.ring vertices.now low high)
        (IsFirstPair (AreSame W.numbers.ring vertices.now))) }
{
    let Some(low) = first_repeated(alloc, vertices)? else {
        return Ok(None);
    };
    let high = next_same(vertices, low);
    Ok(Some((low as u32, high as u32)))
}
