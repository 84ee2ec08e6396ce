ghost use Rattle.std.specs.Prelude.{◌≡◌, ℕ, ◌<◌, ◌↔◌, length, All, AllPairs, IsTrue};
ghost use Rattle.std.specs.declared.cmp.Ordering.TheVariants.{Less};
ghost use Rattle.plane.specs.Directions.{Differ, IsClockwise, west};
ghost use Rattle.plane.specs.Points.{IsPoint, IsSamePoint, point_order};
ghost use Rattle.scaled_plane.specs.Drawn.{IsDrawn};
ghost use Rattle.scaled_plane.specs.Pieces.{point_at};
ghost use Rattle.face_walks.specs.Headings.{IsHeadingSize, direction_of, lead};
ghost use Rattle.face_walks.specs.Outside.{IsFirstFrom, IsLeastPoint, IsOutsideHalf};
ghost use Rattle.face_walks.specs.Rings.{half_at, ring_at};

use crate::headings::{Heading, is_clockwise};
use crate::rings::Rings;
use exact_number::Whole;
use half_edges::HalfId;
use plane::Point;
use scaled_plane::compare_points;
use std::cmp::Ordering;

fn is_before<W: Whole>(p: Point<W>, q: Point<W>) -> bool
    requires first { IsDrawn W.numbers p }
    requires second { IsDrawn W.numbers q }
    ensures { IsTrue result ↔ (point_order W.numbers.ring p q ≡ Less) }
{
    compare_points(p, q) == Ordering::Less
}

fn least_vertex<W: Whole>(vertices: &[Point<W>]) -> usize
    requires some { 0 < length vertices.now }
    requires points { (v : ℕ) → v < length vertices.now → IsPoint W.numbers.ring (point_at W.numbers.ring vertices.now v) }
    requires drawn { (v : ℕ) → v < length vertices.now → IsDrawn W.numbers (point_at W.numbers.ring vertices.now v) }
    requires different { AllPairs (λ p q. ¬ IsSamePoint W.numbers.ring p q) vertices.now }
    ensures { IsLeastPoint W.numbers.ring vertices.now (length vertices.now) result }
{
    let mut least = 0;
    for i in 1..vertices.len() {
        if is_before(vertices[i], vertices[least]) {
            least = i;
        }
    }
    least
}

fn westwards<W: Whole>() -> Heading<W>
    ensures direction { direction_of result ≡ west W.numbers.ops }
    ensures size { IsHeadingSize W.pair result }
{
    match W::from_pair(-1, 0) {
        Some(x) => match W::from_pair(0, 0) {
            Some(y) => Heading { x, y },
            None => unreachable!(),
        },
        None => unreachable!(),
    }
}

/// Whether one turns clockwise from the direction to the first half-edge before the second.
fn turns_from<W: Whole>(
    from: Heading<W>,
    first: HalfId,
    second: HalfId,
    headings: &[Heading<W>],
) -> bool
    requires from_small { IsHeadingSize W.pair from }
    requires small { All (IsHeadingSize W.pair) headings.now }
    requires first_in_range { first.0 < length headings.now }
    requires second_in_range { second.0 < length headings.now }
    ensures { IsTrue result ↔ IsClockwise W.numbers.ring (direction_of from) (lead W.numbers.ring headings.now first.0) (lead W.numbers.ring headings.now second.0) }
{
    is_clockwise(
        from,
        headings[first.0 as usize],
        headings[second.0 as usize],
    )
}

/// The first half-edge of the ring clockwise from the direction.
fn first_from<W: Whole>(from: Heading<W>, ring: &[HalfId], headings: &[Heading<W>]) -> HalfId
    requires some { 0 < length ring.now }
    requires from_small { IsHeadingSize W.pair from }
    requires small { All (IsHeadingSize W.pair) headings.now }
    requires in_range { (k : ℕ) → k < length ring.now → half_at ring.now k < length headings.now }
    requires differ { (k : ℕ) → k < length ring.now → Differ W.numbers.ring (direction_of from) (lead W.numbers.ring headings.now (half_at ring.now k)) }
    requires apart { (i j : ℕ) → i < length ring.now → j < length ring.now → ¬ (half_at ring.now i ≡ half_at ring.now j)
        → Differ W.numbers.ring (lead W.numbers.ring headings.now (half_at ring.now i)) (lead W.numbers.ring headings.now (half_at ring.now j)) }
    ensures { IsFirstFrom W.numbers.ring headings.now (direction_of from) ring.now (length ring.now) result.0 }
{
    let mut first = ring[0];
    for half in ring {
        if turns_from(from, *half, first, headings) {
            first = *half;
        }
    }
    first
}

/// The half-edge that goes out of the least vertex along the outside.
pub fn outside_half<W: Whole>(
    vertices: &[Point<W>],
    rings: &Rings,
    headings: &[Heading<W>],
) -> HalfId
    requires some { 0 < length vertices.now }
    requires points { (v : ℕ) → v < length vertices.now → IsPoint W.numbers.ring (point_at W.numbers.ring vertices.now v) }
    requires drawn { (v : ℕ) → v < length vertices.now → IsDrawn W.numbers (point_at W.numbers.ring vertices.now v) }
    requires different { AllPairs (λ p q. ¬ IsSamePoint W.numbers.ring p q) vertices.now }
    requires small { All (IsHeadingSize W.pair) headings.now }
    requires as_many { length rings.now ≡ length vertices.now }
    requires used { (v : ℕ) → v < length rings.now → 0 < length (ring_at rings.now v) }
    requires in_range { (v k : ℕ) → v < length rings.now → k < length (ring_at rings.now v) → half_at (ring_at rings.now v) k < length headings.now }
    requires differ { (v k : ℕ) → IsLeastPoint W.numbers.ring vertices.now (length vertices.now) v → k < length (ring_at rings.now v)
        → Differ W.numbers.ring (west W.numbers.ops) (lead W.numbers.ring headings.now (half_at (ring_at rings.now v) k)) }
    requires apart { (v i j : ℕ) → v < length rings.now → i < length (ring_at rings.now v) → j < length (ring_at rings.now v)
        → ¬ (half_at (ring_at rings.now v) i ≡ half_at (ring_at rings.now v) j)
        → Differ W.numbers.ring (lead W.numbers.ring headings.now (half_at (ring_at rings.now v) i)) (lead W.numbers.ring headings.now (half_at (ring_at rings.now v) j)) }
    ensures { IsOutsideHalf W.numbers.ring vertices.now rings.now headings.now result.0 }
{
    let least = least_vertex(vertices);
    first_from(westwards(), rings.ring(least), headings)
}
