ghost use Rattle.std.specs.Prelude.{◌≡◌, ◌<◌, ◌≤◌, ◌^◌, ℕ, All, Contains, MatchOption, length, slice_index};
ghost use Rattle.std.specs.Bool.{OnTrue, OnFalse};
ghost use Rattle.flat_fold.specs.Faces.{corners_at};
ghost use Rattle.scaled_plane.specs.Drawn.{IsScaledPoint};
ghost use Rattle.scaled_plane.specs.Pieces.{point_at};
ghost use Rattle.sheet_check.specs.Bent.{HasRight, IsBentPlace, IsFirstBentFace, IsFirstBentPlace, corner_after, corner_before};

use exact_number::Whole;
use plane::Point;
use scaled_plane::{Face, orient};

/// The corner before this one, going round.
fn corner_before(corners: &[u32], place: usize) -> u32
    requires in_range { place < length corners.now }
    requires two { 2 ≤ length corners.now }
    ensures { result ≡ corner_before corners.now place }
{
    if place == 0 {
        corners[corners.len() - 1]
    } else {
        corners[place - 1]
    }
}

/// The corner after this one, going round.
fn corner_after(corners: &[u32], place: usize) -> u32
    requires in_range { place < length corners.now }
    requires two { 2 ≤ length corners.now }
    ensures { result ≡ corner_after corners.now place }
{
    let next = place + 1;
    if next < corners.len() {
        corners[next]
    } else {
        corners[0]
    }
}

/// A vertex.
fn vertex<W: Whole>(vertices: &[Point<W>], v: u32) -> Point<W>
    requires scaled { All (IsScaledPoint W.numbers) vertices.now }
    requires in_range { v < length vertices.now }
    ensures is { result ≡ point_at W.numbers.ring vertices.now v }
    ensures scaled { IsScaledPoint W.numbers result }
{
    vertices[v as usize]
}

/// Whether some corner lies strictly to the right of the line from `b` to `c`.
fn has_right<W: Whole>(vertices: &[Point<W>], corners: &[u32], b: u32, c: u32) -> bool
    requires scaled { All (IsScaledPoint W.numbers) vertices.now }
    requires corners { (z : ℕ) → Contains corners.now z → z < length vertices.now }
    requires first { b < length vertices.now }
    requires second { c < length vertices.now }
    ensures right { OnTrue result (HasRight W.numbers.ring vertices.now corners.now b c) }
    ensures none { OnFalse result (¬ HasRight W.numbers.ring vertices.now corners.now b c) }
{
    let from = vertex(vertices, b);
    let to = vertex(vertices, c);
    for corner in corners {
        if orient(from, to, vertex(vertices, *corner)).is_lt() {
            return true;
        }
    }
    false
}

/// Whether a face turns straight back at the corner at this place, or has a corner strictly to the right of the line to it.
fn is_bent<W: Whole>(vertices: &[Point<W>], corners: &[u32], place: usize) -> bool
    requires scaled { All (IsScaledPoint W.numbers) vertices.now }
    requires corners { (z : ℕ) → Contains corners.now z → z < length vertices.now }
    requires in_range { place < length corners.now }
    ensures bent { OnTrue result (IsBentPlace W.numbers.ring vertices.now corners.now place) }
    ensures straight { OnFalse result (¬ IsBentPlace W.numbers.ring vertices.now corners.now place) }
{
    if corners.len() < 2 {
        return false;
    }
    let before = corner_before(corners, place);
    if before == corner_after(corners, place) {
        return true;
    }
    has_right(vertices, corners, before, corners[place])
}

/// The first place at which a face is bent.
fn first_bent_place<W: Whole>(vertices: &[Point<W>], corners: &[u32]) -> Option<usize>
    requires scaled { All (IsScaledPoint W.numbers) vertices.now }
    requires corners { (z : ℕ) → Contains corners.now z → z < length vertices.now }
    ensures { MatchOption result
        ((k : ℕ) → ¬ IsBentPlace W.numbers.ring vertices.now corners.now k)
        (IsFirstBentPlace W.numbers.ring vertices.now corners.now) }
{
    for place in 0..corners.len() {
        if is_bent(vertices, corners, place) {
            return Some(place);
        }
    }
    None
}

/// The first face that isn't convex, and its first corner at which it is bent.
pub fn first_bent<W: Whole>(vertices: &[Point<W>], faces: &[Face]) -> Option<(u32, u32)>
    requires scaled { All (IsScaledPoint W.numbers) vertices.now }
    requires corners { (f z : ℕ) → Contains (corners_at faces.now f) z → z < length vertices.now }
    requires few { length faces.now < 2 ^ 32 }
    ensures { MatchOption result
        ((f k : ℕ) → f < length faces.now → ¬ IsBentPlace W.numbers.ring vertices.now (corners_at faces.now f) k)
        (λ p. IsFirstBentFace W.numbers.ring vertices.now faces.now p.0 p.1) }
{
    for face in 0..faces.len() {
        let corners = faces[face].corners.as_slice();
        match first_bent_place(vertices, corners) {
            Some(place) => return Some((face as u32, corners[place])),
            None => {}
        }
    }
    None
}
