ghost use Rattle.std.specs.Prelude.{◌<◌, ◌≤◌, ◌*◌, ◌^◌, All, IsTrue, ◌↔◌, length};
ghost use Rattle.exact_number.specs.Sizes.{whole_size};
ghost use Rattle.plane.specs.declared.point.Point.{Point as AnyPoint};
ghost use Rattle.layers.specs.Folded.{IsConvex};
ghost use Rattle.scaled_plane.specs.Sizes.{IsScaledSize};
ghost use Rattle.half_planes.specs.Extents.{AreApart, Holds, IsAtLeast, IsExtentSize};
ghost use Rattle.half_planes.specs.Faces.{InsidesMeet};

use crate::face::FaceView;
use exact_number::{Whole, difference};
use plane::Point;
use scaled_plane::degree_bounds;
use std::cmp::Ordering;

/// The ranges in which points lie, in x and in y.
#[derive(Clone, Copy)]
pub struct Extent<W> {
    pub left: W,
    pub right: W,
    pub bottom: W,
    pub top: W,
}

fn is_at_least<W: Whole>(x: W, y: W) -> bool
    requires first { whole_size (W.pair x) ≤ 3 * 2 ^ 22 }
    requires second { whole_size (W.pair y) ≤ 3 * 2 ^ 22 }
    ensures { IsTrue result ↔ IsAtLeast W.numbers.ring x y }
{
    match difference(x, y).sign() {
        Ordering::Less => false,
        Ordering::Equal => true,
        Ordering::Greater => true,
    }
}

fn lesser<W: Whole>(x: W, y: W) -> W
    requires first { whole_size (W.pair x) ≤ 3 * 2 ^ 22 }
    requires second { whole_size (W.pair y) ≤ 3 * 2 ^ 22 }
    ensures size { whole_size (W.pair result) ≤ 3 * 2 ^ 22 }
    ensures under_first { IsAtLeast W.numbers.ring x result }
    ensures under_second { IsAtLeast W.numbers.ring y result }
{
    if is_at_least(x, y) { y } else { x }
}

fn greater<W: Whole>(x: W, y: W) -> W
    requires first { whole_size (W.pair x) ≤ 3 * 2 ^ 22 }
    requires second { whole_size (W.pair y) ≤ 3 * 2 ^ 22 }
    ensures size { whole_size (W.pair result) ≤ 3 * 2 ^ 22 }
    ensures over_first { IsAtLeast W.numbers.ring result x }
    ensures over_second { IsAtLeast W.numbers.ring result y }
{
    if is_at_least(x, y) { x } else { y }
}

/// The ranges of one point.
fn extent_at<W: Whole>(point: Point<W>) -> Extent<W>
    requires { IsScaledSize W.pair point }
    ensures size { IsExtentSize W.pair result }
{
    Extent {
        left: point.x,
        right: point.x,
        bottom: point.y,
        top: point.y,
    }
}

/// The ranges widened to one more point.
fn widened<W: Whole>(extent: Extent<W>, point: Point<W>) -> Extent<W>
    requires extent { IsExtentSize W.pair extent }
    requires point { IsScaledSize W.pair point }
    ensures size { IsExtentSize W.pair result }
    ensures holds { Holds W.numbers.ring result point }
    ensures kept { (v : AnyPoint W) → Holds W.numbers.ring extent v → Holds W.numbers.ring result v }
{
    Extent {
        left: lesser(extent.left, point.x),
        right: greater(extent.right, point.x),
        bottom: lesser(extent.bottom, point.y),
        top: greater(extent.top, point.y),
    }
}

/// The ranges in which the corners of a face lie.
fn extent_of<F: FaceView>(face: &F) -> Extent<F::Ring>
    requires { 0 < length (F.face face.now).corners }
    ensures size { IsExtentSize F.Ring.pair result }
    ensures holds { All (Holds F.Ring.numbers.ring result) (F.face face.now).corners }
{
    degree_bounds::<F::Ring>();
    let mut extent = extent_at(face.corner(0));
    for place in 0..face.corner_count() {
        extent = widened(extent, face.corner(place));
    }
    extent
}

/// Whether two extents share no more than a border.
fn are_apart<W: Whole>(first: Extent<W>, second: Extent<W>) -> bool
    requires first { IsExtentSize W.pair first }
    requires second { IsExtentSize W.pair second }
    ensures { IsTrue result ↔ AreApart W.numbers.ring first second }
{
    if is_at_least(first.left, second.right) {
        return true;
    }
    if is_at_least(second.left, first.right) {
        return true;
    }
    if is_at_least(first.bottom, second.top) {
        return true;
    }
    is_at_least(second.bottom, first.top)
}

/// Whether two faces lie so far apart that this alone tells that no point is inside both.
pub fn lie_apart<F: FaceView, G: FaceView<Ring = F::Ring>>(first: &F, second: &G) -> bool
    requires first { IsConvex F.Ring.numbers.ring (F.face first.now) }
    requires second { IsConvex F.Ring.numbers.ring (G.face second.now) }
    ensures { IsTrue result → ¬ InsidesMeet F.Ring.numbers.ring (F.face first.now) (G.face second.now) }
{
    are_apart(extent_of(first), extent_of(second))
}
