ghost use Rattle.std.specs.Prelude.{All, length, ◌<◌, ◌^◌};
ghost use Rattle.scaled_plane.specs.Drawn.{IsScaledPoint};
ghost use Rattle.half_planes.specs.HalfPlanes.{IsFormed};

use crate::meeting::{Place, is_point, scaled, segment};
use exact_number::{MOST_SCALED, Whole};
use fold_base::Letter;
use half_planes::{
    FaceSlice, LineSlice, insides_meet, meet_inside, segment_enters_face, segments_run_together,
    three_insides_meet,
};
use plane::{Line, Point};
use rational::RationalRing;
use root_two::RootTwoRing;
use scaled_plane::line_through;
use std::process::Abort;

fn at<W: Whole>(rt: &impl Abort, x: i128, y: i128) -> Point<W>
    ensures { IsScaledPoint W.numbers result }
{
    scaled((x, y)).expect(rt, "small")
}

/// A point that stands right of the y-axis by so many times √K.
fn at_root<W: Whole>(rt: &impl Abort, root: i128, y: i128) -> Point<W>
    ensures { IsScaledPoint W.numbers result }
{
    let point: Point<W> = at(rt, 0, y);
    assert!(rt; root.unsigned_abs() <= MOST_SCALED);
    let x = W::from_pair(0, root).expect(rt, "a root");
    Point {
        x,
        y: point.y,
        w: point.w,
    }
}

/// The half-plane left of the way from one point to another.
fn left_of<W: Whole>(from: Point<W>, to: Point<W>) -> Line<W>
    requires from { IsScaledPoint W.numbers from }
    requires to { IsScaledPoint W.numbers to }
    ensures { IsFormed W.numbers result }
{
    line_through(from, to)
}

/// Whether some point lies in all the half-planes.
fn share_a_point<W: Whole>(lines: &[Line<W>]) -> bool
    requires short { length lines.now < 2 ^ 32 }
    requires formed { All (IsFormed W.numbers) lines.now }
{
    meet_inside(&LineSlice::new(lines))
}

#[test]
fn half_planes_of_rationals(rt: HostRuntime) {
    let a: Point<RationalRing> = at(&rt, 0, 0);
    let b = at(&rt, 4, 0);
    let c = at(&rt, 0, 4);
    let inside = [left_of(a, b), left_of(b, c), left_of(c, a)];
    assert!(rt; share_a_point(&inside));
    let outside = [left_of(b, a), left_of(c, b), left_of(a, c)];
    assert!(rt; !share_a_point(&outside));
    let opposite = [left_of(a, b), left_of(b, a)];
    assert!(rt; !share_a_point(&opposite));
}

#[test]
fn half_planes_about_an_origin(rt: HostRuntime) {
    // right of the y-axis, above the x-axis, and where the coordinates have a sum below 0
    let a: Point<RationalRing> = at(&rt, 0, 0);
    let right = left_of(at(&rt, 0, 1), a);
    let upper = left_of(a, at(&rt, 1, 0));
    let beyond = left_of(a, at(&rt, -1, 1));
    assert!(rt; share_a_point(&[right, upper]));
    assert!(rt; !share_a_point(&[right, upper, beyond]));
}

#[test]
fn no_half_planes(rt: HostRuntime) {
    let lines: [Line<RationalRing>; 0] = [];
    assert!(rt; share_a_point(&lines));
}

#[test]
fn half_planes_with_roots(rt: HostRuntime) {
    // from 1000√2 to 1415, and from there to 1414: 1000√2 is 1414.2..
    let right: Line<RootTwoRing> = left_of(at_root(&rt, 1000, 1), at_root(&rt, 1000, 0));
    let wide = [right, left_of(at(&rt, 1415, 0), at(&rt, 1415, 1))];
    assert!(rt; share_a_point(&wide));
    let narrow = [right, left_of(at(&rt, 1414, 0), at(&rt, 1414, 1))];
    assert!(rt; !share_a_point(&narrow));
}

#[test]
fn faces_of_rationals(rt: HostRuntime) {
    let middle: Point<RationalRing> = at(&rt, 2, 2);
    let corners = [at(&rt, 0, 0), at(&rt, 4, 0), at(&rt, 4, 4), at(&rt, 0, 4)];
    let turned = [at(&rt, 0, 4), at(&rt, 4, 4), at(&rt, 4, 0), at(&rt, 0, 0)];
    let beside = [at(&rt, 4, 0), at(&rt, 8, 0), at(&rt, 8, 4), at(&rt, 4, 4)];
    let across = [middle, at(&rt, 6, 2), at(&rt, 6, 3)];
    let square = FaceSlice::new(&corners, false);
    let turned = FaceSlice::new(&turned, true);
    let beside = FaceSlice::new(&beside, false);
    let across = FaceSlice::new(&across, false);
    assert!(rt; insides_meet(&square, &turned));
    assert!(rt; !insides_meet(&square, &beside));
    assert!(rt; insides_meet(&across, &beside));
    assert!(rt; three_insides_meet(&square, &turned, &across));
    assert!(rt; !three_insides_meet(&square, &beside, &across));
    assert!(rt; segment_enters_face(at(&rt, 4, 4), middle, &square));
    assert!(rt; !segment_enters_face(at(&rt, 0, 0), at(&rt, 4, 0), &square));
}

/// Whether two segments share a stretch, unless one of them is a point.
fn together<W: Whole>(rt: &impl Abort, s: (Place, Place), t: (Place, Place)) -> Option<bool> {
    let s = segment::<W>(s.0, s.1, Letter::Mountain).expect(rt, "small");
    let t = segment::<W>(t.0, t.1, Letter::Mountain).expect(rt, "small");
    if is_point(s) {
        return None;
    }
    if is_point(t) {
        return None;
    }
    Some(segments_run_together((s.from, s.to), (t.from, t.to)))
}

#[test]
fn segments_along_each_other(rt: HostRuntime) {
    let rows = [
        (((0, 0), (2, 2)), ((3, 3), (1, 1)), true),
        (((0, 0), (2, 2)), ((2, 2), (3, 3)), false),
        (((0, 0), (2, 2)), ((0, 2), (2, 0)), false),
        (((0, 0), (2, 0)), ((0, 1), (2, 1)), false),
    ];
    for (s, t, answer) in rows {
        assert_eq!(rt; together::<RationalRing>(&rt, s, t), Some(answer));
        assert_eq!(rt; together::<RootTwoRing>(&rt, s, t), Some(answer));
    }
}
