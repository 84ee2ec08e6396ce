ghost use Rattle.std.specs.Prelude.{◌≡◌, pos, ◌<◌, ◌<ℤ◌, ◌≤ℤ◌, ◌^◌, ◌↔◌, IsTrue, IfSome};
ghost use Rattle.plane.specs.Points.{IsSamePoint};
ghost use Rattle.scaled_plane.specs.Drawn.{IsScaledPoint, IsScaledSegment};
ghost use Rattle.segment_tests.specs.Meets.{CrossesInDrawn};

use exact_number::{Exact, MOST_SCALED, Whole};
use fold_base::Letter;
use plane::Point;
use rational::{Rational, RationalRing};
use root_two::{RootThree, RootThreeRing, RootTwo, RootTwoRing};
use scaled_plane::{Pair, Segment, compare_points, exact_point};
use segment_tests::{Meet, Steps, meet};
use std::cmp::Ordering;
use std::marker::Brand;
use std::process::Abort;
use std::sync::ledger::{Blank, Ledger};

pub type Place = (i128, i128);

/// What two segments have in common, by the parts without a root.
#[derive(Clone, Copy, PartialEq, Eq, Debug)]
enum Told {
    Apart,
    Touches(i128, i128, i128),
    Crosses(i128, i128, i128),
    Along(Place, Place),
}

fn one<W: Whole>() -> W
    ensures { result ≡ W.numbers.int (pos 1) }
{
    match W::from_pair(1, 0) {
        Some(one) => one,
        None => unreachable!(),
    }
}

pub fn scaled<W: Whole>(place: Place) -> Option<Point<W>>
    ensures { IfSome result (λ p. IsScaledPoint W.numbers p) }
{
    if place.0.unsigned_abs() > MOST_SCALED || place.1.unsigned_abs() > MOST_SCALED {
        return None;
    }
    match W::from_pair(place.0, 0) {
        Some(x) => match W::from_pair(place.1, 0) {
            Some(y) => Some(Point { x, y, w: one() }),
            None => None,
        },
        None => None,
    }
}

pub fn segment<W: Whole>(from: Place, to: Place, letter: Letter) -> Option<Segment<W>>
    ensures { IfSome result (λ s. IsScaledSegment W.numbers s) }
{
    match scaled(from) {
        Some(from) => match scaled(to) {
            Some(to) => Some(Segment { from, to, letter }),
            None => None,
        },
        None => None,
    }
}

/// Whether the ends of a segment are one point.
pub fn is_point<W: Whole>(s: Segment<W>) -> bool
    requires { IsScaledSegment W.numbers s }
    ensures { IsTrue result ↔ IsSamePoint W.numbers.ring s.from s.to }
{
    match compare_points(s.from, s.to) {
        Ordering::Less => false,
        Ordering::Equal => true,
        Ordering::Greater => false,
    }
}

/// What two segments have in common, unless one of them is a point.
fn common<W: Whole, L: Ledger>(blank: Blank, s: Segment<W>, t: Segment<W>) -> Option<Meet<W>>
    requires first { IsScaledSegment W.numbers s }
    requires second { IsScaledSegment W.numbers t }
    requires name { blank.name ≡ L.name }
    requires parts { blank.parts ≡ L.parts }
    requires some { 0 < L.parts }
    ensures { IfSome result (λ met. CrossesInDrawn W.numbers met) }
{
    if is_point(s) {
        return None;
    }
    if is_point(t) {
        return None;
    }
    let mut steps: Steps<L> = Steps::new(blank);
    Some(meet(s, t, &mut steps))
}

fn rational_parts<W: Whole>(p: Point<W>) -> (i128, i128, i128) {
    (p.x.pair().0, p.y.pair().0, p.w.pair().0)
}

fn described<W: Whole>(meet: Meet<W>) -> Told {
    match meet {
        Meet::Apart => Told::Apart,
        Meet::Touches(p) => {
            let (x, y, w) = rational_parts(p);
            Told::Touches(x, y, w)
        }
        Meet::Crosses(p) => {
            let (x, y, w) = rational_parts(p);
            Told::Crosses(x, y, w)
        }
        Meet::Along(p, q) => {
            let (x, y, _) = rational_parts(p);
            let (u, v, _) = rational_parts(q);
            Told::Along((x, y), (u, v))
        }
    }
}

fn between<W: Whole>(rt: &impl Abort, s: (Place, Place), t: (Place, Place)) -> Told {
    let s = segment::<W>(s.0, s.1, Letter::Mountain).expect(rt, "small");
    let t = segment::<W>(t.0, t.1, Letter::Mountain).expect(rt, "small");
    described(common::<W, Brand>(Blank::new(1), s, t).expect(rt, "proper"))
}

#[test]
fn segments_meet(rt: HostRuntime) {
    let rows = [
        (((0, 0), (2, 2)), ((0, 2), (2, 0)), Told::Crosses(8, 8, 8)),
        (((0, 0), (2, 0)), ((1, 0), (1, 1)), Told::Touches(1, 0, 1)),
        (((0, 0), (1, 0)), ((1, 0), (2, 0)), Told::Touches(1, 0, 1)),
        (
            ((0, 0), (2, 0)),
            ((3, 0), (1, 0)),
            Told::Along((1, 0), (2, 0)),
        ),
        (
            ((0, 0), (1, 1)),
            ((1, 1), (0, 0)),
            Told::Along((0, 0), (1, 1)),
        ),
        (((0, 0), (2, 0)), ((0, 1), (2, 1)), Told::Apart),
        (((0, 0), (1, 0)), ((2, 1), (2, -1)), Told::Apart),
        (((0, 0), (1, 0)), ((2, 0), (3, 0)), Told::Apart),
    ];
    for (s, t, answer) in rows {
        assert_eq!(rt; between::<RationalRing>(&rt, s, t), answer);
        assert_eq!(rt; between::<RootTwoRing>(&rt, s, t), answer);
        assert_eq!(rt; between::<RootThreeRing>(&rt, s, t), answer);
    }
}

/// The exact point where two segments cross.
fn exact_crossing<N: Exact>(
    rt: &impl Abort,
    s: Segment<N::Ring>,
    t: Segment<N::Ring>,
    denominator: i128,
) -> Option<Pair<N>>
    requires first { IsScaledSegment N.Ring.numbers s }
    requires second { IsScaledSegment N.Ring.numbers t }
    requires positive { pos 0 <ℤ denominator }
    requires within { denominator ≤ℤ pos (2 ^ 24) }
{
    match common::<N::Ring, Brand>(Blank::new(1), s, t).expect(rt, "proper") {
        Meet::Crosses(point) => exact_point(point, denominator),
        _ => None,
    }
}

type Parts = (i128, i128, i128);

fn parts<N: Exact>(point: Option<Pair<N>>) -> Option<(Parts, Parts)> {
    match point {
        Some(point) => Some((point.x.parts(), point.y.parts())),
        None => None,
    }
}

fn diagonal_crossing<N: Exact>(rt: &impl Abort) -> Option<(Parts, Parts)> {
    let s = segment::<N::Ring>((0, 0), (2, 3), Letter::Mountain).expect(rt, "small");
    let t = segment::<N::Ring>((0, 3), (2, 0), Letter::Mountain).expect(rt, "small");
    parts(exact_crossing::<N>(rt, s, t, 12))
}

#[test]
fn drawn_points_become_exact(rt: HostRuntime) {
    let p: Point<RationalRing> = scaled((6, -4)).expect(&rt, "small");
    let exact = exact_point::<Rational>(p, 12).expect(&rt, "narrow");
    assert_eq!(rt; (exact.x.parts(), exact.y.parts()), ((1, 0, 2), (-1, 0, 3)));
    let middle = Some(((1, 0, 12), (1, 0, 8)));
    assert_eq!(rt; diagonal_crossing::<Rational>(&rt), middle);
    assert_eq!(rt; diagonal_crossing::<RootTwo>(&rt), middle);
    assert_eq!(rt; diagonal_crossing::<RootThree>(&rt), middle);
}

/// The lines from the origin to (√k, 1) and from (0, 1) to (√k, 0) cross in the middle of (√k, 1).
fn crossing_with_root<N: Exact>(rt: &impl Abort) -> Option<(Parts, Parts)> {
    let zero = N::Ring::from_pair(0, 0).expect(rt, "a number");
    let root = N::Ring::from_pair(0, 1).expect(rt, "with a root");
    let one = one();
    let at = |x, y| Point { x, y, w: one };
    let letter = Letter::Mountain;
    let s = Segment {
        from: at(zero, zero),
        to: at(root, one),
        letter,
    };
    let t = Segment {
        from: at(zero, one),
        to: at(root, zero),
        letter,
    };
    parts(exact_crossing::<N>(rt, s, t, 1))
}

#[test]
fn roots_stay_in_the_points_that_are_made_exact(rt: HostRuntime) {
    let middle = Some(((0, 1, 2), (1, 0, 2)));
    assert_eq!(rt; crossing_with_root::<RootTwo>(&rt), middle);
    assert_eq!(rt; crossing_with_root::<RootThree>(&rt), middle);
}
