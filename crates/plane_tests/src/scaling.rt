ghost use Rattle.std.specs.Prelude.{◌≡◌, length, IfOk};

use exact_number::{Exact, Whole};
use fold_base::List;
use plane::Point;
use rational::{Rational, RationalRing};
use root_two::RootTwo;
use scaled_plane::{Pair, ScaleFault, Scaled, scale_all};
use std::alloc::{AllocError, Global};
use std::process::Abort;
use std::test::Fail;

/// A fraction by its two parts.
type Fraction = (i128, i128);

/// What scaled points come to: the common denominator with their coordinates, or the vertex that's too wide.
#[derive(Clone, Copy, PartialEq, Eq, Debug)]
enum Answer {
    Points(i128, (i128, i128), (i128, i128)),
    TooWide(u32),
    Other,
}

fn rational(rt: &impl Abort, (a, q): Fraction) -> Rational {
    assert!(rt; q > 0);
    Rational::from_parts(a, 0, q).expect(rt, "no root")
}

fn coordinates(point: Point<RationalRing>) -> (i128, i128) {
    (point.x.a, point.y.a)
}

fn told(scaled: Result<Scaled<RationalRing>, ScaleFault>) -> Answer {
    match scaled {
        Ok(scaled) => match (scaled.points.get(0), scaled.points.get(1)) {
            (Some(first), Some(second)) => {
                Answer::Points(scaled.common, coordinates(*first), coordinates(*second))
            }
            _ => Answer::Other,
        },
        Err(ScaleFault::TooWide { vertex }) => Answer::TooWide(vertex),
        Err(ScaleFault::Memory(_)) => Answer::Other,
    }
}

fn two_points<N: Exact>(
    alloc: Global,
    first: Pair<N>,
    second: Pair<N>,
) -> Result<List<Pair<N>>, AllocError>
    ensures { IfOk result (λ coords. length coords ≡ 2) }
{
    let mut coords = List::new(alloc);
    coords.push(first)?;
    coords.push(second)?;
    Ok(coords)
}

#[test]
fn rationals_are_scaled_up_to_the_bounds(rt: HostRuntime) -> Result<(), Fail> {
    let rows = [
        // a seventh decimal, and parts of 2^22 and one more
        (
            ((0, 1), (0, 1)),
            ((4_194_304, 10_000_000), (1, 10_000_000)),
            Answer::Points(10_000_000, (0, 0), (4_194_304, 1)),
        ),
        (
            ((0, 1), (0, 1)),
            ((4_194_305, 10_000_000), (1, 10_000_000)),
            Answer::TooWide(1),
        ),
        (
            ((0, 1), (0, 1)),
            ((4_194_304, 1), (0, 1)),
            Answer::Points(1, (0, 0), (4_194_304, 0)),
        ),
        (
            ((0, 1), (0, 1)),
            ((4_194_305, 1), (0, 1)),
            Answer::TooWide(1),
        ),
        // the denominator 20,000,000
        (
            ((0, 1), (0, 1)),
            ((5, 100_000_000), (1, 1)),
            Answer::TooWide(1),
        ),
        // the denominators of both coordinates and of both points
        (
            ((1, 2), (1, 3)),
            ((-3, 4), (0, 1)),
            Answer::Points(12, (6, 4), (-9, 0)),
        ),
        // a denominator that's too large comes before a part
        (
            ((4_194_305, 1), (0, 1)),
            ((1, 20_000_000), (0, 1)),
            Answer::TooWide(1),
        ),
    ];
    for (first, second, answer) in rows {
        let first = Pair {
            x: rational(&rt, first.0),
            y: rational(&rt, first.1),
        };
        let second = Pair {
            x: rational(&rt, second.0),
            y: rational(&rt, second.1),
        };
        let coords = two_points(rt.alloc(), first, second)?;
        assert_eq!(rt; told(scale_all(rt.alloc(), &coords)), answer);
    }
    Ok(())
}

#[test]
fn both_parts_are_scaled(rt: HostRuntime) -> Result<(), Fail> {
    let x = RootTwo::from_parts(1, 1, 2).expect(&rt, "a root");
    let y = RootTwo::from_parts(0, -1, 3).expect(&rt, "a root");
    let coords = two_points(rt.alloc(), Pair { x, y }, Pair { x: y, y: x })?;
    let scaled = scale_all(rt.alloc(), &coords).expect(&rt, "small");
    assert_eq!(rt; scaled.common, 6);
    let first = scaled.points.get(0).expect(&rt, "two points");
    assert_eq!(rt; first.x.pair(), (3, 3));
    assert_eq!(rt; first.y.pair(), (0, -2));
    assert_eq!(rt; first.w.pair(), (1, 0));
    Ok(())
}
