// Reflections, and one after another.
use exact_number::{Exact, whole_number};
use flat_fold::Motion;
use rational::Rational;
use root_two::RootTwo;
use scaled_plane::Pair;

type Parts = (i128, i128, i128);

/// The image of a point in the line through two others, whose x have different signs.
fn reflected(
    a: Pair<Rational>,
    b: Pair<Rational>,
    point: Pair<Rational>,
) -> Option<(Parts, Parts)> {
    if a.x.sign() == b.x.sign() {
        return None;
    }
    let mirror = Motion::reflection(a, b).ok()?;
    let place = mirror.place(point).ok()?;
    Some((place.x.parts(), place.y.parts()))
}

/// The place of a point after the reflection in the x-axis, and then that in the line through the origin and `tip`, whose x
/// is above zero.
fn turned<N: Exact>(tip: Pair<N>, point: Pair<N>) -> Option<(Parts, Parts, bool)> {
    let origin: Pair<N> = Pair {
        x: whole_number(0),
        y: whole_number(0),
    };
    let unit: Pair<N> = Pair {
        x: whole_number(1),
        y: whole_number(0),
    };
    if tip.x.sign() == origin.x.sign() {
        return None;
    }
    if unit.x.sign() == origin.x.sign() {
        return None;
    }
    let first = Motion::reflection(origin, unit).ok()?;
    let second = Motion::reflection(origin, tip).ok()?;
    let both = second.composed(first).ok()?;
    let place = both.place(point).ok()?;
    Some((place.x.parts(), place.y.parts(), both.turned))
}

fn pair(x: i128, y: i128) -> Pair<Rational> {
    Pair {
        x: whole_number(x),
        y: whole_number(y),
    }
}

#[test]
fn reflected_points(rt: HostRuntime) {
    let mirrored = reflected(pair(0, 0), pair(2, 1), pair(5, 0));
    assert_eq!(rt; mirrored, Some(((3, 0, 1), (4, 0, 1))));
    let kept = reflected(pair(-1, 2), pair(2, 3), pair(5, 4));
    assert_eq!(rt; kept, Some(((5, 0, 1), (4, 0, 1))));
    let past = reflected(pair(0, 0), pair(1 << 40, 1), pair(0, 1 << 60));
    assert_eq!(rt; past, None);
}

#[test]
fn two_reflections_turn(rt: HostRuntime) {
    let quarter = turned(pair(1, 1), pair(3, 2));
    assert_eq!(rt; quarter, Some(((-2, 0, 1), (3, 0, 1), false)));
    let tip: Option<Pair<RootTwo>> = RootTwo::from_parts(1, 1, 1).map(|x| Pair {
        x,
        y: whole_number(1),
    });
    let unit: Pair<RootTwo> = Pair {
        x: whole_number(1),
        y: whole_number(0),
    };
    let eighth = tip.and_then(|tip| turned(tip, unit));
    assert_eq!(rt; eighth, Some(((0, 1, 2), (0, 1, 2), false)));
}
