ghost use Rattle.std.specs.Prelude.{◌≤◌, length};

use crate::drawing::{Number, ONE, Piece, SQUARE, Spot, TWO, ZERO, folded};
use crate::parts::{
    Corner, End, Steps, corners_of, edges_of, ends_of, images_of, is_turned, place_of,
};
use exact_number::Exact;
use flat_fold::Folded;
use fold_base::Letter;
use rational::Rational;
use root_two::RootTwo;
use std::process::Abort;
use std::test::Fail;

const B: Letter = Letter::Border;

const C: Letter = Letter::Cut;

const F: Letter = Letter::Flat;

const V: Letter = Letter::Valley;

const DIAGONAL: [Piece; 5] = [(0, 1, B), (1, 2, B), (2, 3, B), (3, 0, B), (0, 2, V)];

/// Compares the images with their vertices.
fn check_images<N: Exact>(
    rt: &(impl Abort + AllocGlobal),
    folded: &Folded<N>,
    images: &[(u32, Spot)],
) -> Result<(), Fail> {
    let found = images_of(rt.alloc(), folded)?;
    assert_eq!(rt; found.as_slice(), images);
    Ok(())
}

/// Compares the images of the edges.
fn check_edges<N: Exact>(
    rt: &(impl Abort + AllocGlobal),
    folded: &Folded<N>,
    edges: &[Piece],
) -> Result<(), Fail> {
    let found = edges_of(rt.alloc(), folded)?;
    assert_eq!(rt; found.as_slice(), edges);
    Ok(())
}

/// Compares a face: whether it is turned over, and its corners.
fn check_face<N: Exact>(
    rt: &(impl Abort + AllocGlobal),
    folded: &Folded<N>,
    face: u32,
    turned: bool,
    corners: &[Corner],
) -> Result<(), Fail> {
    assert_eq!(rt; is_turned(folded, face)?, turned);
    let found = corners_of(rt.alloc(), folded, face)?;
    assert_eq!(rt; found.as_slice(), corners);
    Ok(())
}

/// Compares where a corner comes to lie.
fn check_place<N: Exact>(
    rt: &(impl Abort + AllocGlobal),
    folded: &Folded<N>,
    face: u32,
    corner: u32,
    place: Spot,
) -> Result<(), Fail> {
    let found = place_of(folded, face, corner)?;
    assert_eq!(rt; found.0, place.0);
    assert_eq!(rt; found.1, place.1);
    Ok(())
}

/// Compares both ends of an edge where they come to lie.
fn check_ends<N: Exact>(
    rt: &(impl Abort + AllocGlobal),
    folded: &Folded<N>,
    edge: u32,
    from: End,
    to: End,
) -> Result<(), Fail> {
    let found = ends_of(folded, edge)?;
    assert_eq!(rt; found.0, from);
    assert_eq!(rt; found.1, to);
    Ok(())
}

/// The square of these spots, folded along its diagonal.
fn halved<N: Exact>(rt: &impl AllocGlobal, spots: &[Spot]) -> Result<Folded<N>, Fail>
    requires { length spots.now ≤ 16384 }
{
    let faces = [[0, 1, 2].as_slice(), [0, 2, 3].as_slice()];
    Ok(folded::<N>(rt.alloc(), spots, &DIAGONAL, &faces)??)
}

/// A scaled number that is whole.
fn whole(a: i128) -> Steps {
    Steps { a, b: 0 }
}

/// A corner at a scaled point of whole numbers.
fn corner(image: u32, x: i128, y: i128) -> Corner {
    Corner {
        image,
        x: whole(x),
        y: whole(y),
    }
}

#[test]
fn a_square_has_images(rt: HostRuntime) -> Result<(), Fail> {
    let folded = halved::<Rational>(&rt, &SQUARE)?;
    let images = [
        (0, (ZERO, ZERO)),
        (1, (ONE, ZERO)),
        (2, (ONE, ONE)),
        (3, (ONE, ZERO)),
    ];
    check_images(&rt, &folded, &images)?;
    check_edges(&rt, &folded, &DIAGONAL)?;
    assert_eq!(rt; folded.common(), 1);
    Ok(())
}

#[test]
fn a_square_folds_onto_its_half(rt: HostRuntime) -> Result<(), Fail> {
    let folded = halved::<Rational>(&rt, &SQUARE)?;
    let front = [corner(0, 0, 0), corner(1, 1, 0), corner(2, 1, 1)];
    check_face(&rt, &folded, 0, false, &front)?;
    let back = [corner(0, 0, 0), corner(2, 1, 1), corner(3, 1, 0)];
    check_face(&rt, &folded, 1, true, &back)
}

#[test]
fn a_corner_has_its_place(rt: HostRuntime) -> Result<(), Fail> {
    let folded = halved::<Rational>(&rt, &SQUARE)?;
    check_place(&rt, &folded, 1, 2, (ONE, ZERO))
}

#[test]
fn an_edge_has_its_ends(rt: HostRuntime) -> Result<(), Fail> {
    let folded = halved::<Rational>(&rt, &SQUARE)?;
    let from = End {
        x: whole(1),
        y: whole(1),
    };
    let to = End {
        x: whole(1),
        y: whole(0),
    };
    check_ends(&rt, &folded, 2, from, to)
}

/// A square with a slit from its middle to a corner, whose one half is turned over the other.
fn slit(rt: &impl AllocGlobal) -> Result<Folded<Rational>, Fail> {
    let spots = [
        (ZERO, ZERO),
        (TWO, ZERO),
        (TWO, TWO),
        (ZERO, TWO),
        (ONE, ONE),
    ];
    let pieces = [
        (0, 1, B),
        (1, 2, B),
        (2, 3, B),
        (3, 0, B),
        (4, 0, C),
        (4, 1, V),
        (4, 2, F),
        (4, 3, F),
    ];
    let faces = [
        [0, 1, 4].as_slice(),
        [1, 2, 4].as_slice(),
        [2, 3, 4].as_slice(),
        [3, 0, 4].as_slice(),
    ];
    Ok(folded::<Rational>(rt.alloc(), &spots, &pieces, &faces)??)
}

#[test]
fn a_vertex_at_a_slit_has_two_images(rt: HostRuntime) -> Result<(), Fail> {
    let folded = slit(&rt)?;
    let images = [
        (0, (ZERO, ZERO)),
        (0, (TWO, TWO)),
        (1, (TWO, ZERO)),
        (2, (ZERO, ZERO)),
        (3, (ZERO, TWO)),
        (4, (ONE, ONE)),
    ];
    check_images(&rt, &folded, &images)
}

#[test]
fn a_slit_has_two_images(rt: HostRuntime) -> Result<(), Fail> {
    let folded = slit(&rt)?;
    let edges = [
        (0, 2, B),
        (2, 3, B),
        (3, 4, B),
        (4, 1, B),
        (5, 0, C),
        (5, 1, C),
        (5, 2, V),
        (5, 3, F),
        (5, 4, F),
    ];
    check_edges(&rt, &folded, &edges)?;
    let left = [corner(4, 0, 2), corner(1, 2, 2), corner(5, 1, 1)];
    check_face(&rt, &folded, 3, true, &left)
}

#[test]
fn a_crease_at_an_eighth_of_a_turn_halved(rt: HostRuntime) -> Result<(), Fail> {
    let low = Number { a: -1, b: 1, q: 1 };
    let spots = [(ZERO, ZERO), (ONE, ZERO), (ONE, low), (ZERO, ONE)];
    let folded = halved::<RootTwo>(&rt, &spots)?;
    let left = Number { a: 0, b: 1, q: 2 };
    let down = Number { a: 0, b: -1, q: 2 };
    let images = [
        (0, (ZERO, ZERO)),
        (1, (ONE, ZERO)),
        (2, (ONE, low)),
        (3, (left, down)),
    ];
    check_images(&rt, &folded, &images)?;
    assert_eq!(rt; folded.common(), 2);
    let turned = [
        corner(0, 0, 0),
        Corner {
            image: 2,
            x: whole(2),
            y: Steps { a: -2, b: 2 },
        },
        Corner {
            image: 3,
            x: Steps { a: 0, b: 1 },
            y: Steps { a: 0, b: -1 },
        },
    ];
    check_face(&rt, &folded, 1, true, &turned)
}
