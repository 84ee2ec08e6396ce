ghost use Rattle.std.specs.Prelude.{◌≤◌, length};

use crate::drawing::{Number, ONE, Piece, Spot, TWO, ZERO, folded};
use flat_fold::Folded;
use fold_base::Letter;
use folded_form::FormFault;
use rational::Rational;
use scaled_plane::SheetFlaw;
use std::process::Abort;
use std::test::Fail;

const B: Letter = Letter::Border;

const M: Letter = Letter::Mountain;

const V: Letter = Letter::Valley;

/// Below the left end of a crease, and beyond its right end.
const LEFT: Number = Number { a: -10, b: 0, q: 1 };

const RIGHT: Number = Number { a: 20, b: 0, q: 1 };

const HIGH: Number = Number {
    a: 4_000_000,
    b: 0,
    q: 1,
};

const TEN: Number = Number { a: 10, b: 0, q: 1 };

const THIRTEEN: Number = Number { a: 13, b: 0, q: 1 };

/// Beyond the bound of a coordinate.
const FAR: Number = Number {
    a: 4_194_305,
    b: 0,
    q: 1,
};

/// The same in units of 2^-24.
const FINE: Number = Number {
    a: 1,
    b: 0,
    q: 16_777_216,
};

const FINE_LEFT: Number = Number {
    a: -11,
    b: 0,
    q: 16_777_216,
};

const FINE_RIGHT: Number = Number {
    a: 21,
    b: 0,
    q: 16_777_216,
};

const FINE_HIGH: Number = Number {
    a: 3_999_997,
    b: 0,
    q: 16_777_216,
};

/// The edges of a strip that one crease halves.
const STRIP: [Piece; 7] = [
    (0, 1, B),
    (1, 2, B),
    (2, 3, B),
    (3, 4, B),
    (4, 5, B),
    (5, 0, B),
    (1, 4, V),
];

/// What a drawing comes to.
#[derive(Clone, Copy, PartialEq, Eq, Debug)]
enum Outcome {
    Folds,
    TooWide(u32),
    Flaw(SheetFlaw),
    NumberPast(u32, Option<u32>),
    Unclosed(u32),
    FoldedTooWide(u32),
    Other,
}

fn told(folded: &Result<Folded<Rational>, FormFault>) -> Outcome {
    match folded {
        Ok(_) => Outcome::Folds,
        Err(FormFault::TooWide { vertex }) => Outcome::TooWide(*vertex),
        Err(FormFault::Flaw(flaw)) => Outcome::Flaw(*flaw),
        Err(FormFault::NumberPast { face, vertex }) => Outcome::NumberPast(*face, *vertex),
        Err(FormFault::Unclosed { edge }) => Outcome::Unclosed(*edge),
        Err(FormFault::FoldedTooWide { vertex }) => Outcome::FoldedTooWide(*vertex),
        Err(FormFault::Memory(_)) => Outcome::Other,
    }
}

/// Compares what a drawing comes to.
fn check(
    rt: &(impl Abort + AllocGlobal),
    spots: &[Spot],
    pieces: &[Piece],
    faces: &[&[u32]],
    expected: Outcome,
) -> Result<(), Fail>
    requires vertices { length spots.now ≤ 16384 }
    requires edges { length pieces.now ≤ 2048 }
    requires faces { length faces.now ≤ 512 }
{
    let folded = folded::<Rational>(rt.alloc(), spots, pieces, faces)?;
    assert_eq!(rt; told(&folded), expected);
    Ok(())
}

/// The same of a strip that one crease halves.
fn check_strip(
    rt: &(impl Abort + AllocGlobal),
    spots: &[Spot],
    expected: Outcome,
) -> Result<(), Fail>
    requires { length spots.now ≤ 16384 }
{
    let faces = [[0, 1, 4, 5].as_slice(), [1, 2, 3, 4].as_slice()];
    check(rt, spots, &STRIP, &faces, expected)
}

#[test]
fn closed_walks_move_a_face(rt: HostRuntime) -> Result<(), Fail> {
    let spots = [
        (ZERO, ZERO),
        (TWO, ZERO),
        (TWO, TWO),
        (ONE, TWO),
        (ZERO, TWO),
        (ONE, ONE),
    ];
    let pieces = [
        (0, 1, B),
        (1, 2, B),
        (2, 3, B),
        (3, 4, B),
        (4, 0, B),
        (5, 0, V),
        (5, 1, V),
        (5, 2, V),
        (5, 3, M),
    ];
    let faces = [
        [0, 1, 5].as_slice(),
        [1, 2, 5].as_slice(),
        [2, 3, 5].as_slice(),
        [3, 4, 0, 5].as_slice(),
    ];
    check(&rt, &spots, &pieces, &faces, Outcome::Unclosed(8))
}

#[test]
fn a_crease_turns_neither_side(rt: HostRuntime) -> Result<(), Fail> {
    let spots = [
        (ZERO, ZERO),
        (ONE, ZERO),
        (TWO, ZERO),
        (TWO, ONE),
        (TWO, TWO),
        (ZERO, TWO),
        (ZERO, ONE),
        (ONE, ONE),
    ];
    let pieces = [
        (0, 1, B),
        (1, 2, B),
        (2, 3, B),
        (3, 4, B),
        (4, 5, B),
        (5, 6, B),
        (6, 0, B),
        (7, 6, V),
        (7, 3, V),
        (7, 1, V),
    ];
    let faces = [
        [6, 7, 3, 4, 5].as_slice(),
        [0, 1, 7, 6].as_slice(),
        [1, 2, 3, 7].as_slice(),
    ];
    check(&rt, &spots, &pieces, &faces, Outcome::Unclosed(9))
}

#[test]
fn two_steep_creases_overflow(rt: HostRuntime) -> Result<(), Fail> {
    let spots = [
        (LEFT, ZERO),
        (ZERO, ZERO),
        (TEN, ZERO),
        (RIGHT, ZERO),
        (RIGHT, HIGH),
        (THIRTEEN, HIGH),
        (ONE, HIGH),
        (LEFT, HIGH),
    ];
    let pieces = [
        (0, 1, B),
        (1, 2, B),
        (2, 3, B),
        (3, 4, B),
        (4, 5, B),
        (5, 6, B),
        (6, 7, B),
        (7, 0, B),
        (1, 6, V),
        (2, 5, V),
    ];
    let faces = [
        [0, 1, 6, 7].as_slice(),
        [1, 2, 5, 6].as_slice(),
        [2, 3, 4, 5].as_slice(),
    ];
    check(&rt, &spots, &pieces, &faces, Outcome::NumberPast(2, None))
}

#[test]
fn one_steep_crease_is_too_wide(rt: HostRuntime) -> Result<(), Fail> {
    let spots = [
        (LEFT, ZERO),
        (ZERO, ZERO),
        (RIGHT, ZERO),
        (RIGHT, HIGH),
        (ONE, HIGH),
        (LEFT, HIGH),
    ];
    check_strip(&rt, &spots, Outcome::FoldedTooWide(2))
}

#[test]
fn a_place_overflows(rt: HostRuntime) -> Result<(), Fail> {
    let spots = [
        (FINE_LEFT, ZERO),
        (ZERO, ZERO),
        (FINE_RIGHT, ZERO),
        (FINE_RIGHT, FINE_HIGH),
        (FINE, FINE_HIGH),
        (FINE_LEFT, FINE_HIGH),
    ];
    check_strip(&rt, &spots, Outcome::NumberPast(1, Some(3)))
}

#[test]
fn an_edge_alone_is_no_sheet(rt: HostRuntime) -> Result<(), Fail> {
    let spots = [(ZERO, ZERO), (ONE, ZERO)];
    let pieces = [(0, 1, B)];
    let empty = Outcome::Flaw(SheetFlaw::EmptySheet);
    check(&rt, &spots, &pieces, &[], empty)
}

#[test]
fn a_vertex_is_too_wide(rt: HostRuntime) -> Result<(), Fail> {
    let spots = [(ZERO, ZERO), (FAR, ZERO), (ZERO, ONE)];
    let pieces = [(0, 1, B), (1, 2, B), (2, 0, B)];
    let faces = [[0, 1, 2].as_slice()];
    check(&rt, &spots, &pieces, &faces, Outcome::TooWide(1))
}
