ghost use Rattle.std.specs.Prelude.{◌≡◌, ◌<◌, ◌≤◌, length, IfOk};
ghost use Rattle.std.specs.List.{AllByRecursion};

use exact_number::Exact;
use flat_fold::Sheet;
use fold_base::{Letter, List};
use rational::Rational;
use scaled_plane::{Edge, Ends, Face, Pair};
use sheet_check::{SheetFault, SheetFlaw, check_sheet};
use std::alloc::{AllocError, Global};
use std::process::Abort;
use std::test::Fail;

/// A vertex by its coordinates.
type Spot = (i128, i128);

/// An edge by its ends and its letter.
type Piece = (u32, u32, Letter);

const B: Letter = Letter::Border;

const C: Letter = Letter::Cut;

const M: Letter = Letter::Mountain;

const V: Letter = Letter::Valley;

const SQUARE: [Spot; 4] = [(0, 0), (1, 0), (1, 1), (0, 1)];

const DIAGONAL: [Piece; 5] = [(0, 1, B), (1, 2, B), (2, 3, B), (3, 0, B), (0, 2, V)];

/// What a check comes to.
#[derive(Clone, Copy, PartialEq, Eq, Debug)]
enum Answer {
    Sheet,
    TooWide(u32),
    Flaw(SheetFlaw),
    Other,
}

fn told(checked: &Result<Sheet<Rational>, SheetFault>) -> Answer {
    match checked {
        Ok(_) => Answer::Sheet,
        Err(SheetFault::TooWide { vertex }) => Answer::TooWide(*vertex),
        Err(SheetFault::Flaw(flaw)) => Answer::Flaw(*flaw),
        Err(SheetFault::Memory(_)) => Answer::Other,
    }
}

fn coords_of(alloc: Global, spots: &[Spot]) -> Result<List<Pair<Rational>>, Fail>
    ensures { IfOk result (λ coords. length coords ≡ length spots.now) }
{
    let mut coords = List::new(alloc);
    for spot in spots {
        let x = Rational::from_parts(spot.0, 0, 1).ok_or("x is no number")?;
        let y = Rational::from_parts(spot.1, 0, 1).ok_or("y is no number")?;
        match coords.push(Pair { x, y }) {
            Ok(()) => {}
            Err(failed) => return Err(Fail::from(AllocError::from(failed))),
        }
    }
    Ok(coords)
}

/// The edges, if their ends are among so many vertices.
fn edges_of(alloc: Global, pieces: &[Piece], count: usize) -> Result<List<Edge>, Fail>
    ensures long { IfOk result (λ edges. length edges ≡ length pieces.now) }
    ensures within { IfOk result (AllByRecursion (λ e. (e.from < count) × (e.to < count))) }
{
    let mut edges = List::new(alloc);
    for piece in pieces {
        let (from, to, letter) = *piece;
        if from as usize >= count || to as usize >= count {
            return Err("an edge leads nowhere".into());
        }
        edges.push(Edge { from, to, letter })?;
    }
    Ok(edges)
}

fn faces_of(alloc: Global, faces: &[&[u32]]) -> Result<List<Face>, AllocError>
    ensures { IfOk result (λ made. length made ≡ length faces.now) }
{
    let mut made = List::new(alloc);
    for corners in faces {
        let corners = List::from_slice(alloc, *corners)?;
        made.push(Face { corners }).map_err(AllocError::from)?;
    }
    Ok(made)
}

/// What these vertices, edges and faces are checked to be.
fn checked(
    alloc: Global,
    spots: &[Spot],
    pieces: &[Piece],
    faces: &[&[u32]],
) -> Result<Result<Sheet<Rational>, SheetFault>, Fail>
    requires vertices { length spots.now ≤ 16384 }
    requires edges { length pieces.now ≤ 2048 }
    requires faces { length faces.now ≤ 512 }
{
    let coords = coords_of(alloc, spots)?;
    let edges = edges_of(alloc, pieces, spots.len())?;
    let faces = faces_of(alloc, faces)?;
    Ok(check_sheet(alloc, Ends { coords, edges }, faces))
}

/// Compares that with what is expected.
fn check(
    rt: &(impl Abort + AllocGlobal),
    spots: &[Spot],
    pieces: &[Piece],
    faces: &[&[u32]],
    expected: Answer,
) -> Result<(), Fail>
    requires vertices { length spots.now ≤ 16384 }
    requires edges { length pieces.now ≤ 2048 }
    requires faces { length faces.now ≤ 512 }
{
    let checked = checked(rt.alloc(), spots, pieces, faces)?;
    assert_eq!(rt; told(&checked), expected);
    Ok(())
}

/// The same of the square with other spots.
fn check_spots(
    rt: &(impl Abort + AllocGlobal),
    spots: &[Spot],
    expected: Answer,
) -> Result<(), Fail>
    requires { length spots.now ≤ 16384 }
{
    let faces = [[0, 1, 2].as_slice(), [0, 2, 3].as_slice()];
    check(rt, spots, &DIAGONAL, &faces, expected)
}

/// The same of the square with other edges.
fn check_pieces(
    rt: &(impl Abort + AllocGlobal),
    pieces: &[Piece],
    expected: SheetFlaw,
) -> Result<(), Fail>
    requires { length pieces.now ≤ 2048 }
{
    let faces = [[0, 1, 2].as_slice(), [0, 2, 3].as_slice()];
    check(rt, &SQUARE, pieces, &faces, Answer::Flaw(expected))
}

#[test]
fn square_is_a_sheet(rt: HostRuntime) -> Result<(), Fail> {
    check_spots(&rt, &SQUARE, Answer::Sheet)?;
    check_spots(
        &rt,
        &[(0, 0), (1, 0), (4_194_305, 1), (0, 1)],
        Answer::TooWide(2),
    )
}

#[test]
fn vertices_are_different_and_used(rt: HostRuntime) -> Result<(), Fail> {
    check_spots(
        &rt,
        &[(0, 0), (1, 0), (1, 1), (0, 0)],
        Answer::Flaw(SheetFlaw::SameVertex { low: 0, high: 3 }),
    )?;
    check_spots(
        &rt,
        &[(0, 0), (1, 0), (1, 1), (0, 1), (5, 5)],
        Answer::Flaw(SheetFlaw::Loose { vertex: 4 }),
    )
}

#[test]
fn edges_meet_in_common_ends(rt: HostRuntime) -> Result<(), Fail> {
    let crossing = [
        (0, 1, B),
        (1, 2, B),
        (2, 3, B),
        (3, 0, B),
        (0, 2, V),
        (1, 3, V),
    ];
    check_pieces(&rt, &crossing, SheetFlaw::NotPlane { low: 4, high: 5 })?;
    let flat = [(0, 1, B), (1, 2, B), (2, 3, B), (3, 0, B), (2, 2, V)];
    check_pieces(&rt, &flat, SheetFlaw::NotPlane { low: 4, high: 4 })
}

#[test]
fn sheets_hang_together(rt: HostRuntime) -> Result<(), Fail> {
    let spots = [(0, 0), (1, 0), (1, 1), (0, 1), (5, 5), (6, 5)];
    let parted = [
        (0, 1, B),
        (1, 2, B),
        (2, 3, B),
        (3, 0, B),
        (0, 2, V),
        (4, 5, B),
    ];
    let faces = [[0, 1, 2].as_slice(), [0, 2, 3].as_slice()];
    let flaw = Answer::Flaw(SheetFlaw::Parted { vertex: 4 });
    check(&rt, &spots, &parted, &faces, flaw)?;
    let cut = [(0, 1, B), (1, 2, B), (2, 3, B), (3, 0, B), (0, 2, C)];
    check_pieces(&rt, &cut, SheetFlaw::Severed { face: 1 })
}

#[test]
fn sheets_have_their_faces(rt: HostRuntime) -> Result<(), Fail> {
    let clockwise = [[0, 2, 1].as_slice(), [0, 2, 3].as_slice()];
    let wrong = Answer::Flaw(SheetFlaw::FaceWrong { face: 0 });
    check(&rt, &SQUARE, &DIAGONAL, &clockwise, wrong)?;
    let missing = Answer::Flaw(SheetFlaw::FaceMissing { from: 0, to: 2 });
    check(&rt, &SQUARE, &DIAGONAL, &[[0, 1, 2].as_slice()], missing)?;
    let stick = Answer::Flaw(SheetFlaw::EmptySheet);
    check(&rt, &[(0, 0), (1, 0)], &[(0, 1, B)], &[], stick)
}

#[test]
fn borders_have_one_face(rt: HostRuntime) -> Result<(), Fail> {
    let within = [(0, 1, B), (1, 2, B), (2, 3, B), (3, 0, B), (0, 2, B)];
    check_pieces(&rt, &within, SheetFlaw::BorderWrong { edge: 4 })?;
    let folded = [(0, 1, M), (1, 2, B), (2, 3, B), (3, 0, B), (0, 2, V)];
    check_pieces(&rt, &folded, SheetFlaw::BorderWrong { edge: 0 })
}

#[test]
fn faces_are_convex_and_the_outside_is_whole(rt: HostRuntime) -> Result<(), Fail> {
    let dart = [(0, 0), (4, 0), (1, 1), (0, 4)];
    let round = [(0, 1, B), (1, 2, B), (2, 3, B), (3, 0, B)];
    let bent = Answer::Flaw(SheetFlaw::NotConvex { face: 0, vertex: 2 });
    check(&rt, &dart, &round, &[[0, 1, 2, 3].as_slice()], bent)?;
    let spots = [(0, 0), (1, 0), (1, 1), (0, 1), (2, 1), (2, 2), (1, 2)];
    let touching = [
        (0, 1, B),
        (1, 2, B),
        (2, 3, B),
        (3, 0, B),
        (2, 4, B),
        (4, 5, B),
        (5, 6, B),
        (6, 2, B),
    ];
    let faces = [[0, 1, 2, 3].as_slice(), [2, 4, 5, 6].as_slice()];
    let pinched = Answer::Flaw(SheetFlaw::Pinched { vertex: 2 });
    check(&rt, &spots, &touching, &faces, pinched)
}
