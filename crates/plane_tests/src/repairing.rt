ghost use Rattle.std.specs.Prelude.{◌≡◌, ◌<◌, ◌^◌, length, All, IfOk, OnOk};
ghost use Rattle.scaled_plane.specs.declared.drawing.Edge.{Edge as AnyEdge};

use drawing_repair::{Faces, Flat, RepairFault, Repaired, Stage, repair_ends};
use exact_number::Exact;
use fold_base::{Letter, List};
use rational::Rational;
use root_two::RootTwo;
use scaled_plane::{Edge, Ends, Pair};
use std::alloc::{AllocError, Global};
use std::process::Abort;
use std::test::Fail;

/// A number by its three parts.
type Number = (i128, i128, i128);

/// A vertex by its coordinates.
type Spot = (Number, Number);

/// An edge by its ends and its letter.
type Piece = (u32, u32, Letter);

const B: Letter = Letter::Border;

const M: Letter = Letter::Mountain;

const V: Letter = Letter::Valley;

const F: Letter = Letter::Flat;

const U: Letter = Letter::Unassigned;

const J: Letter = Letter::Join;

fn at(x: i128, y: i128) -> Spot {
    ((x, 0, 1), (y, 0, 1))
}

fn number_of<N: Exact>((a, b, q): Number) -> Option<N> {
    if q > 0 { N::from_parts(a, b, q) } else { None }
}

fn coords_of<N: Exact>(alloc: Global, spots: &[Spot]) -> Result<List<Pair<N>>, Fail>
    ensures { IfOk result (λ coords. length coords ≡ length spots.now) }
{
    let mut coords = List::new(alloc);
    for spot in spots {
        let x = number_of(spot.0).ok_or("x is no number")?;
        let y = number_of(spot.1).ok_or("y is no number")?;
        match coords.push(Pair { x, y }) {
            Ok(()) => {}
            Err(failed) => return Err(Fail::from(AllocError::from(failed))),
        }
    }
    Ok(coords)
}

/// Appends an edge whose ends are among so many vertices.
fn push_edge(edges: &mut List<Edge>, piece: Piece, count: usize) -> Result<(), Fail>
    ensures { OnOk result (All (λ e. (e.from < count) × (e.to < count)) edges.old → All (λ e. (e.from < count) × (e.to < count)) edges.new) }
{
    let (from, to, letter) = piece;
    if (from as usize) < count && (to as usize) < count {
        edges.push(Edge { from, to, letter })?;
        Ok(())
    } else {
        Err("an edge ends at no vertex".into())
    }
}

fn edges_of(alloc: Global, pieces: &[Piece], count: usize) -> Result<List<Edge>, Fail>
    ensures { IfOk result (All (λ e. (e.from < count) × (e.to < count))) }
{
    let mut edges = List::new(alloc);
    for piece in pieces {
        push_edge(&mut edges, *piece, count)?;
    }
    Ok(edges)
}

/// What the edges between the spots are repaired to.
fn repaired<N: Exact>(
    alloc: Global,
    spots: &[Spot],
    pieces: &[Piece],
    flat: Flat,
    faces: Faces,
) -> Result<Result<Repaired<N>, RepairFault>, Fail>
    requires { length spots.now < 2 ^ 32 }
{
    let coords = coords_of(alloc, spots)?;
    let edges = edges_of(alloc, pieces, coords.len())?;
    Ok(repair_ends(alloc, &Ends { coords, edges }, flat, faces))
}

/// The vertices and the edges of an answer.
#[derive(Debug, Drop)]
struct Told {
    spots: Vec<Spot>,
    pieces: Vec<Piece>,
}

fn told_of<N: Exact>(alloc: Global, ends: &Ends<N>) -> Result<Told, AllocError> {
    let mut spots = Vec::new(alloc);
    for pair in ends.coords.as_slice() {
        spots.push((pair.x.parts(), pair.y.parts()))?;
    }
    let mut pieces = Vec::new(alloc);
    for edge in ends.edges.as_slice() {
        pieces.push((edge.from, edge.to, edge.letter))?;
    }
    Ok(Told { spots, pieces })
}

/// Compares the answer over the rationals.
fn check_ends(
    rt: &(impl Abort + AllocGlobal),
    repaired: &Repaired<Rational>,
    spots: &[Spot],
    pieces: &[Piece],
) -> Result<(), Fail> {
    let told = told_of(rt.alloc(), &repaired.ends)?;
    assert_eq!(rt; told.spots.as_slice(), spots);
    assert_eq!(rt; told.pieces.as_slice(), pieces);
    Ok(())
}

/// Compares the faces one after another.
fn check_faces(
    rt: &impl Abort,
    repaired: &Repaired<Rational>,
    faces: &[&[u32]],
) -> Result<(), Fail> {
    let found = repaired.faces.as_ref().ok_or("no faces")?;
    assert_eq!(rt; found.len(), faces.len());
    for (face, corners) in found.as_slice().iter().zip(faces) {
        assert_eq!(rt; face.corners.as_slice(), *corners);
    }
    Ok(())
}

#[test]
fn diagonals_part_the_square(rt: HostRuntime) -> Result<(), Fail> {
    let spots = [at(0, 0), at(1, 0), at(1, 1), at(0, 1)];
    let pieces = [
        (0, 1, B),
        (1, 2, B),
        (2, 3, B),
        (3, 0, B),
        (0, 2, M),
        (3, 1, V),
    ];
    let answer = repaired(rt.alloc(), &spots, &pieces, Flat::Keep, Faces::Find)??;
    let middle = ((1, 0, 2), (1, 0, 2));
    check_ends(
        &rt,
        &answer,
        &[at(0, 0), at(0, 1), middle, at(1, 0), at(1, 1)],
        &[
            (0, 1, B),
            (0, 2, M),
            (0, 3, B),
            (1, 2, V),
            (1, 4, B),
            (2, 3, V),
            (2, 4, M),
            (3, 4, B),
        ],
    )?;
    check_faces(
        &rt,
        &answer,
        &[&[0, 2, 1], &[0, 3, 2], &[1, 2, 4], &[2, 3, 4]],
    )
}

#[test]
fn a_crease_over_another(rt: HostRuntime) -> Result<(), Fail> {
    let spots = [
        at(0, -1),
        at(3, -1),
        at(3, 1),
        at(0, 1),
        at(0, 0),
        at(2, 0),
        at(1, 0),
        at(3, 0),
    ];
    let pieces = [
        (0, 1, B),
        (1, 2, B),
        (2, 3, B),
        (3, 0, B),
        (4, 5, M),
        (6, 7, V),
    ];
    let answer = repaired(rt.alloc(), &spots, &pieces, Flat::Drop, Faces::Find)??;
    check_ends(
        &rt,
        &answer,
        &[
            at(0, -1),
            at(0, 0),
            at(0, 1),
            at(1, 0),
            at(2, 0),
            at(3, -1),
            at(3, 0),
            at(3, 1),
        ],
        &[
            (0, 1, B),
            (0, 5, B),
            (1, 2, B),
            (1, 3, M),
            (2, 7, B),
            (3, 4, U),
            (4, 6, V),
            (5, 6, B),
            (6, 7, B),
        ],
    )?;
    check_faces(&rt, &answer, &[&[0, 5, 6, 4, 3, 1], &[1, 3, 4, 6, 7, 2]])
}

#[test]
fn flat_creases_are_dropped_and_joins_stay(rt: HostRuntime) -> Result<(), Fail> {
    // the last vertex has no edge, and the vertex before it only a flat one
    let spots = [at(0, 0), at(2, 0), at(1, 1), at(7, 7)];
    let pieces = [(0, 1, J), (0, 2, F)];
    let kept = repaired(rt.alloc(), &spots, &pieces, Flat::Keep, Faces::Skip)??;
    assert!(&rt; kept.faces.is_none());
    check_ends(
        &rt,
        &kept,
        &[at(0, 0), at(1, 1), at(2, 0)],
        &[(0, 1, F), (0, 2, J)],
    )?;
    let dropped = repaired(rt.alloc(), &spots, &pieces, Flat::Drop, Faces::Find)??;
    check_ends(&rt, &dropped, &[at(0, 0), at(2, 0)], &[(0, 1, J)])?;
    check_faces(&rt, &dropped, &[])
}

#[test]
fn what_is_dropped_is_scaled_too(rt: HostRuntime) -> Result<(), Fail> {
    let spots = [at(0, 0), at(1, 0), at(4_194_305, 0)];
    let pieces = [(0, 1, M), (1, 2, F)];
    let answer = repaired::<Rational>(rt.alloc(), &spots, &pieces, Flat::Drop, Faces::Find)?;
    assert!(&rt;
        matches!(
            &answer,
            Err(RepairFault::TooWide {
                vertex: 2,
                stage: Stage::Input
            })
        )
    );
    Ok(())
}

#[test]
fn parted_only_where_faces_are_looked_for(rt: HostRuntime) -> Result<(), Fail> {
    let spots = [at(0, 0), at(0, 1), at(3, 0), at(3, 1)];
    let pieces = [(0, 1, B), (2, 3, B)];
    let parted = repaired::<Rational>(rt.alloc(), &spots, &pieces, Flat::Keep, Faces::Find)?;
    assert!(&rt; matches!(&parted, Err(RepairFault::Parted { vertex: 2 })));
    let answer = repaired(rt.alloc(), &spots, &pieces, Flat::Keep, Faces::Skip)??;
    check_ends(&rt, &answer, &spots, &pieces)
}

#[test]
fn a_crossing_may_be_too_wide_to_write(rt: HostRuntime) -> Result<(), Fail> {
    let spots = [
        ((-4_000_003, -3_000_001, 1), (-3_500_003, -2_000_003, 1)),
        ((4_100_009, 3_100_007, 1), (3_900_011, 2_300_009, 1)),
        ((-3_700_001, -2_900_021, 1), (3_600_007, 2_100_011, 1)),
        ((3_800_017, 2_700_037, 1), (-3_300_013, -2_500_009, 1)),
    ];
    let pieces = [(0, 1, M), (2, 3, V)];
    let answer = repaired::<RootTwo>(rt.alloc(), &spots, &pieces, Flat::Keep, Faces::Skip)?;
    assert!(&rt;
        matches!(
            &answer,
            Err(RepairFault::TooWide {
                vertex: 2,
                stage: Stage::Drawn
            })
        )
    );
    Ok(())
}

#[test]
fn nothing_has_no_faces(rt: HostRuntime) -> Result<(), Fail> {
    let answer = repaired(rt.alloc(), &[], &[], Flat::Keep, Faces::Find)??;
    check_ends(&rt, &answer, &[], &[])?;
    check_faces(&rt, &answer, &[])
}
