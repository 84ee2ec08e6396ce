ghost use Rattle.std.specs.Prelude.{◌≡◌, ◌<◌, All, IfOk, OnOk};
ghost use Rattle.scaled_plane.specs.Drawn.{IsScaledSegment};
ghost use Rattle.scaled_plane.specs.WellSet.{IsWellSet};

use crate::meeting::{Place, segment};
use arrangement::{PieceFault, pieces};
use exact_number::Whole;
use fold_base::{Letter, List};
use rational::RationalRing;
use root_two::RootTwoRing;
use scaled_plane::{Drawing, Segment};
use segment_tests::Steps;
use std::alloc::{AllocError, Global};
use std::marker::Brand;
use std::process::Abort;
use std::sync::ledger::{Blank, Ledger};
use std::test::Fail;

/// A segment by its ends and its letter.
pub type Crease = (Place, Place, Letter);

/// A vertex by the parts without a root.
type Spot = (i128, i128, i128);

/// An edge by its ends and its letter.
type Piece = (u32, u32, Letter);

const M: Letter = Letter::Mountain;

const V: Letter = Letter::Valley;

const B: Letter = Letter::Border;

const U: Letter = Letter::Unassigned;

/// The vertices, the edges and their lines.
#[derive(Debug, Drop)]
struct Told {
    vertices: Vec<Spot>,
    edges: Vec<Piece>,
    lines: Vec<(u32, u32)>,
}

/// Appends a segment, if it's small enough.
fn push_crease<W: Whole>(segments: &mut List<Segment<W>>, crease: Crease) -> Result<(), AllocError>
    ensures { OnOk result (All (IsScaledSegment W.numbers) segments.old → All (IsScaledSegment W.numbers) segments.new) }
{
    match segment(crease.0, crease.1, crease.2) {
        Some(segment) => match segments.push(segment) {
            Ok(()) => Ok(()),
            Err(refused) => Err(AllocError::from(refused)),
        },
        None => Ok(()),
    }
}

fn segments_of<W: Whole>(alloc: Global, creases: &[Crease]) -> Result<List<Segment<W>>, AllocError>
    ensures { IfOk result (All (IsScaledSegment W.numbers)) }
{
    let mut segments = List::new(alloc);
    for crease in creases {
        push_crease(&mut segments, *crease)?;
    }
    Ok(segments)
}

/// What segments are cut into.
fn cut<W: Whole, L: Ledger>(
    alloc: Global,
    blank: Blank,
    segments: &List<Segment<W>>,
) -> Result<Drawing<W>, PieceFault>
    requires scaled { All (IsScaledSegment W.numbers) segments.now }
    requires name { blank.name ≡ L.name }
    requires parts { blank.parts ≡ L.parts }
    requires some { 0 < L.parts }
    ensures { IfOk result (IsWellSet W.numbers) }
{
    let mut steps: Steps<L> = Steps::new(blank);
    pieces(alloc, segments, &mut steps)
}

pub fn drawing_of<W: Whole>(alloc: Global, creases: &[Crease]) -> Result<Drawing<W>, PieceFault>
    ensures { IfOk result (IsWellSet W.numbers) }
{
    let segments = segments_of(alloc, creases)?;
    cut::<W, Brand>(alloc, Blank::new(1), &segments)
}

fn told_of<W: Whole>(alloc: Global, drawing: &Drawing<W>) -> Result<Told, AllocError> {
    let mut vertices = Vec::new(alloc);
    for p in drawing.vertices.as_slice() {
        vertices.push((p.x.pair().0, p.y.pair().0, p.w.pair().0))?;
    }
    let mut edges = Vec::new(alloc);
    for e in drawing.edges.as_slice() {
        edges.push((e.from, e.to, e.letter))?;
    }
    let lines = Vec::from_slice(alloc, drawing.lines.as_slice())?;
    Ok(Told {
        vertices,
        edges,
        lines,
    })
}

fn check_over<W: Whole>(
    rt: &(impl Abort + AllocGlobal),
    creases: &[Crease],
    vertices: &[Spot],
    edges: &[Piece],
    lines: &[(u32, u32)],
) -> Result<(), Fail> {
    let told = told_of(rt.alloc(), &drawing_of::<W>(rt.alloc(), creases)?)?;
    assert_eq!(rt; told.vertices.as_slice(), vertices);
    assert_eq!(rt; told.edges.as_slice(), edges);
    assert_eq!(rt; told.lines.as_slice(), lines);
    Ok(())
}

/// Segments, and what they are cut into, over the rationals and over √2.
fn check(
    rt: &(impl Abort + AllocGlobal),
    creases: &[Crease],
    vertices: &[Spot],
    edges: &[Piece],
    lines: &[(u32, u32)],
) -> Result<(), Fail> {
    check_over::<RationalRing>(rt, creases, vertices, edges, lines)?;
    check_over::<RootTwoRing>(rt, creases, vertices, edges, lines)
}

#[test]
fn diagonals_cut_each_other(rt: HostRuntime) -> Result<(), Fail> {
    let creases = [
        ((0, 0), (1, 0), B),
        ((1, 0), (1, 1), B),
        ((1, 1), (0, 1), B),
        ((0, 1), (0, 0), B),
        ((0, 0), (1, 1), M),
        ((0, 1), (1, 0), V),
    ];
    let vertices = [(0, 0, 1), (0, 1, 1), (1, 1, 2), (1, 0, 1), (1, 1, 1)];
    let edges = [
        (0, 1, B),
        (0, 2, M),
        (0, 3, B),
        (1, 2, V),
        (1, 4, B),
        (2, 3, V),
        (2, 4, M),
        (3, 4, B),
    ];
    let lines = [
        (0, 1),
        (0, 4),
        (0, 3),
        (1, 3),
        (1, 4),
        (1, 3),
        (0, 4),
        (3, 4),
    ];
    check(&rt, &creases, &vertices, &edges, &lines)
}

#[test]
fn covered_pieces_stand_once(rt: HostRuntime) -> Result<(), Fail> {
    // two letters on one piece, and the first segment's line
    let creases = [
        ((0, 0), (3, 0), M),
        ((1, 0), (2, 0), V),
        ((2, 0), (1, 0), M),
    ];
    let vertices = [(0, 0, 1), (1, 0, 1), (2, 0, 1), (3, 0, 1)];
    check(
        &rt,
        &creases,
        &vertices,
        &[(0, 1, M), (1, 2, U), (2, 3, M)],
        &[(0, 3), (0, 3), (0, 3)],
    )?;
    // a segment and its reverse; a point is no segment
    let creases = [
        ((0, 0), (1, 0), M),
        ((1, 0), (0, 0), M),
        ((5, 5), (5, 5), V),
    ];
    check(
        &rt,
        &creases,
        &[(0, 0, 1), (1, 0, 1)],
        &[(0, 1, M)],
        &[(0, 1)],
    )?;
    check(&rt, &[((5, 5), (5, 5), V)], &[], &[], &[])?;
    check(&rt, &[], &[], &[], &[])
}

#[test]
fn overlaps_are_merged(rt: HostRuntime) -> Result<(), Fail> {
    let creases = [
        ((0, -1), (3, -1), B),
        ((3, -1), (3, 1), B),
        ((3, 1), (0, 1), B),
        ((0, 1), (0, -1), B),
        ((0, 0), (2, 0), M),
        ((1, 0), (3, 0), V),
    ];
    let vertices = [
        (0, -1, 1),
        (0, 0, 1),
        (0, 1, 1),
        (1, 0, 1),
        (2, 0, 1),
        (3, -1, 1),
        (3, 0, 1),
        (3, 1, 1),
    ];
    let edges = [
        (0, 1, B),
        (0, 5, B),
        (1, 2, B),
        (1, 3, M),
        (2, 7, B),
        (3, 4, U),
        (4, 6, V),
        (5, 6, B),
        (6, 7, B),
    ];
    let lines = [
        (0, 2),
        (0, 5),
        (0, 2),
        (1, 4),
        (2, 7),
        (1, 4),
        (3, 6),
        (5, 7),
        (5, 7),
    ];
    check(&rt, &creases, &vertices, &edges, &lines)
}

#[test]
fn four_segments_cross_in_one_point(rt: HostRuntime) -> Result<(), Fail> {
    let creases = [
        ((-1, -1), (1, 1), M),
        ((-1, 1), (1, -1), M),
        ((-1, 0), (1, 0), V),
        ((0, -1), (0, 1), V),
    ];
    let drawing = drawing_of::<RationalRing>(rt.alloc(), &creases)?;
    assert_eq!(rt; drawing.vertices.len(), 9);
    assert_eq!(rt; drawing.edges.len(), 8);
    Ok(())
}

/// Lines of a square grid.
fn grid(alloc: Global, lines: u8) -> Result<Vec<Crease>, AllocError>
    requires { 0 < lines }
{
    let mut creases = Vec::new(alloc);
    let last = i128::from(lines - 1);
    for line in 0..lines {
        let place = i128::from(line);
        creases.push(((0, place), (last, place), M))?;
        creases.push(((place, 0), (place, last), M))?;
    }
    Ok(creases)
}

#[test]
fn no_more_than_so_many_vertices(rt: HostRuntime) -> Result<(), Fail> {
    let mut creases = grid(rt.alloc(), 128)?;
    let drawing = drawing_of::<RationalRing>(rt.alloc(), &creases)?;
    assert_eq!(rt; drawing.vertices.len(), 16_384);
    assert_eq!(rt; drawing.edges.len(), 32_512);
    creases.push(((200, 0), (201, 0), M))?;
    let refused = drawing_of::<RationalRing>(rt.alloc(), &creases);
    assert!(rt; matches!(refused, Err(PieceFault::TooMany)));
    Ok(())
}

#[test]
fn thousands_of_segments_are_one_piece(rt: HostRuntime) -> Result<(), Fail> {
    for (last, merged) in [(M, M), (V, U), (B, B)] {
        let mut creases = Vec::new(rt.alloc());
        for _ in 0..2047 {
            creases.push(((0, 0), (1, 0), M))?;
        }
        creases.push(((0, 0), (1, 0), last))?;
        let told = told_of(
            rt.alloc(),
            &drawing_of::<RationalRing>(rt.alloc(), &creases)?,
        )?;
        assert_eq!(rt; told.edges.as_slice(), [(0, 1, merged)].as_slice());
    }
    Ok(())
}
