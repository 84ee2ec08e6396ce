ghost use Rattle.std.specs.Prelude.{◌≡◌, ℕ, ◌<◌, ◌^◌, ◌+◌, ◌↔◌, IfOk, IsTrue, OnOk, Some, length, slice_get};
ghost use Rattle.std.specs.BTreeMap.{get};
ghost use Rattle.flat_fold.specs.Faces.{IsPassable, corners_at};
ghost use Rattle.flat_fold.specs.Rounds.{KnowsCrossings};
ghost use Rattle.flat_fold.specs.EdgeSides.{Begins, HasPieces, KnowsSides, Separates, piece_order};
ghost use Rattle.scaled_plane.specs.Walks.{pieces_round};

use crate::levels::Between;
use crate::sheet::Sheet;
use exact_number::Exact;
use fold_base::{Letter, List};
use scaled_plane::{Edge, Face};
use std::alloc::{AllocError, Global};
use std::collections::BTreeMap;

/// A face along a directed piece, which is at its left: the face, and the corner in its list at which the piece begins. The
/// piece ends at the next corner, or at the first from the last.
#[derive(Clone, Copy)]
pub struct Side {
    pub face: u32,
    pub corner: u32,
}

/// The faces along an edge: at the left of the way from its first end to its second, and at the left of the way back.
#[derive(Clone, Copy)]
pub struct Sides {
    pub left: Option<Side>,
    pub right: Option<Side>,
}

/// The directed pieces of faces, by their two ends.
pub type Pieces = BTreeMap<(u32, u32), Side>;

/// The directed piece that begins at the corner.
pub fn piece_from(corners: &[u32], k: usize) -> (u32, u32)
    requires { k < length corners.now }
    ensures { slice_get (pieces_round corners.now) k ≡ Some result }
{
    let next = k + 1;
    if next < corners.len() {
        (corners[k], corners[next])
    } else {
        (corners[k], corners[0])
    }
}

/// Puts the piece that begins at the corner `k` of the face `f`.
fn put_piece(
    pieces: &mut Pieces,
    faces: &[Face],
    f: usize,
    k: usize,
    piece: (u32, u32),
) -> Result<(), AllocError>
    requires few_faces { f < 2 ^ 32 }
    requires few_corners { k < 2 ^ 32 }
    requires begins { Begins faces.now f k piece.0 piece.1 }
    requires before { HasPieces faces.now f k pieces.old }
    ensures { OnOk result (HasPieces faces.now f (k + 1) pieces.new) }
{
    pieces.insert(
        piece,
        Side {
            face: f as u32,
            corner: k as u32,
        },
    )?;
    Ok(())
}

/// Puts the directed pieces of the face `f`.
fn put_face(pieces: &mut Pieces, faces: &[Face], f: usize) -> Result<(), AllocError>
    requires face { f < length faces.now }
    requires few_faces { f < 2 ^ 32 }
    requires few_corners { length (corners_at faces.now f) < 2 ^ 32 }
    requires before { HasPieces faces.now f 0 pieces.old }
    ensures { OnOk result (HasPieces faces.now (f + 1) 0 pieces.new) }
{
    let face = &faces[f];
    let corners = face.corners.as_slice();
    for k in 0..corners.len() {
        put_piece(pieces, faces, f, k, piece_from(corners, k))?;
    }
    Ok(())
}

/// The directed pieces of all faces.
pub fn pieces_of(alloc: Global, faces: &[Face]) -> Result<Pieces, AllocError>
    requires few_faces { length faces.now < 2 ^ 32 }
    requires few_corners { (f : ℕ) → f < length faces.now → length (corners_at faces.now f) < 2 ^ 32 }
    ensures { IfOk result (HasPieces faces.now (length faces.now) 0) }
{
    let mut pieces = BTreeMap::new(alloc);
    for f in 0..faces.len() {
        put_face(&mut pieces, faces, f)?;
    }
    Ok(pieces)
}

/// The faces at both sides of an edge.
fn sides_of(pieces: &Pieces, edge: Edge) -> Sides
    ensures left { result.left ≡ get piece_order pieces.now (edge.from, edge.to) }
    ensures right { result.right ≡ get piece_order pieces.now (edge.to, edge.from) }
{
    Sides {
        left: pieces.get(&(edge.from, edge.to)).copied(),
        right: pieces.get(&(edge.to, edge.from)).copied(),
    }
}

/// For each edge the faces at both its sides, from the directed pieces of all faces.
fn all_sides(
    alloc: Global,
    edges: &[Edge],
    faces: &[Face],
    pieces: &Pieces,
) -> Result<List<Sides>, AllocError>
    requires { HasPieces faces.now (length faces.now) 0 pieces.now }
    ensures { IfOk result (KnowsSides faces.now edges.now) }
{
    let mut sides = List::new(alloc);
    for edge in edges {
        sides.push(sides_of(pieces, *edge))?;
    }
    Ok(sides)
}

/// For each edge the faces at both its sides.
pub fn edge_sides<N: Exact>(alloc: Global, sheet: &Sheet<N>) -> Result<List<Sides>, AllocError>
    ensures { IfOk result (KnowsSides sheet.now.faces sheet.now.ends.edges) }
{
    let faces = sheet.faces().as_slice();
    let pieces = pieces_of(alloc, faces)?;
    all_sides(alloc, sheet.ends().edges.as_slice(), faces, &pieces)
}

/// Whether walks of faces may cross an edge with this letter: the paper isn't parted there.
fn is_passable(letter: Letter) -> bool
    ensures { IsTrue result ↔ IsPassable letter }
{
    match letter {
        Letter::Border => false,
        Letter::Mountain => true,
        Letter::Valley => true,
        Letter::Flat => true,
        Letter::Unassigned => true,
        Letter::Cut => false,
        Letter::Join => true,
    }
}

/// The two faces at the sides of an edge, where its letter lets walks of faces cross it.
fn crossing(letter: Letter, sides: Sides) -> Option<Between>
    ensures { Separates letter sides result }
{
    if !is_passable(letter) {
        return None;
    }
    match sides.left {
        Some(left) => match sides.right {
            Some(right) => Some(Between {
                first: left.face,
                second: right.face,
            }),
            None => None,
        },
        None => None,
    }
}

/// For each edge the two faces between which it leads, if it does.
pub fn crossings<N: Exact>(
    alloc: Global,
    sheet: &Sheet<N>,
    sides: &[Sides],
) -> Result<List<Option<Between>>, AllocError>
    requires { KnowsSides sheet.now.faces sheet.now.ends.edges sides.now }
    ensures { IfOk result (KnowsCrossings sheet.now.ends.edges sheet.now.faces) }
{
    let edges = sheet.ends().edges.as_slice();
    let mut crossings = List::new(alloc);
    for e in 0..edges.len() {
        crossings.push(crossing(edges[e].letter, sides[e]))?;
    }
    Ok(crossings)
}
