// Drawings that are folded.
ghost use Rattle.std.specs.Prelude.{◌≡◌, ◌<◌, ◌≤◌, length, IfOk};
ghost use Rattle.std.specs.List.{AllByRecursion};

use exact_number::Exact;
use flat_fold::Folded;
use fold_base::{Letter, List};
use folded_form::{FormFault, fold_ends};
use scaled_plane::{Edge, Ends, Face, Pair};
use std::alloc::{AllocError, Global};
use std::test::Fail;

/// A number by its three parts.
#[derive(Clone, Copy, PartialEq, Eq, Debug)]
pub struct Number {
    pub a: i128,
    pub b: i128,
    pub q: i128,
}

/// A vertex by its coordinates.
pub type Spot = (Number, Number);

/// An edge by its ends and its letter.
pub type Piece = (u32, u32, Letter);

pub const ZERO: Number = Number { a: 0, b: 0, q: 1 };

pub const ONE: Number = Number { a: 1, b: 0, q: 1 };

pub const TWO: Number = Number { a: 2, b: 0, q: 1 };

pub const SQUARE: [Spot; 4] = [(ZERO, ZERO), (ONE, ZERO), (ONE, ONE), (ZERO, ONE)];

fn number_of<N: Exact>(number: Number) -> Option<N> {
    if number.q > 0 {
        N::from_parts(number.a, number.b, number.q)
    } else {
        None
    }
}

fn coords_of<N: Exact>(alloc: Global, spots: &[Spot]) -> Result<List<Pair<N>>, Fail>
    ensures { IfOk result (λ coords. length coords ≡ length spots.now) }
{
    let mut coords = List::new(alloc);
    for spot in spots {
        let x = number_of(spot.0).ok_or("x is no number")?;
        let y = number_of(spot.1).ok_or("y is no number")?;
        match coords.push(Pair { x, y }) {
            Ok(()) => {}
            Err(failed) => return Err(Fail::from(AllocError::from(failed))),
        }
    }
    Ok(coords)
}

/// The edges, if their ends are among so many vertices.
fn edges_of(alloc: Global, pieces: &[Piece], count: usize) -> Result<List<Edge>, Fail>
    ensures long { IfOk result (λ edges. length edges ≡ length pieces.now) }
    ensures within { IfOk result (AllByRecursion (λ e. (e.from < count) × (e.to < count))) }
{
    let mut edges = List::new(alloc);
    for piece in pieces {
        let (from, to, letter) = *piece;
        if from as usize >= count || to as usize >= count {
            return Err("an edge leads nowhere".into());
        }
        edges.push(Edge { from, to, letter })?;
    }
    Ok(edges)
}

fn faces_of(alloc: Global, faces: &[&[u32]]) -> Result<List<Face>, AllocError>
    ensures { IfOk result (λ made. length made ≡ length faces.now) }
{
    let mut made = List::new(alloc);
    for corners in faces {
        let corners = List::from_slice(alloc, *corners)?;
        made.push(Face { corners }).map_err(AllocError::from)?;
    }
    Ok(made)
}

/// What the drawing of these vertices, edges and faces folds to.
pub fn folded<N: Exact>(
    alloc: Global,
    spots: &[Spot],
    pieces: &[Piece],
    faces: &[&[u32]],
) -> Result<Result<Folded<N>, FormFault>, Fail>
    requires vertices { length spots.now ≤ 16384 }
    requires edges { length pieces.now ≤ 2048 }
    requires faces { length faces.now ≤ 512 }
{
    let coords = coords_of(alloc, spots)?;
    let edges = edges_of(alloc, pieces, spots.len())?;
    let faces = faces_of(alloc, faces)?;
    Ok(fold_ends(alloc, Ends { coords, edges }, faces))
}
