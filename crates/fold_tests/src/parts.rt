// Parts of a folded sheet, as values that are compared.
ghost use Rattle.std.specs.Prelude.{◌≡◌, ◌↔◌, ◌<◌, IfOk, IsTrue, length};
ghost use Rattle.fold_base.specs.declared.letter.Letter.TheVariants.{Cut};
ghost use Rattle.flat_fold.specs.Faces.{corners_at};

use crate::drawing::{Number, Piece, Spot};
use exact_number::{Exact, Whole};
use flat_fold::Folded;
use fold_base::Letter;
use plane::Point;
use scaled_plane::{Edge, Pair};
use std::alloc::{AllocError, Global};
use std::test::Fail;

/// A scaled number by its two parts.
#[derive(Clone, Copy, PartialEq, Eq, Debug)]
pub struct Steps {
    pub a: i128,
    pub b: i128,
}

/// An end of an edge where it comes to lie, times the common denominator.
#[derive(Clone, Copy, PartialEq, Eq, Debug)]
pub struct End {
    pub x: Steps,
    pub y: Steps,
}

/// A corner of a folded face: the number of its image, and where it lies times the common denominator.
#[derive(Clone, Copy, PartialEq, Eq, Debug)]
pub struct Corner {
    pub image: u32,
    pub x: Steps,
    pub y: Steps,
}

fn number_by<N: Exact>(number: N) -> Number {
    let (a, b, q) = number.parts();
    Number { a, b, q }
}

fn spot_by<N: Exact>(pair: Pair<N>) -> Spot {
    (number_by(pair.x), number_by(pair.y))
}

fn steps_by<W: Whole>(number: W) -> Steps {
    let (a, b) = number.pair();
    Steps { a, b }
}

/// A count of things as the id after theirs.
fn id_after(count: usize) -> Result<u32, Fail>
    ensures { IfOk result (λ id. id ≡ count) }
{
    match u32::try_from(count) {
        Ok(id) => Ok(id),
        Err(_) => Err("too many".into()),
    }
}

/// The images, each with its vertex.
pub fn images_of<N: Exact>(alloc: Global, folded: &Folded<N>) -> Result<Vec<(u32, Spot)>, Fail> {
    let places = folded.images().as_slice();
    let count = id_after(places.len())?;
    let mut images = Vec::new(alloc);
    for image in 0..count {
        images.push((folded.image_vertex(image), spot_by(places[image as usize])))?;
    }
    Ok(images)
}

/// The images of the edges.
pub fn edges_of<N: Exact>(alloc: Global, folded: &Folded<N>) -> Result<Vec<Piece>, AllocError> {
    let edges = folded.edge_images(alloc)?;
    let mut pieces = Vec::new(alloc);
    for edge in edges.as_slice() {
        pieces.push((edge.from, edge.to, edge.letter))?;
    }
    Ok(pieces)
}

/// How many corners a face has, if it is a face.
fn corner_count<N: Exact>(folded: &Folded<N>, face: u32) -> Result<u32, Fail>
    ensures face { IfOk result (λ count. face < length folded.now.sheet.faces) }
    ensures corners { IfOk result (λ count. count ≡ length (corners_at folded.now.sheet.faces face)) }
{
    let faces = folded.sheet().faces().as_slice();
    if face as usize >= faces.len() {
        return Err("there is no such face".into());
    }
    id_after(faces[face as usize].corners.len())
}

/// The corners of a face where they come to lie.
pub fn corners_of<N: Exact>(
    alloc: Global,
    folded: &Folded<N>,
    face: u32,
) -> Result<Vec<Corner>, Fail> {
    let count = corner_count(folded, face)?;
    let mut corners = Vec::new(alloc);
    for corner in 0..count {
        let image = folded.image(face, corner);
        let point = folded.point(face, corner);
        corners.push(Corner {
            image,
            x: steps_by(point.x),
            y: steps_by(point.y),
        })?;
    }
    Ok(corners)
}

/// Whether a face is turned over.
pub fn is_turned<N: Exact>(folded: &Folded<N>, face: u32) -> Result<bool, Fail> {
    corner_count(folded, face)?;
    Ok(folded.turned(face))
}

/// Where a corner comes to lie.
pub fn place_of<N: Exact>(folded: &Folded<N>, face: u32, corner: u32) -> Result<Spot, Fail> {
    if corner >= corner_count(folded, face)? {
        return Err("there is no such corner".into());
    }
    Ok(spot_by(folded.place(face, corner)))
}

fn end_by<W: Whole>(point: Point<W>) -> End {
    End {
        x: steps_by(point.x),
        y: steps_by(point.y),
    }
}

fn is_cut(edge: Edge) -> bool
    ensures { IsTrue result ↔ (edge.letter ≡ Cut) }
{
    edge.letter == Letter::Cut
}

/// Both ends of an edge where they come to lie, if the paper isn't cut along it.
pub fn ends_of<N: Exact>(folded: &Folded<N>, edge: u32) -> Result<(End, End), Fail> {
    let edges = folded.sheet().ends().edges.as_slice();
    if edge as usize >= edges.len() {
        return Err("there is no such edge".into());
    }
    if is_cut(edges[edge as usize]) {
        return Err("the paper is cut along the edge".into());
    }
    let (from, to) = folded.edge_ends(edge);
    Ok((end_by(from), end_by(to)))
}
