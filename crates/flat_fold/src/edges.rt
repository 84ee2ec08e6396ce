ghost use Rattle.std.specs.Prelude.{◌≡◌, ◌<◌, ◌++◌, ◌∷◌, [], ℕ, length, map, IfOk, IfSome, OnOk};
ghost use Rattle.flat_fold.specs.EdgeImages.{IsCornerOf, along, both, edge_images, image_of, images_of};
ghost use Rattle.flat_fold.specs.EdgeSides.{sides_at};
ghost use Rattle.flat_fold.specs.Faces.{corners_at};

use crate::sides::{Side, Sides, piece_from};
use fold_base::{Letter, List};
use scaled_plane::{Edge, Face};
use std::alloc::{AllocError, Global};

/// The images of the ends of the directed piece at a side. Each face is told by the images of its corners.
fn along(corners: &[Face], side: Side) -> (u32, u32)
    requires { IsCornerOf corners.now side }
    ensures { result ≡ along corners.now side }
{
    let face = &corners[side.face as usize];
    piece_from(face.corners.as_slice(), side.corner as usize)
}

fn put_image(images: &mut List<Edge>, letter: Letter, ends: (u32, u32)) -> Result<(), AllocError>
    ensures { OnOk result (images.new ≡ images.old ++ image_of letter ends ∷ []) }
{
    let (from, to) = ends;
    images.push(Edge { from, to, letter })?;
    Ok(())
}

/// Puts two images of an edge, or one where they are the same.
fn put_both(
    images: &mut List<Edge>,
    letter: Letter,
    first: (u32, u32),
    second: (u32, u32),
) -> Result<(), AllocError>
    ensures { OnOk result (images.new ≡ images.old ++ map (image_of letter) (both first second)) }
{
    put_image(images, letter, first)?;
    if first.0 == second.0 && first.1 == second.1 {
        return Ok(());
    }
    put_image(images, letter, second)
}

/// Puts the images of an edge, that of the first face before that of the other.
fn put_images(
    images: &mut List<Edge>,
    corners: &[Face],
    letter: Letter,
    sides: Sides,
) -> Result<(), AllocError>
    requires left { IfSome sides.left (IsCornerOf corners.now) }
    requires right { IfSome sides.right (IsCornerOf corners.now) }
    ensures { OnOk result (images.new ≡ images.old ++ images_of corners.now letter sides) }
{
    match sides.left {
        None => match sides.right {
            None => Ok(()),
            Some(right) => {
                let (to, from) = along(corners, right);
                put_image(images, letter, (from, to))
            }
        },
        Some(left) => match sides.right {
            None => put_image(images, letter, along(corners, left)),
            Some(right) => {
                let (to, from) = along(corners, right);
                if right.face < left.face {
                    put_both(images, letter, (from, to), along(corners, left))
                } else {
                    put_both(images, letter, along(corners, left), (from, to))
                }
            }
        },
    }
}

/// The images of all edges, in the order of the edges.
pub fn images_of_edges(
    alloc: Global,
    corners: &[Face],
    edges: &[Edge],
    sides: &[Sides],
) -> Result<List<Edge>, AllocError>
    requires long { length sides.now ≡ length edges.now }
    requires left { (e : ℕ) → e < length edges.now → IfSome (sides_at sides.now e).left (IsCornerOf corners.now) }
    requires right { (e : ℕ) → e < length edges.now → IfSome (sides_at sides.now e).right (IsCornerOf corners.now) }
    ensures { IfOk result (λ images. images ≡ edge_images corners.now edges.now sides.now) }
{
    let mut images = List::new(alloc);
    for e in 0..edges.len() {
        put_images(&mut images, corners, edges[e].letter, sides[e])?;
    }
    Ok(images)
}
