ghost use Rattle.std.specs.Prelude.{◌≡◌, ◌<◌, ◌^◌, ℕ, length, IfOk, IfErr};
ghost use Rattle.std.specs.BTreeMap.{get};
ghost use Rattle.flat_fold.specs.Computed.{exact};
ghost use Rattle.flat_fold.specs.Faces.{corners_at};
ghost use Rattle.flat_fold.specs.Places.{AreVertices, LaysCorners, AreFacesLaidTo, IsPlaceFault, laid_order};

use crate::motion::Motion;
use exact_number::Exact;
use scaled_plane::{Face, Pair};
use std::alloc::{AllocError, Global};
use std::collections::BTreeMap;

/// Where faces lay vertices, by the vertex and then the face.
pub type Laid<N> = BTreeMap<(u32, u32), Pair<N>>;

/// Why a corner isn't laid: the vertex at the first corner whose place overflows, or want of memory.
#[derive(Debug, Drop)]
pub enum CornerFault {
    Past { vertex: u32 },
    Memory(AllocError),
}

/// Why faces aren't laid: the first face with a corner whose place overflows, and the vertex there, or want of memory.
#[derive(Debug, Drop)]
pub enum PlaceFault {
    NumberPast { face: u32, vertex: u32 },
    Memory(AllocError),
}

/// Lays the corners of a face.
fn lay_corners<N: Exact>(
    coords: &[Pair<N>],
    map: Motion<N>,
    face: u32,
    corners: &[u32],
    laid: &mut Laid<N>,
) -> Result<(), CornerFault>
    requires { AreVertices (length coords.now) corners.now }
    ensures { LaysCorners (exact N.numbers) coords.now map face corners.now (get laid_order laid.old) (get laid_order laid.new) result }
{
    for corner in corners {
        let vertex = *corner;
        match map.place(coords[vertex as usize]) {
            Ok(place) => match laid.insert((vertex, face), place) {
                Ok(_) => {}
                Err(_) => return Err(CornerFault::Memory(AllocError)),
            },
            Err(_) => return Err(CornerFault::Past { vertex }),
        }
    }
    Ok(())
}

/// Lays the corners of all faces, each face by its map.
pub fn lay_faces<N: Exact>(
    alloc: Global,
    coords: &[Pair<N>],
    faces: &[Face],
    maps: &[Motion<N>],
) -> Result<Laid<N>, PlaceFault>
    requires long { length maps.now ≡ length faces.now }
    requires few { length faces.now < 2 ^ 31 }
    requires vertices { (f : ℕ) → AreVertices (length coords.now) (corners_at faces.now f) }
    ensures laid { IfOk result (λ laid. AreFacesLaidTo (exact N.numbers) coords.now faces.now maps.now (length faces.now) (get laid_order laid)) }
    ensures past { IfErr result (IsPlaceFault (exact N.numbers) coords.now faces.now maps.now) }
{
    let mut laid = BTreeMap::new(alloc);
    for (f, face) in faces.iter().enumerate() {
        let number = f as u32;
        match lay_corners(coords, maps[f], number, face.corners.as_slice(), &mut laid) {
            Ok(()) => {}
            Err(CornerFault::Past { vertex }) => {
                return Err(PlaceFault::NumberPast {
                    face: number,
                    vertex,
                });
            }
            Err(CornerFault::Memory(e)) => return Err(PlaceFault::Memory(e)),
        }
    }
    Ok(laid)
}
