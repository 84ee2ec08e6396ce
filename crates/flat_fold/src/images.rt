ghost use Rattle.std.specs.Prelude.{◌≡◌, ◌⊎◌, ℕ, ◌<◌, ◌≤◌, ◌^◌, ◌+◌, length, map, IfOk, IfErr};
ghost use Rattle.std.specs.BTreeMap.{get, IsOrdered};
ghost use Rattle.flat_fold.specs.Computed.{exact};
ghost use Rattle.flat_fold.specs.Faces.{corners_at};
ghost use Rattle.flat_fold.specs.Numbers.{AreInOrder, AreLaid, AreNumbered, IsAdded, IsKnown, laid_vertex, place_key, place_order};
ghost use Rattle.flat_fold.specs.Places.{AreVertices, IsPlaceFault, laid_order};

use crate::motion::Motion;
use crate::places::{Laid, PlaceFault, lay_faces};
use exact_number::Exact;
use fold_base::List;
use scaled_plane::{Face, Pair};
use std::alloc::{AllocError, Global};
use std::collections::BTreeMap;

/// Whose image a place is: that of a vertex, and the least face that lays the vertex there.
#[derive(Clone, Copy)]
pub struct Origin {
    pub vertex: u32,
    pub face: u32,
}

/// A vertex where a face lays it.
#[derive(Clone, Copy)]
pub struct LaidVertex<N> {
    pub vertex: u32,
    pub face: u32,
    pub place: Pair<N>,
}

/// A vertex and a place, by the parts of its coordinates.
pub type PlaceKey = (u32, (i128, i128, i128), (i128, i128, i128));

/// A vertex and a place as a key.
fn place_key<N: Exact>(vertex: u32, place: Pair<N>) -> PlaceKey
    ensures { result ≡ place_key N.parts vertex place }
{
    (vertex, place.x.parts(), place.y.parts())
}

/// The laid vertices in the order of the vertices, and those of one vertex in the order of the faces.
fn in_order<N: Exact>(alloc: Global, laid: &Laid<N>) -> Result<Vec<LaidVertex<N>>, AllocError>
    ensures ordered { IsOrdered laid_order laid.now }
    ensures all { IfOk result (λ v. v.items ≡ map laid_vertex laid.now.entries) }
{
    laid.iter()
        .map(|(at, place)| LaidVertex {
            vertex: at.0,
            face: at.1,
            place: *place,
        })
        .collect(alloc)
}

/// The number of the image of a laid vertex: that of an earlier face which lays it there, or a new one.
fn number_of<N: Exact>(
    at: LaidVertex<N>,
    known: &mut BTreeMap<PlaceKey, u32>,
    origins: &mut List<Origin>,
    images: &mut List<Pair<N>>,
) -> Result<u32, AllocError>
    requires { length images.old + 1 < 2 ^ 32 }
    ensures { IfOk result (λ i. IsKnown N.parts at (get place_order known.old) (get place_order known.new) origins.old origins.new images.old images.new i
        ⊎ IsAdded N.parts at (get place_order known.old) (get place_order known.new) origins.old origins.new images.old images.new i) }
{
    let key = place_key(at.vertex, at.place);
    let found = known.get(&key).copied();
    match found {
        Some(number) => Ok(number),
        None => {
            let number = images.len() as u32;
            images.push(at.place)?;
            origins.push(Origin {
                vertex: at.vertex,
                face: at.face,
            })?;
            known.insert(key, number)?;
            Ok(number)
        }
    }
}

/// The images of laid vertices, with whose they are, and the number of each by vertex and face.
#[derive(Drop)]
pub struct Numbered<N> {
    pub origins: List<Origin>,
    pub images: List<Pair<N>>,
    pub numbers: BTreeMap<(u32, u32), u32>,
}

/// Numbers the images of laid vertices that are in order.
fn number_all<N: Exact>(alloc: Global, laid: &[LaidVertex<N>]) -> Result<Numbered<N>, AllocError>
    requires few { length laid.now < 2 ^ 32 }
    requires in_order { AreInOrder N.numbers.field laid.now }
    ensures { IfOk result (λ r. AreNumbered N.numbers.field laid.now (get laid_order r.numbers) r.origins r.images) }
{
    let mut known = BTreeMap::new(alloc);
    let mut numbers = BTreeMap::new(alloc);
    let mut origins = List::new(alloc);
    let mut images = List::new(alloc);
    for at in laid {
        let number = number_of(*at, &mut known, &mut origins, &mut images)?;
        numbers.insert((at.vertex, at.face), number)?;
    }
    Ok(Numbered {
        origins,
        images,
        numbers,
    })
}

/// Numbers the images of what faces lay.
fn number_laid<N: Exact>(alloc: Global, laid: &Laid<N>) -> Result<Numbered<N>, AllocError>
    requires { IsOrdered laid_order laid.now → length laid.now.entries < 2 ^ 32 }
    ensures ordered { IsOrdered laid_order laid.now }
    ensures numbered { IfOk result (λ r. AreNumbered N.numbers.field (map laid_vertex laid.now.entries) (get laid_order r.numbers) r.origins r.images) }
{
    let all = in_order(alloc, laid)?;
    number_all(alloc, all.as_slice())
}

/// The images of the vertices, each face by its map, or the first face with a corner whose place overflows.
pub fn lay_images<N: Exact>(
    alloc: Global,
    coords: &[Pair<N>],
    faces: &[Face],
    maps: &[Motion<N>],
) -> Result<Numbered<N>, PlaceFault>
    requires long { length maps.now ≡ length faces.now }
    requires few_vertices { length coords.now ≤ 16384 }
    requires few_faces { length faces.now ≤ 512 }
    requires vertices { (f : ℕ) → AreVertices (length coords.now) (corners_at faces.now f) }
    ensures images { IfOk result (λ r. AreLaid (exact N.numbers) coords.now faces.now maps.now (get laid_order r.numbers) r.origins r.images) }
    ensures past { IfErr result (IsPlaceFault (exact N.numbers) coords.now faces.now maps.now) }
{
    let laid = lay_faces(alloc, coords, faces, maps)?;
    match number_laid(alloc, &laid) {
        Ok(numbered) => Ok(numbered),
        Err(e) => Err(PlaceFault::Memory(e)),
    }
}
