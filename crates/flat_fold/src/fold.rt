ghost use Rattle.std.specs.Prelude.{◌≡◌, ◌<◌, ◌≤◌, ◌^◌, ℕ, length, IfOk, IfErr};
ghost use Rattle.std.specs.BTreeMap.{get};
ghost use Rattle.scaled_plane.specs.Scaling.{IsScaledOf, IsTooWide};
ghost use Rattle.flat_fold.specs.Computed.{exact};
ghost use Rattle.flat_fold.specs.Faces.{corners_at};
ghost use Rattle.flat_fold.specs.Folded.{IsFolded, Refuses};
ghost use Rattle.flat_fold.specs.Folding.{AllFits};
ghost use Rattle.flat_fold.specs.Images.{corner_at, origin_at};
ghost use Rattle.flat_fold.specs.Making.{AreClosedImages, AreMapped, AreNumbersBy, HasNumbers, IsImageTooWide, place_fault};
ghost use Rattle.flat_fold.specs.Places.{laid_order};

use crate::agreement::first_disagreeing;
use crate::folded::Folded;
use crate::images::{Numbered, lay_images};
use crate::levels::{Between, MapFault, path_maps};
use crate::motion::Motion;
use crate::places::PlaceFault;
use crate::sheet::Sheet;
use crate::sides::{Sides, crossings, edge_sides};
use exact_number::Exact;
use fold_base::List;
use scaled_plane::{Face, ScaleFault, Scaled, scale_all};
use std::alloc::{AllocError, Global};
use std::collections::BTreeMap;

/// Why a sheet isn't folded.
#[derive(Debug, Drop)]
pub enum FoldFlatFault {
    /// The path map of the face overflows, or the place that it gives the vertex.
    NumberPast { face: u32, vertex: Option<u32> },
    /// Closed walks of faces don't come back to where they began: the path maps of the edge's faces disagree.
    Unclosed { edge: u32 },
    /// The common denominator or a part of the images passes its bound, first at one of the vertex.
    TooWide { vertex: u32 },
    Memory(AllocError),
}

/// The sides of edges, where walks of faces cross them, and the path maps of the faces.
#[derive(Drop)]
pub struct Mapped<N> {
    pub sides: List<Sides>,
    pub crossings: List<Option<Between>>,
    pub maps: List<Motion<N>>,
}

/// The path maps of the faces of a sheet.
fn map_faces<N: Exact>(alloc: Global, sheet: &Sheet<N>) -> Result<Mapped<N>, FoldFlatFault>
    ensures mapped { IfOk result (AreMapped (exact N.numbers) sheet.now.ends.coords sheet.now.ends.edges sheet.now.faces) }
    ensures refused { IfErr result (Refuses (exact N.numbers) sheet.now.ends.coords sheet.now.ends.edges sheet.now.faces N.parts) }
{
    let sides = match edge_sides(alloc, sheet) {
        Ok(sides) => sides,
        Err(e) => return Err(FoldFlatFault::Memory(e)),
    };
    let crossings = match crossings(alloc, sheet, sides.as_slice()) {
        Ok(crossings) => crossings,
        Err(e) => return Err(FoldFlatFault::Memory(e)),
    };
    match path_maps(alloc, sheet, crossings.as_slice()) {
        Ok(maps) => Ok(Mapped {
            sides,
            crossings,
            maps,
        }),
        Err(MapFault::NumberPast { face }) => Err(FoldFlatFault::NumberPast { face, vertex: None }),
        Err(MapFault::Memory(e)) => Err(FoldFlatFault::Memory(e)),
    }
}

/// The fault of the sheet where a corner isn't laid.
fn place_fault(fault: PlaceFault) -> FoldFlatFault
    ensures { result ≡ place_fault fault }
{
    match fault {
        PlaceFault::NumberPast { face, vertex } => FoldFlatFault::NumberPast {
            face,
            vertex: Some(vertex),
        },
        PlaceFault::Memory(e) => FoldFlatFault::Memory(e),
    }
}

/// The images of a sheet's vertices, where it closes.
fn close<N: Exact>(
    alloc: Global,
    sheet: &Sheet<N>,
    mapped: &Mapped<N>,
) -> Result<Numbered<N>, FoldFlatFault>
    requires { AreMapped (exact N.numbers) sheet.now.ends.coords sheet.now.ends.edges sheet.now.faces mapped.now }
    ensures closed { IfOk result (AreClosedImages (exact N.numbers) sheet.now.ends.coords sheet.now.ends.edges sheet.now.faces mapped.now.maps) }
    ensures refused { IfErr result (Refuses (exact N.numbers) sheet.now.ends.coords sheet.now.ends.edges sheet.now.faces N.parts) }
{
    let coords = sheet.ends().coords.as_slice();
    let faces = sheet.faces().as_slice();
    let maps = mapped.maps.as_slice();
    let numbered = match lay_images(alloc, coords, faces, maps) {
        Ok(numbered) => numbered,
        Err(fault) => return Err(place_fault(fault)),
    };
    match first_disagreeing(sheet, mapped.crossings.as_slice(), maps) {
        Some(edge) => Err(FoldFlatFault::Unclosed { edge }),
        None => Ok(numbered),
    }
}

/// The images times their common denominator.
fn scale_images<N: Exact>(
    alloc: Global,
    numbered: &Numbered<N>,
) -> Result<Scaled<N::Ring>, FoldFlatFault>
    requires few { length numbered.now.images < 2 ^ 32 }
    requires long { length numbered.now.origins ≡ length numbered.now.images }
    ensures scaled { IfOk result (IsScaledOf N.parts N.Ring.numbers numbered.now.images) }
    ensures too_wide { IfErr result (IsImageTooWide N.parts numbered.now.origins numbered.now.images) }
{
    match scale_all(alloc, &numbered.images) {
        Ok(scaled) => Ok(scaled),
        Err(fault) => match fault {
            ScaleFault::TooWide { vertex } => Err(FoldFlatFault::TooWide {
                vertex: numbered.origins.as_slice()[vertex as usize].vertex,
            }),
            ScaleFault::Memory(e) => Err(FoldFlatFault::Memory(e)),
        },
    }
}

/// The number of a vertex's image by a face that has it.
fn number_at(numbers: &BTreeMap<(u32, u32), u32>, vertex: u32, face: u32) -> u32
    requires { (i : ℕ) × (get laid_order numbers.now (vertex, face) ≡ Some i) }
    ensures { get laid_order numbers.now (vertex, face) ≡ Some result }
{
    match numbers.get(&(vertex, face)) {
        Some(number) => *number,
        None => unreachable!(),
    }
}

/// A face by the numbers of its corners' images.
fn number_face(
    alloc: Global,
    numbers: &BTreeMap<(u32, u32), u32>,
    face: u32,
    corners: &[u32],
) -> Result<Face, AllocError>
    requires { HasNumbers (get laid_order numbers.now) face corners.now }
    ensures { IfOk result (λ r. AreNumbersBy (get laid_order numbers.now) face corners.now (length corners.now) r.corners) }
{
    let mut by_numbers = List::new(alloc);
    for corner in corners {
        by_numbers.push(number_at(numbers, *corner, face))?;
    }
    Ok(Face {
        corners: by_numbers,
    })
}

/// All faces by the numbers of their corners' images.
fn number_faces(
    alloc: Global,
    numbers: &BTreeMap<(u32, u32), u32>,
    faces: &[Face],
) -> Result<List<Face>, AllocError>
    requires few { length faces.now ≤ 512 }
    requires known { (f : ℕ) → HasNumbers (get laid_order numbers.now) f (corners_at faces.now f) }
    ensures long { IfOk result (λ r. length r ≡ length faces.now) }
    ensures each { IfOk result (λ r. (f : ℕ) → f < length faces.now
        → AreNumbersBy (get laid_order numbers.now) f (corners_at faces.now f) (length (corners_at faces.now f)) (corners_at r f)) }
{
    let mut by_numbers = List::new(alloc);
    for (f, face) in faces.iter().enumerate() {
        let numbered = number_face(alloc, numbers, f as u32, face.corners.as_slice())?;
        match by_numbers.push(numbered) {
            Ok(()) => {}
            Err(_) => return Err(AllocError),
        }
    }
    Ok(by_numbers)
}

/// Folds a sheet flat. Refused is, in this order: a face whose path map overflows, the least of them; a corner whose place
/// overflows, the first by its face and then its place in it; a sheet that doesn't close, by the least edge that disagrees;
/// images that are too wide, by the vertex of the first.
pub fn fold_flat<N: Exact>(alloc: Global, sheet: Sheet<N>) -> Result<Folded<N>, FoldFlatFault>
    ensures sheet { IfOk result (λ folded. folded.sheet ≡ sheet) }
    ensures folding { IfOk result (IsFolded N.parts N.numbers.field N.Ring.numbers) }
    ensures fits { IfOk result (λ folded. AllFits (exact N.numbers) sheet.ends.coords sheet.ends.edges sheet.faces) }
    ensures refused { IfErr result (Refuses (exact N.numbers) sheet.ends.coords sheet.ends.edges sheet.faces N.parts) }
{
    let mapped = map_faces(alloc, &sheet)?;
    let numbered = close(alloc, &sheet, &mapped)?;
    let scaled = scale_images(alloc, &numbered)?;
    let corners = match number_faces(alloc, &numbered.numbers, sheet.faces().as_slice()) {
        Ok(corners) => corners,
        Err(e) => return Err(FoldFlatFault::Memory(e)),
    };
    Ok(Folded::new(sheet, mapped, numbered, corners, scaled))
}
