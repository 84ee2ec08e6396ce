ghost use Rattle.std.specs.Prelude.{◌≡◌, ℕ, length, Contains, ◌<◌, [], IfOk, IfErr, MatchOption, OnOk};
ghost use Rattle.scaled_plane.specs.declared.drawing.Edge.{Edge as AnyEdge};
ghost use Rattle.plane.specs.declared.point.Point.{Point as AnyPoint};
ghost use Rattle.scaled_plane.specs.Regions.{IsBounded};
ghost use Rattle.scaled_plane.specs.Walks.{AreFaces, IsFirstParted, IsOuter, IsOuterWalk};
ghost use Rattle.scaled_plane.specs.WellSet.{IsWellSet};
ghost use Rattle.regions.specs.Faces.{AreBoundedRegions, FacesAreBounded, IsConnected, WalkHasAtLeft, WalksHaveRegions};
ghost use Rattle.face_walks.specs.Fitting.{AreFacesWithin};
ghost use Rattle.face_walks.specs.Linked.{IsLinked};
ghost use Rattle.face_walks.specs.Made.{AreMade};

use crate::answer::{WalkFault, Walks};
use crate::cycles::cycles_of;
use crate::headings::{Heading, headings_of};
use crate::joined::first_parted;
use crate::links::link;
use crate::outside::outside_half;
use crate::pairs::{pairs_of, piece};
use crate::rings::{Rings, rings_of};
use exact_number::Whole;
use fold_base::List;
use half_edges::Arena;
use scaled_plane::{Drawing, Face};
use std::alloc::{AllocError, Global};

/// The walks of a drawing without vertices: none round a face, and an empty one round the outside.
fn no_walks(alloc: Global) -> Walks
    ensures payloads { result.arena.payloads ≡ [] }
    ensures nexts { result.arena.nexts ≡ [] }
    ensures faces { result.faces ≡ [] }
    ensures outer { result.outer.corners ≡ [] }
{
    Walks {
        arena: Arena::new(alloc),
        faces: List::new(alloc),
        outer: Face {
            corners: List::new(alloc),
        },
    }
}

/// What the walks of a drawing are made from: half-edges in pairs, their headings, and the rings of the vertices.
#[derive(Drop)]
struct Parts<W> {
    arena: Arena<(u32, u32)>,
    headings: Vec<Heading<W>>,
    rings: Rings,
}

fn parts_of<W: Whole>(alloc: Global, drawing: &Drawing<W>) -> Result<Parts<W>, AllocError>
    requires { IsWellSet W.numbers drawing.now }
    ensures { IfOk result (λ p. AreMade W.numbers drawing.now p.arena p.headings.items p.rings) }
{
    let arena = pairs_of(alloc, drawing.edges.as_slice())?;
    let headings = headings_of(alloc, drawing)?;
    let rings = rings_of(alloc, drawing.vertices.len(), &arena, headings.as_slice())?;
    Ok(Parts {
        arena,
        headings,
        rings,
    })
}

/// The least vertex that no edges join to vertex 0, by the half-edge that goes out of it.
fn parted_vertex<W: Whole>(
    alloc: Global,
    drawing: &Drawing<W>,
    parts: &Parts<W>,
) -> Result<Option<u32>, AllocError>
    requires well_set { IsWellSet W.numbers drawing.now }
    requires some { 0 < length drawing.now.vertices }
    requires made { AreMade W.numbers drawing.now parts.now.arena parts.now.headings.items parts.now.rings }
    ensures { IfOk result (λ parted. MatchOption parted (IsConnected W.numbers.ring drawing.now.vertices drawing.now.edges)
        (IsFirstParted drawing.now.edges (length drawing.now.vertices))) }
{
    let Some(vertex) = first_parted(alloc, &parts.arena, &parts.rings)? else {
        return Ok(None);
    };
    let (vertex, _) = piece(&parts.arena, parts.rings.ring(vertex)[0]);
    Ok(Some(vertex))
}

/// The walks, once the half-edges are linked.
fn linked_walks<W: Whole>(
    alloc: Global,
    drawing: &Drawing<W>,
    parts: Parts<W>,
) -> Result<Walks, AllocError>
    requires well_set { IsWellSet W.numbers drawing.now }
    requires some { 0 < length drawing.now.vertices }
    requires made { AreMade W.numbers drawing.now parts.arena parts.headings.items parts.rings }
    ensures linked { IfOk result (λ w. IsLinked W.numbers.ring drawing.now.vertices drawing.now.edges w.arena) }
    ensures faces { IfOk result (λ w. AreFaces W.numbers.ring drawing.now.vertices drawing.now.edges w.faces) }
    ensures outer { IfOk result (λ w. IsOuterWalk W.numbers.ring drawing.now.vertices drawing.now.edges w.outer.corners) }
    ensures within { IfOk result (λ w. AreFacesWithin (length drawing.now.vertices) w.faces) }
{
    let Parts {
        mut arena,
        headings,
        rings,
    } = parts;
    let outside = outside_half(drawing.vertices.as_slice(), &rings, headings.as_slice());
    link(&mut arena, &rings);
    let _count = arena.len();
    let (faces, outer) = cycles_of(alloc, &arena, outside)?;
    Ok(Walks {
        arena,
        faces,
        outer,
    })
}

/// The walks of a drawing with vertices.
fn walks_of<W: Whole>(alloc: Global, drawing: &Drawing<W>) -> Result<Walks, WalkFault>
    requires well_set { IsWellSet W.numbers drawing.now }
    requires some { 0 < length drawing.now.vertices }
    ensures linked { IfOk result (λ w. IsLinked W.numbers.ring drawing.now.vertices drawing.now.edges w.arena) }
    ensures faces { IfOk result (λ w. AreFaces W.numbers.ring drawing.now.vertices drawing.now.edges w.faces) }
    ensures outer { IfOk result (λ w. IsOuterWalk W.numbers.ring drawing.now.vertices drawing.now.edges w.outer.corners) }
    ensures within { IfOk result (λ w. AreFacesWithin (length drawing.now.vertices) w.faces) }
    ensures joined { OnOk result (IsConnected W.numbers.ring drawing.now.vertices drawing.now.edges) }
    ensures parted { IfErr result (λ e. (v : ℕ) → e ≡ WalkFault.Parted v
        → IsFirstParted drawing.now.edges (length drawing.now.vertices) v) }
{
    let parts = parts_of(alloc, drawing)?;
    if let Some(vertex) = parted_vertex(alloc, drawing, &parts)? {
        return Err(WalkFault::Parted { vertex });
    }
    let walks = linked_walks(alloc, drawing, parts)?;
    Ok(walks)
}

/// The walks round the faces of a drawing, and round its outside.
pub fn walks<W: Whole>(alloc: Global, drawing: &Drawing<W>) -> Result<Walks, WalkFault>
    requires { IsWellSet W.numbers drawing.now }

    // Each directed piece stands in the arena once, with its reverse as twin and the piece that comes after it as next.
    ensures linked { IfOk result (λ w. IsLinked W.numbers.ring drawing.now.vertices drawing.now.edges w.arena) }
    ensures faces { IfOk result (λ w. AreFaces W.numbers.ring drawing.now.vertices drawing.now.edges w.faces) }
    ensures outer { IfOk result (λ w. IsOuter W.numbers.ring drawing.now.vertices drawing.now.edges w.outer) }
    ensures within { IfOk result (λ w. AreFacesWithin (length drawing.now.vertices) w.faces) }
    ensures joined { OnOk result (IsConnected W.numbers.ring drawing.now.vertices drawing.now.edges) }
    ensures parted { IfErr result (λ e. (v : ℕ) → e ≡ WalkFault.Parted v
        → IsFirstParted drawing.now.edges (length drawing.now.vertices) v) }

    // The faces are the bounded regions of the drawing, each once, and the region of the outer walk isn't bounded.
    ensures regions { IfOk result (λ w. AreBoundedRegions W.numbers.ring drawing.now.vertices drawing.now.edges w.faces) }
    ensures outside { IfOk result (λ w. (q : AnyPoint W) → WalkHasAtLeft W.numbers.ring drawing.now.vertices drawing.now.edges w.outer.corners q
        → ¬ IsBounded W.numbers.ring drawing.now.vertices drawing.now.edges q) }
    ensures walks_have_regions { (e : AnyEdge) → Contains drawing.now.edges e
        → WalksHaveRegions W.numbers.ring drawing.now.vertices drawing.now.edges }
    ensures two_walks_two_regions { (e : AnyEdge) → Contains drawing.now.edges e
        → OnOk result (FacesAreBounded W.numbers.ring drawing.now.vertices drawing.now.edges) }
{
    if drawing.vertices.is_empty() {
        return Ok(no_walks(alloc));
    }
    walks_of(alloc, drawing)
}
