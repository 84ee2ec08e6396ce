//! The faces of a connected plane drawing are the bounded regions between its edges. The crate computes nothing: its
//! functions do nothing, and their clauses are theorems over any ordered ring.
#![tactic(auto)]

ghost use Rattle.std.specs.Prelude.{◌<◌, ℕ, List as Listed, [], length, Contains, ℤ};
ghost use Rattle.algebra.proofs.Integers.{integers};
ghost use Rattle.algebra.specs.OrderedRing.{OrderedRing};
ghost use Rattle.algebra.specs.Surd.{Surd};
ghost use Rattle.algebra.specs.WholeSurds.{SurdNumbers};
ghost use Rattle.plane.specs.declared.point.Point.{Point as AnyPoint};
ghost use Rattle.plane.specs.Points.{IsPoint};
ghost use Rattle.scaled_plane.specs.declared.drawing.Drawing.{Drawing as AnyDrawing};
ghost use Rattle.scaled_plane.specs.declared.drawing.Edge.{Edge as AnyEdge};
ghost use Rattle.scaled_plane.specs.declared.drawing.Face.{Face as AnyFace};
ghost use Rattle.scaled_plane.specs.Lists.{IsRotation};
ghost use Rattle.scaled_plane.specs.Regions.{IsBounded};
ghost use Rattle.scaled_plane.specs.Walks.{AreFaces, ComesAfter, IsDirectedPiece, IsLeastRotation, IsOuterWalk, IsWalk};
ghost use Rattle.scaled_plane.specs.WellSet.{IsWellSet};
ghost use Rattle.regions.specs.Faces.{AreBoundedRegions, FacesAreBounded, IsConnected, IsOfWalk, IsPlane, WalksHaveRegions};
ghost use Rattle.regions.specs.Triangle.{corners, sides};

/// The faces are the bounded regions: the directed pieces of one walk have one region at their left, and each region is at
/// the left of some walk; in a connected drawing two walks have different regions, of which that of the outer walk isn't
/// bounded, and all others are. A drawing without edges has no bounded region and no walks.
pub fn faces_are_bounded_regions<T>()
    ensures walks { (K : OrderedRing T) (vertices : Listed (AnyPoint T)) (edges : Listed AnyEdge) (e : AnyEdge)
        → IsPlane K vertices edges → Contains edges e → WalksHaveRegions K vertices edges }
    ensures faces { (K : OrderedRing T) (vertices : Listed (AnyPoint T)) (edges : Listed AnyEdge) (e : AnyEdge)
        → IsPlane K vertices edges → Contains edges e → IsConnected K vertices edges → FacesAreBounded K vertices edges }
    ensures listed { (K : OrderedRing T) (vertices : Listed (AnyPoint T)) (edges : Listed AnyEdge) (e : AnyEdge) (faces : Listed AnyFace)
        → IsPlane K vertices edges → Contains edges e → IsConnected K vertices edges → AreFaces K vertices edges faces
        → AreBoundedRegions K vertices edges faces }
    ensures empty { (K : OrderedRing T) (vertices : Listed (AnyPoint T)) (p : AnyPoint T)
        → IsPoint K p → ¬ IsBounded K vertices [] p }
    ensures no_walks { (K : OrderedRing T) (vertices : Listed (AnyPoint T)) (corners : Listed ℕ) → ¬ IsWalk K vertices [] corners }
{}

/// Each directed piece is in exactly one walk: one piece comes after it, it comes after one, and walks that share a piece are
/// one walk, begun at any of its corners. Each walk has a least rotation, and where there is a vertex there is an outer walk.
pub fn each_piece_in_one_walk<T>()
    ensures after { (K : OrderedRing T) (vertices : Listed (AnyPoint T)) (edges : Listed AnyEdge) (u v : ℕ)
        → IsPlane K vertices edges → IsDirectedPiece edges u v → (w : ℕ) × ComesAfter K vertices edges u v w }
    ensures before { (K : OrderedRing T) (vertices : Listed (AnyPoint T)) (edges : Listed AnyEdge) (v w : ℕ)
        → IsPlane K vertices edges → IsDirectedPiece edges v w → (u : ℕ) × ComesAfter K vertices edges u v w }
    ensures some_walk { (K : OrderedRing T) (vertices : Listed (AnyPoint T)) (edges : Listed AnyEdge) (u v : ℕ)
        → IsPlane K vertices edges → IsDirectedPiece edges u v
        → (corners : Listed ℕ) × IsWalk K vertices edges corners × IsOfWalk corners u v }
    ensures one_walk { (K : OrderedRing T) (vertices : Listed (AnyPoint T)) (edges : Listed AnyEdge) (corners others : Listed ℕ) (u v : ℕ)
        → IsWalk K vertices edges corners → IsWalk K vertices edges others → IsOfWalk corners u v → IsOfWalk others u v
        → IsRotation corners others }
    ensures least { (K : OrderedRing T) (vertices : Listed (AnyPoint T)) (edges : Listed AnyEdge) (corners : Listed ℕ)
        → IsWalk K vertices edges corners
        → (first : Listed ℕ) × IsRotation corners first × IsLeastRotation first × IsWalk K vertices edges first }
    ensures outer { (K : OrderedRing T) (vertices : Listed (AnyPoint T)) (edges : Listed AnyEdge)
        → IsPlane K vertices edges → 0 < length vertices → (corners : Listed ℕ) × IsOuterWalk K vertices edges corners }
{}

/// The vertices and edges of a well set drawing are a plane drawing.
pub fn well_set_drawings_are_plane<T>()
    ensures { (k : ℕ) (surd : T → Surd ℤ) (numbers : SurdNumbers k surd) (drawing : AnyDrawing T)
        → IsWellSet numbers drawing → IsPlane numbers.ring drawing.vertices drawing.edges }
{}

/// A triangle is a connected plane drawing, so that what the theorems ask for can be met.
pub fn triangle_is_plane()
    ensures plane { IsPlane integers corners sides }
    ensures connected { IsConnected integers corners sides }
{}
