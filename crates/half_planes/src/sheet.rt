ghost use Rattle.std.specs.Prelude.{◌≡◌, ◌<◌, ◌^◌, All, length, slice_get, Some};
ghost use Rattle.layers.specs.Sheets.{FoldedSheet};
ghost use Rattle.layers.specs.Folded.{IsFolded};
ghost use Rattle.scaled_plane.specs.Drawn.{IsScaledPoint};
ghost use Rattle.half_planes.specs.Views.{face_at, edge_at, side_list, AreSided};

use exact_number::Whole;
use fold_base::Letter;
use plane::Point;

/// The piece of a face from one corner to the next, by the places of the face and of the corner.
#[derive(Clone, Copy, Debug, PartialEq, Eq)]
pub struct FaceSide {
    pub face: u32,
    pub corner: u32,
}

/// The pieces of faces that an edge is: one, or two of faces that meet there.
#[derive(Clone, Copy, Debug, PartialEq, Eq)]
pub struct EdgeSides {
    pub first: FaceSide,
    pub second: Option<FaceSide>,
}

/// A folded sheet as the tests on its faces and edges see it, by their places in its lists. The corners of faces are scaled
/// points.
pub trait SheetView {
    type Ring: Whole;

    // the faces as they lie, and the edges
    ghost sheet: { Self → FoldedSheet Self.Ring };

    /// How many faces there are.
    fn face_count(&self) -> u32
        ensures count { result ≡ length (sheet self.now).faces }
        ensures folded { IsFolded Self.Ring.numbers.ring (sheet self.now) };

    /// How many edges there are.
    fn edge_count(&self) -> u32
        ensures { result ≡ length (sheet self.now).edges };

    /// How many corners a face has. 32 bits count those of three faces.
    fn corner_count(&self, face: u32) -> u32
        requires { face < length (sheet self.now).faces }
        ensures count { result ≡ length (face_at (sheet self.now) face).corners }
        ensures few { result < 2 ^ 30 }
        ensures scaled { All (IsScaledPoint Self.Ring.numbers) (face_at (sheet self.now) face).corners };

    /// The corner of a face at a place in the face's list.
    fn corner(&self, face: u32, place: u32) -> Point<Self::Ring>
        requires face { face < length (sheet self.now).faces }
        requires place { place < length (face_at (sheet self.now) face).corners }
        ensures { slice_get (face_at (sheet self.now) face).corners place ≡ Some result };

    /// Whether a face is turned over.
    fn is_turned(&self, face: u32) -> bool
        requires { face < length (sheet self.now).faces }
        ensures { result ≡ (face_at (sheet self.now) face).turned };

    /// What an edge is assigned to be.
    fn letter(&self, edge: u32) -> Letter
        requires { edge < length (sheet self.now).edges }
        ensures { result ≡ (edge_at (sheet self.now) edge).letter };

    /// The pieces of faces that an edge is.
    fn sides(&self, edge: u32) -> EdgeSides
        requires { edge < length (sheet self.now).edges }
        ensures sides { (edge_at (sheet self.now) edge).sides ≡ side_list result }
        ensures sided { AreSided (sheet self.now) }
        ensures folded { IsFolded Self.Ring.numbers.ring (sheet self.now) };
}
