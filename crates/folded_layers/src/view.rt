ghost use Rattle.std.specs.Prelude.{◌≡◌, None};
ghost use Rattle.half_planes.specs.Views.{side_list};
ghost use Rattle.layers.specs.Folded.{IsFolded};
ghost use Rattle.folded_layers.specs.Known.{HasLayers};
ghost use Rattle.folded_layers.specs.Sheets.{folded_sheet, sides_there};

use crate::laws::folded_sheets_have_layers;
use exact_number::Exact;
use flat_fold::{Folded, Side, Sides};
use fold_base::Letter;
use half_planes::{EdgeSides, FaceSide, SheetView};
use plane::Point;
use scaled_plane::{Edge, Face};

/// A folded sheet as the tests on its faces and edges see it.
#[derive(Drop)]
pub struct FoldedLayers<'a, N: Exact> {
    pub folded: &'a Folded<N>,
}

impl<'a, N: Exact> FoldedLayers<'a, N> {
    /// The view of a folded sheet, which is folded in the sense of layers.
    pub fn new(folded: &'a Folded<N>) -> FoldedLayers<'a, N>
        ensures view { result.folded.now ≡ folded.now }
        ensures layers { HasLayers N.parts N.numbers.field N.Ring.numbers folded.now }
    {
        let layers = FoldedLayers { folded };
        let count = layers.faces().len();
        prove!(count <= 512);
        layers
    }

    /// The faces before they're folded.
    fn faces(&self) -> &'a [Face]
        ensures faces { result.now ≡ self.now.folded.now.sheet.faces }
        ensures layers { HasLayers N.parts N.numbers.field N.Ring.numbers self.now.folded.now }
    {
        folded_sheets_have_layers::<N>();
        self.folded.sheet().faces().as_slice()
    }

    /// The edges before they're folded.
    fn edges(&self) -> &'a [Edge]
        ensures edges { result.now ≡ self.now.folded.now.sheet.ends.edges }
        ensures layers { HasLayers N.parts N.numbers.field N.Ring.numbers self.now.folded.now }
    {
        folded_sheets_have_layers::<N>();
        self.folded.sheet().ends().edges.as_slice()
    }
}

impl<'a, N: Exact> SheetView for FoldedLayers<'a, N> {
    type Ring = N::Ring;

    ghost sheet = { λ v. folded_sheet N.Ring.numbers.ring v.folded.now };

    fn face_count(&self) -> u32 {
        self.faces().len() as u32
    }

    fn edge_count(&self) -> u32 {
        self.edges().len() as u32
    }

    fn corner_count(&self, face: u32) -> u32 {
        self.faces()[face as usize].corners.len() as u32
    }

    fn corner(&self, face: u32, place: u32) -> Point<N::Ring> {
        let count = self.faces()[face as usize].corners.len();
        prove!((place as usize) < count);
        self.folded.point(face, place)
    }

    fn is_turned(&self, face: u32) -> bool {
        self.folded.turned(face)
    }

    fn letter(&self, edge: u32) -> Letter {
        self.edges()[edge as usize].letter
    }

    fn sides(&self, edge: u32) -> EdgeSides {
        let count = self.edges().len();
        prove!((edge as usize) < count);
        seen_sides(self.folded.sides_of(edge))
    }
}

/// The sides at which there are faces, the left one first.
fn seen_sides(sides: Sides) -> EdgeSides
    requires { ¬ ((sides.left ≡ None) × (sides.right ≡ None)) }
    ensures { side_list result ≡ sides_there sides }
{
    match sides.left {
        Some(left) => EdgeSides {
            first: seen_side(left),
            second: sides.right.map(seen_side),
        },
        None => match sides.right {
            Some(right) => EdgeSides {
                first: seen_side(right),
                second: None,
            },
            None => unreachable!(),
        },
    }
}

/// A side by its face and corner.
fn seen_side(side: Side) -> FaceSide
    ensures face { result.face ≡ side.face }
    ensures corner { result.corner ≡ side.corner }
{
    FaceSide {
        face: side.face,
        corner: side.corner,
    }
}
