ghost use Rattle.std.specs.Prelude.{◌≡◌, ◌<◌, ◌≤◌, ℕ, Some, None, length, slice_get, slice_index, IfOk};
ghost use Rattle.std.specs.List.{AllByRecursion};
ghost use Rattle.scaled_plane.specs.Walks.{pieces_round};
ghost use Rattle.fold_base.specs.declared.letter.Letter.TheVariants.{Cut};
ghost use Rattle.scaled_plane.specs.Scaling.{IsScaledWith};
ghost use Rattle.flat_fold.specs.EdgeImages.{AreEdgeImages};
ghost use Rattle.flat_fold.specs.EdgeSides.{Begins, HasSides, sides_at};
ghost use Rattle.flat_fold.specs.Faces.{corners_at, edge_at};
ghost use Rattle.flat_fold.specs.Folded.{HasEdge, IsFolded};
ghost use Rattle.flat_fold.specs.Making.{layout};
ghost use Rattle.flat_fold.specs.Images.{corner_at, map_at, origin_at, place_by};
ghost use Rattle.flat_fold.specs.Sheets.{FormSheet};

use crate::edges::images_of_edges;
use crate::fold::Mapped;
use crate::images::{Numbered, Origin};
use crate::motion::Motion;
use crate::sheet::Sheet;
use crate::sides::{Side, Sides};
use exact_number::Exact;
use fold_base::List;
use plane::Point;
use scaled_plane::{Edge, Face, Pair, Scaled};
use std::alloc::{AllocError, Global};
use std::marker::Model;

/// A folded sheet: where each face comes to lie, and the images of the vertices, which are the different places that their
/// faces give them. It is the folding of its sheet by its type.
#[derive(Drop)]
pub struct Folded<N: Exact> {
    sheet: Sheet<N>,
    maps: List<Motion<N>>,
    corners: List<Face>,
    origins: List<Origin>,
    images: List<Pair<N>>,
    sides: List<Sides>,
    scaled: Scaled<N::Ring>,
}

impl<N: Exact> Model for Folded<N> {
    ghost use Rattle.flat_fold.specs.Folded.{IsFolded, Layout};

    ghost Value = { Layout N N.Ring };

    ghost view = { λ f. record {
      sheet = f.sheet;
      maps = f.maps;
      corners = f.corners;
      origins = f.origins;
      images = f.images;
      sides = f.sides;
      scaled = f.scaled;
    } };

    ghost invariant = { λ f. IsFolded N.parts N.numbers.field N.Ring.numbers (record {
      sheet = f.sheet;
      maps = f.maps;
      corners = f.corners;
      origins = f.origins;
      images = f.images;
      sides = f.sides;
      scaled = f.scaled;
    }) };
}

impl<N: Exact> Folded<N> {
    /// The folded sheet that was made of these.
    pub(crate) fn new(
        sheet: Sheet<N>,
        mapped: Mapped<N>,
        numbered: Numbered<N>,
        corners: List<Face>,
        scaled: Scaled<N::Ring>,
    ) -> Folded<N>
        requires { IsFolded N.parts N.numbers.field N.Ring.numbers (layout sheet mapped numbered corners scaled) }
        ensures { result ≡ layout sheet mapped numbered corners scaled }
    {
        Folded {
            sheet,
            maps: mapped.maps,
            corners,
            origins: numbered.origins,
            images: numbered.images,
            sides: mapped.sides,
            scaled,
        }
    }

    /// The sheet that is folded.
    pub fn sheet(&self) -> &Sheet<N>
        ensures sheet { result.now ≡ self.now.sheet }
        ensures folded { IsFolded N.parts N.numbers.field N.Ring.numbers self.now }
    {
        &self.sheet
    }

    /// The number of the image of a corner, which is a place in the list of its face.
    pub fn image(&self, face: u32, corner: u32) -> u32
        requires face { face < length self.now.sheet.faces }
        requires corner { corner < length (corners_at self.now.sheet.faces face) }
        ensures number { result ≡ corner_at self.now.corners face corner }
        ensures within { result < length self.now.images }
        ensures folded { IsFolded N.parts N.numbers.field N.Ring.numbers self.now }
    {
        let corners = self.corners.as_slice()[face as usize].corners.as_slice();
        corners[corner as usize]
    }

    /// Where a corner lies after folding.
    pub fn place(&self, face: u32, corner: u32) -> Pair<N>
        requires face { face < length self.now.sheet.faces }
        requires corner { corner < length (corners_at self.now.sheet.faces face) }
        ensures { result ≡ place_by N.numbers.field self.now.sheet.ends.coords self.now.sheet.faces self.now.maps face (corner_at self.now.sheet.faces face corner) }
    {
        let number = self.image(face, corner);
        self.images.as_slice()[number as usize]
    }

    /// The same place times the common denominator.
    pub fn point(&self, face: u32, corner: u32) -> Point<N::Ring>
        requires face { face < length self.now.sheet.faces }
        requires corner { corner < length (corners_at self.now.sheet.faces face) }
        ensures { IsScaledWith N.parts N.Ring.numbers self.now.scaled.common
            (place_by N.numbers.field self.now.sheet.ends.coords self.now.sheet.faces self.now.maps face (corner_at self.now.sheet.faces face corner)) result }
    {
        let number = self.image(face, corner);
        self.scaled.points.as_slice()[number as usize]
    }

    /// All images, by their numbers: in the order of their vertices, and of one vertex in that of the least face that gives each.
    pub fn images(&self) -> &List<Pair<N>>
        ensures images { result.now ≡ self.now.images }
        ensures folded { IsFolded N.parts N.numbers.field N.Ring.numbers self.now }
    {
        &self.images
    }

    /// The vertex of an image.
    pub fn image_vertex(&self, image: u32) -> u32
        requires { image < length self.now.images }
        ensures { result ≡ (origin_at self.now.origins image).vertex }
    {
        self.origins.as_slice()[image as usize].vertex
    }

    /// Whether a face is turned over.
    pub fn turned(&self, face: u32) -> bool
        requires { face < length self.now.sheet.faces }
        ensures { result ≡ (map_at N.numbers.field self.now.maps face).turned }
    {
        self.maps.as_slice()[face as usize].turned
    }

    /// The images of the edges, in the order of the edges, each with the letter of its edge; those of one edge in the order of the
    /// least face that gives each.
    pub fn edge_images(&self, alloc: Global) -> Result<List<Edge>, AllocError>
        ensures images { IfOk result (AreEdgeImages self.now) }
        ensures few { IfOk result (λ images. length images ≤ 4096) }
        ensures within { IfOk result (AllByRecursion (λ image. (image.from < length self.now.images) × (image.to < length self.now.images))) }
    {
        let edges = self.sheet().ends().edges.as_slice();
        images_of_edges(alloc, self.corners.as_slice(), edges, self.sides.as_slice())
    }

    /// The common denominator of the points.
    pub fn common(&self) -> i128
        ensures { result ≡ self.now.scaled.common }
    {
        self.scaled.common
    }

    /// The ends of an edge where they come to lie, times the common denominator. The paper isn't cut along the edge, so that all
    /// its faces lay them alike.
    pub fn edge_ends(&self, edge: u32) -> (Point<N::Ring>, Point<N::Ring>)
        requires edge { edge < length self.now.sheet.ends.edges }
        requires uncut { ¬ ((edge_at self.now.sheet.ends.edges edge).letter ≡ Cut) }
        ensures { (f : ℕ) → HasEdge self.now.sheet.ends.edges self.now.sheet.faces f edge
            → IsScaledWith N.parts N.Ring.numbers self.now.scaled.common (place_by N.numbers.field self.now.sheet.ends.coords self.now.sheet.faces self.now.maps f (edge_at self.now.sheet.ends.edges edge).from) result.0
            × IsScaledWith N.parts N.Ring.numbers self.now.scaled.common (place_by N.numbers.field self.now.sheet.ends.coords self.now.sheet.faces self.now.maps f (edge_at self.now.sheet.ends.edges edge).to) result.1 }
    {
        let sides = self.sides_of(edge);
        match sides.left {
            Some(left) => self.piece_ends(left),
            None => match sides.right {
                Some(right) => {
                    let (to, from) = self.piece_ends(right);
                    (from, to)
                }
                None => unreachable!(),
            },
        }
    }

    /// The sides of an edge, one of which at least has a face.
    pub fn sides_of(&self, edge: u32) -> Sides
        requires { edge < length self.now.sheet.ends.edges }
        ensures is { result ≡ sides_at self.now.sides edge }
        ensures sides { HasSides self.now.sheet.faces (edge_at self.now.sheet.ends.edges edge) result }
        ensures some { ¬ ((result.left ≡ None) × (result.right ≡ None)) }
    {
        let count = self.sheet.ends().edges.len();
        prove!((edge as usize) < count);
        self.sides.as_slice()[edge as usize]
    }

    /// The ends of a directed piece of a face where the face lays them, times the common denominator.
    fn piece_ends(&self, side: Side) -> (Point<N::Ring>, Point<N::Ring>)
        requires face { side.face < length self.now.sheet.faces }
        requires corner { side.corner < length (corners_at self.now.sheet.faces side.face) }
        ensures ends { (u v : ℕ) → Begins self.now.sheet.faces side.face side.corner u v
            → IsScaledWith N.parts N.Ring.numbers self.now.scaled.common (place_by N.numbers.field self.now.sheet.ends.coords self.now.sheet.faces self.now.maps side.face u) result.0
            × IsScaledWith N.parts N.Ring.numbers self.now.scaled.common (place_by N.numbers.field self.now.sheet.ends.coords self.now.sheet.faces self.now.maps side.face v) result.1 }
        ensures sheet { FormSheet N.parts N.Ring.numbers self.now.sheet.ends self.now.sheet.faces }
        ensures folded { IsFolded N.parts N.numbers.field N.Ring.numbers self.now }
    {
        let corners = self.sheet.faces().as_slice()[side.face as usize]
            .corners
            .as_slice();
        let next = corner_after(corners, side.corner);
        (
            self.point(side.face, side.corner),
            self.point(side.face, next),
        )
    }
}

/// The corner after one, round a face.
fn corner_after(corners: &[u32], corner: u32) -> u32
    requires corner { corner < length corners.now }
    requires few { length corners.now ≤ 4096 }
    ensures within { result < length corners.now }
    ensures next { (u v : ℕ) → slice_get (pieces_round corners.now) corner ≡ Some (u, v) → slice_index corners.now result ≡ v }
{
    let next = corner + 1;
    if (next as usize) < corners.len() {
        next
    } else {
        0
    }
}
