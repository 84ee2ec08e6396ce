ghost use Rattle.std.specs.Prelude.{◌≡◌, ◌<◌, length};
ghost use Rattle.flat_fold.specs.Faces.{edge_at};
ghost use Rattle.flat_fold.specs.Folding.{point};
ghost use Rattle.flat_fold.specs.Sheets.{FormSheet};

use exact_number::Exact;
use fold_base::{Letter, List};
use scaled_plane::{Ends, Face, Pair};
use std::marker::Model;

/// An edge, by its letter and where its two ends lie in the sheet.
#[derive(Clone, Copy)]
pub struct PlacedEdge<N> {
    pub letter: Letter,
    pub from: Pair<N>,
    pub to: Pair<N>,
}

/// A sheet of paper that can be folded: vertices, the edges between them, and convex faces that reach each other over edges
/// where the paper isn't cut.
#[derive(Drop)]
pub struct Sheet<N: Exact> {
    ends: Ends<N>,
    faces: List<Face>,
}

impl<N: Exact> Model for Sheet<N> {
    ghost use Rattle.flat_fold.specs.Sheets.{FormSheet, Pattern};

    ghost Value = { Pattern N };

    ghost view = { λ s. record { ends = s.ends; faces = s.faces } };

    ghost invariant = { λ s. FormSheet N.parts N.Ring.numbers s.ends s.faces };
}

impl<N: Exact> Sheet<N> {
    /// The sheet of these vertices, edges and faces.
    pub fn new(ends: Ends<N>, faces: List<Face>) -> Sheet<N>
        requires { FormSheet N.parts N.Ring.numbers ends faces }
        ensures ends { result.ends ≡ ends }
        ensures faces { result.faces ≡ faces }
    {
        Sheet { ends, faces }
    }

    /// Its vertices and edges.
    pub fn ends(&self) -> &Ends<N>
        ensures ends { result.now ≡ self.now.ends }
        ensures sheet { FormSheet N.parts N.Ring.numbers self.now.ends self.now.faces }
    {
        &self.ends
    }

    /// Its faces, each by its corners in counterclockwise order.
    pub fn faces(&self) -> &List<Face>
        ensures faces { result.now ≡ self.now.faces }
        ensures sheet { FormSheet N.parts N.Ring.numbers self.now.ends self.now.faces }
    {
        &self.faces
    }

    /// The edge by its number.
    pub(crate) fn edge(&self, e: usize) -> PlacedEdge<N>
        requires { e < length self.now.ends.edges }
        ensures letter { result.letter ≡ (edge_at self.now.ends.edges e).letter }
        ensures from { result.from ≡ point N.numbers.field self.now.ends.coords (edge_at self.now.ends.edges e).from }
        ensures to { result.to ≡ point N.numbers.field self.now.ends.coords (edge_at self.now.ends.edges e).to }
        ensures sheet { FormSheet N.parts N.Ring.numbers self.now.ends self.now.faces }
    {
        let ends = self.ends();
        let edge = ends.edges.as_slice()[e];
        let coords = ends.coords.as_slice();
        PlacedEdge {
            letter: edge.letter,
            from: coords[edge.from as usize],
            to: coords[edge.to as usize],
        }
    }
}
