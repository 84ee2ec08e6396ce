ghost use Rattle.std.specs.Prelude.{◌≡◌, ◌<◌, ◌≤◌, ◌^◌, ℕ, IfOk, MatchOption, Some, length, slice_index};
ghost use Rattle.scaled_plane.specs.declared.drawing.Edge.{Edge as AnyEdge};
ghost use Rattle.scaled_plane.specs.Scaling.{IsFirstOf};
ghost use Rattle.sheet_check.specs.Labels.{AreLabelled, AreOwn, HasOther, Relabels, both_faces, can_cross, crossing_of};

use flat_fold::{Pieces, Side};
use fold_base::Letter;
use scaled_plane::Edge;
use std::alloc::{AllocError, Global};

/// Whether the faces beside an edge with this letter hang together there.
fn can_cross(letter: Letter) -> bool
    ensures { result ≡ can_cross letter }
{
    match letter {
        Letter::Border => false,
        Letter::Mountain => true,
        Letter::Valley => true,
        Letter::Flat => true,
        Letter::Unassigned => true,
        Letter::Cut => false,
        Letter::Join => true,
    }
}

fn both_faces(left: Option<Side>, right: Option<Side>) -> Option<(u32, u32)>
    ensures { result ≡ both_faces left right }
{
    match left {
        None => None,
        Some(left) => match right {
            None => None,
            Some(right) => Some((left.face, right.face)),
        },
    }
}

/// The faces at the two sides of an edge, where they hang together there.
fn crossing(pieces: &Pieces, edge: Edge) -> Option<(u32, u32)>
    ensures { result ≡ crossing_of pieces.now edge }
{
    if !can_cross(edge.letter) {
        return None;
    }
    let left = pieces.get(&(edge.from, edge.to)).copied();
    let right = pieces.get(&(edge.to, edge.from)).copied();
    both_faces(left, right)
}

/// Puts one label in place of another.
fn relabel(labels: &mut [u32], gone: u32, kept: u32)
    ensures { Relabels gone kept labels.old labels.new }
{
    for face in 0..labels.len() {
        if labels[face] == gone {
            labels[face] = kept;
        }
    }
}

/// Gives two faces one label, and all faces that have the label of one of them.
fn merge(labels: &mut [u32], first: u32, second: u32)
    requires first { first < length labels.old }
    requires second { second < length labels.old }
    ensures { Relabels (slice_index labels.old second) (slice_index labels.old first) labels.old labels.new }
{
    let kept = labels[first as usize];
    let gone = labels[second as usize];
    relabel(labels, gone, kept);
}

/// Each face with a label of its own.
fn own_labels(alloc: Global, count: usize) -> Result<Vec<u32>, AllocError>
    requires { count < 2 ^ 32 }
    ensures { IfOk result (λ labels. AreOwn count labels.items) }
{
    let mut labels = Vec::with_capacity(alloc, count)?;
    for face in 0..count {
        labels.push(face as u32)?;
    }
    Ok(labels)
}

/// Gives the faces that hang together one label, edge by edge.
fn merge_all(pieces: &Pieces, edges: &[Edge], labels: &mut [u32])
    requires own { AreOwn (length labels.old) labels.old }
    requires faces { (e : AnyEdge) (f g : ℕ) → crossing_of pieces.now e ≡ Some (f, g) → (f < length labels.old) × (g < length labels.old) }
    ensures { AreLabelled pieces.now edges.now (length edges.now) (length labels.old) labels.new }
{
    for edge in 0..edges.len() {
        match crossing(pieces, edges[edge]) {
            Some((first, second)) => merge(labels, first, second),
            None => {}
        }
    }
}

/// The first face that has another label than face 0.
pub fn first_other(labels: &[u32]) -> Option<usize>
    ensures { MatchOption result
        ((f : ℕ) → f < length labels.now → slice_index labels.now f ≡ slice_index labels.now 0)
        (IsFirstOf (HasOther labels.now)) }
{
    for face in 0..labels.len() {
        if labels[face] != labels[0] {
            return Some(face);
        }
    }
    None
}

/// Labels of the faces: two have one label exactly where they hang together.
pub fn labels_of(
    alloc: Global,
    pieces: &Pieces,
    edges: &[Edge],
    count: usize,
) -> Result<Vec<u32>, AllocError>
    requires few { count < 2 ^ 32 }
    requires faces { (e : AnyEdge) (f g : ℕ) → crossing_of pieces.now e ≡ Some (f, g) → (f < count) × (g < count) }
    ensures { IfOk result (λ labels. AreLabelled pieces.now edges.now (length edges.now) count labels.items) }
{
    let mut labels = own_labels(alloc, count)?;
    merge_all(pieces, edges, labels.as_mut_slice());
    Ok(labels)
}
