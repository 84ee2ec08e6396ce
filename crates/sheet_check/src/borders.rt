ghost use Rattle.std.specs.Prelude.{◌≡◌, ◌<◌, ℕ, true, false, length, MatchOption};
ghost use Rattle.scaled_plane.specs.Scaling.{IsFirstOf};
ghost use Rattle.flat_fold.specs.Faces.{edge_at};
ghost use Rattle.sheet_check.specs.Borders.{differ, is_border, is_one, is_wrong_border};

use flat_fold::{Pieces, Side};
use fold_base::Letter;
use scaled_plane::Edge;

fn is_border(letter: Letter) -> bool
    ensures { result ≡ is_border letter }
{
    match letter {
        Letter::Border => true,
        Letter::Mountain => false,
        Letter::Valley => false,
        Letter::Flat => false,
        Letter::Unassigned => false,
        Letter::Cut => false,
        Letter::Join => false,
    }
}

/// Whether the faces at the sides of an edge are one face.
fn is_one(left: Option<Side>, right: Option<Side>) -> bool
    ensures { result ≡ is_one left right }
{
    match left {
        None => right.is_some(),
        Some(left) => match right {
            None => true,
            Some(right) => left.face == right.face,
        },
    }
}

/// Whether an edge has the letter B and not one face, or another letter and one face.
fn is_wrong_border(pieces: &Pieces, edge: Edge) -> bool
    ensures { result ≡ is_wrong_border pieces.now edge }
{
    let left = pieces.get(&(edge.from, edge.to)).copied();
    let right = pieces.get(&(edge.to, edge.from)).copied();
    is_border(edge.letter) != is_one(left, right)
}

/// The first edge that has the letter B and not one face, or another letter and one face.
pub fn first_wrong_border(pieces: &Pieces, edges: &[Edge]) -> Option<usize>
    ensures { MatchOption result
        ((n : ℕ) → n < length edges.now → is_wrong_border pieces.now (edge_at edges.now n) ≡ false)
        (IsFirstOf (λ n. (n < length edges.now) × (is_wrong_border pieces.now (edge_at edges.now n) ≡ true))) }
{
    for edge in 0..edges.len() {
        if is_wrong_border(pieces, edges[edge]) {
            return Some(edge);
        }
    }
    None
}
