ghost use Rattle.std.specs.Prelude.{◌≡◌, ◌<◌, length, IfOk};
ghost use Rattle.drawing_repair.specs.Kept.{AreInRange, kept_segments, segment_of};

use crate::options::Flat;
use exact_number::Whole;
use fold_base::List;
use plane::Point;
use scaled_plane::{Edge, Segment};
use std::alloc::{AllocError, Global};

/// The segment between the points of an edge.
fn segment_at<W: Whole>(points: &[Point<W>], edge: Edge) -> Segment<W>
    requires from { edge.from < length points.now }
    requires to { edge.to < length points.now }
    ensures { result ≡ segment_of W.numbers.ring points.now edge }
{
    Segment {
        from: points[edge.from as usize],
        to: points[edge.to as usize],
        letter: edge.letter,
    }
}

/// The segments of the edges that are kept.
pub fn segments_kept<W: Whole>(
    alloc: Global,
    points: &[Point<W>],
    edges: &[Edge],
    flat: Flat,
) -> Result<List<Segment<W>>, AllocError>
    requires { AreInRange points.now edges.now }
    ensures { IfOk result (λ s. s ≡ kept_segments W.numbers.ring points.now flat edges.now) }
{
    let mut segments = List::with_room(alloc, edges.len())?;
    for edge in edges {
        if flat.keeps(edge.letter) {
            segments.push(segment_at(points, *edge))?;
        }
    }
    Ok(segments)
}
