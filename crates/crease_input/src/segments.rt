// The CP lines of a drawing.
ghost use Rattle.std.specs.Prelude.{◌≤◌, length, All, IfOk};
ghost use Rattle.std.specs.List.{AllByRecursion};
ghost use Rattle.crease_input.specs.Files.{AreDrawingLines, HasShortParts};
ghost use Rattle.crease_input.specs.Lines.{IsEdgeWithin};

use crate::file::{letters_of, pairs_of};
use crate::texts::nine_texts_of;
use cp_lines::CpLine;
use exact_number::Exact;
use fold_base::List;
use frame_lines::lines_of;
use scaled_plane::Ends;
use std::alloc::{AllocError, Global};

/// A line for each edge, in their order: the coordinates of its two ends, rounded to nine decimals, and the kind of its letter,
/// which is 1 for B and C, 2 for M, 3 for V, and 4 for F, U and J.
pub fn drawing_lines<N: Exact>(alloc: Global, ends: &Ends<N>) -> Result<List<CpLine>, AllocError>
    requires coords { AllByRecursion (HasShortParts N.parts) ends.now.coords }
    requires edges { AllByRecursion (IsEdgeWithin (length ends.now.coords)) ends.now.edges }
    ensures lines { IfOk result (AreDrawingLines N.ROOT N.parts ends.now) }
    ensures kinds { IfOk result (All (λ line. line.kind ≤ 4)) }
{
    let points = nine_texts_of(alloc, ends.coords.as_slice())?;
    let pairs = pairs_of(alloc, ends.edges.as_slice())?;
    let letters = letters_of(alloc, ends.edges.as_slice())?;
    lines_of(alloc, points.as_slice(), &pairs, &letters)
}
