ghost use Rattle.std.specs.Prelude.{◌≡◌, ◌⊎◌, ℕ, ◌<◌, ◌≤◌, ◌^◌, length, All, Contains, IfOk, IfErr, List as Listed};
ghost use Rattle.plane.specs.declared.point.Point.{Point as AnyPoint};
ghost use Rattle.scaled_plane.specs.declared.point.Segment.{Segment as AnySegment};
ghost use Rattle.scaled_plane.specs.Drawn.{IsScaledSegment};
ghost use Rattle.scaled_plane.specs.Pieces.{ArePieces, AreVertices};
ghost use Rattle.scaled_plane.specs.WellSet.{IsWellSet};
ghost use Rattle.drawing_repair.specs.Kept.{AreInRange};
ghost use Rattle.drawing_repair.specs.Cutting.{AreCutInto};
ghost use Rattle.drawing_repair.specs.Repaired.{IsMemory, IsRefusal};
ghost use Rattle.drawing_repair.specs.declared.answer.Stage.TheVariants.{Drawn};
ghost use Rattle.drawing_repair.specs.declared.options.Faces.{Faces as AnyFaces};

use crate::answer::RepairFault;
use crate::kept::segments_kept;
use crate::options::Flat;
use arrangement::{PieceFault, pieces};
use exact_number::{Exact, Whole};
use fold_base::List;
use scaled_plane::{Drawing, Ends, Scaled, Segment, scale_all};
use segment_tests::Steps;
use std::alloc::Global;
use std::marker::Brand;
use std::sync::ledger::{Blank, Ledger};

/// The pieces of segments, with a count of the tests that nobody reads.
fn counted_pieces<W: Whole, L: Ledger>(
    alloc: Global,
    blank: Blank,
    segments: &List<Segment<W>>,
) -> Result<Drawing<W>, PieceFault>
    requires scaled { (s : AnySegment W) → Contains segments.now s → IsScaledSegment W.numbers s }
    requires name { blank.name ≡ L.name }
    requires parts { blank.parts ≡ L.parts }
    requires some { 0 < L.parts }
    ensures vertices { IfOk result (λ d. AreVertices W.numbers.ring segments.now d.vertices) }
    ensures pieces { IfOk result (λ d. ArePieces W.numbers.ring segments.now d.vertices d.edges) }
    ensures well_set { IfOk result (λ d. IsWellSet W.numbers d) }
    ensures few { IfOk result (λ d. length d.vertices ≤ 16384) }
    ensures too_many { IfErr result (λ e. e ≡ PieceFault.TooMany
        → (vertices : Listed (AnyPoint W)) → AreVertices W.numbers.ring segments.now vertices → 16384 < length vertices) }
{
    let mut steps: Steps<L> = Steps::new(blank);
    pieces(alloc, segments, &mut steps)
}

/// The coordinates scaled, and the drawing of the segments that are kept.
pub fn cut_ends<N: Exact>(
    alloc: Global,
    ends: &Ends<N>,
    flat: Flat,
) -> Result<(Scaled<N::Ring>, Drawing<N::Ring>), RepairFault>
    requires few { length ends.now.coords < 2 ^ 32 }
    requires in_range { AreInRange ends.now.coords ends.now.edges }
    ensures cut { IfOk result (λ r. AreCutInto N.parts N.Ring.numbers flat ends.now r.0 r.1) }
    ensures refused { IfErr result (λ e. IsMemory e ⊎ ((faces : AnyFaces) → IsRefusal N.parts N.Ring.numbers flat ends.now faces e)) }
    ensures not_drawn { IfErr result (λ e. (v : ℕ) → ¬ (e ≡ RepairFault.TooWide v Drawn)) }
{
    let scaled = scale_all(alloc, &ends.coords)?;
    let segments = segments_kept(alloc, scaled.points.as_slice(), ends.edges.as_slice(), flat)?;
    let drawing = counted_pieces::<N::Ring, Brand>(alloc, Blank::new(1), &segments)?;
    Ok((scaled, drawing))
}
