ghost use Rattle.std.specs.Prelude.{◌≡◌, ◌≢◌, ◌<◌, ◌≤◌, ℕ, All, AllPairs, Contains, IfOk, IsTrue, MatchOption, length};
ghost use Rattle.std.specs.Ordering.{is_le};
ghost use Rattle.plane.specs.Points.{point_order};
ghost use Rattle.scaled_plane.specs.declared.drawing.Edge.{Edge as AnyEdge};
ghost use Rattle.scaled_plane.specs.Drawn.{IsScaledPoint};
ghost use Rattle.scaled_plane.specs.Scaling.{IsFirstOf};
ghost use Rattle.sheet_check.specs.Passed.{IsFirstPair};
ghost use Rattle.sheet_check.specs.Spans.{AreInRange, AreTested, ComesFrom, IsFlat, IsNotPlane, IsReachedBy, IsSpan, MeetTwo};

use crate::span::{Span, spans_of};
use crate::sweep::test_all;
use exact_number::Whole;
use plane::Point;
use scaled_plane::Edge;
use segment_tests::Steps;
use std::alloc::{AllocError, Global};
use std::marker::Brand;
use std::sync::ledger::{Blank, Ledger};

/// The first edge whose ends are equal, as a pair.
fn first_flat(edges: &[Edge]) -> Option<(u32, u32)>
    requires { length edges.now ≤ 2048 }
    ensures { MatchOption result
        ((e : AnyEdge) → Contains edges.now e → ¬ (e.from ≡ e.to))
        (λ p. (p.0 ≡ p.1) × IsFirstOf (IsFlat edges.now) p.0) }
{
    for edge in 0..edges.len() {
        if edges[edge].from == edges[edge].to {
            return Some((edge as u32, edge as u32));
        }
    }
    None
}

/// The least of the pair that was found and the pairs of edges that meet beside their ends, with a count of the tests that
/// nobody reads.
fn counted_least<W: Whole, L: Ledger>(
    blank: Blank,
    spans: &[Span<W>],
    before: Option<(u32, u32)>,
) -> Option<(u32, u32)>
    requires name { blank.name ≡ L.name }
    requires parts { blank.parts ≡ L.parts }
    requires some { 0 < L.parts }
    requires spans { All (λ t. IsSpan W.numbers t.segment t.left.point t.right.point) spans.now }
    requires in_order { AllPairs (λ s t. IsTrue (is_le (point_order W.numbers.ring s.left.point t.left.point))) spans.now }
    requires different { AllPairs (λ s t. s.edge ≢ t.edge) spans.now }
    ensures from { ComesFrom before (MeetTwo W.numbers.ring (λ s. s.segment) (λ s. s.edge) spans.now) result }
    ensures kept { (p : ℕ × ℕ) → IsReachedBy before p → IsReachedBy result p }
    ensures tested { AllPairs (AreTested W.numbers.ring (λ s. s.segment) (λ s. s.edge) result) spans.now }
{
    let mut steps: Steps<L> = Steps::new(blank);
    test_all(spans, before, &mut steps)
}

/// The least two edges that have a common point which isn't an end of both, or the edge whose ends are equal, as a pair.
pub fn least_meeting<W: Whole>(
    alloc: Global,
    vertices: &[Point<W>],
    edges: &[Edge],
) -> Result<Option<(u32, u32)>, AllocError>
    requires scaled { All (IsScaledPoint W.numbers) vertices.now }
    requires ends { AreInRange (length vertices.now) edges.now }
    requires few { length edges.now ≤ 2048 }
    ensures { IfOk result (λ found. MatchOption found
        ((low high : ℕ) → ¬ IsNotPlane W.numbers.ring vertices.now edges.now low high)
        (IsFirstPair (IsNotPlane W.numbers.ring vertices.now edges.now))) }
{
    let spans = spans_of(alloc, vertices, edges)?;
    let flat = first_flat(edges);
    Ok(counted_least::<W, Brand>(Blank::new(1), spans.as_slice(), flat))
}
