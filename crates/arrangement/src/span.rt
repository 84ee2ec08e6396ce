ghost use Rattle.std.specs.Prelude.{◌≡◌, refl, Some, MatchOption, true, false, cond, [], ◌∷◌, ◌++◌, IsTrue, IfOk, OnOk, All, AllPairs, Contains, filter, map};
ghost use Rattle.std.specs.List.Sorted.{IsPermutation};
ghost use Rattle.std.specs.Ordering.{on, eq_by_cmp, as_partial_cmp, is_le};
ghost use Rattle.std.specs.Cmp.{on_total, partial_equiv_from_equiv, eq_by_cmp_equiv, partial_order_from_total};
ghost use Rattle.plane.specs.Points.{point_order};
ghost use Rattle.scaled_plane.specs.Counts.{left_end, right_end, x_order};
ghost use Rattle.scaled_plane.specs.Sizes.{IsDrawnSize};
ghost use Rattle.scaled_plane.specs.Drawn.{IsScaledPoint, IsScaledSegment};
ghost use Rattle.scaled_plane.specs.declared.point.Segment.{Segment as AnySegment};
ghost use Rattle.arrangement.specs.Spans.{IsSpan, is_proper};
ghost use Rattle.plane.proofs.Order.{points_total};

use crate::vertex::{Vertex, vertex_at};
use exact_number::{Whole, cross};
use plane::Point;
use scaled_plane::{Segment, compare_points};
use std::alloc::{AllocError, Global};
use std::cmp::Ordering;

/// A segment whose ends differ, with its ends from left to right. Spans are ordered by their left ends.
#[derive(Drop)]
pub struct Span<W: Whole> {
    pub left: Vertex<W>,
    pub right: Vertex<W>,
    pub segment: Segment<W>,
}

impl<W: Whole> PartialEq for Span<W> {
    ghost eq = { λ s t. eq_by_cmp (λ p q. point_order W.numbers.ring p q) s.left.point t.left.point };

    fn eq(&self, other: &Span<W>) -> bool {
        self.left == other.left
    }

    ghost laws = { partial_equiv_from_equiv (eq_by_cmp_equiv (on_total (λ s. (s.left.point, s.left.is_point)) (points_total W.numbers.ring))) };
}

impl<W: Whole> Eq for Span<W> {
    ghost laws = { eq_by_cmp_equiv (on_total (λ s. (s.left.point, s.left.is_point)) (points_total W.numbers.ring)) };
}

impl<W: Whole> PartialOrd for Span<W> {
    ghost partial_cmp = { λ s t. Some (point_order W.numbers.ring s.left.point t.left.point) };

    ghost laws = { partial_order_from_total (on_total (λ s. (s.left.point, s.left.is_point)) (points_total W.numbers.ring)) };

    fn partial_cmp(&self, other: &Span<W>) -> Option<Ordering> {
        Some(self.cmp(other))
    }
}

impl<W: Whole> Ord for Span<W> {
    ghost cmp = { λ s t. point_order W.numbers.ring s.left.point t.left.point };

    ghost total = { on_total (λ s. (s.left.point, s.left.is_point)) (points_total W.numbers.ring) };

    ghost matches_partial_cmp = { λ s t. refl };

    ghost matches_eq = { λ s t. refl };

    fn cmp(&self, other: &Span<W>) -> Ordering {
        self.left.cmp(&other.left)
    }
}

/// `Less` where p lies left of q, and `Equal` where it lies straight above or below.
pub fn x_order<W: Whole>(p: Point<W>, q: Point<W>) -> Ordering
    requires first { IsDrawnSize W.pair p }
    requires second { IsDrawnSize W.pair q }
    ensures { result ≡ x_order W.numbers.ring p q }
{
    cross(p.x, p.w, q.x, q.w).sign()
}

/// The end of a segment that lies more to the left, or the first where they lie above each other.
pub fn left_end<W: Whole>(s: Segment<W>) -> Point<W>
    requires { IsScaledSegment W.numbers s }
    ensures is { result ≡ left_end W.numbers.ring s }
    ensures scaled { IsScaledPoint W.numbers result }
{
    if x_order(s.from, s.to).is_le() {
        s.from
    } else {
        s.to
    }
}

/// The other end.
pub fn right_end<W: Whole>(s: Segment<W>) -> Point<W>
    requires { IsScaledSegment W.numbers s }
    ensures is { result ≡ right_end W.numbers.ring s }
    ensures scaled { IsScaledPoint W.numbers result }
{
    if x_order(s.from, s.to).is_le() {
        s.to
    } else {
        s.from
    }
}

/// Whether a segment's ends differ.
pub fn is_proper<W: Whole>(s: Segment<W>) -> bool
    requires { IsScaledSegment W.numbers s }
    ensures { result ≡ is_proper W.numbers.ring s }
{
    compare_points(s.from, s.to).is_ne()
}

/// A segment from left to right, if its ends differ.
fn span_of<W: Whole>(s: Segment<W>) -> Option<Span<W>>
    requires { IsScaledSegment W.numbers s }
    ensures { MatchOption result
        (is_proper W.numbers.ring s ≡ false)
        (λ span. (is_proper W.numbers.ring s ≡ true) × (span.segment ≡ s) × IsSpan W.numbers s span.left.point span.right.point) }
{
    if !is_proper(s) {
        return None;
    }
    Some(Span {
        left: vertex_at(left_end(s)),
        right: vertex_at(right_end(s)),
        segment: s,
    })
}

/// Appends a segment whose ends differ, and passes over another.
fn push_span<W: Whole>(spans: &mut Vec<Span<W>>, s: Segment<W>) -> Result<(), AllocError>
    requires { IsScaledSegment W.numbers s }
    ensures same { OnOk result (map (λ s. s.segment) spans.new.items
        ≡ map (λ s. s.segment) spans.old.items ++ cond (is_proper W.numbers.ring s) (s ∷ []) []) }
    ensures spans { OnOk result (All (λ s. IsSpan W.numbers s.segment s.left.point s.right.point) spans.old.items
        → All (λ s. IsSpan W.numbers s.segment s.left.point s.right.point) spans.new.items) }
{
    if let Some(span) = span_of(s) {
        spans.push(span)?;
    }
    Ok(())
}

/// The segments whose ends differ, from left to right.
fn proper_spans<W: Whole>(
    alloc: Global,
    segments: &[Segment<W>],
) -> Result<Vec<Span<W>>, AllocError>
    requires { (s : AnySegment W) → Contains segments.now s → IsScaledSegment W.numbers s }
    ensures same { IfOk result (λ spans. map (λ s. s.segment) spans.items ≡ filter (is_proper W.numbers.ring) segments.now) }
    ensures spans { IfOk result (λ spans. All (λ s. IsSpan W.numbers s.segment s.left.point s.right.point) spans.items) }
{
    let mut spans = Vec::new(alloc);
    for segment in segments {
        push_span(&mut spans, *segment)?;
    }
    Ok(spans)
}

/// The segments whose ends differ, in the order of their left ends.
pub fn spans_of<W: Whole>(
    alloc: Global,
    segments: &[Segment<W>],
) -> Result<Vec<Span<W>>, AllocError>
    requires { (s : AnySegment W) → Contains segments.now s → IsScaledSegment W.numbers s }
    ensures same { IfOk result (λ spans. IsPermutation (filter (is_proper W.numbers.ring) segments.now) (map (λ s. s.segment) spans.items)) }
    ensures spans { IfOk result (λ spans. All (λ s. IsSpan W.numbers s.segment s.left.point s.right.point) spans.items) }
    ensures in_order { IfOk result (λ spans. AllPairs (λ s t. IsTrue (is_le (point_order W.numbers.ring s.left.point t.left.point))) spans.items) }
{
    let mut spans = proper_spans(alloc, segments)?;
    spans.sort()?;
    Ok(spans)
}
