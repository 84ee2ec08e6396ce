ghost use Rattle.std.specs.Prelude.{◌≡◌, ◌≢◌, ◌+◌, ◌<◌, ◌≤◌, ℕ, false, All, AllPairs, IsTrue, MatchOption, ⊤, drop, length, max, min};
ghost use Rattle.std.specs.Bool.{OnTrue, OnFalse};
ghost use Rattle.std.specs.Ordering.{is_le};
ghost use Rattle.plane.specs.Points.{point_order};
ghost use Rattle.scaled_plane.specs.Counts.{x_order};
ghost use Rattle.scaled_plane.specs.Drawn.{IsScaledSegment};
ghost use Rattle.sheet_check.specs.Spans.{AreTested, ComesFrom, IsBefore, IsReachedBy, IsSpan, MeetBeside, MeetTwo, MeetsOne, pair_of};

use crate::meeting::meet_beside;
use crate::span::Span;
use arrangement::x_order;
use exact_number::Whole;
use segment_tests::Steps;
use std::sync::ledger::Ledger;

/// Whether a pair comes before the one that was found.
fn is_before(pair: (u32, u32), found: Option<(u32, u32)>) -> bool
    ensures before { OnTrue result (MatchOption found ⊤ (IsBefore pair)) }
    ensures reached { OnFalse result (IsReachedBy found pair) }
{
    match found {
        None => true,
        Some((low, high)) => pair.0 < low || pair.0 == low && pair.1 < high,
    }
}

/// The lesser of the pair that was found and this one, if its edges meet beside their ends.
fn test_pair<W: Whole, L: Ledger>(
    s: &Span<W>,
    t: &Span<W>,
    found: Option<(u32, u32)>,
    steps: &mut Steps<L>,
) -> Option<(u32, u32)>
    requires first { IsScaledSegment W.numbers s.now.segment }
    requires second { IsScaledSegment W.numbers t.now.segment }
    ensures from { ComesFrom found (λ p. (p ≡ pair_of (λ s. s.edge) s.now t.now) × MeetBeside W.numbers.ring s.now.segment t.now.segment) result }
    ensures kept { (p : ℕ × ℕ) → IsReachedBy found p → IsReachedBy result p }
    ensures tested { AreTested W.numbers.ring (λ s. s.segment) (λ s. s.edge) result s.now t.now }
{
    let pair = (s.edge.min(t.edge), s.edge.max(t.edge));
    if !is_before(pair, found) {
        return found;
    }
    if meet_beside(s.segment, t.segment, steps) {
        Some(pair)
    } else {
        found
    }
}

/// How many of the spans that come next begin before x is past the end of this one.
fn count_near<W: Whole>(span: &Span<W>, rest: &[Span<W>]) -> usize
    requires in_order { AllPairs (λ s t. IsTrue (is_le (point_order W.numbers.ring s.left.point t.left.point))) rest.now }
    ensures within { result ≤ length rest.now }
    ensures far { All (λ t. is_le (x_order W.numbers.ring t.left.point span.now.right.point) ≡ false) (drop result rest.now) }
{
    rest.partition_point(|next| x_order(next.left.point, span.right.point).is_le())
}

/// Tests a span with each of these.
fn test_near<W: Whole, L: Ledger>(
    s: &Span<W>,
    near: &[Span<W>],
    before: Option<(u32, u32)>,
    steps: &mut Steps<L>,
) -> Option<(u32, u32)>
    requires first { IsScaledSegment W.numbers s.now.segment }
    requires others { All (λ t. IsScaledSegment W.numbers t.segment) near.now }
    ensures from { ComesFrom before (MeetsOne W.numbers.ring (λ s. s.segment) (λ s. s.edge) s.now near.now) result }
    ensures kept { (p : ℕ × ℕ) → IsReachedBy before p → IsReachedBy result p }
    ensures tested { All (AreTested W.numbers.ring (λ s. s.segment) (λ s. s.edge) result s.now) near.now }
{
    let mut found = before;
    for t in near {
        found = test_pair(s, t, found, steps);
    }
    found
}

/// Tests a span with those of the rest that it shares an x with.
fn test_span<W: Whole, L: Ledger>(
    s: &Span<W>,
    rest: &[Span<W>],
    before: Option<(u32, u32)>,
    steps: &mut Steps<L>,
) -> Option<(u32, u32)>
    requires first { IsSpan W.numbers s.now.segment s.now.left.point s.now.right.point }
    requires others { All (λ t. IsSpan W.numbers t.segment t.left.point t.right.point) rest.now }
    requires in_order { AllPairs (λ s t. IsTrue (is_le (point_order W.numbers.ring s.left.point t.left.point))) rest.now }
    ensures from { ComesFrom before (MeetsOne W.numbers.ring (λ s. s.segment) (λ s. s.edge) s.now rest.now) result }
    ensures kept { (p : ℕ × ℕ) → IsReachedBy before p → IsReachedBy result p }
    ensures tested { All (AreTested W.numbers.ring (λ s. s.segment) (λ s. s.edge) result s.now) rest.now }
{
    let near = &rest[..count_near(s, rest)];
    test_near(s, near, before, steps)
}

/// The least of the pair that was found and the pairs of edges that meet beside their ends.
pub fn test_all<W: Whole, L: Ledger>(
    spans: &[Span<W>],
    before: Option<(u32, u32)>,
    steps: &mut Steps<L>,
) -> Option<(u32, u32)>
    requires spans { All (λ t. IsSpan W.numbers t.segment t.left.point t.right.point) spans.now }
    requires in_order { AllPairs (λ s t. IsTrue (is_le (point_order W.numbers.ring s.left.point t.left.point))) spans.now }
    requires different { AllPairs (λ s t. s.edge ≢ t.edge) spans.now }
    ensures from { ComesFrom before (MeetTwo W.numbers.ring (λ s. s.segment) (λ s. s.edge) spans.now) result }
    ensures kept { (p : ℕ × ℕ) → IsReachedBy before p → IsReachedBy result p }
    ensures tested { AllPairs (AreTested W.numbers.ring (λ s. s.segment) (λ s. s.edge) result) spans.now }
{
    let mut found = before;
    for place in 0..spans.len() {
        found = test_span(&spans[place], &spans[place + 1..], found, steps);
    }
    found
}
