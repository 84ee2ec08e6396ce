ghost use Rattle.std.specs.Prelude.{◌≡◌, ◌+◌, ◌≤◌, false, IsTrue, All, AllPairs, Contains, count_by, drop, length, map, take, IfErr, OnOk};
ghost use Rattle.std.specs.Ordering.{is_le};
ghost use Rattle.plane.specs.Points.{point_order};
ghost use Rattle.scaled_plane.specs.declared.point.Segment.{Segment as AnySegment};
ghost use Rattle.scaled_plane.specs.Counts.{pairs_sharing_x, share_x};
ghost use Rattle.arrangement.specs.Found.{Grows, HasCrossing, HasEnds, IsCrossed, IsCrossedBy, IsCrossedIn, IsTooMany, IsUsable};
ghost use Rattle.arrangement.specs.Spans.{IsSpan};

use crate::fault::PieceFault;
use crate::found::add_few;
use crate::span::{Span, x_order};
use crate::vertex::Vertex;
use exact_number::Whole;
use scaled_plane::Segment;
use segment_tests::{Meet, Steps, meet};
use std::collections::BTreeSet;
use std::sync::ledger::Ledger;

/// Tests two segments, and adds the point in which they cross.
fn cross_pair<W: Whole, L: Ledger>(
    found: &mut BTreeSet<Vertex<W>>,
    s: Segment<W>,
    t: Segment<W>,
    steps: &mut Steps<L>,
) -> Result<(), PieceFault>
    requires first { IsUsable W.numbers s }
    requires second { IsUsable W.numbers t }
    requires first_ends { HasEnds W.numbers.ring (map (λ v. v.point) found.old.keys) s }
    requires second_ends { HasEnds W.numbers.ring (map (λ v. v.point) found.old.keys) t }
    requires few { length found.old.keys ≤ 16384 }
    ensures grows { Grows W.numbers.ring (IsCrossed W.numbers.ring s t) (map (λ v. v.point) found.old.keys) (map (λ v. v.point) found.new.keys) }
    ensures has { OnOk result (HasCrossing W.numbers.ring (map (λ v. v.point) found.new.keys) s t) }
    ensures few { OnOk result (length found.new.keys ≤ 16384) }
    ensures too_many { IfErr result (λ e. e ≡ PieceFault.TooMany → IsTooMany W.numbers.ring (map (λ v. v.point) found.new.keys)) }
    ensures counted { steps.new ≡ steps.old + 1 }
{
    match meet(s, t, steps) {
        Meet::Apart => Ok(()),
        Meet::Touches(_) => Ok(()),
        Meet::Crosses(point) => add_few(found, point),
        Meet::Along(_, _) => Ok(()),
    }
}

/// How many of the spans that come next begin before x is past the end of this one.
fn count_near<W: Whole>(span: &Span<W>, rest: &[Span<W>]) -> usize
    requires span { IsSpan W.numbers span.now.segment span.now.left.point span.now.right.point }
    requires spans { All (λ s. IsSpan W.numbers s.segment s.left.point s.right.point) rest.now }
    requires first { All (λ t. IsTrue (is_le (point_order W.numbers.ring span.now.left.point t.left.point))) rest.now }
    requires in_order { AllPairs (λ s t. IsTrue (is_le (point_order W.numbers.ring s.left.point t.left.point))) rest.now }
    ensures within { result ≤ length rest.now }
    ensures near { All (λ t. IsTrue (share_x W.numbers.ring span.now.segment t.segment)) (take result rest.now) }
    ensures far { All (λ t. share_x W.numbers.ring span.now.segment t.segment ≡ false) (drop result rest.now) }
{
    rest.partition_point(|next| x_order(next.left.point, span.right.point).is_le())
}

/// Tests a segment with each of these.
fn cross_with<W: Whole, L: Ledger>(
    found: &mut BTreeSet<Vertex<W>>,
    s: Segment<W>,
    near: &[Span<W>],
    steps: &mut Steps<L>,
) -> Result<(), PieceFault>
    requires first { IsUsable W.numbers s }
    requires others { All (λ t. IsSpan W.numbers t.segment t.left.point t.right.point) near.now }
    requires first_ends { HasEnds W.numbers.ring (map (λ v. v.point) found.old.keys) s }
    requires other_ends { (t : AnySegment W) → Contains (map (λ t. t.segment) near.now) t → HasEnds W.numbers.ring (map (λ v. v.point) found.old.keys) t }
    requires few { length found.old.keys ≤ 16384 }
    ensures grows { Grows W.numbers.ring (IsCrossedBy W.numbers.ring s (map (λ t. t.segment) near.now)) (map (λ v. v.point) found.old.keys) (map (λ v. v.point) found.new.keys) }
    ensures has { OnOk result ((t : AnySegment W) → Contains (map (λ t. t.segment) near.now) t → HasCrossing W.numbers.ring (map (λ v. v.point) found.new.keys) s t) }
    ensures few { OnOk result (length found.new.keys ≤ 16384) }
    ensures too_many { IfErr result (λ e. e ≡ PieceFault.TooMany → IsTooMany W.numbers.ring (map (λ v. v.point) found.new.keys)) }
    ensures counted { OnOk result (steps.new ≡ steps.old + length near.now) }
    ensures counted_at_most { (steps.old ≤ steps.new) × (steps.new ≤ steps.old + length near.now) }
{
    for next in near {
        cross_pair(found, s, next.segment, steps)?;
    }
    Ok(())
}

/// Tests a segment with those of the rest that it shares an x with.
fn cross_near<W: Whole, L: Ledger>(
    found: &mut BTreeSet<Vertex<W>>,
    span: &Span<W>,
    rest: &[Span<W>],
    steps: &mut Steps<L>,
) -> Result<(), PieceFault>
    requires span { IsSpan W.numbers span.now.segment span.now.left.point span.now.right.point }
    requires spans { All (λ s. IsSpan W.numbers s.segment s.left.point s.right.point) rest.now }
    requires first { All (λ t. IsTrue (is_le (point_order W.numbers.ring span.now.left.point t.left.point))) rest.now }
    requires in_order { AllPairs (λ s t. IsTrue (is_le (point_order W.numbers.ring s.left.point t.left.point))) rest.now }
    requires first_ends { HasEnds W.numbers.ring (map (λ v. v.point) found.old.keys) span.now.segment }
    requires other_ends { (t : AnySegment W) → Contains (map (λ t. t.segment) rest.now) t → HasEnds W.numbers.ring (map (λ v. v.point) found.old.keys) t }
    requires few { length found.old.keys ≤ 16384 }
    ensures grows { Grows W.numbers.ring (IsCrossedBy W.numbers.ring span.now.segment (map (λ t. t.segment) rest.now)) (map (λ v. v.point) found.old.keys) (map (λ v. v.point) found.new.keys) }
    ensures has { OnOk result ((t : AnySegment W) → Contains (map (λ t. t.segment) rest.now) t → HasCrossing W.numbers.ring (map (λ v. v.point) found.new.keys) span.now.segment t) }
    ensures few { OnOk result (length found.new.keys ≤ 16384) }
    ensures too_many { IfErr result (λ e. e ≡ PieceFault.TooMany → IsTooMany W.numbers.ring (map (λ v. v.point) found.new.keys)) }
    ensures counted { OnOk result (steps.new ≡ steps.old + count_by (share_x W.numbers.ring span.now.segment) (map (λ t. t.segment) rest.now)) }
    ensures counted_at_most { (steps.old ≤ steps.new) × (steps.new ≤ steps.old + count_by (share_x W.numbers.ring span.now.segment) (map (λ t. t.segment) rest.now)) }
{
    let near = &rest[..count_near(span, rest)];
    cross_with(found, span.segment, near, steps)
}

/// Tests all pairs of segments that share an x.
pub fn cross_all<W: Whole, L: Ledger>(
    found: &mut BTreeSet<Vertex<W>>,
    spans: &[Span<W>],
    steps: &mut Steps<L>,
) -> Result<(), PieceFault>
    requires spans { All (λ s. IsSpan W.numbers s.segment s.left.point s.right.point) spans.now }
    requires in_order { AllPairs (λ s t. IsTrue (is_le (point_order W.numbers.ring s.left.point t.left.point))) spans.now }
    requires ends { (s : AnySegment W) → Contains (map (λ s. s.segment) spans.now) s → HasEnds W.numbers.ring (map (λ v. v.point) found.old.keys) s }
    requires few { length found.old.keys ≤ 16384 }
    ensures grows { Grows W.numbers.ring (IsCrossedIn W.numbers.ring (map (λ s. s.segment) spans.now)) (map (λ v. v.point) found.old.keys) (map (λ v. v.point) found.new.keys) }
    ensures has { OnOk result (AllPairs (HasCrossing W.numbers.ring (map (λ v. v.point) found.new.keys)) (map (λ s. s.segment) spans.now)) }
    ensures few { OnOk result (length found.new.keys ≤ 16384) }
    ensures too_many { IfErr result (λ e. e ≡ PieceFault.TooMany → IsTooMany W.numbers.ring (map (λ v. v.point) found.new.keys)) }
    ensures counted { OnOk result (steps.new ≡ steps.old + pairs_sharing_x W.numbers.ring (map (λ s. s.segment) spans.now)) }
    ensures counted_at_most { (steps.old ≤ steps.new) × (steps.new ≤ steps.old + pairs_sharing_x W.numbers.ring (map (λ s. s.segment) spans.now)) }
{
    for place in 0..spans.len() {
        cross_near(found, &spans[place], &spans[place + 1..], steps)?;
    }
    Ok(())
}
